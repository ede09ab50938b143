// Bounds of what a filter can be true of.
use crate::{ByteRange, Interval};
use gm_base::{FeatureId, Items};
use gm_geom::Box2;

/// What a filter says of where to look: nothing, or a list of places, with nothing to be found
/// elsewhere.
#[derive(Debug, Drop)]
pub enum Bound<T> {
    World,
    Listed(Items<T>),
}

/// The listed boxes.
pub type BoxList = Items<Box2>;

/// The listed intervals.
pub type IntervalList = Items<Interval>;

/// The listed ranges of bytes.
pub type ByteRangeItems = Items<ByteRange>;

/// The listed identifiers.
pub type IdList = Items<FeatureId>;

/// Boxes of the default geometry.
pub type Boxes = Bound<Box2>;

/// Intervals of the default date.
pub type Intervals = Bound<Interval>;

/// Ranges of the lexicoded values of an attribute.
pub type ByteBounds = Bound<ByteRange>;

/// Identifiers of features.
pub type IdSet = Bound<FeatureId>;
