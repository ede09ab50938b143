// The six kinds of geometry.
use crate::Point;
use gm_base::Items;

/// The points of a line or a ring in their order, or those of a MULTIPOINT.
pub type Points = Items<Point>;

/// The rings of a polygon. The first is the outer ring, the others are holes. Each ends with the
/// point that it begins with.
pub type Rings = Items<Points>;

/// The lines of a MULTILINESTRING.
pub type Lines = Items<Points>;

/// The polygons of a MULTIPOLYGON.
pub type Areas = Items<Rings>;

/// A geometry of OGC Simple Features, in two dimensions.
#[derive(Debug, Drop)]
pub enum Geometry {
    /// POINT.
    Point(Point),

    /// LINESTRING.
    Line(Points),

    /// POLYGON.
    Area(Rings),

    /// MULTIPOINT.
    ManyPoints(Points),

    /// MULTILINESTRING.
    ManyLines(Lines),

    /// MULTIPOLYGON.
    ManyAreas(Areas),
}
