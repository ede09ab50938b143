// What a line asks for.
use gm_base::FeatureId;
use gm_ecql::Change;
use gm_feature::Feature;
use gm_filter::Filter;
use gm_types::{FeatureType, IndexKind};

/// A question of the features of a type: through which index, if it is said, with about how many
/// ranges of keys, and which features are wanted.
#[derive(Debug, Drop)]
pub struct Ask {
    pub number: u16,
    pub hint: Option<IndexKind>,
    pub target: u64,
    pub filter: Filter,
}

/// What a line asks for. A number that stands first is that of a type, in order of creation from 0.
#[derive(Debug, Drop)]
pub enum Command {
    /// The line is empty or a comment, and gives no reply.
    Nothing,

    /// Makes the type.
    Create(FeatureType),

    /// Binds the identifier to the feature.
    Put(u16, Feature),

    /// Unbinds the identifier.
    Delete(u16, FeatureId),

    /// Unbinds each feature of which the filter is true.
    Remove(u16, Filter),

    /// Gives an attribute a new value in each feature of which the filter is true.
    Modify(u16, Change),

    /// Asks for the features.
    Query(Ask),

    /// Asks how many there are.
    Count(Ask),

    /// Asks which ranges of keys would be read.
    Explain(Ask),

    /// Asks what the type is.
    Describe(u16),
}
