//! Feature types: what the attributes of features are, which indexes a type has, and how a type is
//! specified in text.
#![tactic(auto)]

mod attribute;
mod attribute_reader;
mod copies;
mod data_reader;
mod dates;
mod datum;
mod distinct;
mod facts;
mod fault;
mod feature_type;
mod fits;
mod halt;
mod index;
mod indexes;
mod kind;
mod laws;
mod naming;
mod outline;
mod parts;
mod printer;
mod reader;
mod sameness;
mod settings;
mod type_list;
mod words;

pub use attribute::{Attribute, AttributeList, AttributeOption, OptionList};
pub use datum::{DataList, Datum};
pub use fault::SpecFault;
pub use feature_type::FeatureType;
pub use index::IndexKind;
pub use indexes::{IndexList, enabled_indexes, index_name};
pub use kind::{GeoKind, Kind};
pub use laws::{
    canonical_texts_read_back, read_types_are_spelled, read_types_are_valid,
    spelled_types_are_read, types_hold_together,
};
pub use printer::print_spec;
pub use reader::{ATTRIBUTE_LIMIT, read_spec};
pub use sameness::is_same;
pub use type_list::TypeList;
pub use words::is_name;
