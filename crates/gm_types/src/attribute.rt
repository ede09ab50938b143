// Attributes of a type.
use crate::Kind;
use gm_base::{Items, Text};

/// An option of an attribute, such as `index=full`.
#[derive(Debug, Drop)]
pub struct AttributeOption {
    pub key: Text,
    pub value: Text,
}

/// The options of an attribute, in the order given.
pub type OptionList = Items<AttributeOption>;

/// An attribute: its name and kind, whether it is asked to be indexed and is no geometry, whether
/// its values are said to be of high cardinality, and its options, from which the two come.
#[derive(Debug, Drop)]
pub struct Attribute {
    pub name: Text,
    pub kind: Kind,
    pub indexed: bool,
    pub high: bool,
    pub options: OptionList,
}

/// Attributes, in order.
pub type AttributeList = Items<Attribute>;
