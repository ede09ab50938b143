// User data of a type.
use gm_base::{Items, Text};

/// A user datum of a type, such as `geomesa.z.splits=8`.
#[derive(Debug, Drop)]
pub struct Datum {
    pub key: Text,
    pub value: Text,
}

/// User data, in the order given.
pub type DataList = Items<Datum>;
