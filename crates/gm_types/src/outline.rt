// What a specification says.
use crate::{AttributeList, DataList};
use gm_base::Text;

/// The parts of a specification, before it is known that they go together. The place of the default
/// geometry is that of the attribute with `*`, else of the first geometry.
#[derive(Debug, Drop)]
pub(crate) struct Outline {
    pub name: Text,
    pub number: u16,
    pub attributes: AttributeList,
    pub user_data: DataList,
    pub geometry: Option<usize>,
}
