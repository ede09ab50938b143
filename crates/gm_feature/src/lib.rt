//! Features of a type: their values, whether they fit the type, and their bytes.
#![tactic(auto)]

mod cursor;
mod feature;
mod fit;
mod fronts;
mod halt;
mod laws;
mod lists;
mod number;
mod reader;
mod shape;
mod skips;
mod spans;
mod stored;
mod value;
mod writer;

pub use cursor::StoredValues;
pub use feature::{Feature, FeatureList};
pub use fit::{TEXT_LIMIT, dates_fit, fits, has_text_form, value_fits};
pub use laws::{
    bytes_tell_features_apart, fitting_features_have_few_bytes, fitting_features_have_values,
    spellings_are_read, stored_texts_are_utf8,
};
pub use reader::from_bytes;
pub use shape::{copy_geometry, has_shape};
pub use stored::{Stored, StoredGeometry, StoredValue};
pub use value::{Value, Values};
pub use writer::to_bytes;
