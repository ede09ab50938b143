// Values of attributes.
ghost use Rattle.std.specs.Prelude.{◌≡◌, IfOk};

use crate::shape::copy_geometry;
use gm_base::{Items, NoMemory, Text};
use gm_calendar::Instant;
use gm_geom::Geometry;
use std::alloc::Global;

/// The value of an attribute.
#[derive(Debug, Drop)]
pub enum Value {
    /// No value.
    Null,

    Text(Text),

    Integer(i32),

    Long(i64),

    Boolean(bool),

    Date(Instant),

    Geo(Geometry),
}

/// Values, one for each attribute of a type, in its order.
pub type Values = Items<Value>;

impl Value {
    /// The value again, whole or not at all.
    pub fn copy(&self, alloc: Global) -> Result<Value, NoMemory>
        ensures { IfOk result (λ copy. copy ≡ self.now) }
    {
        Ok(match self {
            Value::Null => Value::Null,
            Value::Text(text) => Value::Text(text.copy(alloc)?),
            Value::Integer(number) => Value::Integer(*number),
            Value::Long(number) => Value::Long(*number),
            Value::Boolean(truth) => Value::Boolean(*truth),
            Value::Date(at) => Value::Date(*at),
            Value::Geo(geometry) => Value::Geo(copy_geometry(alloc, geometry)?),
        })
    }
}
