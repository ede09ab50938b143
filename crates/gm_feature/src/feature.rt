// Features.
ghost use Rattle.std.specs.Prelude.{◌≡◌, ◌<◌, length, IfOk};
ghost use Rattle.gm_feature.specs.Feature.{value_at};

use crate::{Value, Values};
use gm_base::{FeatureId, Items, NoMemory};
use std::alloc::Global;

/// An identifier, and the values of the attributes of a type in their order.
#[derive(Debug, Drop)]
pub struct Feature {
    pub id: FeatureId,
    pub values: Values,
}

/// Features, in the order given.
pub type FeatureList = Items<Feature>;

impl Feature {
    /// The value of the attribute with that number, from 0.
    pub fn value(&self, attribute: u16) -> &Value
        requires { attribute < length self.now.values }
        ensures { result.now ≡ value_at self.now attribute }
    {
        &self.values.as_slice()[attribute as usize]
    }

    /// The feature again, whole or not at all.
    pub fn copy(&self, alloc: Global) -> Result<Feature, NoMemory>
        ensures { IfOk result (λ copy. copy ≡ self.now) }
    {
        let id = self.id.copy(alloc)?;
        let values = copy_values(alloc, &self.values)?;
        Ok(Feature { id, values })
    }
}

fn copy_values(alloc: Global, values: &Values) -> Result<Values, NoMemory>
    ensures { IfOk result (λ copy. copy ≡ values.now) }
{
    let mut copies = Vec::with_capacity(alloc, values.len())?;
    'values: for value in values.as_slice() {
        copies.push(value.copy(alloc)?)?;
    }
    Ok(Items::from_vec(copies))
}
