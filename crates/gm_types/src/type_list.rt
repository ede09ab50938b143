// The types of a store.
ghost use Rattle.std.specs.Prelude.{◌≡◌, ◌<◌, ◌++◌, ◌∷◌, [], ◌↔◌, None, length, position};
ghost use Rattle.std.specs.Prelude.{slice_get, IsTrue, IfSome, OnOk, OnErr};
ghost use Rattle.std.specs.Option.{option_copied};
ghost use Rattle.gm_types.specs.TypeList.{AreTypes, number_of_name};
ghost use Rattle.gm_types.specs.Words.{same_text};

use crate::FeatureType;
use gm_base::NoMemory;
use std::alloc::Global;
use std::marker::Model;

/// Feature types with different names, each with its place in the list as its number.
#[derive(Debug, Drop)]
pub struct TypeList {
    types: Vec<FeatureType>,
}

impl Model for TypeList {
    ghost use Rattle.std.specs.Prelude.{List};
    ghost use Rattle.gm_types.specs.Specification.{Specification};
    ghost use Rattle.gm_types.specs.TypeList.{AreTypes};

    ghost Value = { List Specification };

    ghost view = { λ l. l.types.items };

    ghost invariant = { λ l. AreTypes l.types.items };
}

impl TypeList {
    pub fn new(alloc: Global) -> TypeList
        ensures { result ≡ [] }
    {
        TypeList {
            types: Vec::new(alloc),
        }
    }

    pub fn as_slice(&self) -> &[FeatureType]
        ensures list { result.now ≡ self.now }
        ensures types { AreTypes self.now }
    {
        self.types.as_slice()
    }

    pub fn len(&self) -> usize
        ensures { result ≡ length self.now }
    {
        self.types.len()
    }

    pub fn is_empty(&self) -> bool
        ensures { IsTrue result ↔ (self.now ≡ []) }
    {
        self.types.is_empty()
    }

    /// The number of the type with a name.
    pub fn number_of(&self, name: &[u8]) -> Option<u16>
        ensures { result ≡ number_of_name self.now name.now }
    {
        let place = place_of(self.types.as_slice(), name)?;
        Some(place as u16)
    }

    /// The type with a number.
    pub fn get(&self, number: u16) -> Option<&FeatureType>
        ensures { option_copied result ≡ slice_get self.now number }
    {
        self.types.get(usize::from(number))
    }

    /// Takes a further type. Its number is that of the types before it, and its name a new one.
    pub fn push(&mut self, of: FeatureType) -> Result<(), NoMemory>
        requires number { of.number ≡ length self.old }
        requires name { number_of_name self.old of.name ≡ None }
        ensures ok { OnOk result (self.new ≡ self.old ++ of ∷ []) }
        ensures err { OnErr result (self.new ≡ self.old) }
    {
        // For the proof alone: a number is below 2^16.
        let _number = of.number();
        self.types.push(of)?;
        Ok(())
    }
}

fn place_of(types: &[FeatureType], name: &[u8]) -> Option<usize>
    ensures value { result ≡ position (λ t. same_text t.name name.now) types.now }
    ensures within { IfSome result (λ place. place < length types.now) }
{
    types.iter().position(|of| of.name().as_bytes() == name)
}
