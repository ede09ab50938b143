// Identifiers of features.
ghost use Rattle.std.specs.Prelude.{◌≡◌, true, IfOk, MatchResult};
ghost use Rattle.gm_base.specs.Identifier.{is_identifier, has_identifier_form, is_printable, Fault};
ghost use Rattle.std.specs.List.{list_all};

use crate::{NoMemory, Text};
use std::alloc::Global;
use std::marker::Model;

/// The greatest number of bytes of an identifier.
pub const IDENTIFIER_LIMIT: usize = 128;

/// The identifier of a feature, seen as its bytes: UTF-8 of 1 to 128 bytes, none of them below 0x20
/// or equal to 0x7F.
#[derive(Debug, Drop)]
pub struct FeatureId {
    text: Text,
}

impl Model for FeatureId {
    ghost use Rattle.std.specs.Prelude.{◌≡◌, ℕ, List, true};
    ghost use Rattle.gm_base.specs.Identifier.{is_identifier};

    ghost Value = { List ℕ };

    ghost view = { λ id. id.text };

    ghost invariant = { λ id. is_identifier id.text ≡ true };
}

/// Why a text became no identifier.
#[derive(Clone, Copy, Debug, PartialEq, Eq)]
pub enum IdFault {
    /// The text is not of the form of an identifier.
    Form,

    /// There was no memory for it.
    NoMemory,
}

impl FeatureId {
    /// The identifier with these bytes.
    pub fn of(alloc: Global, text: &[u8]) -> Result<FeatureId, IdFault>
        ensures { MatchResult result (λ id. (id ≡ text.now)
            × (is_identifier text.now ≡ true)) (Fault text.now) }
    {
        let Ok(valid) = str::from_utf8(text) else {
            return Err(IdFault::Form);
        };
        if !has_form(text) {
            return Err(IdFault::Form);
        }
        match Text::from_str(alloc, valid) {
            Ok(text) => Ok(FeatureId { text }),
            Err(NoMemory) => Err(IdFault::NoMemory),
        }
    }

    pub fn as_bytes(&self) -> &[u8]
        ensures bytes { result.now ≡ self.now }
        ensures form { is_identifier self.now ≡ true }
    {
        self.text.as_bytes()
    }

    pub fn as_str(&self) -> &str
        ensures bytes { result.now ≡ self.now }
        ensures form { is_identifier self.now ≡ true }
    {
        self.text.as_str()
    }

    pub fn copy(&self, alloc: Global) -> Result<FeatureId, NoMemory>
        ensures { IfOk result (λ copy. copy ≡ self.now) }
    {
        Ok(FeatureId {
            text: self.text.copy(alloc)?,
        })
    }
}

// Whether the bytes have the length and none of the bytes that are refused.
fn has_form(bytes: &[u8]) -> bool
    ensures { result ≡ has_identifier_form bytes.now }
{
    !bytes.is_empty() && bytes.len() <= IDENTIFIER_LIMIT && are_printable(bytes)
}

// Whether no byte is a control character.
fn are_printable(bytes: &[u8]) -> bool
    ensures { result ≡ list_all is_printable bytes.now }
{
    bytes.iter().all(|byte| 32 <= *byte && *byte != 127)
}
