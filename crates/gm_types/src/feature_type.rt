// Feature types: specifications with what follows from them at hand.
ghost use Rattle.std.specs.Prelude.{◌≡◌, ◌≤◌, slice_get, IsTrue, true, IfOk, IfNone, IfSome};
ghost use Rattle.gm_types.specs.declared.index.IndexKind.{IndexKind};
ghost use Rattle.gm_types.specs.Facts.{AreFactsOf};
ghost use Rattle.gm_types.specs.FeatureType.{IsType, IsGeometryAt, IsDateAt};
ghost use Rattle.gm_types.specs.Index.{fits_index, has_index, index_meant, index_name};
ghost use Rattle.gm_types.specs.Index.{index_of_name, is_indexed_one};
ghost use Rattle.gm_types.specs.Outline.{outlined};
ghost use Rattle.gm_types.specs.Specification.{place_of_name, default_geometry_of, default_date_of};
ghost use Rattle.gm_types.specs.Specification.{most_shards};
ghost use Rattle.gm_types.specs.Specification.{period_of, shards_of, precision_of, z2_bits_of};
ghost use Rattle.gm_types.specs.Specification.{z3_bits_of, is_precision, is_z2_width, is_z3_width};

use crate::copies::copy_outline;
use crate::dates::place_named;
use crate::facts::Facts;
use crate::naming::index_meant;
use crate::outline::Outline;
use crate::{Attribute, AttributeList, DataList, IndexKind};
use gm_base::{NoMemory, Text};
use gm_calendar::Period;
use std::alloc::Global;
use std::marker::Model;

/// A feature type, seen as its specification. It breaks no rule of specifications and has 1 to 64
/// attributes. The calls that read it take no memory.
#[derive(Debug, Drop)]
pub struct FeatureType {
    outline: Outline,
    facts: Facts,
}

impl Model for FeatureType {
    ghost use Rattle.gm_types.specs.Specification.{Specification};

    ghost Value = { Specification };

    ghost use Rattle.gm_types.specs.Kept.{kept, IsKept};

    ghost view = { kept };

    ghost invariant = { IsKept };
}

impl FeatureType {
    /// The type of an outline whose parts go together.
    pub(crate) fn new(outline: Outline, facts: Facts) -> FeatureType
        requires typed { IsType (outlined outline) }
        requires facts { AreFactsOf (outlined outline) facts }
        ensures { result ≡ outlined outline }
    {
        FeatureType { outline, facts }
    }

    /// A copy, whole or not at all.
    pub fn copy(&self, alloc: Global) -> Result<FeatureType, NoMemory>
        ensures { IfOk result (λ copy. copy ≡ self.now) }
    {
        let facts = self.facts;
        let outline = copy_outline(alloc, &self.outline)?;
        Ok(FeatureType { outline, facts })
    }

    pub(crate) fn outline(&self) -> &Outline
        ensures { outlined result.now ≡ self.now }
    {
        &self.outline
    }

    pub fn name(&self) -> &Text
        ensures { result.now ≡ self.now.name }
    {
        &self.outline.name
    }

    /// The number of the type in its store, and in the keys of its features.
    pub fn number(&self) -> u16
        ensures { result ≡ self.now.number }
    {
        self.outline.number
    }

    pub fn attributes(&self) -> &AttributeList
        ensures list { result.now ≡ self.now.attributes }
        ensures form { IsType self.now }
    {
        &self.outline.attributes
    }

    /// The user data in the order given.
    pub fn user_data(&self) -> &DataList
        ensures { result.now ≡ self.now.data }
    {
        &self.outline.user_data
    }

    /// The number of the attribute with a name.
    #[tactic(auto, unfolding(crate::specs::Specification::place_of_name))]
    pub fn attribute_named(&self, name: &[u8]) -> Option<u16>
        ensures { result ≡ place_of_name self.now name.now }
    {
        let place = place_named(self.outline.attributes.as_slice(), name)?;
        Some(place as u16)
    }

    /// The number of the default geometry: of the one with `*`, else of the first.
    pub fn default_geometry(&self) -> Option<u16>
        ensures value { result ≡ default_geometry_of self.now }
        ensures kind { IfSome result (IsGeometryAt self.now) }
    {
        let place = self.outline.geometry?;
        Some(place as u16)
    }

    /// The number of the default date.
    pub fn default_date(&self) -> Option<u16>
        ensures value { result ≡ default_date_of self.now }
        ensures kind { IfSome result (IsDateAt self.now) }
    {
        let place = self.facts.times.date?;
        Some(place as u16)
    }

    pub fn period(&self) -> Period
        ensures { result ≡ period_of self.now }
    {
        self.facts.times.period
    }

    /// The number of shards of the indexes over space: 1 to 127.
    pub fn shards(&self) -> u8
        ensures value { result ≡ shards_of self.now }
        ensures some { 1 ≤ result }
        ensures few { result ≤ most_shards }
    {
        self.facts.sizes.shards
    }

    /// The bits of each coordinate in the index `z2`.
    pub fn z2_bits(&self) -> u32
        ensures value { result ≡ z2_bits_of self.now }
        ensures listed { IsTrue (is_z2_width result) }
    {
        self.facts.sizes.z2_bits
    }

    /// The bits of each coordinate and of the time in the index `z3`.
    pub fn z3_bits(&self) -> u32
        ensures value { result ≡ z3_bits_of self.now }
        ensures listed { IsTrue (is_z3_width result) }
    {
        self.facts.sizes.z3_bits
    }

    /// The levels of the trees of the indexes `xz2` and `xz3`.
    pub fn precision(&self) -> u32
        ensures value { result ≡ precision_of self.now }
        ensures listed { IsTrue (is_precision result) }
    {
        self.facts.sizes.precision
    }

    /// The enabled index with a name: `id`, `z2`, `z3`, `xz2`, `xz3`, or `attr:` and the name of
    /// the attribute.
    pub fn index_named(&self, name: &[u8]) -> Option<IndexKind>
        ensures value { result ≡ index_of_name self.now name.now }
        ensures named { IfSome result (λ kind. (has_index self.now kind ≡ true)
            × (index_name self.now kind ≡ name.now)) }
        ensures none { IfNone result ((kind : IndexKind) → has_index self.now kind ≡ true
            → index_name self.now kind ≡ name.now → ⊥) }
    {
        let kind = self.index_meant(name)?;
        if self.has(kind) {
            return Some(kind);
        }
        None
    }

    fn index_meant(&self, name: &[u8]) -> Option<IndexKind>
        ensures meant { result ≡ index_meant self.now.attributes name.now }
        ensures typed { IsType self.now }
    {
        index_meant(self.outline.attributes.as_slice(), name)
    }

    /// Whether an index is enabled.
    pub fn has(&self, kind: IndexKind) -> bool
        ensures value { result ≡ has_index self.now kind }
        ensures fits { IsTrue result → IsTrue (fits_index self.now kind) }
    {
        let enabled = &self.facts.enabled;
        match kind {
            IndexKind::Id => true,
            IndexKind::Z2 => enabled.z2,
            IndexKind::Z3 => enabled.z3,
            IndexKind::Xz2 => enabled.xz2,
            IndexKind::Xz3 => enabled.xz3,
            IndexKind::Attr(number) => {
                is_indexed(self.outline.attributes.as_slice(), number) && enabled.by_attribute
            }
        }
    }
}

// Whether the attribute with that number is indexed, where there is one.
fn is_indexed(attributes: &[Attribute], number: u16) -> bool
    ensures { result ≡ is_indexed_one (slice_get attributes.now number) }
{
    match attributes.get(usize::from(number)) {
        Some(attribute) => attribute.indexed,
        None => false,
    }
}
