// Whether a filter is true of a feature whose bytes are read in place.
ghost use Rattle.std.specs.Prelude.{◌≡◌, true, IfOk, map};
ghost use Rattle.gm_feature.specs.declared.feature.Feature.{Feature};
ghost use Rattle.gm_feature.specs.Stored.{IsStored};
ghost use Rattle.gm_filter.specs.Suitability.{Suits, all_suit};
ghost use Rattle.gm_filter.specs.Tree.{tree, trees_of};
ghost use Rattle.gm_filter.specs.Trial.{HasFeature};
ghost use Rattle.gm_filter.specs.Truth.{is_true, are_all_true, is_any_true};

use crate::stored_meeting::{is_apart_at, is_within_at, meets_area_at, meets_at};
use crate::stored_tests::{
    compares_at, compares_date_at, is_between_at, is_during_at, is_like_at, is_null_at,
    is_one_of_at,
};
use crate::truth::is_among;
use crate::{Filter, Op};
use gm_base::NoMemory;
use gm_feature::Stored;
use std::alloc::Global;

/// Whether the filter is true of the feature that is stored. It makes no feature, and takes memory
/// only for a geometry that is no point and whose bounds overlap those of what it is to meet. Its
/// recursion is as deep as the filter.
pub fn holds_stored(alloc: Global, filter: &Filter, stored: &Stored<'_>) -> Result<bool, NoMemory>
    requires suits { Suits stored.now.of.now (tree filter.now) }
    requires stored { (f : Feature) × IsStored stored.now f }
    ensures { (f : Feature) → IsStored stored.now f
        → IfOk result (λ b. b ≡ is_true f (tree filter.now)) }
{
    is_passed(alloc, filter, stored)
}

#[cycle(passing)]
fn is_passed(alloc: Global, filter: &Filter, stored: &Stored<'_>) -> Result<bool, NoMemory>
    requires suits { Suits stored.now.of.now (tree filter.now) }
    requires stored { HasFeature stored.now }
    ensures { (f : Feature) → IsStored stored.now f
        → IfOk result (λ b. b ≡ is_true f (tree filter.now)) }
{
    match filter {
        Filter::Include => Ok(true),
        Filter::Exclude => Ok(false),
        Filter::Not(inner) => Ok(!is_passed(alloc, inner, stored)?),
        Filter::And(members) => are_all_passed(alloc, members, stored),
        Filter::Or(members) => is_any_passed(alloc, members, stored),
        Filter::Compare(at, op, to) => Ok(compares_at(stored, *at, *op, to)),
        Filter::Between(at, low, high) => Ok(is_between_at(stored, *at, low, high)),
        Filter::Like(at, pattern) => Ok(is_like_at(stored, *at, pattern)),
        Filter::OneOf(at, literals) => Ok(is_one_of_at(stored, *at, literals.as_slice())),
        Filter::IsNull(at) => Ok(is_null_at(stored, *at)),
        Filter::Ids(texts) => Ok(is_among(stored.id(), texts)),
        Filter::Bbox(at, area) => meets_area_at(alloc, stored, *at, *area),
        Filter::Intersects(at, geometry) => meets_at(alloc, stored, *at, geometry),
        Filter::Disjoint(at, geometry) => is_apart_at(alloc, stored, *at, geometry),
        Filter::Within(at, geometry) => Ok(is_within_at(stored, *at, geometry)),
        Filter::During(at, low, high) => Ok(is_during_at(stored, *at, *low, *high)),
        Filter::Before(at, end) => Ok(compares_date_at(stored, *at, Op::Lt, *end)),
        Filter::After(at, start) => Ok(compares_date_at(stored, *at, Op::Gt, *start)),
        Filter::Tequals(at, to) => Ok(compares_date_at(stored, *at, Op::Eq, *to)),
    }
}

#[cycle(passing)]
fn are_all_passed(alloc: Global, filters: &[Filter], stored: &Stored<'_>) -> Result<bool, NoMemory>
    requires suits { all_suit stored.now.of.now (trees_of (map tree filters.now)) ≡ true }
    requires stored { HasFeature stored.now }
    ensures { (f : Feature) → IsStored stored.now f
        → IfOk result (λ b. b ≡ are_all_true f (trees_of (map tree filters.now))) }
{
    'members: for filter in filters {
        if !is_passed(alloc, filter, stored)? {
            return Ok(false);
        }
    }
    Ok(true)
}

#[cycle(passing)]
fn is_any_passed(alloc: Global, filters: &[Filter], stored: &Stored<'_>) -> Result<bool, NoMemory>
    requires suits { all_suit stored.now.of.now (trees_of (map tree filters.now)) ≡ true }
    requires stored { HasFeature stored.now }
    ensures { (f : Feature) → IsStored stored.now f
        → IfOk result (λ b. b ≡ is_any_true f (trees_of (map tree filters.now))) }
{
    'members: for filter in filters {
        if is_passed(alloc, filter, stored)? {
            return Ok(true);
        }
    }
    Ok(false)
}
