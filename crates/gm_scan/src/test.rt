// A filter whose geometries are prepared and whose lists are sorted.
ghost use Rattle.std.specs.Prelude.{◌≡◌, true, IfOk, map};
ghost use Rattle.gm_feature.specs.declared.feature.Feature.{Feature};
ghost use Rattle.gm_feature.specs.Stored.{IsStored};
ghost use Rattle.gm_filter.specs.Suitability.{Suits, all_suit};
ghost use Rattle.gm_filter.specs.Tree.{tree, trees_of};
ghost use Rattle.gm_filter.specs.Truth.{is_true, are_all_true, is_any_true};
ghost use Rattle.gm_scan.specs.Test.{tree_of};

use crate::identifiers::Identifiers;
use crate::literals::Literals;
use crate::target::Target;
use gm_base::NoMemory;
use gm_feature::Stored;
use gm_filter::{Filter, holds_stored};
use gm_types::FeatureType;
use std::alloc::Global;

/// A filter that is made once and tried on many features: each geometry that a value is to meet is
/// prepared, and each list sorted. Contracts see the tree of the filter.
#[derive(Drop)]
pub(crate) enum Test<'a> {
    /// A filter without such a geometry or list.
    Plain(&'a Filter),

    Not(Box<Test<'a>>),

    And(Vec<Test<'a>>),

    Or(Vec<Test<'a>>),

    OneOf(u16, Literals<'a>),

    Ids(Identifiers<'a>),

    Intersects(u16, Target),

    Disjoint(u16, Target),

    Within(u16, Target),
}

/// The test of a filter that suits the type.
#[cycle(preparing)]
pub(crate) fn test_of<'a>(
    alloc: Global,
    of: &FeatureType,
    filter: &'a Filter,
) -> Result<Test<'a>, NoMemory>
    requires { Suits of.now (tree filter.now) }
    ensures { IfOk result (λ test. tree_of test ≡ tree filter.now) }
{
    match filter {
        Filter::Not(inner) => Ok(Test::Not(Box::new(alloc, test_of(alloc, of, inner)?)?)),
        Filter::And(members) => Ok(Test::And(tests_of(alloc, of, members)?)),
        Filter::Or(members) => Ok(Test::Or(tests_of(alloc, of, members)?)),
        Filter::OneOf(at, literals) => {
            Ok(Test::OneOf(*at, Literals::of(alloc, literals.as_slice())?))
        }
        Filter::Ids(texts) => Ok(Test::Ids(Identifiers::of(alloc, texts.as_slice())?)),
        Filter::Intersects(at, geometry) => {
            Ok(Test::Intersects(*at, Target::of(alloc, geometry)?))
        }
        Filter::Disjoint(at, geometry) => { Ok(Test::Disjoint(*at, Target::of(alloc, geometry)?)) }
        Filter::Within(at, area) => Ok(Test::Within(*at, Target::of(alloc, area)?)),
        _ => Ok(Test::Plain(filter)),
    }
}

#[cycle(preparing)]
fn tests_of<'a>(
    alloc: Global,
    of: &FeatureType,
    filters: &'a [Filter],
) -> Result<Vec<Test<'a>>, NoMemory>
    requires { all_suit of.now (trees_of (map tree filters.now)) ≡ true }
    ensures { IfOk result (λ tests. map tree_of tests.items ≡ map tree filters.now) }
{
    let mut tests = Vec::with_capacity(alloc, filters.len())?;
    'members: for filter in filters {
        tests.push(test_of(alloc, of, filter)?)?;
    }
    Ok(tests)
}

/// Whether a stored feature passes. Its values are read in place, and its recursion is as deep as
/// the filter.
#[cycle(passing)]
pub(crate) fn passes(alloc: Global, test: &Test<'_>, stored: &Stored<'_>) -> Result<bool, NoMemory>
    requires suits { Suits stored.now.of.now (tree_of test.now) }
    requires stored { (f : Feature) × IsStored stored.now f }
    ensures { (f : Feature) → IsStored stored.now f
        → IfOk result (λ b. b ≡ is_true f (tree_of test.now)) }
{
    match test {
        Test::Plain(filter) => holds_stored(alloc, filter, stored),
        Test::Not(inner) => Ok(!passes(alloc, inner, stored)?),
        Test::And(members) => pass_all(alloc, members, stored),
        Test::Or(members) => pass_any(alloc, members, stored),
        Test::OneOf(at, literals) => Ok(literals.have_value_at(stored, *at)),
        Test::Ids(identifiers) => Ok(identifiers.have_id_of(stored)),
        Test::Intersects(at, target) => target.meets_at(alloc, stored, *at),
        Test::Disjoint(at, target) => target.is_apart_at(alloc, stored, *at),
        Test::Within(at, target) => Ok(target.has_within_at(stored, *at)),
    }
}

#[cycle(passing)]
fn pass_all(alloc: Global, tests: &[Test<'_>], stored: &Stored<'_>) -> Result<bool, NoMemory>
    requires suits { all_suit stored.now.of.now (trees_of (map tree_of tests.now)) ≡ true }
    requires stored { (f : Feature) × IsStored stored.now f }
    ensures { (f : Feature) → IsStored stored.now f
        → IfOk result (λ b. b ≡ are_all_true f (trees_of (map tree_of tests.now))) }
{
    'members: for test in tests {
        if !passes(alloc, test, stored)? {
            return Ok(false);
        }
    }
    Ok(true)
}

#[cycle(passing)]
fn pass_any(alloc: Global, tests: &[Test<'_>], stored: &Stored<'_>) -> Result<bool, NoMemory>
    requires suits { all_suit stored.now.of.now (trees_of (map tree_of tests.now)) ≡ true }
    requires stored { (f : Feature) × IsStored stored.now f }
    ensures { (f : Feature) → IsStored stored.now f
        → IfOk result (λ b. b ≡ is_any_true f (trees_of (map tree_of tests.now))) }
{
    'members: for test in tests {
        if passes(alloc, test, stored)? {
            return Ok(true);
        }
    }
    Ok(false)
}
