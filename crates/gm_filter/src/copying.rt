// Copies of filters.
ghost use Rattle.std.specs.Prelude.{◌≡◌, IfOk, map};
ghost use Rattle.gm_filter.specs.Tree.{tree};

use crate::{Filter, FilterList, Literal, LiteralList, TextList};
use gm_base::NoMemory;
use gm_feature::copy_geometry;
use std::alloc::Global;

/// A filter with the same tree. Its recursion is as deep as the filter.
#[cycle(copying)]
pub fn copy(alloc: Global, filter: &Filter) -> Result<Filter, NoMemory>
    ensures { IfOk result (λ copy. tree copy ≡ tree filter.now) }
{
    match filter {
        Filter::Include => Ok(Filter::Include),
        Filter::Exclude => Ok(Filter::Exclude),
        Filter::Not(inner) => Ok(Filter::Not(Box::new(alloc, copy(alloc, inner)?)?)),
        Filter::And(members) => Ok(Filter::And(copy_all(alloc, members)?)),
        Filter::Or(members) => Ok(Filter::Or(copy_all(alloc, members)?)),
        Filter::Compare(at, op, literal) => {
            Ok(Filter::Compare(*at, *op, copy_literal(alloc, literal)?))
        }
        Filter::Between(at, low, high) => Ok(Filter::Between(
            *at,
            copy_literal(alloc, low)?,
            copy_literal(alloc, high)?,
        )),
        Filter::Like(at, pattern) => Ok(Filter::Like(*at, pattern.copy(alloc)?)),
        Filter::OneOf(at, literals) => Ok(Filter::OneOf(*at, copy_literals(alloc, literals)?)),
        Filter::IsNull(at) => Ok(Filter::IsNull(*at)),
        Filter::Ids(texts) => Ok(Filter::Ids(copy_texts(alloc, texts)?)),
        Filter::Bbox(at, area) => Ok(Filter::Bbox(*at, *area)),
        Filter::Intersects(at, geometry) => {
            Ok(Filter::Intersects(*at, copy_geometry(alloc, geometry)?))
        }
        Filter::Disjoint(at, geometry) => {
            Ok(Filter::Disjoint(*at, copy_geometry(alloc, geometry)?))
        }
        Filter::Within(at, area) => Ok(Filter::Within(*at, copy_geometry(alloc, area)?)),
        Filter::During(at, low, high) => Ok(Filter::During(*at, *low, *high)),
        Filter::Before(at, end) => Ok(Filter::Before(*at, *end)),
        Filter::After(at, start) => Ok(Filter::After(*at, *start)),
        Filter::Tequals(at, instant) => Ok(Filter::Tequals(*at, *instant)),
    }
}

#[cycle(copying)]
fn copy_all(alloc: Global, filters: &[Filter]) -> Result<FilterList, NoMemory>
    ensures { IfOk result (λ copies. map tree copies.items ≡ map tree filters.now) }
{
    let mut copies = Vec::with_capacity(alloc, filters.len())?;
    for filter in filters {
        copies.push(copy(alloc, filter)?)?;
    }
    Ok(copies)
}

fn copy_literal(alloc: Global, literal: &Literal) -> Result<Literal, NoMemory>
    ensures { IfOk result (λ copy. copy ≡ literal.now) }
{
    match literal {
        Literal::Number(number) => Ok(Literal::Number(*number)),
        Literal::Text(text) => Ok(Literal::Text(text.copy(alloc)?)),
        Literal::Truth(truth) => Ok(Literal::Truth(*truth)),
        Literal::Date(at) => Ok(Literal::Date(*at)),
    }
}

fn copy_literals(alloc: Global, literals: &LiteralList) -> Result<LiteralList, NoMemory>
    ensures { IfOk result (λ copies. copies ≡ literals.now) }
{
    let mut copies = Vec::with_capacity(alloc, literals.len())?;
    for literal in literals.as_slice() {
        copies.push(copy_literal(alloc, literal)?)?;
    }
    Ok(LiteralList::from_vec(copies))
}

fn copy_texts(alloc: Global, texts: &TextList) -> Result<TextList, NoMemory>
    ensures { IfOk result (λ copies. copies ≡ texts.now) }
{
    let mut copies = Vec::with_capacity(alloc, texts.len())?;
    for text in texts.as_slice() {
        copies.push(text.copy(alloc)?)?;
    }
    Ok(TextList::from_vec(copies))
}
