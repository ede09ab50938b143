// Literals that a value is to be equal to one of.
ghost use Rattle.std.specs.Prelude.{◌≡◌, ◌||◌, false, IfOk, OnOk};
ghost use Rattle.gm_feature.specs.declared.feature.Feature.{Feature};
ghost use Rattle.gm_feature.specs.declared.value.Value.{Value};
ghost use Rattle.gm_feature.specs.Feature.{value_at};
ghost use Rattle.gm_feature.specs.Stored.{IsStored};
ghost use Rattle.gm_filter.specs.Comparison.{compares};
ghost use Rattle.gm_filter.specs.Truth.{is_one_of};
ghost use Rattle.gm_filter.specs.declared.filter.Op.TheVariants.{Eq};
ghost use Rattle.gm_scan.specs.Literals.{has_value};

use crate::texts::Texts;
use gm_base::NoMemory;
use gm_feature::{Stored, StoredValue};
use gm_filter::Literal;
use std::alloc::Global;
use std::collections::BTreeSet;

/// Literals, as they are and sorted.
#[derive(Drop)]
pub(crate) struct Literals<'a> {
    plain: &'a [Literal],
    sorted: SortedLiterals<'a>,
    ghost same: { (v : Value) → has_value sorted v ≡ is_one_of v plain.now },
}

impl<'a> Literals<'a> {
    pub(crate) fn of(alloc: Global, plain: &'a [Literal]) -> Result<Literals<'a>, NoMemory>
        ensures { IfOk result (λ literals. literals.plain.now ≡ plain.now) }
    {
        let mut sorted = SortedLiterals::new(alloc);
        'literals: for literal in plain {
            sorted.add(literal)?;
        }
        Ok(Literals { plain, sorted })
    }

    /// Whether the value of an attribute is equal to one of them.
    pub(crate) fn have_value_at(&self, stored: &Stored<'_>, at: u16) -> bool
        ensures { (f : Feature) → IsStored stored.now f
            → result ≡ is_one_of (value_at f at) self.now.plain.now }
    {
        self.sorted.has_value_at(stored, at)
    }
}

/// Literals by their kinds, those of a kind each once and in order. Instants are in milliseconds.
#[derive(Drop)]
struct SortedLiterals<'a> {
    numbers: BTreeSet<i64>,
    texts: Texts<'a>,
    dates: BTreeSet<i64>,
    has_true: bool,
    has_false: bool,
}

impl<'a> SortedLiterals<'a> {
    // It takes no memory.
    fn new(alloc: Global) -> SortedLiterals<'a>
        ensures { (v : Value) → has_value result v ≡ false }
    {
        SortedLiterals {
            numbers: BTreeSet::new(alloc),
            texts: Texts::new(alloc),
            dates: BTreeSet::new(alloc),
            has_true: false,
            has_false: false,
        }
    }

    fn add(&mut self, literal: &'a Literal) -> Result<(), NoMemory>
        ensures { OnOk result ((v : Value) → has_value self.new v
            ≡ (has_value self.old v || compares Eq v literal.now)) }
    {
        match literal {
            Literal::Number(number) => {
                self.numbers.insert(*number)?;
            }
            Literal::Text(text) => self.texts.add(text.as_bytes())?,
            Literal::Truth(true) => self.has_true = true,
            Literal::Truth(false) => self.has_false = true,
            Literal::Date(date) => {
                self.dates.insert(date.ms())?;
            }
        }
        Ok(())
    }

    fn has_value_at(&self, stored: &Stored<'_>, at: u16) -> bool
        ensures { (f : Feature) → IsStored stored.now f
            → result ≡ has_value self.now (value_at f at) }
    {
        match stored.value(at) {
            StoredValue::Text(text) => self.texts.has(text),
            StoredValue::Integer(number) => self.numbers.contains(&i64::from(number)),
            StoredValue::Long(number) => self.numbers.contains(&number),
            StoredValue::Boolean(true) => self.has_true,
            StoredValue::Boolean(false) => self.has_false,
            StoredValue::Date(date) => self.dates.contains(&date.ms()),
            _ => false,
        }
    }
}
