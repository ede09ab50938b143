// Laws of the definitions, for the crates above. Each is the contract of a function that does
// nothing.
ghost use Rattle.std.specs.Prelude.{◌≡◌, ℕ, List, Bool, Ok, Err, IsUtf8};
ghost use Rattle.gm_types.specs.FeatureType.{IsType};
ghost use Rattle.gm_types.specs.Specification.{Specification};
ghost use Rattle.gm_feature.specs.declared.value.Value.{Value};
ghost use Rattle.gm_filter.specs.Suitability.{Suits};
ghost use Rattle.gm_filter.specs.Tree.{Tree};
ghost use Rattle.gm_ecql.specs.declared.fault.FilterFault.{FilterFault};
ghost use Rattle.gm_ecql.specs.Fault.{IsFault, IsFilterOf, IsChangeOf, SpellsFilter, SpellsChange};
ghost use Rattle.gm_ecql.specs.Outcome.{KeepsLimits, Meant, filter_outcome, change_outcome};
ghost use Rattle.gm_ecql.specs.Printer.{printed};
ghost use Rattle.gm_ecql.specs.Token.{Seen, SpellsTokens};

use gm_calendar::{instants_are_tested, printed_instants_are_read};
use gm_geom::reads_back;
use gm_wkt::printed_is_spelled;

/// A text spells at most one list of tokens, and only UTF-8 spells one.
pub fn one_list()
    ensures one { (text : List ℕ) (ts us : List (Bool × Seen))
        → SpellsTokens text ts → SpellsTokens text us → ts ≡ us }
    ensures utf8 { (text : List ℕ) (ts : List (Bool × Seen)) → SpellsTokens text ts → IsUtf8 text }
{}

/// A text spells at most one filter for a type, and one that suits it.
pub fn one_filter()
    ensures one { (s : Specification) (text : List ℕ) (t u : Tree)
        → SpellsFilter s text t → SpellsFilter s text u → t ≡ u }
    ensures suits { (s : Specification) (text : List ℕ) (t : Tree)
        → SpellsFilter s text t → Suits s t }
{}

/// A text spells at most one change for a type.
pub fn one_change()
    ensures place { (s : Specification) (text : List ℕ) (a b : ℕ) (v w : Value) (t u : Tree)
        → SpellsChange s text a v t → SpellsChange s text b w u → a ≡ b }
    ensures value { (s : Specification) (text : List ℕ) (a b : ℕ) (v w : Value) (t u : Tree)
        → SpellsChange s text a v t → SpellsChange s text b w u → v ≡ w }
    ensures filter { (s : Specification) (text : List ℕ) (a b : ℕ) (v w : Value) (t u : Tree)
        → SpellsChange s text a v t → SpellsChange s text b w u → t ≡ u }
{}

/// What reading a filter answers is the filter that the text spells, if the text keeps the limits,
/// and no other; and a fault that it answers is one that the text has.
pub fn outcomes_are_answers()
    ensures found { (s : Specification) (text : List ℕ) (t : Tree)
        → filter_outcome s text ≡ Ok t → KeepsLimits text × SpellsFilter s text t }
    ensures only { (s : Specification) (text : List ℕ) (t : Tree)
        → KeepsLimits text → SpellsFilter s text t → filter_outcome s text ≡ Ok t }
    ensures faults { (s : Specification) (text : List ℕ) (e : FilterFault)
        → filter_outcome s text ≡ Err e → IsFault (IsFilterOf s) (λ j. j.faults) text e }
{}

/// The same of a change.
pub fn change_outcomes_are_answers()
    ensures found { (s : Specification) (text : List ℕ) (m : Meant) → change_outcome s text ≡ Ok m
        → KeepsLimits text × SpellsChange s text m.place m.holds m.wanted }
    ensures only { (s : Specification) (text : List ℕ) (m : Meant) → KeepsLimits text
        → SpellsChange s text m.place m.holds m.wanted → change_outcome s text ≡ Ok m }
    ensures faults { (s : Specification) (text : List ℕ) (e : FilterFault)
        → change_outcome s text ≡ Err e → IsFault (IsChangeOf s) (λ c. c.faults) text e }
{}

/// The printed text of a filter that suits a type spells the filter.
pub fn printed_filters_are_spelled()
    ensures { (s : Specification) (t : Tree)
        → IsType s → Suits s t → SpellsFilter s (printed s t) t }
{
    reads_back();
    printed_instants_are_read();
    instants_are_tested();
    printed_is_spelled();
}

/// The printed text of a filter that suits a type is read as the filter again, if the text keeps
/// the limits.
pub fn printed_filters_are_read()
    ensures { (s : Specification) (t : Tree) → IsType s → Suits s t
        → KeepsLimits (printed s t) → filter_outcome s (printed s t) ≡ Ok t }
{
    outcomes_are_answers();
    printed_filters_are_spelled();
}
