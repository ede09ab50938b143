// Positions and lists of them, read in one pass.
ghost use Rattle.std.specs.Prelude.{◌≡◌, ◌++◌, ◌∷◌, List, ℕ, Bool, option_map, IfOk, MatchResult};
ghost use Rattle.gm_wkt.specs.Grammar.{SpellsMember, SpellsList};
ghost use Rattle.gm_wkt.specs.Reader as spec;
ghost use Rattle.gm_wkt.specs.Starting.{point_starts, list_starts};
ghost use Rattle.gm_wkt.specs.Reader.{Takes, Ends, Starts, UpTo, OnlyMemory};
ghost use Rattle.gm_wkt.specs.Reader.{SpellsPoint, separator};

use crate::halt::Halt;
use crate::position::{behind, point_at, skip_blanks};
use gm_base::Items;
use gm_geom::Point;
use std::alloc::Global;

/// What a text can spell at its front. In the loose notation the brackets of a position may be
/// left out.
pub trait Spelled: Drop {
    /// Whether bytes spell a value.
    ghost spells: { Bool → List ℕ → Self → Type 0 };

    /// The value at the front, and what follows it.
    fn read(alloc: Global, loose: bool, text: &[u8]) -> Result<(Self, &[u8]), Halt>
        ensures found { IfOk result (λ r. Takes (spells loose) text.now r.0 r.1.now) }
        ensures only { (front tail : List ℕ) (x : Self)
            → spells loose front x → Ends tail → text.now ≡ front ++ tail
            → MatchResult result (λ r. (r.0 ≡ x) × (r.1.now ≡ tail)) OnlyMemory };

    /// No spelling begins with a blank.
    ghost starts: { (loose : Bool) (bytes : List ℕ) (x : Self)
        → spells loose bytes x → Starts bytes };
}

impl Spelled for Point {
    ghost spells = { SpellsPoint };

    ghost starts = { point_starts };

    fn read(_: Global, loose: bool, text: &[u8]) -> Result<(Point, &[u8]), Halt> {
        match point_at(loose, text) {
            None => Err(Halt::Syntax),
            Some(read) => Ok(read),
        }
    }
}

impl<T: Spelled> Spelled for Items<T> {
    ghost spells = { λ loose. SpellsList (T.spells loose) };

    ghost starts = { λ loose. list_starts (T.spells loose) };

    fn read(alloc: Global, loose: bool, text: &[u8]) -> Result<(Items<T>, &[u8]), Halt> {
        match behind(b'(', text) {
            None => Err(Halt::Syntax),
            Some(inside) => read_members(alloc, loose, inside),
        }
    }
}

// The members up to the closing bracket, and what follows it.
fn read_members<T: Spelled>(
    alloc: Global,
    loose: bool,
    text: &[u8],
) -> Result<(Items<T>, &[u8]), Halt>
    ensures found { IfOk result (λ r. UpTo (T.spells loose) text.now r.0 r.1.now) }
    ensures only { (xs : List T) (tail : List ℕ) → UpTo (T.spells loose) text.now xs tail
        → MatchResult result (λ r. (r.0 ≡ xs) × (r.1.now ≡ tail)) OnlyMemory }
{
    let mut rest = text;
    let mut items = Items::new(alloc);
    'members: loop {
        let (item, more, later) = read_member(alloc, loose, rest)?;
        items.push(item)?;
        if !more {
            return Ok((items, later));
        }
        rest = later;
    }
}

// A member, whether a comma follows it, and what follows that or the closing bracket.
fn read_member<T: Spelled>(
    alloc: Global,
    loose: bool,
    text: &[u8],
) -> Result<(T, bool, &[u8]), Halt>
    ensures found { IfOk result
        (λ r. SpellsMember (T.spells loose) text.now r.0 (separator r.1 ∷ r.2.now)) }
    ensures only { (x : T) (more : Bool) (rest : List ℕ)
        → SpellsMember (T.spells loose) text.now x (separator more ∷ rest)
        → MatchResult result (λ r. (r.0 ≡ x) × (r.1 ≡ more) × (r.2.now ≡ rest)) OnlyMemory }
{
    let (item, after) = T::read(alloc, loose, skip_blanks(text))?;
    match separator_at(after) {
        None => Err(Halt::Syntax),
        Some((more, rest)) => Ok((item, more, rest)),
    }
}

fn separator_at(bytes: &[u8]) -> Option<(bool, &[u8])>
    ensures { option_map (λ s. (s.0, s.1.now)) result ≡ spec.separator_at bytes.now }
{
    match skip_blanks(bytes) {
        [b',', rest @ ..] => Some((true, rest)),
        [b')', rest @ ..] => Some((false, rest)),
        _ => None,
    }
}
