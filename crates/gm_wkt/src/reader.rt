// Texts to geometries.
ghost use Rattle.std.specs.Prelude.{◌≡◌, IfOk, MatchResult};
ghost use Rattle.gm_geom.specs.declared.geometry.Geometry.{Geometry};
ghost use Rattle.gm_wkt.specs.Answer.{IsAnswer, IsReadAs, IsUnlessMemory, answer_of};
ghost use Rattle.gm_wkt.specs.Grammar as grammar;
ghost use Rattle.gm_wkt.specs.Grammar.{SpellsText, SpellsBody, SpellsLone};
ghost use Rattle.gm_wkt.specs.Reader.{OnlyMemory};

use crate::WktFault;
use crate::halt::Halt;
use crate::keyword::{Keyword, keyword_of, split_word};
use crate::position::{lone_at, skip_blanks};
use crate::spelled::Spelled;
use gm_geom::{Geometry, Point, check};
use std::alloc::Global;

/// The geometry that the text spells.
pub fn read(alloc: Global, text: &[u8]) -> Result<Geometry, WktFault>
    // What the answer says of the text.
    ensures answer { IsAnswer text.now result }
    // A text that spells a geometry is read as it, unless memory runs out.
    ensures only { (g : Geometry) → SpellsText text.now g → IsReadAs g result }
    // Which answer it is, unless memory runs out.
    ensures value { IsUnlessMemory (answer_of text.now) result }
{
    match read_text(alloc, text) {
        Err(Halt::Syntax) => Err(WktFault::Syntax),
        Err(Halt::NoMemory) => Err(WktFault::NoMemory),
        Ok(geometry) => kept(geometry),
    }
}

fn kept(geometry: Geometry) -> Result<Geometry, WktFault>
    ensures { IsReadAs geometry result }
{
    match check(&geometry) {
        Err(fault) => Err(WktFault::Geom(fault)),
        Ok(()) => Ok(geometry),
    }
}

fn read_text(alloc: Global, text: &[u8]) -> Result<Geometry, Halt>
    ensures found { IfOk result (SpellsText text.now) }
    ensures only { (g : Geometry)
        → SpellsText text.now g → MatchResult result (λ h. h ≡ g) OnlyMemory }
{
    let (name, rest) = split_word(text);
    match keyword_of(name) {
        None => Err(Halt::Syntax),
        Some(keyword) => read_body(alloc, keyword, skip_blanks(rest)),
    }
}

fn read_body(alloc: Global, keyword: Keyword, body: &[u8]) -> Result<Geometry, Halt>
    ensures found { IfOk result (λ g. (grammar.keyword_of g ≡ keyword) × SpellsBody body.now g) }
    ensures only { (g : Geometry) → grammar.keyword_of g ≡ keyword → SpellsBody body.now g
        → MatchResult result (λ h. h ≡ g) OnlyMemory }
{
    match keyword {
        Keyword::Point => Ok(Geometry::Point(read_lone(body)?)),
        Keyword::Line => Ok(Geometry::Line(read_whole(alloc, false, body)?)),
        Keyword::Area => Ok(Geometry::Area(read_whole(alloc, false, body)?)),
        Keyword::ManyPoints => Ok(Geometry::ManyPoints(read_whole(alloc, true, body)?)),
        Keyword::ManyLines => Ok(Geometry::ManyLines(read_whole(alloc, false, body)?)),
        Keyword::ManyAreas => Ok(Geometry::ManyAreas(read_whole(alloc, false, body)?)),
    }
}

// What the whole text spells.
fn read_whole<T: Spelled>(alloc: Global, loose: bool, text: &[u8]) -> Result<T, Halt>
    ensures found { IfOk result (T.spells loose text.now) }
    ensures only { (x : T)
        → T.spells loose text.now x → MatchResult result (λ y. y ≡ x) OnlyMemory }
{
    let (value, rest) = T::read(alloc, loose, text)?;
    if !rest.is_empty() {
        return Err(Halt::Syntax);
    }
    Ok(value)
}

// The position in brackets that the whole text spells.
fn read_lone(text: &[u8]) -> Result<Point, Halt>
    ensures found { IfOk result (SpellsLone text.now) }
    ensures only { (x : Point)
        → SpellsLone text.now x → MatchResult result (λ y. y ≡ x) OnlyMemory }
{
    match lone_at(text) {
        None => Err(Halt::Syntax),
        Some((point, rest)) => {
            if !rest.is_empty() {
                return Err(Halt::Syntax);
            }
            Ok(point)
        }
    }
}
