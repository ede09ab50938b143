// Geometries among tokens. Their tokens are written down anew, with the blanks of the printed form,
// and what that text spells is the geometry.
ghost use Rattle.std.specs.Prelude.{◌≡◌, ◌++◌, ◌≤◌, length, option_map, IfOk, IfSome, OnOk};
ghost use Rattle.std.specs.String.{string_bytes};
ghost use Rattle.gm_ecql.specs.Token.{seen, seen_all};
ghost use Rattle.gm_ecql.specs.Halt.{Gives};
ghost use Rattle.gm_ecql.specs.Geometry as spec;

use crate::halt::Halt;
use crate::keyword::{begins_geometry, keyword_text};
use crate::limits::{depth_behind, is_number};
use crate::symbols::symbol_text;
use crate::token::{Spaced, Symbol, Token};
use gm_base::NoMemory;
use gm_geom::Geometry;
use gm_wkt::WktFault;
use std::alloc::Global;

/// The tokens of a geometry: its keyword, and what follows up to where as many brackets are closed
/// as were opened.
#[derive(Clone, Copy, Debug)]
pub struct Piece<'a> {
    pub tokens: &'a [Spaced<'a>],
}

/// The tokens of a geometry, and what follows them.
pub fn piece_at<'a>(tokens: &'a [Spaced<'a>]) -> Option<(Piece<'a>, &'a [Spaced<'a>])>
    ensures { option_map (λ x. (seen_all x.0.tokens.now, seen_all x.1.now)) result
        ≡ spec.piece_at (seen_all tokens.now) }
{
    match tokens {
        [first, inside @ ..] => {
            if !is_geometry_word(&first.token) {
                return None;
            }
            let count = group_count(inside)?;
            let (front, rest) = tokens.split_at(count + 1);
            Some((Piece { tokens: front }, rest))
        }
        [] => None,
    }
}

fn is_geometry_word(token: &Token<'_>) -> bool
    ensures { result ≡ spec.is_geometry_word (seen token.now) }
{
    match token {
        Token::Keyword(keyword) => begins_geometry(*keyword),
        _ => false,
    }
}

// How many tokens there are up to the first behind which no bracket is open.
fn group_count(tokens: &[Spaced<'_>]) -> Option<usize>
    ensures value { result ≡ spec.group_count 0 (seen_all tokens.now) }
    ensures within { IfSome result (λ n. n ≤ length tokens.now) }
{
    let mut depth = 0;
    'tokens: for (index, spaced) in tokens.iter().enumerate() {
        depth = depth_behind(depth, &spaced.token);
        if depth == 0 {
            return Some(index + 1);
        }
    }
    None
}

fn append_token(text: &mut String, token: &Token<'_>) -> Result<(), NoMemory>
    ensures { OnOk result (string_bytes text.new
        ≡ string_bytes text.old ++ spec.token_text (seen token.now)) }
{
    match token {
        Token::Keyword(keyword) => {
            text.push_str(keyword_text(*keyword))?;
            text.push_str(" ")?;
        }
        Token::Number(number) => text.push_str(number)?,
        Token::Symbol(Symbol::Comma) => text.push_str(", ")?,
        Token::Symbol(symbol) => text.push_str(symbol_text(*symbol))?,
        Token::Name(_) | Token::Text(_) | Token::Instant(_) => text.push_str("'")?,
    }
    Ok(())
}

// Two numbers have a blank between them.
fn append_gap(text: &mut String, blank: bool) -> Result<(), NoMemory>
    ensures { OnOk result (string_bytes text.new ≡ string_bytes text.old ++ spec.gap_text blank) }
{
    if blank {
        text.push_str(" ")?;
    }
    Ok(())
}

fn text_of(alloc: Global, piece: &[Spaced<'_>]) -> Result<String, NoMemory>
    ensures { IfOk result (λ text. string_bytes text ≡ spec.text_of (seen_all piece.now)) }
{
    let mut text = String::new(alloc);
    let mut behind_number = false;
    'tokens: for spaced in piece {
        let number = is_number(&spaced.token);
        append_gap(&mut text, behind_number && number)?;
        append_token(&mut text, &spaced.token)?;
        behind_number = number;
    }
    Ok(text)
}

/// The geometry that tokens spell, where it is one that is kept.
pub fn geometry_of(alloc: Global, piece: &Piece<'_>) -> Result<Option<Geometry>, Halt>
    ensures { Gives (λ g. g) (spec.geometry_of (seen_all piece.now.tokens.now)) result }
{
    let text = text_of(alloc, piece.tokens)?;
    match gm_wkt::read(alloc, text.as_str().as_bytes()) {
        Ok(geometry) => Ok(Some(geometry)),
        Err(WktFault::Geom(_)) => Ok(None),
        Err(WktFault::Syntax) => Err(Halt::Syntax),
        Err(WktFault::NoMemory) => Err(Halt::NoMemory),
    }
}
