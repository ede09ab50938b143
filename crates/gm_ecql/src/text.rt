// Texts without the quotes that were written twice.
ghost use Rattle.std.specs.Prelude.{◌≡◌, ◌++◌, ◌∷◌, ℕ, List, IfOk, encode_utf8_all};
ghost use Rattle.std.specs.String.{string_bytes};
ghost use Rattle.gm_ecql.specs.Token.{undoubled, undoubled_from};

use gm_base::{NoMemory, Text};
use std::alloc::Global;

/// The text with one quote for each pair.
pub fn undouble(alloc: Global, raw: &str) -> Result<Text, NoMemory>
    ensures { IfOk result (λ text. text ≡ undoubled raw.now) }
{
    let mut text = String::new(alloc);
    let mut behind = false;
    'characters: for character in raw.chars() {
        behind = append_undoubled(&mut text, behind, character)?;
    }
    Ok(Text::from_string(text))
}

// Writes the character, unless it is the second quote of a pair. The answer says whether the next
// character stands behind a first one.
fn append_undoubled(text: &mut String, behind: bool, character: char) -> Result<bool, NoMemory>
    ensures { IfOk result (λ later. (more : List ℕ)
        → string_bytes text.old ++ encode_utf8_all (undoubled_from behind (character ∷ more))
        ≡ string_bytes text.new ++ encode_utf8_all (undoubled_from later more)) }
{
    let quote = character == '\'';
    if quote && behind {
        return Ok(false);
    }
    text.push(character)?;
    Ok(quote)
}
