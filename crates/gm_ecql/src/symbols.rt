// Symbols.
ghost use Rattle.std.specs.Prelude.{◌≡◌, option_map};
ghost use Rattle.gm_ecql.specs.Token.{seen};
ghost use Rattle.gm_ecql.specs.Scanner as spec;
ghost use Rattle.gm_ecql.specs.Token as tokens;

use crate::token::{Symbol, Token};

/// The symbol that begins with the byte, and what follows it.
pub fn symbol_at(first: u8, rest: &[u8]) -> Option<(Token<'_>, &[u8])>
    ensures { option_map (λ x. (seen x.0, x.1.now)) result ≡ spec.symbol_at first rest.now }
{
    match first {
        b'(' => Some((Token::Symbol(Symbol::Opening), rest)),
        b')' => Some((Token::Symbol(Symbol::Closing), rest)),
        b',' => Some((Token::Symbol(Symbol::Comma), rest)),
        b'=' => Some((Token::Symbol(Symbol::Equal), rest)),
        b'/' => Some((Token::Symbol(Symbol::Slash), rest)),
        b'<' => {
            let (symbol, rest) = less_at(rest);
            Some((Token::Symbol(symbol), rest))
        }
        b'>' => {
            let (symbol, rest) = more_at(rest);
            Some((Token::Symbol(symbol), rest))
        }
        _ => None,
    }
}

fn less_at(bytes: &[u8]) -> (Symbol, &[u8])
    ensures { (result.0, result.1.now) ≡ spec.less_at bytes.now }
{
    match bytes {
        [b'>', rest @ ..] => (Symbol::NotEqual, rest),
        [b'=', rest @ ..] => (Symbol::AtMost, rest),
        _ => (Symbol::Less, bytes),
    }
}

fn more_at(bytes: &[u8]) -> (Symbol, &[u8])
    ensures { (result.0, result.1.now) ≡ spec.more_at bytes.now }
{
    match bytes {
        [b'=', rest @ ..] => (Symbol::AtLeast, rest),
        _ => (Symbol::More, bytes),
    }
}

/// The bytes of a symbol.
pub fn symbol_text(symbol: Symbol) -> &'static str
    ensures { result.now ≡ tokens.symbol_text symbol }
{
    match symbol {
        Symbol::Opening => "(",
        Symbol::Closing => ")",
        Symbol::Comma => ",",
        Symbol::Equal => "=",
        Symbol::NotEqual => "<>",
        Symbol::Less => "<",
        Symbol::AtMost => "<=",
        Symbol::More => ">",
        Symbol::AtLeast => ">=",
        Symbol::Slash => "/",
    }
}
