// The tokens of a text, which lie in it.
use crate::keyword::Keyword;
use gm_calendar::Instant;

/// A bracket, the comma, a comparison, or the slash between two instants.
#[derive(Clone, Copy, Debug, PartialEq, Eq)]
pub enum Symbol {
    Opening,
    Closing,
    Comma,
    Equal,
    NotEqual,
    Less,
    AtMost,
    More,
    AtLeast,
    Slash,
}

/// A token. A name is a word that is no keyword, or stood in double quotes. A text holds what
/// stands between its quotes, each quote inside twice.
#[derive(Clone, Copy, Debug)]
pub enum Token<'a> {
    Keyword(Keyword),
    Name(&'a str),
    Text(&'a str),
    Instant(Instant),
    Number(&'a str),
    Symbol(Symbol),
}

/// A token, and whether a blank stands before it.
#[derive(Clone, Copy, Debug)]
pub struct Spaced<'a> {
    pub spaced: bool,
    pub token: Token<'a>,
}
