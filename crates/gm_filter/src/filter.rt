// A filter, as a reader or a caller builds it.
use gm_base::{Items, Text};
use gm_calendar::Instant;
use gm_geom::{Box2, Geometry};

/// How a value is compared with a literal: `=`, `<>`, `<`, `<=`, `>` and `>=`.
#[derive(Clone, Copy, Debug, PartialEq, Eq)]
pub enum Op {
    Eq,
    Ne,
    Lt,
    Le,
    Gt,
    Ge,
}

/// What a value is compared with.
#[derive(Debug, Drop)]
pub enum Literal {
    Number(i64),
    Text(Text),
    Truth(bool),
    Date(Instant),
}

/// Literals, in the order given.
pub type LiteralList = Items<Literal>;

/// Texts, in the order given.
pub type TextList = Items<Text>;

/// The members of an And or an Or, in the order given.
pub type FilterList = Vec<Filter>;

/// A test of features. The number in a test is that of the attribute, from 0. Contracts see a
/// filter by its tree.
#[derive(Debug, Drop)]
pub enum Filter {
    /// True of every feature.
    Include,

    /// True of none.
    Exclude,

    Not(Box<Filter>),

    And(FilterList),

    Or(FilterList),

    Compare(u16, Op, Literal),

    /// From the first literal to the second, both included.
    Between(u16, Literal, Literal),

    /// `%` stands for any text, `_` for one character.
    Like(u16, Text),

    /// Equal to one of the literals.
    OneOf(u16, LiteralList),

    IsNull(u16),

    /// The identifier is one of the texts.
    Ids(TextList),

    /// Has a point in common with the closed box.
    Bbox(u16, Box2),

    /// Has a point in common with the geometry.
    Intersects(u16, Geometry),

    /// Has none.
    Disjoint(u16, Geometry),

    /// Lies in a polygon of the geometry and on none of its edges.
    Within(u16, Geometry),

    /// After the first instant and before the second.
    During(u16, Instant, Instant),

    Before(u16, Instant),

    After(u16, Instant),

    /// At that very instant.
    Tequals(u16, Instant),
}
