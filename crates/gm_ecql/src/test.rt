// A test as it is written, before the type is looked at.
use crate::geometry::Piece;
use gm_calendar::Instant;
use gm_filter::Op;

/// A literal as it is written. A text has the quotes inside it twice.
#[derive(Clone, Copy, Debug)]
pub enum Constant<'a> {
    Text(&'a str),
    Number(&'a str),
    Instant(&'a Instant),
    Truth(bool),
}

/// Which way a geometry is to lie to another.
#[derive(Clone, Copy, Debug, PartialEq, Eq)]
pub enum Relation {
    Intersects,
    Disjoint,
    Within,
}

/// How a date is to lie to an instant.
#[derive(Clone, Copy, Debug, PartialEq, Eq)]
pub enum Timing {
    Before,
    After,
    Tequals,
}

/// The four numbers of a box, as they are written.
#[derive(Clone, Copy, Debug)]
pub struct Corners<'a> {
    pub low_x: &'a str,
    pub low_y: &'a str,
    pub high_x: &'a str,
    pub high_y: &'a str,
}

/// What is asked of an attribute. A truth says whether the test is negated.
#[derive(Debug, Drop)]
pub enum Asked<'a> {
    /// A box, and the name of a reference system, if one is given.
    Bbox(Corners<'a>, Option<&'a str>),

    Related(Relation, Piece<'a>),

    Compared(Op, Constant<'a>),

    Between(bool, Constant<'a>, Constant<'a>),

    Like(bool, &'a str),

    OneOf(bool, Vec<Constant<'a>>),

    Null(bool),

    During(&'a Instant, &'a Instant),

    Timed(Timing, &'a Instant),
}

#[derive(Debug, Drop)]
pub enum Test<'a> {
    Include,

    Exclude,

    /// The texts of identifiers.
    Ids(Vec<&'a str>),

    /// A test of the attribute with a name.
    Named(&'a str, Asked<'a>),
}
