// Segments: on which side of one a point lies, and whether two meet.
ghost use Rattle.std.specs.Prelude.{◌≡◌, ◌≤◌, ◌^◌, ◌-ℤ◌, ◌*ℤ◌, unsigned_abs};
ghost use Rattle.gm_shapes.specs.Segment as spec;
ghost use Rattle.gm_shapes.specs.Segment.{segment, lone_box, side_of, do_meet};

use gm_geom::{Box2, Point, high_corner, low_corner};

/// A closed segment. Its two ends may be one point.
#[derive(Clone, Copy, Debug, PartialEq, Eq)]
pub struct Segment {
    pub start: Point,
    pub end: Point,
}

/// Whether the closed segment from a to b and the one from c to d meet: their boxes overlap, and
/// neither has both ends strictly on one side of the line through the other. It is exact, takes no
/// memory, and holds for degenerate and collinear segments too.
pub fn segments_meet(a: Point, b: Point, c: Point, d: Point) -> bool
    ensures { result ≡ do_meet (segment a b) (segment c d) }
{
    do_segments_meet(Segment { start: a, end: b }, Segment { start: c, end: d })
}

pub(crate) fn do_segments_meet(one: Segment, other: Segment) -> bool
    ensures { result ≡ do_meet one other }
{
    do_overlap(box_of(one), box_of(other)) && !is_beside(one, other) && !is_beside(other, one)
}

/// The least box that holds the segment.
pub fn box_of(edge: Segment) -> Box2
    ensures { result ≡ spec.box_of edge }
{
    Box2 {
        low: low_corner(edge.start, edge.end),
        high: high_corner(edge.start, edge.end),
    }
}

/// Whether two closed boxes have a point in common.
pub fn do_overlap(one: Box2, other: Box2) -> bool
    ensures { result ≡ spec.do_overlap one other }
{
    reaches(one, other) && reaches(other, one)
}

/// Whether a point lies in a closed box.
pub fn is_in_box(p: Point, area: Box2) -> bool
    ensures { result ≡ spec.do_overlap (lone_box p) area }
{
    do_overlap(Box2 { low: p, high: p }, area)
}

// Whether the one begins nowhere past the end of the other.
fn reaches(one: Box2, other: Box2) -> bool
    ensures { result ≡ spec.reaches one other }
{
    one.low.x <= other.high.x && one.low.y <= other.high.y
}

// Whether both ends of the other segment lie strictly on one side of the line through this one.
fn is_beside(line: Segment, other: Segment) -> bool
    ensures { result ≡ spec.is_beside line other }
{
    are_of_one_sign(
        side(line.start, line.end, other.start),
        side(line.start, line.end, other.end),
    )
}

fn are_of_one_sign(one: i128, other: i128) -> bool
    ensures { result ≡ spec.are_of_one_sign one other }
{
    one > 0 && other > 0 || one < 0 && other < 0
}

// Above 0 where p lies left of the way from a to b, below 0 where it lies right of it.
pub(crate) fn side(a: Point, b: Point, p: Point) -> i128
    ensures { result ≡ side_of a b p }
{
    product(way(a.x, b.x), way(a.y, p.y)) - product(way(a.y, b.y), way(a.x, p.x))
}

fn way(from: i32, to: i32) -> i64
    ensures value { result ≡ to -ℤ from }
    ensures short { unsigned_abs result ≤ 2 ^ 32 }
{
    i64::from(to) - i64::from(from)
}

fn product(one: i64, other: i64) -> i128
    requires one_short { unsigned_abs one ≤ 2 ^ 32 }
    requires other_short { unsigned_abs other ≤ 2 ^ 32 }
    ensures value { result ≡ one *ℤ other }
    ensures small { unsigned_abs result ≤ 2 ^ 64 }
{
    i128::from(one) * i128::from(other)
}
