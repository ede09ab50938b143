// The edges of a geometry, each with the number of its polygon.
ghost use Rattle.std.specs.Prelude.{◌≡◌, ◌<◌, ◌^◌, ◌++◌, None, Some, length, map, IfOk, OnOk};
ghost use Rattle.gm_geom.specs.Validity.{fault_of};
ghost use Rattle.gm_shapes.specs.Edge.{edges_from, edges_between, edges_between_all, lone_edge};
ghost use Rattle.gm_prepared.specs.Edge as spec;
ghost use Rattle.gm_prepared.specs.Edge.{tagged, area_edges, segment_of};

use gm_base::{Items, NoMemory};
use gm_geom::{Geometry, Point, Points, Rings};
use gm_shapes::Segment;
use std::alloc::Global;

/// An edge from a to b, and the number of its polygon in the geometry, from 0, where it belongs to
/// one. A lone point is an edge whose ends are that point.
#[derive(Clone, Copy, Debug, PartialEq, Eq)]
pub struct Edge {
    pub a: Point,
    pub b: Point,
    pub area: Option<u32>,
}

pub type EdgeList = Items<Edge>;

impl Edge {
    pub(crate) fn segment(&self) -> Segment
        ensures { result ≡ segment_of self.now }
    {
        Segment {
            start: self.a,
            end: self.b,
        }
    }
}

// The edges of a geometry, in its order.
pub(crate) fn numbered_edges(alloc: Global, geometry: &Geometry) -> Result<EdgeList, NoMemory>
    requires { fault_of geometry.now ≡ None }
    ensures { IfOk result (λ edges. edges ≡ spec.numbered_edges geometry.now) }
{
    let mut edges = Items::new(alloc);
    match geometry {
        Geometry::Point(point) => push_lone(&mut edges, &[*point])?,
        Geometry::Line(points) => push_between(&mut edges, points.as_slice(), None)?,
        Geometry::Area(rings) => push_between_all(&mut edges, rings.as_slice(), Some(0))?,
        Geometry::ManyPoints(points) => push_lone(&mut edges, points.as_slice())?,
        Geometry::ManyLines(lines) => push_between_all(&mut edges, lines.as_slice(), None)?,
        Geometry::ManyAreas(areas) => push_around(&mut edges, areas.as_slice())?,
    }
    Ok(edges)
}

fn push_lone(edges: &mut EdgeList, points: &[Point]) -> Result<(), NoMemory>
    ensures { OnOk result (edges.new ≡ edges.old ++ tagged None (map lone_edge points.now)) }
{
    'points: for point in points {
        edges.push(Edge {
            a: *point,
            b: *point,
            area: None,
        })?;
    }
    Ok(())
}

fn push_between(edges: &mut EdgeList, points: &[Point], area: Option<u32>) -> Result<(), NoMemory>
    ensures { OnOk result (edges.new ≡ edges.old ++ tagged area (edges_between points.now)) }
{
    match points {
        [first, rest @ ..] => push_from(edges, *first, rest, area),
        _ => Ok(()),
    }
}

fn push_from(
    edges: &mut EdgeList,
    mut start: Point,
    points: &[Point],
    area: Option<u32>,
) -> Result<(), NoMemory>
    ensures { OnOk result (edges.new ≡ edges.old ++ tagged area (edges_from start points.now)) }
{
    'points: for point in points {
        edges.push(Edge {
            a: start,
            b: *point,
            area,
        })?;
        start = *point;
    }
    Ok(())
}

fn push_between_all(
    edges: &mut EdgeList,
    lines: &[Points],
    area: Option<u32>,
) -> Result<(), NoMemory>
    ensures { OnOk result (edges.new ≡ edges.old ++ tagged area (edges_between_all lines.now)) }
{
    'lines: for line in lines {
        push_between(edges, line.as_slice(), area)?;
    }
    Ok(())
}

fn push_around(edges: &mut EdgeList, areas: &[Rings]) -> Result<(), NoMemory>
    requires { length areas.now < 2 ^ 32 }
    ensures { OnOk result (edges.new ≡ edges.old ++ area_edges 0 areas.now) }
{
    'areas: for (area_number, rings) in areas.iter().enumerate() {
        push_between_all(edges, rings.as_slice(), Some(area_number as u32))?;
    }
    Ok(())
}
