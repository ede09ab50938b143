// A copy of a geometry.
ghost use Rattle.std.specs.Prelude.{◌≡◌, IfOk};

use gm_base::{Items, NoMemory};
use gm_geom::{Areas, Geometry, Points};
use std::alloc::Global;

pub(crate) fn copy(alloc: Global, geometry: &Geometry) -> Result<Geometry, NoMemory>
    ensures { IfOk result (λ same. same ≡ geometry.now) }
{
    match geometry {
        Geometry::Point(point) => Ok(Geometry::Point(*point)),
        Geometry::Line(points) => Ok(Geometry::Line(Items::from_slice(alloc, points.as_slice())?)),
        Geometry::Area(rings) => Ok(Geometry::Area(copy_lines(alloc, rings)?)),
        Geometry::ManyPoints(points) => {
            Ok(Geometry::ManyPoints(Items::from_slice(alloc, points.as_slice())?))
        }
        Geometry::ManyLines(lines) => Ok(Geometry::ManyLines(copy_lines(alloc, lines)?)),
        Geometry::ManyAreas(areas) => Ok(Geometry::ManyAreas(copy_areas(alloc, areas)?)),
    }
}

fn copy_lines(alloc: Global, lines: &Items<Points>) -> Result<Items<Points>, NoMemory>
    ensures { IfOk result (λ same. same ≡ lines.now) }
{
    let mut same = Items::new(alloc);
    'lines: for line in lines.as_slice() {
        same.push(Items::from_slice(alloc, line.as_slice())?)?;
    }
    Ok(same)
}

fn copy_areas(alloc: Global, areas: &Areas) -> Result<Areas, NoMemory>
    ensures { IfOk result (λ same. same ≡ areas.now) }
{
    let mut same = Items::new(alloc);
    'areas: for rings in areas.as_slice() {
        same.push(copy_lines(alloc, rings)?)?;
    }
    Ok(same)
}
