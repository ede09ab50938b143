// Edges put into the bands that they meet.
ghost use Rattle.std.specs.Prelude.{◌≡◌, ◌≤ℤ◌, List, [], ◌∷◌, ◌++◌, length, IfOk, OnOk};
ghost use Rattle.std.specs.List.{AllByRecursion};
ghost use Rattle.gm_prepared.specs.declared.edge.Edge.{Edge};
ghost use Rattle.gm_prepared.specs.Band.{count_of};
ghost use Rattle.gm_prepared.specs.Placing.{AreBands, IsFlatIn};

use crate::band::{band_at, count_of};
use crate::{Edge, EdgeList};
use gm_base::{Items, NoMemory};
use gm_geom::Box2;
use gm_shapes::box_of;
use std::alloc::Global;

// The edges of each band, in their order.
pub(crate) fn placed(alloc: Global, area: Box2, edges: &[Edge]) -> Result<Vec<EdgeList>, NoMemory>
    requires along { area.low.y ≤ℤ area.high.y }
    requires inside { AllByRecursion (IsFlatIn area) edges.now }
    ensures { IfOk result (λ bands. AreBands area edges.now bands.items) }
{
    let mut bands = empty_bands(alloc, area)?;
    'edges: for edge in edges {
        place_edge(&mut bands, area, edge)?;
    }
    Ok(bands)
}

fn empty_bands(alloc: Global, area: Box2) -> Result<Vec<EdgeList>, NoMemory>
    requires { area.low.y ≤ℤ area.high.y }
    ensures { IfOk result (λ bands. AreBands area [] bands.items) }
{
    let count = count_of(area);
    let mut bands = Vec::with_capacity(alloc, count)?;
    'bands: for _ in 0..count {
        bands.push(Items::new(alloc))?;
    }
    Ok(bands)
}

fn place_edge(bands: &mut Vec<EdgeList>, area: Box2, edge: &Edge) -> Result<(), NoMemory>
    requires along { area.low.y ≤ℤ area.high.y }
    requires count { length bands.old.items ≡ count_of area }
    requires inside { IsFlatIn area edge.now }
    ensures { OnOk result ((edges : List Edge) → AreBands area edges bands.old.items →
        AreBands area (edges ++ edge.now ∷ []) bands.new.items) }
{
    let extent = box_of(edge.segment());
    let first = band_at(area, extent.low.y);
    let last = band_at(area, extent.high.y);
    'bands: for k in first..last + 1 {
        let band = &mut bands[k];
        band.push(*edge)?;
    }
    Ok(())
}
