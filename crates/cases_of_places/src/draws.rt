// Geometries drawn at random, from a seed.
use gm_base::{Items, NoMemory};
use gm_geom::{Areas, Geometry, Point, Points, Rings};
use std::alloc::Global;

/// A linear congruential generator with Knuth's constants, of which the upper 31 bits are drawn.
#[derive(Drop)]
pub struct Draw {
    pub state: u64,
}

impl Draw {
    fn next(&mut self, below: u64) -> u64 {
        self.state = self
            .state
            .wrapping_mul(6_364_136_223_846_793_005)
            .wrapping_add(1_442_695_040_888_963_407);
        (self.state >> 33).checked_rem(below).unwrap_or(0)
    }

    /// One of the six kinds, in a small square, or in one whose height has more than 256 values.
    pub fn geometry(&mut self, alloc: Global) -> Result<Geometry, NoMemory> {
        let kind = self.next(6);
        let side = if self.next(2) == 0 { 9 } else { 900 };
        match kind {
            0 => Ok(Geometry::Point(self.point(side))),
            1 => Ok(Geometry::Line(self.points(alloc, 2, side)?)),
            2 => Ok(Geometry::Area(self.rings(alloc, side)?)),
            3 => Ok(Geometry::ManyPoints(self.points(alloc, 1, side)?)),
            4 => Ok(Geometry::ManyLines(self.lines(alloc, side)?)),
            _ => Ok(Geometry::ManyAreas(self.areas(alloc, side)?)),
        }
    }

    /// A ring of so many points: a ragged coast that runs towards greater x, one unit a point, over
    /// a straight base.
    pub fn coast(&mut self, alloc: Global, count: u32) -> Result<Geometry, NoMemory> {
        let width = count.saturating_sub(3);
        let base = Point { x: 0, y: -1000 };
        let mut ring = Items::new(alloc);
        ring.push(base)?;
        for x in 0..width {
            let x = i32::try_from(x).unwrap_or(0);
            let y = i32::try_from(self.next(900)).unwrap_or(0);
            ring.push(Point { x, y })?;
        }
        let x = i32::try_from(width).unwrap_or(0);
        ring.push(Point { x, y: -1000 })?;
        ring.push(base)?;
        let mut rings = Items::new(alloc);
        rings.push(ring)?;
        Ok(Geometry::Area(rings))
    }

    /// A point before or behind such a coast.
    pub fn near_coast(&mut self, count: u32) -> Point {
        let x = i32::try_from(self.next(u64::from(count))).unwrap_or(0);
        let y = i32::try_from(self.next(900)).unwrap_or(0);
        Point { x, y }
    }

    /// A point in the small square or in the larger one, as chance has it.
    pub fn place(&mut self) -> Point {
        let side = if self.next(2) == 0 { 9 } else { 900 };
        self.point(side)
    }

    fn point(&mut self, side: u64) -> Point {
        let x = i32::try_from(self.next(side)).unwrap_or(0);
        let y = i32::try_from(self.next(side)).unwrap_or(0);
        Point { x, y }
    }

    // From `least` points on, and up to three more.
    fn points(&mut self, alloc: Global, least: u64, side: u64) -> Result<Points, NoMemory> {
        let mut points = Items::new(alloc);
        for _ in 0..least.saturating_add(self.next(4)) {
            points.push(self.point(side))?;
        }
        Ok(points)
    }

    fn lines(&mut self, alloc: Global, side: u64) -> Result<Rings, NoMemory> {
        let mut lines = Items::new(alloc);
        for _ in 0..self.next(2).saturating_add(1) {
            lines.push(self.points(alloc, 2, side)?)?;
        }
        Ok(lines)
    }

    // A ring may cross itself and the others.
    fn rings(&mut self, alloc: Global, side: u64) -> Result<Rings, NoMemory> {
        let mut rings = Items::new(alloc);
        for _ in 0..self.next(2).saturating_add(1) {
            let first = self.point(side);
            let mut ring = Items::new(alloc);
            ring.push(first)?;
            for _ in 0..self.next(4).saturating_add(2) {
                ring.push(self.point(side))?;
            }
            ring.push(first)?;
            rings.push(ring)?;
        }
        Ok(rings)
    }

    fn areas(&mut self, alloc: Global, side: u64) -> Result<Areas, NoMemory> {
        let mut areas = Items::new(alloc);
        for _ in 0..self.next(3).saturating_add(1) {
            areas.push(self.rings(alloc, side)?)?;
        }
        Ok(areas)
    }
}
