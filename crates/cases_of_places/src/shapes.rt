// Cases of what meets, is on an edge, in a polygon or within one.
use crate::words;
use gm_base::NoMemory;
use gm_geom::{Box2, Geometry, Point, Rings, check};
use gm_shapes::{in_area, intersects, meets_box, on_edge, segments_meet, within};
use gm_wkt::read;
use std::alloc::Global;

pub fn answer(alloc: Global, word: &str, rest: &str) -> Result<String, NoMemory> {
    match word {
        "segments_meet" => segments(alloc, rest),
        "in_rings" => in_rings(alloc, rest),
        "intersects" => meeting(alloc, rest),
        _ => in_box(alloc, rest),
    }
}

// The parts before and behind a bar.
pub fn parts(case: &str) -> (&str, &str) {
    case.split_once(" | ").unwrap_or((case, ""))
}

// The geometry that a text spells, if it spells one that is kept.
pub fn geometry(alloc: Global, text: &str) -> Option<Geometry> {
    match read(alloc, text.as_bytes()) {
        Ok(geometry) => match check(&geometry) {
            Ok(()) => Some(geometry),
            Err(_) => None,
        },
        Err(_) => None,
    }
}

// A closed box from its low and its high corner, unless these are in another order.
pub fn closed_box(alloc: Global, rest: &str) -> Result<Option<Box2>, NoMemory> {
    let numbers = words::numbers(alloc, rest)?;
    match numbers.as_slice() {
        [left, below, right, above] => Ok(Some(Box2 {
            low: at(*left, *below),
            high: at(*right, *above),
        })),
        _ => Ok(None),
    }
}

fn at(x: i64, y: i64) -> Point {
    Point {
        x: i32::try_from(x).unwrap_or(0),
        y: i32::try_from(y).unwrap_or(0),
    }
}

fn segments(alloc: Global, rest: &str) -> Result<String, NoMemory> {
    let numbers = words::numbers(alloc, rest)?;
    match numbers.as_slice() {
        [ax, ay, bx, by, cx, cy, dx, dy] => {
            let one = segments_meet(at(*ax, *ay), at(*bx, *by), at(*cx, *cy), at(*dx, *dy));
            let other = segments_meet(at(*cx, *cy), at(*dx, *dy), at(*bx, *by), at(*ax, *ay));
            Ok(format!(in alloc; "{one} {other}")?)
        }
        _ => words::text(alloc, "no segments"),
    }
}

fn in_rings(alloc: Global, rest: &str) -> Result<String, NoMemory> {
    let (place, area) = parts(rest);
    match (geometry(alloc, place), geometry(alloc, area)) {
        (Some(Geometry::Point(p)), Some(Geometry::Area(rings))) => in_one(alloc, p, rings),
        (Some(Geometry::Point(p)), Some(other)) => {
            let inside = within(p, &other);
            Ok(format!(in alloc; "within {inside}")?)
        }
        _ => words::text(alloc, "not kept"),
    }
}

fn in_one(alloc: Global, p: Point, rings: Rings) -> Result<String, NoMemory> {
    let on = on_edge(p, &rings);
    let held = in_area(p, &rings);
    let inside = within(p, &Geometry::Area(rings));
    Ok(format!(in alloc; "on {on}, in {held}, within {inside}")?)
}

fn meeting(alloc: Global, rest: &str) -> Result<String, NoMemory> {
    let (one, two) = parts(rest);
    match (geometry(alloc, one), geometry(alloc, two)) {
        (Some(one), Some(two)) => both_ways(alloc, &one, &two),
        _ => words::text(alloc, "not kept"),
    }
}

fn both_ways(alloc: Global, one: &Geometry, two: &Geometry) -> Result<String, NoMemory> {
    match (check(one), check(two)) {
        (Ok(()), Ok(())) => {
            let met = intersects(one, two);
            let back = intersects(two, one);
            Ok(format!(in alloc; "{met} {back}")?)
        }
        _ => words::text(alloc, "not kept"),
    }
}

fn in_box(alloc: Global, rest: &str) -> Result<String, NoMemory> {
    let (text, corners) = parts(rest);
    let area = closed_box(alloc, corners)?;
    match (geometry(alloc, text), area) {
        (Some(one), Some(area)) => met_by_box(alloc, &one, area),
        _ => words::text(alloc, "not kept"),
    }
}

fn met_by_box(alloc: Global, one: &Geometry, area: Box2) -> Result<String, NoMemory> {
    if area.low.x > area.high.x || area.low.y > area.high.y {
        return words::text(alloc, "no box");
    }
    match check(one) {
        Ok(()) => {
            let met = meets_box(one, area);
            Ok(format!(in alloc; "{met}")?)
        }
        Err(_) => words::text(alloc, "not kept"),
    }
}
