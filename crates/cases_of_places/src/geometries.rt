// Cases of geometries and of Well-Known Text.
use crate::words;
use gm_base::{Items, NoMemory};
use gm_geom::{Geometry, Point, Points, Rings, bounds, check};
use gm_wkt::{WktFault, print, read};
use std::alloc::Global;

pub fn answer(alloc: Global, word: &str, rest: &str) -> Result<String, NoMemory> {
    match word {
        "check_points" => check_points(alloc, rest),
        "check_line" => judged(alloc, &Geometry::Line(points(alloc, rest)?)),
        "check_ring" => judged(alloc, &Geometry::Area(ring(alloc, rest)?)),
        "bounds_line" => bounds_of(alloc, &Geometry::Line(points(alloc, rest)?)),
        "read_points" => read_points(alloc, rest),
        _ => read_text(alloc, rest),
    }
}

// The points of a list of words such as `-5,12`.
fn points(alloc: Global, list: &str) -> Result<Points, NoMemory> {
    let mut points = Items::new(alloc);
    for word in list.split(' ') {
        if let Some((x, y)) = word.split_once(',') {
            if let (Ok(x), Ok(y)) = (x.parse::<i32>(), y.parse::<i32>()) {
                points.push(Point { x, y })?;
            }
        }
    }
    Ok(points)
}

fn ring(alloc: Global, list: &str) -> Result<Rings, NoMemory> {
    let mut rings = Items::new(alloc);
    rings.push(points(alloc, list)?)?;
    Ok(rings)
}

fn judged(alloc: Global, geometry: &Geometry) -> Result<String, NoMemory> {
    let answer = check(geometry);
    Ok(format!(in alloc; "{answer:?}")?)
}

// So many points, each outside the world or in it.
fn check_points(alloc: Global, rest: &str) -> Result<String, NoMemory> {
    let (count, x) = words::split(rest);
    let (Ok(count), Ok(x)) = (count.parse::<u32>(), x.parse::<i32>()) else {
        return words::text(alloc, "no count");
    };
    let mut points = Items::new(alloc);
    for _ in 0..count {
        points.push(Point { x, y: 0 })?;
    }
    judged(alloc, &Geometry::ManyPoints(points))
}

fn bounds_of(alloc: Global, geometry: &Geometry) -> Result<String, NoMemory> {
    match check(geometry) {
        Err(fault) => Ok(format!(in alloc; "{fault:?}")?),
        Ok(()) => {
            let extent = bounds(geometry);
            let (low, high) = (extent.low, extent.high);
            Ok(format!(in alloc; "{},{} {},{}", low.x, low.y, high.x, high.y)?)
        }
    }
}

// The geometry that the text spells, printed.
fn read_text(alloc: Global, text: &str) -> Result<String, NoMemory> {
    match read(alloc, text.as_bytes()) {
        Ok(geometry) => words::text(alloc, print(alloc, &geometry)?.as_str()),
        Err(WktFault::NoMemory) => Err(NoMemory),
        Err(fault) => Ok(format!(in alloc; "{fault:?}")?),
    }
}

// A line of so many points, whether it is read, and whether it is printed as it was written.
fn read_points(alloc: Global, count: &str) -> Result<String, NoMemory> {
    let Ok(count) = count.parse::<u32>() else {
        return words::text(alloc, "no count");
    };
    let mut text = String::from_str(alloc, "LINESTRING (0.5 -90")?;
    for _ in 1..count {
        text.push_str(", 179.1234567 -8.25")?;
    }
    text.push_str(")")?;
    match read(alloc, text.as_bytes()) {
        Ok(geometry) => {
            let printed = print(alloc, &geometry)?;
            let same = printed.as_str() == text.as_str();
            Ok(format!(in alloc; "read, and printed as it was: {same}")?)
        }
        Err(WktFault::NoMemory) => Err(NoMemory),
        Err(fault) => Ok(format!(in alloc; "{fault:?}")?),
    }
}
