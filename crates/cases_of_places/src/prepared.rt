// Cases of prepared geometries.
use crate::shapes::{closed_box, geometry, parts};
use crate::{draws, words};
use gm_base::NoMemory;
use gm_geom::{Box2, Geometry, Point, check};
use gm_prepared::{Edge, Prepared};
use gm_shapes::{intersects, meets_box, within};
use std::alloc::Global;

pub fn answer(alloc: Global, word: &str, rest: &str) -> Result<String, NoMemory> {
    match word {
        "prepared" => meeting(alloc, rest),
        "prepared_box" => in_box(alloc, rest),
        "prepared_within" => point_within(alloc, rest),
        "bands" => bands(alloc, rest),
        "edges_in" => edges_in(alloc, rest),
        "coast" => coast(alloc, rest),
        "drawn_within" => drawn_within(alloc, rest),
        _ => drawn(alloc, rest),
    }
}

// What `intersects` tells, and each of the two when it is prepared.
fn meeting(alloc: Global, rest: &str) -> Result<String, NoMemory> {
    let (one, two) = parts(rest);
    match (geometry(alloc, one), geometry(alloc, two)) {
        (Some(one), Some(two)) => {
            let met = compared(alloc, &one, &two)?;
            Ok(format!(in alloc; "{met:?}")?)
        }
        _ => words::text(alloc, "not kept"),
    }
}

// Whether two geometries meet, if all three ways agree.
fn compared(alloc: Global, one: &Geometry, two: &Geometry) -> Result<Option<bool>, NoMemory> {
    match (check(one), check(two)) {
        (Ok(()), Ok(())) => {
            let met = intersects(one, two);
            let ahead = Prepared::of(alloc, one)?.meets(two);
            let back = Prepared::of(alloc, two)?.meets(one);
            Ok((met == ahead && met == back).then_some(met))
        }
        _ => Ok(None),
    }
}

fn in_box(alloc: Global, rest: &str) -> Result<String, NoMemory> {
    let (text, corners) = parts(rest);
    let area = closed_box(alloc, corners)?;
    match (geometry(alloc, text), area) {
        (Some(one), Some(area)) => met_by_box(alloc, &one, area),
        _ => words::text(alloc, "not kept"),
    }
}

fn met_by_box(alloc: Global, one: &Geometry, area: Box2) -> Result<String, NoMemory> {
    if area.low.x > area.high.x || area.low.y > area.high.y {
        return words::text(alloc, "no box");
    }
    match check(one) {
        Ok(()) => {
            let met = meets_box(one, area);
            let prepared = Prepared::of(alloc, one)?.meets_box(area);
            Ok(format!(in alloc; "{met} {prepared}")?)
        }
        Err(_) => words::text(alloc, "not kept"),
    }
}

// What `within` tells of a point, and the polygons when they are prepared.
fn point_within(alloc: Global, rest: &str) -> Result<String, NoMemory> {
    let (place, text) = parts(rest);
    match (geometry(alloc, place), geometry(alloc, text)) {
        (Some(Geometry::Point(p)), Some(area)) => {
            let inside = within_both(alloc, p, &area)?;
            Ok(format!(in alloc; "{inside:?}")?)
        }
        _ => words::text(alloc, "not kept"),
    }
}

// Whether a point is within a geometry, if both ways agree.
fn within_both(alloc: Global, p: Point, area: &Geometry) -> Result<Option<bool>, NoMemory> {
    match check(area) {
        Ok(()) => {
            let inside = within(p, area);
            let prepared = Prepared::of(alloc, area)?.has_within(p);
            Ok((inside == prepared).then_some(inside))
        }
        Err(_) => Ok(None),
    }
}

// How many bands, and how many edges there are in all of them.
fn bands(alloc: Global, text: &str) -> Result<String, NoMemory> {
    let Some(one) = geometry(alloc, text) else {
        return words::text(alloc, "not kept");
    };
    match check(&one) {
        Ok(()) => counted(alloc, &Prepared::of(alloc, &one)?),
        Err(_) => words::text(alloc, "not kept"),
    }
}

fn counted(alloc: Global, prepared: &Prepared) -> Result<String, NoMemory> {
    let bands = prepared.bands();
    let mut edges = 0usize;
    for band in 0..bands {
        edges = edges.saturating_add(prepared.edges_in(band).len());
    }
    Ok(format!(in alloc; "{bands} bands, {edges} edges")?)
}

// The edges of one band.
fn edges_in(alloc: Global, rest: &str) -> Result<String, NoMemory> {
    let (band, text) = words::split(rest);
    let (Ok(band), Some(one)) = (band.parse::<usize>(), geometry(alloc, text)) else {
        return words::text(alloc, "not kept");
    };
    match check(&one) {
        Ok(()) => listed(alloc, &Prepared::of(alloc, &one)?, band),
        Err(_) => words::text(alloc, "not kept"),
    }
}

fn listed(alloc: Global, prepared: &Prepared, band: usize) -> Result<String, NoMemory> {
    if band >= prepared.bands() {
        return words::text(alloc, "no such band");
    }
    let mut text = String::new(alloc);
    for edge in prepared.edges_in(band).as_slice() {
        text.push_str(print(alloc, *edge)?.as_str())?;
    }
    Ok(text)
}

fn print(alloc: Global, edge: Edge) -> Result<String, NoMemory> {
    let Edge { a, b, area } = edge;
    let text = format!(in alloc; "({},{} {},{} {area:?})", a.x, a.y, b.x, b.y)?;
    Ok(text)
}

// Pairs of drawn geometries: how many meet, and for how many the ways do not agree.
fn drawn(alloc: Global, rest: &str) -> Result<String, NoMemory> {
    let (seed, count) = words::split(rest);
    let (Ok(seed), Ok(count)) = (seed.parse::<u64>(), count.parse::<u32>()) else {
        return words::text(alloc, "no count");
    };
    let mut draw = draws::Draw { state: seed };
    let (mut met, mut apart, mut other) = (0u64, 0u64, 0u64);
    for _ in 0..count {
        let one = draw.geometry(alloc)?;
        let two = draw.geometry(alloc)?;
        match compared(alloc, &one, &two)? {
            Some(true) => met = met.saturating_add(1),
            Some(false) => apart = apart.saturating_add(1),
            None => other = other.saturating_add(1),
        }
    }
    Ok(format!(in alloc; "{met} meet, {apart} do not, {other} disagree")?)
}

// Drawn geometries, each with a drawn point: how many have it within them.
fn drawn_within(alloc: Global, rest: &str) -> Result<String, NoMemory> {
    let (seed, count) = words::split(rest);
    let (Ok(seed), Ok(count)) = (seed.parse::<u64>(), count.parse::<u32>()) else {
        return words::text(alloc, "no count");
    };
    let mut draw = draws::Draw { state: seed };
    let (mut inside, mut outside, mut other) = (0u64, 0u64, 0u64);
    for _ in 0..count {
        let area = draw.geometry(alloc)?;
        let p = draw.place();
        match within_both(alloc, p, &area)? {
            Some(true) => inside = inside.saturating_add(1),
            Some(false) => outside = outside.saturating_add(1),
            None => other = other.saturating_add(1),
        }
    }
    Ok(format!(in alloc; "{inside} within, {outside} not, {other} disagree")?)
}

// Points before and behind a coast of many points, by `intersects` and by the prepared coast.
fn coast(alloc: Global, rest: &str) -> Result<String, NoMemory> {
    let (seed, counts) = words::split(rest);
    let (count, places) = words::split(counts);
    let (Ok(seed), Ok(count), Ok(places)) = (
        seed.parse::<u64>(),
        count.parse::<u32>(),
        places.parse::<u32>(),
    ) else {
        return words::text(alloc, "no count");
    };
    let mut draw = draws::Draw { state: seed };
    let coast = draw.coast(alloc, count)?;
    let (mut met, mut apart, mut other) = (0u64, 0u64, 0u64);
    if let Ok(()) = check(&coast) {
        let prepared = Prepared::of(alloc, &coast)?;
        for _ in 0..places {
            match at_coast(&coast, &prepared, draw.near_coast(count)) {
                Some(true) => met = met.saturating_add(1),
                Some(false) => apart = apart.saturating_add(1),
                None => other = other.saturating_add(1),
            }
        }
    }
    Ok(format!(in alloc; "{met} meet, {apart} do not, {other} disagree")?)
}

fn at_coast(coast: &Geometry, prepared: &Prepared, p: Point) -> Option<bool> {
    let point = Geometry::Point(p);
    match (check(coast), check(&point)) {
        (Ok(()), Ok(())) => {
            let met = intersects(coast, &point);
            (met == prepared.meets(&point)).then_some(met)
        }
        _ => None,
    }
}
