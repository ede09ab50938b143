// Cases of cells and of the codes of curves.
ghost use Rattle.std.specs.Prelude.{◌≤◌};

use crate::words;
use gm_base::NoMemory;
use gm_curve::{Curve, Xz, normal};
use std::alloc::Global;

pub fn answer(alloc: Global, word: &str, rest: &str) -> Result<String, NoMemory> {
    let mut cells = Vec::new(alloc);
    for word in rest.split(' ') {
        match word.parse::<u32>() {
            Ok(cell) => cells.push(cell)?,
            Err(_) => return words::text(alloc, "no cells"),
        }
    }
    match word {
        "normal" => cell(alloc, cells.as_slice()),
        "z2" => plane_code(alloc, cells.as_slice()),
        "z3" => space_code(alloc, cells.as_slice()),
        "xz2" => plane_object(alloc, cells.as_slice()),
        _ => space_object(alloc, cells.as_slice()),
    }
}

// The cell of a place on a span.
fn cell(alloc: Global, numbers: &[u32]) -> Result<String, NoMemory> {
    match numbers {
        [at, span, bits] if *at <= *span && *span >= 1 && *bits >= 1 && *bits <= 31 => {
            let cell = normal(u64::from(*at), u64::from(*span), *bits);
            Ok(format!(in alloc; "{cell}")?)
        }
        _ => words::text(alloc, "no cell"),
    }
}

// The code of a cell in the plane, and the cell of the code.
fn plane_code(alloc: Global, numbers: &[u32]) -> Result<String, NoMemory> {
    match numbers {
        [8, x, y] => plane::<8>(alloc, *x, *y),
        [16, x, y] => plane::<16>(alloc, *x, *y),
        [24, x, y] => plane::<24>(alloc, *x, *y),
        [31, x, y] => plane::<31>(alloc, *x, *y),
        _ => words::text(alloc, "no such curve"),
    }
}

fn plane<const B: u32>(alloc: Global, x: u32, y: u32) -> Result<String, NoMemory>
    requires { B ≤ 31 }
{
    if x >= 1 << B || y >= 1 << B {
        return words::text(alloc, "no such cell");
    }
    let curve = Curve::<2, B>;
    let code = curve.encode(&[x, y]);
    let mut at = [0; 2];
    curve.decode(code, &mut at);
    Ok(format!(in alloc; "{code} of {} {}", at[0], at[1])?)
}

fn space_code(alloc: Global, numbers: &[u32]) -> Result<String, NoMemory> {
    match numbers {
        [8, x, y, t] => space::<8>(alloc, *x, *y, *t),
        [12, x, y, t] => space::<12>(alloc, *x, *y, *t),
        [16, x, y, t] => space::<16>(alloc, *x, *y, *t),
        [21, x, y, t] => space::<21>(alloc, *x, *y, *t),
        _ => words::text(alloc, "no such curve"),
    }
}

fn space<const B: u32>(alloc: Global, x: u32, y: u32, t: u32) -> Result<String, NoMemory>
    requires { B ≤ 21 }
{
    if x >= 1 << B || y >= 1 << B || t >= 1 << B {
        return words::text(alloc, "no such cell");
    }
    let curve = Curve::<3, B>;
    let code = curve.encode(&[x, y, t]);
    let mut at = [0; 3];
    curve.decode(code, &mut at);
    Ok(format!(in alloc; "{code} of {} {} {}", at[0], at[1], at[2])?)
}

// The level and the code of an object in the plane, from its least cell to its greatest.
fn plane_object(alloc: Global, numbers: &[u32]) -> Result<String, NoMemory> {
    match numbers {
        [2, x, y, p, q] => in_plane::<2>(alloc, *x, *y, *p, *q),
        [4, x, y, p, q] => in_plane::<4>(alloc, *x, *y, *p, *q),
        [8, x, y, p, q] => in_plane::<8>(alloc, *x, *y, *p, *q),
        [12, x, y, p, q] => in_plane::<12>(alloc, *x, *y, *p, *q),
        [16, x, y, p, q] => in_plane::<16>(alloc, *x, *y, *p, *q),
        _ => words::text(alloc, "no such curve"),
    }
}

fn in_plane<const G: u32>(alloc: Global, x: u32, y: u32, p: u32, q: u32) -> Result<String, NoMemory>
    requires least { 1 ≤ G }
    requires most { G ≤ 16 }
{
    if x <= p && y <= q && p < 1 << G && q < 1 << G {
        let curve = Xz::<2, G>;
        let level = curve.level(&[x, y], &[p, q]);
        let code = curve.code(&[x, y], &[p, q]);
        return Ok(format!(in alloc; "level {level}, {code}")?);
    }
    words::text(alloc, "no such object")
}

// The same in space, of objects of one cell.
fn space_object(alloc: Global, numbers: &[u32]) -> Result<String, NoMemory> {
    match numbers {
        [1, x, y, t] => in_space::<1>(alloc, *x, *y, *t),
        [4, x, y, t] => in_space::<4>(alloc, *x, *y, *t),
        [8, x, y, t] => in_space::<8>(alloc, *x, *y, *t),
        [12, x, y, t] => in_space::<12>(alloc, *x, *y, *t),
        [16, x, y, t] => in_space::<16>(alloc, *x, *y, *t),
        _ => words::text(alloc, "no such curve"),
    }
}

fn in_space<const G: u32>(alloc: Global, x: u32, y: u32, t: u32) -> Result<String, NoMemory>
    requires least { 1 ≤ G }
    requires most { G ≤ 16 }
{
    if x < 1 << G && y < 1 << G && t < 1 << G {
        let curve = Xz::<3, G>;
        let cell = [x, y, t];
        let level = curve.level(&cell, &cell);
        let code = curve.code(&cell, &cell);
        return Ok(format!(in alloc; "level {level}, {code}")?);
    }
    words::text(alloc, "no such object")
}
