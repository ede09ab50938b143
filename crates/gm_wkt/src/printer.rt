// Geometries to texts.
ghost use Rattle.std.specs.Prelude.{◌≡◌, ◌++◌, List, ℕ, None, IfOk, OnOk};
ghost use Rattle.std.specs.String.{string_bytes};
ghost use Rattle.gm_base.specs.Text.{BeginsWith};
ghost use Rattle.gm_geom.specs.declared.geometry.Geometry.TheVariants as geo;
ghost use Rattle.gm_geom.specs.Validity.{fault_of};
ghost use Rattle.gm_wkt.specs.Grammar as grammar;
ghost use Rattle.gm_wkt.specs.Grammar.{SpellsText};
ghost use Rattle.gm_wkt.specs.Printer as spec;
ghost use Rattle.gm_wkt.specs.Printer.{position_text, lone_text};
ghost use Rattle.gm_wkt.specs.Printer.{list_text, printed, body_text};

use crate::keyword::Keyword;
use gm_base::{Items, NoMemory, Text};
use gm_geom::{Geometry, Point, append_fixed, has_number_bytes, reads_back};
use std::alloc::Global;

/// The text of a geometry.
pub fn print(alloc: Global, geometry: &Geometry) -> Result<Text, NoMemory>
    ensures text { IfOk result (λ text. text ≡ printed geometry.now) }
    // What is printed of a geometry that is kept spells it, so reading gives it again.
    ensures spells { fault_of geometry.now ≡ None
        → IfOk result (λ text. SpellsText text geometry.now) }
{
    reads_back();
    has_number_bytes();
    let mut out = String::new(alloc);
    append(&mut out, geometry)?;
    Ok(Text::from_string(out))
}

/// Appends the text that `print` gives. Where memory runs out, part of it may be there.
pub fn append(out: &mut String, geometry: &Geometry) -> Result<(), NoMemory>
    ensures text { OnOk result (string_bytes out.new
        ≡ string_bytes out.old ++ printed geometry.now) }
    ensures kept { BeginsWith (string_bytes out.new) (string_bytes out.old) }
{
    out.push_str(keyword_text(keyword_for(geometry)))?;
    out.push_str(" ")?;
    append_body(out, geometry)
}

/// Appends the text that `print` gives of a point. Where memory runs out, part of it may be there.
pub fn append_point(out: &mut String, point: &Point) -> Result<(), NoMemory>
    ensures text { OnOk result (string_bytes out.new
        ≡ string_bytes out.old ++ printed (geo.Point point.now)) }
    ensures kept { BeginsWith (string_bytes out.new) (string_bytes out.old) }
{
    out.push_str("POINT ")?;
    append_lone(out, point)
}

fn keyword_for(geometry: &Geometry) -> Keyword
    ensures { result ≡ grammar.keyword_of geometry.now }
{
    match geometry {
        Geometry::Point(_) => Keyword::Point,
        Geometry::Line(_) => Keyword::Line,
        Geometry::Area(_) => Keyword::Area,
        Geometry::ManyPoints(_) => Keyword::ManyPoints,
        Geometry::ManyLines(_) => Keyword::ManyLines,
        Geometry::ManyAreas(_) => Keyword::ManyAreas,
    }
}

fn keyword_text(keyword: Keyword) -> &'static str
    ensures { result.now ≡ grammar.keyword_text keyword }
{
    match keyword {
        Keyword::Point => "POINT",
        Keyword::Line => "LINESTRING",
        Keyword::Area => "POLYGON",
        Keyword::ManyPoints => "MULTIPOINT",
        Keyword::ManyLines => "MULTILINESTRING",
        Keyword::ManyAreas => "MULTIPOLYGON",
    }
}

fn append_body(out: &mut String, geometry: &Geometry) -> Result<(), NoMemory>
    ensures text { OnOk result (string_bytes out.new
        ≡ string_bytes out.old ++ body_text geometry.now) }
    ensures kept { BeginsWith (string_bytes out.new) (string_bytes out.old) }
{
    match geometry {
        Geometry::Point(point) => append_lone(out, point),
        Geometry::Line(points) => points.append(out),
        Geometry::Area(rings) => rings.append(out),
        Geometry::ManyPoints(points) => append_lones(out, points.as_slice()),
        Geometry::ManyLines(lines) => lines.append(out),
        Geometry::ManyAreas(areas) => areas.append(out),
    }
}

/// What stands in a text as a member of a list.
trait Printed {
    ghost text: { Self → List ℕ };

    fn append(&self, out: &mut String) -> Result<(), NoMemory>
        ensures text { OnOk result (string_bytes out.new ≡ string_bytes out.old ++ text self.now) }
        ensures kept { BeginsWith (string_bytes out.new) (string_bytes out.old) };
}

impl Printed for Point {
    ghost text = { position_text };

    fn append(&self, out: &mut String) -> Result<(), NoMemory> {
        append_fixed(out, self.x)?;
        out.push_str(" ")?;
        append_fixed(out, self.y)
    }
}

impl<T: Printed> Printed for Items<T> {
    ghost text = { list_text T.text };

    fn append(&self, out: &mut String) -> Result<(), NoMemory> {
        append_list(out, self.as_slice())
    }
}

fn append_list<T: Printed>(out: &mut String, items: &[T]) -> Result<(), NoMemory>
    ensures text { OnOk result (string_bytes out.new
        ≡ string_bytes out.old ++ list_text T.text items.now) }
    ensures kept { BeginsWith (string_bytes out.new) (string_bytes out.old) }
{
    out.push_str("(")?;
    let mut first = true;
    'items: for item in items {
        append_separator(out, first)?;
        item.append(out)?;
        first = false;
    }
    out.push_str(")")?;
    Ok(())
}

fn append_separator(out: &mut String, first: bool) -> Result<(), NoMemory>
    ensures text { OnOk result (string_bytes out.new
        ≡ string_bytes out.old ++ spec.separator_text first) }
    ensures kept { BeginsWith (string_bytes out.new) (string_bytes out.old) }
{
    if !first {
        out.push_str(", ")?;
    }
    Ok(())
}

fn append_lone(out: &mut String, point: &Point) -> Result<(), NoMemory>
    ensures text { OnOk result (string_bytes out.new
        ≡ string_bytes out.old ++ lone_text point.now) }
    ensures kept { BeginsWith (string_bytes out.new) (string_bytes out.old) }
{
    out.push_str("(")?;
    point.append(out)?;
    out.push_str(")")?;
    Ok(())
}

fn append_lones(out: &mut String, points: &[Point]) -> Result<(), NoMemory>
    ensures text { OnOk result (string_bytes out.new
        ≡ string_bytes out.old ++ list_text lone_text points.now) }
    ensures kept { BeginsWith (string_bytes out.new) (string_bytes out.old) }
{
    out.push_str("(")?;
    let mut first = true;
    'points: for point in points {
        append_separator(out, first)?;
        append_lone(out, point)?;
        first = false;
    }
    out.push_str(")")?;
    Ok(())
}
