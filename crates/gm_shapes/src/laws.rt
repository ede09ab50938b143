// Laws of the definitions, for the crates above.
ghost use Rattle.std.specs.Prelude.{◌≡◌, ◌≤ℤ◌, ◌↔◌, true, None};
ghost use Rattle.std.specs.List.{AllByRecursion};
ghost use Rattle.gm_geom.specs.declared.point.Point.{Point};
ghost use Rattle.gm_geom.specs.declared.point.Box2.{Box2};
ghost use Rattle.gm_geom.specs.declared.geometry.Geometry.{Geometry};
ghost use Rattle.gm_geom.specs.declared.geometry.Geometry.TheVariants as geo;
ghost use Rattle.gm_geom.specs.Geometry.{points_of, areas_of};
ghost use Rattle.gm_geom.specs.Validity.{fault_of};
ghost use Rattle.gm_geom.specs.Extent.{HoldsAll, IsInBox, IsLeastBox};
ghost use Rattle.gm_shapes.specs.declared.segment.Segment.{Segment};
ghost use Rattle.gm_shapes.specs.Segment.{box_of, do_overlap};
ghost use Rattle.gm_shapes.specs.Edge.{IsEdgeIn, edges_of, meets_edge_of};
ghost use Rattle.gm_shapes.specs.Meeting.{do_intersect, is_in_any, is_within, box_area};

/// Two geometries that are kept and meet have bounds that overlap, and so do all boxes that hold
/// them.
pub fn overlaps_where_meeting()
    ensures { (one two : Geometry) (b c : Box2) → fault_of one ≡ None → fault_of two ≡ None →
        HoldsAll b (points_of one) → HoldsAll c (points_of two) → do_intersect one two ≡ true →
        do_overlap b c ≡ true }
{}

/// Meeting is symmetric.
pub fn meeting_is_symmetric()
    ensures { (one two : Geometry) → do_intersect one two ≡ do_intersect two one }
{}

/// A point within a geometry meets it.
pub fn meets_where_within()
    ensures { (p : Point) (area : Geometry) → is_within p area ≡ true →
        do_intersect (geo.Point p) area ≡ true }
{}

/// A point that meets a geometry that is kept lies in its bounds, and in each box that holds it.
pub fn lies_in_bounds_where_meeting()
    ensures { (p : Point) (geometry : Geometry) (b : Box2) → fault_of geometry ≡ None →
        HoldsAll b (points_of geometry) → do_intersect (geo.Point p) geometry ≡ true →
        IsInBox b p }
{}

/// So does a point within it.
pub fn lies_in_bounds_where_within()
    ensures { (p : Point) (area : Geometry) (b : Box2) → fault_of area ≡ None →
        HoldsAll b (points_of area) → is_within p area ≡ true → IsInBox b p }
{}

/// So does a point in one of its polygons.
pub fn lies_in_bounds_where_in_area()
    ensures { (p : Point) (geometry : Geometry) (b : Box2) → fault_of geometry ≡ None →
        HoldsAll b (points_of geometry) → is_in_any (areas_of geometry) p ≡ true → IsInBox b p }
{}

/// A box that holds the points of a geometry holds its edges.
pub fn holds_each_edge()
    ensures { (geometry : Geometry) (b : Box2) → HoldsAll b (points_of geometry) →
        AllByRecursion (IsEdgeIn b) (edges_of geometry) }
{}

/// A segment that meets an edge of a geometry has a box that overlaps each box that holds the
/// points.
pub fn overlaps_where_meeting_an_edge()
    ensures { (geometry : Geometry) (b : Box2) (s : Segment) → HoldsAll b (points_of geometry) →
        meets_edge_of geometry s ≡ true → do_overlap (box_of s) b ≡ true }
{}

/// A geometry meets the closed box that bounds it, taken as a polygon of four edges.
pub fn meets_its_box()
    ensures { (geometry : Geometry) (box : Box2) → IsLeastBox box (points_of geometry) →
        do_intersect geometry (box_area box) ≡ true }
{}

/// A geometry that is kept and meets a closed box has bounds that overlap the box.
pub fn overlaps_a_box_it_meets()
    ensures { (geometry : Geometry) (b box : Box2) → fault_of geometry ≡ None →
        HoldsAll b (points_of geometry) → box.low.x ≤ℤ box.high.x → box.low.y ≤ℤ box.high.y →
        do_intersect geometry (box_area box) ≡ true → do_overlap b box ≡ true }
{}

/// A point meets a closed box exactly where it lies in it.
pub fn meets_where_in_box()
    ensures { (p : Point) (box : Box2) → box.low.x ≤ℤ box.high.x → box.low.y ≤ℤ box.high.y →
        ((do_intersect (geo.Point p) (box_area box) ≡ true) ↔ IsInBox box p) }
{}
