// Laws of the truth of filters, for the crates above. Each is the contract of a function that does
// nothing.
ghost use Rattle.std.specs.Prelude.{◌≡◌, ◌&&◌, ◌++◌, not, true, false};
ghost use Rattle.std.specs.Prelude.{Bool, ℕ, ℤ, List, Some, IsUtf8};
ghost use Rattle.std.specs.List.{list_all, list_any};
ghost use Rattle.std.specs.Ordering.{int_cmp, nat_cmp, bool_cmp, is_eq};
ghost use Rattle.std.specs.Cmp.Lexicographic.{slice_cmp};
ghost use Rattle.std.specs.Str.{bytes_eq};
ghost use Rattle.gm_geom.specs.declared.point.Point.{Point};
ghost use Rattle.gm_geom.specs.declared.point.Box2.{Box2};
ghost use Rattle.gm_geom.specs.declared.geometry.Geometry.{Geometry};
ghost use Rattle.gm_geom.specs.declared.geometry.Geometry.TheVariants as geo;
ghost use Rattle.gm_shapes.specs.Meeting.{do_intersect, box_area};
ghost use Rattle.gm_shapes.specs.Meeting as meeting;
ghost use Rattle.gm_feature.specs.declared.feature.Feature.{Feature};
ghost use Rattle.gm_feature.specs.declared.value.Value.TheVariants as value;
ghost use Rattle.gm_feature.specs.Feature.{value_at};
ghost use Rattle.gm_filter.specs.declared.filter.Op.{Op};
ghost use Rattle.gm_filter.specs.declared.filter.Op.TheVariants.{Eq, Lt, Le, Gt, Ge};
ghost use Rattle.gm_filter.specs.declared.filter.Literal.{Literal};
ghost use Rattle.gm_filter.specs.declared.filter.Literal.TheVariants as literal;
ghost use Rattle.gm_filter.specs.Comparison.{compares, passes, passes_unordered};
ghost use Rattle.gm_filter.specs.Like.{is_like, has_wildcard, plain_front};
ghost use Rattle.gm_filter.specs.Tested.{tested_of};
ghost use Rattle.gm_filter.specs.Tree as tree;
ghost use Rattle.gm_filter.specs.Tree.{Tree, Trees, members_of};
ghost use Rattle.gm_filter.specs.Truth.{is_true};

/// NOT turns, AND is all of its members, and OR is one of them.
pub fn members_decide()
    ensures not { (f : Feature) (t : Tree) → is_true f (tree.negated t) ≡ not (is_true f t) }
    ensures and { (f : Feature) (ts : Trees)
        → is_true f (tree.all ts) ≡ list_all (is_true f) (members_of ts) }
    ensures or { (f : Feature) (ts : Trees)
        → is_true f (tree.any ts) ≡ list_any (is_true f) (members_of ts) }
{}

/// A null passes no test of a value but IS NULL.
pub fn null_passes_no_test()
    ensures { (f : Feature) (t : Tree) (a : ℕ) → tested_of t ≡ Some a → value_at f a ≡ value.Null
        → is_true f t ≡ false }
{}

/// Which comparisons tests stand for.
pub fn tests_compare()
    ensures compare { (f : Feature) (a : ℕ) (op : Op) (l : Literal)
        → is_true f (tree.compare a op l) ≡ compares op (value_at f a) l }
    ensures between { (f : Feature) (a : ℕ) (low high : Literal)
        → is_true f (tree.between a low high)
        ≡ (compares Ge (value_at f a) low && compares Le (value_at f a) high) }
    ensures one_of { (f : Feature) (a : ℕ) (literals : List Literal)
        → is_true f (tree.one_of a literals) ≡ list_any (compares Eq (value_at f a)) literals }
    ensures during { (f : Feature) (a : ℕ) (low high : ℤ)
        → is_true f (tree.during a low high)
        ≡ (compares Gt (value_at f a) (literal.Date low)
        && compares Lt (value_at f a) (literal.Date high)) }
    ensures before { (f : Feature) (a : ℕ) (at : ℤ)
        → is_true f (tree.before a at) ≡ compares Lt (value_at f a) (literal.Date at) }
    ensures after { (f : Feature) (a : ℕ) (at : ℤ)
        → is_true f (tree.after a at) ≡ compares Gt (value_at f a) (literal.Date at) }
    ensures tequals { (f : Feature) (a : ℕ) (at : ℤ)
        → is_true f (tree.tequals a at) ≡ compares Eq (value_at f a) (literal.Date at) }
{}

/// Values compare by their order: numbers and instants by value, texts by their bytes. Truths have
/// none.
pub fn values_compare_in_order()
    ensures texts { (op : Op) (t u : List ℕ)
        → compares op (value.Text t) (literal.Text u) ≡ passes op (slice_cmp nat_cmp t u) }
    ensures integers { (op : Op) (m n : ℤ)
        → compares op (value.Integer m) (literal.Number n) ≡ passes op (int_cmp m n) }
    ensures longs { (op : Op) (m n : ℤ)
        → compares op (value.Long m) (literal.Number n) ≡ passes op (int_cmp m n) }
    ensures dates { (op : Op) (at to : ℤ)
        → compares op (value.Date at) (literal.Date to) ≡ passes op (int_cmp at to) }
    ensures truths { (op : Op) (b c : Bool)
        → compares op (value.Boolean b) (literal.Truth c)
        ≡ passes_unordered op (is_eq (bool_cmp b c)) }
{}

/// BBOX is meeting the closed box, INTERSECTS meeting the geometry and DISJOINT not meeting it, and
/// WITHIN lying in one of its polygons.
pub fn tests_meet()
    ensures bbox { (f : Feature) (a : ℕ) (b : Box2) (g : Geometry) → value_at f a ≡ value.Geo g
        → is_true f (tree.bbox a b) ≡ do_intersect g (box_area b) }
    ensures intersects { (f : Feature) (a : ℕ) (g h : Geometry) → value_at f a ≡ value.Geo g
        → is_true f (tree.intersects a h) ≡ do_intersect g h }
    ensures disjoint { (f : Feature) (a : ℕ) (g h : Geometry) → value_at f a ≡ value.Geo g
        → is_true f (tree.disjoint a h) ≡ not (do_intersect g h) }
    ensures within { (f : Feature) (a : ℕ) (p : Point) (h : Geometry)
        → value_at f a ≡ value.Geo (geo.Point p)
        → is_true f (tree.within a h) ≡ meeting.is_within p h }
{}

/// What is like a pattern begins as the pattern does before its first `%` or `_`, and is the
/// pattern where it has none.
pub fn like_begins()
    ensures front { (pattern text : List ℕ) → IsUtf8 pattern → IsUtf8 text
        → is_like pattern text ≡ true
        → (rest : List ℕ) × (text ≡ plain_front pattern ++ rest) }
    ensures whole { (pattern text : List ℕ) → IsUtf8 pattern → IsUtf8 text
        → is_like pattern text ≡ true
        → has_wildcard pattern ≡ false → text ≡ pattern }
{}

/// The identifier is one of the texts.
pub fn ids_are_texts()
    ensures { (f : Feature) (texts : List (List ℕ))
        → is_true f (tree.ids texts) ≡ list_any (bytes_eq f.id) texts }
{}
