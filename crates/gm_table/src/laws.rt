// Laws of rows and batches, for proofs about tables. Each is the contract of a function that does
// nothing.
ghost use Rattle.std.specs.Prelude.{◌≡◌, ◌++◌, ◌∷◌, ℕ, List, Option, IsTrue};
ghost use Rattle.std.specs.Prelude.{true, false, map, if◌then◌else◌};
ghost use Rattle.std.specs.FinMap.{entries, get, retain_keys};
ghost use Rattle.gm_table.specs.Batch.{are_distinct, has_key, applied_at};
ghost use Rattle.gm_table.specs.Row.{key_of};
ghost use Rattle.gm_table.specs.declared.row.Row.{Row};
ghost use Rattle.gm_table.specs.Sorted.{Rows, RowMap, IsRising, at_key, is_within, between};

/// Rows whose keys rise are known by what stands at each key.
pub fn same_at_each_key()
    ensures { (one other : Rows) → IsRising one → IsRising other
        → ((key : List ℕ) → at_key key one ≡ at_key key other) → one ≡ other }
{}

/// Rows whose keys rise are the entries of a finite map from key to bytes.
pub fn rows_of_a_map()
    ensures rising { (all : RowMap) → IsRising (entries all) }
    ensures at { (all : RowMap) (key : List ℕ) → at_key key (entries all) ≡ get all key }
    ensures same { (rows : Rows) (all : RowMap) → IsRising rows
        → ((key : List ℕ) → at_key key rows ≡ get all key) → rows ≡ entries all }
{}

/// The rows of a range are those of the table at the keys within it.
pub fn rows_of_a_range()
    ensures rising { (low high : List ℕ) (rows : Rows) → IsRising rows
        → IsRising (between low high rows) }
    ensures at { (low high key : List ℕ) (rows : Rows) → at_key key (between low high rows)
        ≡ (if is_within low high key then at_key key rows else None) }
    ensures of_a_map { (low high : List ℕ) (all : RowMap)
        → between low high (entries all) ≡ entries (retain_keys all (is_within low high)) }
{}

/// Where no two keys of a batch are equal, a removed key is gone, a row that is put is there, and
/// every other key has what it had.
pub fn applied_as_told()
    ensures removed { (key : List ℕ) (removes : List (List ℕ)) (puts : List Row)
        (before : Option (List ℕ))
        → has_key key removes ≡ true → applied_at key removes puts before ≡ None }
    ensures put { (removes : List (List ℕ)) (front : List Row) (row : Row) (back : List Row)
        (before : Option (List ℕ))
        → IsTrue (are_distinct (removes ++ map key_of (front ++ row ∷ back)))
        → applied_at (key_of row) removes (front ++ row ∷ back) before ≡ Some row.bytes }
    ensures other { (key : List ℕ) (removes : List (List ℕ)) (puts : List Row)
        (before : Option (List ℕ))
        → has_key key (removes ++ map key_of puts) ≡ false
        → applied_at key removes puts before ≡ before }
{}
