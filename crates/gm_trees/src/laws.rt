// Which cells and codes the nodes at the ends of paths have.
ghost use Rattle.std.specs.Prelude.{◌≡◌, ◌≤◌, ◌<◌, ◌-◌, ◌*◌, ◌/◌, ◌^◌, ◌⊎◌, ◌↔◌};
ghost use Rattle.std.specs.Prelude.{ℕ, List, [], Some, length, slice_index_or};
ghost use Rattle.gm_base.specs.Text.{BeginsWith};
ghost use Rattle.gm_curve.specs.Listing.{listing, place_in};
ghost use Rattle.gm_curve.specs.Xz.{level_of, sequence_of};
ghost use Rattle.gm_trees.specs.Tree.{walk, HasCode, AreChildNumbers};
ghost use Rattle.gm_trees.specs.Paths.{spelled, HasCellOf, AreCoordinates};
ghost use Rattle.gm_trees.specs.Z.{z_shape, z_root, IsCellPath};
ghost use Rattle.gm_trees.specs.Xz.{xz_shape, IsObjectPath};

/// The cell of a node of the Z tree is that of its path.
pub fn z_node_by_path<const D: usize, const B: u32>()
    requires { (D ≡ 2) ⊎ (D ≡ 3) }
    ensures { (path : List ℕ) → AreChildNumbers D path
        → HasCellOf path (walk (z_shape D B) z_root path) }
{}

/// The codes of a node of the Z tree are those under 2^(D*B) whose highest bits spell its path.
pub fn z_codes_spell_path<const D: usize, const B: u32>()
    ensures { (path : List ℕ) (c : ℕ) → length path ≤ B → AreChildNumbers D path
        → HasCode (z_shape D B) (walk (z_shape D B) z_root path) c
        ↔ ((c < 2 ^ (D * B)) × (c / 2 ^ (D * (B - length path)) ≡ spelled D 0 path)) }
{}

/// The node of a cell of the deepest level has the cell's Z code as its code, and reaches just it.
pub fn z_cell_by_code<const D: usize, const B: u32>()
    requires { (D ≡ 2) ⊎ (D ≡ 3) }
    ensures { (at : List ℕ) → AreCoordinates D B at → IsCellPath D B at (sequence_of B B at) }
{}

/// The cell of a node of the XZ tree is that of its path.
pub fn xz_node_by_path<const D: usize, const G: u32>()
    requires { (D ≡ 2) ⊎ (D ≡ 3) }
    ensures { (path : List ℕ) → AreChildNumbers D path
        → HasCellOf path (walk (xz_shape D G) z_root path) }
{}

/// The own code of a node of the XZ tree is the place of its path in the listing.
pub fn xz_own_code_is_place<const D: usize, const G: u32>()
    ensures { (path : List ℕ) → length path ≤ G → AreChildNumbers D path
        → (xz_shape D G).own (walk (xz_shape D G) z_root path)
        ≡ Some (place_in (listing D G) path) }
{}

/// The codes of a node of the XZ tree are those of all sequences that begin with its path.
pub fn xz_codes_begin_with_path<const D: usize, const G: u32>()
    ensures { (path : List ℕ) (c : ℕ) → length path ≤ G → AreChildNumbers D path
        → HasCode (xz_shape D G) (walk (xz_shape D G) z_root path) c
        ↔ ((c < length (listing D G)) × BeginsWith (slice_index_or (listing D G) c []) path) }
{}

/// The node of an object has the object's XZ code as its own, and its reach holds the object's
/// cells.
pub fn object_is_in_reach<const D: usize, const G: u32>()
    requires { (D ≡ 2) ⊎ (D ≡ 3) }
    ensures { (low high : List ℕ) → AreCoordinates D G low → AreCoordinates D G high
        → IsObjectPath D G low high (sequence_of G (level_of G low high) low) }
{}
