// From the pieces of a level to those of the next.
ghost use Rattle.std.specs.Prelude.{◌≡◌, ◌≤◌, ◌<◌, ◌+◌, ◌*◌, ◌^◌, length};
ghost use Rattle.std.specs.Prelude.{option_to_list, OnOk, IfOk, All};
ghost use Rattle.gm_split.specs.Opening.{piece_of, own_pieces, opened, opened_piece, weight};
ghost use Rattle.gm_split.specs.Opening.{partials, ends, Covers, IsPieceAt, IsComing};
ghost use Rattle.gm_split.specs.Front.{Takes, HasNext};
ghost use Rattle.gm_split.specs.Near.{HasNear, near_of};
ghost use Rattle.gm_runs.specs.Runs.{AreMaximalRuns};
ghost use Rattle.gm_trees.specs.Tree.{Shape};

use crate::front::Front;
use crate::pieces::Piece;
use crate::windows::{Lie, lie_among};
use gm_base::NoMemory;
use gm_runs::Runs;
use gm_trees::{Node, Steps, Tree, Window};
use std::alloc::Global;
use std::sync::ledger::Ledger;

/// Takes what stands of a node: nothing, all its codes, or itself. Only the windows whose bits are
/// set in `seen` are looked at; the node's reach overlaps no other.
pub(crate) fn add<const D: usize, T: Tree<D>>(
    tree: &T,
    node: &Node,
    windows: &[Window],
    seen: u64,
    into: &mut Front,
) -> Result<(), NoMemory>
    requires size { T.IsAllowed tree.now }
    requires comes { T.Comes tree.now node.now }
    requires few { length windows.now ≤ 64 }
    requires seen { HasNear D windows.now ((T.shape tree.now).reach node.now) seen }
    requires runs { into.old.runs < 2 ^ 32 }
    requires partial { into.old.partial < 2 ^ 32 }
    ensures { let s = T.shape tree.now in OnOk result
        (Takes s (option_to_list (piece_of D s windows.now node.now)) into.old into.new) }
{
    match lie_among::<D>(&tree.reach(node), windows, seen) {
        Lie::Inside => into.settle(node.first, tree.last(node)),
        Lie::Near(near) => {
            if near == 0 {
                return Ok(());
            }
            into.keep(*node, near, tree.last(node))
        }
    }
}

// Takes a node's own code, if it has one.
fn push_own(own: Option<u64>, into: &mut Front) -> Result<(), NoMemory>
    requires { into.old.runs < 2 ^ 32 }
    ensures { OnOk result ((s : Shape) → Takes s (own_pieces own) into.old into.new) }
{
    match own {
        None => Ok(()),
        Some(code) => into.settle(code, code),
    }
}

// Takes what stands of a partial node's own code and of its children.
fn open_node<const D: usize, T: Tree<D>, L: Ledger>(
    tree: &T,
    node: &Node,
    near: u64,
    windows: &[Window],
    steps: &mut Steps<L>,
    into: &mut Front,
) -> Result<(), NoMemory>
    requires dimensions { D ≤ 3 }
    requires size { T.IsAllowed tree.now }
    requires comes { T.Comes tree.now node.now }
    requires level { node.now.level < (T.shape tree.now).depth }
    requires few { length windows.now ≤ 64 }
    requires near { near ≡ near_of D windows.now ((T.shape tree.now).reach node.now) }
    requires runs { into.old.runs ≤ 40000 }
    requires partial { into.old.partial ≤ 40000 }
    ensures ok { let s = T.shape tree.now in OnOk result
        (Takes s (opened D s windows.now node.now) into.old into.new) }
    ensures steps { steps.new ≤ steps.old + 2 ^ D }
{
    push_own(tree.own(node), into)?;
    for q in 0..children(D) {
        let child = tree.child(node, q, steps);
        add(tree, &child, windows, near, into)?;
    }
    Ok(())
}

// How many children a node has.
fn children(dimensions: usize) -> u32
    requires { dimensions ≤ 3 }
    ensures { result ≡ 2 ^ dimensions }
{
    1u32 << dimensions
}

fn open_piece<const D: usize, T: Tree<D>, L: Ledger>(
    tree: &T,
    piece: &Piece,
    windows: &[Window],
    steps: &mut Steps<L>,
    into: &mut Front,
    level: u32,
) -> Result<(), NoMemory>
    requires dimensions { D ≤ 3 }
    requires size { T.IsAllowed tree.now }
    requires few { length windows.now ≤ 64 }
    requires piece { IsPieceAt D (T.shape tree.now) (T.Comes tree.now) windows.now level piece.now }
    requires level { level < (T.shape tree.now).depth }
    requires runs { into.old.runs ≤ 40000 }
    requires partial { into.old.partial ≤ 40000 }
    ensures ok { let s = T.shape tree.now in OnOk result
        (Takes s (opened_piece D s windows.now piece.now) into.old into.new) }
    ensures steps { steps.new ≤ steps.old + 2 ^ D * weight piece.now }
{
    match *piece {
        Piece::Codes(low, high) => into.settle(low, high),
        Piece::Partial(node, near) => open_node(tree, &node, near, windows, steps, into),
    }
}

/// Makes the next level from the pieces of this one, and answers whether it qualifies. Where it
/// does not, it stops at the first piece by which there are too many runs or partial nodes.
pub(crate) fn open_all<const D: usize, T: Tree<D>, L: Ledger>(
    tree: &T,
    pieces: &[Piece],
    windows: &[Window],
    target: u32,
    steps: &mut Steps<L>,
    next: &mut Front,
    level: u32,
) -> Result<bool, NoMemory>
    requires dimensions { D ≤ 3 }
    requires size { T.IsAllowed tree.now }
    requires few { length windows.now ≤ 64 }
    requires most { target ≤ 10000 }
    requires pieces { All
        (IsPieceAt D (T.shape tree.now) (T.Comes tree.now) windows.now level) pieces.now }
    requires level { level < (T.shape tree.now).depth }
    ensures next { let s = T.shape tree.now in IfOk result
        (λ qualifies. HasNext D s windows.now target pieces.now next.new qualifies) }
    ensures steps { steps.new ≤ steps.old + 2 ^ D * partials pieces.now }
{
    next.clear();
    for piece in pieces {
        open_piece(tree, piece, windows, steps, next, level)?;
        if next.runs > target as usize {
            return Ok(false);
        }
        if next.partial > 4 * target as usize {
            return Ok(false);
        }
    }
    next.close()?;
    Ok(true)
}

/// The codes of these pieces.
pub(crate) fn runs_of<const D: usize, T: Tree<D>>(
    alloc: Global,
    tree: &T,
    pieces: &[Piece],
) -> Result<Runs, NoMemory>
    requires pieces { let s = T.shape tree.now in
        All (λ p. (ends s p).0 ≤ (ends s p).1) pieces.now }
    requires comes { All (λ p. IsComing (T.Comes tree.now) p) pieces.now }
    ensures { IfOk result (λ runs. AreMaximalRuns runs (Covers (T.shape tree.now) pieces.now)) }
{
    let mut runs = Runs::new(alloc);
    for piece in pieces {
        let (low, high) = ends(tree, piece);
        runs.insert(alloc, low, high)?;
    }
    Ok(runs)
}

// The first and the last code of a piece.
fn ends<const D: usize, T: Tree<D>>(tree: &T, piece: &Piece) -> (u64, u64)
    requires { IsComing (T.Comes tree.now) piece.now }
    ensures { result ≡ ends (T.shape tree.now) piece.now }
{
    match piece {
        Piece::Codes(low, high) => (*low, *high),
        Piece::Partial(node, _) => (node.first, tree.last(node)),
    }
}
