// The tree of the XZ code.
ghost use Rattle.std.specs.Prelude.{◌≡◌, ◌<◌, ◌≤◌, ◌+◌, ◌-◌, ◌*◌, ◌^◌};
ghost use Rattle.gm_curve.specs.Listing.{sequence_count};
ghost use Rattle.gm_trees.specs.Xz.{xz_shape, IsXzSize, ComesXz};
ghost use Rattle.gm_trees.specs.XzLaws.{xz_laws};

use crate::cell::{enlarged_end, low_end};
use crate::{Node, Node3, Steps, Tree};
use std::sync::ledger::Ledger;

/// The tree of the XZ code (Böhm, Klump and Kriegel 1999) of D dimensions with sequences of at most
/// G numbers. Each node has a code of its own, its first, and its children split the others. A node
/// reaches twice as far as its cell, up to the end of the space. D is 2 or 3, and G from 1 to 16.
#[derive(Clone, Copy, Debug, PartialEq, Eq)]
pub struct XzTree<const D: usize, const G: u32>;

impl<const D: usize, const G: u32> Tree<D> for XzTree<D, G> {
    ghost IsAllowed = { λ _. IsXzSize D G };

    ghost Comes = { λ _ n. ComesXz D G n };

    ghost shape = { λ _. xz_shape D G };

    ghost laws = { λ _ size. xz_laws D G size };

    fn depth(&self) -> u32 {
        G
    }

    fn root(&self) -> Node {
        Node {
            level: 0,
            first: 0,
            x: 0,
            y: 0,
            t: 0,
        }
    }

    fn child<L: Ledger>(&self, node: &Node, q: u32, steps: &mut Steps<L>) -> Node {
        steps.tick();
        let first = xz_child_first(D, G, node.first, node.level, q);
        Node {
            level: node.level + 1,
            first,
            x: 2 * node.x + q % 2,
            y: 2 * node.y + q / 2 % 2,
            t: 2 * node.t + q / 4,
        }
    }

    fn last(&self, node: &Node) -> u64 {
        let below = size(D, G - node.level);
        last_of(node.first, below, D, G)
    }

    fn own(&self, node: &Node) -> Option<u64> {
        Some(node.first)
    }

    fn reach(&self, node: &Node) -> (Node3, Node3) {
        let below = G - node.level;
        let low = Node3 {
            x: low_end(node.x, node.level, below),
            y: low_end(node.y, node.level, below),
            t: low_end(node.t, node.level, below),
        };
        let high = Node3 {
            x: enlarged_end(node.x, node.level, below, G),
            y: enlarged_end(node.y, node.level, below, G),
            t: enlarged_end(node.t, node.level, below, G),
        };
        (low, high)
    }
}

// How many sequences of at most this many numbers there are: a geometric sum.
fn size(dimensions: usize, levels: u32) -> u64
    requires some { 1 ≤ dimensions }
    requires few { dimensions ≤ 3 }
    requires low { levels ≤ 16 }
    ensures { result ≡ sequence_count dimensions levels }
{
    let whole = 1u64 << (dimensions as u32 * (levels + 1));
    let children = 1u64 << dimensions;
    (whole - 1) / (children - 1)
}

// The last of so many codes.
fn last_of(first: u64, below: u64, dimensions: usize, levels: u32) -> u64
    requires some { 1 ≤ dimensions }
    requires few { dimensions ≤ 3 }
    requires low { levels ≤ 16 }
    requires least { 1 ≤ below }
    requires first { first + below ≤ sequence_count dimensions levels }
    ensures { result ≡ first + (below - 1) }
{
    first + (below - 1)
}

// The first code of a child.
fn xz_child_first(dimensions: usize, levels: u32, first: u64, level: u32, q: u32) -> u64
    requires some { 1 ≤ dimensions }
    requires dimensions { dimensions ≤ 3 }
    requires low { levels ≤ 16 }
    requires level { level < levels }
    requires q { q < 2 ^ dimensions }
    requires first { first + sequence_count dimensions (levels - level)
        ≤ sequence_count dimensions levels }
    ensures { result ≡ first + 1 + q * sequence_count dimensions (levels - (level + 1)) }
{
    first + 1 + u64::from(q) * size(dimensions, levels - (level + 1))
}
