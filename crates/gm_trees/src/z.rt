// The tree of the Z code.
ghost use Rattle.std.specs.Prelude.{◌≡◌, ◌<◌, ◌≤◌, ◌+◌, ◌-◌, ◌*◌, ◌^◌};
ghost use Rattle.gm_trees.specs.Z.{z_shape, IsZSize, ComesZ};
ghost use Rattle.gm_trees.specs.ZLaws.{z_laws};

use crate::cell::{high_end, low_end};
use crate::{Node, Node3, Steps, Tree};
use std::sync::ledger::Ledger;

/// The tree of the Z code (Morton 1966) of D dimensions with B bits each. Its codes are the cells
/// of the deepest level, the children split the codes of a node, and a node reaches its cell. D is
/// 2 or 3, and D * B at most 63.
#[derive(Clone, Copy, Debug, PartialEq, Eq)]
pub struct ZTree<const D: usize, const B: u32>;

impl<const D: usize, const B: u32> Tree<D> for ZTree<D, B> {
    ghost IsAllowed = { λ _. IsZSize D B };

    ghost Comes = { λ _ n. ComesZ D B n };

    ghost shape = { λ _. z_shape D B };

    ghost laws = { λ _ size. z_laws D B size };

    fn depth(&self) -> u32 {
        B
    }

    fn root(&self) -> Node {
        Node {
            level: 0,
            first: 0,
            x: 0,
            y: 0,
            t: 0,
        }
    }

    fn child<L: Ledger>(&self, node: &Node, q: u32, steps: &mut Steps<L>) -> Node {
        steps.tick();
        let first = child_first(D, B, node.first, node.level, q);
        Node {
            level: node.level + 1,
            first,
            x: 2 * node.x + q % 2,
            y: 2 * node.y + q / 2 % 2,
            t: 2 * node.t + q / 4,
        }
    }

    fn last(&self, node: &Node) -> u64 {
        node.first + (width(D, B - node.level) - 1)
    }

    fn own(&self, _node: &Node) -> Option<u64> {
        None
    }

    fn reach(&self, node: &Node) -> (Node3, Node3) {
        let below = B - node.level;
        let low = Node3 {
            x: low_end(node.x, node.level, below),
            y: low_end(node.y, node.level, below),
            t: low_end(node.t, node.level, below),
        };
        let high = Node3 {
            x: high_end(node.x, node.level, below),
            y: high_end(node.y, node.level, below),
            t: high_end(node.t, node.level, below),
        };
        (low, high)
    }
}

// How many codes a node has, this many levels above the deepest.
fn width(dimensions: usize, levels: u32) -> u64
    requires fits { dimensions * levels ≤ 63 }
    requires few { dimensions ≤ 3 }
    requires low { levels ≤ 63 }
    ensures { result ≡ 2 ^ (dimensions * levels) }
{
    1u64 << (dimensions as u32 * levels)
}

// The first code of a child.
fn child_first(dimensions: usize, bits: u32, first: u64, level: u32, q: u32) -> u64
    requires dimensions { dimensions ≤ 3 }
    requires fits { dimensions * bits ≤ 63 }
    requires level { level < bits }
    requires q { q < 2 ^ dimensions }
    requires first { first + 2 ^ (dimensions * (bits - level)) ≤ 2 ^ (dimensions * bits) }
    requires bits { bits ≤ 31 }
    ensures { result ≡ first + q * 2 ^ (dimensions * (bits - (level + 1))) }
{
    first + u64::from(q) * width(dimensions, bits - (level + 1))
}
