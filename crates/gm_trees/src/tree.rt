// What a tree of cells is, whichever codes it has.
ghost use Rattle.std.specs.Prelude.{◌≡◌, ◌<◌, ◌^◌};
ghost use Rattle.gm_base.specs.Counter.{capped_sum};
ghost use Rattle.gm_trees.specs.declared.node.Node.{Node};
ghost use Rattle.gm_trees.specs.Tree.{Shape, IsTree};

use crate::{Node, Node3, Steps};
use std::sync::ledger::Ledger;

/// A tree of cells in D dimensions. None of its calls takes memory.
pub trait Tree<const D: usize> {
    /// Whether the size of this tree is allowed.
    ghost IsAllowed: { Self → Type 0 };

    /// Whether a node comes from the root by calls of `child`.
    ghost Comes: { Self → Node → Type 0 };

    /// What the calls answer.
    ghost shape: { Self → Shape };

    /// The level of the deepest nodes.
    fn depth(&self) -> u32
        ensures { result ≡ (shape self.now).depth };

    /// The node that has every code.
    fn root(&self) -> Node
        requires { IsAllowed self.now }
        ensures root { result ≡ (shape self.now).root }
        ensures comes { Comes self.now result };

    /// The child of this number, whose bit d is the half along dimension d. It is one step.
    fn child<L: Ledger>(&self, node: &Node, q: u32, steps: &mut Steps<L>) -> Node
        requires comes { Comes self.now node.now }
        requires level { node.now.level < (shape self.now).depth }
        requires q { q < 2 ^ D }
        ensures child { result ≡ (shape self.now).child node.now q }
        ensures comes { Comes self.now result }
        ensures steps { steps.new ≡ capped_sum steps.old 1 };

    /// The last code of a node.
    fn last(&self, node: &Node) -> u64
        requires { Comes self.now node.now }
        ensures { result ≡ (shape self.now).last node.now };

    /// The code that is the node's and none of its children's, if there is one.
    fn own(&self, node: &Node) -> Option<u64>
        requires { Comes self.now node.now }
        ensures { result ≡ (shape self.now).own node.now };

    /// The box of cells that the objects of a node can touch, by its least and its greatest corner.
    fn reach(&self, node: &Node) -> (Node3, Node3)
        requires { Comes self.now node.now }
        ensures { result ≡ (shape self.now).reach node.now };

    /// The codes and the reach of a node are those of its children, and its own code.
    ghost laws: { (tree : Self) → IsAllowed tree → IsTree D (shape tree) (Comes tree) };
}
