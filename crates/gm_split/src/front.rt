// A level while it is made.
ghost use Rattle.std.specs.Prelude.{◌≡◌, ◌<◌, ◌+◌, ◌^◌, ◌++◌, ◌∷◌, [], eqb, suc, OnOk};
ghost use Rattle.gm_trees.specs.Tree.{Shape};
ghost use Rattle.gm_split.specs.Front.{joined_after, growing_of, begins, HasTaken, Takes};

use crate::pieces::Piece;
use gm_base::NoMemory;
use gm_trees::Node;
use std::alloc::Global;

/// The last of the pieces that were taken.
#[derive(Clone, Copy, Debug, PartialEq, Eq)]
pub(crate) enum Tail {
    /// None were.
    Start,
    /// Settled codes that may still grow, the first and the last. They are not in the list yet.
    Growing(u64, u64),
    /// A partial node that has this last code.
    Closed(u64),
}

/// The pieces of a level in rising order, settled codes that touch as one piece, and how many runs
/// and partial nodes they have.
#[derive(Drop)]
pub(crate) struct Front {
    pub pieces: Vec<Piece>,
    pub tail: Tail,
    pub runs: usize,
    pub partial: usize,
}

impl Front {
    /// No piece.
    pub fn new(alloc: Global) -> Front
        ensures { (s : Shape) → HasTaken s [] result }
    {
        Front {
            pieces: Vec::new(alloc),
            tail: Tail::Start,
            runs: 0,
            partial: 0,
        }
    }

    /// No piece, and the memory of those before.
    pub fn clear(&mut self)
        ensures { (s : Shape) → HasTaken s [] self.new }
    {
        self.pieces.clear();
        self.tail = Tail::Start;
        self.runs = 0;
        self.partial = 0;
    }

    /// Takes settled codes.
    pub fn settle(&mut self, low: u64, high: u64) -> Result<(), NoMemory>
        requires { self.old.runs < 2 ^ 32 }
        ensures { OnOk result ((s : Shape)
            → Takes s (Piece.Codes low high ∷ []) self.old self.new) }
    {
        if let Tail::Growing(first, last) = self.tail {
            if follows(last, low) {
                self.tail = Tail::Growing(first, high);
                return Ok(());
            }
        }
        self.begin(low)?;
        self.tail = Tail::Growing(low, high);
        Ok(())
    }

    /// Takes a partial node with this last code, and the windows that its reach overlaps.
    pub fn keep(&mut self, node: Node, near: u64, last: u64) -> Result<(), NoMemory>
        requires runs { self.old.runs < 2 ^ 32 }
        requires partial { self.old.partial < 2 ^ 32 }
        ensures { OnOk result ((s : Shape) → s.last node ≡ last
            → Takes s (Piece.Partial node near ∷ []) self.old self.new) }
    {
        self.begin(node.first)?;
        self.pieces.push(Piece::Partial(node, near))?;
        self.partial += 1;
        self.tail = Tail::Closed(last);
        Ok(())
    }

    // Puts the codes that may still grow into the list, and counts a run where the next codes do
    // not follow at once.
    fn begin(&mut self, low: u64) -> Result<(), NoMemory>
        requires { self.old.runs < 2 ^ 32 }
        ensures pieces { OnOk result (self.new.pieces.items
            ≡ self.old.pieces.items ++ joined_after (growing_of self.old.tail) []) }
        ensures runs { OnOk result (self.new.runs ≡ self.old.runs + begins self.old.tail low) }
        ensures partial { self.new.partial ≡ self.old.partial }
    {
        self.close()?;
        self.runs += begins(self.tail, low);
        Ok(())
    }

    /// Puts the codes that may still grow into the list.
    pub fn close(&mut self) -> Result<(), NoMemory>
        ensures pieces { OnOk result (self.new.pieces.items
            ≡ self.old.pieces.items ++ joined_after (growing_of self.old.tail) []) }
        ensures tail { self.new.tail ≡ self.old.tail }
        ensures runs { self.new.runs ≡ self.old.runs }
        ensures partial { self.new.partial ≡ self.old.partial }
    {
        if let Tail::Growing(first, last) = self.tail {
            self.pieces.push(Piece::Codes(first, last))?;
        }
        Ok(())
    }
}

// Whether codes from low on follow this last code at once.
fn follows(last: u64, low: u64) -> bool
    ensures { result ≡ eqb (suc last) low }
{
    last.checked_add(1) == Some(low)
}

// How many runs codes from low on begin: none where they follow at once.
fn begins(tail: Tail, low: u64) -> usize
    ensures { result ≡ begins tail low }
{
    let last = match tail {
        Tail::Start => return 1,
        Tail::Growing(_, last) => last,
        Tail::Closed(last) => last,
    };
    if follows(last, low) { 0 } else { 1 }
}
