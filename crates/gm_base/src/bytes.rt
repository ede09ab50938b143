// Bytes, seen as their list.
ghost use Rattle.std.specs.Prelude.{◌≡◌, [], ◌++◌, ◌↔◌, length, take, IsTrue, IfOk, OnOk, OnErr};
ghost use Rattle.gm_base.specs.Front.{IsFront};

use crate::NoMemory;
use crate::front::first_bytes;
use std::alloc::Global;
use std::marker::Model;

/// Bytes that contracts see as the list of their values. They are ordered byte by byte, a front of
/// others before these. The first 16 stand beside the pointer to all of them, so two that differ in
/// these are compared without a look at the rest.
#[derive(Debug, Drop)]
pub struct Bytes {
    front: u128,
    items: Vec<u8>,
}

// How many bytes the front has.
const FRONT: usize = 16;

impl Model for Bytes {
    ghost use Rattle.std.specs.Prelude.{ℕ, List};
    ghost use Rattle.gm_base.specs.Front.{IsFront};

    ghost Value = { List ℕ };

    ghost view = { λ b. b.items.items };

    ghost invariant = { λ b. IsFront b.front b.items.items };
}

impl Bytes {
    pub fn new(alloc: Global) -> Bytes
        ensures { result ≡ [] }
    {
        Bytes {
            front: 0,
            items: Vec::new(alloc),
        }
    }

    pub fn from_slice(alloc: Global, bytes: &[u8]) -> Result<Bytes, NoMemory>
        ensures { IfOk result (λ b. b ≡ bytes.now) }
    {
        Ok(Bytes {
            front: first_bytes(bytes),
            items: bytes.to_vec(alloc)?,
        })
    }

    /// The bytes of a vector. It takes no memory.
    pub fn from_vec(items: Vec<u8>) -> Bytes
        ensures { result ≡ items.items }
    {
        let front = first_bytes(&items);
        Bytes { front, items }
    }

    /// The vector again. It takes no memory.
    pub fn into_vec(self) -> Vec<u8>
        ensures { result.items ≡ self }
    {
        let Bytes { front: _, items } = self;
        items
    }

    pub fn as_slice(&self) -> &[u8]
        ensures { result.now ≡ self.now }
    {
        &self.items
    }

    pub fn len(&self) -> usize
        ensures { result ≡ length self.now }
    {
        self.items.len()
    }

    pub fn is_empty(&self) -> bool
        ensures { IsTrue result ↔ (self.now ≡ []) }
    {
        self.items.is_empty()
    }

    pub fn append(&mut self, more: &[u8]) -> Result<(), NoMemory>
        ensures ok { OnOk result (self.new ≡ self.old ++ more.now) }
        ensures err { OnErr result (self.new ≡ self.old) }
    {
        let before = self.items.len();
        self.items.extend_from_slice(more)?;
        if before < FRONT {
            self.front = first_bytes(&self.items);
        }
        Ok(())
    }

    /// Keeps the first bytes, at most so many.
    pub fn truncate(&mut self, len: usize)
        ensures { self.new ≡ take len self.old }
    {
        self.items.truncate(len);
        self.front = first_bytes(&self.items);
    }

    /// The number of the first bytes, which `first_bytes` gives too. It is at hand.
    pub fn front(&self) -> u128
        ensures { IsFront result self.now }
    {
        self.front
    }

    pub fn copy(&self, alloc: Global) -> Result<Bytes, NoMemory>
        ensures { IfOk result (λ copy. copy ≡ self.now) }
    {
        Ok(Bytes {
            front: self.front,
            items: self.items.as_slice().to_vec(alloc)?,
        })
    }
}
