// A folder of named bytes.
ghost use Rattle.std.specs.Prelude.{◌≡◌, ◌≤◌, ◌≢◌, ℕ, List, Option, Some};
ghost use Rattle.std.specs.Prelude.{IfOk, OnOk, OnErr, IsErrOf, IsSome};
ghost use Rattle.std.specs.Option.{ForSome};
ghost use Rattle.std.specs.Ordering.{nat_cmp};
ghost use Rattle.std.specs.Cmp.Lexicographic.{slice_cmp};
ghost use Rattle.std.specs.FinMap as files;
ghost use Rattle.gm_outside.specs.Failed.{Rose};
ghost use Rattle.gm_outside.specs.Folder.{Renamed, Removed, OldOr};

use gm_base::{Bytes, Items, Text};
use std::alloc::Global;

/// Names of a folder, in the order of their bytes.
pub type Names = Items<Text>;

/// Why a folder's call was not done.
#[derive(Clone, Copy, Debug, PartialEq, Eq)]
pub enum FolderRefusal {
    /// The device failed, which counts as a fault.
    Failed,

    /// There was no memory for what the call wants.
    NoMemory,
}

/// Keeps bytes under names. No call has the condition that `open` came; an adapter that was not
/// opened counts every other call as a fault.
pub trait Folder {
    /// The names with their bytes, where the folder tells them.
    ghost map: { Self → Option (files.FinMap (slice_cmp nat_cmp) (List ℕ)) };

    /// How often it has failed, as far as a u64 counts.
    ghost faults: { Self → ℕ };

    /// Names the folder, and makes it where it is missing. It may come again.
    fn open(&mut self, alloc: Global, place: &Text) -> Result<(), FolderRefusal>
        ensures same { map self.new ≡ map self.old }
        ensures cause { IsErrOf result FolderRefusal.Failed
            → Rose (faults self.old) (faults self.new) }
        ensures later { faults self.old ≤ faults self.new };

    /// The bytes of a name. None exactly where the name is missing.
    fn get(&mut self, alloc: Global, name: &Text) -> Result<Option<Bytes>, FolderRefusal>
        ensures found { IfOk result
            (λ bytes. ForSome (map self.old) (λ m. bytes ≡ files.get m name.now)) }
        ensures same { map self.new ≡ map self.old }
        ensures cause { IsErrOf result FolderRefusal.Failed
            → Rose (faults self.old) (faults self.new) }
        ensures later { faults self.old ≤ faults self.new };

    /// Gives a name these bytes. After an error the name is missing or has any bytes.
    fn put(&mut self, alloc: Global, name: &Text, bytes: &[u8]) -> Result<(), FolderRefusal>
        ensures ok { OnOk result (ForSome (map self.old) (λ m. map self.new
            ≡ Some (files.insert m name.now bytes.now))) }
        ensures err { OnErr result (ForSome (map self.old) (λ m. ForSome (map self.new) (λ n.
            (q : List ℕ) → q ≢ name.now → files.get n q ≡ files.get m q))) }
        ensures told { IsSome (map self.old) → IsSome (map self.new) }
        ensures cause { IsErrOf result FolderRefusal.Failed
            → Rose (faults self.old) (faults self.new) }
        ensures later { faults self.old ≤ faults self.new };

    /// Gives the bytes of a name to another. It is one step: after an error it was done or not
    /// begun.
    fn rename(&mut self, alloc: Global, from: &Text, to: &Text) -> Result<(), FolderRefusal>
        requires differ { from.now ≢ to.now }
        requires there { ForSome (map self.old) (λ m. IsSome (files.get m from.now)) }
        ensures ok { OnOk result (ForSome (map self.old)
            (λ m. ForSome (map self.new) (Renamed from.now to.now m))) }
        ensures err { OnErr result
            (ForSome (map self.old) (λ m. ForSome (map self.new)
            (OldOr (Renamed from.now to.now m) m))) }
        ensures told { IsSome (map self.old) → IsSome (map self.new) }
        ensures cause { IsErrOf result FolderRefusal.Failed
            → Rose (faults self.old) (faults self.new) }
        ensures later { faults self.old ≤ faults self.new };

    /// Takes a name away; a missing name gives Ok. After an error the name is as before or gone.
    fn remove(&mut self, alloc: Global, name: &Text) -> Result<(), FolderRefusal>
        ensures ok { OnOk result (ForSome (map self.old)
            (λ m. ForSome (map self.new) (Removed name.now m))) }
        ensures err { OnErr result
            (ForSome (map self.old) (λ m. ForSome (map self.new) (OldOr (Removed name.now m) m))) }
        ensures told { IsSome (map self.old) → IsSome (map self.new) }
        ensures cause { IsErrOf result FolderRefusal.Failed
            → Rose (faults self.old) (faults self.new) }
        ensures later { faults self.old ≤ faults self.new };

    /// The names, in the order of their bytes. An adapter counts a name that is not UTF-8 as a
    /// fault.
    fn names(&mut self, alloc: Global) -> Result<Names, FolderRefusal>
        ensures found { IfOk result (λ names. ForSome (map self.old) (λ m. names ≡ files.keys m)) }
        ensures same { map self.new ≡ map self.old }
        ensures cause { IsErrOf result FolderRefusal.Failed
            → Rose (faults self.old) (faults self.new) }
        ensures later { faults self.old ≤ faults self.new };
}
