// A folder for runs that name none.
ghost use Rattle.std.specs.Prelude.{◌≡◌, None, Ok, [], IsOk};

use crate::{Folder, FolderRefusal, Names};
use gm_base::{Bytes, Items, Text};
use std::alloc::Global;

/// A folder that never fails, keeps nothing, and tells nothing.
#[derive(Clone, Copy, Debug)]
pub struct SteadyFolder;

impl Folder for SteadyFolder {
    ghost map = { λ _. None };

    ghost faults = { λ _. 0 };

    fn open(&mut self, _alloc: Global, _place: &Text) -> Result<(), FolderRefusal>
        ensures { IsOk result }
    {
        Ok(())
    }

    fn get(&mut self, _alloc: Global, _name: &Text) -> Result<Option<Bytes>, FolderRefusal>
        ensures { result ≡ Ok None }
    {
        Ok(None)
    }

    fn put(&mut self, _alloc: Global, _name: &Text, _bytes: &[u8]) -> Result<(), FolderRefusal>
        ensures { IsOk result }
    {
        Ok(())
    }

    fn rename(&mut self, _alloc: Global, _from: &Text, _to: &Text) -> Result<(), FolderRefusal>
        ensures { IsOk result }
    {
        Ok(())
    }

    fn remove(&mut self, _alloc: Global, _name: &Text) -> Result<(), FolderRefusal>
        ensures { IsOk result }
    {
        Ok(())
    }

    fn names(&mut self, alloc: Global) -> Result<Names, FolderRefusal>
        ensures { result ≡ Ok [] }
    {
        Ok(Items::new(alloc))
    }
}
