// Sets of texts that are lent.
ghost use Rattle.std.specs.Prelude.{◌≡◌, ◌||◌, false, ℕ, List, OnOk};
ghost use Rattle.std.specs.Str.{bytes_eq};
ghost use Rattle.gm_scan.specs.Texts.{has_text};

use gm_base::NoMemory;
use std::alloc::Global;
use std::collections::BTreeSet;

/// Texts that are lent, each once, in the order of their bytes.
#[derive(Drop)]
pub(crate) struct Texts<'a> {
    sorted: BTreeSet<&'a [u8]>,
}

impl<'a> Texts<'a> {
    /// No texts. It takes no memory.
    pub(crate) fn new(alloc: Global) -> Texts<'a>
        ensures { (text : List ℕ) → has_text result text ≡ false }
    {
        Texts {
            sorted: BTreeSet::new(alloc),
        }
    }

    /// Puts a text in its place, unless it is there.
    pub(crate) fn add(&mut self, text: &'a [u8]) -> Result<(), NoMemory>
        ensures { OnOk result ((other : List ℕ) → has_text self.new other
            ≡ (has_text self.old other || bytes_eq other text.now)) }
    {
        self.sorted.insert(text)?;
        Ok(())
    }

    /// Whether a text is among them. The search takes halves.
    pub(crate) fn has(&self, text: &[u8]) -> bool
        ensures { result ≡ has_text self.now text.now }
    {
        self.sorted.contains(text)
    }
}
