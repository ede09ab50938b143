// What the words after the program's name come to.
use gm_base::NoMemory;

/// What the program was asked to do.
#[derive(Clone, Copy, Debug, PartialEq, Eq)]
pub(crate) struct Options {
    /// The script that is served in place of the source's.
    pub(crate) generate: Option<Made>,
}

/// A script to be generated, by a seed and a number of features, 1 to 100,000.
#[derive(Clone, Copy, Debug, PartialEq, Eq)]
pub(crate) struct Made {
    pub(crate) seed: u64,
    pub(crate) count: u32,
}

/// Why the words gave no options.
#[derive(Clone, Copy, Debug, PartialEq, Eq)]
pub(crate) enum WordsFault {
    /// The words are no use of the program.
    Usage,

    /// There was no memory to read them.
    NoMemory,
}

impl From<NoMemory> for WordsFault {
    ghost use Rattle.std.specs.Prelude.{◌≡◌};
    ghost use Rattle.gm_program.specs.declared.options.WordsFault.TheVariants as fault;

    ghost from_gives = { λ _ e. e ≡ fault.NoMemory };

    fn from(_: NoMemory) -> Self {
        WordsFault::NoMemory
    }
}
