// Why a reader stopped.
use gm_base::NoMemory;

/// A rule of specifications is broken, or there was no memory.
#[derive(Clone, Copy, Debug, PartialEq, Eq)]
pub enum Halt {
    Broken,
    NoMemory,
}

impl From<NoMemory> for Halt {
    ghost use Rattle.std.specs.Prelude.{◌≡◌};
    ghost use Rattle.gm_types.specs.declared.halt.Halt.TheVariants.{NoMemory};

    ghost from_gives = { λ _ e. e ≡ NoMemory };

    fn from(_: NoMemory) -> Self {
        Halt::NoMemory
    }
}
