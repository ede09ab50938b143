// Why a reader stopped.
use gm_base::NoMemory;

#[derive(Clone, Copy, Debug, PartialEq, Eq)]
pub enum Halt {
    Syntax,
    NoMemory,
}

impl From<NoMemory> for Halt {
    ghost use Rattle.std.specs.Prelude.{◌≡◌};
    ghost use Rattle.gm_wkt.specs.declared.halt.Halt.TheVariants.{NoMemory};

    ghost from_gives = { λ _ e. e ≡ NoMemory };

    fn from(_: NoMemory) -> Self {
        Halt::NoMemory
    }
}
