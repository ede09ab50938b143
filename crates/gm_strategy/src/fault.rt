// Why there is no plan.
use gm_base::NoMemory;

/// Why there is no plan for a filter.
#[derive(Clone, Copy, Debug, PartialEq, Eq)]
pub enum ChooseFault {
    /// The index that was asked for does not apply.
    NotApplicable,

    NoMemory,
}

impl From<NoMemory> for ChooseFault {
    ghost use Rattle.std.specs.Prelude.{◌≡◌};
    ghost use Rattle.gm_strategy.specs.declared.fault.ChooseFault.TheVariants as fault;

    ghost from_gives = { λ h e. e ≡ fault.NoMemory };

    fn from(_: NoMemory) -> Self {
        ChooseFault::NoMemory
    }
}
