// Why a text is no filter and no change.
use crate::halt::Halt;
use gm_base::{NoMemory, Text};
use thiserror::Error;

/// Why a text became no filter, or no change. A text that has several faults has the first of them
/// in this order, but that a limit is broken comes before a break of the grammar.
#[derive(Debug, Drop, Error)]
pub enum FilterFault {
    /// It is not UTF-8, not a list of tokens, or not in the grammar.
    #[error("filter syntax")]
    Syntax,

    /// It has over 50,000 tokens, brackets nest deeper than 100, or there are over 1,000 of the
    /// words AND, OR and NOT.
    #[error("limit")]
    Limit,

    /// The first name that is no attribute of the type.
    #[error("unknown attribute")]
    Unknown(Text),

    /// The attribute of the first test whose literals it may not have.
    #[error("literal")]
    Literal(Text),

    #[error("no memory")]
    NoMemory,
}

impl From<Halt> for FilterFault {
    ghost use Rattle.gm_ecql.specs.Halt.{IsFaultOf};

    ghost from_gives = { λ h e. IsFaultOf h e };

    fn from(halt: Halt) -> Self {
        match halt {
            Halt::Syntax => FilterFault::Syntax,
            Halt::NoMemory => FilterFault::NoMemory,
        }
    }
}
