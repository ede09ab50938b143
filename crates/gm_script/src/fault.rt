// Why a line became no command.
ghost use Rattle.std.specs.Prelude.{◌≡◌};
ghost use Rattle.gm_script.specs.Fault as spec;

use gm_base::Code;
use gm_ecql::FilterFault;
use gm_rows::RowFault;

/// Why a line became no command.
#[derive(Clone, Copy, Debug, PartialEq, Eq)]
pub enum LineFault {
    /// The code, and how many further lines the refused line takes.
    Refused(Code, u32),

    /// There was no memory to read the line.
    NoMemory,
}

/// The refusal of a line that takes no further line.
pub(crate) fn refused(code: Code) -> LineFault
    ensures { result ≡ LineFault.Refused code 0 }
{
    LineFault::Refused(code, 0)
}

/// Why a line with a faulty row is refused.
pub(crate) fn row_fault(why: RowFault) -> LineFault
    ensures { result ≡ spec.row_fault why }
{
    match why {
        RowFault::Count => refused(Code::E08),
        RowFault::Value => refused(Code::E09),
        RowFault::Geometry => refused(Code::E10),
        RowFault::Date => refused(Code::E11),
        RowFault::Id => refused(Code::E12),
        RowFault::NoMemory => LineFault::NoMemory,
    }
}

/// Why a line with a faulty filter or change is refused.
pub(crate) fn filter_fault(why: FilterFault) -> LineFault
    ensures { result ≡ spec.filter_fault why }
{
    match why {
        FilterFault::Syntax => refused(Code::E14),
        FilterFault::Unknown(_) => refused(Code::E15),
        FilterFault::Literal(_) => refused(Code::E16),
        FilterFault::Limit => refused(Code::E19),
        FilterFault::NoMemory => LineFault::NoMemory,
    }
}
