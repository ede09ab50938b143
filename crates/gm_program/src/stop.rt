// Why serving ends before the script does.
ghost use Rattle.std.specs.Prelude.{◌≡◌};
ghost use Rattle.gm_program.specs.Status.{made_status, status_from};

use crate::Status;
use gm_outside::SinkRefusal;

#[derive(Clone, Copy, Debug, PartialEq, Eq)]
pub(crate) enum Stop {
    NoMemory,
    ReadFault,
    WriteFault,
    TooLong,
}

/// The stop of a run whose sink refused so, or that lacked memory.
impl From<SinkRefusal> for Stop {
    ghost use Rattle.std.specs.Prelude.{◌≡◌};
    ghost use Rattle.gm_program.specs.Status.{stop_from};

    ghost from_gives = { λ refusal stop. stop ≡ stop_from refusal };

    fn from(refusal: SinkRefusal) -> Self {
        match refusal {
            SinkRefusal::Failed => Stop::WriteFault,
            SinkRefusal::NoMemory => Stop::NoMemory,
        }
    }
}

/// The status of a run that ended so.
pub(crate) fn status_of(outcome: Result<(), Stop>) -> Status
    ensures { result ≡ status_from outcome }
{
    match outcome {
        Ok(()) => Status::Done,
        Err(Stop::NoMemory) => Status::NoMemory,
        Err(Stop::ReadFault) => Status::ReadFault,
        Err(Stop::WriteFault) => Status::WriteFault,
        Err(Stop::TooLong) => Status::TooLong,
    }
}

/// The status of a run whose made script ended so.
pub(crate) fn status_of_made(outcome: Result<(), SinkRefusal>) -> Status
    ensures { result ≡ made_status outcome }
{
    match outcome {
        Ok(()) => Status::Done,
        Err(SinkRefusal::Failed) => Status::WriteFault,
        Err(SinkRefusal::NoMemory) => Status::NoMemory,
    }
}
