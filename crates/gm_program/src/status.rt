// How a run ends.
ghost use Rattle.std.specs.Prelude.{◌≡◌};
ghost use Rattle.gm_program.specs.Status.{status_number};

/// How a run ended. `docs/LANGUAGE.md` says when each comes.
#[derive(Clone, Copy, Debug, PartialEq, Eq)]
pub enum Status {
    Done,
    NoMemory,
    Usage,
    ReadFault,
    WriteFault,
    FolderFault,
    Damaged,
    TooLong,
}

impl Status {
    /// The exit status of the program.
    pub fn number(self) -> u8
        ensures { result ≡ status_number self }
    {
        match self {
            Status::Done => 0,
            Status::NoMemory => 1,
            Status::Usage => 2,
            Status::ReadFault => 3,
            Status::WriteFault => 4,
            Status::FolderFault => 5,
            Status::Damaged => 6,
            Status::TooLong => 7,
        }
    }
}
