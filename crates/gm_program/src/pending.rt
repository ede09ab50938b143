// A command that waits for further lines.

/// What a run waits for between two lines. No command of this language waits.
#[derive(Clone, Copy, Debug, PartialEq, Eq)]
pub(crate) enum Pending {
    Nothing,
}
