// Why a specification is refused.

/// Why a text became no feature type.
#[derive(Clone, Copy, Debug, PartialEq, Eq)]
pub enum SpecFault {
    /// It breaks a rule of specifications.
    Spec,

    /// It breaks none, and has more than 64 attributes.
    TooMany,

    /// There was no memory for it.
    NoMemory,
}
