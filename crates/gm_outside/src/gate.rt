// Gates of parallel phases.

/// What the pieces of a parallel phase pass. A test's gate can hold a piece until another has come.
pub trait Gate {
    /// Comes before the piece of this number.
    fn enter(&self, piece: usize);

    /// Comes after it.
    fn leave(&self, piece: usize);
}

/// The gate of the program, which does nothing.
#[derive(Clone, Copy, Debug)]
pub struct NoGate;

impl Gate for NoGate {
    fn enter(&self, _piece: usize) {}

    fn leave(&self, _piece: usize) {}
}
