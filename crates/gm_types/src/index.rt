// Kinds of indexes.

/// An index: by identifier, by cell of points with or without time, by cell of extents with or
/// without time, or by the value of the attribute with that number.
#[derive(Clone, Copy, Debug, PartialEq, Eq)]
pub enum IndexKind {
    Id,
    Z2,
    Z3,
    Xz2,
    Xz3,
    Attr(u16),
}
