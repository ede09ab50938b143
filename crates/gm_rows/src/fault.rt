// Why a row is refused.

/// Why a row became no feature. The first of these that applies, each over all fields, is the
/// answer.
#[derive(Clone, Copy, Debug, PartialEq, Eq)]
pub enum RowFault {
    /// It is not one record of CSV with a field for the identifier and for each attribute.
    Count,

    /// A field of a kind other than a geometry is unreadable.
    Value,

    /// A geometry's field is unreadable, faulty or of another kind.
    Geometry,

    /// An index over time is enabled, and the default date has no bin.
    Date,

    /// The first field is no identifier.
    Id,

    /// There was no memory for it.
    NoMemory,
}
