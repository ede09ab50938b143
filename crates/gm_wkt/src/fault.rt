// Why a text is not read.
use gm_base::NoMemory;
use gm_geom::GeomFault;
use thiserror::Error;

/// Why a text became no geometry.
#[derive(Clone, Copy, Debug, PartialEq, Eq, Error)]
pub enum WktFault {
    #[error("no well-known text")]
    Syntax,

    #[error("a geometry that is not kept")]
    Geom(GeomFault),

    #[error("no memory")]
    NoMemory,
}
