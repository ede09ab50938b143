//! What a run is lent of the outside: a source, a sink, a folder and a gate, each a trait by its
//! meaning, with the forms in memory that tests cut and fail at will, those that never fail, and
//! the adapters over the streams of the machine.
#![tactic(auto)]

mod failed;
mod folder;
mod gate;
mod giving;
mod memory_sink;
mod memory_source;
mod sink;
mod source;
mod steady_folder;
mod steady_sink;
mod steady_source;
mod stream_sink;
mod stream_source;

pub use failed::Failed;
pub use folder::{Folder, FolderRefusal, Names};
pub use gate::{Gate, NoGate};
pub use memory_sink::MemorySink;
pub use memory_source::MemorySource;
pub use sink::{Sink, SinkRefusal};
pub use source::Source;
pub use steady_folder::SteadyFolder;
pub use steady_sink::SteadySink;
pub use steady_source::SteadySource;
pub use stream_sink::StreamSink;
pub use stream_source::StreamSource;
