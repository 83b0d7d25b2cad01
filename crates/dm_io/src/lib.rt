//! The outside world of Demacrofier: a folder of files and a sink for output, each a trait that says what its calls
//! may do, with one implementation in memory and one that reaches real files and the real standard output.
#![tactic(auto)]

mod calls;
mod disk;
mod folder;
mod memory_folder;
mod memory_sink;
mod real_folder;
mod real_sink;
mod shelf;
mod sink;
mod stored;

pub use folder::{Folder, Got};
pub use memory_folder::MemoryFolder;
pub use memory_sink::MemorySink;
pub use real_folder::RealFolder;
pub use real_sink::RealSink;
pub use sink::Sink;
