//! The outside of the gate as traits: where bytes come from and where they go.
//!
//! A trait tells how often its object has failed, by a count that never falls, and where its object
//! lies in memory also what it holds. So a program above can be proved to blame the outside only where
//! the outside failed in that very call. Each trait has a fake in memory, with a list of the calls that
//! fail, and an adapter over std's io, which is the trusted edge.
#![tactic(auto)]

mod failed;
mod fault_plan;
mod file_fault;
mod files;
mod folder_files;
mod memory_file;
mod memory_files;
mod memory_sink;
mod memory_source;
mod sink;
mod source;
mod std_sink;
mod std_source;
mod steady_sink;
mod steady_source;

pub use failed::Failed;
pub use file_fault::FileFault;
pub use files::{FILE_LIMIT, Files};
pub use folder_files::FolderFiles;
pub use memory_file::MemoryFile;
pub use memory_files::MemoryFiles;
pub use memory_sink::MemorySink;
pub use memory_source::MemorySource;
pub use sink::{Sink, write_all};
pub use source::Source;
pub use std_sink::StdSink;
pub use std_source::StdSource;
pub use steady_sink::SteadySink;
pub use steady_source::SteadySource;

#[cfg(test)]
mod tests;
