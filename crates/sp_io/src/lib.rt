//! The outside of the program: sources and sinks of bytes and files, each with a count of its faults.
//! Those in memory tell their bytes, those of the system tell their counts alone.
#![tactic(auto)]

mod byte_source;
mod discard;
mod files;
mod memory_files;
mod memory_sink;
mod memory_source;
mod outside;
mod standard;
mod standard_files;

pub use byte_source::ByteSource;
pub use discard::Discard;
pub use files::{Files, LoadFault, Loaded};
pub use memory_files::MemFiles;
pub use memory_sink::MemSink;
pub use memory_source::MemSource;
pub use outside::{Failed, Sink, Source};
pub use standard::{StdSink, StdSource};
pub use standard_files::StdFiles;
