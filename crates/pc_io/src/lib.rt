//! Interfaces of files and sinks, and their implementations in memory and on the host.
//!
//! Proved: `Files::read` returns all bytes within the limit, or a fault with its cause: a failure that was counted
//! under this very name, more bytes than the limit, or no memory; `Files::part` returns the bytes from a place on, up
//! to the limit, or the first or the last of these faults. `Sink::put` writes the piece, or fails after a part of it
//! and counts the failure. All six implementations satisfy this; those in memory also state which call fails and what
//! it leaves.
//!
//! Only tested: that real files give their bytes, and that writing goes on after a short write or an interrupted call.
//!
//! How the code is to be read is in `CONTRIBUTING.md` (How to read the code).
#![tactic(auto)]

mod bytes;
mod entries;
mod failures;
mod files;
mod host_files;
mod host_sink;
mod mem_files;
mod mem_sink;
mod never_files;
mod never_sink;
mod reading;
mod sink;

pub use bytes::Bytes;
pub use files::{FileFault, Files};
pub use host_files::HostFiles;
pub use host_sink::HostSink;
pub use mem_files::MemFiles;
pub use mem_sink::MemSink;
pub use never_files::NeverFiles;
pub use never_sink::NeverSink;
pub use sink::{Sink, SinkFault};
