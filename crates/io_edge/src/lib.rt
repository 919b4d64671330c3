//! The edge to files and streams: what can be read and written, with the cause of each failure.
//!
//! Code that reads or writes is generic over `Files` and `Sink`, so that its contract can name the
//! bytes and the faults. `MemFiles` and `MemSink` are the fakes, `RealFiles` and `RealSink` the
//! trusted edge. Nothing here knows what a file holds.
#![tactic(auto)]

mod calls;
pub mod files;
pub mod mem_files;
pub mod mem_sink;
mod piece;
mod read_faults;
pub mod reading;
pub mod real;
pub mod sink;
pub mod writing;

pub use files::{Failed, Files};
pub use mem_files::MemFiles;
pub use mem_sink::MemSink;
pub use reading::{MAX_FILE_BYTES, ReadEnd, read_all};
pub use real::{RealFiles, RealSink};
pub use sink::Sink;
pub use writing::write_all;
