//! Files and sinks, whose failing calls are counted.
//!
//! Enter by the traits [`Files`] (`read`, `write`) and [`Sink`] (`open`, `put`), which the crates above
//! are generic over; read `specs/Files.antt` and `specs/Sink.antt` first. A count of faults rises
//! exactly where a call answers that it failed. [`MemFiles`], [`MemSink`], [`CutSink`] and [`NullSink`]
//! are in memory; [`LoggedFiles`] keeps the calls of the files within it, so that contracts see these
//! (`specs/FileCalls.antt`). [`DiskFiles`] and [`StreamSink`] reach the machine, and contracts see
//! nothing of them but their counts. Both keep the reason of the last failure that they counted, and the
//! files what they read, for who says on standard error what went wrong. A read changes no file; a write
//! changes no other file than its own, and while it lasts one that it makes beside it. So a program reads
//! its input:
//!
//! ```
//! let mut files = DiskFiles::new(rt.clone()?, rt.alloc());
//! let input = files.read("input.txt", 262_144)?;
//! ```
#![tactic(auto)]

mod calls;
mod cut_sink;
mod disk_files;
mod file_call;
mod files;
mod logged_files;
mod machine;
mod mem_files;
mod mem_sink;
mod null_sink;
mod replacing;
mod sink;
mod stream_sink;

pub use cut_sink::CutSink;
pub use disk_files::DiskFiles;
pub use faults::Memory;
pub use file_call::{FileAction, LoggedCall};
pub use files::{FileFault, Files, WriteFault};
pub use logged_files::LoggedFiles;
pub use machine::{count_failure, write_whole};
pub use mem_files::MemFiles;
pub use mem_sink::MemSink;
pub use null_sink::NullSink;
pub use sink::{OpenFault, Sink, SinkFault};
pub use stream_sink::StreamSink;
