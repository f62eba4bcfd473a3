//! Files that are read by name and sinks that bytes are sent to, each with a count of its faults.
//!
//! A program over [`Files`] and [`Sink`] is proved once for all of them: over the memory of
//! [`MemFiles`] and [`MemSink`], which tell what they hold and fail at the calls that they are
//! given, over [`SafeFiles`] and [`NullSink`], which never fail, and over the files and streams of
//! the system, [`HostFiles`] and [`HostSink`]. These make each call by [`read_from`], [`put_to`] and
//! [`flush_to`], which are proved over every reader and writer.
#![tactic(auto)]

mod calls;
mod files;
mod host_files;
mod host_sink;
mod mem_files;
mod mem_sink;
mod null_sink;
mod safe_files;
mod short_text;
mod sink;
mod streams;
mod writer;

pub use calls::{InFault, put_all, put_number, read_all};
pub use files::{Files, Got, Started};
pub use host_files::HostFiles;
pub use host_sink::HostSink;
pub use mem_files::MemFiles;
pub use mem_sink::MemSink;
pub use null_sink::NullSink;
pub use safe_files::SafeFiles;
pub use short_text::{SHORT, ShortText};
pub use sink::{Flushed, Put, Sink, WriteFault};
pub use streams::{flush_to, put_to, read_from};
pub use writer::Writer;
