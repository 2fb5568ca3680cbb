//! The outside of the program: files, whose bytes are taken from the front or replaced as a whole, and a sink, which takes bytes.
//!
//! `Files` and `Sink` say what the program may rely on, whatever implements them. `MemFiles`,
//! `HonestFiles` and `MemSink` hold their bytes in memory. `read_whole` reads a name to its end, a `LineBuffer` line by line, and
//! `write_all` writes all of some bytes.
#![tactic(auto)]

mod files;
mod honest_files;
mod laws;
mod lines;
mod mem_files;
mod mem_sink;
mod rest;
mod schedule;
mod sink;
mod taking;
mod writing;

pub use files::{Files, PutFault, TakeFault};
pub use honest_files::HonestFiles;
pub use laws::{takes_can_be_played, writes_can_be_played};
pub use lines::{Found, LineBuffer, line_len};
pub use mem_files::MemFiles;
pub use mem_sink::MemSink;
pub use sink::{Failed, Sink};
pub use taking::{read_whole, take_behind};
pub use writing::write_all;
