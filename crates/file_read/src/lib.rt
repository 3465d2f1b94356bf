//! What programs that read files have in common: a file is read up to a limit, and each fault of
//! that has a status and a text.
//!
//! ```text
//! let file = read_file(alloc, files, "a.s", 4)?; // Err(FileFault::Long("a.s")) of 5 bytes
//! put_fault(err, PutAnswer::Done, FileFault::Long("a.s")); // puts `long: a.s`
//! status_of(FileFault::Long("a.s")); // 8
//! ```
#![tactic(auto)]

mod fault;
mod fault_line;
mod reading;

pub use fault::FileFault;
pub use fault_line::{put_fault, put_kind_at, put_two, status_of};
pub use reading::read_file;
