//! Profiles: what they say, their text, and its writer.
#![tactic(auto)]

mod pieces;
mod profile;
mod text_sink;
mod writer;
mod written_lines;

pub use pieces::{put_address, put_digest, put_field, put_large, put_line, put_named, put_signed};
pub use profile::Profile;
pub use text_sink::{TextSink, TextWriter};
pub use writer::{profile_text, write_profile};
pub use written_lines::{put_end, put_ending};
