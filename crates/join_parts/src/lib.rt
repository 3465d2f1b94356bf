//! Joins the profiles in files: the paths that the arguments name, what their files hold, and what
//! is printed.
#![tactic(auto)]

mod answer;
mod fault;
mod fault_line;
mod help;
mod joined;
mod judge;
mod likeness;
mod part;
mod parts;
mod shards;
mod words;

pub use answer::answer_of;
pub use fault::Fault;
pub use help::help_text;
pub use joined::Joined;
pub use shards::shards_verdict;
