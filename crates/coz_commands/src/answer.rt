//! The answer of a command.
use command_texts::Printed;
use program_load::Fault;

/// The text that a command prints, or its fault. A fault borrows from the request.
pub type Answer<'r> = Result<Printed, Fault<'r>>;
