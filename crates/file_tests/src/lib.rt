//! Tests of the libraries that read programs, their lines, profiles and curves, of the host's files
//! and sinks and of the buffer before a sink, and nothing else.
#![tactic(auto)]

#[cfg(test)]
mod buffer;
#[cfg(test)]
mod causal_curves_tests;
#[cfg(test)]
mod checks;
#[cfg(test)]
mod coz_types_tests;
#[cfg(test)]
mod dwarf_lines_tests;
#[cfg(test)]
mod elf_load_tests;
#[cfg(test)]
mod host_tests;
#[cfg(test)]
mod leb_cursor_tests;
#[cfg(test)]
mod line_index_tests;
#[cfg(test)]
mod line_names_tests;
#[cfg(test)]
mod profile_reader_tests;
#[cfg(test)]
mod progress_points_tests;
#[cfg(test)]
mod put_buffer_tests;
