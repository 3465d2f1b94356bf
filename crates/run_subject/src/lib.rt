//! What is run: a program with its lines and progress points, the machine that it runs on, and its
//! input.
//!
//! ```text
//! let timing = Timing::usual();
//! let subject = Subject { image: &program.image, index: &program.index, points: &points, timing, input };
//! let mut machine = Machine::on(alloc, subject.image, subject.index, subject.points, timing, input, choice)?;
//! ```
#![tactic(auto)]

use coz_types::Image;
use line_index::LineIndex;
use progress_points::Points;
use timing_model::Timing;

/// A program, its lines, some of them as progress points, the machine that it runs on, and the
/// input that it reads. A run of it takes a choice besides.
#[derive(Clone, Copy)]
pub struct Subject<'a> {
    /// The program.
    pub image: &'a Image<'a>,
    /// The lines of the program.
    pub index: &'a LineIndex,
    /// The progress points.
    pub points: &'a Points,
    /// The machine of the timing model.
    pub timing: Timing,
    /// The input of the program.
    pub input: &'a [u8],
}
