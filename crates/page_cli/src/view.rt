//! What a page is written from, beside a profile.
use causal_curves::Curve;
use coz_files::HeldFile;
use coz_types::Label;
use page_values::LinePlaces;

/// The number of lines that the tables show, the source files of the lines, and where the blocks
/// of each line stand in the profile.
#[derive(Clone, Copy)]
pub struct View<'a, 'p> {
    /// The number of lines that each table shows at most.
    pub most: u64,
    /// The source files, by the paths of labels.
    pub sources: &'a [HeldFile],
    /// The places of each line's blocks among those of the profile.
    pub blocks: &'a LinePlaces<'p>,
}

/// The curves of all points, and where those of each line stand among them.
#[derive(Clone, Copy)]
pub struct AllCurves<'a, 'p> {
    /// The labels of the progress points.
    pub points: &'a [Label],
    /// The curves, by point and mean.
    pub curves: &'a [Curve],
    /// The places of each line's curves.
    pub places: &'a LinePlaces<'p>,
}
