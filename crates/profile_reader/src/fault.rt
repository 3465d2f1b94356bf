//! The first wrong item of a profile's text.
ghost use Rattle.std.specs.Prelude.{◌≡◌};
ghost use Rattle.profile_reader.specs.ItemNames.{item_name};

use failures::Failure;

/// The kinds of items of a profile's text.
#[derive(Clone, Copy, PartialEq, Eq, Debug)]
pub enum BookField {
    /// `coz-ticks`, with which a profile begins.
    Head,
    /// The version of the format, 1.
    Version,
    /// The number of instructions that each run may retire.
    Budget,
    /// The number of progress points.
    Points,
    /// `point`, with which the line of a point begins.
    Point,
    /// The number of a point.
    Index,
    /// The label of a point.
    Name,
    /// `experiment`, with which a block begins.
    Experiment,
    /// The label of the selected line.
    Selected,
    /// The speedup in per cent.
    Speedup,
    /// The ending of a run.
    End,
    /// The moment of the last retirement.
    Time,
    /// The global delay then.
    Delay,
    /// The number of retired instructions.
    Retired,
    /// The number of starts of the selected line.
    Starts,
    /// `output`, with which the line of the output begins.
    Output,
    /// The length of the output.
    Length,
    /// The SHA-256 of the output or of the visits.
    Digest,
    /// `throughput-point`, with which the line of a point's count begins.
    Throughput,
    /// The number of visits of a point.
    Delta,
    /// `visits`, with which the line of the visits' digest begins.
    Visits,
    /// The end of a line.
    Newline,
}

impl BookField {
    /// The name of such items in the line of a fault.
    pub fn name(self) -> &'static [u8]
        ensures { result.now ≡ item_name self }
    {
        match self {
            BookField::Head => b"Head",
            BookField::Version => b"Version",
            BookField::Budget => b"Budget",
            BookField::Points => b"Points",
            BookField::Point => b"Point",
            BookField::Index => b"Index",
            BookField::Name => b"Name",
            BookField::Experiment => b"Experiment",
            BookField::Selected => b"Selected",
            BookField::Speedup => b"Speedup",
            BookField::End => b"End",
            BookField::Time => b"Time",
            BookField::Delay => b"Delay",
            BookField::Retired => b"Retired",
            BookField::Starts => b"Starts",
            BookField::Output => b"Output",
            BookField::Length => b"Length",
            BookField::Digest => b"Digest",
            BookField::Throughput => b"Throughput",
            BookField::Delta => b"Delta",
            BookField::Visits => b"Visits",
            BookField::Newline => b"Newline",
        }
    }
}

/// The first item that isn't right, or the end of the text if one is missing.
#[derive(Clone, Copy, PartialEq, Eq, Debug)]
pub struct BookFault {
    /// The kind of item that is expected there.
    pub field: BookField,
    /// The offset of the item's first byte in the text.
    pub place: u64,
}

/// Why a profile could not be read.
pub type BookError = Failure<BookFault>;
