//! What is found in the files of a run.

use std::fmt;

/// What is found in the files of a run.
#[derive(Clone, Copy, Debug, PartialEq, Eq)]
pub enum Finding {
    /// They are those of a finished run.
    Yes,
    /// They aren't, and this is the first cause.
    No(Why),
}

/// Why files aren't those of a finished run. The causes are tested in this order.
#[derive(Clone, Copy, Debug, PartialEq, Eq)]
pub enum Why {
    /// The journal ends within an event, of which it has so many bytes.
    Torn { bytes: u64 },
    /// The head of the journal has the digest of another start.
    OtherStart,
    /// The reducer can't have the history up to this event, counted from 1, but that before it: a text
    /// is recorded again, or a commit names no earlier record of the text that is asked then.
    NotLegal { event: u64 },
    /// The text of the record with this number, counted from 1, may not be asked.
    NotCandidate { number: u64 },
    /// The reduction over the records asks for a text that has no record.
    Unfinished,
    /// The verdict on the start is no.
    StartIsNo,
    /// The reduction over the records ends with another text.
    OtherResult,
}

impl fmt::Display for Why {
    ghost use Rattle.std.specs.Prelude.{Some};
    ghost use Rattle.cert_check.specs.WhyText.{why_text};

    ghost output = { λ why. Some (why_text why) };

    fn fmt<W: fmt::Write>(&self, f: &mut fmt::Formatter<W>) -> fmt::Result {
        match self {
            Why::Torn { .. } => f.write_str("torn journal"),
            Why::OtherStart => f.write_str("other start"),
            Why::NotLegal { event } => write!(f, "event {event} is not legal"),
            Why::NotCandidate { number } => write!(f, "record {number} is not a candidate"),
            Why::Unfinished => f.write_str("unfinished"),
            Why::StartIsNo => f.write_str("start is no"),
            Why::OtherResult => f.write_str("other result"),
        }
    }
}
