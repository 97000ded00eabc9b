//! What is counted while a run goes on, and the line that shows it.
//!
//! [`CountedGate`] and [`CountedJournal`] pass each call on, and count it in [`Counts`]: contracts see the
//! gate and the sink within them, and each clause of the traits holds of them too. [`progress_text`] is the
//! line that says how far a run is. [`draw_until_end`], which a thread of its own calls while the run goes
//! on, draws it on a [`Screen`] that it shares with who ends it. [`ScreenOutput`] takes the line away before
//! anything is put on standard output, since a terminal shows both. No contract says anything of the numbers
//! or the line: several threads count at once, and nothing rests on them.
#![tactic(auto)]

mod counts;
mod draw;
mod gate;
mod journal;
mod journal_lines;
mod output;
mod screen;
mod text;

pub use counts::{Counts, Snapshot};
pub use draw::{Plan, Style, draw_until_end};
pub use gate::CountedGate;
pub use journal::CountedJournal;
pub use output::ScreenOutput;
pub use screen::Screen;
pub use text::{RunKind, TimeText, milliseconds_in, progress_text};
