use crate::counts::Snapshot;
use std::alloc::{AllocError, Global};
use std::fmt;
use std::time::Duration;

/// What is known of a run before it begins.
#[derive(Clone, Copy, Debug)]
pub struct RunKind {
    /// The name of its mode.
    pub mode: &'static str,
    /// How many workers ask scripts.
    pub jobs: u32,
}

/// A time as hours, minutes and seconds: `1:02:03`, and `2:03` where it is less than an hour.
#[derive(Clone, Copy, Debug)]
pub struct TimeText(pub Duration);

impl fmt::Display for TimeText {
    fn fmt<W: fmt::Write>(&self, f: &mut fmt::Formatter<W>) -> fmt::Result {
        let seconds = self.0.as_secs();
        let (hours, minutes, seconds) = (seconds / 3600, seconds / 60 % 60, seconds % 60);
        if hours > 0 {
            write!(f, "{hours}:{minutes:02}:{seconds:02}")
        } else {
            write!(f, "{minutes}:{seconds:02}")
        }
    }
}

/// The time in milliseconds, at most 2^64 - 1.
pub fn milliseconds_in(time: Duration) -> u64 {
    let whole = time.as_secs().saturating_mul(1000);
    whole.saturating_add(time.subsec_millis() as u64)
}

/// How many asks there were in a second, in tenths.
fn tenths_a_second(asked: u64, took: Duration) -> u64 {
    match asked
        .saturating_mul(10_000)
        .checked_div(milliseconds_in(took))
    {
        Some(tenths) => tenths,
        None => 0,
    }
}

/// How far a run is that began so long ago and has counted this.
pub fn progress_text(
    alloc: Global,
    kind: RunKind,
    took: Duration,
    counted: &Snapshot,
) -> Result<String, AllocError> {
    let mut text = String::new(alloc);
    let RunKind { mode, jobs } = kind;
    let Snapshot { asked, yes, .. } = *counted;
    let tenths = tenths_a_second(asked, took);
    let (whole, tenth) = (tenths / 10, tenths % 10);
    write!(
        text,
        "{} {mode}, asked {asked} ({whole}.{tenth}/s), yes {yes}",
        TimeText(took)
    )?;
    if counted.best_bytes > 0 || counted.records > 1 {
        write!(
            text,
            ", bytes {} -> {}",
            counted.start_bytes, counted.best_bytes
        )?;
    }
    write!(text, ", busy {} of {jobs}", counted.busy)?;
    Ok(text)
}
