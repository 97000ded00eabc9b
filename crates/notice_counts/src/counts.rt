use std::sync::atomic::{AtomicU64, Ordering};
use std::time::{Clock, Duration, Instant};

/// Numbers that several threads count up at once.
#[derive(Drop)]
pub struct Counts {
    begun: AtomicU64,
    ended: AtomicU64,
    yes: AtomicU64,
    asking: AtomicU64,
    records: AtomicU64,
    start_bytes: AtomicU64,
    best_bytes: AtomicU64,
}

/// The numbers of [`Counts`] at one time.
#[derive(Clone, Copy, Debug, PartialEq, Eq)]
pub struct Snapshot {
    /// How often a script is asked just now.
    pub busy: u64,
    /// How often a script was asked, and gave an answer or failed.
    pub asked: u64,
    /// How often it said yes.
    pub yes: u64,
    /// The time that all asks took together.
    pub asking: Duration,
    /// The records that the journal holds, asked and kept.
    pub records: u64,
    /// The bytes of the start; 0 before the journal has it.
    pub start_bytes: u64,
    /// The bytes of the best text so far, the last yes that the reduction was answered with. 0 before it.
    pub best_bytes: u64,
}

/// The time in nanoseconds, at most 2^64 - 1.
fn nanoseconds_in(time: Duration) -> u64 {
    let whole = time.as_secs().saturating_mul(1_000_000_000);
    whole.saturating_add(time.subsec_nanos() as u64)
}

impl Counts {
    /// Nothing is counted yet.
    pub const fn new() -> Counts {
        Counts {
            begun: AtomicU64::new(0),
            ended: AtomicU64::new(0),
            yes: AtomicU64::new(0),
            asking: AtomicU64::new(0),
            records: AtomicU64::new(0),
            start_bytes: AtomicU64::new(0),
            best_bytes: AtomicU64::new(0),
        }
    }

    /// The numbers as they are now.
    pub fn snapshot(&self) -> Snapshot {
        let asked = self.ended.load(Ordering::SeqCst);
        Snapshot {
            busy: self.begun.load(Ordering::SeqCst).saturating_sub(asked),
            asked,
            yes: self.yes.load(Ordering::SeqCst),
            asking: Duration::from_nanos(self.asking.load(Ordering::SeqCst)),
            records: self.records.load(Ordering::SeqCst),
            start_bytes: self.start_bytes.load(Ordering::SeqCst),
            best_bytes: self.best_bytes.load(Ordering::SeqCst),
        }
    }

    /// Counts an ask that begins, and gives the time.
    pub(crate) fn begin_ask<C: Clock>(&self, clock: &C) -> Option<Instant> {
        self.begun.fetch_add(1, Ordering::SeqCst);
        Instant::now(clock).ok()
    }

    /// Counts an ask that ended, and whether the answer was yes.
    pub(crate) fn end_ask<C: Clock>(&self, clock: &C, began: Option<Instant>, yes: bool) {
        if let Some(began) = began
            && let Ok(took) = began.elapsed(clock)
        {
            self.asking
                .fetch_add(nanoseconds_in(took), Ordering::SeqCst);
        }
        if yes {
            self.yes.fetch_add(1, Ordering::SeqCst);
        }
        self.ended.fetch_add(1, Ordering::SeqCst);
    }

    /// Counts a record of the journal, whose text has so many bytes.
    pub(crate) fn count_record(&self, bytes: u64) {
        if self.records.fetch_add(1, Ordering::SeqCst) == 0 {
            self.start_bytes.store(bytes, Ordering::SeqCst);
        }
    }

    /// Notes how many bytes the best text so far has.
    pub(crate) fn set_best(&self, bytes: u64) {
        self.best_bytes.store(bytes, Ordering::SeqCst);
    }
}
