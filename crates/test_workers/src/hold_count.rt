//! How many asks have begun.

use std::sync::atomic::{AtomicU64, Ordering};
use std::thread::yield_now;

/// How often an ask that is held looks again before it fails.
const TURNS: u32 = 20_000_000;

/// The asks of all gates of one test, numbered from 1 as they begin. With the width `w` the asks 2 to
/// `w` are held until the ask `w + 1` has begun.
#[derive(Drop)]
pub struct HoldCount {
    begun: AtomicU64,
    width: u32,
}

impl HoldCount {
    /// No ask has begun.
    pub fn new(width: u32) -> HoldCount {
        HoldCount {
            begun: AtomicU64::new(0),
            width,
        }
    }

    /// Begins an ask, and holds it if it is to be held. Whether it may go on: false where it was held for
    /// so many turns that it fails. At each turn another thread may run.
    pub(crate) fn begin(&self) -> bool {
        let earlier = self.begun.fetch_add(1, Ordering::SeqCst);
        let width = self.width as u64;
        if earlier == 0 || earlier >= width {
            return true;
        }
        for _ in 0..TURNS {
            if self.begun.load(Ordering::SeqCst) > width {
                return true;
            }
            yield_now();
        }
        false
    }
}
