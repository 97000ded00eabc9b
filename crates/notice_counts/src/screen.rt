use std::sync::Wait;
use std::sync::atomic::{AtomicU64, Ordering};
use std::thread::{Parker, yield_now};
use std::time::Duration;

/// How often who ends the drawing looks whether a line is being drawn just then.
const TURNS: u32 = 10_000;

/// Clears the rest of a terminal's line.
const CLEAR: &str = "\x1b[K";

/// A line of a terminal, which one thread draws over and over, and another one ends.
#[derive(Drop)]
pub struct Screen {
    ended: AtomicU64,
    drawing: AtomicU64,
    drawn: AtomicU64,
    parker: Parker,
}

impl Screen {
    /// Nothing is drawn yet.
    pub const fn new() -> Screen {
        Screen {
            ended: AtomicU64::new(0),
            drawing: AtomicU64::new(0),
            drawn: AtomicU64::new(0),
            parker: Parker::new(),
        }
    }

    /// Whether no more is to be drawn.
    pub(crate) fn has_ended(&self) -> bool {
        self.ended.load(Ordering::SeqCst) > 0
    }

    /// Waits so long, or until the end.
    pub(crate) fn pause<R: Wait>(&self, rt: &R, pause: Duration) {
        if !self.has_ended() {
            self.parker.park_timeout(rt, pause);
        }
    }

    /// Draws the text in place of the last one.
    pub(crate) fn draw<E: Print>(&self, to: &E, text: &str) {
        self.drawing.store(1, Ordering::SeqCst);
        if !self.has_ended() {
            self.drawn.store(1, Ordering::SeqCst);
            let _ = to.print(format_args!("\r{text}{CLEAR}"));
        }
        self.drawing.store(0, Ordering::SeqCst);
    }

    /// Writes the text as a line that stays.
    pub(crate) fn add<E: Print>(&self, to: &E, text: &str) {
        if !self.has_ended() {
            let _ = to.print(format_args!("{text}\n"));
        }
    }

    /// Ends the drawing, and takes the line away that was drawn last.
    pub fn end<E: Print>(&self, to: &E) {
        self.ended.store(1, Ordering::SeqCst);
        self.parker.unpark();
        for _ in 0..TURNS {
            if self.drawing.load(Ordering::SeqCst) == 0 {
                break;
            }
            yield_now();
        }
        if self.drawn.swap(0, Ordering::SeqCst) > 0 {
            let _ = to.print(format_args!("\r{CLEAR}"));
        }
    }
}
