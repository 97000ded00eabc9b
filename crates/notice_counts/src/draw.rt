use crate::counts::Counts;
use crate::screen::Screen;
use crate::text::{RunKind, progress_text};
use std::alloc::{AllocError, Global};
use std::sync::Wait;
use std::time::{Clock, Duration, Instant};

/// How lines are drawn.
#[derive(Clone, Copy, Debug)]
pub enum Style {
    /// One over the other, on a terminal of so many columns.
    OneLine { width: usize },
    /// Each on a line of its own.
    EachLine,
}

/// What is drawn, and how.
#[derive(Clone, Copy)]
pub struct Plan {
    /// How lines are drawn.
    pub style: Style,
    /// What run it is.
    pub kind: RunKind,
    /// When it began.
    pub began: Instant,
}

impl Style {
    /// The time between two lines.
    fn pause(self) -> Duration {
        match self {
            Style::OneLine { .. } => Duration::from_millis(500),
            Style::EachLine => Duration::from_secs(10),
        }
    }
}

/// So many of the text's first characters.
fn first_of(alloc: Global, text: &str, count: usize) -> Result<String, AllocError> {
    let mut first = String::new(alloc);
    for character in text.chars().take(count) {
        first.push(character)?;
    }
    Ok(first)
}

impl Plan {
    /// Draws how far the run is.
    fn draw<E: Print>(
        &self,
        alloc: Global,
        to: &E,
        screen: &Screen,
        counts: &Counts,
        took: Duration,
    ) {
        let Ok(text) = progress_text(alloc, self.kind, took, &counts.snapshot()) else {
            return;
        };
        match self.style {
            Style::OneLine { width } => {
                if let Ok(first) = first_of(alloc, text.as_str(), width.saturating_sub(1)) {
                    screen.draw(to, first.as_str());
                }
            }
            Style::EachLine => screen.add(to, text.as_str()),
        }
    }
}

/// Draws a line after each pause, until the screen is ended or the clock can't be read.
pub fn draw_until_end<R: Wait + Clock, E: Print>(
    rt: &R,
    alloc: Global,
    to: &E,
    screen: &Screen,
    counts: &Counts,
    plan: Plan,
) {
    let pause = plan.style.pause();
    let mut due = pause;
    for _ in rt.forever() {
        screen.pause(rt, pause);
        if screen.has_ended() {
            return;
        }
        let Ok(took) = plan.began.elapsed(rt) else {
            return;
        };
        if took >= due {
            plan.draw(alloc, to, screen, counts, took);
            due = took.saturating_add(pause);
        }
    }
}
