//! A reducer for tests, given by its questions.

ghost use Rattle.std.specs.Prelude.{◌≡◌, ◌≤◌, IfOk, IfSome, All, length};
ghost use Rattle.std.specs.Option.{option_copied};
ghost use Rattle.reduce_step.specs.Limits.{text_limit};
ghost use Rattle.reduce_step.specs.Plan.{after, asked};
ghost use Rattle.reduce_step.specs.Ahead.{ahead};
ghost use Rattle.cases_runs.specs.SmallPlan.{plan_at};

use faults::Memory;
use reduce_step::Step;
use script_gate_trait::{Bytes, Verdict};
use std::alloc::Global;
use std::marker::Model;

/// Where nothing more is asked.
const END: usize = 8;

/// The text of the question of this number, if there is one.
#[tactic(auto, using(crate::proofs::Questions::asks_no_more))]
fn text_of(number: usize) -> Option<&'static [u8]>
    ensures text { option_copied result ≡ asked (plan_at number) }
    ensures short { IfSome result (λ text. length text.now ≤ text_limit) }
{
    match number {
        0 => Some(b"a=1;b=2;c=3;"),
        1 => Some(b""),
        2 => Some(b"a=1;\n"),
        3 => Some(b"b=2;c=3;"),
        4 => Some(b"b=2;c=3;"),
        5 => Some(b"b=2;\n"),
        6 => Some(b""),
        7 => Some(b"a=1;\n"),
        _ => None,
    }
}

/// Where it goes on at this verdict, which is yes where there is a `b`.
#[tactic(auto, using(crate::proofs::Questions::ends_at_yes, crate::proofs::Questions::ends_at_no))]
fn question_after(number: usize, verdict: Verdict) -> usize
    ensures { plan_at result ≡ after (plan_at number) verdict }
{
    match verdict {
        Verdict::Yes => match number {
            0 => 1,
            3 => 5,
            5 => 6,
            _ => END,
        },
        Verdict::No => match number {
            1 => 2,
            2 => 3,
            3 => 4,
            4 => 7,
            _ => END,
        },
    }
}

/// The reduction of `a=1;b=2;c=3;`, at one of its questions.
#[derive(Drop)]
pub struct SmallStep {
    alloc: Global,
    at: usize,
}

impl Model for SmallStep {
    ghost use Rattle.std.specs.Prelude.{ℕ};

    ghost Value = { ℕ };

    ghost view = { λ step. step.at };
}

impl SmallStep {
    /// Before the first question.
    pub fn new(alloc: Global) -> SmallStep
        ensures { result ≡ 0 }
    {
        SmallStep { alloc, at: 0 }
    }
}

/// What is asked from this question on if every answer is no, up to so many texts.
fn texts_at_no(alloc: Global, number: usize, most: u32) -> Result<Vec<Bytes>, Memory>
    ensures texts { IfOk result (λ texts. texts.items ≡ ahead most (plan_at number)) }
    ensures short { IfOk result (λ texts. All (λ text. length text ≤ text_limit) texts.items) }
{
    let mut texts = Vec::new(alloc);
    let mut at = number;
    'questions: while texts.len() < most as usize {
        let Some(text) = text_of(at) else {
            return Ok(texts);
        };
        texts.push(Bytes::from_slice(alloc, text)?)?;
        at = question_after(at, Verdict::No);
    }
    Ok(texts)
}

impl Step for SmallStep {
    ghost plan = { λ step. plan_at step };

    ghost first = { λ step. plan_at 0 };

    fn asks(&self) -> Option<&[u8]> {
        text_of(self.at)
    }

    fn answer(&mut self, verdict: Verdict) -> Result<(), Memory> {
        self.at = question_after(self.at, verdict);
        Ok(())
    }

    fn ahead(&self, most: u32) -> Result<Vec<Bytes>, Memory> {
        texts_at_no(self.alloc, self.at, most)
    }
}
