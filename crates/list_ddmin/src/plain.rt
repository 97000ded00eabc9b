//! The list step as a plain and slow recursion, whose contract is the definition.

ghost use Rattle.std.specs.Prelude.{◌≡◌, ℕ, ◌+◌, ◌*◌, ◌^◌, ◌<◌, ◌≤◌, ◌==◌, Bool, List, Option, IfOk, IfSome, OnOk, []};
ghost use Rattle.std.specs.Prelude.{◌∷◌, ◌++◌, length, map, option_map, replicate, true, vec_len};
ghost use Rattle.list_ddmin.specs.ListStep.{ddmin, ends_with, kept_count, list_step};
ghost use Rattle.list_ddmin.specs.inner.Plain.{IsOneOf, IsTried, asks_before, candidate_of, flags_of, positions_from};

use crate::machine::border_of;
use faults::Memory;
use std::alloc::Global;
use std::marker::Model;

/// A map from keep lists to yes or no: it answers the same list in the same way each time.
pub trait Test {
    ghost verdict: { Self → List Bool → Bool };

    /// Whether the candidate that keeps the elements flagged true will do.
    fn test(&self, keep: &[bool]) -> bool
        ensures { result ≡ verdict self.now keep.now };
}

/// What a list step asked, and what it ended with. Each is a keep list, with a flag for each element.
#[derive(Debug, Drop)]
pub struct Outcome {
    /// The questions in order.
    pub questions: Vec<Vec<bool>>,

    /// What is kept at the end.
    pub result: Vec<bool>,
}

impl Model for Outcome {
    ghost use Rattle.std.specs.Prelude.{map};
    ghost use Rattle.list_ddmin.specs.ListStep as definition;

    ghost Value = { definition.Outcome };

    ghost view = { λ o. record { questions = map (λ v. v.items) o.questions.items; result = o.result.items } };
}

/// The list step over `len` elements, answered by `test`. A list that `may_be_empty` is tried empty
/// first.
///
/// This is the definition written out, to be read and to be compared with: each candidate is built
/// anew, in time quadratic in `len`. [`Ddmin`](crate::Ddmin) is for use.
pub fn plain_list_step<T: Test>(
    alloc: Global,
    test: &T,
    len: u32,
    may_be_empty: bool,
) -> Result<Outcome, Memory>
    ensures { IfOk result (λ outcome. outcome ≡ list_step (T.verdict test.now) len may_be_empty) }
{
    let mut questions = Vec::new(alloc);
    if !may_be_empty || len == 0 {
        return reduced(alloc, test, len, questions);
    }
    let nothing = vec![in alloc; false; len as usize]?;
    let yes = ask(alloc, test, &nothing, &mut questions)?;
    if yes {
        return Ok(Outcome {
            questions,
            result: nothing,
        });
    }
    reduced(alloc, test, len, questions)
}

/// ddmin of all elements in two parts, after these questions.
fn reduced<T: Test>(
    alloc: Global,
    test: &T,
    len: u32,
    mut questions: Vec<Vec<bool>>,
) -> Result<Outcome, Memory>
    ensures { IfOk result (λ outcome.
        outcome ≡ asks_before (map (λ v. v.items) questions.items) (ddmin (T.verdict test.now) (replicate len true) 2)) }
{
    let all = vec![in alloc; true; len as usize]?;
    let result = ddmin(alloc, test, all, 2, &mut questions)?;
    Ok(Outcome { questions, result })
}

/// The answer to a question, which is appended to `questions`.
fn ask<T: Test>(
    alloc: Global,
    test: &T,
    question: &[bool],
    questions: &mut Vec<Vec<bool>>,
) -> Result<bool, Memory>
    ensures answer { IfOk result (λ yes. yes ≡ T.verdict test.now question.now) }
    ensures asked { OnOk result (map (λ v. v.items) questions.new.items ≡ map (λ v. v.items) questions.old.items ++ question.now ∷ []) }
{
    questions.push(Vec::from_slice(alloc, question)?)?;
    Ok(test.test(question))
}

/// ddmin of the kept elements in `n` parts. It appends what it asks to `questions`.
fn ddmin<T: Test>(
    alloc: Global,
    test: &T,
    keep: Vec<bool>,
    n: u32,
    questions: &mut Vec<Vec<bool>>,
) -> Result<Vec<bool>, Memory>
    requires few { length keep.items < 2 ^ 32 }
    requires two { 2 ≤ n }
    requires fits { 2 ≤ kept_count keep.items → n ≤ kept_count keep.items }
    ensures { IfOk result (λ found.
        asks_before (map (λ v. v.items) questions.old.items) (ddmin (T.verdict test.now) keep.items n)
        ≡ asks_before (map (λ v. v.items) questions.new.items) (ends_with found.items)) }
{
    let size = positions_of(alloc, &keep)?.len() as u32;
    if size < 2 {
        return Ok(keep);
    }
    if let Some(part) = first_yes(alloc, test, &keep, Side::Part, n, questions)? {
        return ddmin(alloc, test, part, 2, questions);
    }
    if let Some(complement) = first_yes(alloc, test, &keep, Side::Complement, n, questions)? {
        return ddmin(alloc, test, complement, (n - 1).max(2), questions);
    }
    if n < size {
        let finer = (n as u64 * 2).min(size as u64) as u32;
        return ddmin(alloc, test, keep, finer, questions);
    }
    Ok(keep)
}

/// Which candidates a row has.
#[derive(Clone, Copy, Debug)]
enum Side {
    /// The parts.
    Part,

    /// The kept elements without one part each.
    Complement,
}

/// Tries the candidates of a row in order, up to the first yes, which it gives back. It appends
/// what it asks to `questions`.
fn first_yes<T: Test>(
    alloc: Global,
    test: &T,
    keep: &[bool],
    side: Side,
    n: u32,
    questions: &mut Vec<Vec<bool>>,
) -> Result<Option<Vec<bool>>, Memory>
    requires few { length keep.now < 2 ^ 32 }
    requires some { 0 < n }
    requires fits { n ≤ kept_count keep.now }
    ensures row { IfOk result (λ found.
        IsTried (T.verdict test.now) (candidate_of side keep.now n) n
        (map (λ v. v.items) questions.old.items) (map (λ v. v.items) questions.new.items)
        (option_map (λ v. v.items) found)) }
    ensures one { IfOk result (λ found. IfSome found (λ v. IsOneOf (candidate_of side keep.now n) n v.items)) }
{
    for i in 0..n {
        let tried = candidate(alloc, keep, side, n, i)?;
        let yes = ask(alloc, test, &tried, questions)?;
        if yes {
            return Ok(Some(tried));
        }
    }
    Ok(None)
}

/// The candidate number `i` of a row, from the positions of what is kept.
fn candidate(alloc: Global, keep: &[bool], side: Side, n: u32, i: u32) -> Result<Vec<bool>, Memory>
    requires few { length keep.now < 2 ^ 32 }
    requires fits { n ≤ kept_count keep.now }
    requires at { i < n }
    ensures { IfOk result (λ candidate. candidate.items ≡ candidate_of side keep.now n i) }
{
    let positions = positions_of(alloc, keep)?;
    let size = positions.len() as u32;
    let low = border_of(size, n, i) as usize;
    let high = border_of(size, n, i + 1) as usize;
    match side {
        Side::Part => flags(alloc, &positions[low..high], keep.len()),
        Side::Complement => {
            let mut others = Vec::from_slice(alloc, &positions[..low])?;
            others.extend_from_slice(&positions[high..])?;
            flags(alloc, &others, keep.len())
        }
    }
}

/// The positions of the kept elements, from 0.
fn positions_of(alloc: Global, keep: &[bool]) -> Result<Vec<usize>, Memory>
    ensures positions { IfOk result (λ positions. positions.items ≡ positions_from 0 keep.now) }
    ensures count { IfOk result (λ positions. vec_len positions ≡ kept_count keep.now) }
    ensures within { IfOk result (λ positions. vec_len positions ≤ length keep.now) }
{
    let mut positions = Vec::new(alloc);
    for (k, kept) in keep.iter().enumerate() {
        if *kept {
            positions.push(k)?;
        }
    }
    Ok(positions)
}

/// A flag for each of `len` elements: is its position among these?
fn flags(alloc: Global, positions: &[usize], len: usize) -> Result<Vec<bool>, Memory>
    ensures { IfOk result (λ flags. flags.items ≡ flags_of positions.now 0 len) }
{
    let mut flags = Vec::new(alloc);
    for k in 0..len {
        flags.push(positions.contains(&k))?;
    }
    Ok(flags)
}
