//! The reduction of lines as a plain and slow recursion, whose contract is the definition.

ghost use Rattle.std.specs.Prelude.{◌≡◌, ◌≤◌, ◌+◌, ℕ, Bool, List, IfOk, OnOk, ◌∷◌, [], ◌++◌, length, map, false};
ghost use Rattle.std.specs.List.{AllByRecursion};
ghost use Rattle.std.specs.Option.{option_copied};
ghost use Rattle.list_ddmin.specs.Machine.{HasLength};
ghost use Rattle.reduce_step.specs.Limits.{text_limit};
ghost use Rattle.reduce_core.specs.inner.Plain.{first_other, is_among, texts_asked, verdict_on, with_yes};
ghost use Rattle.keep_guard.specs.Relation.{Rises};
ghost use Rattle.reduce_core.specs.Lines.{numbers_of};
ghost use Rattle.reduce_core.specs.Reduction.{line_recursion, line_step};
ghost use Rattle.reduce_rounds.specs.Reduction.{ends_with, reduction, rounds_of};

use crate::lines::{Candidate, Lines};
use faults::Memory;
use keep_guard::{Guard, Relation};
use list_ddmin::{Outcome, agreeing_maps, plain_list_step, questions_fit};
use std::alloc::Global;
use std::marker::Model;

/// A map from texts to yes or no: it answers the same text in the same way each time.
pub trait Test {
    ghost verdict: { Self → List ℕ → Bool };

    /// Whether the text will do.
    fn test(&self, text: &[u8]) -> bool
        ensures { result ≡ verdict self.now text.now };
}

/// What a reduction asked, and what it ended with.
#[derive(Drop)]
pub struct Reduction {
    /// The texts in the order in which they were asked, repeated ones each time.
    pub questions: Vec<Vec<u8>>,

    /// The lines that remain.
    pub lines: Lines,

    /// How many rounds were made, the last one included.
    pub rounds: u64,

    /// Whether the start was answered no.
    pub refused: bool,
}

impl Model for Reduction {
    ghost use Rattle.std.specs.Prelude.{List, map};
    ghost use Rattle.reduce_core.specs.declared.lines.Line.{Line};
    ghost use Rattle.reduce_rounds.specs.Reduction as definition;

    ghost Value = { definition.Reduction (List Line) };

    ghost view = { λ r. record { questions = map (λ v. v.items) r.questions.items; state = r.lines; rounds = r.rounds; refused = r.refused } };
}

/// The reduction of a start of at most 1,048,576 bytes, answered by `test`, in which the guard says
/// what may be asked.
///
/// This is the definition written out, to be read and to be compared with: a round costs a whole
/// list step for each of its questions. [`LineReducer`](crate::LineReducer) is for use.
pub fn plain_reduction<T: Test, F: Relation>(
    alloc: Global,
    test: &T,
    guard: &Guard<F>,
    start: &[u8],
) -> Result<Reduction, Memory>
    requires { length start.now ≤ text_limit }
    ensures { IfOk result (λ found. found ≡ reduction (line_recursion (F.admits guard.now) start.now) (T.verdict test.now)) }
{
    let mut questions = Vec::new(alloc);
    questions.push(Vec::from_slice(alloc, start)?)?;
    let lines = Lines::split(alloc, start)?;
    if !test.test(start) {
        return Ok(Reduction {
            questions,
            lines,
            rounds: 0,
            refused: true,
        });
    }
    let later = plain_rounds(alloc, test, guard, lines)?;
    after(questions, later)
}

/// The reduction that asks these texts first.
fn after(mut questions: Vec<Vec<u8>>, later: Reduction) -> Result<Reduction, Memory>
    ensures { IfOk result (λ found. found ≡ record later { questions = map (λ v. v.items) questions.items ++ later.questions }) }
{
    let Reduction {
        questions: mut more,
        lines,
        rounds,
        refused,
    } = later;
    questions.append(&mut more)?;
    Ok(Reduction {
        questions,
        lines,
        rounds,
        refused,
    })
}

/// Rounds over these lines until one changes nothing.
fn plain_rounds<T: Test, F: Relation>(
    alloc: Global,
    test: &T,
    guard: &Guard<F>,
    lines: Lines,
) -> Result<Reduction, Memory>
    requires few { length lines ≤ text_limit }
    requires rising { Rises (numbers_of lines) }
    ensures { IfOk result (λ found. (start : List ℕ) → found ≡ rounds_of (line_recursion (F.admits guard.now) start) (T.verdict test.now) lines) }
{
    let round = plain_round(alloc, test, guard, &lines)?;
    let texts = texts(alloc, guard, &lines, &round.questions)?;
    let remaining = lines.kept(alloc, &round.result)?;
    if remaining.len() == lines.len() {
        return after_round(texts, nothing_more(alloc, lines));
    }
    let later = plain_rounds(alloc, test, guard, remaining)?;
    after_round(texts, later)
}

/// The reduction that makes a round first, which asks these texts.
fn after_round(texts: Vec<Vec<u8>>, mut later: Reduction) -> Result<Reduction, Memory>
    requires { later.rounds ≤ 1048577 }
    ensures { IfOk result (λ found. found ≡ record later { questions = map (λ v. v.items) texts.items ++ later.questions; rounds = later.rounds + 1 }) }
{
    later.rounds += 1;
    after(texts, later)
}

/// No round is made any more.
fn nothing_more(alloc: Global, lines: Lines) -> Reduction
    ensures { result ≡ ends_with lines false }
{
    Reduction {
        questions: Vec::new(alloc),
        lines,
        rounds: 0,
        refused: false,
    }
}

/// The texts of those of these candidates that are listed.
fn texts<F: Relation>(
    alloc: Global,
    guard: &Guard<F>,
    lines: &Lines,
    keeps: &[Vec<bool>],
) -> Result<Vec<Vec<u8>>, Memory>
    requires fits { AllByRecursion (λ keep. length keep ≡ length lines.now) (map (λ v. v.items) keeps.now) }
    requires rising { Rises (numbers_of lines.now) }
    ensures { IfOk result (λ texts. map (λ v. v.items) texts.items ≡ texts_asked (F.admits guard.now) lines.now (map (λ v. v.items) keeps.now)) }
{
    let mut texts = Vec::new(alloc);
    for keep in keeps {
        let mut candidate = Candidate::new(alloc);
        lines.write_kept(keep, &mut candidate)?;
        if guard.admits(&candidate.numbers, &candidate.text) {
            texts.push(candidate.text)?;
        }
    }
    Ok(texts)
}

/// The keep lists that were answered in a round, and those of them with a yes.
#[derive(Drop)]
struct Answers {
    asked: Vec<Vec<bool>>,
    yes: Vec<Vec<bool>>,
}

impl list_ddmin::Test for Answers {
    ghost verdict = { λ answers keep. is_among (map (λ v. v.items) answers.yes.items) keep };

    fn test(&self, keep: &[bool]) -> bool {
        is_among(&self.yes, keep)
    }
}

/// One list step over the lines.
///
/// The answer to a keep list needs memory for its text, and the test of a list step can't fail. So
/// the list step is made over the answers that are there, and made anew with one answer more, until
/// it asks only what was answered.
fn plain_round<T: Test, F: Relation>(
    alloc: Global,
    test: &T,
    guard: &Guard<F>,
    lines: &Lines,
) -> Result<Outcome, Memory>
    requires few { length lines.now ≤ text_limit }
    requires rising { Rises (numbers_of lines.now) }
    ensures round { IfOk result (λ outcome. outcome ≡ line_step (F.admits guard.now) (T.verdict test.now) lines.now) }
    ensures fits { IfOk result (λ outcome. HasLength (length lines.now) outcome) }
{
    agreeing_maps();
    questions_fit();
    let len = lines.len() as u32;
    let mut answers = Answers {
        asked: Vec::new(alloc),
        yes: Vec::new(alloc),
    };
    let mut outcome = plain_list_step(alloc, &answers, len, true)?;
    while let Some(keep) = first_other(&answers.asked, &outcome.questions) {
        add_answer(alloc, test, guard, lines, keep, &mut answers)?;
        outcome = plain_list_step(alloc, &answers, len, true)?;
    }
    Ok(outcome)
}

/// Tests a candidate, and adds the answer. One that isn't listed has a no.
fn add_answer<T: Test, F: Relation>(
    alloc: Global,
    test: &T,
    guard: &Guard<F>,
    lines: &Lines,
    keep: &[bool],
    answers: &mut Answers,
) -> Result<(), Memory>
    requires fits { length keep.now ≡ length lines.now }
    requires rising { Rises (numbers_of lines.now) }
    ensures asked { OnOk result (map (λ v. v.items) answers.new.asked.items ≡ map (λ v. v.items) answers.old.asked.items ++ keep.now ∷ []) }
    ensures yes { OnOk result (map (λ v. v.items) answers.new.yes.items ≡
        with_yes (verdict_on (F.admits guard.now) (T.verdict test.now) lines.now keep.now) (map (λ v. v.items) answers.old.yes.items) keep.now) }
{
    let mut candidate = Candidate::new(alloc);
    lines.write_kept(keep, &mut candidate)?;
    answers.asked.push(Vec::from_slice(alloc, keep)?)?;
    if guard.admits(&candidate.numbers, &candidate.text) && test.test(&candidate.text) {
        answers.yes.push(Vec::from_slice(alloc, keep)?)?;
    }
    Ok(())
}

/// The first of these keep lists that wasn't asked.
fn first_other<'a>(asked: &[Vec<bool>], keeps: &'a [Vec<bool>]) -> Option<&'a [bool]>
    ensures { option_copied result ≡ first_other (map (λ v. v.items) asked.now) (map (λ v. v.items) keeps.now) }
{
    for keep in keeps {
        if !is_among(asked, keep) {
            return Some(keep.as_slice());
        }
    }
    None
}

/// Whether the keep list is one of these.
fn is_among(keeps: &[Vec<bool>], keep: &[bool]) -> bool
    ensures { result ≡ is_among (map (λ v. v.items) keeps.now) keep.now }
{
    for one in keeps {
        if one.as_slice() == keep {
            return true;
        }
    }
    false
}
