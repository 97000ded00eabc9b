//! What both reducers make of a case.

ghost use Rattle.std.specs.Prelude.{IfOk, IsTrue};
ghost use Rattle.plain_reductions.specs.Results.{result_of};
ghost use Rattle.plain_reductions.specs.Verdicts.{verdicts_by};
ghost use Rattle.plain_reductions.specs.Ends.{EndsAs};

use crate::agreement::agrees_with_plain;
use crate::parts::{found, tree_parts};
use crate::reduction::{Mode, Problem, Reduction, reduced};
use crate::verdicts::VerdictRule;
use compat_table::compat;
use faults::Memory;
use grammar_tree::Checked;
use reduce_trees_input::ParsedInput;
use std::alloc::Global;

/// What is reduced.
#[derive(Clone, Copy)]
pub struct Case<'a> {
    pub grammar: &'a Checked,
    pub start: &'a str,

    /// The number of the rule of verdicts.
    pub seed: u64,

    pub mode: Mode,

    /// Whether the squeezed text is asked before the rounds.
    pub squeezes: bool,
}

/// The plain reduction of what was found in the start.
fn plain_of(
    alloc: Global,
    case: Case,
    rule: VerdictRule,
    found: &ParsedInput,
) -> Result<Option<Reduction>, Memory> {
    let compat = compat(alloc, found.tree.normal())?;
    let plain = reduced(Problem {
        alloc,
        start: case.start,
        lexer: &found.lexer,
        tree: &found.tree,
        compat: &compat,
        rule,
        mode: case.mode,
        squeezes: case.squeezes,
    })?;
    Ok(Some(plain))
}

/// The plain reduction; None where the start isn't in the grammar's language.
fn plain_reduction(
    alloc: Global,
    case: Case,
    rule: VerdictRule,
) -> Result<Option<Reduction>, Memory> {
    match found(alloc, case.grammar, case.start)? {
        Some(found) => plain_of(alloc, case, rule, &found),
        None => Ok(None),
    }
}

/// Whether the reducer does what the plain one did.
fn agrees(alloc: Global, case: Case, rule: VerdictRule, plain: &Reduction) -> Result<bool, Memory>
    ensures { IfOk result (λ same. IsTrue same
        → EndsAs case.entry.grammar.now case.entry.start.now case.entry.mode case.entry.squeezes (verdicts_by rule.entry.start.now rule.entry.seed)
        (result_of plain.now)) }
{
    let Some(found) = found(alloc, case.grammar, case.start)? else {
        return Ok(false);
    };
    let parts = tree_parts(alloc, found, case.squeezes)?;
    agrees_with_plain(alloc, &parts, case.mode, rule, plain)
}

/// How many questions and rounds a reduction had, how many tokens it leaves, and their text.
fn summary(alloc: Global, plain: &Reduction) -> Result<String, Memory> {
    let questions = plain.questions.len();
    let Reduction { units, rounds, .. } = plain;
    let text = str::from_utf8(&plain.text).unwrap_or("no text");
    Ok(format!(in alloc; "{questions} questions, {rounds} rounds, {units} tokens: \"{text}\"")?)
}

/// What the plain reduction came to, where the reducer does the same, or that they differ.
fn comparison(
    alloc: Global,
    case: Case,
    rule: VerdictRule,
    plain: &Reduction,
) -> Result<Option<String>, Memory> {
    let text = if agrees(alloc, case, rule, plain)? {
        summary(alloc, plain)?
    } else {
        String::from_str(alloc, "the reducers differ")?
    };
    Ok(Some(text))
}

/// Reduces a text by both reducers, and says what both come to, or that they differ; None where it isn't
/// in the grammar's language, or has more than 1,048,576 bytes.
pub fn answer(alloc: Global, case: Case) -> Result<Option<String>, Memory> {
    let rule = VerdictRule {
        start: case.start.as_bytes(),
        seed: case.seed,
    };
    match plain_reduction(alloc, case, rule)? {
        Some(plain) => comparison(alloc, case, rule, &plain),
        None => Ok(None),
    }
}
