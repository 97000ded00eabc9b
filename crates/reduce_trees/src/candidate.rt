//! Texts of trees that are tried.

ghost use Rattle.std.specs.Prelude.{◌≡◌, ◌≤◌, length, IfOk};
ghost use Rattle.token_print.specs.Kept.{AreKept};
ghost use Rattle.reduce_step.specs.Limits.{text_limit};
ghost use Rattle.reduce_trees_mode.specs.Listed.{text_in};
ghost use Rattle.reduce_trees.specs.inner.Candidates.{IsCandidateIn, is_listed_in};

use crate::parts::{HasInput, TreeParts};
use faults::Memory;
use keep_guard::Relation;
use lexer::LexReader;
use std::alloc::Global;
use token_print::{Style, keeps_printed, print, printed_with_skips, spelled_are_found};

/// The text of a tree, how many tokens it has, and whether it may be asked. The text is printed once. Only
/// a reducer's copy copies it; what reads it here is passed a slice.
#[derive(Drop)]
pub(crate) struct Candidate {
    pub(crate) text: Vec<u8>,
    pub(crate) tokens: u64,
    pub(crate) listed: bool,
}

impl Candidate {
    /// The same again.
    pub(crate) fn copy(&self) -> Result<Candidate, Memory>
        ensures text { IfOk result (λ copy. copy.text.items ≡ self.now.text.items) }
        ensures tokens { IfOk result (λ copy. copy.tokens ≡ self.now.tokens) }
        ensures listed { IfOk result (λ copy. copy.listed ≡ self.now.listed) }
    {
        Ok(Candidate {
            text: self.text.clone()?,
            tokens: self.tokens,
            listed: self.listed,
        })
    }
}

/// The text of the start's tokens with these numbers.
pub(crate) fn text_of<F: Relation>(
    alloc: Global,
    parts: &TreeParts<F>,
    kept: &[u32],
    style: Style,
) -> Result<Vec<u8>, Memory>
    requires { AreKept (⟦<TreeParts<F> as HasInput>⟧.input parts.now).tokens kept.now }
    ensures { IfOk result (λ text. text.items ≡ text_in (⟦<TreeParts<F> as HasInput>⟧.input parts.now) kept.now style) }
{
    parts.is_input();
    printed_with_skips();
    let start = &parts.start;
    let text = print(
        alloc,
        start.text(),
        &parts.tokens,
        start.lexer(),
        kept,
        style,
    )?;
    Ok(text)
}

/// Whether the text of these tokens is cut into them again, and is admitted. Only pieces that aren't
/// carried over from the start are read, by a new reader.
fn is_listed<F: Relation>(
    parts: &TreeParts<F>,
    kept: &[u32],
    style: Style,
    text: &[u8],
) -> Result<bool, Memory>
    requires kept { AreKept (⟦<TreeParts<F> as HasInput>⟧.input parts.now).tokens kept.now }
    requires short { length text.now ≤ text_limit }
    requires printed { text.now ≡ text_in (⟦<TreeParts<F> as HasInput>⟧.input parts.now) kept.now style }
    ensures { IfOk result (λ listed. listed ≡ is_listed_in (⟦<TreeParts<F> as HasInput>⟧.input parts.now) kept.now style) }
{
    parts.is_input();
    spelled_are_found();
    printed_with_skips();
    let start = &parts.start;
    let mut reader = LexReader::new(start.lexer());
    let keeps = keeps_printed(
        start.text(),
        start.pieces(),
        &parts.tokens,
        kept,
        style,
        text,
        &mut reader,
    )?;
    if !keeps {
        return Ok(false);
    }
    Ok(parts.guard.admits(kept, text))
}

/// The candidate of the start's tokens with these numbers, whose text in the style this is. What isn't
/// carried over from the start is read once, and the guard is called at most once.
pub(crate) fn with_text<F: Relation>(
    parts: &TreeParts<F>,
    kept: &[u32],
    style: Style,
    text: Vec<u8>,
) -> Result<Candidate, Memory>
    requires kept { AreKept (⟦<TreeParts<F> as HasInput>⟧.input parts.now).tokens kept.now }
    requires short { length text.items ≤ text_limit }
    requires printed { text.items ≡ text_in (⟦<TreeParts<F> as HasInput>⟧.input parts.now) kept.now style }
    ensures { IfOk result (IsCandidateIn (⟦<TreeParts<F> as HasInput>⟧.input parts.now) kept.now style) }
{
    let listed = is_listed(parts, kept, style, &text)?;
    Ok(Candidate {
        text,
        tokens: kept.len() as u64,
        listed,
    })
}

/// The candidate of the start's tokens with these numbers.
pub(crate) fn candidate_of<F: Relation>(
    alloc: Global,
    parts: &TreeParts<F>,
    kept: &[u32],
    style: Style,
) -> Result<Candidate, Memory>
    requires kept { AreKept (⟦<TreeParts<F> as HasInput>⟧.input parts.now).tokens kept.now }
    requires short { length (text_in (⟦<TreeParts<F> as HasInput>⟧.input parts.now) kept.now style) ≤ text_limit }
    ensures { IfOk result (IsCandidateIn (⟦<TreeParts<F> as HasInput>⟧.input parts.now) kept.now style) }
{
    let text = text_of(alloc, parts, kept, style)?;
    let candidate = with_text(parts, kept, style, text)?;
    Ok(candidate)
}
