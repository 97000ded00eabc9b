//! Patterns.

ghost use Rattle.std.specs.Prelude.{◌≡◌, ◌+◌, ℕ, [], ◌∷◌, IfOk, length, vec_len};
ghost use Rattle.cases_languages.specs.Patterns as plain;
ghost use Rattle.cases_languages.specs.Positions.{AreEnds, Fit, Known};
ghost use Rattle.cases_languages.specs.View.{pattern};

use crate::chart::{self, Row};
use crate::positions;
use faults::Memory;
use std::alloc::Global;

/// A term whose names are numbers of rules, over lists of numbers.
#[derive(Drop)]
pub enum Pattern {
    /// Nowhere.
    Never,

    /// Nothing, at each position.
    Empty,

    /// One number that lies in one of the ranges, both ends included.
    One(Vec<(u32, u32)>),
    /// What the body of the rule with this number, from 0, spans.
    Rule(usize),

    /// The first, and then the second.
    Seq(Box<Pattern>, Box<Pattern>),

    /// The first or the second.
    Alt(Box<Pattern>, Box<Pattern>),

    /// Once or more.
    Plus(Box<Pattern>),
}

impl Pattern {
    /// The first pattern, and then the second.
    pub fn then(alloc: Global, first: Pattern, second: Pattern) -> Result<Pattern, Memory>
        ensures { IfOk result (λ p. pattern p ≡ plain.Pattern.seq (pattern first) (pattern second)) }
    {
        Ok(Pattern::Seq(Box::new(alloc, first)?, Box::new(alloc, second)?))
    }

    /// The first pattern or the second.
    pub fn either(alloc: Global, first: Pattern, second: Pattern) -> Result<Pattern, Memory>
        ensures { IfOk result (λ p. pattern p ≡ plain.Pattern.alt (pattern first) (pattern second)) }
    {
        Ok(Pattern::Alt(Box::new(alloc, first)?, Box::new(alloc, second)?))
    }

    /// The pattern once or more.
    pub fn repeated(alloc: Global, part: Pattern) -> Result<Pattern, Memory>
        ensures { IfOk result (λ p. pattern p ≡ plain.Pattern.plus (pattern part)) }
    {
        Ok(Pattern::Plus(Box::new(alloc, part)?))
    }

    /// One number.
    pub fn number(alloc: Global, number: u32) -> Result<Pattern, Memory>
        ensures { IfOk result (λ p. pattern p ≡ plain.Pattern.one ((number, number) ∷ [])) }
    {
        Ok(Pattern::One(vec![in alloc; (number, number)]?))
    }

    /// The pattern, or nothing.
    pub fn optional(alloc: Global, part: Pattern) -> Result<Pattern, Memory>
        ensures { IfOk result (λ p. pattern p ≡ plain.Pattern.alt plain.Pattern.empty (pattern part)) }
    {
        let whole = Pattern::either(alloc, Pattern::Empty, part)?;
        Ok(whole)
    }

    /// The pattern as often as may be, and so maybe not at all.
    pub fn star(alloc: Global, part: Pattern) -> Result<Pattern, Memory>
        ensures { IfOk result (λ p. pattern p ≡ plain.Pattern.alt plain.Pattern.empty (plain.Pattern.plus (pattern part))) }
    {
        let some = Pattern::repeated(alloc, part)?;
        let whole = Pattern::optional(alloc, some)?;
        Ok(whole)
    }

    /// The positions up to which the pattern spans from a marked position.
    pub fn ends(
        &self,
        alloc: Global,
        rows: &[Row],
        list: &[u32],
        from: &[bool],
    ) -> Result<Vec<bool>, Memory>
        requires positions { length from.now ≡ length list.now + 1 }
        requires rows { Fit rows.now (length list.now + 1) }
        ensures len { IfOk result (λ to. vec_len to ≡ length from.now) }
        ensures ends { IfOk result (λ to. AreEnds (Known rows.now) list.now (pattern self.now) from.now to.items) }
    {
        match self {
            Pattern::Never => {
                let to = positions::none(alloc, from.len())?;
                Ok(to)
            }
            Pattern::Empty => {
                let to = positions::copy(alloc, from)?;
                Ok(to)
            }
            Pattern::One(ranges) => {
                let to = positions::steps(alloc, ranges, list, from)?;
                Ok(to)
            }
            Pattern::Rule(rule) => {
                let to = chart::known_ends(alloc, rows, *rule, from)?;
                Ok(to)
            }
            Pattern::Seq(first, second) => {
                let middle = first.ends(alloc, rows, list, from)?;
                let to = second.ends(alloc, rows, list, &middle)?;
                Ok(to)
            }
            Pattern::Alt(first, second) => {
                let left = first.ends(alloc, rows, list, from)?;
                let right = second.ends(alloc, rows, list, from)?;
                let to = positions::union(alloc, &left, &right)?;
                Ok(to)
            }
            Pattern::Plus(part) => {
                let mut all = part.ends(alloc, rows, list, from)?;
                loop {
                    let more = part.ends(alloc, rows, list, &all)?;
                    let next = positions::union(alloc, &all, &more)?;
                    if positions::are_same(&next, &all) {
                        return Ok(all);
                    }
                    all = next;
                }
            }
        }
    }
}
