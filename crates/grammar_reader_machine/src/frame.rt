//! Alternatives that are begun.

ghost use Rattle.std.specs.Prelude.{◌≡◌, IfOk};
ghost use Rattle.grammar_tree.specs.View.{lex_alts, lex_term, parser_alts, parser_term};
ghost use Rattle.grammar_reader_machine.specs.Machine as m;
ghost use Rattle.grammar_reader_machine.specs.View.{frame_of, lex_frame_of};

use faults::Memory;
use grammar_tree::{LexAlts, LexTerm, LexTerms, ParserAlts, ParserTerm, ParserTerms};
use std::alloc::Global;

/// Alternatives of a parser rule or a block in it: those before, and the terms of the current one.
#[derive(Drop)]
pub struct Frame {
    pub alts: ParserAlts,
    pub terms: ParserTerms,
}

/// Alternatives of a lexer rule or a block in it: those before, and the terms of the current one.
#[derive(Drop)]
pub struct LexFrame {
    pub alts: LexAlts,
    pub terms: LexTerms,
}

impl Frame {
    /// Alternatives of which nothing is read.
    pub fn fresh(alloc: Global) -> Frame
        ensures { frame_of result ≡ m.fresh }
    {
        Frame {
            alts: ParserAlts {
                items: Vec::new(alloc),
            },
            terms: ParserTerms {
                items: Vec::new(alloc),
            },
        }
    }

    /// One more term in the current alternative.
    pub fn with_term(self, term: ParserTerm) -> Result<Frame, Memory>
        ensures { IfOk result (λ f. frame_of f ≡ m.with_term (frame_of self) (parser_term term)) }
    {
        let Frame { alts, mut terms } = self;
        terms.items.push(term)?;
        Ok(Frame { alts, terms })
    }

    /// The alternatives, of which the current one is the last.
    pub fn whole(self) -> Result<ParserAlts, Memory>
        ensures { IfOk result (λ a. parser_alts a ≡ m.whole (frame_of self)) }
    {
        let Frame { mut alts, terms } = self;
        alts.items.push(terms)?;
        Ok(alts)
    }

    /// The current alternative is whole, and the next one begins.
    pub fn next_alt(self, alloc: Global) -> Result<Frame, Memory>
        ensures { IfOk result (λ f. frame_of f ≡ m.next_alt (frame_of self)) }
    {
        Ok(Frame {
            alts: self.whole()?,
            terms: ParserTerms {
                items: Vec::new(alloc),
            },
        })
    }
}

impl LexFrame {
    /// Alternatives of which nothing is read.
    pub fn fresh(alloc: Global) -> LexFrame
        ensures { lex_frame_of result ≡ m.fresh }
    {
        LexFrame {
            alts: LexAlts {
                items: Vec::new(alloc),
            },
            terms: LexTerms {
                items: Vec::new(alloc),
            },
        }
    }

    /// One more term in the current alternative.
    pub fn with_term(self, term: LexTerm) -> Result<LexFrame, Memory>
        ensures { IfOk result (λ f. lex_frame_of f ≡ m.with_term (lex_frame_of self) (lex_term term)) }
    {
        let LexFrame { alts, mut terms } = self;
        terms.items.push(term)?;
        Ok(LexFrame { alts, terms })
    }

    /// The alternatives, of which the current one is the last.
    pub fn whole(self) -> Result<LexAlts, Memory>
        ensures { IfOk result (λ a. lex_alts a ≡ m.whole (lex_frame_of self)) }
    {
        let LexFrame { mut alts, terms } = self;
        alts.items.push(terms)?;
        Ok(alts)
    }

    /// The current alternative is whole, and the next one begins.
    pub fn next_alt(self, alloc: Global) -> Result<LexFrame, Memory>
        ensures { IfOk result (λ f. lex_frame_of f ≡ m.next_alt (lex_frame_of self)) }
    {
        Ok(LexFrame {
            alts: self.whole()?,
            terms: LexTerms {
                items: Vec::new(alloc),
            },
        })
    }
}
