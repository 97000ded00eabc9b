//! The rules of a lexer, in the form in which they are read.

ghost use Rattle.std.specs.Prelude.{IfOk, MatchOption, OnOk, ⊤, length};
ghost use Rattle.std.specs.Str.{chars};
ghost use Rattle.lexer.specs.inner.Built.{IsBuilt, IsRunnable};
ghost use Rattle.lexer.specs.inner.Candidates.{ComesNext, HasNoNext, IsMatchedByOne};
ghost use Rattle.lexer_match.specs.Dead.{AreDead, HasNoDead, StayDead};
ghost use Rattle.lexer_match.specs.Reading.{IsReady};
ghost use Rattle.lexer_match.specs.Seen.{IsSeenTo};

use crate::candidates::{beginnings, by_first_character};
use crate::gaps::gap_characters;
use crate::live::live_states;
use crate::pieces::{NextMatch, next_match};
use faults::Memory;
use grammar_tree::{CharSet, Checked};
use lexer_match::{Alternative, Reading, State, Table, table_of};
use lexer_nfa::add_kinds;
use std::alloc::Global;

/// The rules of a lexer: their states, and the alternatives of their kinds.
#[derive(Drop)]
pub(crate) struct Rules {
    pub(crate) states: Vec<State>,
    pub(crate) alternatives: Vec<Alternative>,

    /// By the number of a state, whether it reads a character and then some text.
    pub(crate) live: Vec<bool>,

    /// By its first character, for each below 128, the alternatives that can match a text.
    pub(crate) by_first: Vec<Vec<Alternative>>,

    /// What comes after sets of the states, for characters below 128.
    pub(crate) table: Table,

    /// The characters that are gap text by themselves.
    pub(crate) gaps: CharSet,
}

impl Rules {
    /// The rules of the grammar.
    pub(crate) fn build(alloc: Global, checked: &Checked) -> Result<Rules, Memory>
        ensures { IfOk result (λ rules. IsBuilt checked.now rules) }
    {
        let mut states = vec![in alloc; State::Never]?;
        let mut alternatives = Vec::new(alloc);
        add_kinds(alloc, &mut states, &mut alternatives, checked)?;
        let beginnings = beginnings(alloc, &states, &alternatives)?;
        let by_first = by_first_character(alloc, &states, &beginnings)?;
        checked.is_checked();
        let gaps = gap_characters(alloc, checked.kinds(), &states, &beginnings)?;
        let live = live_states(alloc, &states)?;
        let table = table_of(alloc, &states, &live, &alternatives)?;
        Ok(Rules {
            states,
            alternatives,
            live,
            by_first,
            table,
            gaps,
        })
    }

    /// What reading by these rules takes.
    pub(crate) fn reading(&self, alloc: Global) -> Result<Reading, Memory>
        ensures ready { IfOk result (λ reading. IsReady (length self.now.states.items) reading) }
        ensures none { IfOk result (λ reading. HasNoDead reading.dead) }
    {
        Reading::new(alloc, self.states.len())
    }

    /// What comes next in the text. None where no rule matches at least one character.
    pub(crate) fn next(
        &self,
        reading: &mut Reading,
        text: &str,
    ) -> Result<Option<NextMatch>, Memory>
        requires runnable { IsRunnable self.now }
        requires ready { IsReady (length self.now.states.items) reading.old }
        requires dead { AreDead self.now.states.items text.now reading.old.dead }
        ensures ready { OnOk result (IsReady (length self.now.states.items) reading.new) }
        ensures dead { OnOk result (StayDead self.now.states.items text.now reading.old.dead reading.new.dead) }
        ensures next { IfOk result (λ found. MatchOption found (HasNoNext self.now.states.items self.now.alternatives.items (chars text.now))
            (λ m. ComesNext self.now.states.items self.now.alternatives.items (chars text.now) m.found.kind m.found.len)) }
        ensures seen { IfOk result (λ found. MatchOption found ⊤
            (λ m. IsSeenTo (IsMatchedByOne self.now.states.items self.now.alternatives.items) (chars text.now) m.seen)) }
    {
        let found = next_match(
            &self.states,
            &self.live,
            &self.table,
            &self.alternatives,
            &self.by_first,
            reading,
            text,
        )?;
        Ok(found)
    }
}
