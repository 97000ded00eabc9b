//! Lexer rules by their names.

ghost use Rattle.std.specs.Prelude.{◌≡◌, ℕ, ◌<◌, ◌^◌, List, IfOk, length, map};
ghost use Rattle.grammar_tree.specs.GrammarView.{rule_of};
ghost use Rattle.grammar_names.specs.Index.{Finds};
ghost use Rattle.grammar_check_lexer_rules.specs.Lexer.{lexer_index};

use faults::Memory;
use grammar_check_parser_rules::{Key, rules_by};
use grammar_names::Index;
use grammar_tree::{Rule, Text};
use std::alloc::Global;

/// The indices of the lexer rules of a grammar, by their names.
#[derive(Drop)]
pub struct LexerNames<'a> {
    /// All rules of the grammar, in written order.
    pub rules: &'a [Rule],
    indices: Index,
    ghost found: { Finds indices (lexer_index (map rule_of rules.now)) },
}

impl<'a> LexerNames<'a> {
    /// The lexer rules among these rules. It takes time near linear in their number.
    pub fn new(alloc: Global, rules: &'a [Rule]) -> Result<LexerNames<'a>, Memory>
        requires { length rules.now < 2 ^ 32 }
        ensures { IfOk result (λ names. names.rules.now ≡ rules.now) }
    {
        let indices = rules_by(alloc, rules, Key::LexerName)?;
        Ok(LexerNames { rules, indices })
    }

    /// The index of the lexer rule with this name.
    pub fn index(&self, name: &Text) -> Option<u32>
        ensures { result ≡ lexer_index (map rule_of self.now.rules.now) name.now }
    {
        self.indices.get(name)
    }
}
