//! The parser rules of a grammar.

ghost use Rattle.std.specs.Prelude.{◌≡◌, IfOk, map};
ghost use Rattle.grammar_tree.specs.GrammarView.{rule_of};
ghost use Rattle.grammar_tree.specs.Kinds.{parser_rules};
ghost use Rattle.normal_form_build.specs.inner.ParserRules.{parser_rule};

use faults::Memory;
use grammar_tree::{ParserAlts, Rule, Text};
use std::alloc::Global;

/// A parser rule of a grammar.
#[derive(Clone, Copy)]
pub(crate) struct ParserRuleRef<'a> {
    pub(crate) name: &'a Text,
    pub(crate) alts: &'a ParserAlts,
}

/// The parser rules among the rules, in their order.
pub(crate) fn parser_rules<'a>(
    alloc: Global,
    rules: &'a [Rule],
) -> Result<Vec<ParserRuleRef<'a>>, Memory>
    ensures { IfOk result (λ found. map parser_rule found.items ≡ parser_rules (map rule_of rules.now)) }
{
    let mut found = Vec::new(alloc);
    for rule in rules {
        if let Rule::Parser { name, alts } = rule {
            found.push(ParserRuleRef { name, alts })?;
        }
    }
    Ok(found)
}
