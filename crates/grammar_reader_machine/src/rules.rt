//! The rules that are read.

ghost use Rattle.std.specs.Prelude.{◌≡◌, IfOk};
ghost use Rattle.grammar_tree.specs.GrammarView.{grammar_of, rule_of};
ghost use Rattle.grammar_reader_machine.specs.Machine as m;

use faults::Memory;
use grammar_tree::{Grammar, Rule, Text};

/// One more rule.
pub fn with_rule(grammar: Grammar, rule: Rule) -> Result<Grammar, Memory>
    ensures { IfOk result (λ g. grammar_of g ≡ m.with_rule (grammar_of grammar) (rule_of rule)) }
{
    let Grammar {
        name,
        tokens,
        mut rules,
    } = grammar;
    rules.push(rule)?;
    Ok(Grammar {
        name,
        tokens,
        rules,
    })
}

/// One more token.
pub fn with_token(grammar: Grammar, token: Text) -> Result<Grammar, Memory>
    ensures { IfOk result (λ g. grammar_of g ≡ m.with_token (grammar_of grammar) token) }
{
    let Grammar {
        name,
        mut tokens,
        rules,
    } = grammar;
    tokens.push(token)?;
    Ok(Grammar {
        name,
        tokens,
        rules,
    })
}
