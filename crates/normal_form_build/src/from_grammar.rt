//! From a grammar to its normal form.

ghost use Rattle.std.specs.Prelude.{◌≡◌, IfOk, length, map};
ghost use Rattle.grammar_tree.specs.Derives.{bodies};
ghost use Rattle.grammar_tree.specs.GrammarView.{rule_of};
ghost use Rattle.grammar_tree.specs.Kinds.{parser_rules};
ghost use Rattle.normal_form.specs.Laws.{HasEqualLanguages};
ghost use Rattle.normal_form.specs.NormalOf.{normal_of, numbering};
ghost use Rattle.normal_form.specs.Numbering.{groups};
ghost use Rattle.normal_form.specs.View.{rule_form};
ghost use Rattle.normal_form_build.specs.inner.ParserRules.{HaveNumbers, bodies_of};

use crate::groups::push_group;
use crate::numbers::Numbers;
use crate::own_rules::own_rules;
use crate::parser_rule::{ParserRuleRef, parser_rules};
use crate::rule_names::rule_names;
use crate::sets::sets;
use faults::Memory;
use grammar_names::Names;
use grammar_tree::{Checked, Rule, counts_fit, places_have_numbers};
use normal_form::{Normal, NormalRule, equal_languages};
use std::alloc::Global;

/// How many of the rules are parser rules.
fn count_parser_rules(rules: &[Rule]) -> usize
    ensures { result ≡ length (parser_rules (map rule_of rules.now)) }
{
    let mut count = 0;
    for rule in rules {
        if let Rule::Parser { .. } = rule {
            count += 1;
        }
    }
    count
}

/// The rules that the parser rules make.
fn all_rules(rules: &[ParserRuleRef<'_>], numbers: &Numbers<'_>) -> Result<Vec<NormalRule>, Memory>
    requires { HaveNumbers numbers.now rules.now }
    ensures { IfOk result (λ made. map rule_form made.items ≡ groups (numbering (bodies numbers.now)) 0 0 (bodies_of numbers.now rules.now)) }
{
    let mut made = Vec::new(numbers.alloc());
    for (number, rule) in rules.iter().enumerate() {
        push_group(rule.alts, numbers, number as u32, &mut made)?;
    }
    Ok(made)
}

/// The normal form of the grammar: each parser rule gives one rule of its own name, directly
/// followed by its new rules. A block gives a regular rule, a suffix an optional, star or plus, and
/// `EOF` is left out. A rule `e` with directly recursive alternatives is `e#1 e#2`: its bases, and
/// any number of its rests. It takes time near linear in the grammar's size.
pub fn normalise(alloc: Global, checked: &Checked) -> Result<Normal, Memory>
    ensures form { IfOk result (λ normal. normal ≡ normal_of checked.now) }
    ensures equal_languages { IfOk result (λ normal. HasEqualLanguages checked.now normal) }
{
    checked.is_checked();
    counts_fit();
    places_have_numbers();
    equal_languages();
    let grammar = checked.grammar();
    let names = Names::new(alloc, grammar, checked.kinds())?;
    let rules = parser_rules(alloc, &grammar.rules)?;
    let own_rules = own_rules(alloc, &rules, &names)?;
    let sets = sets(alloc, &rules, &names)?;
    let rule_names = rule_names(alloc, &rules, &names)?;
    let start = own_rules[count_parser_rules(&grammar.rules[..checked.start() as usize])];
    let numbers = Numbers::new(alloc, names, own_rules, sets);
    let made = all_rules(&rules, &numbers)?;
    Ok(Normal::new(made, rule_names, numbers.into_sets(), start))
}
