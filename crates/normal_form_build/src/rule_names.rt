//! The names of the rules of a normal form.

ghost use Rattle.std.specs.Prelude.{◌≡◌, ◌∷◌, ◌++◌, ◌<◌, IfOk, OnOk, decimal, map};
ghost use Rattle.normal_form.specs.NormalOf.{group_names, names_from};
ghost use Rattle.normal_form_build.specs.inner.ParserRules.{HaveNumbers, parser_rule};

use crate::parser_rule::ParserRuleRef;
use faults::Memory;
use grammar_check_recursion::group_size;
use grammar_names::Names;
use grammar_tree::Text;
use std::alloc::Global;

/// The name of a parser rule's new rule: the parser rule's name, `#`, and the number.
fn new_name(alloc: Global, name: &Text, number: u32) -> Result<Text, Memory>
    ensures { IfOk result (λ text. text ≡ name.now ++ (35 ∷ decimal number)) }
{
    let name = name.as_str();
    let text = format!(in alloc; "{name}#{number}")?;
    Text::new(alloc, text.as_str())
}

/// Adds the names of the rules that a parser rule makes, which are so many.
fn push_names(alloc: Global, names: &mut Vec<Text>, name: &Text, size: u32) -> Result<(), Memory>
    requires { 0 < size }
    ensures { OnOk result (names.new.items ≡ names.old.items ++ group_names name.now size) }
{
    names.push(name.copy()?)?;
    for number in 1..size {
        names.push(new_name(alloc, name, number)?)?;
    }
    Ok(())
}

/// The name of each rule that the parser rules make.
pub(crate) fn rule_names(
    alloc: Global,
    rules: &[ParserRuleRef<'_>],
    names: &Names<'_>,
) -> Result<Vec<Text>, Memory>
    requires { HaveNumbers names.now rules.now }
    ensures { IfOk result (λ texts. texts.items ≡ names_from names.now 0 (map parser_rule rules.now)) }
{
    let mut texts = Vec::new(alloc);
    for (number, rule) in rules.iter().enumerate() {
        let size = group_size(rule.alts, names, number as u32) as u32;
        push_names(alloc, &mut texts, rule.name, size)?;
    }
    Ok(texts)
}
