//! Where the rules of each parser rule begin.

ghost use Rattle.std.specs.Prelude.{◌≡◌, IfOk};
ghost use Rattle.normal_form_build.specs.inner.OwnRules.{own_rules_from};
ghost use Rattle.normal_form_build.specs.inner.ParserRules.{HaveNumbers, bodies_of};

use crate::parser_rule::ParserRuleRef;
use faults::Memory;
use grammar_check_recursion::group_size;
use grammar_names::Names;
use std::alloc::Global;

/// The number of each parser rule's own rule.
pub(crate) fn own_rules(
    alloc: Global,
    rules: &[ParserRuleRef<'_>],
    names: &Names<'_>,
) -> Result<Vec<u32>, Memory>
    requires { HaveNumbers names.now rules.now }
    ensures { IfOk result (λ own_rules. own_rules.items ≡ own_rules_from 0 0 (bodies_of names.now rules.now)) }
{
    let mut own_rules = Vec::new(alloc);
    let mut next = 0;
    for (number, rule) in rules.iter().enumerate() {
        own_rules.push(next)?;
        next += group_size(rule.alts, names, number as u32) as u32;
    }
    Ok(own_rules)
}
