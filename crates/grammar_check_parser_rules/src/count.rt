//! How many rules the normal form would have.

ghost use Rattle.std.specs.Prelude.{◌≡◌, ◌<◌, ◌^◌, length, map, sum_by};
ghost use Rattle.grammar_tree.specs.Corners.{normal_count};
ghost use Rattle.grammar_tree.specs.Derives.{bodies};
ghost use Rattle.grammar_tree.specs.Size.{alts_size};
ghost use Rattle.grammar_tree.specs.View.{parser_alts};
ghost use Rattle.grammar_tree.specs.Written.{written_alts};
ghost use Rattle.grammar_check_parser_rules.specs.Empty.{AreBodies};

use grammar_check_recursion::{group_size, groups_fit};
use grammar_names::Names;
use grammar_tree::ParserAlts;

/// How many rules the normal form has.
pub fn normal_count(rules: &[&ParserAlts], names: &Names) -> u64
    requires few { length rules.now < 2 ^ 32 }
    requires small { sum_by (λ a. alts_size (written_alts (parser_alts a.now))) rules.now < 2 ^ 32 }
    requires bodies { AreBodies names.now (map (λ a. parser_alts a.now) rules.now) }
    ensures { result ≡ normal_count (bodies names.now) }
{
    groups_fit();
    let mut count = 0;
    for number in 0..rules.len() {
        count += group_size(rules[number], names, number as u32);
    }
    count
}
