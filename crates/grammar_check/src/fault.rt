//! The faults of a grammar, and the texts that they print.

ghost use Rattle.std.specs.Prelude.{◌≡◌};
ghost use Rattle.grammar_check.specs.inner.Messages.{no_start};

use faults::Memory;
use grammar_check_lexer_rules::is_empty_text;
use grammar_tree::Text;
use std::fmt;

/// Why a grammar wasn't checked: its first fault in the order in which they are listed here, or out
/// of memory. Where several rules have the fault, the name is that of the first one in written order.
#[derive(Debug, Drop)]
pub enum CheckFault {
    /// Two rules have this name.
    TwoRules { name: Text },

    /// A rule uses this name, which names nothing that the rule can use.
    NoRule { name: Text },

    /// No parser rule has this name; it is empty where there is no parser rule at all.
    NoStart { name: Text },

    /// `EOF` is in this rule other than last in an alternative, or it is in this rule, which isn't
    /// the start and is used.
    EofPlace { rule: Text },

    /// This lexer rule uses itself, directly or through others.
    FragmentLoop { rule: Text },

    /// This lexer rule is non-greedy, and another lexer rule uses it.
    ShortUse { rule: Text },

    /// This lexer rule isn't a fragment, and matches the empty text.
    EmptyToken { rule: Text },

    /// Each alternative of this rule begins with the rule itself.
    NoBase { rule: Text },

    /// This rule repeats what can be empty.
    EmptyLoop { rule: Text },

    /// This rule is on a cycle of left corners.
    LeftRecursion { rule: Text },

    /// The normal form would have this many rules, above 65,535.
    TooManyRules { count: u64 },
    Memory(Memory),
}

/// What is printed before the name of a start rule that isn't there; no space where it is empty.
fn no_start(name: &Text) -> &'static str
    ensures { result.now ≡ no_start name.now }
{
    if is_empty_text(name) {
        "no start"
    } else {
        "no start "
    }
}

impl fmt::Display for CheckFault {
    ghost use Rattle.std.specs.Prelude.{Some};
    ghost use Rattle.grammar_check.specs.Messages.{check_fault_text};

    ghost output = { λ fault. Some (check_fault_text fault) };

    #[tactic(auto, using(crate::proofs::MessageForms::no_start_then))]
    fn fmt<W: fmt::Write>(&self, f: &mut fmt::Formatter<W>) -> fmt::Result {
        match self {
            CheckFault::TwoRules { name } => write!(f, "two rules {name}"),
            CheckFault::NoRule { name } => write!(f, "no rule {name}"),
            CheckFault::NoStart { name } => write!(f, "{}{name}", no_start(name)),
            CheckFault::EofPlace { rule } => write!(f, "misplaced EOF in {rule}"),
            CheckFault::FragmentLoop { rule } => write!(f, "fragment loop in {rule}"),
            CheckFault::ShortUse { rule } => write!(f, "non-greedy rule {rule} is used"),
            CheckFault::EmptyToken { rule } => write!(f, "empty token {rule}"),
            CheckFault::NoBase { rule } => write!(f, "no base in {rule}"),
            CheckFault::EmptyLoop { rule } => write!(f, "empty loop in {rule}"),
            CheckFault::LeftRecursion { rule } => write!(f, "left recursion in {rule}"),
            CheckFault::TooManyRules { count } => write!(f, "too many rules: {count}"),
            CheckFault::Memory(_) => f.write_str("out of memory"),
        }
    }
}

impl std::error::Error for CheckFault {}

/// What a check finds: a fault, or the index of the start rule of a grammar without one.
#[derive(Drop)]
pub(crate) enum Answer {
    Broken(CheckFault),
    Fine { start: usize },
}
