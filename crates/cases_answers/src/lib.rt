//! What programs of cases ask, and what is printed of the answers: tokens, kinds, whether a text spells a
//! grammar, or why it doesn't, and the preferred trees of texts and of lists of kinds.
//!
//! Begin with [`tokens_shown`], [`kind_shown`], [`reading_shown`] and [`checked_shown`]; the text of each
//! answer is in `specs/AnswerTexts.antt`. [`Language`] has a grammar's lexer and its normal form, and
//! gives a text's tokens, kinds and tree; [`start_tree`] gives the tree of any list of kinds. What is too
//! long is refused by name, so no call has a premise. Read `IsStartTree` in `specs/StartTree.antt`, then
//! `specs/Language.antt` and `specs/TreeFaults.antt`.
#![tactic(auto)]

mod fault;
mod kind;
mod language;
mod lists;
mod reading;
mod token;

pub use fault::{LanguageFault, TreeFault};
pub use faults::Memory;
pub use kind::kind_shown;
pub use language::Language;
pub use lists::{kinds_of, start_tree};
pub use reading::{checked_shown, reading_shown};
pub use token::tokens_shown;
