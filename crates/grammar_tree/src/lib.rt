//! Grammars in the notation of ANTLR 4: their types, sets of characters, and what a grammar means.
//!
//! A [`Grammar`] is what a reader makes of a text. A [`Checked`] is a grammar that has no fault, with
//! its numbered token kinds and its start. Contracts see both as they are written; read
//! `specs/Written.antt` first, then `specs/Matches.antt` (which texts a lexer rule matches),
//! `specs/Derives.antt` (which lists of token kinds a parser rule derives) and `specs/Faults.antt`
//! (when a grammar is well-formed). The rule `s : 'a' s | 'b' ;` derives `b`, `a b`, `a a b`, .. Laws
//! say what each form of term matches or derives, and nothing else: begin with [`matches_by_form`] and
//! [`derives_by_form`].
#![tactic(auto)]

mod char_set;
mod checked;
mod laws;
mod lex_term;
mod parser_term;
mod rule;
mod suffix;
mod text;

pub use char_set::CharSet;
pub use checked::Checked;
pub use faults::Memory;
pub use laws::{
    base_then_rests, complement_twice, counts_fit, derives_by_form, each_fault_can_hold,
    kinds_are_rules, lexed_stops_nowhere, lexer_rules_have_places, lexes_one_way, matches_by_form,
    name_is_its_rule, pieces_cover, places_have_numbers, reads_one_way, rules_match_by_form,
    rules_match_greedily, same_chars_same_set, shortest_is_matched, some_is_well_formed,
    start_is_found, start_is_there, stops_once, well_formed_names,
};
pub use lex_term::{LexAlts, LexTerm, LexTerms};
pub use parser_term::{ParserAlts, ParserTerm, ParserTerms, TokenRef, TokenRefs};
pub use rule::{Grammar, Kind, KindSource, Rule};
pub use suffix::Suffix;
pub use text::Text;
