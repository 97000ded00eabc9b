//! Grammars that several tests read.

pub use case_maker::MINI;

/// Statements over names and numbers.
pub const STATEMENTS: &str =
    "grammar E; file : stmt* EOF ; stmt : ID '=' expr ';' | '{' stmt* '}' ; expr : expr '+' expr | '(' expr ')' | ID | INT ; ID : [a-z]+ ; INT : [0-9]+ ; WS \
    : [ \\n]+ -> skip ;";

/// Two tokens whose texts together are a third one.
pub const JOINED: &str = "grammar J; s : 'a' ','? 'b' EOF ; AB : 'ab' ;";
