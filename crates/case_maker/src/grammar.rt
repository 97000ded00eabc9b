//! The grammar of the programs.

ghost use Rattle.std.specs.Prelude.{◌≡◌};
ghost use Rattle.case_maker.specs.Mini.{mini_text};

/// The grammar Mini, of a small language with functions, statements, operators and comments. Its
/// first rule is its start.
pub fn mini_grammar() -> &'static [u8]
    ensures { result.now ≡ mini_text }
{
    MINI.as_bytes()
}

/// The text that [`mini_grammar`] gives, as characters.
pub const MINI: &str = r##"grammar Mini;
file : func* EOF ;
func : type ID '(' params? ')' block ;
params : type ID (',' type ID)* ;
type : 'int' | 'char' ;
block : '{' stmt* '}' ;
stmt : type ID ('=' expr)? ';'
     | ID '=' expr ';'
     | 'if' '(' expr ')' block ('else' block)?
     | 'while' '(' expr ')' block
     | 'return' expr? ';'
     | block
     ;
expr : expr ('*' | '/') expr
     | expr ('+' | '-') expr
     | ID '(' (expr (',' expr)*)? ')'
     | '(' expr ')'
     | ID
     | INT
     | STR
     ;
ID : [a-zA-Z_] [a-zA-Z_0-9]* ;
INT : [0-9]+ ;
STR : '"' (~["\\\n] | '\\' .)* '"' ;
COMMENT : '/*' .*? '*/' -> skip ;
LINE : '//' ~[\n]* -> channel(HIDDEN) ;
WS : [ \t\r\n]+ -> skip ;
"##;
