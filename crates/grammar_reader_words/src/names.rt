//! Names, and the words that are no names.

ghost use Rattle.std.specs.Prelude.{◌≡◌};
ghost use Rattle.std.specs.Str.{bytes_eq, chars};
ghost use Rattle.grammar_reader_words.specs.Names.{lower_word, word_before_brace};

use crate::word::{Reserved, Word};
use grammar_tree::Text;

/// Whether the name is the word.
pub fn is(name: &Text, word: &str) -> bool
    ensures { result ≡ bytes_eq name.now (chars word.now) }
{
    name.as_str() == word
}

/// A name that is another word where `{` follows.
pub fn word_before_brace(name: Text) -> Word
    ensures { result ≡ word_before_brace name }
{
    if is(&name, "options") {
        Word::Options
    } else if is(&name, "tokens") {
        Word::Tokens
    } else if is(&name, "channels") {
        Word::Reserved(Reserved::Channels)
    } else {
        Word::Lower(name)
    }
}

/// A name that begins with a lower-case letter, or the reserved word that it is.
pub fn lower_word(name: Text) -> Word
    ensures { result ≡ lower_word name }
{
    if is(&name, "grammar") {
        Word::Grammar
    } else if is(&name, "fragment") {
        Word::Fragment
    } else if is(&name, "lexer") {
        Word::Reserved(Reserved::Lexer)
    } else if is(&name, "parser") {
        Word::Reserved(Reserved::Parser)
    } else if is(&name, "import") {
        Word::Reserved(Reserved::Import)
    } else if is(&name, "mode") {
        Word::Reserved(Reserved::Mode)
    } else if is(&name, "returns") {
        Word::Reserved(Reserved::Returns)
    } else if is(&name, "locals") {
        Word::Reserved(Reserved::Locals)
    } else if is(&name, "throws") {
        Word::Reserved(Reserved::Throws)
    } else if is(&name, "catch") {
        Word::Reserved(Reserved::Catch)
    } else if is(&name, "finally") {
        Word::Reserved(Reserved::Finally)
    } else if is(&name, "public") {
        Word::Reserved(Reserved::Public)
    } else if is(&name, "private") {
        Word::Reserved(Reserved::Private)
    } else if is(&name, "protected") {
        Word::Reserved(Reserved::Protected)
    } else {
        Word::Lower(name)
    }
}
