//! What follows from the definitions. Each law is a function that does nothing: a caller calls it
//! so that its proof has the law.

ghost use Rattle.grammar_reader_words.specs.Spans.{WordsAreAtSpans, WordsFromOn};

/// The words of a text are where its spans say, in their order.
pub fn words_are_at_spans()
    ensures { WordsAreAtSpans }
{}

/// Where a byte cuts neither a word nor a comment, the words from there on are those of the text that
/// begin there or later.
pub fn words_from_on()
    ensures { WordsFromOn }
{}
