//! The laws of the tokens of any text, for the proofs of other crates: each is a function that does nothing.

ghost use Rattle.token_print.specs.LexingLaws.{EachTextIsRead, GapsAndSpellingsAreText, GapsAreGapPieces, GapsAreSlices, RunsAreText, TokensAreInOrder};
ghost use Rattle.token_print.specs.LexingLaws.{TokensArePieces, TokensAreUnique, TokensAreLongestMatches, TokensHaveKinds, TokensHaveNoStop};
ghost use Rattle.token_print.specs.Readings.{GapsAreFound, SpelledAreFound, TokensAreFound};
ghost use Rattle.token_print.specs.Spells.{EqualCharactersEqualBytes, SpelledKinds, SpelledOneWay};

/// A text has one list of tokens at most.
pub fn tokens_are_unique()
    ensures { TokensAreUnique }
{}

/// A text that has tokens has no offset where the reading stops.
pub fn tokens_have_no_stop()
    ensures { TokensHaveNoStop }
{}

/// In a well-formed grammar each text has tokens, or its reading stops at some offset.
pub fn each_text_is_read()
    ensures { EachTextIsRead }
{}

/// Each token has at least one byte, is within the text, and begins and ends between characters. The
/// tokens rise and don't overlap, so that they are no more than the bytes of the text.
pub fn tokens_are_in_order()
    ensures { TokensAreInOrder }
{}

/// A token's kind is one of the grammar's kinds, and neither a gap kind nor one that is merely
/// declared.
pub fn tokens_have_kinds()
    ensures { TokensHaveKinds }
{}

/// A token's spelling is what comes next at its start: the longest match of at least one character,
/// and that of the least kind on a tie.
pub fn tokens_are_longest_matches()
    ensures { TokensAreLongestMatches }
{}

/// The tokens of a text with their spellings are the pieces that aren't of gap kinds.
pub fn tokens_are_pieces()
    ensures { TokensArePieces }
{}

/// The gaps and the spellings of a text, one after another, are the text.
pub fn gaps_and_spellings_are_text()
    ensures { GapsAndSpellingsAreText }
{}

/// The gaps and spellings of tokens that follow each other are the text from where the first of these
/// gaps begins up to where the gap after the last token begins; and so many tokens have at least as
/// many bytes.
pub fn runs_are_text()
    ensures { RunsAreText }
{}

/// Each gap is a slice of the text that begins and ends between characters.
pub fn gaps_are_slices()
    ensures { GapsAreSlices }
{}

/// Each gap is cut into pieces of gap kinds, which are read from its beginning up to its end.
pub fn gaps_are_gap_pieces()
    ensures { GapsAreGapPieces }
{}

/// A text spells one list of kinds and spellings at most.
pub fn spelled_one_way()
    ensures { SpelledOneWay }
{}

/// A text that spells tokens has tokens of their kinds.
pub fn spelled_kinds()
    ensures { SpelledKinds }
{}

/// Texts are equal as characters exactly where they are equal as bytes.
pub fn equal_characters_equal_bytes()
    ensures { EqualCharactersEqualBytes }
{}

/// `tokens_in` gives the tokens that a text has, and none where its reading stops.
pub fn tokens_are_found()
    ensures { TokensAreFound }
{}

/// `is_gap` is true exactly where the text of the character is one piece of a gap kind.
pub fn gaps_are_found()
    ensures { GapsAreFound }
{}

/// `spells` is true exactly where the text spells the tokens.
pub fn spelled_are_found()
    ensures { SpelledAreFound }
{}
