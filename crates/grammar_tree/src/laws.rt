//! What follows from the definitions. Each law is a function that does nothing: a caller calls it
//! so that its proof has the law.

ghost use Rattle.std.specs.Prelude.{List};
ghost use Rattle.grammar_tree.specs.Derives.{Alts};
ghost use Rattle.grammar_tree.specs.Laws.{BaseThenRests, ComplementTwice, DerivesByForm, LexesOneWay, EachFaultCanHold, LexedStopsNowhere, MatchesByForm};
ghost use Rattle.grammar_tree.specs.Laws.{PiecesCover, ReadsOneWay, RulesMatchByForm, RulesMatchGreedily, SameCharsSameSet, ShortestIsMatched};
ghost use Rattle.grammar_tree.specs.Laws.{SomeIsWellFormed, StartIsThere, StopsOnce};
ghost use Rattle.grammar_tree.specs.Places.{CountsFit, KindsAreRules, LexerRulesHavePlaces, NameIsItsRule, PlacesHaveNumbers, StartIsFound, WellFormedNames};
ghost use Rattle.grammar_tree.specs.Written.{LexerRule, WrittenGrammar};

/// Two sets with the same characters are equal.
pub fn same_chars_same_set()
    ensures { SameCharsSameSet }
{}

/// The complement of the complement of a set is the set.
pub fn complement_twice()
    ensures { ComplementTwice }
{}

/// How each form of lexer term matches: a block as one of its alternatives, a star as nothing or as
/// its term with a star after it, and so on. Nothing else matches.
pub fn matches_by_form()
    ensures { (rules : List LexerRule) → MatchesByForm rules }
{}

/// A non-greedy alternative matches no text that goes on from another text that it matches.
pub fn shortest_is_matched()
    ensures { ShortestIsMatched }
{}

/// What a rule matches, its alternatives match greedily. Where no alternative is non-greedy, that
/// is all.
pub fn rules_match_greedily()
    ensures { (rules : List LexerRule) → RulesMatchGreedily rules }
{}

/// A rule matches what one of its alternatives does, and nothing else.
pub fn rules_match_by_form()
    ensures { (rules : List LexerRule) → RulesMatchByForm rules }
{}

/// In a well-formed grammar a name that a lexer rule uses matches what the rule of this name does.
pub fn name_is_its_rule()
    ensures { NameIsItsRule }
{}

/// How each form of term derives in a parser rule: a rule as one of its alternatives, a star as
/// nothing or as its term with a star after it, and so on. Nothing else is derived.
pub fn derives_by_form()
    ensures { (bodies : List Alts) → DerivesByForm bodies }
{}

/// A rule derives what one of its bases does, followed by any number of its rests: nothing but a
/// base where no alternative is directly recursive.
pub fn base_then_rests()
    ensures { BaseThenRests }
{}

/// The pieces that a text is cut into, one after another, are the text.
pub fn pieces_cover()
    ensures { PiecesCover }
{}

/// A text is cut into pieces in one way at most.
pub fn lexes_one_way()
    ensures { LexesOneWay }
{}

/// From a text to the same rest the pieces are read in one way at most.
pub fn reads_one_way()
    ensures { ReadsOneWay }
{}

/// A text that is cut into pieces has no offset where the reading stops.
pub fn lexed_stops_nowhere()
    ensures { LexedStopsNowhere }
{}

/// The reading of a text stops at one offset at most.
pub fn stops_once()
    ensures { StopsOnce }
{}

/// Each place of a parser rule has a number, which finds its alternatives, and each number
/// is some place's.
pub fn places_have_numbers()
    ensures { (grammar : WrittenGrammar) → PlacesHaveNumbers grammar }
{}

/// Each lexer rule is at some place.
pub fn lexer_rules_have_places()
    ensures { LexerRulesHavePlaces }
{}

/// In a well-formed grammar each name and literal means something, and no name for two rules.
pub fn well_formed_names()
    ensures { WellFormedNames }
{}

/// Each kind of a lexer rule is that of a rule that isn't a fragment, and each such rule has one.
pub fn kinds_are_rules()
    ensures { (grammar : WrittenGrammar) → KindsAreRules grammar }
{}

/// A grammar has no more kinds, rules and declared tokens than its size says.
pub fn counts_fit()
    ensures { (grammar : WrittenGrammar) → CountsFit grammar }
{}

/// The start rule is found exactly where it is there.
pub fn start_is_found()
    ensures { (grammar : WrittenGrammar) → StartIsFound grammar }
{}

/// The place of the start rule has a parser rule, which has the wanted name.
pub fn start_is_there()
    ensures { StartIsThere }
{}

/// Some grammar is well-formed.
pub fn some_is_well_formed()
    ensures { SomeIsWellFormed }
{}

/// Each fault holds of some grammar.
pub fn each_fault_can_hold()
    ensures { EachFaultCanHold }
{}
