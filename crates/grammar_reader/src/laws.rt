//! The laws.

ghost use Rattle.grammar_reader.specs.Laws.{FaultsAreNamed, GoesOnInTexts, StopsOutside, TextsAreRead, TextsEnd};

/// The machine goes on as long as the words begin a text of the notation. What it reads to the end is
/// a text, and at the end of a text it has the grammar that the text spells.
pub fn texts_are_read()
    ensures read { TextsAreRead }
    ensures ended { TextsEnd }
    ensures goes_on { GoesOnInTexts }
    ensures stops { StopsOutside }
{}

/// A word at which the machine stops is called what the notation calls it.
pub fn faults_are_named()
    ensures { FaultsAreNamed }
{}
