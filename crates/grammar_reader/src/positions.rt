//! Where in a text a state is, as far as the names of what isn't supported speak of it.

ghost use Rattle.std.specs.Prelude.{◌≡◌};
ghost use Rattle.grammar_reader_machine.specs.Machine as m;
ghost use Rattle.grammar_reader.specs.Positions as at;
ghost use Rattle.grammar_reader_machine.specs.View.{item_position_of, lex_body_of, lexer_state, parser_state, state_of, top_body_of, top_state, value_of};

use grammar_reader_machine::{
    EndPosition, Head, ItemPosition, LexBody, LexerPosition, ParserPosition, State, TopBody,
    ValueOf,
};

/// Before the first word.
pub fn at_start(state: &State) -> bool
    ensures { result ≡ at.at_start (state_of state.now) }
{
    matches!(state, State::Start)
}

/// Where a prequel or a rule may begin.
pub fn at_rule(state: &State) -> bool
    ensures { result ≡ at.at_rule (state_of state.now) }
{
    matches!(state, State::Prequel(_) | State::Rule(_))
}

/// Where `:` may follow.
pub fn at_colon(state: &State) -> bool
    ensures { result ≡ at.at_colon (state_of state.now) }
{
    matches!(state, State::Head(_, _) | State::Colon(_, _))
}

/// Where the name of an option may follow.
pub fn at_option(state: &State) -> bool
    ensures { result ≡ at.at_option (state_of state.now) }
{
    match state {
        State::Entry(_, _) => true,
        _ => false,
    }
}

/// Directly after the name of a parser rule.
pub fn after_name(state: &State) -> bool
    ensures { result ≡ at.after_name (state_of state.now) }
{
    match state {
        State::Head(_, head) => matches!(head, Head::Parser(_)),
        _ => false,
    }
}

fn in_opening(value: &ValueOf) -> bool
    ensures { result ≡ at.in_opening (value_of value.now) }
{
    matches!(value, ValueOf::Opening(_))
}

/// Between `:` and `;` of a parser rule.
pub fn within_parser_rule(state: &State) -> bool
    ensures { result ≡ at.within_parser_rule (state_of state.now) }
{
    match state {
        State::Parser(_, _) => true,
        State::Value(value) => in_opening(value),
        State::Path(value) => in_opening(value),
        State::PathName(value) => in_opening(value),
        State::AfterValue(value) => in_opening(value),
        _ => false,
    }
}

/// Between `:` and `;` of a lexer rule.
pub fn within_lexer_rule(state: &State) -> bool
    ensures { result ≡ at.within_lexer_rule (state_of state.now) }
{
    matches!(state, State::Lexer(_, _) | State::Top(_, _))
}

/// Directly after a suffix.
pub fn after_suffix(state: &State) -> bool
    ensures { result ≡ at.after_suffix (state_of state.now) }
{
    match state {
        State::Parser(_, position) => matches!(position, ParserPosition::Suffixed),
        State::Lexer(_, position) => matches!(
            position,
            LexerPosition::Suffixed | LexerPosition::SetStar(_)
        ),
        _ => false,
    }
}

/// Directly after a non-greedy loop.
pub fn after_loop(state: &State) -> bool
    ensures { result ≡ at.after_loop (state_of state.now) }
{
    match state {
        State::Top(_, position) => matches!(position, EndPosition::Loop(_)),
        _ => false,
    }
}

/// Directly after what follows a non-greedy loop.
pub fn after_last(state: &State) -> bool
    ensures { result ≡ at.after_last (state_of state.now) }
{
    match state {
        State::Top(_, position) => matches!(position, EndPosition::Done),
        _ => false,
    }
}

/// After `->` in its alternative.
pub fn after_arrow(state: &State) -> bool
    ensures { result ≡ at.after_arrow (state_of state.now) }
{
    match state {
        State::Top(_, position) => !matches!(position, EndPosition::Loop(_) | EndPosition::Done),
        _ => false,
    }
}

/// Where an element of a parser rule may begin.
fn at_element(position: &ParserPosition) -> bool
    ensures { (b : m.Body) → result ≡ at.at_element (parser_state b position.now) }
{
    matches!(
        position,
        ParserPosition::Alt
            | ParserPosition::Elements
            | ParserPosition::Suffixed
            | ParserPosition::Name(_)
            | ParserPosition::After(_)
    )
}

fn is_alone(position: &ItemPosition) -> bool
    ensures { result ≡ at.is_alone (item_position_of position.now) }
{
    matches!(position, ItemPosition::Alone)
}

/// Where an element of a lexer rule may begin.
fn at_lex_element(position: &LexerPosition) -> bool
    ensures { (b : m.LexBody) → result ≡ at.at_lex_element (lexer_state b position.now) }
{
    match position {
        LexerPosition::ItemChar(item, _) => is_alone(item),
        LexerPosition::RangeEnd(_) => false,
        LexerPosition::Item => false,
        LexerPosition::ItemIn(_) => false,
        LexerPosition::ItemEnd(_, _) => false,
        LexerPosition::AfterItem(_) => false,
        _ => true,
    }
}

/// After elements of a lexer rule, or after what follows a non-greedy loop.
pub fn ends_lex_alt(state: &State) -> bool
    ensures { result ≡ at.ends_lex_alt (state_of state.now) }
{
    match state {
        State::Lexer(_, position) => at_lex_element(position),
        State::Top(_, position) => matches!(position, EndPosition::Done),
        _ => false,
    }
}

/// Where the bracket of a block may follow, if one more may be open.
pub fn at_block(state: &State) -> bool
    ensures { result ≡ at.at_block (state_of state.now) }
{
    match state {
        State::Parser(_, position) => at_element(position)
            || matches!(position, ParserPosition::Atom),
        State::Lexer(_, position) => at_lex_element(position),
        _ => false,
    }
}

/// Whether an alternative may have a command, as far as those before it show.
fn may_command(known: Option<bool>) -> bool
    ensures { result ≡ at.may_command known }
{
    match known {
        Some(gap) => gap,
        None => true,
    }
}

fn no_block(body: &LexBody) -> bool
    ensures { result ≡ at.no_block (lex_body_of body.now).enclosing }
{
    body.enclosing.is_empty()
}

fn top_arrow(body: &LexBody) -> bool
    ensures { result ≡ at.top_arrow (lex_body_of body.now) }
{
    no_block(body) && may_command(body.known)
}

fn lexer_arrow(body: &LexBody, position: &LexerPosition) -> bool
    ensures { result ≡ at.at_arrow (lexer_state (lex_body_of body.now) position.now) }
{
    at_lex_element(position) && top_arrow(body)
}

fn done_arrow(body: &TopBody, position: &EndPosition) -> bool
    ensures { result ≡ at.at_arrow (top_state (top_body_of body.now) position.now) }
{
    matches!(position, EndPosition::Done) && may_command(body.known)
}

/// Where `->` may follow.
pub fn at_arrow(state: &State) -> bool
    ensures { result ≡ at.at_arrow (state_of state.now) }
{
    match state {
        State::Lexer(body, position) => lexer_arrow(body, position),
        State::Top(body, position) => done_arrow(body, position),
        _ => false,
    }
}

/// Where an element may begin or `|` may follow, in a parser rule.
fn parser_takes_action(position: &ParserPosition) -> bool
    ensures { (b : m.Body) → result ≡ at.takes_action (parser_state b position.now) }
{
    at_element(position)
        || matches!(
            position,
            ParserPosition::AfterRef(_) | ParserPosition::AfterAltName
        )
}

/// Where an element may begin or `|` may follow, in a lexer rule.
fn lexer_takes_action(position: &LexerPosition) -> bool
    ensures { (b : m.LexBody) → result ≡ at.takes_action (lexer_state b position.now) }
{
    at_lex_element(position)
        || matches!(
            position,
            LexerPosition::ItemChar(_, _) | LexerPosition::AfterItem(_)
        )
}

/// Where an element, `|`, `;` or `->` may follow.
pub fn takes_action(state: &State) -> bool
    ensures { result ≡ at.takes_action (state_of state.now) }
{
    match state {
        State::Semicolon(_) => true,
        State::Path(value) => !in_opening(value),
        State::AfterValue(value) => !in_opening(value),
        State::Parser(_, position) => parser_takes_action(position),
        State::Lexer(_, position) => lexer_takes_action(position),
        State::Top(_, position) => matches!(
            position,
            EndPosition::Loop(_) | EndPosition::Done | EndPosition::AfterCommand
        ),
        _ => false,
    }
}
