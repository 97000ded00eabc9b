//! The states of the machine: what has been read so far, and where in the text that is.

ghost use Rattle.std.specs.Prelude.{◌≡◌, ◌+◌, length};

use crate::frame::{Frame, LexFrame};
use grammar_tree::{CharSet, Grammar, LexTerm, ParserTerm, Text, TokenRef};

/// A rule whose name is read.
#[derive(Drop)]
pub enum Head {
    Parser(Text),
    Lexer { name: Text, fragment: bool },
}

/// What options belong to.
#[derive(Drop)]
pub enum Owner {
    Text,
    Rule(Head),
}

/// What a value belongs to: an entry of options, or an option of an alternative.
#[derive(Drop)]
pub enum ValueOf {
    Entry(Grammar, Owner),
    Opening(Body),
}

/// A parser rule that is begun. Blocks are nested at most 64 deep.
#[derive(Drop)]
pub struct Body {
    /// The grammar so far.
    pub grammar: Grammar,
    pub name: Text,

    /// How many more blocks may be open, one in another.
    pub blocks_left: u32,

    /// The enclosing alternatives, outermost first.
    pub enclosing: Vec<Frame>,
    pub current: Frame,
    pub ghost depth: { blocks_left + length enclosing.items ≡ 64 },
}

/// A lexer rule that is begun. Blocks are nested at most 64 deep.
#[derive(Drop)]
pub struct LexBody {
    /// The grammar so far.
    pub grammar: Grammar,
    pub name: Text,
    pub fragment: bool,

    /// Whether the alternatives have commands, once one has ended.
    pub known: Option<bool>,

    /// How many more blocks may be open, one in another.
    pub blocks_left: u32,

    /// The enclosing alternatives, outermost first.
    pub enclosing: Vec<LexFrame>,
    pub current: LexFrame,
    pub ghost depth: { blocks_left + length enclosing.items ≡ 64 },
}

/// Where in a parser rule.
#[derive(Drop)]
pub enum ParserPosition {
    /// Before an alternative, which may begin with `<`.
    Alt,

    /// After `<`, and then after the name of the option.
    OpeningName,
    OpeningEquals,

    /// Before an element or the end of the alternative, and so after a suffix.
    Elements,
    Suffixed,

    /// After a name, which may be a label.
    Name(ParserTerm),

    /// After a label.
    Atom,

    /// After an atom, which may have a suffix.
    After(ParserTerm),

    /// After `~`; in its brackets, before and after a reference.
    Ref,
    RefIn(Vec<TokenRef>),
    AfterRef(Vec<TokenRef>),

    /// After `#`, and then after the alternative's name.
    AltName,
    AfterAltName,
}

/// Where an item is: alone after `~`, or in brackets after the ranges of the items before.
#[derive(Drop)]
pub enum ItemPosition {
    Alone,
    Listed(Vec<(u32, u32)>),
}

/// Where in a lexer rule.
#[derive(Drop)]
pub enum LexerPosition {
    /// Before an element or the end of the alternative, and so after a suffix.
    Elements,
    Suffixed,

    /// After an element that may have a suffix.
    After(LexTerm),

    /// After a literal, with which a range may begin, and after `..`.
    Literal(Text),
    RangeEnd(u32),

    /// After a set, with which a non-greedy loop may begin, and after its `*`.
    Set(CharSet),
    SetStar(CharSet),

    /// After `~`.
    Item,

    /// Before an item; after one of one character, with which a range may begin, and after `..`.
    ItemIn(ItemPosition),
    ItemChar(ItemPosition, u32),
    ItemEnd(ItemPosition, u32),

    /// After an item in brackets.
    AfterItem(Vec<(u32, u32)>),
}

/// A lexer rule that is begun, where no block is open.
#[derive(Drop)]
pub struct TopBody {
    /// The grammar so far.
    pub grammar: Grammar,
    pub name: Text,
    pub fragment: bool,

    /// Whether the alternatives have commands, once one has ended.
    pub known: Option<bool>,
    pub current: LexFrame,
}

/// Where at the end of an alternative of a lexer rule.
#[derive(Drop)]
pub enum EndPosition {
    /// After a non-greedy loop of the set.
    Loop(CharSet),

    /// After what follows a non-greedy loop.
    Done,

    /// After `->`.
    Command,

    /// After `channel`, its bracket and `HIDDEN`.
    ChannelOpen,
    ChannelName,
    ChannelClose,
    AfterCommand,
}

/// What has been read, and where in the text that is. The grammar is that of the words so far.
#[derive(Drop)]
pub enum State {
    /// Before the first word.
    Start,

    /// After `grammar`, and then after the name.
    Name,
    Semicolon(Text),

    /// Where a prequel or a rule may begin.
    Prequel(Grammar),

    /// Where a rule may begin.
    Rule(Grammar),

    /// After `options`.
    OptionsBrace(Grammar, Owner),

    /// Before an option's name, and then after it.
    Entry(Grammar, Owner),
    EntryEquals(Grammar, Owner),

    /// Before a value, after one of its names, and after its `.`.
    Value(ValueOf),
    Path(ValueOf),
    PathName(ValueOf),

    /// After a value that no `.` can follow.
    AfterValue(ValueOf),

    /// After `tokens`.
    TokensBrace(Grammar),

    /// Before a token, and after one.
    Token(Grammar),
    AfterToken(Grammar),

    /// After `fragment`.
    FragmentName(Grammar),

    /// After a rule's name, which options may follow, and after these.
    Head(Grammar, Head),
    Colon(Grammar, Head),

    /// Within a parser rule.
    Parser(Body, ParserPosition),

    /// Within a lexer rule.
    Lexer(LexBody, LexerPosition),

    /// At the end of an alternative of a lexer rule.
    Top(TopBody, EndPosition),

    /// After the end of the text.
    End(Grammar),
}
