//! Words.

ghost use Rattle.std.specs.Prelude.{◌≡◌};

use grammar_tree::Text;
use std::marker::Model;

/// What a set in square brackets holds, in written order: ranges of code units with both ends. A
/// range may run over surrogates, which are no characters.
#[derive(Drop)]
pub struct Ranges {
    items: Vec<(u32, u32)>,
}

impl Model for Ranges {
    ghost use Rattle.std.specs.Prelude.{List, ℕ};

    ghost Value = { List (ℕ × ℕ) };

    ghost view = { λ r. r.items.items };
}

impl Ranges {
    pub fn new(items: Vec<(u32, u32)>) -> Ranges
        ensures { result ≡ items.items }
    {
        Ranges { items }
    }

    pub fn as_slice(&self) -> &[(u32, u32)]
        ensures { result.now ≡ self.now }
    {
        self.items.as_slice()
    }
}

/// Words that are no names and that no grammar of the profile has.
#[derive(Clone, Copy, Debug, PartialEq, Eq, Drop)]
pub enum Reserved {
    Lexer,
    Parser,
    Import,
    Mode,
    /// Only where `{` follows.
    Channels,
    Returns,
    Locals,
    Throws,
    Catch,
    Finally,
    Public,
    Private,
    Protected,
}

/// A word of the notation.
#[derive(Drop)]
pub enum Word {
    Grammar,
    Fragment,

    /// Only where `{` follows, as is `Tokens`.
    Options,
    Tokens,
    Reserved(Reserved),

    /// A name that begins with an upper-case letter, `EOF` too.
    Upper(Text),
    Lower(Text),
    Number,

    /// The characters between the quotes, escapes read. There is at least one.
    Literal(Text),
    Set(Ranges),
    Colon,
    Semicolon,
    Bar,
    Open,
    Close,
    Question,
    Star,
    Plus,
    Tilde,
    Dot,
    /// `..`
    Dots,
    /// `->`
    Arrow,
    Equals,
    /// `+=`
    PlusEquals,
    Comma,
    Hash,
    Less,
    Greater,
    OpenBrace,
    CloseBrace,
    At,

    /// A set that is well formed but for `\p{..}` or `\P{..}` in it.
    Property,

    /// What is no word.
    Bad,

    /// The end of the text.
    End,
}

/// A word and the byte at which it begins, from 0.
#[derive(Drop)]
pub struct Placed {
    pub word: Word,
    pub offset: usize,
}
