//! How texts are printed.

/// How the text between kept tokens is printed.
#[derive(Clone, Copy, Debug, PartialEq, Eq)]
pub enum Style {
    /// The gaps between tokens that follow each other in the start are kept, and so are the leading
    /// gap and the trailing one beside a kept token.
    AsWas,

    /// No gap is kept: there is one separator between two tokens, and at most a newline at the end.
    Squeezed,
}

/// Which of the characters that separate tokens a lexer skips: it skips a character where the text
/// of that character alone is one piece of a gap kind.
#[derive(Clone, Copy, Debug, PartialEq, Eq)]
pub struct Skips {
    pub newline: bool,
    pub space: bool,
}
