//! What command lines ask for.

use reduce_step::TreeMode;

/// A grammar.
#[derive(Clone, Copy, Debug)]
pub struct NamedGrammar<'a> {
    /// Its file, or that of its parser rules.
    pub path: &'a str,
    /// The file of its lexer rules; none where one file has all.
    pub lexer: Option<&'a str>,
    /// The name of its start rule; none where it is the first parser rule.
    pub start: Option<&'a str>,
}

/// What is said of a reduction by a grammar.
#[derive(Clone, Copy, Debug)]
pub struct GrammarLine<'a> {
    /// The grammar.
    pub grammar: NamedGrammar<'a>,
    /// How a round goes through a tree.
    pub mode: TreeMode,
    /// Whether the squeezed text of the whole tree is tried.
    pub squeeze: bool,
}

/// Which states are tried.
#[derive(Clone, Copy, Debug)]
pub enum ModeLine<'a> {
    /// Lists of the input's lines.
    Lines,
    /// Trees of a grammar.
    ByGrammar(GrammarLine<'a>),
}

/// Some lines, by the numbers of the first and the last, from 1.
#[derive(Clone, Copy, Debug, PartialEq, Eq)]
pub struct LineSpan {
    pub first: u32,
    pub last: u32,
}

/// Which lines of the input must stay.
#[derive(Debug, Drop)]
pub struct ProtectLine<'a> {
    /// These lines.
    pub lines: Vec<LineSpan>,
    /// Lines that hold one of these texts.
    pub texts: Vec<&'a str>,
    /// All lines but these; none where it isn't said.
    pub only: Option<LineSpan>,
}

/// What a command line of `reduce` gives.
#[derive(Debug, Drop)]
pub struct ReduceLine<'a> {
    /// Which states are tried.
    pub mode: ModeLine<'a>,
    /// Whether what is left takes shorter spellings. Only by a grammar.
    pub respell: bool,
    /// The file to be reduced.
    pub input: &'a str,
    /// The file that the result is written to.
    pub output: &'a str,
    /// The script that says whether a candidate is interesting.
    pub script: &'a str,
    /// The journal, where it is named: see [`journal_name`](crate::journal_name).
    pub journal: Option<&'a str>,
    /// The journal of an earlier run that is resumed, where one is named.
    pub resume: Option<&'a str>,
    /// The folder that candidates are written below.
    pub work: &'a str,
    /// How many workers ask scripts.
    pub jobs: u32,
    /// The texts that each candidate must hold, in their order.
    pub keeps: Vec<&'a str>,
    /// Which lines of the input must stay.
    pub protects: ProtectLine<'a>,
}

/// What a command line of `selftest` gives.
#[derive(Clone, Copy, Debug)]
pub struct SelftestLine {
    /// The number of the program that is made and reduced.
    pub number: u32,
    /// How many functions it has.
    pub size: u32,
    /// How a round goes through its tree.
    pub mode: TreeMode,
}

/// What a command line of `check` gives.
#[derive(Debug, Drop)]
pub struct CheckLine<'a> {
    /// Which states were tried.
    pub mode: ModeLine<'a>,
    /// The file that was reduced.
    pub input: &'a str,
    /// The file that is taken for the result.
    pub output: &'a str,
    /// The run's journal.
    pub journal: &'a str,
    /// The texts that each candidate must hold, in their order.
    pub keeps: Vec<&'a str>,
}

/// What a command line asks for.
#[derive(Debug, Drop)]
pub enum CommandLine<'a> {
    /// `reduce`: a file is reduced.
    Reduce(ReduceLine<'a>),
    /// `normal`: the normal form of this grammar is printed.
    Normal(NamedGrammar<'a>),
    /// `selftest`: a generated program is reduced in memory.
    Selftest(SelftestLine),
    /// `check`: a finished run is checked from its files.
    Check(CheckLine<'a>),
}
