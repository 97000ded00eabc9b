//! What a run begins with.

use crate::decoded;
use anyhow::{Result, bail};
use case_maker::{make_case, mini_grammar};
use edge_io::{CutSink, LoggedFiles, MemFiles, MemSink};
use script_gate_trait::Said;
use std::alloc::Global;

/// The most bytes that an output takes where nothing else is said.
const CAPACITY: u64 = 2_097_152;

/// What a run begins with.
#[derive(Drop)]
pub struct Case {
    /// The files, each with its name.
    pub files: Vec<(String, Vec<u8>)>,
    /// Which calls of the files fail, counted from 1.
    pub failing_calls: Vec<u64>,
    /// Which puts on the output fail, counted from 1.
    pub failing_puts: Vec<u64>,
    /// Which puts into the journal fail, counted from 1.
    pub failing_events: Vec<u64>,
    /// How many bytes the journal takes of a piece whose put fails.
    pub part: u64,
    /// The most bytes that the output takes.
    pub capacity: u64,
    /// The rule of each gate, as the number of a `RuleGate`.
    pub rule: u64,
    /// The answers of each gate in place of a rule, where there are any; the last one comes again and again.
    pub answers: Vec<Said>,
    /// Where it isn't 0: the gates go by the rule 98, and hold their asks until more than so many have begun.
    pub width: u32,
    /// The worker whose gate fails at each ask, where they are held; 0 for none.
    pub failing_worker: u32,
    /// Whether the calls of the files are printed.
    pub shows_calls: bool,
}

impl Case {
    /// No file, gates that always say yes, no call that fails, and an output that takes all.
    pub fn new(alloc: Global) -> Case {
        Case {
            files: Vec::new(alloc),
            failing_calls: Vec::new(alloc),
            failing_puts: Vec::new(alloc),
            failing_events: Vec::new(alloc),
            part: 0,
            capacity: CAPACITY,
            rule: 0,
            answers: Vec::new(alloc),
            width: 0,
            failing_worker: 0,
            shows_calls: false,
        }
    }

    /// Takes a line of a case, by its first word: `case TEXT`, `file NAME TEXT`, `more COUNT TEXT`
    /// (so many times at the end of the last file), `mini NAME` (a file with the grammar of the generated
    /// programs), `generated NAME NUMBER SIZE` (a file with such a program), `rule N`, `answers yes no fail ..`,
    /// `holding N` (asks are held until more than so many have begun), `failing_worker N` (its gate fails at each
    /// of these), `failing_calls N ..`, `failing_puts N ..`, `failing_events N ..` (puts into the journal), `part N`
    /// (so many bytes are put where one of these fails), `capacity N` and `showing_calls`.
    pub fn set(&mut self, alloc: Global, key: &str, text: &str) -> Result<()> {
        match key {
            "case" => *self = Case::new(alloc),
            "file" => self.add_file(alloc, text)?,
            "more" => self.lengthen(alloc, text)?,
            "mini" => self.add_bytes(alloc, text, Vec::from_slice(alloc, mini_grammar())?)?,
            "generated" => self.generate(alloc, text)?,
            "rule" => self.rule = text.parse::<u64>()?,
            "answers" => self.answers = answers_in(alloc, text)?,
            "holding" => self.width = text.parse::<u32>()?,
            "failing_worker" => self.failing_worker = text.parse::<u32>()?,
            "failing_calls" => self.failing_calls = numbers_in(alloc, text)?,
            "failing_puts" => self.failing_puts = numbers_in(alloc, text)?,
            "failing_events" => self.failing_events = numbers_in(alloc, text)?,
            "part" => self.part = text.parse::<u64>()?,
            "capacity" => self.capacity = text.parse::<u64>()?,
            "showing_calls" => self.shows_calls = true,
            _ => bail!("no such line: {key}"),
        }
        Ok(())
    }

    fn add_file(&mut self, alloc: Global, text: &str) -> Result<()> {
        let (name, content) = text.split_once(' ').unwrap_or((text, ""));
        self.add_bytes(alloc, name, decoded(alloc, content)?)
    }

    fn add_bytes(&mut self, alloc: Global, name: &str, bytes: Vec<u8>) -> Result<()> {
        let name = String::from_str(alloc, name)?;
        self.files.push((name, bytes))?;
        Ok(())
    }

    /// Adds a generated program, by the file's name, its number and its size.
    fn generate(&mut self, alloc: Global, text: &str) -> Result<()> {
        let (name, numbers) = text.split_once(' ').unwrap_or((text, ""));
        let (number, size) = numbers.split_once(' ').unwrap_or((numbers, ""));
        let size = size.parse::<u32>()?;
        if size < 1 || size > 1500 {
            bail!("no program has the size {size}");
        }
        let program = make_case(alloc, number.parse::<u32>()?, size)?;
        self.add_bytes(alloc, name, program)
    }

    fn lengthen(&mut self, alloc: Global, text: &str) -> Result<()> {
        let (count, piece) = text.split_once(' ').unwrap_or((text, ""));
        let piece = decoded(alloc, piece)?;
        if let Some((_, bytes)) = self.files.last_mut() {
            for _ in 0..count.parse::<u32>()? {
                bytes.extend_from_slice(&piece)?;
            }
        }
        Ok(())
    }

    /// The files in memory, which keep their calls.
    pub fn logged_files(&self, alloc: Global) -> Result<LoggedFiles<MemFiles>> {
        let mut files = Vec::new(alloc);
        for (name, bytes) in &self.files {
            files.push((
                String::from_str(alloc, name)?,
                Vec::from_slice(alloc, bytes)?,
            ))?;
        }
        let failing = Vec::from_slice(alloc, &self.failing_calls)?;
        Ok(LoggedFiles::new(alloc, MemFiles::new(alloc, files, failing)))
    }

    /// The journal in memory.
    pub fn mem_journal(&self, alloc: Global) -> Result<CutSink> {
        let failing = Vec::from_slice(alloc, &self.failing_events)?;
        Ok(CutSink::new(alloc, CAPACITY, failing, self.part)?)
    }

    /// The output in memory.
    pub fn mem_sink(&self, alloc: Global) -> Result<MemSink> {
        let failing = Vec::from_slice(alloc, &self.failing_puts)?;
        Ok(MemSink::new(alloc, self.capacity, failing)?)
    }
}

fn numbers_in(alloc: Global, text: &str) -> Result<Vec<u64>> {
    let mut numbers = Vec::new(alloc);
    for word in text.split(' ') {
        numbers.push(word.parse::<u64>()?)?;
    }
    Ok(numbers)
}

fn answers_in(alloc: Global, text: &str) -> Result<Vec<Said>> {
    let mut answers = Vec::new(alloc);
    for word in text.split(' ') {
        answers.push(match word {
            "yes" => Said::Yes,
            "no" => Said::No,
            "fail" => Said::Fail,
            _ => bail!("no answer: {word}"),
        })?;
    }
    Ok(answers)
}
