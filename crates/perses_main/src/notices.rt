//! What the program says on standard error. Nothing of it changes a result or a status.

use command_perses::Ended;
use command_resume::AsideFault;
use command_words::{CommandLine, ModeLine, NamedGrammar, ReduceLine, journal_name, read_words};
use edge_io::{DiskFiles, StreamSink};
use notice_counts::{
    CountedGate, CountedJournal, Counts, Plan, RunKind, Screen, ScreenOutput, Style, draw_until_end,
};
use notice_ends::{Ending, LastAsk, Reasons, ending_text, warnings};
use notice_words::{USAGE, word_fault};
use reduce_step::TreeMode;
use script_gate::ProcessGate;
use std::io::{IsTerminal, Stderr};
use std::rt::Env;
use std::sync::{Arc, Wait};
use std::thread::{JoinHandle, Threads};
use std::time::{Clock, Duration, Instant};
use std::{fs, io, str, thread};
use worker_pool::Worker;

/// The gate of a worker: it runs the script, and is counted.
pub type ScriptGate = CountedGate<ProcessGate<HostRuntime>, HostRuntime>;
/// The journal, which is counted.
pub type Journal = CountedJournal<StreamSink<HostRuntime>>;
/// Standard output, before which the drawn line goes.
pub type Output = ScreenOutput<StreamSink<HostRuntime>, Stderr>;

/// The columns of a terminal that doesn't say how many it has.
const WIDTH: usize = 80;

/// What is counted and drawn of a run.
#[derive(Drop)]
pub struct Notices {
    counts: Arc<Counts>,
    screen: Arc<Screen>,
    began: Option<Instant>,
    width: usize,
    wanted: bool,
}

/// The number that a variable of the environment is.
fn number_in(rt: &HostRuntime, name: &str) -> Option<usize> {
    let mut digits = [0u8; 8];
    let length = rt.var(name, &mut digits).ok()?;
    str::from_utf8(digits.get(..length)?).ok()?.parse().ok()
}

impl Notices {
    /// Before a run. Where standard error is closed nothing is wanted on it: its number is that of the next
    /// file that is opened.
    pub fn new(rt: &HostRuntime) -> io::Result<Notices> {
        let width = number_in(rt, "COLUMNS").unwrap_or(WIDTH);
        let wanted = number_in(rt, "PERSES_QUIET") != Some(1)
            && fs::metadata(rt, "/dev/fd/2").is_ok();
        Ok(Notices {
            counts: Arc::new(rt.alloc(), Counts::new())?,
            screen: Arc::new(rt.alloc(), Screen::new())?,
            began: Instant::now(rt).ok(),
            width: width.clamp(20, 1000),
            wanted,
        })
    }

    /// A gate that runs the script, and is counted.
    pub fn gate(&self, rt: &HostRuntime) -> io::Result<ScriptGate> {
        let gate = ProcessGate::new(rt.clone()?, rt.alloc());
        Ok(CountedGate::new(gate, rt.clone()?, Arc::try_clone(&self.counts)?))
    }

    /// A journal that is counted.
    pub fn journal(&self, rt: &HostRuntime) -> io::Result<Journal> {
        let sink = StreamSink::file(rt.clone()?);
        Ok(CountedJournal::new(rt.alloc(), sink, Arc::try_clone(&self.counts)?))
    }

    /// Standard output, before which the drawn line goes.
    pub fn output(&self, rt: &HostRuntime) -> io::Result<Output> {
        let sink = StreamSink::output(rt.clone()?);
        Ok(ScreenOutput::new(sink, rt.stderr(), Arc::try_clone(&self.screen)?))
    }

    /// Warns of what went wrong beside the run.
    pub fn warn(&self, rt: &HostRuntime, fault: &AsideFault) {
        if self.wanted {
            let _ = rt
                .stderr()
                .print(format_args!("perses: warning: {fault}\n"));
        }
    }

    /// Warns of what will go wrong, and begins to draw, where the words are a command line of `reduce`.
    pub fn begin<W: Threads + Wait + Clock + Copy + Send + 'static>(
        &self,
        threads: &W,
        rt: &HostRuntime,
        words: &[String],
    ) -> Option<JoinHandle<()>> {
        if !self.wanted {
            return None;
        }
        let Ok(Some(CommandLine::Reduce(line))) = read_words(rt.alloc(), words) else {
            return None;
        };
        if let Ok(journal) = journal_name(rt.alloc(), &line)
            && let Ok(text) = warnings(rt, &line, journal.as_str())
        {
            let _ = rt.stderr().print(text);
        }
        self.draw(threads, rt, &line)
    }

    /// Begins to draw in a thread of its own.
    fn draw<W: Threads + Wait + Clock + Copy + Send + 'static>(
        &self,
        threads: &W,
        rt: &HostRuntime,
        line: &ReduceLine<'_>,
    ) -> Option<JoinHandle<()>> {
        let plan = Plan {
            style: self.style(rt)?,
            kind: kind_of(line),
            began: self.began?,
        };
        let counts = Arc::try_clone(&self.counts).ok()?;
        let screen = Arc::try_clone(&self.screen).ok()?;
        let (clock, alloc, to) = (*threads, rt.alloc(), rt.stderr());
        let drawn = thread::spawn(threads, move || {
            draw_until_end(&clock, alloc, &to, &screen, &counts, plan)
        });
        drawn.ok()
    }

    /// How lines are drawn, where they are.
    fn style(&self, rt: &HostRuntime) -> Option<Style> {
        if rt.stderr().is_terminal() {
            return Some(Style::OneLine { width: self.width });
        }
        if number_in(rt, "PERSES_PROGRESS") == Some(1) {
            return Some(Style::EachLine);
        }
        None
    }

    /// Ends the drawing, and says what the end means.
    pub fn end(
        &self,
        rt: &HostRuntime,
        words: &[String],
        files: &DiskFiles<HostRuntime>,
        workers: &[Worker<ScriptGate>],
        ended: &Ended<Journal>,
        out: &Output,
    ) {
        self.screen.end(&rt.stderr());
        if !self.wanted {
            return;
        }
        match read_words(rt.alloc(), words) {
            Ok(Some(line)) => self.print_ending(rt, &line, files, workers, ended, out),
            Ok(None) if ended.status == 2 => print_usage(rt, words),
            _ => {}
        }
    }

    /// Says what the end means.
    fn print_ending(
        &self,
        rt: &HostRuntime,
        line: &CommandLine<'_>,
        files: &DiskFiles<HostRuntime>,
        workers: &[Worker<ScriptGate>],
        ended: &Ended<Journal>,
        out: &Output,
    ) {
        let journal = journal_of(rt, line);
        let Names {
            grammar,
            lexer,
            input,
            result,
        } = names_in(line);
        let ending = Ending {
            line,
            status: ended.status,
            journal: journal.as_str(),
            took: self.took(rt),
            counted: self.counts.snapshot(),
            reasons: Reasons {
                files: files.reason(),
                journal: ended.journal.inner().reason(),
                out: out.inner().reason(),
            },
            grammar: files.first_read(grammar),
            lexer: files.first_read(lexer),
            input: files.first_read(input),
            result: files.first_read(result),
            ask: last_ask(workers),
            width: self.width,
        };
        if let Ok(text) = ending_text(rt.alloc(), &ending) {
            let _ = rt.stderr().print(text);
        }
    }

    /// How long the run took.
    fn took(&self, rt: &HostRuntime) -> Duration {
        match self.began {
            Some(began) => began.elapsed(rt).unwrap_or(Duration::ZERO),
            None => Duration::ZERO,
        }
    }
}

/// What is known of a run before it begins.
fn kind_of(line: &ReduceLine<'_>) -> RunKind {
    let mode = match line.mode {
        ModeLine::Lines => "lines",
        ModeLine::ByGrammar(by) => match by.mode {
            TreeMode::Perses => "perses",
            TreeMode::Hdd => "hdd",
        },
    };
    RunKind {
        mode,
        jobs: line.jobs,
    }
}

/// The path of the journal; empty where there is none, or memory ran out.
fn journal_of(rt: &HostRuntime, line: &CommandLine<'_>) -> String {
    let none = String::new(rt.alloc());
    match line {
        CommandLine::Reduce(line) => journal_name(rt.alloc(), line).unwrap_or(none),
        _ => none,
    }
}

/// The paths of the files that are read; empty where there is none.
struct Names<'a> {
    grammar: &'a str,
    lexer: &'a str,
    input: &'a str,
    result: &'a str,
}

/// This input, without a grammar.
fn input_alone<'a>(input: &'a str) -> Names<'a> {
    Names {
        grammar: "",
        lexer: "",
        input,
        result: "",
    }
}

/// The files of this grammar, and this input.
fn names_of<'a>(grammar: NamedGrammar<'a>, input: &'a str) -> Names<'a> {
    Names {
        grammar: grammar.path,
        lexer: grammar.lexer.unwrap_or(""),
        input,
        result: "",
    }
}

/// The files of this mode, and this input.
fn names_by<'a>(mode: ModeLine<'a>, input: &'a str) -> Names<'a> {
    match mode {
        ModeLine::ByGrammar(by) => names_of(by.grammar, input),
        ModeLine::Lines => input_alone(input),
    }
}

/// The paths of the files that the command reads.
fn names_in<'a>(line: &CommandLine<'a>) -> Names<'a> {
    match line {
        CommandLine::Normal(grammar) => names_of(*grammar, ""),
        CommandLine::Reduce(line) => names_by(line.mode, line.input),
        CommandLine::Check(line) => {
            let mut names = names_by(line.mode, line.input);
            names.result = line.output;
            names
        }
        CommandLine::Selftest(_) => input_alone(""),
    }
}

/// The last ask of a worker whose script failed, or else of one that was asked.
fn last_ask(workers: &[Worker<ScriptGate>]) -> Option<LastAsk<'_>> {
    let mut found = None;
    for worker in workers {
        let gate = worker.gate.inner();
        let ask = LastAsk {
            script: gate.script(),
            file: gate.file(),
            end: gate.last_end(),
            fault: gate.last_fault(),
        };
        if ask.fault.is_some() {
            return Some(ask);
        }
        if ask.end.is_some() {
            found = Some(ask);
        }
    }
    found
}

/// Says what is wrong with the words, and how the program is used.
fn print_usage(rt: &HostRuntime, words: &[String]) {
    if let Some(fault) = word_fault(words) {
        let _ = rt.stderr().print(format_args!("perses: {fault}\n{USAGE}"));
    }
}
