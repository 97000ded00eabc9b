//! The list step as a machine that is asked and answered.

ghost use Rattle.std.specs.Prelude.{◌≡◌, ◌+◌, ◌*◌, ◌/◌, ◌^◌, ◌<◌, ◌≤◌, ◌↔◌, length, IfOk, IsSome, option_copied, MatchOption, Some, None, if◌then◌else◌};
ghost use Rattle.list_ddmin.specs.ListStep.{border, kept_count, kept_where};
ghost use Rattle.list_ddmin.specs.Machine.{IsSound, after, asks, kept, start};
ghost use Rattle.list_ddmin.specs.inner.Fields.{begun_phase, chosen, first_phase_of, next_phase, Numbered, Marks};

use faults::Memory;
use std::alloc::Global;
use std::marker::Model;

/// What is asked next. `n` is the number of parts, and `at` counts them from 0.
#[derive(Clone, Copy, Debug)]
enum Phase {
    /// Whether all elements may go.
    Nothing,

    /// The part number `at`.
    Parts { n: u32, at: u32 },

    /// All kept elements that aren't in the part number `at`.
    Complements { n: u32, at: u32 },

    /// Nothing more.
    End,
}

/// The list step over a list, as a machine that is asked and answered.
///
/// A keep list has a flag for each element of the list at the start, in their order: true keeps the
/// element. Between a yes and the next one the machine goes through the candidates in the order of
/// ddmin: the empty list once at the start, where it may be tried; then the parts, and then their
/// complements; then the same with twice as many parts.
#[derive(Debug, Drop)]
pub struct Ddmin {
    keep: Vec<bool>,

    /// Holds the present question, so that `asks` can lend it and `answer` needs no memory.
    asked: Vec<bool>,
    phase: Phase,
}

impl Model for Ddmin {
    ghost use Rattle.list_ddmin.specs.Machine.{State};

    ghost Value = { State };

    ghost use Rattle.list_ddmin.specs.inner.Fields.{state_of, Agrees};

    ghost view = { λ d. state_of d.phase d.keep.items };

    ghost invariant = { λ d. Agrees d.phase d.keep.items d.asked.items };
}

impl Ddmin {
    /// The list step over `len` elements, which are all kept at first. It takes time and memory
    /// linear in `len`.
    pub fn new(alloc: Global, len: u32, may_be_empty: bool) -> Result<Ddmin, Memory>
        ensures { IfOk result (λ machine. machine ≡ start len may_be_empty) }
    {
        let keep = vec![in alloc; true; len as usize]?;
        let mut asked = vec![in alloc; false; len as usize]?;
        let phase = first_phase(len, may_be_empty);
        mark_candidate(&mut asked, &keep, phase, len);
        Ok(Ddmin { keep, asked, phase })
    }

    /// Which elements the next candidate keeps. None where the list step is at its end. It takes
    /// constant time.
    pub fn asks(&self) -> Option<&[bool]>
        ensures question { option_copied result ≡ asks self.now }
        ensures sound { IsSound self.now }
    {
        match self.phase {
            Phase::End => None,
            _ => Some(self.asked.as_slice()),
        }
    }

    /// Takes the answer to what is asked: yes where the candidate will do. It takes no memory, and
    /// time linear in the number of elements of the list at the start.
    pub fn answer(&mut self, yes: bool)
        requires { IsSome (asks self.old) }
        ensures { self.new ≡ after self.old yes }
    {
        keep_asked(&mut self.keep, &mut self.asked, yes);
        let size = count_kept(&self.keep);
        self.phase = phase_after(self.phase, yes, size);
        mark_candidate(&mut self.asked, &self.keep, self.phase, size);
    }

    /// The elements that the last yes kept, and all of them before a yes.
    pub fn kept(&self) -> &[bool]
        ensures { result.now ≡ kept self.now }
    {
        self.keep.as_slice()
    }

    /// An equal machine, which goes on by its own answers. It takes time and memory linear in the
    /// number of elements of the list at the start.
    pub fn copy(&self) -> Result<Ddmin, Memory>
        ensures { IfOk result (λ machine. machine ≡ self.now) }
    {
        Ok(Ddmin {
            keep: self.keep.clone()?,
            asked: self.asked.clone()?,
            phase: self.phase,
        })
    }
}

/// At yes what was asked is kept. The other list is filled anew before it is read again.
fn keep_asked(keep: &mut Vec<bool>, asked: &mut Vec<bool>, yes: bool)
    ensures kept { keep.new.items ≡ (if yes then asked.old.items else keep.old.items) }
    ensures other { asked.new.items ≡ (if yes then keep.old.items else asked.old.items) }
{
    if yes {
        std::mem::swap(keep, asked);
    }
}

/// How many elements are kept.
fn count_kept(keep: &[bool]) -> u32
    requires { length keep.now < 2 ^ 32 }
    ensures { result ≡ kept_count keep.now }
{
    let mut size = 0;
    for kept in keep {
        if *kept {
            size += 1;
        }
    }
    size
}

/// Where part `i` of `n` begins.
pub(crate) fn border_of(size: u32, n: u32, i: u32) -> u32
    requires some { 0 < n }
    requires within { i ≤ n }
    ensures { result ≡ border size n i }
{
    (i as u64 * size as u64 / n as u64) as u32
}

/// Marks the kept elements whose place, counted over the kept ones, is from `low` on and below
/// `high`, or all other kept elements where `inside` is false.
fn mark_places(asked: &mut [bool], keep: &[bool], low: u32, high: u32, inside: bool)
    requires same { length asked.old ≡ length keep.now }
    requires few { length keep.now < 2 ^ 32 }
    ensures { asked.new ≡ kept_where (chosen low high inside) 0 keep.now }
{
    let mut place: u32 = 0;
    for k in 0..keep.len() {
        let kept = keep[k];
        let within = low <= place && place < high;
        asked[k] = kept && within == inside;
        if kept {
            place += 1;
        }
    }
}

/// Marks what the next candidate keeps, where `size` elements are kept.
fn mark_candidate(asked: &mut [bool], keep: &[bool], phase: Phase, size: u32)
    requires same { length asked.old ≡ length keep.now }
    requires few { length keep.now < 2 ^ 32 }
    requires counted { size ≡ kept_count keep.now }
    requires numbered { Numbered phase }
    ensures { Marks phase keep.now asked.new }
{
    match phase {
        Phase::Nothing => mark_places(asked, keep, 0, 0, true),
        Phase::Parts { n, at } => {
            let low = border_of(size, n, at);
            let high = border_of(size, n, at + 1);
            mark_places(asked, keep, low, high, true)
        }
        Phase::Complements { n, at } => {
            let low = border_of(size, n, at);
            let high = border_of(size, n, at + 1);
            mark_places(asked, keep, low, high, false)
        }
        Phase::End => {}
    }
}

/// Where ddmin of `size` elements in `n` parts begins.
fn begun(size: u32, n: u32) -> Phase
    ensures { result ≡ begun_phase size n }
{
    if size < 2 {
        Phase::End
    } else {
        Phase::Parts { n, at: 0 }
    }
}

/// Where the list step over `len` elements begins.
fn first_phase(len: u32, may_be_empty: bool) -> Phase
    ensures { result ≡ first_phase_of len may_be_empty }
{
    if may_be_empty && 0 < len {
        Phase::Nothing
    } else {
        begun(len, 2)
    }
}

/// The phase after an answer, where `size` elements are kept then.
fn phase_after(phase: Phase, yes: bool, size: u32) -> Phase
    requires { Numbered phase }
    ensures { result ≡ next_phase phase yes size }
{
    match phase {
        Phase::Nothing => if yes { Phase::End } else { begun(size, 2) },
        Phase::Parts { n, at } => {
            if yes {
                begun(size, 2)
            } else if at + 1 < n {
                Phase::Parts { n, at: at + 1 }
            } else {
                Phase::Complements { n, at: 0 }
            }
        }
        Phase::Complements { n, at } => {
            if yes {
                begun(size, (n - 1).max(2))
            } else if at + 1 < n {
                Phase::Complements { n, at: at + 1 }
            } else if n < size {
                let finer = (n as u64 * 2).min(size as u64) as u32;
                Phase::Parts { n: finer, at: 0 }
            } else {
                Phase::End
            }
        }
        Phase::End => Phase::End,
    }
}
