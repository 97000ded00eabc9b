//! What names one run, and the board of it that lies behind the lock.

ghost use Rattle.std.specs.Prelude.{◌≡◌, None, Some, IfOk, IsFalse};
ghost use Rattle.boxcar.specs.Table.{Shows};
ghost use Rattle.ordered_commit.specs.BoardState.{Holds};
ghost use Rattle.ordered_commit.specs.TakeEnds.{IsShown};
ghost use Rattle.ordered_commit.specs.Seats.{Agrees, with_record, without_claim};
ghost use Rattle.worker_pool.specs.inner.Runs.{IsOfRun};
ghost use Rattle.worker_pool.specs.inner.Work.{TakesSeat};

use crate::moves::{give_up, next, record};
use edge_io::Sink;
use faults::Memory;
use gate_permits::{Answer, Texts, Unasked};
use ordered_commit::{Board, Seat, Take};
use reduce_step::Step;
use script_gate_trait::Gate;
use std::marker::{Brand, Model, PhantomData};
use std::sync::Wait;

/// Names one run.
pub trait Run {
    ghost use Rattle.worker_pool.specs.Runs.{RunMembers};

    ghost run: { RunMembers };
}

impl Run for Brand {
    ghost use Rattle.worker_pool.specs.inner.Runs.{no_run};

    ghost run = { no_run };
}

/// The board of one run.
#[derive(Drop)]
pub struct Shared<S: Step + Drop, G: Gate, J: Sink + Drop, R: Run> {
    board: Board<S, G, J>,
    run: PhantomData<R>,
}

impl<S: Step + Drop, G: Gate, J: Sink + Drop, R: Run> Model for Shared<S, G, J, R> {
    ghost use Rattle.ordered_commit.specs.BoardState.{BoardState};
    ghost use Rattle.worker_pool.specs.inner.Runs.{IsOfRun};

    ghost Value = { BoardState S J };

    ghost view = { λ shared. shared.board };

    ghost invariant = { λ shared. IsOfRun S.first J.put_so_far J.faults R.run shared.board };
}

impl<S: Step + Drop, G: Gate, J: Sink + Drop, R: Run> Shared<S, G, J, R> {
    /// A board of this run.
    pub(crate) fn new(board: Board<S, G, J>) -> Shared<S, G, J, R>
        requires { IsOfRun S.first J.put_so_far J.faults R.run board }
        ensures { result ≡ board }
    {
        Shared {
            board,
            run: PhantomData,
        }
    }

    /// The board.
    pub(crate) fn into_board(self) -> Board<S, G, J>
        ensures board { result ≡ self }
        ensures of_run { IsOfRun S.first J.put_so_far J.faults R.run result }
    {
        let Shared { board, run: _ } = self;
        board
    }

    /// Whether the board has something else for the worker than the seat says.
    pub(crate) fn disagrees(&self, seat: &Seat) -> bool
        ensures { IsFalse result → Agrees self.now.seats seat.now }
    {
        !self.board.agrees(seat)
    }

    /// Whether it is so, or the answer's claim isn't open, of the answer's text.
    pub(crate) fn refuses(&self, texts: &Texts, seat: &Seat, answer: &Answer<G>) -> bool
        requires { Shows texts.now answer.now.token }
        ensures agrees { IsFalse result → Agrees self.now.seats seat.now }
        ensures holds { IsFalse result → Holds self.now answer.now.claim answer.now.text }
    {
        !self.board.agrees(seat)
            || !self
                .board
                .holds(answer.claim(), texts.value(answer.token()).as_slice())
    }

    /// Recalls and commits all it can, and takes. `moved` says then whether it recalled or committed.
    pub(crate) fn next<W: Wait>(
        &mut self,
        rt: &W,
        texts: &Texts,
        seat: &mut Seat,
        moved: &mut bool,
    ) -> Result<Take, Memory>
        requires agrees { Agrees self.old.seats seat.old }
        requires free { seat.old.claim ≡ None }
        ensures seat { TakesSeat result seat.old seat.new }
        ensures shows { IfOk result (IsShown texts.now) }
    {
        next(rt, texts, &mut self.board, seat, moved)
    }

    /// Records an answer.
    pub(crate) fn record(&mut self, seat: &mut Seat, answer: Answer<G>)
        requires agrees { Agrees self.old.seats seat.old }
        requires claim { seat.old.claim ≡ Some answer.claim }
        requires holds { Holds self.old answer.claim answer.text }
        ensures { seat.new ≡ with_record seat.old }
    {
        record(&mut self.board, seat, answer);
    }

    /// Gives a claim up.
    pub(crate) fn give_up(&mut self, seat: &mut Seat, unasked: Unasked)
        requires agrees { Agrees self.old.seats seat.old }
        requires claim { seat.old.claim ≡ Some unasked.permit.claim }
        ensures { seat.new ≡ without_claim unasked.fault seat.old }
    {
        give_up(&mut self.board, seat, unasked);
    }
}
