//! The work that fills a chart.

ghost use Rattle.std.specs.Prelude.{◌≡◌, ◌+◌, ◌<◌, ◌≤◌, ◌++◌, ◌∷◌, [], length, IfOk, OnOk};
ghost use Rattle.std.specs.List.{All};
ghost use Rattle.chart_parser_ends.specs.inner.Entries.{HasEntry};
ghost use Rattle.chart_parser_ends.specs.inner.UnderWay.{KeepsUnderWay, work_left};
ghost use Rattle.chart_parser_ends.specs.inner.Working.{IsOn, IsStep, IsStepOn, IsWork, first_of, rule_of};

use crate::choice::Choice;
use crate::optional::Optional;
use crate::repetition::Repetition;
use crate::table::ChartTable;
use faults::Memory;
use normal_form::NormalRule;

/// All positions where a rule that begins at the position `first` can end, rising.
#[derive(Drop)]
pub(crate) struct RuleEnds {
    pub(crate) rule: u32,
    pub(crate) first: u32,
    pub(crate) ends: Vec<u32>,
}

/// The work on where a rule can end that begins at a position.
#[derive(Drop)]
pub(crate) enum Work {
    Choice(Choice),
    Optional(Optional),
    Repetition(Repetition),
}

/// What a step in place comes to.
#[derive(Clone, Copy)]
pub(crate) enum Progress {
    /// All that was worked for is found.
    Done,
    /// There is more to do.
    More,
    /// The work first needs where this rule can end that begins at this position.
    Needs(u32, u32),
}

/// What the steps of the work come to.
#[derive(Drop)]
pub(crate) enum Step {
    /// All that was worked for.
    Done(RuleEnds),
    /// The same work, which first needs where this rule can end that begins at this position.
    Needs(Work, u32, u32),
}

/// The work on the rule at the position.
fn first_work(table: &ChartTable<'_>, rule: u32, first: u32) -> Result<Work, Memory>
    requires { first ≤ length table.now.input.kinds }
    ensures work { IfOk result (IsWork table.now.input.normal table.now.input.kinds) }
    ensures on { IfOk result (IsOn rule first) }
{
    let alloc = table.alloc();
    let rules = table.normal().rules();
    if rule as usize >= rules.len() {
        return Ok(Work::Choice(Choice::new(alloc, rule, first)?));
    }
    match &rules[rule as usize] {
        NormalRule::Regular(_) => Ok(Work::Choice(Choice::new(alloc, rule, first)?)),
        NormalRule::Star(symbol) => Ok(Work::Repetition(Repetition::new(
            alloc, rule, first, *symbol, false,
        )?)),
        NormalRule::Plus(symbol) => Ok(Work::Repetition(Repetition::new(
            alloc, rule, first, *symbol, true,
        )?)),
        NormalRule::Opt(symbol) => Ok(Work::Optional(Optional {
            rule,
            first,
            symbol: *symbol,
        })),
    }
}

/// The next steps of the work, up to where it is done or needs more.
fn step_of(work: Work, table: &ChartTable<'_>) -> Result<Step, Memory>
    requires { IsWork table.now.input.normal table.now.input.kinds work }
    ensures step { IfOk result (IsStep table.now.input.normal table.now.input.kinds) }
    ensures same { IfOk result (IsStepOn (rule_of work) (first_of work)) }
{
    match work {
        Work::Choice(choice) => choice.step(table),
        Work::Optional(optional) => optional.step(table),
        Work::Repetition(repetition) => repetition.step(table),
    }
}

/// The next steps of the work that was on top of the stack. What is worked on stays on the stack until its
/// entry is there.
fn go_on(table: &mut ChartTable<'_>, work: Work, stack: &mut Vec<Work>) -> Result<(), Memory>
    requires work { IsWork table.old.input.normal table.old.input.kinds work }
    requires stack { All (IsWork table.old.input.normal table.old.input.kinds) stack.old.items }
    ensures same { table.new.input ≡ table.old.input }
    ensures stack { OnOk result (All (IsWork table.old.input.normal table.old.input.kinds) stack.new.items) }
    ensures kept { OnOk result (KeepsUnderWay table.old.entries (stack.old.items ++ work ∷ []) table.new.entries stack.new.items) }
    ensures less { OnOk result (work_left table.new.entries (length stack.new.items) < work_left table.old.entries (length stack.old.items + 1)) }
{
    match step_of(work, table)? {
        Step::Done(found) => table.store(found)?,
        Step::Needs(work, rule, first) => {
            stack.push(work)?;
            stack.push(first_work(table, rule, first)?)?;
        }
    }
    Ok(())
}

/// Works out where the rule can end that begins at the position, and all that this needs.
///
/// Each turn adds an entry, of which there are at most 4,294,967,295, or one more work to the stack.
pub(crate) fn work_out(table: &mut ChartTable<'_>, rule: u32, first: u32) -> Result<(), Memory>
    requires { first ≤ length table.old.input.kinds }
    ensures same { table.new.input ≡ table.old.input }
    ensures there { OnOk result (HasEntry table.new.entries rule first) }
{
    let mut stack = Vec::new(table.alloc());
    stack.push(first_work(table, rule, first)?)?;
    while let Some(work) = stack.pop() {
        go_on(table, work, &mut stack)?;
    }
    Ok(())
}
