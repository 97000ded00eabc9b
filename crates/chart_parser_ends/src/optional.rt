//! The work on where an optional can end.

ghost use Rattle.std.specs.Prelude.{IfOk};
ghost use Rattle.chart_parser_ends.specs.inner.Working.{IsOptional, IsStep, IsStepOn};

use crate::positions::add_all;
use crate::table::ChartTable;
use crate::work::{RuleEnds, Step, Work};
use faults::Memory;
use normal_form::Sym;

/// The work on an optional of the symbol, at the position `first`.
#[derive(Clone, Copy, Drop)]
pub(crate) struct Optional {
    pub(crate) rule: u32,
    pub(crate) first: u32,
    pub(crate) symbol: Sym,
}

impl Optional {
    /// It can end where it begins, and where its symbol can end.
    pub(crate) fn step(self, table: &ChartTable<'_>) -> Result<Step, Memory>
        requires { IsOptional table.now.input.normal table.now.input.kinds self }
        ensures step { IfOk result (IsStep table.now.input.normal table.now.input.kinds) }
        ensures same { IfOk result (IsStepOn self.rule self.first) }
    {
        let Optional {
            rule,
            first,
            symbol,
        } = self;
        match table.ends_of(symbol, first) {
            Ok(more) => {
                let mut ends = vec![in table.alloc(); first]?;
                add_all(&mut ends, more)?;
                Ok(Step::Done(RuleEnds { rule, first, ends }))
            }
            Err(missing) => Ok(Step::Needs(Work::Optional(self), missing, first)),
        }
    }
}
