//! What the statuses of `reduce` mean by their numbers, read off how it ends. A caller calls a law, which
//! does nothing, so that its proof has it.

ghost use Rattle.command_reduce.specs.ReduceByStatus.{ReduceByStatus};

/// What `reduce` has done, by the number of its status.
pub fn reduce_by_status()
    ensures { ReduceByStatus }
{}
