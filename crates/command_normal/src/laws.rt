//! What the statuses of `normal` mean by their numbers, read off how it ends. A caller calls a law, which
//! does nothing, so that its proof has it.

ghost use Rattle.command_normal.specs.NormalByStatus.{NormalByStatus};

/// What `normal` has done, by the number of its status.
pub fn normal_by_status()
    ensures { NormalByStatus }
{}
