//! What holds of each program. Each law is a function that does nothing: a caller calls it so that its
//! proof has the law.

ghost use Rattle.case_maker.specs.Laws.{CasesAreShort, CasesHoldQAndZ};

/// Each program has the letters Q and Z.
pub fn cases_hold_q_and_z()
    ensures { CasesHoldQAndZ }
{}

/// Each program of at most 1500 functions has at most 255,024 bytes.
pub fn cases_are_short()
    ensures { CasesAreShort }
{}
