//! The laws of Mini and of generated programs.

ghost use Rattle.case_reduction.specs.LanguageLaws.{CasesAreInLanguage, CasesGetYes, MiniIsSpelled};

/// The text of Mini spells the grammar Mini, and no other, and it is well-formed.
pub fn mini_is_spelled()
    ensures { MiniIsSpelled }
{}

/// Each program of at most 1500 functions is UTF-8 and is cut into tokens whose kinds Mini derives.
pub fn cases_are_in_language()
    ensures { CasesAreInLanguage }
{}

/// The rule gate whose number has the bytes of Q and Z says yes to each program.
pub fn cases_get_yes()
    ensures { CasesGetYes }
{}
