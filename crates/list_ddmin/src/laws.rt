//! What holds of the states of the machine, and of the list step, for the proofs of callers.

ghost use Rattle.std.specs.Prelude.{ℕ, List};
ghost use Rattle.list_ddmin.specs.Asked.{AsksFewer, AsksForNothingFirst, DeletionsAsked};
ghost use Rattle.list_ddmin.specs.Machine.{AgreeingMaps, AsksAsKept, EndsOneMinimal, FollowsListStep, GoesByItsSteps};
ghost use Rattle.list_ddmin.specs.Machine.{KeepsLength, PartsAreSlices, QuestionsFit, RestFits, StartsWithAll};

/// Answered from any map, the machine asks the questions of the list step in their order, and
/// ends with its result.
pub fn follows_list_step()
    ensures { FollowsListStep }
{}

/// The list step over two maps is the same, if they agree on what it asks over the first. So a
/// map need be known only at the questions.
pub fn agreeing_maps()
    ensures { AgreeingMaps }
{}

/// No one element can go from the end of the list step. Where not all elements may go, this is
/// said of an end with two elements or more.
pub fn ends_one_minimal()
    ensures { EndsOneMinimal }
{}

/// The procedure is its steps over itself: the bound in its definition is never met.
pub fn goes_by_its_steps()
    ensures { GoesByItsSteps }
{}

/// A part is a slice of the kept elements, and its complement is the kept elements without the
/// slice. Here the elements are lists, as lines are.
pub fn parts_are_slices()
    ensures { PartsAreSlices (List ℕ) }
{}

/// Each question, and the result, has a flag for each element of the list.
pub fn questions_fit()
    ensures list_step { QuestionsFit }
    ensures rest { RestFits }
    ensures asked { AsksAsKept }
    ensures answered { KeepsLength }
    ensures started { StartsWithAll }
{}

/// Each list with one element fewer than the end was asked. Where not all elements may go, this is
/// said of an end with two elements or more.
pub fn deletions_asked()
    ensures { DeletionsAsked }
{}

/// What is asked is some of the elements that are kept, and not all of them. None at all is asked
/// for at the start alone, where all may go.
pub fn asks_fewer()
    ensures asked { AsksFewer }
    ensures nothing { AsksForNothingFirst }
{}
