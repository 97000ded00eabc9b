//! What holds of each reducer, for the proofs of callers.

ghost use Rattle.reduce_step.specs.Plan.{Plan};
ghost use Rattle.reduce_step.specs.Ahead.{AheadMayBeAsked};

/// Whatever a reducer was answered, all that is ahead of it then is what it may ask.
pub fn ahead_may_be_asked()
    ensures { (plan : Plan) → AheadMayBeAsked plan }
{}
