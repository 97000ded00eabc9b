//! What holds however moves follow one another.

ghost use Rattle.ordered_commit.specs.Laws.{AnyOrderHolds};

/// After any moves, of any number of workers, the front comes to what one thread comes to.
pub fn any_order_holds()
    ensures { AnyOrderHolds }
{}
