//! Permits, and what is left of one that no gate answered.

ghost use Rattle.std.specs.Prelude.{◌≡◌};

use boxcar::Pushed;
use script_gate_trait::{Bytes, GateFault};
use std::marker::Model;

/// The texts that all workers of a run read. It only grows, and a text stays where it was pushed: so a
/// worker reads a claimed text without a lock, while others push.
pub type Texts = boxcar::Vec<Bytes>;

/// The permit to ask a gate about the text of one claim, once. It can't be copied, and it has to be
/// spent: by [`ask_once`](crate::ask_once), or as the permit of an [`Unasked`].
pub struct Permit {
    pub(crate) claim: u64,
    pub(crate) token: Pushed<Bytes>,
}

impl Model for Permit {
    ghost use Rattle.gate_permits.specs.Permits.{ClaimedText};

    ghost Value = { ClaimedText };

    ghost view = { λ permit. record { claim = permit.claim; text = permit.token.value; token = permit.token } };
}

impl Permit {
    /// The permit of the claim with this number, of the text that the token shows. Anyone may make one;
    /// it is of use where the claim is open.
    pub fn new(claim: u64, token: Pushed<Bytes>) -> Permit
        ensures { result ≡ record { claim = claim; text = token.value; token = token } }
    {
        Permit { claim, token }
    }

    /// The number of its claim.
    pub fn claim(&self) -> u64
        ensures { result ≡ self.now.claim }
    {
        self.claim
    }
}

/// A permit whose gate gave no verdict, and why.
pub struct Unasked {
    pub(crate) permit: Permit,
    pub(crate) fault: GateFault,
}

impl Model for Unasked {
    ghost use Rattle.gate_permits.specs.Permits.{RefusedAsk};

    ghost Value = { RefusedAsk };

    ghost view = { λ unasked. record { permit = unasked.permit; fault = unasked.fault } };
}

impl Unasked {
    /// The number of the permit's claim, and the gate's fault. The permit is spent. It takes no memory.
    pub fn spend(self) -> (u64, GateFault)
        ensures claim { result.0 ≡ self.permit.claim }
        ensures fault { result.1 ≡ self.fault }
    {
        let Unasked { permit, fault } = self;
        let Permit { claim, token: _ } = permit;
        (claim, fault)
    }
}
