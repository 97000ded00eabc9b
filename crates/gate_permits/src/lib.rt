//! Permits to ask a gate about a claimed text, and the answers that come of them.
//!
//! Enter by [`ask_once`]; read `specs/Permits.antt` first. A [`Permit`] is made with a claim and has to
//! be spent: by asking, or by giving the claim up. An [`Answer`] has a verdict that its gate may say of
//! its text, and comes from nothing but an ask. Both hold a token of their text, which is in a vector
//! that all workers read ([`Texts`]). So a claimed text is asked about:
//!
//! ```
//! let token = texts.push_shown(rt, text).map_err(|_| Memory::from(AllocError))?;
//! let answer = match ask_once(&mut gate, &texts, Permit::new(claim, token)) {
//!     Ok(answer) => answer,
//!     Err(unasked) => return Err(unasked.spend().1),
//! };
//! table.fill(answer.claim(), answer.verdict());
//! ```
#![tactic(auto)]

mod answer;
mod permit;

pub use answer::{Answer, ask_once};
pub use permit::{Permit, Texts, Unasked};
