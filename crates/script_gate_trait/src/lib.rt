//! Gates: what answers yes or no to a text, and gates in memory, by a rule or from a list.
//!
//! Enter by the trait [`Gate`]: `open` once, then `ask` for each text; read `specs/Log.antt` first. A
//! verdict comes from nothing but an ask. [`RuleGate`] and [`ListGate`] answer in memory, and contracts
//! see their log; a gate that runs a script is in `script_gate`. [`Bytes`] is a text of which several
//! parts of a program are owners.
#![tactic(auto)]

mod gate;
mod list_gate;
mod log;
mod rule_gate;
mod shared_bytes;

pub use faults::Memory;
pub use gate::{Gate, GateFault, Verdict};
pub use list_gate::{ListGate, Said};
pub use log::{Log, Opening};
pub use rule_gate::RuleGate;
pub use shared_bytes::{Bytes, TextList};
