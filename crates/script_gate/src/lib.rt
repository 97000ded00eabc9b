//! The gate that runs a script: a text is written into a file, and the script's exit status 0 is a yes.
//!
//! [`ProcessGate`] is the [`Gate`](script_gate_trait::Gate) over the machine's files and processes, and
//! part of the trusted edge; read `specs/Script.antt`. It keeps how the script ended last, and why a call
//! failed. So a text is judged by a script:
//!
//! ```
//! let mut gate = ProcessGate::new(rt.clone()?, rt.alloc());
//! gate.open("work", "test.sh", "input.txt", 1)?;
//! let verdict = gate.ask(b"text")?; // runs ./test.sh work/1/input.txt
//! ```
#![tactic(auto)]

mod process_gate;

pub use faults::Memory;
pub use process_gate::{ProcessGate, ScriptCall, ScriptFault};
