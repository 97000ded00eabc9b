//! Tables of calls, and what they need of the machine.

mod candidates;
mod files;
mod gates;
mod held;
mod machine;
mod permits;
mod replaced;
mod sinks;
mod table;
