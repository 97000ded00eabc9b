//! Bytes as they are read and printed.

use percent_encoding::{CONTROLS, percent_decode, percent_encode};
use script_gate_trait::Verdict;
use std::alloc::{AllocError, Global};

/// What is reduced in the worked run.
pub(crate) const START: &[u8] = b"a=1;b=2;c=3;";

/// The head of its journal, in which the SHA-256 of that is.
const HEAD: &str =
    "perses-journal 2\nS fe55d574c397b7713a66bb55be32810164343b436e7529075844e43fce81c64e\n";

/// The bytes of a text.
pub(crate) fn decoded(alloc: Global, text: &str) -> Result<Vec<u8>, AllocError> {
    let text = text.replace(alloc, "{head}", HEAD)?;
    let mut bytes = Vec::new(alloc);
    percent_decode(text.as_bytes()).append_to(&mut bytes)?;
    Ok(bytes)
}

/// Adds bytes.
pub(crate) fn add_bytes(out: &mut String, bytes: &[u8]) -> Result<(), AllocError> {
    if let Some(rest) = bytes.strip_prefix(HEAD.as_bytes()) {
        out.push_str("{head}")?;
        return percent_encode(rest, CONTROLS).append_to(out);
    }
    percent_encode(bytes, CONTROLS).append_to(out)
}

/// Adds a text between quotation marks.
pub(crate) fn add_text(out: &mut String, text: &[u8]) -> Result<(), AllocError> {
    out.push('"')?;
    add_bytes(out, text)?;
    out.push('"')
}

pub(crate) fn verdict_name(verdict: Verdict) -> &'static str {
    match verdict {
        Verdict::Yes => "yes",
        Verdict::No => "no",
    }
}
