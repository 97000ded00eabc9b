ghost use Rattle.std.specs.Prelude.{◌≡◌, IfOk, true};
ghost use Rattle.edge_io.specs.FileCalls.{good_call};

use std::alloc::{AllocError, Global};
use std::marker::Model;

/// What was asked of a file.
#[derive(Clone, Copy, Debug, PartialEq, Eq)]
pub enum FileAction {
    /// Its bytes.
    Read,
    /// That it holds bytes.
    Write,
}

/// A call of files: the file's name, what was asked of it, and whether the call failed. The limit of a read isn't
/// kept.
#[derive(Drop)]
pub struct LoggedCall {
    name: String,
    action: FileAction,
    failed: bool,
}

impl Model for LoggedCall {
    ghost use Rattle.std.specs.Prelude.{string_bytes};
    ghost use Rattle.edge_io.specs.FileCalls.{FileCall};

    ghost Value = { FileCall };

    ghost view = { λ call. record { name = string_bytes call.name; action = call.action; failed = call.failed } };
}

impl LoggedCall {
    /// A call of this file that didn't fail.
    pub(crate) fn new(
        alloc: Global,
        name: &str,
        action: FileAction,
    ) -> Result<LoggedCall, AllocError>
        ensures { IfOk result (λ call. call ≡ good_call action name.now) }
    {
        Ok(LoggedCall {
            name: String::from_str(alloc, name)?,
            action,
            failed: false,
        })
    }

    /// The same call, which failed.
    pub(crate) fn into_failed(self) -> LoggedCall
        ensures { result ≡ record self { failed = true } }
    {
        LoggedCall {
            name: self.name,
            action: self.action,
            failed: true,
        }
    }

    /// The file's name.
    pub fn name(&self) -> &str
        ensures { result.now ≡ self.now.name }
    {
        self.name.as_str()
    }

    /// What was asked of the file.
    pub fn action(&self) -> FileAction
        ensures { result ≡ self.now.action }
    {
        self.action
    }

    /// Whether the call failed.
    pub fn failed(&self) -> bool
        ensures { result ≡ self.now.failed }
    {
        self.failed
    }
}
