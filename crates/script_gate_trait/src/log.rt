ghost use Rattle.std.specs.Prelude.{◌≡◌, IfOk, OnOk, OnErr};

use crate::shared_bytes::{Bytes, TextList};
use faults::Memory;
use std::alloc::Global;

/// The four arguments of a gate's last opening.
#[derive(Drop)]
pub struct Opening {
    /// The work folder.
    pub work: Bytes,
    /// The script's name.
    pub script: Bytes,
    /// The name of the file that a candidate is written to.
    pub name: Bytes,
    /// The worker's number.
    pub number: u32,
}

/// What a gate was asked, in order, and what it was last opened with.
#[derive(Drop)]
pub struct Log {
    /// The texts that it gave a verdict on.
    pub asked: TextList,
    /// The last opening; none before the first.
    pub opening: Option<Opening>,
}

impl Log {
    ghost use Rattle.script_gate_trait.specs.Log.{empty_log, with_asked, with_opening};

    /// Neither an ask nor an opening.
    pub fn new(alloc: Global) -> Log
        ensures { result ≡ empty_log }
    {
        Log {
            asked: TextList::new(alloc),
            opening: None,
        }
    }

    /// Adds an ask. After an error all is as before.
    pub fn add_ask(&mut self, alloc: Global, text: &[u8]) -> Result<(), Memory>
        ensures ok { OnOk result (self.new ≡ with_asked text.now self.old) }
        ensures err { OnErr result (self.new ≡ self.old) }
    {
        let text = Bytes::from_slice(alloc, text)?;
        self.asked.push(text)
    }

    /// Replaces the last opening. After an error all is as before.
    pub fn set_opening(
        &mut self,
        alloc: Global,
        work: &str,
        script: &str,
        name: &str,
        number: u32,
    ) -> Result<(), Memory>
        ensures ok { OnOk result (self.new ≡ with_opening work.now script.now name.now number self.old) }
        ensures err { OnErr result (self.new ≡ self.old) }
    {
        let opening = Opening {
            work: Bytes::from_slice(alloc, work.as_bytes())?,
            script: Bytes::from_slice(alloc, script.as_bytes())?,
            name: Bytes::from_slice(alloc, name.as_bytes())?,
            number,
        };
        self.opening = Some(opening);
        Ok(())
    }
}
