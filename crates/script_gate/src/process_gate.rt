ghost use Rattle.std.specs.Prelude.{◌≡◌, ◌≤◌, ◌↔◌, [], ◌∷◌, ℕ, List, None, Some, false, pos, IfOk, OnOk, OnErr, IsErrOf};
ghost use Rattle.std.specs.String.{string_bytes};
ghost use Rattle.std.specs.Process.{clears_env, command_args, command_dir, command_program, command_var, exit_code};
ghost use Rattle.faults.specs.Memory.{IsOutOfMemory, ran_out};
ghost use Rattle.edge_io.specs.Calls.{CountsFault};
ghost use Rattle.script_gate.specs.Script.{file_of, folder_of, path_in, script_of};

use edge_io::{count_failure, write_whole};
use faults::Memory;
use script_gate_trait::{Gate, GateFault, Verdict};
use std::alloc::Global;
use std::marker::Model;
use std::process::{Command, ExitStatus, Processes, Stdio};
use std::rt::Files;
use std::{fs, io};

/// What a gate was doing when a call of the machine failed.
#[derive(Clone, Copy, Debug, PartialEq, Eq)]
pub enum ScriptCall {
    /// Making the worker's folder.
    MakeFolder,
    /// Writing a candidate into its file.
    WriteCandidate,
    /// Starting the script, and waiting for its end.
    RunScript,
}

/// Why a gate failed.
#[derive(Clone, Copy)]
pub struct ScriptFault {
    /// What it was doing.
    pub call: ScriptCall,
    /// The machine's error.
    pub error: io::Error,
}

/// A gate that writes each text to a file and starts a script with the file's path as its only argument.
/// The verdict is yes where the script ends with status 0, and no where it ends with another status or by a signal.
///
/// The script has no standard input and output, and the program's standard error. The file of the last text stays.
/// A clause sees the gate as its script, its file and how many calls failed.
#[derive(Drop)]
pub struct ProcessGate<R: Files + Processes> {
    rt: R,
    alloc: Global,
    script: String,
    file: String,
    faults: u64,
    last_fault: Option<ScriptFault>,
    last_end: Option<ExitStatus>,
}

impl<R: Files + Processes> Model for ProcessGate<R> {
    ghost use Rattle.std.specs.String.{string_bytes};
    ghost use Rattle.script_gate.specs.Script.{Opened};

    ghost Value = { Opened };

    ghost view = { λ gate. record {
      script = string_bytes gate.script;
      file = string_bytes gate.file;
      faults = gate.faults;
    } };
}

impl<R: Files + Processes> ProcessGate<R> {
    /// A gate that wasn't opened; its asks fail.
    pub fn new(rt: R, alloc: Global) -> ProcessGate<R>
        ensures { result ≡ record { script = []; file = []; faults = 0 } }
    {
        ProcessGate {
            rt,
            alloc,
            script: String::new(alloc),
            file: String::new(alloc),
            faults: 0,
            last_fault: None,
            last_end: None,
        }
    }

    /// The script's path, as it is started.
    pub fn script(&self) -> &str
        ensures { result.now ≡ self.now.script }
    {
        self.script.as_str()
    }

    /// The path of the file that candidates are written to.
    pub fn file(&self) -> &str
        ensures { result.now ≡ self.now.file }
    {
        self.file.as_str()
    }

    /// The last failure that counted as a fault; none before the first.
    pub fn last_fault(&self) -> Option<ScriptFault> {
        self.last_fault
    }

    /// How the script ended when it was asked last; none before the first ask.
    pub fn last_end(&self) -> Option<ExitStatus> {
        self.last_end
    }
}

fn folder_at(alloc: Global, work: &str, number: u32) -> Result<String, Memory>
    ensures { IfOk result (λ folder. string_bytes folder ≡ folder_of work.now number) }
{
    Ok(format!(in alloc; "{work}/{number}")?)
}

fn file_in(alloc: Global, folder: &str, name: &str) -> Result<String, Memory>
    ensures { IfOk result (λ file. string_bytes file ≡ path_in folder.now name.now) }
{
    Ok(format!(in alloc; "{folder}/{name}")?)
}

// A name without a slash would be looked up among the system's programs.
fn script_at(alloc: Global, name: &str) -> Result<String, Memory>
    ensures { IfOk result (λ script. string_bytes script ≡ script_of name.now) }
{
    if name.as_bytes().contains(&b'/') {
        Ok(String::from_str(alloc, name)?)
    } else {
        Ok(format!(in alloc; "./{name}")?)
    }
}

// The script with the file as its only argument, in the program's own folder and with its own environment.
fn command_of(alloc: Global, script: &str, file: &str) -> Result<Command, Memory>
    ensures program { IfOk result (λ command. command_program command ≡ script.now) }
    ensures args { IfOk result (λ command. command_args command ≡ file.now ∷ []) }
    ensures folder { IfOk result (λ command. command_dir command ≡ None) }
    ensures environment { IfOk result (λ command. clears_env command ≡ false) }
    ensures variables { IfOk result (λ command. (name : List ℕ) → command_var command name ≡ None) }
{
    let mut command = Command::new(alloc, script)?;
    command.arg(file)?;
    command.stdin(Stdio::null());
    command.stdout(Stdio::null());
    Ok(command)
}

fn verdict_of(status: ExitStatus) -> Verdict
    ensures { (result ≡ Verdict.Yes) ↔ (exit_code status ≡ Some (pos 0)) }
{
    if status.success() {
        Verdict::Yes
    } else {
        Verdict::No
    }
}

// Writes the text to the file. The file of the last text is removed first: truncating a file that was just
// written waits for the disk on some file systems, a new file does not.
fn write_candidate<R: Files>(rt: &R, file: &str, text: &[u8]) -> io::Result<()> {
    // (a file that isn't there, or can't be removed, is written over)
    let _ = fs::remove_file(rt, file);
    write_whole(&mut fs::create(rt, file)?, text)
}

// Writes the text to the file, and runs the command to its end.
fn judge<R: Files + Processes>(
    rt: &R,
    command: &mut Command,
    file: &str,
    text: &[u8],
) -> Result<ExitStatus, ScriptFault> {
    if let Err(error) = write_candidate(rt, file, text) {
        let call = ScriptCall::WriteCandidate;
        return Err(ScriptFault { call, error });
    }
    match command.status(rt) {
        Ok(status) => Ok(status),
        Err(error) => {
            let call = ScriptCall::RunScript;
            Err(ScriptFault { call, error })
        }
    }
}

// The fault of a call that failed, counted and kept unless the program itself had no memory.
fn fault_of(faults: &mut u64, last: &mut Option<ScriptFault>, fault: ScriptFault) -> GateFault
    ensures memory { (result ≡ GateFault.Memory ran_out) ↔ IsOutOfMemory fault.error }
    ensures faults { CountsFault (result ≡ GateFault.Failed) faults.old faults.new }
    ensures count { faults.old ≤ faults.new }
{
    match count_failure(faults, &fault.error) {
        Some(memory) => GateFault::Memory(memory),
        None => {
            *last = Some(fault);
            GateFault::Failed
        }
    }
}

impl<R: Files + Processes> Gate for ProcessGate<R> {
    ghost use Rattle.std.specs.Prelude.{None};

    ghost faults = { λ gate. gate.faults };

    ghost log = { λ _. None };

    ghost may_say = { λ _ _. Unit {0} };

    /// Makes the folder `work/number`, which may be there already. After an error the last opening stays.
    fn open(&mut self, work: &str, script: &str, name: &str, number: u32) -> Result<(), GateFault>
        ensures script { OnOk result (self.new.script ≡ script_of script.now) }
        ensures file { OnOk result (self.new.file ≡ file_of work.now number name.now) }
        ensures refused { OnErr result ((self.new.script ≡ self.old.script) × (self.new.file ≡ self.old.file)) }
        ensures faults { CountsFault (IsErrOf result GateFault.Failed) self.old.faults self.new.faults }
        ensures count { self.old.faults ≤ self.new.faults }
    {
        let folder = folder_at(self.alloc, work, number)?;
        let file = file_in(self.alloc, folder.as_str(), name)?;
        let script = script_at(self.alloc, script)?;
        if let Err(error) = fs::create_dir_all(&self.rt, folder.as_str()) {
            let call = ScriptCall::MakeFolder;
            let fault = ScriptFault { call, error };
            return Err(fault_of(&mut self.faults, &mut self.last_fault, fault));
        }
        self.script = script;
        self.file = file;
        Ok(())
    }

    fn ask(&mut self, text: &[u8]) -> Result<Verdict, GateFault>
        ensures opening { (self.new.script ≡ self.old.script) × (self.new.file ≡ self.old.file) }
        ensures faults { CountsFault (IsErrOf result GateFault.Failed) self.old.faults self.new.faults }
        ensures count { self.old.faults ≤ self.new.faults }
    {
        let mut command = command_of(self.alloc, self.script.as_str(), self.file.as_str())?;
        match judge(&self.rt, &mut command, self.file.as_str(), text) {
            Ok(status) => {
                self.last_end = Some(status);
                Ok(verdict_of(status))
            }
            Err(fault) => Err(fault_of(&mut self.faults, &mut self.last_fault, fault)),
        }
    }
}
