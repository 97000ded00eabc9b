//! The journal's bytes, put into a sink.

ghost use Rattle.std.specs.Prelude.{◌≡◌, ◌≤◌, length, option_map, OnErr, OnOk};
ghost use Rattle.faults.specs.Count.{Rose};
ghost use Rattle.edge_io.specs.Sink.{GrewByPrefix, with_piece};
ghost use Rattle.reduce_step.specs.Limits.{text_limit};
ghost use Rattle.reduce_journal.specs.History.{HasShortText};
ghost use Rattle.reduce_journal.specs.Journal.{event_text, head, line, record_prefix};

use crate::digest::Digest;
use crate::event::Event;
use crate::head::head_of;
use arrayvec::ArrayString;
use edge_io::{Sink, SinkFault};
use script_gate_trait::Verdict;

/// Puts the head of a journal over a start with this digest, in one put. It takes no memory.
pub fn write_head<J: Sink>(journal: &mut J, start: &Digest) -> Result<(), SinkFault>
    ensures ok { OnOk result (J.put_so_far journal.new ≡ option_map (with_piece (head start.now)) (J.put_so_far journal.old)) }
    ensures err { OnErr result (GrewByPrefix (head start.now) (J.put_so_far journal.old) (J.put_so_far journal.new)) }
    ensures failed { OnErr result (Rose (J.faults journal.old) (J.faults journal.new)) }
    ensures quiet { OnOk result (J.faults journal.new ≡ J.faults journal.old) }
    ensures count { J.faults journal.old ≤ J.faults journal.new }
{
    journal.put(head_of(start).as_slice())
}

/// Puts an event: a commit in one put, a record in three, which are its line, its text and a
/// newline. It takes no memory. After an error nothing more of the event is put.
pub fn write_event<J: Sink>(journal: &mut J, event: &Event) -> Result<(), SinkFault>
    requires { HasShortText event.now }
    ensures ok { OnOk result
        (J.put_so_far journal.new ≡ option_map (with_piece (event_text event.now)) (J.put_so_far journal.old)) }
    ensures err { OnErr result
        (GrewByPrefix (event_text event.now) (J.put_so_far journal.old) (J.put_so_far journal.new)) }
    ensures failed { OnErr result (Rose (J.faults journal.old) (J.faults journal.new)) }
    ensures quiet { OnOk result (J.faults journal.new ≡ J.faults journal.old) }
    ensures count { J.faults journal.old ≤ J.faults journal.new }
{
    match event {
        Event::Recorded {
            text,
            verdict,
            kept,
        } => write_record(journal, text.as_slice(), *verdict, *kept),
        Event::Committed { number } => put_line(journal, "C ", *number),
    }
}

/// Puts a record: its line, its text and a newline.
fn write_record<J: Sink>(
    journal: &mut J,
    text: &[u8],
    verdict: Verdict,
    kept: bool,
) -> Result<(), SinkFault>
    requires { length text.now ≤ text_limit }
    ensures ok { OnOk result (J.put_so_far journal.new
        ≡ option_map (with_piece (event_text (Event.Recorded text.now verdict kept))) (J.put_so_far journal.old)) }
    ensures err { OnErr result
        (GrewByPrefix (event_text (Event.Recorded text.now verdict kept)) (J.put_so_far journal.old) (J.put_so_far journal.new)) }
    ensures failed { OnErr result (Rose (J.faults journal.old) (J.faults journal.new)) }
    ensures quiet { OnOk result (J.faults journal.new ≡ J.faults journal.old) }
    ensures count { J.faults journal.old ≤ J.faults journal.new }
{
    put_record_line(journal, text, verdict, kept)?;
    journal.put(text)?;
    journal.put(b"\n")
}

/// Puts the line of a record of this text, in one put.
fn put_record_line<J: Sink>(
    journal: &mut J,
    text: &[u8],
    verdict: Verdict,
    kept: bool,
) -> Result<(), SinkFault>
    ensures ok { OnOk result (J.put_so_far journal.new
        ≡ option_map (with_piece (line (record_prefix kept verdict) (length text.now))) (J.put_so_far journal.old)) }
    ensures err { OnErr result
        (GrewByPrefix (line (record_prefix kept verdict) (length text.now)) (J.put_so_far journal.old) (J.put_so_far journal.new)) }
    ensures failed { OnErr result (Rose (J.faults journal.old) (J.faults journal.new)) }
    ensures quiet { OnOk result (J.faults journal.new ≡ J.faults journal.old) }
    ensures count { J.faults journal.old ≤ J.faults journal.new }
{
    put_line(journal, prefix_of(verdict, kept), text.len() as u64)
}

/// What a record with this verdict begins with: asked, or kept.
fn prefix_of(verdict: Verdict, kept: bool) -> &'static str
    ensures prefix { result.now ≡ record_prefix kept verdict }
    ensures short { length result.now ≤ 4 }
{
    match (kept, verdict) {
        (false, Verdict::Yes) => "R y ",
        (false, Verdict::No) => "R n ",
        (true, Verdict::Yes) => "K y ",
        (true, Verdict::No) => "K n ",
    }
}

/// Puts a line of a prefix and a number, in one put.
fn put_line<J: Sink>(journal: &mut J, prefix: &str, number: u64) -> Result<(), SinkFault>
    requires { length prefix.now ≤ 4 }
    ensures ok { OnOk result
        (J.put_so_far journal.new ≡ option_map (with_piece (line prefix.now number)) (J.put_so_far journal.old)) }
    ensures err { OnErr result
        (GrewByPrefix (line prefix.now number) (J.put_so_far journal.old) (J.put_so_far journal.new)) }
    ensures failed { OnErr result (Rose (J.faults journal.old) (J.faults journal.new)) }
    ensures quiet { OnOk result (J.faults journal.new ≡ J.faults journal.old) }
    ensures count { J.faults journal.old ≤ J.faults journal.new }
{
    let line = line_of(prefix, number);
    journal.put(line.as_str().as_bytes())
}

/// A prefix, a number and a newline, without memory.
fn line_of(prefix: &str, number: u64) -> ArrayString<32>
    requires { length prefix.now ≤ 4 }
    ensures { result.bytes ≡ line prefix.now number }
{
    let mut digits = itoa::Buffer::new();
    let mut line = ArrayString::<32>::new();
    line.push_str(prefix);
    line.push_str(digits.format(number));
    line.push('\n');
    line
}
