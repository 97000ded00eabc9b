//! Journals that are joined. Their start is `a`, a newline, `b` and a newline.

use crate::joining::{common_start, joined};
use reduce_journal::{Event, Journal, digest_of, is_head_begun, read_journal};
use script_gate_trait::{Bytes, Verdict};
use std::alloc::Global;
use std::test::Fail;

/// An event whose text is static.
#[derive(Clone, Copy)]
enum Row {
    Asked(&'static [u8], Verdict),
    Kept(&'static [u8], Verdict),
    Committed(u64),
}

/// What a run came to that was stopped while it wrote its third event.
const TORN: &[u8] = b"perses-journal 2\n\
    S 911169ddaaf146aff539f58c26c489af3b892dff0fe283c1c264c65ae5aa59a2\n\
    R y 4\na\nb\n\nC 1\nR n 2\na";

/// What a run before it had come to; it was asked ahead once.
const BEFORE: &[u8] = b"perses-journal 2\n\
    S 911169ddaaf146aff539f58c26c489af3b892dff0fe283c1c264c65ae5aa59a2\n\
    R y 4\na\nb\n\nC 1\nR n 0\n\nC 2\nR n 2\nb\n\nR y 2\na\n\nC 4\n";

/// The same in version 1.
const BEFORE_1: &[u8] =
    b"perses-journal 1\nR y 4\na\nb\n\nC 1\nR n 0\n\nC 2\nR n 2\nb\n\nR y 2\na\n\nC 4\n";

/// What a run came to that resumed another.
const RESUMED: &[u8] = b"perses-journal 2\n\
    S 911169ddaaf146aff539f58c26c489af3b892dff0fe283c1c264c65ae5aa59a2\n\
    K y 4\na\nb\n\nC 1\nK n 0\n\nC 2\nR y 2\na\n\nC 3\n";

/// The verdicts of another script on two of the texts, and one text twice.
const OTHERWISE: &[u8] = b"perses-journal 2\n\
    S 911169ddaaf146aff539f58c26c489af3b892dff0fe283c1c264c65ae5aa59a2\n\
    K n 4\na\nb\n\nR y 2\na\n\nR n 2\nb\n\nR y 2\nb\n\n";

/// A journal without an event.
const BEGUN: &[u8] = b"perses-journal 2\n\
    S 911169ddaaf146aff539f58c26c489af3b892dff0fe283c1c264c65ae5aa59a2\n";

/// A journal of another start, `a` and a newline.
const OTHER: &[u8] = b"perses-journal 2\n\
    S 87428fc522803d31065e7bce3cf03fe475096631e5e07bbd7a0fde60c4cf25c7\n";

fn is_event(event: &Event, row: Row) -> bool {
    match (event, row) {
        (
            Event::Recorded {
                text,
                verdict,
                kept: false,
            },
            Row::Asked(wanted, verdict_wanted),
        )
        | (
            Event::Recorded {
                text,
                verdict,
                kept: true,
            },
            Row::Kept(wanted, verdict_wanted),
        ) => text.as_slice() == wanted && *verdict == verdict_wanted,
        (Event::Committed { number }, Row::Committed(wanted)) => *number == wanted,
        _ => false,
    }
}

/// What is read of these bytes.
fn read(alloc: Global, bytes: &[u8]) -> Result<Journal, Fail> {
    let bytes = Bytes::from_slice(alloc, bytes)?;
    Ok(read_journal(alloc, &bytes)?)
}

/// Whether these journals are joined to these events.
fn are_joined(alloc: Global, one: &[u8], other: &[u8], rows: &[Row]) -> Result<bool, Fail> {
    let other = read(alloc, other)?;
    let events = joined(alloc, read(alloc, one)?, &other)?;
    if events.len() != rows.len() {
        return Ok(false);
    }
    for (event, row) in events.iter().zip(rows.iter()) {
        if !is_event(event, *row) {
            return Ok(false);
        }
    }
    Ok(true)
}

#[test]
fn joins_to_a_torn_journal_what_it_lacks(rt: HostRuntime) -> Result<(), Fail> {
    let rows = [
        Row::Asked(b"a\nb\n", Verdict::Yes),
        Row::Committed(1),
        Row::Asked(b"", Verdict::No),
        Row::Asked(b"b\n", Verdict::No),
        Row::Asked(b"a\n", Verdict::Yes),
    ];
    assert!(rt; are_joined(rt.alloc(), TORN, BEFORE, &rows)?);
    assert!(rt; are_joined(rt.alloc(), TORN, BEFORE_1, &rows)?);
    Ok(())
}

#[test]
fn leaves_kept_and_asked_as_they_were(rt: HostRuntime) -> Result<(), Fail> {
    let resumed = [
        Row::Kept(b"a\nb\n", Verdict::Yes),
        Row::Committed(1),
        Row::Kept(b"", Verdict::No),
        Row::Committed(2),
        Row::Asked(b"a\n", Verdict::Yes),
        Row::Committed(3),
        Row::Asked(b"b\n", Verdict::No),
    ];
    assert!(rt; are_joined(rt.alloc(), RESUMED, BEFORE, &resumed)?);
    let torn = [
        Row::Asked(b"a\nb\n", Verdict::Yes),
        Row::Committed(1),
        Row::Kept(b"", Verdict::No),
        Row::Asked(b"a\n", Verdict::Yes),
    ];
    assert!(rt; are_joined(rt.alloc(), TORN, RESUMED, &torn)?);
    Ok(())
}

#[test]
fn takes_the_first_journal_s_verdict(rt: HostRuntime) -> Result<(), Fail> {
    let rows = [
        Row::Asked(b"a\nb\n", Verdict::Yes),
        Row::Committed(1),
        Row::Asked(b"a\n", Verdict::Yes),
        Row::Asked(b"b\n", Verdict::No),
        Row::Asked(b"b\n", Verdict::Yes),
    ];
    assert!(rt; are_joined(rt.alloc(), TORN, OTHERWISE, &rows)?);
    Ok(())
}

#[test]
fn joins_journals_without_events(rt: HostRuntime) -> Result<(), Fail> {
    let asked = [
        Row::Asked(b"a\nb\n", Verdict::Yes),
        Row::Asked(b"", Verdict::No),
        Row::Asked(b"b\n", Verdict::No),
        Row::Asked(b"a\n", Verdict::Yes),
    ];
    assert!(rt; are_joined(rt.alloc(), BEGUN, BEFORE, &asked)?);
    let torn = [Row::Asked(b"a\nb\n", Verdict::Yes), Row::Committed(1)];
    assert!(rt; are_joined(rt.alloc(), TORN, BEGUN, &torn)?);
    assert!(rt; are_joined(rt.alloc(), BEGUN, BEGUN, &[])?);
    Ok(())
}

/// Whether both journals have one start, and it is that one.
fn have_the_start(one: &Journal, other: &Journal) -> bool {
    common_start(one, other) == Some(digest_of(b"a\nb\n"))
}

#[test]
fn tells_starts_apart(rt: HostRuntime) -> Result<(), Fail> {
    let torn = read(rt.alloc(), TORN)?;
    let before = read(rt.alloc(), BEFORE_1)?;
    let other = read(rt.alloc(), OTHER)?;
    let empty = read(rt.alloc(), b"perses-journal 1\n")?;
    assert!(rt; have_the_start(&torn, &before));
    assert!(rt; have_the_start(&before, &torn));
    assert_eq!(rt; common_start(&torn, &other), None);
    assert_eq!(rt; common_start(&empty, &empty), None);
    Ok(())
}

#[test]
fn knows_a_head_that_is_begun(rt: HostRuntime) {
    assert!(rt; is_head_begun(b""));
    assert!(rt; is_head_begun(b"perses-journal 1"));
    assert!(rt; is_head_begun(b"perses-journal 2\nS "));
    assert!(rt; is_head_begun(b"perses-journal 2\nS 87f"));
    assert!(rt; is_head_begun(&OTHER[..83]));
    assert!(rt; !is_head_begun(OTHER));
    assert!(rt; !is_head_begun(b"perses-journal 1\n"));
    assert!(rt; !is_head_begun(b"perses-journal 2\nS 87F"));
    assert!(rt; !is_head_begun(b"perses-journal 3"));
}
