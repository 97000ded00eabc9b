//! What is printed of the faults of a text.

use faults::{Limit, Memory};
use grammar_reader_notation::{ReadFault, What};
use std::alloc::Global;
use std::test::Fail;

/// Whether the fault is printed as this text.
fn is_printed_as(alloc: Global, fault: ReadFault, text: &str) -> Result<bool, Fail> {
    let printed = fault.to_string(alloc)?;
    Ok(printed.as_str() == text)
}

#[test]
fn faults_print_where_they_are(rt: HostRuntime) -> Result<(), Fail> {
    let non_greedy = ReadFault::Unsupported {
        what: What::NonGreedy,
        offset: 19,
    };
    let memory = Memory::over(Limit::Numbers, usize::MAX);
    for (fault, text) in [
        (ReadFault::NotUtf8 { offset: 0 }, "not UTF-8 at byte 0"),
        (
            ReadFault::Syntax { offset: 1_234_567 },
            "syntax at byte 1234567",
        ),
        (non_greedy, "unsupported non-greedy at byte 19"),
        (
            ReadFault::NestedTooDeep { offset: 76 },
            "nested too deep at byte 76",
        ),
        (ReadFault::Memory(memory), "out of memory"),
    ] {
        assert!(rt; is_printed_as(rt.alloc(), fault, text)?);
    }
    Ok(())
}
