//! Lists of small logs.

use super::*;
use event_log::{Header, LogReader};
use outside::{Careful, MemSink, MemSource};
use std::alloc::Global;
use std::test::Fail;

/// What was read before the events.
const HEADER: Header = Header {
    shift: 0,
    ram_mib: 1,
    slice: 10_000,
    budget: 1_000_000,
    firmware: [0; 32],
    disk_len: 0,
    disk: [0; 32],
};

/// A guest that waits for its timer.
const TIMER: [u8; 19] = [0, 0, 0, 0, 11, 5, 1, 1, 0, 0, 0, 0, 4, 6, 0, 0, 0, 0, 0];

/// How the list of what the source has ended, and its lines. Of the sink these calls fail.
fn list(alloc: Global, source: MemSource, failing: Vec<u64>) -> Result<(String, Vec<u8>), Fail> {
    let mut log = LogReader::resume(alloc, source, &HEADER)?;
    let mut out = Careful::new(MemSink::new(alloc, failing));
    let end = list_events(alloc, &mut log, &mut out);
    let told = format!(in alloc; "{end:?}")?;
    Ok((told, out.into_inner().bytes().to_vec(alloc)?))
}

#[test]
fn each_event_has_its_line_up_to_the_first_wrong_place(rt: HostRuntime) -> Result<(), Fail> {
    let alloc = rt.alloc();
    let rows: [(&[u8], &str, &str); 5] = [
        (
            &TIMER,
            "Whole",
            "0 98 INSTRUCTION 11\n1 103 CHECKPOINT idle\n2 105 INTERRUPT\n\
            3 106 INSTRUCTION 4\n4 111 END 0 0\n",
        ),
        (
            b"\x06\x02\0\0\0\0\x01",
            "Refused(Refusal { index: 1, offset: 104, due: Nothing, found: MoreBytes })",
            "0 98 END 2 0\n",
        ),
        (
            b"\x01\0\0\0",
            "Refused(Refusal { index: 1, offset: 99, due: Nothing, found: Cut })",
            "0 98 INTERRUPT\n",
        ),
        (
            b"\x02\x07",
            "Refused(Refusal { index: 1, offset: 99, due: Nothing, found: Rule(UnknownId) })",
            "0 98 EXCEPTION\n",
        ),
        (
            b"\x03\0\0\0\0\0\x02hi\x03\x01\0\0\0\0\0\0\x01\x02\0\x03\x01\0\0\0\0\0\0\0\x09\x01\
            \x03\x02\0\0\0\0\0\0\0\0\x0e\x0d\0\0\0\0\0\0\0\0\0\0\0\0\0\
            \x04\0\0\0\0\0\0\0\0\x05\x05\0\x06\x01\0\0\0\0",
            "Whole",
            "0 98 CHAR_READ 2\n1 107 BLOCK 258 ok\n2 118 BLOCK 9 error\n3 129 NET 14\n\
            4 154 CLOCK 5\n5 164 CHECKPOINT slice\n6 166 END 1 0\n",
        ),
    ];
    for (events, end, lines) in rows {
        let source = MemSource::new(events.to_vec(alloc)?, Vec::new(alloc), Vec::new(alloc));
        let (ended, told) = list(alloc, source, Vec::new(alloc))?;
        assert_eq!(rt; ended.as_str(), end);
        assert_eq!(rt; told.as_slice(), lines.as_bytes());
    }
    Ok(())
}

#[test]
fn a_fault_ends_the_list(rt: HostRuntime) -> Result<(), Fail> {
    let alloc = rt.alloc();
    let lines = b"0 98 INSTRUCTION 11\n1 103 CHECKPOINT idle\n";

    let source = MemSource::new(TIMER.to_vec(alloc)?, Vec::new(alloc), Vec::new(alloc));
    let (ended, told) = list(alloc, source, vec![in alloc; 2]?)?;
    assert_eq!(rt; ended.as_str(), "WriteFault");
    assert_eq!(rt; told.as_slice(), lines.as_slice());

    // two events come whole, and then the source fails
    let source = MemSource::new(TIMER.to_vec(alloc)?, vec![in alloc; 7]?, vec![in alloc; 1]?);
    let (ended, told) = list(alloc, source, Vec::new(alloc))?;
    assert_eq!(rt; ended.as_str(), "LogRead");
    assert_eq!(rt; told.as_slice(), lines.as_slice());
    Ok(())
}
