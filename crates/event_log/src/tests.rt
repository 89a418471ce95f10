//! Worked logs, and devices in memory that cut and fail.

use crate::{
    Event, Header, LogReader, LogWriter, ParseError, Rule, StreamError, next_event, put_event,
    put_header, read_header,
};
use outside::{MemSink, MemSource, Source};
use std::alloc::Global;
use std::test::Fail;

// SHA-256 of no bytes.
const NOTHING: [u8; 32] = [
    0xe3, 0xb0, 0xc4, 0x42, 0x98, 0xfc, 0x1c, 0x14, 0x9a, 0xfb, 0xf4, 0xc8, 0x99, 0x6f, 0xb9, 0x24,
    0x27, 0xae, 0x41, 0xe4, 0x64, 0x9b, 0x93, 0x4c, 0xa4, 0x95, 0x99, 0x1b, 0x78, 0x52, 0xb8, 0x55,
];

// The first guest ran 7 turns in 16 MiB, without a disk.
const FIRST: Header = Header {
    shift: 0,
    ram_mib: 16,
    slice: 10000,
    budget: 1000000000,
    firmware: [0x5a; 32],
    disk_len: 0,
    disk: NOTHING,
};

// Its log: the numbers of the header, the digest of the firmware, no disk, and two events.
const NUMBERS: [u8; 26] = [
    0x52, 0x52, 0x56, 0x31, 0, 0, 0, 0, 0, 0, 0, 0, 0x00, 0x10, 0x00, 0x00, 0x27, 0x10, 0, 0, 0, 0,
    0x3b, 0x9a, 0xca, 0x00,
];

const EVENTS: [u8; 11] = [0, 0, 0, 0, 7, 6, 0, 0, 0, 0, 0];

fn first_log(alloc: Global) -> Result<Vec<u8>, Fail> {
    let mut bytes = Vec::new(alloc);
    bytes.extend_from_slice(&NUMBERS)?;
    bytes.extend_from_slice(&[0x5a; 32])?;
    bytes.extend_from_slice(&[0; 8])?;
    bytes.extend_from_slice(&NOTHING)?;
    bytes.extend_from_slice(&EVENTS)?;
    Ok(bytes)
}

#[test]
fn the_first_guests_log_is_spelled_and_read_back(rt: HostRuntime) -> Result<(), Fail> {
    let alloc = rt.alloc();
    let mut bytes = Vec::new(alloc);
    put_header(alloc, &FIRST, &mut bytes)?;
    put_event(alloc, &Event::Instruction(7), &mut bytes)?;
    put_event(alloc, &Event::End { reason: 0, code: 0 }, &mut bytes)?;
    assert_eq!(rt; bytes.as_slice(), first_log(alloc)?.as_slice());

    assert!(rt; matches!(read_header(&bytes), Ok(header) if header == FIRST));
    assert!(rt; bytes.len() == 109);
    assert!(rt;
        matches!(
            next_event(alloc, &bytes, 98),
            Ok((Event::Instruction(7), 103))
        )
    );
    let end = next_event(alloc, &bytes, 103);
    assert!(rt; matches!(end, Ok((Event::End { reason: 0, code: 0 }, 109))));
    Ok(())
}

#[test]
fn the_first_broken_rule_is_named_with_its_offset(rt: HostRuntime) -> Result<(), Fail> {
    let alloc = rt.alloc();
    let rows: [(&[u8], Rule); 12] = [
        (&[0, 0, 7], Rule::UnknownId),
        (&[0, 0, 3, 3], Rule::UnknownAsync),
        (&[0, 0, 0, 0, 0, 0, 0], Rule::BadCount),
        (&[0, 0, 3, 0, 1], Rule::BadDevice),
        (&[0, 0, 3, 0, 0, 0, 0, 1, 1], Rule::BadLength),
        (&[0, 0, 3, 1, 0, 0, 0, 0, 0, 0, 0, 0, 2], Rule::BadStatus),
        (&[0, 0, 3, 2, 1], Rule::BadAdapter),
        (&[0, 0, 3, 2, 0, 0, 0, 0, 1], Rule::BadFlags),
        (&[0, 0, 4, 1], Rule::BadClock),
        (&[0, 0, 5, 2], Rule::BadKind),
        (&[0, 0, 6, 4], Rule::BadReason),
        (&[0, 0, 6, 1, 0, 0, 0, 1], Rule::BadCode),
    ];
    for (bytes, wanted) in rows {
        assert!(rt; bytes.len() >= 2);
        let Err(ParseError::Bad { offset: 2, rule }) = next_event(alloc, bytes, 2) else {
            assert!(rt; false, "{wanted:?}");
            continue;
        };
        assert_eq!(rt; rule, wanted);
    }
    assert!(rt;
        matches!(
            next_event(alloc, &[3, 0, 0, 0xff], 0),
            Err(ParseError::Cut(0))
        )
    );
    Ok(())
}

#[test]
fn the_first_field_out_of_range_is_named_by_its_offset(rt: HostRuntime) -> Result<(), Fail> {
    let alloc = rt.alloc();
    for (at, byte, field) in [
        (3, 0x32, 0),
        (11, 1, 4),
        (12, 11, 12),
        (13, 65, 13),
        (15, 1, 14),
        (18, 1, 18),
    ] {
        let mut bytes = first_log(alloc)?;
        assert!(rt; at < bytes.len());
        bytes[at] = byte;
        let Err(
            ParseError::Bad {
                offset,
                rule: Rule::BadField,
            },
        ) = read_header(&bytes)
        else {
            assert!(rt; false, "byte {at}");
            continue;
        };
        assert_eq!(rt; offset, field);
    }
    Ok(())
}

#[test]
fn one_byte_a_call_gives_the_same_events(rt: HostRuntime) -> Result<(), Fail> {
    let alloc = rt.alloc();
    let source = MemSource::new(first_log(alloc)?, vec![in alloc; 1; 200]?, vec![in alloc]?);
    let mut reader = LogReader::new(alloc, source)?;
    assert!(rt; matches!(reader.header(), Ok(header) if header == FIRST));
    assert!(rt; matches!(reader.next(alloc), Ok((Event::Instruction(7), 98))));
    assert!(rt; matches!(reader.at_end(), Ok(false)));
    let end = reader.next(alloc);
    assert!(rt; matches!(end, Ok((Event::End { reason: 0, code: 0 }, 103))));
    assert!(rt; matches!(reader.at_end(), Ok(true)));
    let more = reader.next(alloc);
    assert!(rt; matches!(more, Err(StreamError::Parse(ParseError::Cut(109)))));
    let mut source = reader.into_inner();
    assert!(rt; matches!(source.read(&mut [0; 1]), Ok(0)));
    Ok(())
}

#[test]
fn a_sink_that_failed_is_asked_no_more(rt: HostRuntime) -> Result<(), Fail> {
    let alloc = rt.alloc();
    let sink = MemSink::new(alloc, vec![in alloc; 1]?);
    let mut writer = LogWriter::new(alloc, sink)?;
    assert!(rt; writer.header(alloc, &FIRST).is_ok());
    assert!(rt; writer.put(alloc, &Event::Instruction(7)).is_ok());
    assert!(rt; matches!(writer.finish(), Err(StreamError::Failed)));
    assert!(rt;
        matches!(
            writer.put(alloc, &Event::Interrupt),
            Err(StreamError::Failed)
        )
    );
    let sink = writer.into_inner();
    assert_eq!(rt; sink.bytes().len(), 98);
    Ok(())
}
