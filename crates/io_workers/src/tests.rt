//! Sources in memory that give their bytes in chunks, and fail.

use crate::{Chunks, Packets, Pieces, ReadError};
use outside::{Bytes, MemSource, Source};
use std::alloc::Global;
use std::test::Fail;

// A source of these bytes that gives so many at each call, where the calls of those numbers fail.
fn source(
    alloc: Global,
    bytes: &[u8],
    chunks: &[usize],
    failing: &[u64],
) -> Result<MemSource, Fail> {
    Ok(MemSource::new(
        bytes.to_vec(alloc)?,
        chunks.to_vec(alloc)?,
        failing.to_vec(alloc)?,
    ))
}

fn gives(answer: &Result<Option<Bytes>, ReadError>, bytes: &[u8]) -> bool {
    matches!(answer, Ok(Some(piece)) if piece.as_slice() == bytes)
}

#[test]
fn pieces_come_as_the_source_gives_them(rt: HostRuntime) -> Result<(), Fail> {
    let alloc = rt.alloc();
    let mut chunks = Chunks::new(source(alloc, b"abc", &[1, 2], &[])?);
    assert!(rt; gives(&chunks.next(alloc), b"a"));
    assert!(rt; gives(&chunks.next(alloc), b"bc"));
    assert!(rt; matches!(chunks.next(alloc), Ok(None)));
    assert!(rt; matches!(chunks.next(alloc), Ok(None)));
    Ok(())
}

#[test]
fn a_source_that_gives_all_at_once_is_cut_after_256_bytes(rt: HostRuntime) -> Result<(), Fail> {
    let alloc = rt.alloc();
    let mut chunks = Chunks::new(source(alloc, &[7; 600], &[], &[])?);
    assert!(rt; gives(&chunks.next(alloc), &[7; 256]));
    assert!(rt; gives(&chunks.next(alloc), &[7; 256]));
    assert!(rt; gives(&chunks.next(alloc), &[7; 88]));
    assert!(rt; matches!(chunks.next(alloc), Ok(None)));
    Ok(())
}

#[test]
fn a_read_that_fails_loses_nothing(rt: HostRuntime) -> Result<(), Fail> {
    let alloc = rt.alloc();
    let mut chunks = Chunks::new(source(alloc, b"abcd", &[2, 2, 2], &[1])?);
    assert!(rt; gives(&chunks.next(alloc), b"ab"));
    assert!(rt; matches!(chunks.next(alloc), Err(ReadError::Failed)));
    assert!(rt; gives(&chunks.next(alloc), b"cd"));
    assert!(rt; matches!(chunks.next(alloc), Ok(None)));
    Ok(())
}

#[test]
fn the_source_comes_back_with_what_it_has_left(rt: HostRuntime) -> Result<(), Fail> {
    let alloc = rt.alloc();
    let mut chunks = Chunks::new(source(alloc, b"abc", &[1], &[])?);
    assert!(rt; gives(&chunks.next(alloc), b"a"));
    let mut source = chunks.into_inner();
    let mut buf = [0; 4];
    assert_eq!(rt; source.read(&mut buf), Ok(2));
    assert_eq!(rt; buf, *b"bc\0\0");
    Ok(())
}

#[test]
fn a_source_that_ended_is_not_read_again(rt: HostRuntime) -> Result<(), Fail> {
    let alloc = rt.alloc();
    let mut pieces = Pieces::new();
    let mut over = source(alloc, b"", &[], &[])?;
    assert!(rt; !pieces.ended());
    assert!(rt; matches!(pieces.next(alloc, &mut over), Ok(None)));
    assert!(rt; pieces.ended());
    let mut more = source(alloc, b"abc", &[], &[])?;
    assert!(rt; matches!(pieces.next(alloc, &mut more), Ok(None)));
    Ok(())
}

// A packet of so many bytes, all 7, as a file has it.
fn packet(alloc: Global, length: u32) -> Result<Vec<u8>, Fail> {
    let mut bytes = length.to_be_bytes().to_vec(alloc)?;
    bytes.resize(4 + length as usize, 7)?;
    Ok(bytes)
}

// Whether a file that goes on like this after a packet of 14 bytes has no other packet.
fn ends_behind_a_packet(alloc: Global, more: &[u8]) -> Result<bool, Fail> {
    let mut bytes = packet(alloc, 14)?;
    bytes.extend_from_slice(more)?;
    let mut packets = Packets::new(source(alloc, &bytes, &[], &[])?);
    Ok(
        gives(&packets.next(alloc), &[7; 14])
            && matches!(packets.next(alloc), Ok(None))
            && matches!(packets.next(alloc), Ok(None)),
    )
}

#[test]
fn packets_end_at_the_first_that_is_not_whole_or_in_range(rt: HostRuntime) -> Result<(), Fail> {
    let alloc = rt.alloc();
    assert!(rt; ends_behind_a_packet(alloc, &[])?);
    assert!(rt; ends_behind_a_packet(alloc, &packet(alloc, 13)?)?);
    assert!(rt; ends_behind_a_packet(alloc, &packet(alloc, 1515)?)?);
    assert!(rt; ends_behind_a_packet(alloc, &[0, 0, 0])?);
    let mut cut = packet(alloc, 60)?;
    cut.truncate(63);
    assert!(rt; ends_behind_a_packet(alloc, &cut)?);
    Ok(())
}

#[test]
fn a_read_that_fails_in_a_packet_loses_nothing(rt: HostRuntime) -> Result<(), Fail> {
    let alloc = rt.alloc();
    let bytes = packet(alloc, 1514)?;
    let mut packets = Packets::new(source(alloc, &bytes, &[3, 1, 1000], &[1, 3])?);
    assert!(rt; matches!(packets.next(alloc), Err(ReadError::Failed)));
    assert!(rt; matches!(packets.next(alloc), Err(ReadError::Failed)));
    assert!(rt; gives(&packets.next(alloc), &[7; 1514]));
    assert!(rt; matches!(packets.next(alloc), Ok(None)));
    Ok(())
}
