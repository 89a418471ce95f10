//! Reading a field at the front of bytes, most significant byte first.

ghost use Rattle.std.specs.Prelude.{◌≡◌, length, IfOk};
ghost use Rattle.std.specs.Int.{w8, w32, w64};
ghost use Rattle.event_log.specs.Log.{Finds, number_at, bytes_at};

/// A field isn't wholly there.
#[derive(Clone, Copy, Debug, PartialEq, Eq)]
pub struct CutShort;

/// A byte, and the bytes after it.
pub fn u8_at(bytes: &[u8]) -> Result<(u8, &[u8]), CutShort>
    ensures { Finds (λ x. (x.0, x.1.now)) result (number_at 1 w8 bytes.now) }
{
    if bytes.is_empty() {
        return Err(CutShort);
    }
    let (front, rest) = bytes.split_at(1);
    Ok((u8::from_be_bytes([front[0]]), rest))
}

/// A number of four bytes, and the bytes after it.
pub fn u32_at(bytes: &[u8]) -> Result<(u32, &[u8]), CutShort>
    ensures { Finds (λ x. (x.0, x.1.now)) result (number_at 4 w32 bytes.now) }
{
    if bytes.len() < 4 {
        return Err(CutShort);
    }
    let (front, rest) = bytes.split_at(4);
    let number = u32::from_be_bytes([front[0], front[1], front[2], front[3]]);
    Ok((number, rest))
}

/// A number of eight bytes, and the bytes after it.
pub fn u64_at(bytes: &[u8]) -> Result<(u64, &[u8]), CutShort>
    ensures { Finds (λ x. (x.0, x.1.now)) result (number_at 8 w64 bytes.now) }
{
    if bytes.len() < 8 {
        return Err(CutShort);
    }
    let (front, rest) = bytes.split_at(8);
    let number = u64::from_be_bytes([
        front[0], front[1], front[2], front[3], front[4], front[5], front[6], front[7],
    ]);
    Ok((number, rest))
}

/// So many bytes, and those after them.
pub fn front_at(bytes: &[u8], count: usize) -> Result<(&[u8], &[u8]), CutShort>
    ensures found { Finds (λ x. (x.0.now, x.1.now)) result (bytes_at count bytes.now) }
    ensures size { IfOk result (λ x. length x.0.now ≡ count) }
{
    if bytes.len() < count {
        return Err(CutShort);
    }
    Ok(bytes.split_at(count))
}

/// A digest of 32 bytes, and the bytes after it.
pub fn digest_at(bytes: &[u8]) -> Result<([u8; 32], &[u8]), CutShort>
    ensures { Finds (λ x. (x.0, x.1.now)) result (bytes_at 32 bytes.now) }
{
    let (front, rest) = front_at(bytes, 32)?;
    let mut digest = [0; 32];
    digest.copy_from_slice(front);
    Ok((digest, rest))
}
