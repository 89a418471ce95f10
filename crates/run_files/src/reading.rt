//! Reading a source whole.

ghost use Rattle.std.specs.Prelude.{◌≡◌, ◌<◌, ◌≤◌, ◌^◌, length, IfOk, IfSome, OnOk, IsErrOf};
ghost use Rattle.outside.specs.Causes.{Rose};

use outside::Source;
use std::alloc::Global;

/// Why a source wasn't read whole.
#[derive(Clone, Copy, Debug, PartialEq, Eq)]
pub enum ReadError {
    Failed,
    /// It has more bytes than the limit.
    TooLong,
    NoMemory,
}

/// All that a source has left, at most so many bytes.
pub fn read_all<S: Source>(
    alloc: Global,
    source: &mut S,
    limit: usize,
) -> Result<Vec<u8>, ReadError>
    requires { limit < 2 ^ 32 }
    ensures whole { IfOk result (λ v. IfSome (S.left source.old) (λ xs. v.items ≡ xs)) }
    ensures short { IfOk result (λ v. length v.items ≤ limit) }
    ensures kept { OnOk result (S.faults source.new ≡ S.faults source.old) }

    ensures long { IsErrOf result ReadError.TooLong
        → IfSome (S.left source.old) (λ xs. limit < length xs) }
    ensures kept_long { IsErrOf result ReadError.TooLong
        → S.faults source.new ≡ S.faults source.old }
    ensures kept_memory { IsErrOf result ReadError.NoMemory
        → S.faults source.new ≡ S.faults source.old }
    ensures failed { IsErrOf result ReadError.Failed
        → Rose (S.faults source.old) (S.faults source.new) }
{
    let mut bytes = Vec::new(alloc);
    let mut buf = [0u8; 4096];
    while bytes.len() <= limit {
        match source.read(&mut buf) {
            Ok(0) => return Ok(bytes),
            Ok(count) => {
                if bytes.extend_from_slice(&buf[..count]).is_err() {
                    return Err(ReadError::NoMemory);
                }
            }
            Err(_) => return Err(ReadError::Failed),
        }
    }
    Err(ReadError::TooLong)
}
