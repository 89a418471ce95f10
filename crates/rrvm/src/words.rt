//! The words that the program was started with.

use std::alloc::AllocError;
use std::env::{Env, FillError};

/// The words after the program's name.
#[derive(Drop)]
pub(crate) struct Given {
    /// Those before the first that isn't UTF-8.
    pub texts: Vec<String>,
    /// The bytes of that one.
    pub raw: Option<Vec<u8>>,
}

// The bytes of the word of that number, the program's name being 0, and none after the last.
fn word(rt: HostRuntime, number: usize) -> Result<Option<Vec<u8>>, AllocError> {
    let mut room = 256usize;
    for _ in 0..32 {
        let mut bytes = vec![in rt.alloc(); 0u8; room]?;
        match rt.arg(number, &mut bytes) {
            Ok(count) => {
                bytes.truncate(count);
                return Ok(Some(bytes));
            }
            Err(FillError::NotPresent) => return Ok(None),
            Err(FillError::TooLong) => room = room.saturating_mul(2),
        }
    }
    Err(AllocError)
}

/// The words of this process.
pub(crate) fn given_words(rt: HostRuntime) -> Result<Given, AllocError> {
    let mut texts = Vec::new(rt.alloc());
    for number in 1..usize::MAX {
        let Some(bytes) = word(rt, number)? else {
            break;
        };
        match String::from_utf8(bytes) {
            Ok(text) => texts.push(text)?,
            Err(error) => {
                return Ok(Given {
                    texts,
                    raw: Some(error.into_bytes()),
                });
            }
        }
    }
    Ok(Given { texts, raw: None })
}
