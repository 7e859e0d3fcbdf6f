//! Requests for memory.

use crate::writing::put_wrong;
use std::alloc::{AllocError, Global};

/// Asks for memory as many times as the word says, and does nothing with it.
pub fn request(alloc: Global, word: &str, out: &mut Vec<u8>) -> Result<(), AllocError> {
    let Ok(count) = word.parse::<u32>() else {
        return put_wrong(out);
    };
    for _ in 0..count {
        let _byte = Box::new(alloc, 0)?;
    }
    Ok(())
}
