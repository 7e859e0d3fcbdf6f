//! The limits of sessions and heaps.

use nesl_session::limits::Limits;

/// The limits of the program.
pub const LIMITS: Limits = Limits {
    line_work: 1_000_000,
    session_work: 100_000_000,
    elements: 100_000,
    transcript_lines: 10_000,
    transcript_bytes: 1_048_576,
};

/// How many bytes a heap has.
pub const HEAP_BYTES: usize = 65_536;

/// The limits that a line gives after `@ `, as far as it does; the others are the program's.
pub fn limits_of(line: &[u8]) -> Option<Limits> {
    let rest = match line {
        [b'@', b' ', rest @ ..] => rest,
        _ => return None,
    };
    let mut limits = LIMITS;
    for (place, word) in rest.split(|byte| *byte == b' ').enumerate() {
        let number = number_of(word);
        match place {
            0 => limits.line_work = number,
            1 => limits.session_work = number,
            2 => limits.elements = number,
            3 => limits.transcript_lines = number,
            _ => limits.transcript_bytes = number,
        }
    }
    Some(limits)
}

/// How many blanks a line is short for, which begins with `.. `.
pub fn blanks_of(line: &[u8]) -> Option<u64> {
    match line {
        [b'.', b'.', b' ', rest @ ..] => Some(number_of(rest).min(100_000)),
        _ => None,
    }
}

// The number that these digits are.
fn number_of(word: &[u8]) -> u64 {
    let mut number = 0u64;
    for byte in word {
        if byte.is_ascii_digit() {
            number = number
                .saturating_mul(10)
                .saturating_add(u64::from(*byte - b'0'));
        }
    }
    number
}
