//! The parts of an answer, by its text.

/// The work and the depth of a value, in digits, and what is before them.
#[derive(Clone, Copy, PartialEq, Eq, Debug)]
pub struct CostCells<'a> {
    pub before: &'a [u8],
    pub work: &'a [u8],
    pub depth: &'a [u8],
}

/// The parts of an answer. Those that it doesn't have are empty.
#[derive(Clone, Copy, PartialEq, Eq, Debug)]
pub(crate) struct Cells<'a> {
    pub(crate) value: &'a [u8],
    pub(crate) type_text: &'a [u8],
    pub(crate) work: &'a [u8],
    pub(crate) depth: &'a [u8],
    pub(crate) fault: &'a [u8],
}

/// Finds the work and the depth at the end of an answer.
pub fn find_costs(answer: &[u8]) -> Option<CostCells<'_>> {
    let inner = answer.strip_suffix(b")".as_slice())?;
    let open = inner.iter().rposition(|byte| *byte == b'(')?;
    let costs = inner.get(open..)?.strip_prefix(b"(work ".as_slice())?;
    let comma = costs.iter().position(|byte| *byte == b',')?;
    let depth = costs.get(comma..)?.strip_prefix(b", depth ".as_slice())?;
    Some(CostCells {
        before: inner.get(..open)?,
        work: costs.get(..comma)?,
        depth,
    })
}

/// Finds the word of the fault that an answer is.
pub fn find_fault(answer: &[u8]) -> Option<&[u8]> {
    let name = answer.strip_prefix(b"fault ".as_slice())?;
    match name.iter().position(|byte| *byte == b' ') {
        Some(end) => name.get(..end),
        None => Some(name),
    }
}

// Returns the parts of an answer that is no fault.
pub(crate) fn cells_of(answer: &[u8]) -> Cells<'_> {
    let none = b"".as_slice();
    match find_costs(answer) {
        Some(
            CostCells {
                before,
                work,
                depth,
            },
        ) => Cells {
            value: find_value(before).unwrap_or(none),
            type_text: find_type_of_value(before).unwrap_or(none),
            work,
            depth,
            fault: none,
        },
        None => Cells {
            value: none,
            type_text: find_type(answer).unwrap_or(none),
            work: none,
            depth: none,
            fault: none,
        },
    }
}

// Returns the parts of an answer that is a fault.
pub(crate) fn cells_of_fault(answer: &[u8]) -> Cells<'_> {
    let none = b"".as_slice();
    Cells {
        value: none,
        type_text: none,
        work: none,
        depth: none,
        fault: find_fault(answer).unwrap_or(none),
    }
}

// Finds the value in `NAME = VALUE : TYPE`. No type has a colon in it, and no name an equals sign.
fn find_value(binding: &[u8]) -> Option<&[u8]> {
    let colon = binding.iter().rposition(|byte| *byte == b':')?;
    let named = binding.get(..colon)?;
    let equals = named.iter().position(|byte| *byte == b'=')?;
    Some(named.get(equals.saturating_add(1)..)?.trim_ascii())
}

// Finds the type in `NAME = VALUE : TYPE`.
fn find_type_of_value(binding: &[u8]) -> Option<&[u8]> {
    let colon = binding.iter().rposition(|byte| *byte == b':')?;
    Some(binding.get(colon.saturating_add(1)..)?.trim_ascii())
}

// Finds the type in `NAME : TYPE`, and in `type: TYPE`.
fn find_type(answer: &[u8]) -> Option<&[u8]> {
    let colon = answer.iter().position(|byte| *byte == b':')?;
    let named = answer.get(..colon)?;
    if named.ends_with(b" ".as_slice()) || named == b"type".as_slice() {
        return Some(answer.get(colon.saturating_add(1)..)?.trim_ascii());
    }
    None
}
