//! Values and functions as the rows write them.
use nesl_seqs::SeqFn;
use nesl_values::Value;
use std::alloc::{AllocError, Global};

/// The value of a text, or nothing where it has none. The words of a text are numbers, among them `MIN` and `MAX`; `T`
/// and `F`; `'c`; `"text"`; `[1,2]`, a sequence of numbers; `{TF}`, one of truth values; `( a b )`, a pair; and
/// `< a b >`, a sequence of values.
///
/// The sequences of leaves are packed or not: one in turn for each bit of `packed`, from the lowest on.
pub fn value_of(alloc: Global, text: &str, packed: u32) -> Result<Option<Value>, AllocError> {
    let mut stack = Vec::new(alloc);
    let mut packed = packed;
    for word in text.split_whitespace() {
        push_word(alloc, &mut stack, word, packed & 1 == 1)?;
        if matches!(word.as_bytes(), [b'[' | b'{' | b'"', ..]) {
            packed >>= 1;
        }
    }
    if stack.len() == 1 {
        Ok(stack.pop().flatten())
    } else {
        Ok(None)
    }
}

// Puts the value of a word on the stack. An open bracket is none there, and a word that has no value, too.
fn push_word(
    alloc: Global,
    stack: &mut Vec<Option<Value>>,
    word: &str,
    packed: bool,
) -> Result<(), AllocError> {
    let value = match word.as_bytes() {
        [b'(' | b'<'] => None,
        [b')'] => pair_on(alloc, stack)?,
        [b'>'] => Some(sequence_on(alloc, stack)?),
        bytes => leaves_of(alloc, bytes, packed)?,
    };
    stack.push(value)?;
    Ok(())
}

fn pair_on(alloc: Global, stack: &mut Vec<Option<Value>>) -> Result<Option<Value>, AllocError> {
    let Some(right) = stack.pop().flatten() else {
        return Ok(None);
    };
    let Some(left) = stack.pop().flatten() else {
        return Ok(None);
    };
    let _ = stack.pop();
    Ok(Some(Value::pair(alloc, left, right)?))
}

fn sequence_on(alloc: Global, stack: &mut Vec<Option<Value>>) -> Result<Value, AllocError> {
    let mut values = Vec::new(alloc);
    for _ in 0..stack.len() {
        match stack.pop().flatten() {
            Some(value) => values.push(value)?,
            None => break,
        }
    }
    values.reverse();
    Value::sequence(alloc, values)
}

// A leaf, or a sequence of leaves, which is packed or not.
fn leaves_of(alloc: Global, word: &[u8], packed: bool) -> Result<Option<Value>, AllocError> {
    match packed_of(alloc, word)? {
        Some(sequence) if packed => Ok(Some(sequence)),
        Some(sequence) => Ok(Some(unpacked(alloc, &sequence)?)),
        None => Ok(leaf_of(word)),
    }
}

fn packed_of(alloc: Global, word: &[u8]) -> Result<Option<Value>, AllocError> {
    match word {
        [b'[', numbers @ .., b']'] => numbers_of(alloc, numbers),
        [b'{', truths @ .., b'}'] => Ok(Some(truths_of(alloc, truths)?)),
        [b'"', letters @ .., b'"'] => {
            let letters = Vec::from_slice(alloc, letters)?;
            Ok(Some(Value::chars(alloc, letters)?))
        }
        _ => Ok(None),
    }
}

fn leaf_of(word: &[u8]) -> Option<Value> {
    match word {
        [b'T'] => Some(Value::Bool(true)),
        [b'F'] => Some(Value::Bool(false)),
        [b'\'', letter] => Some(Value::Char(*letter)),
        number => Some(Value::Int(number_of(number)?)),
    }
}

fn number_of(word: &[u8]) -> Option<i64> {
    let text = str::from_utf8(word).ok()?;
    if text == "MIN" {
        return Some(i64::MIN);
    }
    if text == "MAX" {
        return Some(i64::MAX);
    }
    text.parse::<i64>().ok()
}

fn numbers_of(alloc: Global, list: &[u8]) -> Result<Option<Value>, AllocError> {
    let mut numbers = Vec::new(alloc);
    if !list.is_empty() {
        for digits in list.split(|byte| *byte == b',') {
            match number_of(digits) {
                Some(number) => numbers.push(number)?,
                None => return Ok(None),
            }
        }
    }
    Ok(Some(Value::ints(alloc, numbers)?))
}

fn truths_of(alloc: Global, list: &[u8]) -> Result<Value, AllocError> {
    let mut truths = Vec::new(alloc);
    for letter in list {
        truths.push(*letter == b'T')?;
    }
    Value::bools(alloc, truths)
}

// A sequence of the same elements, not packed.
fn unpacked(alloc: Global, packed: &Value) -> Result<Value, AllocError> {
    let mut values = Vec::new(alloc);
    let items = packed.items();
    for place in 0..items.len() {
        values.push(items.at(place).share()?)?;
    }
    Value::sequence(alloc, values)
}

/// The names of the functions.
const NAMES: &str =
    "length element_at append dist range range_by index sum any all count bottop take drop reverse rotate \
    zip rep eql max_val min_val max_index min_index plus_scan or_scan and_scan flatten partition split \
    unzip odd_elts even_elts interleave gather permute write";

/// The functions, in the order of their names.
const FUNCTIONS: [SeqFn; 36] = [
    SeqFn::Length,
    SeqFn::ElementAt,
    SeqFn::Append,
    SeqFn::Dist,
    SeqFn::Range,
    SeqFn::RangeBy,
    SeqFn::Index,
    SeqFn::Sum,
    SeqFn::Any,
    SeqFn::All,
    SeqFn::Count,
    SeqFn::Bottop,
    SeqFn::Take,
    SeqFn::Drop,
    SeqFn::Reverse,
    SeqFn::Rotate,
    SeqFn::Zip,
    SeqFn::Rep,
    SeqFn::Eql,
    SeqFn::MaxVal,
    SeqFn::MinVal,
    SeqFn::MaxIndex,
    SeqFn::MinIndex,
    SeqFn::PlusScan,
    SeqFn::OrScan,
    SeqFn::AndScan,
    SeqFn::Flatten,
    SeqFn::Partition,
    SeqFn::Split,
    SeqFn::Unzip,
    SeqFn::OddElts,
    SeqFn::EvenElts,
    SeqFn::Interleave,
    SeqFn::Gather,
    SeqFn::Permute,
    SeqFn::Write,
];

/// The place of a name among others.
pub fn place_of(names: &str, name: &str) -> Option<usize> {
    names.split(' ').position(|known| known == name)
}

/// The function of this name.
pub fn function_of(name: &str) -> Option<SeqFn> {
    FUNCTIONS.get(place_of(NAMES, name)?).copied()
}
