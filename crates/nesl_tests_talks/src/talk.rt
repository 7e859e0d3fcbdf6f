//! Texts that are said to a house.
use crate::limits::{HEAP_BYTES, LIMITS};
use crate::standing::{numbers, put_standing, roster};
use crate::told::{ROOM, Refusal, Told, put_line};
use linked_list_allocator::LocalHeap;
use nesl_house::house::{House, Said};
use nesl_house::roster::NewFault;
use nesl_line::batch::{batch, batch_in};
use nesl_line::device::Device;
use nesl_line::exchange::{End, Ran};
use nesl_session::Fault;
use nesl_session::answer::Answer;
use std::alloc::{AllocError, Global};

fn opened(alloc: Global) -> Result<House, Refusal> {
    let roster = roster(alloc)?;
    match House::new(alloc, roster.as_slice(), LIMITS) {
        Ok(house) => Ok(house),
        Err(NewFault::Memory) => Err(Refusal::Call),
        Err(_) => Err(Refusal::Own),
    }
}

// The name that a line selects.
fn selected(line: &str) -> Option<&str> {
    line.strip_prefix("user ")
}

// Says a line by `say`. What can be told of the sessions stays the same where memory is refused.
fn say_line(
    alloc: Global,
    house: &mut House,
    user: &[u8],
    line: &str,
    told: &mut Told,
) -> Result<(), AllocError> {
    let before = numbers(house);
    let answer = house.say(alloc, user, line.as_bytes());
    if answer.fault() == Some(Fault::Memory) && numbers(house) != before {
        told.is_unchanged = false;
    }
    told.answers.extend_from_slice(answer.bytes())
}

fn say_lines(
    alloc: Global,
    house: &mut House,
    text: &str,
    told: &mut Told,
) -> Result<(), AllocError> {
    let mut user = b"".as_slice();
    for line in text.lines() {
        match selected(line) {
            Some(name) => {
                user = name.as_bytes();
                put_line(&mut told.answers, line)?;
            }
            None => say_line(alloc, house, user, line, told)?,
        }
    }
    Ok(())
}

// Adds a line to a script.
fn push_said(
    alloc: Global,
    script: &mut Vec<Said>,
    user: &[u8],
    line: &str,
) -> Result<(), AllocError> {
    let user = Vec::from_slice(alloc, user)?;
    let text = Vec::from_slice(alloc, line.as_bytes())?;
    script.push(Said { user, text })?;
    Ok(())
}

// The lines of a text, each with the user who says it.
fn script(alloc: Global, text: &str) -> Result<Vec<Said>, AllocError> {
    let mut script = Vec::new(alloc);
    let mut user = b"".as_slice();
    for line in text.lines() {
        match selected(line) {
            Some(name) => user = name.as_bytes(),
            None => push_said(alloc, &mut script, user, line)?,
        }
    }
    Ok(script)
}

// Writes the answers to a text.
fn put_answers(text: &str, given: &[Answer], answers: &mut Vec<u8>) -> Result<(), AllocError> {
    let mut given = given.iter();
    for line in text.lines() {
        if selected(line).is_some() {
            put_line(answers, line)?;
        } else if let Some(answer) = given.next() {
            answers.extend_from_slice(answer.bytes())?;
        }
    }
    Ok(())
}

// Says a text by `run`.
fn run_script(
    alloc: Global,
    house: &mut House,
    script: &[Said],
    text: &str,
    told: &mut Told,
) -> Result<(), AllocError> {
    let before = numbers(house);
    let mut given = house.run(alloc, script);
    if given.is_err() {
        told.repeat(numbers(house) == before);
        given = house.run(alloc, script);
    }
    let given = given?;
    put_answers(text, given.as_slice(), &mut told.answers)
}

// A batch of the text, in a heap where there is one, and what it writes.
fn ran(
    alloc: Global,
    house: &mut House,
    text: &str,
    heap: Option<&LocalHeap>,
) -> Result<(Ran, Vec<u8>), AllocError> {
    let mut reader = Device::new(text.as_bytes());
    let mut writer = Device::new(Vec::with_capacity(alloc, ROOM)?);
    let ran = match heap {
        Some(heap) => batch_in(alloc, &mut reader, &mut writer, house, heap),
        None => batch(alloc, &mut reader, &mut writer, house),
    };
    Ok((ran, writer.into_inner()))
}

// Says a text by `batch` or `batch_in`.
fn run_batch(
    alloc: Global,
    house: &mut House,
    text: &str,
    heap: Option<&LocalHeap>,
    told: &mut Told,
) -> Result<(), Refusal> {
    let before = numbers(house);
    let (mut end, mut answers) = ran(alloc, house, text, heap)?;
    if end.end == End::NoMemory {
        told.repeat(end.lines == 0 && answers.is_empty() && numbers(house) == before);
        (end, answers) = ran(alloc, house, text, heap)?;
    }
    told.answers = answers;
    if end.end == End::Input {
        Ok(())
    } else {
        Err(Refusal::Own)
    }
}

fn batch_by(
    alloc: Global,
    house: &mut House,
    text: &str,
    way: &str,
    told: &mut Told,
) -> Result<(), Refusal> {
    if way == "heap" {
        let heap = LocalHeap::new(alloc, HEAP_BYTES)?;
        run_batch(alloc, house, text, Some(&heap), told)
    } else {
        run_batch(alloc, house, text, None, told)
    }
}

// Says a text by a house's call.
fn say_by(
    alloc: Global,
    house: &mut House,
    text: &str,
    way: &str,
    told: &mut Told,
) -> Result<(), Refusal> {
    if way == "say" {
        Ok(say_lines(alloc, house, text, told)?)
    } else if way == "run" {
        let script = script(alloc, text)?;
        Ok(run_script(alloc, house, script.as_slice(), text, told)?)
    } else {
        batch_by(alloc, house, text, way, told)
    }
}

/// By a house's call.
pub fn said(alloc: Global, text: &str, way: &str) -> Result<Told, Refusal> {
    let mut house = opened(alloc)?;
    let mut told = Told::new(alloc)?;
    say_by(alloc, &mut house, text, way, &mut told)?;
    put_standing(alloc, &house, &mut told.standing)?;
    Ok(told)
}
