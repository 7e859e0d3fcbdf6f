//! Batches of a house of ann and bob, and what comes of them.
use crate::exchanges::devices::{Paper, Tape, blank_paper, tape_of};
use crate::sample::house;
use nesl_house::house::House;
use nesl_line::batch::batch;
use nesl_line::device::{Device, Sink, Source};
use nesl_line::exchange::{End, Ran};
use std::alloc::{AllocError, Global};

/// What comes of a batch.
#[derive(Drop)]
pub struct Outcome {
    pub ran: Ran,
    /// The reads and the writes that failed.
    pub failures: (u64, u64),
    pub paper: Paper,
    /// The lines that ann's session stored, and the work that is left to it.
    pub of_ann: (usize, u64),
}

fn of_ann(house: &House) -> (usize, u64) {
    match house.session(b"ann") {
        Some(ann) => (ann.lines().len(), ann.remaining().work),
        None => (usize::MAX, 0),
    }
}

/// What comes of a batch that reads the tape and writes on the paper.
pub fn outcome_of(alloc: Global, tape: Tape<'_>, paper: Paper) -> Result<Outcome, AllocError> {
    let mut house = house(alloc)?;
    let mut reader = Device::new(tape);
    let mut writer = Device::new(paper);
    let ran = batch(alloc, &mut reader, &mut writer, &mut house);
    Ok(Outcome {
        ran,
        failures: (Source::failures(&reader), Sink::failures(&writer)),
        paper: writer.into_inner(),
        of_ann: of_ann(&house),
    })
}

/// Whether that is answered to this many lines, if this many bytes come at a time.
pub fn is_answered(
    alloc: Global,
    text: &[u8],
    step: usize,
    (wanted, lines): (&str, u64),
) -> Result<bool, AllocError> {
    let outcome = outcome_of(alloc, tape_of(text, step), blank_paper(alloc))?;
    let end = End::Input;
    Ok(outcome.ran == Ran { lines, end } && outcome.paper.bytes.as_slice() == wanted.as_bytes())
}
