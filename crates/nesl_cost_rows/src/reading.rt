//! Traces, read: all charges, and those on the critical path.
ghost use Rattle.std.specs.Prelude.{◌≡◌, ◌++◌, ◌∷◌, [], None, OnOk, IfOk, map};
ghost use Rattle.nesl_cost_meaning.specs.Cost.{Cost, charges, path, decision};
ghost use Rattle.nesl_cost_rows.specs.Written.{note_of, written};
ghost use Rattle.nesl_cost_rows.specs.Charges.{charge_of};
ghost use Rattle.nesl_cost_rows.specs.Readings.{charges_in, state_of, charged, set_apart};
ghost use Rattle.nesl_cost_rows.specs.Readings.{joined, inside, outside, step};

use crate::charge::{Charge, Path};
use crate::path::deeper;
use crate::trace::Mark;
use nesl_lex::token::Span;
use std::alloc::{AllocError, Global};
use std::mem;

/// A trace that is read: what is charged so far, and what isn't over.
#[derive(Drop)]
struct Reading<'a> {
    // Where the next mark is, and where the functions were called that are not over.
    home: Option<&'a [u8]>,
    callers: Vec<Option<&'a [u8]>>,
    charges: Vec<Charge<'a>>,
    // The path so far of what is read, and the paths before it and beside it.
    path: Path<'a>,
    waiting: Vec<Path<'a>>,
}

/// All charges of an evaluation, and those on its critical path.
#[derive(Drop)]
pub struct Charges<'a> {
    pub all: Vec<Charge<'a>>,
    pub path: Path<'a>,
}

impl<'a> Reading<'a> {
    // One more charge here.
    fn charge(&mut self, charge: Charge<'a>) -> Result<(), AllocError>
        ensures { OnOk result (state_of self.new ≡ charged (charge_of charge.entry) (state_of self.old)) }
    {
        self.charges.push(charge)?;
        self.path.add(charge)?;
        Ok(())
    }

    // What is read from now on is a path of its own.
    fn set_apart(&mut self, path: Path<'a>) -> Result<(), AllocError>
        ensures { OnOk result (state_of self.new ≡ set_apart (charges_in path.entry) (state_of self.old)) }
    {
        let before = mem::replace(&mut self.path, path);
        self.waiting.push(before)?;
        Ok(())
    }

    // A turn begins, which decides if it is the deepest.
    fn turn(&mut self, alloc: Global, span: Span, place: u64) -> Result<(), AllocError>
        ensures { OnOk result (state_of self.new ≡ set_apart (decision (state_of self.old).home span place ∷ [])
            (state_of self.old)) }
    {
        let mut path = Path::new(alloc);
        path.add(Charge {
            home: self.home,
            span,
            entries: 0,
            work: 0,
            depth: 0,
            decides: Some(place),
        })?;
        self.set_apart(path)?;
        Ok(())
    }

    // The turns after one are over. `Err` is also for a trace that is no cost's.
    fn turned(&mut self) -> Result<(), AllocError>
        ensures { OnOk result (state_of self.new ≡ joined (state_of self.old)) }
    {
        let Some(turn) = self.waiting.pop() else {
            return Err(AllocError);
        };
        let Some(before) = self.waiting.pop() else {
            return Err(AllocError);
        };
        let others = mem::replace(&mut self.path, before);
        self.path.append(deeper(turn, others))?;
        Ok(())
    }

    fn called(&mut self, name: &'a [u8]) -> Result<(), AllocError>
        ensures { OnOk result (state_of self.new ≡ inside name.now (state_of self.old)) }
    {
        self.callers.push(self.home)?;
        self.home = Some(name);
        Ok(())
    }

    // A function is over. `Err` is for a trace that is no cost's.
    fn returned(&mut self) -> Result<(), AllocError>
        ensures { OnOk result (state_of self.new ≡ outside (state_of self.old)) }
    {
        let Some(home) = self.callers.pop() else {
            return Err(AllocError);
        };
        self.home = home;
        Ok(())
    }

    // One more mark.
    fn read(&mut self, alloc: Global, mark: &Mark<'a>) -> Result<(), AllocError>
        ensures { OnOk result (state_of self.new ≡ step (note_of mark.now) (state_of self.old)) }
    {
        let home = self.home;
        match *mark {
            Mark::Entered(span) => self.charge(Charge {
                home,
                span,
                entries: 1,
                work: 1,
                depth: 1,
                decides: None,
            }),
            Mark::Besides { span, work, depth } => self.charge(Charge {
                home,
                span,
                entries: 0,
                work,
                depth,
                decides: None,
            }),
            Mark::Turn { span, place } => self.turn(alloc, span, place),
            Mark::Others => self.set_apart(Path::new(alloc)),
            Mark::Turned => self.turned(),
            Mark::Called { name, .. } => self.called(name),
            Mark::Returned => self.returned(),
        }
    }
}

/// All charges that a trace has, and those on the critical path. `Err` is also for sums above 64 bits, and for marks
/// that are no cost's.
pub fn charges_of<'a>(alloc: Global, marks: &[Mark<'a>]) -> Result<Charges<'a>, AllocError>
    ensures all { (c : Cost) → map note_of marks.now ≡ written c
        → IfOk result (λ r. map charge_of r.all.items ≡ charges None c) }
    ensures path { (c : Cost) → map note_of marks.now ≡ written c
        → IfOk result (λ r. charges_in r.path ≡ path None c) }
{
    let mut reading = Reading {
        home: None,
        callers: Vec::new(alloc),
        charges: Vec::new(alloc),
        path: Path::new(alloc),
        waiting: Vec::new(alloc),
    };
    for mark in marks {
        reading.read(alloc, mark)?;
    }
    let Reading { charges, path, .. } = reading;
    Ok(Charges { all: charges, path })
}
