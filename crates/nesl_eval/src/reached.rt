//! The places of the top level that code reaches.
ghost use Rattle.std.specs.Prelude.{◌≡◌, ◌<◌, ℕ, Some, IfOk, OnOk, length};
ghost use Rattle.std.specs.List.{AllByRecursion};
ghost use Rattle.nesl_eval_code.specs.Means.{names_of, place_of};
ghost use Rattle.nesl_eval_code.specs.Run.{function_slot, slot_at};
ghost use Rattle.nesl_eval_top_level.specs.TopLevels.{table_in};
ghost use Rattle.nesl_eval.specs.Reached.{count_of, AreQueued, Grows, IsMarked, Marks, Reaches};

use nesl_eval_code::Code;
use nesl_eval_nodes::held::Held;
use nesl_eval_top_level::TopLevel;
use std::alloc::{AllocError, Global};

/// Which places were met, and these in the order in which they were.
#[derive(Drop)]
struct Reached {
    marks: Vec<bool>,
    queue: Vec<usize>,
    ghost queued: { AreQueued marks.items queue.items },
    ghost once: { length queue.items ≡ count_of marks.items },
}

/// Whether code reaches each of the `places` places: it refers to it, or a function that it reaches does.
/// Other places may be marked too.
pub(crate) fn places_reached(
    alloc: Global,
    tops: &TopLevel<'_>,
    places: usize,
    code: &Code,
) -> Result<Vec<bool>, AllocError>
    requires { places ≡ length (table_in tops.now) }
    ensures { IfOk result (λ marks. (k : ℕ)
        → Reaches (table_in tops.now) code.now k → k < places → IsMarked marks.items k) }
{
    let mut reached = Reached::new(alloc, places)?;
    reached.go_through(tops, code)?;
    let mut next = 0;
    while next < reached.queue.len() {
        let place = reached.queue[next];
        reached.go_into(tops, place)?;
        next += 1;
    }
    Ok(reached.marks)
}

impl Reached {
    // None of `places` places was met.
    fn new(alloc: Global, places: usize) -> Result<Reached, AllocError>
        ensures { IfOk result (λ r. length r.marks.items ≡ places) }
    {
        let marks = Vec::from_elem(alloc, false, places)?;
        Ok(Reached {
            marks,
            queue: Vec::new(alloc),
        })
    }

    // Marks the places to which the body of the function at a place refers.
    fn go_into(&mut self, tops: &TopLevel<'_>, place: usize) -> Result<(), AllocError>
        ensures grows { OnOk result
            (Grows self.old.marks.items self.new.marks.items self.old.queue.items self.new.queue.items) }
        ensures marked { OnOk result ((body : Code) → slot_at (table_in tops.now) place ≡ Some (function_slot body)
            → Marks (table_in tops.now) self.new.marks.items body) }
    {
        match tops.held(place) {
            Held::Function(body) => self.go_through(tops, body),
            _ => Ok(()),
        }
    }

    // Marks a place, the first time that it is met.
    fn note(&mut self, place: usize) -> Result<(), AllocError>
        ensures grows { OnOk result
            (Grows self.old.marks.items self.new.marks.items self.old.queue.items self.new.queue.items) }
        ensures marked { OnOk result (place < length self.new.marks.items → IsMarked self.new.marks.items place) }
    {
        if place < self.marks.len() && !self.marks[place] {
            self.queue.push(place)?;
            self.marks[place] = true;
        }
        Ok(())
    }

    // Marks the place of a name, the first time that it is met.
    fn note_name(&mut self, tops: &TopLevel<'_>, name: &[u8]) -> Result<(), AllocError>
        ensures grows { OnOk result
            (Grows self.old.marks.items self.new.marks.items self.old.queue.items self.new.queue.items) }
        ensures marked { OnOk result ((k : ℕ) → place_of (names_of (table_in tops.now)) name.now ≡ Some k
            → k < length self.new.marks.items → IsMarked self.new.marks.items k) }
    {
        match tops.place_of(name) {
            Some(place) => self.note(place),
            None => Ok(()),
        }
    }

    // Marks the places that code refers to. It recurs as deep as the code is high.
    #[cycle(marking)]
    fn go_through(&mut self, tops: &TopLevel<'_>, code: &Code) -> Result<(), AllocError>
        ensures grows { OnOk result
            (Grows self.old.marks.items self.new.marks.items self.old.queue.items self.new.queue.items) }
        ensures marked { OnOk result (Marks (table_in tops.now) self.new.marks.items code.now) }
    {
        match code {
            Code::Top { place, .. } => self.note(*place),
            Code::Named { name, .. } => self.note_name(tops, name),
            Code::Call {
                place,
                argument,
                ..
            } => {
                self.note(*place)?;
                self.go_through(tops, argument)
            }
            Code::CallNamed { name, argument, .. } => {
                self.note_name(tops, name)?;
                self.go_through(tops, argument)
            }
            Code::Apply { argument, .. } => self.go_through(tops, argument),
            Code::Pair { left, right, .. } => {
                self.go_through(tops, left)?;
                self.go_through(tops, right)
            },
            Code::ApplyTwo { left, right, .. } => {
                self.go_through(tops, left)?;
                self.go_through(tops, right)
            },
            Code::ApplyThree {
                first,
                second,
                third,
                ..
            } => {
                self.go_through(tops, first)?;
                self.go_through(tops, second)?;
                self.go_through(tops, third)
            }
            Code::Choice { test, yes, no, .. } => {
                self.go_through(tops, test)?;
                self.go_through(tops, yes)?;
                self.go_through(tops, no)
            }
            Code::Sequence { parts, .. } => self.go_through_all(tops, parts),
            Code::Let { bindings, body, .. } => {
                self.go_through_all(tops, bindings)?;
                self.go_through(tops, body)
            }
            Code::Each { sources, body, .. } => {
                self.go_through_all(tops, sources)?;
                self.go_through(tops, body)
            }
            Code::FilteredEach {
                sources,
                body,
                filter,
                ..
            } => {
                self.go_through_all(tops, sources)?;
                self.go_through(tops, body)?;
                self.go_through(tops, filter)
            }
            _ => Ok(()),
        }
    }

    #[cycle(marking)]
    fn go_through_all(&mut self, tops: &TopLevel<'_>, codes: &[Code]) -> Result<(), AllocError>
        ensures grows { OnOk result
            (Grows self.old.marks.items self.new.marks.items self.old.queue.items self.new.queue.items) }
        ensures marked { OnOk result (AllByRecursion (Marks (table_in tops.now) self.new.marks.items) codes.now) }
    {
        for code in codes {
            self.go_through(tops, code)?;
        }
        Ok(())
    }
}
