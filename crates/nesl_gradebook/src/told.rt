//! What reports have of an outcome.

use crate::out::{Escape, Out};
use nesl_exercise::bound::BoundFault;
use nesl_exercise::outcome::Outcome;
use nesl_exercise::test::{Audience, Test};

/// The most characters of a reply in a sentence.
const MOST_SHOWN: usize = 100;

/// What reports have of an outcome. The number, the cost and the bound are there where the outcome has them.
#[derive(Clone, Copy)]
pub(crate) struct Told<'a> {
    pub(crate) word: &'static str,
    pub(crate) n: Option<u64>,
    pub(crate) cost: Option<u64>,
    pub(crate) bound: Option<u128>,
    /// The reply, or else why the test isn't passed.
    pub(crate) got: &'a [u8],
    /// The reply or the fault that was wanted.
    pub(crate) wanted: &'a [u8],
}

impl<'a> Told<'a> {
    pub(crate) fn of(outcome: &'a Outcome) -> Told<'a> {
        match outcome {
            Outcome::Passed => Told::of_word("passed", b""),
            Outcome::Absent => Told::of_word("absent", b"it is in no form"),
            Outcome::Present => Told::of_word("present", b"it is in a form"),
            Outcome::Other(got, wanted) => Told {
                wanted: wanted.as_slice(),
                ..Told::of_word("other", got.as_slice())
            },
            Outcome::Over(n, cost, bound) => Told {
                n: Some(*n),
                cost: Some(*cost),
                bound: Some(*bound),
                ..Told::of_word("over", b"")
            },
            Outcome::Refused(n, got) => Told {
                n: Some(*n),
                ..Told::of_word("refused", got.as_slice())
            },
            Outcome::Unbounded(n, fault) => Told {
                n: Some(*n),
                ..Told::of_word("unbounded", fault_text(*fault))
            },
        }
    }

    fn of_word(word: &'static str, got: &'a [u8]) -> Told<'a> {
        Told {
            word,
            n: None,
            cost: None,
            bound: None,
            got,
            wanted: b"",
        }
    }

    /// Appends why the test isn't passed, as one sentence.
    pub(crate) fn put_reason(&self, out: &mut Out, escape: Escape) {
        if let Some(n) = self.n {
            out.put_named("n = ", n);
            out.put(": ");
        }
        if let (Some(cost), Some(bound)) = (self.cost, self.bound) {
            out.put_named("", cost);
            out.put(" is above ");
            out.put_number(bound);
        }
        out.put_shown_up_to(escape, self.got.trim_ascii(), MOST_SHOWN);
        if !self.wanted.is_empty() {
            out.put(", wanted ");
            // A reply ends with a line end, and the name of a fault doesn't.
            if !self.wanted.ends_with(b"\n") {
                out.put("fault ");
            }
            out.put_shown_up_to(escape, self.wanted.trim_ascii(), MOST_SHOWN);
        }
    }
}

/// Appends the line of a test in its exercise, and why a submission doesn't pass it.
pub(crate) fn put_failure(out: &mut Out, escape: Escape, test: &Test, outcome: &Outcome) {
    out.put_named("line ", test.line);
    out.put(if is_hidden(test) { " (hidden): " } else { ": " });
    if let Outcome::Absent | Outcome::Present = outcome {
        out.put_shown_up_to(escape, test.text.as_slice(), MOST_SHOWN);
        out.put(": ");
    }
    Told::of(outcome).put_reason(out, escape);
}

fn fault_text(fault: BoundFault) -> &'static [u8] {
    match fault {
        BoundFault::TooLarge => b"the bound has more than 128 bits",
        BoundFault::Negative => b"the bound has a difference below 0",
        BoundFault::Division => b"the bound divides by 0",
        BoundFault::Log => b"the bound has log2(0)",
        BoundFault::Incomplete => b"the bound has an operation without its numbers",
        BoundFault::Memory => b"out of memory",
    }
}

/// Whether students may see a test.
pub(crate) fn is_hidden(test: &Test) -> bool {
    match test.audience {
        Audience::Shown => false,
        Audience::Hidden => true,
    }
}

/// The word for the readers of a test.
pub(crate) fn audience_word(test: &Test) -> &'static str {
    if is_hidden(test) { "hidden" } else { "shown" }
}
