//! Submissions that were graded by one exercise.

use nesl_exercise::outcome::{Graded, Outcome, Point};
use nesl_exercise::test::Test;

/// What a submission is written as.
#[derive(Drop)]
pub enum Submitted {
    /// A text as people write it, which is cut into forms.
    Text(Vec<u8>),
    /// The lines of a kept session, in order.
    Kept(Vec<Vec<u8>>),
}

/// Where a form is wrong, and what a person reads about it.
#[derive(Drop)]
pub struct Remark {
    /// The first byte of the form that is meant, and the one after the last.
    pub start: usize,
    pub end: usize,
    /// One line, without its end.
    pub sentence: Vec<u8>,
}

/// A form that a session refuses, its reply, and a hint on it.
#[derive(Drop)]
pub struct Refusal {
    pub form: Vec<u8>,
    pub reply: Vec<u8>,
    pub hint: Option<Remark>,
}

/// Where the cost of a test comes from that is above its bound.
#[derive(Drop)]
pub struct Account {
    /// The place of the test among the tests.
    pub place: usize,
    /// The first number of the test's row at which the cost is above the bound.
    pub n: u64,
    /// The lines of the account, each with its end.
    pub text: Vec<u8>,
}

/// What the page of a submission has beside its outcomes.
#[derive(Drop)]
pub struct Details {
    /// For each test, in order, what was measured. It is empty if nothing was.
    pub curves: Vec<Vec<Point>>,
    /// For each test, in order, the line of the test, if it isn't passed and the line is refused.
    pub refused_tests: Vec<Option<Refusal>>,
    /// The first forms of the submission that are refused, in order.
    pub refused_forms: Vec<Refusal>,
    /// Accounts of costs that are above their bounds, in the order of the tests.
    pub accounts: Vec<Account>,
}

/// A submission, its outcomes, and what its page has beside them.
#[derive(Drop)]
pub struct Submission {
    /// The path of its file, or the name of its user.
    pub name: Vec<u8>,
    pub forms: Submitted,
    /// Its outcomes and points, once it is graded.
    pub graded: Option<Graded>,
    /// What was found for its page, if there is to be one.
    pub details: Option<Details>,
}

/// What reports are about.
#[derive(Clone, Copy)]
pub struct Book<'a> {
    /// The path of the exercise.
    pub exercise: &'a [u8],
    pub tests: &'a [Test],
    pub submissions: &'a [Submission],
}

impl Submission {
    /// A submission that isn't graded yet.
    pub fn new(name: Vec<u8>, forms: Submitted) -> Submission {
        Submission {
            name,
            forms,
            graded: None,
            details: None,
        }
    }

    /// The outcomes, in the order of the tests. There are none before it is graded.
    pub(crate) fn outcomes(&self) -> &[Outcome] {
        match &self.graded {
            Some(graded) => graded.outcomes.as_slice(),
            None => &[],
        }
    }

    pub(crate) fn points(&self) -> u64 {
        match &self.graded {
            Some(graded) => graded.points,
            None => 0,
        }
    }

    /// The points of all tests.
    pub(crate) fn most(&self) -> u64 {
        match &self.graded {
            Some(graded) => graded.most,
            None => 0,
        }
    }

    /// What was measured by the test at a place.
    pub(crate) fn curve(&self, place: usize) -> &[Point] {
        match &self.details {
            Some(details) => match details.curves.get(place) {
                Some(points) => points.as_slice(),
                None => &[],
            },
            None => &[],
        }
    }

    /// The line of the test at a place, if it isn't passed and the line is refused.
    pub(crate) fn refused_test(&self, place: usize) -> Option<&Refusal> {
        match &self.details {
            Some(details) => match details.refused_tests.get(place) {
                Some(Some(refusal)) => Some(refusal),
                Some(None) | None => None,
            },
            None => None,
        }
    }

    /// The first forms that are refused.
    pub(crate) fn refused_forms(&self) -> &[Refusal] {
        match &self.details {
            Some(details) => details.refused_forms.as_slice(),
            None => &[],
        }
    }

    /// Where the cost of the test at a place comes from, if there is an account of it.
    pub(crate) fn account(&self, place: usize) -> Option<&Account> {
        match &self.details {
            Some(details) => details
                .accounts
                .iter()
                .find(|account| account.place == place),
            None => None,
        }
    }

    /// Finds the first test that isn't passed.
    pub(crate) fn first_failed<'a>(&'a self, tests: &'a [Test]) -> Option<(&'a Test, &'a Outcome)> {
        for (place, test) in tests.iter().enumerate() {
            if let Some(outcome) = self.outcomes().get(place) {
                if !outcome.is_passed() {
                    return Some((test, outcome));
                }
            }
        }
        None
    }

    /// The number of tests that aren't passed.
    pub(crate) fn failures(&self) -> u64 {
        let mut count: u64 = 0;
        for outcome in self.outcomes() {
            if !outcome.is_passed() {
                count = count.saturating_add(1);
            }
        }
        count
    }
}
