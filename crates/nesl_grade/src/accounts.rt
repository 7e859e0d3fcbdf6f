//! Where costs come from that are above their bounds.

use crate::adviser::Adviser;
use crate::class::Grader;
use crate::examined::Examined;
use crate::grade::examined_by;
use crate::line::line_at;
use crate::reply::say_all;
use nesl_exercise::outcome::Outcome;
use nesl_exercise::test::{Audience, Check, Test};
use nesl_gradebook::book::{Account, Submission};
use std::alloc::{AllocError, Global};

/// The most accounts of a submission.
const MOST_ACCOUNTS: usize = 3;

/// A cost that is above its bound.
#[derive(Clone, Copy)]
struct Excess<'a> {
    /// The place of the test among the tests.
    place: usize,
    exp: &'a [u8],
    /// The first number of the row at which the cost is above the bound.
    n: u64,
}

impl<A: Adviser> Grader<'_, A> {
    /// Adds accounts to what was found for the pages of submissions. They are made on this thread, since an account
    /// needs more stack than the threads have on which submissions are graded.
    pub(crate) fn explain_all(&self, submissions: &mut [Submission]) -> Result<(), AllocError> {
        for submission in submissions {
            self.explain(submission)?;
        }
        Ok(())
    }

    fn explain(&self, submission: &mut Submission) -> Result<(), AllocError> {
        if submission.details.is_none() {
            return Ok(());
        }
        let accounts = self.accounts_for(submission)?;
        if let Some(details) = submission.details.as_mut() {
            details.accounts = accounts;
        }
        Ok(())
    }

    // Finds where the costs of a submission come from that are above their bounds.
    fn accounts_for(&self, submission: &Submission) -> Result<Vec<Account>, AllocError> {
        let Some(graded) = &submission.graded else {
            return Ok(Vec::new(self.alloc));
        };
        let tests = self.exercise.tests.as_slice();
        let excesses = excesses_in(self.alloc, tests, graded.outcomes.as_slice())?;
        if excesses.is_empty() {
            return Ok(Vec::new(self.alloc));
        }
        let examined = examined_by(self.alloc, self.limits, self.exercise, &submission.forms)?;
        accounts_of(self.alloc, self.adviser, &examined, excesses.as_slice())
    }
}

// The first costs above their bounds, of tests that students see.
fn excesses_in<'a>(
    alloc: Global,
    tests: &'a [Test],
    outcomes: &[Outcome],
) -> Result<Vec<Excess<'a>>, AllocError> {
    let mut excesses = Vec::new(alloc);
    for (place, test) in tests.iter().enumerate() {
        if excesses.len() >= MOST_ACCOUNTS {
            break;
        }
        if let (Audience::Shown, Check::Cost { exp, .. }, Some(Outcome::Over(n, _, _))) = (
            test.audience,
            &test.check,
            outcomes.get(place),
        ) {
            excesses.push(Excess {
                place,
                exp: exp.as_slice(),
                n: *n,
            })?;
        }
    }
    Ok(excesses)
}

// Makes the accounts, in a session that got the same lines as those of the tests before their own. No account changes
// it.
fn accounts_of<A: Adviser>(
    alloc: Global,
    adviser: &A,
    examined: &Examined,
    excesses: &[Excess<'_>],
) -> Result<Vec<Account>, AllocError> {
    let session = say_all(alloc, examined.limits, examined.lines.as_slice())?;
    let mut accounts = Vec::new(alloc);
    for excess in excesses {
        let mut form = Vec::from_slice(alloc, session.pending())?;
        let line = line_at(alloc, excess.exp, excess.n)?;
        form.extend_from_slice(line.as_slice())?;
        accounts.push(Account {
            place: excess.place,
            n: excess.n,
            text: adviser.account(alloc, &session, form.as_slice())?,
        })?;
    }
    Ok(accounts)
}
