//! What the page of a submission has beside its outcomes.

use crate::adviser::Adviser;
use crate::curve::curves_of;
use crate::examined::Examined;
use crate::line::{line_at, line_of};
use crate::reply::{say, say_all};
use nesl_exercise::outcome::Outcome;
use nesl_exercise::test::{Check, Test};
use nesl_gradebook::book::{Details, Refusal};
use nesl_session::session::Session;
use std::alloc::{AllocError, Global};

/// The most refused forms of a submission that are shown.
const MOST_REFUSED: usize = 20;

/// Finds the costs of a submission, and hints on its errors, but no accounts. The outcomes are those of the tests, in
/// order.
pub fn details_of<A: Adviser>(
    alloc: Global,
    adviser: &A,
    examined: &Examined,
    tests: &[Test],
    outcomes: &[Outcome],
) -> Result<Details, AllocError> {
    let mut refused_tests = Vec::new(alloc);
    for (place, test) in tests.iter().enumerate() {
        let refusal = match outcomes.get(place) {
            Some(outcome) => refused_test(alloc, adviser, examined, &test.check, outcome)?,
            None => None,
        };
        refused_tests.push(refusal)?;
    }
    Ok(Details {
        curves: curves_of(alloc, examined, tests)?,
        refused_tests,
        refused_forms: refused_forms(alloc, adviser, examined)?,
        accounts: Vec::new(alloc),
    })
}

/// Finds the first forms after those that are given which a session refuses.
pub fn refused_forms<A: Adviser>(
    alloc: Global,
    adviser: &A,
    examined: &Examined,
) -> Result<Vec<Refusal>, AllocError> {
    let mut refusals = Vec::new(alloc);
    let mut session = say_all(alloc, examined.limits, examined.given.as_slice())?;
    for line in examined.lines.get(examined.given.len()..).unwrap_or(&[]) {
        if refusals.len() >= MOST_REFUSED {
            break;
        }
        if let Some(refusal) = refusal_of(alloc, adviser, &mut session, line.as_slice())? {
            refusals.push(refusal)?;
        }
    }
    Ok(refusals)
}

// The line of a test, if its reply was another one than was wanted, and is a fault.
fn refused_test<A: Adviser>(
    alloc: Global,
    adviser: &A,
    examined: &Examined,
    check: &Check,
    outcome: &Outcome,
) -> Result<Option<Refusal>, AllocError> {
    let Some(line) = line_to_show(alloc, check, outcome)? else {
        return Ok(None);
    };
    let mut session = say_all(alloc, examined.limits, examined.lines.as_slice())?;
    refusal_of(alloc, adviser, &mut session, line.as_slice())
}

// The line of a test whose outcome has its reply.
fn line_to_show(
    alloc: Global,
    check: &Check,
    outcome: &Outcome,
) -> Result<Option<Vec<u8>>, AllocError> {
    let line = match (check, outcome) {
        (Check::Value { exp, .. }, Outcome::Other(_, _)) => line_of(alloc, exp.as_slice())?,
        (Check::Fault { exp, .. }, Outcome::Other(_, _)) => line_of(alloc, exp.as_slice())?,
        (Check::Cost { exp, .. }, Outcome::Refused(n, _)) => line_at(alloc, exp.as_slice(), *n)?,
        _ => return Ok(None),
    };
    Ok(Some(line))
}

// Says a line to a session. Returns the form that it ends, if that is refused.
fn refusal_of<A: Adviser>(
    alloc: Global,
    adviser: &A,
    session: &mut Session,
    line: &[u8],
) -> Result<Option<Refusal>, AllocError> {
    let mut form = Vec::from_slice(alloc, session.pending())?;
    form.extend_from_slice(line)?;
    let answer = say(alloc, session, line)?;
    let Some(fault) = answer.fault() else {
        return Ok(None);
    };
    let hint = adviser.hint(alloc, session, form.as_slice(), fault)?;
    let reply = Vec::from_slice(alloc, answer.bytes())?;
    Ok(Some(Refusal { form, reply, hint }))
}
