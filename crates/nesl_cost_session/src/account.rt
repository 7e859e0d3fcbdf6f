//! The lines that a prompt writes for an account.

use crate::called::{CalledFunction, called_in};
use crate::costs::{EvaluationEnd, Measured, measure};
use crate::form::{ended, expression_in, form_of, untyped};
use nesl_cost_shown::parts::Text;
use nesl_cost_shown::printed::Line;
use nesl_cost_shown::prompt::{Ended, shown};
use nesl_reply::{Fault, Reply, Stop};
use nesl_session::LEVELS;
use nesl_session::session::Session;
use nesl_syntax_tree::tree::Exp;
use std::alloc::{AllocError, Global};

/// The most work of an evaluation of which there is an account.
const MOST_WORK: u64 = 1_000_000;

/// The lines that say where the work and the depth of an expression come from, as the session is now. Where the session
/// would refuse the expression, the first line says so, as the session does. An expression that takes more than the
/// work of a line, or than a million, has an account until then.
///
/// Evaluation recurs as deep as there are levels, of which there are 1,000.
pub fn account_lines(
    alloc: Global,
    session: &Session,
    text: &[u8],
) -> Result<Vec<Line>, AllocError> {
    if text.is_empty() {
        return only(
            alloc,
            b"`:cost sum([1, 2])` shows where work and depth come from",
        );
    }
    let form = ended(alloc, text)?;
    match form_of(alloc, form.as_slice()) {
        Ok(form) => match expression_in(&form) {
            Some(exp) => of_expression(alloc, session, text, exp),
            None => only(
                alloc,
                b"`:cost` is for an expression, as in `:cost sum([1, 2])`",
            ),
        },
        Err(fault) => of_refused(alloc, session, fault),
    }
}

// The account of an expression, which the text has.
fn of_expression(
    alloc: Global,
    session: &Session,
    text: &[u8],
    exp: &Exp,
) -> Result<Vec<Line>, AllocError> {
    if let Some(fault) = untyped(alloc, session, exp) {
        return of_refused(alloc, session, fault);
    }
    let env = session.meanings().environment();
    let fuel = budget_of(session).min(MOST_WORK);
    let found = measure(alloc, env, exp, LEVELS, fuel)?;
    let called = called_in(alloc, session, &found.table)?;
    let mut lines = Vec::new(alloc);
    let first = first_line(alloc, session, &found)?;
    lines.push(first)?;
    put_account(alloc, text, called.as_slice(), &found, &mut lines)?;
    Ok(lines)
}

// The most work that the session has for a line.
fn budget_of(session: &Session) -> u64 {
    session.limits().line_work.min(session.remaining().work)
}

// How the evaluation ended, and what it cost.
fn first_line(alloc: Global, session: &Session, found: &Measured<'_>) -> Result<Line, AllocError> {
    let work = found.table.work();
    match found.ending {
        EvaluationEnd::Value => {
            let mut line = Line::new(alloc);
            line.put_text(b"work ")?;
            line.put_number(work)?;
            line.put_text(b", depth ")?;
            line.put_number(found.table.depth())?;
            Ok(line)
        }
        EvaluationEnd::Fault { trap, span, .. } => {
            refusal(alloc, session, Fault::of_trap(trap, Stop { span, work }))
        }
        EvaluationEnd::Over => over(alloc, session),
    }
}

// That the work is more than a line may take, or more than there is an account of.
fn over(alloc: Global, session: &Session) -> Result<Line, AllocError> {
    let budget = budget_of(session);
    if budget <= MOST_WORK {
        return refusal(alloc, session, Fault::Work(budget));
    }
    let mut line = Line::new(alloc);
    line.put_text(b"work above ")?;
    line.put_number(MOST_WORK)?;
    line.put_text(b", of which there is an account")?;
    Ok(line)
}

// Adds the account, with the texts of the functions that were called.
fn put_account(
    alloc: Global,
    text: &[u8],
    called: &[CalledFunction<'_>],
    found: &Measured<'_>,
    lines: &mut Vec<Line>,
) -> Result<(), AllocError> {
    let mut texts = Vec::new(alloc);
    texts.push(Text {
        home: None,
        bytes: text,
    })?;
    for function in called {
        texts.push(Text {
            home: Some(function.name),
            bytes: function.text.as_slice(),
        })?;
    }
    let account = shown(
        alloc,
        texts.as_slice(),
        &found.table,
        ended_by(found.ending),
    )?;
    for line in account {
        lines.push(line)?;
    }
    Ok(())
}

fn ended_by(ending: EvaluationEnd<'_>) -> Ended<'_> {
    match ending {
        EvaluationEnd::Value => Ended::Value,
        EvaluationEnd::Fault { place, .. } => Ended::Fault {
            home: place.home,
            span: place.span,
        },
        EvaluationEnd::Over => Ended::Over,
    }
}

// What the session would reply to a form that it refuses.
fn of_refused(alloc: Global, session: &Session, fault: Fault) -> Result<Vec<Line>, AllocError> {
    let line = refusal(alloc, session, fault)?;
    let mut lines = Vec::new(alloc);
    lines.push(line)?;
    Ok(lines)
}

fn refusal(alloc: Global, session: &Session, fault: Fault) -> Result<Line, AllocError> {
    let reply = session
        .meanings()
        .reply_text(alloc, &Reply::Refused(fault))?;
    let mut line = Line::new(alloc);
    line.put_text(reply.as_slice().trim_ascii_end())?;
    Ok(line)
}

// One line alone.
fn only(alloc: Global, text: &[u8]) -> Result<Vec<Line>, AllocError> {
    let mut line = Line::new(alloc);
    line.put_text(text)?;
    let mut lines = Vec::new(alloc);
    lines.push(line)?;
    Ok(lines)
}
