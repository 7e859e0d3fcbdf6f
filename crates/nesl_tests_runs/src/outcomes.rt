//! The outcome of each line. What a line binds is bound for the lines after it. The directives are
//!
//! - `@new`: nothing is bound from here on.
//! - `= LINE`: an expression that has to have the value of the line before it. If it has, there is no answer.
//! - `! LINE`: an expression that is evaluated with two levels.
//! - `? LINE`: an expression that is evaluated with each budget up to its whole work.

use crate::forms::{Reading, define, reading_of};
use crate::rows::Asked;
use crate::told::{LEVELS, WORK, is_same, put_outcome, work_of};
use crate::writing::{put, put_done, put_line, put_wrong};
use linked_list_allocator::LocalHeap;
use nesl_eval::{Outcome, eval_one, eval_one_in};
use nesl_eval_top_level::{Env, Payload};
use nesl_syntax_tree::tree::{Exp, Form};
use nesl_types::{Top, Ty};
use nesl_values::{Items, Value};
use std::alloc::{AllocError, Allocator, Global};

/// The bytes of the heap in which each expression is evaluated besides.
const HEAP_BYTES: usize = 65_536;

/// What is bound, and the last value, if the last line had one.
#[derive(Drop)]
pub struct Outcomes {
    env: Env,
    last: Option<Value>,
}

// What is to be written of an expression.
#[derive(Clone, Copy)]
enum Wish {
    Outcome,
    Comparison,
    TwoLevels,
    Boundaries,
}

// What a directive wishes of the line after it.
fn wish_of(word: &str) -> Option<Wish> {
    if word == "=" {
        Some(Wish::Comparison)
    } else if word == "!" {
        Some(Wish::TwoLevels)
    } else if word == "?" {
        Some(Wish::Boundaries)
    } else {
        None
    }
}

impl Outcomes {
    /// Writes the answer to a row, in whole lines.
    pub fn follow(
        &mut self,
        alloc: Global,
        asked: Asked<'_>,
        out: &mut Vec<u8>,
    ) -> Result<(), AllocError> {
        match asked {
            Asked::Text(text) => self.answer(alloc, Wish::Outcome, text, out),
            Asked::Directive(word, _) if word == "@new" => {
                *self = Outcomes::new(alloc);
                Ok(())
            }
            Asked::Directive(word, text) => match wish_of(word) {
                Some(wish) => self.answer(alloc, wish, text, out),
                None => put_wrong(out),
            },
        }
    }

    pub fn new(alloc: Global) -> Outcomes {
        Outcomes {
            env: Env::new(alloc),
            last: None,
        }
    }

    /// What is bound.
    pub fn env(&self) -> &Env {
        &self.env
    }

    fn answer(
        &mut self,
        alloc: Global,
        wish: Wish,
        text: &str,
        out: &mut Vec<u8>,
    ) -> Result<(), AllocError> {
        match reading_of(alloc, text.as_bytes())? {
            Reading::Form(form) => self.of_form(alloc, wish, form, out),
            _ => put_line(out, b"no form"),
        }
    }

    fn of_form(
        &mut self,
        alloc: Global,
        wish: Wish,
        form: Form,
        out: &mut Vec<u8>,
    ) -> Result<(), AllocError> {
        match form {
            Form::Eval(exp) => self.of_expression(alloc, wish, &exp, out),
            Form::Bind { name, value } => self.bind(alloc, name.as_slice(), &value, out),
            Form::Fun {
                name,
                parameter,
                body,
                ..
            } => {
                let done = define(alloc, &mut self.env, name.as_slice(), parameter, body);
                put_done(done, b"a function\n", out)
            }
            Form::Datatype { name, .. } => {
                let top = Top::Datatype(self.env.len() as u64, Ty::int(alloc)?);
                let done = self.env.set(alloc, name.as_slice(), top, Payload::Datatype);
                put_done(done, b"a datatype\n", out)
            }
            _ => put_line(out, b"no expression"),
        }
    }

    fn of_expression(
        &mut self,
        alloc: Global,
        wish: Wish,
        exp: &Exp,
        out: &mut Vec<u8>,
    ) -> Result<(), AllocError> {
        match wish {
            Wish::Outcome => self.evaluate(alloc, exp, out),
            Wish::Comparison => self.compare(alloc, exp, out),
            Wish::TwoLevels => {
                put_held_line(alloc, &eval_one(alloc, &self.env, exp, 2, WORK), out)
            }
            Wish::Boundaries => put_boundaries(alloc, &self.env, exp, out),
        }
    }

    // The outcome of an expression, and whether it is the same in a heap of its own.
    fn evaluate(&mut self, alloc: Global, exp: &Exp, out: &mut Vec<u8>) -> Result<(), AllocError> {
        let told = eval_one(alloc, &self.env, exp, LEVELS, WORK);
        let done = put_both(alloc, &self.env, exp, &told, out);
        self.last = value_of(told);
        done
    }

    // Writes that an expression has another value than the last, if it has.
    fn compare(&self, alloc: Global, exp: &Exp, out: &mut Vec<u8>) -> Result<(), AllocError> {
        match (&self.last, eval_one(alloc, &self.env, exp, LEVELS, WORK)) {
            (Some(last), Outcome::Done { value, .. }) if last.same(&value) => Ok(()),
            _ => put_line(out, b"another value"),
        }
    }

    // A type is not looked at by any evaluation.
    fn bind(
        &mut self,
        alloc: Global,
        name: &[u8],
        exp: &Exp,
        out: &mut Vec<u8>,
    ) -> Result<(), AllocError> {
        match eval_one(alloc, &self.env, exp, LEVELS, WORK) {
            Outcome::Done { value, .. } => {
                let top = Top::Variable(Ty::int(alloc)?);
                let done = self.env.set(alloc, name, top, Payload::Variable(value));
                put_done(done, b"a variable\n", out)
            }
            other => put_held_line(alloc, &other, out),
        }
    }
}

// How a sequence is held.
fn held_as(value: &Value) -> &'static str {
    if value.sequence_len().is_none() {
        return "";
    }
    match value.items() {
        Items::Ints(_) => ", packed numbers",
        Items::Bools(_) => ", packed truth values",
        Items::Chars(_) => ", packed characters",
        Items::Values(_) => ", values",
    }
}

// Writes an outcome, and how its value is held.
fn put_held(alloc: Global, told: &Outcome<Global>, out: &mut Vec<u8>) -> Result<(), AllocError> {
    put_outcome(alloc, told, out)?;
    match told {
        Outcome::Done { value, .. } => out.extend_from_slice(held_as(value).as_bytes()),
        _ => Ok(()),
    }
}

// Writes an outcome and how its value is held, in a line.
fn put_held_line(
    alloc: Global,
    told: &Outcome<Global>,
    out: &mut Vec<u8>,
) -> Result<(), AllocError> {
    put_held(alloc, told, out)?;
    out.extend_from_slice(b"\n")
}

// Writes an outcome, and the one in a heap of fixed size if that differs.
fn put_both(
    alloc: Global,
    env: &Env,
    exp: &Exp,
    told: &Outcome<Global>,
    out: &mut Vec<u8>,
) -> Result<(), AllocError> {
    put_held(alloc, told, out)?;
    let heap = LocalHeap::new(alloc, HEAP_BYTES)?;
    let other = eval_one_in(alloc, env, exp, LEVELS, WORK, &heap);
    put_line(out, difference(&other, told))
}

fn difference<A: Allocator>(told: &Outcome<A>, other: &Outcome<Global>) -> &'static [u8] {
    if is_same(told, other) {
        return b"";
    }
    match told {
        Outcome::Memory => b", memory in the heap",
        _ => b", ANOTHER OUTCOME IN THE HEAP",
    }
}

fn value_of(told: Outcome<Global>) -> Option<Value> {
    match told {
        Outcome::Done { value, .. } => Some(value),
        _ => None,
    }
}

// Whether an outcome under this fuel is that of an expression of this whole work.
fn is_right(told: &Outcome<Global>, fuel: u64, work: u64) -> bool {
    match told {
        Outcome::Over => fuel < work,
        other => work <= fuel && work_of(other) == Some(work),
    }
}

// Writes below which budget an expression is over.
fn put_boundaries(
    alloc: Global,
    env: &Env,
    exp: &Exp,
    out: &mut Vec<u8>,
) -> Result<(), AllocError> {
    let Some(work) = work_of(&eval_one(alloc, env, exp, LEVELS, WORK)) else {
        return put_line(out, b"over");
    };
    for fuel in 0..work.saturating_add(2) {
        if !is_right(&eval_one(alloc, env, exp, LEVELS, fuel), fuel, work) {
            return put(out, format!(in alloc; "wrong with a budget of {fuel}\n"));
        }
    }
    put(out, format!(in alloc; "over just below {work}\n"))
}
