//! The outcome of each line in halves. What it defines is bound for the lines after it. The directives are
//!
//! - `@helpers never`, `always`, `second` (at every second question) or `pool` (one of three permits): which helpers
//!   there are from here on. After an outcome it then says how many helpers are out, or how many permits are free.
//! - `@levels NUMBER`, `@budget NUMBER`: this many levels are allowed from here on, and this much work.
//! - `@requests COUNT`: asks for memory this many times, and does nothing with it.
//! - `@meet LINE`: evaluates it where each half of two places waits for the other, and writes how often the left half
//!   was entered, the right one and any other place, and how often one waited in vain.
//! - `@say WORK LINE ;; LINE ..`: says the lines to a fresh session, whose lines may take this much work, and writes
//!   the last answer.
//! - `@asks`: writes how many permits of pools are free after questions.
//! - `@close`: closes the pool.

use crate::forms::{Reading, define, reading_of};
use crate::gates::HalfGate;
use crate::granting::Granting;
use crate::pools::put_asks;
use crate::requests::request;
use crate::rows::{Asked, Rows};
use crate::sessions::LIMITS;
use crate::told::{LEVELS, WORK, put_outcome};
use crate::writing::{put, put_done, put_line, put_wrong};
use nesl_eval_helpers::{Free, Gate, Helpers, NoHelpers, Pool};
use nesl_eval_top_level::Env;
use nesl_session::limits::Limits;
use nesl_session::session::Session;
use nesl_split::eval_split;
use nesl_syntax_tree::tree::{Exp, Form};
use std::alloc::{AllocError, Global};
use std::rt::Clock;
use std::sync::Wait;
use std::sync::ledger::Ledger;
use std::thread::Threads;

// Who helps.
#[derive(Clone, Copy)]
enum Grant {
    Never,
    Always,
    EverySecond,
    Pool,
}

// What is evaluated.
#[derive(Clone, Copy)]
enum Work<'e> {
    One(&'e Exp),
    // Lines that are said to a session, each of which may take this much work.
    Lines(u64, &'e str),
}

// What is bound, and which helpers evaluate a line.
#[derive(Drop)]
struct Halves<'a, L: Ledger, R> {
    rt: &'a R,
    pool: &'a Pool<L>,
    env: Env,
    grant: Grant,
    levels: u32,
    budget: u64,
}

impl<'a, L: Ledger + Send + Sync, R: Threads + Wait + Clock + Sync> Halves<'a, L, R> {
    fn new(rt: &'a R, alloc: Global, pool: &'a Pool<L>) -> Halves<'a, L, R> {
        Halves {
            rt,
            pool,
            env: Env::new(alloc),
            grant: Grant::Never,
            levels: LEVELS,
            budget: WORK,
        }
    }

    fn try_rows(&mut self, alloc: Global, text: &str, out: &mut Vec<u8>) -> Result<(), AllocError> {
        let mut rows = Rows::new(alloc);
        for line in text.lines() {
            if let Some(asked) = rows.read(line, out)? {
                self.follow(alloc, asked, rows.answer())?;
            }
        }
        rows.end(alloc, "halves", out)
    }

    fn follow(
        &mut self,
        alloc: Global,
        asked: Asked<'_>,
        out: &mut Vec<u8>,
    ) -> Result<(), AllocError> {
        match asked {
            Asked::Text(text) => self.answer(alloc, text, out),
            Asked::Directive(word, rest) => self.direct(alloc, word, rest, out),
        }
    }

    fn direct(
        &mut self,
        alloc: Global,
        word: &str,
        rest: &str,
        out: &mut Vec<u8>,
    ) -> Result<(), AllocError> {
        if word == "@helpers" {
            self.help(rest, out)
        } else if word == "@levels" || word == "@budget" {
            self.limit(word, rest, out)
        } else if word == "@requests" {
            request(alloc, rest, out)
        } else if word == "@say" {
            let (work, lines) = rest.split_once(' ').unwrap_or((rest, ""));
            let work = work.parse::<u64>().unwrap_or(0);
            self.evaluate(alloc, Work::Lines(work, lines), out)
        } else if word == "@meet" {
            self.meet(alloc, rest, out)
        } else if word == "@asks" {
            put_asks(self.rt, alloc, out)
        } else if word == "@close" {
            self.pool.close(self.rt);
            Ok(())
        } else {
            put_wrong(out)
        }
    }

    fn help(&mut self, word: &str, out: &mut Vec<u8>) -> Result<(), AllocError> {
        if word == "never" {
            self.grant = Grant::Never;
        } else if word == "always" {
            self.grant = Grant::Always;
        } else if word == "second" {
            self.grant = Grant::EverySecond;
        } else if word == "pool" {
            self.grant = Grant::Pool;
        } else {
            return put_wrong(out);
        }
        Ok(())
    }

    fn limit(&mut self, word: &str, number: &str, out: &mut Vec<u8>) -> Result<(), AllocError> {
        let Ok(number) = number.parse::<u32>() else {
            return put_wrong(out);
        };
        if word == "@levels" {
            self.levels = number;
        } else {
            self.budget = u64::from(number);
        }
        Ok(())
    }

    fn answer(&mut self, alloc: Global, line: &str, out: &mut Vec<u8>) -> Result<(), AllocError> {
        match reading_of(alloc, line.as_bytes())? {
            Reading::Form(Form::Eval(exp)) => self.evaluate(alloc, Work::One(&exp), out),
            Reading::Form(
                Form::Fun {
                    name,
                    parameter,
                    body,
                    ..
                },
            ) => {
                let done = define(alloc, &mut self.env, name.as_slice(), parameter, body);
                put_done(done, b"a function\n", out)
            }
            _ => put_line(out, b"no expression"),
        }
    }

    // The outcome of this, and how many helpers are out then, or permits free.
    fn evaluate(&self, alloc: Global, work: Work<'_>, out: &mut Vec<u8>) -> Result<(), AllocError> {
        match self.grant {
            Grant::Never => {
                self.put_told(alloc, work, &NoHelpers, out)?;
                out.extend_from_slice(b"\n")
            }
            Grant::Always => self.by_granting(alloc, work, &Granting::always(), out),
            Grant::EverySecond => self.by_granting(alloc, work, &Granting::every_second(), out),
            Grant::Pool => {
                self.put_told(alloc, work, &self.pool.by(self.rt), out)?;
                let free = self.pool.free(self.rt);
                put(out, format!(in alloc; "; {free} free\n"))
            }
        }
    }

    fn by_granting(
        &self,
        alloc: Global,
        work: Work<'_>,
        helpers: &Granting,
        out: &mut Vec<u8>,
    ) -> Result<(), AllocError> {
        self.put_told(alloc, work, helpers, out)?;
        let number = helpers.out();
        put(out, format!(in alloc; "; {number} out\n"))
    }

    fn put_told<H: Helpers + Sync>(
        &self,
        alloc: Global,
        work: Work<'_>,
        helpers: &H,
        out: &mut Vec<u8>,
    ) -> Result<(), AllocError> {
        match work {
            Work::One(exp) => self.put_outcome(alloc, exp, helpers, &Free, out),
            Work::Lines(work, lines) => self.put_said(alloc, work, lines, helpers, out),
        }
    }

    // Says lines to a fresh session, and writes the last answer.
    fn put_said<H: Helpers + Sync>(
        &self,
        alloc: Global,
        line_work: u64,
        lines: &str,
        helpers: &H,
        out: &mut Vec<u8>,
    ) -> Result<(), AllocError> {
        let limits = Limits {
            line_work,
            ..LIMITS
        };
        let mut session = Session::new(alloc, limits)?;
        let (before, last) = lines.rsplit_once(" ;; ").unwrap_or(("", lines));
        for line in before.split(" ;; ") {
            let _ = session.line_split(self.rt, alloc, line.as_bytes(), helpers, &Free);
        }
        let answer = session.line_split(self.rt, alloc, last.as_bytes(), helpers, &Free);
        let bytes = answer.bytes();
        out.extend_from_slice(bytes.strip_suffix(b"\n").unwrap_or(bytes))
    }

    fn meet(&self, alloc: Global, line: &str, out: &mut Vec<u8>) -> Result<(), AllocError> {
        match reading_of(alloc, line.as_bytes())? {
            Reading::Form(Form::Eval(exp)) => self.put_meeting(alloc, &exp, out),
            _ => put_wrong(out),
        }
    }

    fn put_meeting(&self, alloc: Global, exp: &Exp, out: &mut Vec<u8>) -> Result<(), AllocError> {
        let gate = HalfGate::new(self.rt);
        self.put_outcome(alloc, exp, &Granting::always(), &gate, out)?;
        let (left, right, other, late) = gate.counts();
        put(
            out,
            format!(in alloc; "; {left} left, {right} right, {other} other, {late} late\n"),
        )
    }

    fn put_outcome<H: Helpers + Sync, G: Gate + Sync>(
        &self,
        alloc: Global,
        exp: &Exp,
        helpers: &H,
        gate: &G,
        out: &mut Vec<u8>,
    ) -> Result<(), AllocError> {
        let told = eval_split(
            self.rt,
            alloc,
            &self.env,
            exp,
            self.levels,
            self.budget,
            helpers,
            gate,
        );
        put_outcome(alloc, &told, out)
    }
}

/// Answers the rows of a part by this pool, and writes those that are missed and how many hold.
pub fn try_halves<L: Ledger + Send + Sync, R: Threads + Wait + Clock + Sync>(
    rt: &R,
    alloc: Global,
    pool: &Pool<L>,
    text: &str,
    out: &mut Vec<u8>,
) -> Result<(), AllocError> {
    let mut halves = Halves::new(rt, alloc, pool);
    halves.try_rows(alloc, text, out)
}
