//! Whether evaluation in halves has the outcome of evaluation in order. A row of outcomes is evaluated once more in
//! both ways: with the levels of the program and with few, and with small budgets and those about the whole work.
//! Helpers are always granted, or as a seed says. If two outcomes differ, the answer to the row has one line more. The
//! directives beside those of outcomes are
//!
//! - `@compare LINE`: an expression that is evaluated in both ways, and has no other answer.
//! - `@compared`: writes how many expressions were compared and how often, and whether helpers were granted.

use crate::forms::{Reading, reading_of};
use crate::granting::Granting;
use crate::outcomes::Outcomes;
use crate::rows::{Asked, Rows};
use crate::told::{LEVELS, WORK, is_same, work_of};
use crate::writing::{put, put_line};
use nesl_eval::{Outcome, eval_one};
use nesl_eval_helpers::Free;
use nesl_eval_top_level::Env;
use nesl_split::eval_split;
use nesl_syntax_tree::tree::{Exp, Form};
use std::alloc::{AllocError, Global};
use std::thread::Threads;

// An expression is evaluated with each budget below this one, and with those about its whole work.
const BUDGETS: u64 = 40;

/// How many expressions were compared, how often, and how many helpers were granted.
#[derive(Clone, Copy)]
struct Count {
    expressions: u64,
    comparisons: u64,
    differences: u64,
    helpers: u64,
}

/// Outcomes, and a comparison at each row.
#[derive(Drop)]
struct Comparing<'a, R> {
    rt: &'a R,
    outcomes: Outcomes,
    count: Count,
}

// An expression as all evaluators take it.
#[derive(Clone, Copy)]
struct Compared<'x, R> {
    rt: &'x R,
    alloc: Global,
    env: &'x Env,
    exp: &'x Exp,
}

impl<'a, R: Threads + Sync> Comparing<'a, R> {
    fn new(rt: &'a R, alloc: Global) -> Comparing<'a, R> {
        Comparing {
            rt,
            outcomes: Outcomes::new(alloc),
            count: Count {
                expressions: 0,
                comparisons: 0,
                differences: 0,
                helpers: 0,
            },
        }
    }

    fn try_rows(&mut self, alloc: Global, text: &str, out: &mut Vec<u8>) -> Result<(), AllocError> {
        let mut rows = Rows::new(alloc);
        for line in text.lines() {
            if let Some(asked) = rows.read(line, out)? {
                self.follow(alloc, asked, rows.answer())?;
            }
        }
        rows.end(alloc, "outcomes", out)
    }

    fn follow(
        &mut self,
        alloc: Global,
        asked: Asked<'_>,
        out: &mut Vec<u8>,
    ) -> Result<(), AllocError> {
        let (word, text) = match asked {
            Asked::Text(text) => ("", text),
            Asked::Directive(word, text) => (word, text),
        };
        if word == "@compared" {
            return self.put_count(alloc, out);
        }
        let are_same = self.are_same(alloc, text)?;
        if word != "@compare" {
            self.outcomes.follow(alloc, asked, out)?;
        }
        if are_same {
            Ok(())
        } else {
            put_line(out, b"ANOTHER OUTCOME IN HALVES")
        }
    }

    // Whether a line has the same outcomes in both ways. One without an expression has none.
    fn are_same(&mut self, alloc: Global, line: &str) -> Result<bool, AllocError> {
        match reading_of(alloc, line.as_bytes())? {
            Reading::Form(Form::Eval(exp)) => Ok(self.compare(alloc, &exp)),
            Reading::Form(Form::Bind { value, .. }) => Ok(self.compare(alloc, &value)),
            _ => Ok(true),
        }
    }

    fn compare(&mut self, alloc: Global, exp: &Exp) -> bool {
        let env = self.outcomes.env();
        let compared = Compared {
            rt: self.rt,
            alloc,
            env,
            exp,
        };
        let before = self.count.differences;
        self.count.expressions = self.count.expressions.saturating_add(1);
        compare_all(&compared, &mut self.count);
        self.count.differences == before
    }

    fn put_count(&self, alloc: Global, out: &mut Vec<u8>) -> Result<(), AllocError> {
        let Count {
            expressions,
            comparisons,
            differences: _,
            helpers,
        } = self.count;
        let many = if helpers > comparisons / 100 {
            "many"
        } else {
            "FEW"
        };
        put(
            out,
            format!(in alloc;
                "{expressions} expressions, {comparisons} comparisons, {many} helpers\n"
            ),
        )
    }
}

/// Answers the rows of a part, compares the outcomes of each, and writes the rows that are missed and how many hold.
pub fn try_outcomes<R: Threads + Sync>(
    rt: &R,
    alloc: Global,
    text: &str,
    out: &mut Vec<u8>,
) -> Result<(), AllocError> {
    let mut comparing = Comparing::new(rt, alloc);
    comparing.try_rows(alloc, text, out)
}

// Compares the outcomes of an expression with each of these levels and budgets.
fn compare_all<R: Threads + Sync>(compared: &Compared<'_, R>, count: &mut Count) {
    for levels in [LEVELS, 8, 5, 3, 2, 1, 0] {
        compare_under(compared, levels, WORK, count);
    }
    for fuel in 0..BUDGETS {
        compare_under(compared, LEVELS, fuel, count);
    }
    if let Some(work) = work_of(&compared.in_order(LEVELS, WORK)) {
        compare_under(compared, LEVELS, work.saturating_sub(1), count);
        compare_under(compared, LEVELS, work, count);
    }
}

// Compares the outcomes under these levels and this budget. The seed is the number of comparisons so far.
fn compare_under<R: Threads + Sync>(
    compared: &Compared<'_, R>,
    levels: u32,
    fuel: u64,
    count: &mut Count,
) {
    let told = compared.in_order(levels, fuel);
    let always = Granting::always();
    let seeded = Granting::seeded(count.comparisons);
    let in_halves = compared.in_halves(levels, fuel, &always);
    count.note(is_same(&in_halves, &told) && always.out() == 0);
    let in_halves = compared.in_halves(levels, fuel, &seeded);
    count.note(is_same(&in_halves, &told) && seeded.out() == 0);
    count.helpers = count.helpers.saturating_add(seeded.granted());
}

impl<R: Threads + Sync> Compared<'_, R> {
    fn in_order(&self, levels: u32, fuel: u64) -> Outcome<Global> {
        eval_one(self.alloc, self.env, self.exp, levels, fuel)
    }

    fn in_halves(&self, levels: u32, fuel: u64, helpers: &Granting) -> Outcome<Global> {
        eval_split(
            self.rt, self.alloc, self.env, self.exp, levels, fuel, helpers, &Free,
        )
    }
}

impl Count {
    // Counts a comparison.
    fn note(&mut self, are_same: bool) {
        self.comparisons = self.comparisons.saturating_add(1);
        if !are_same {
            self.differences = self.differences.saturating_add(1);
        }
    }
}
