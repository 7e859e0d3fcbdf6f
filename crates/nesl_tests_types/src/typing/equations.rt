//! Equations, and what solves them.

use crate::made::{class_named, type_of, variable};
use crate::rows::{Subject, all_hold};
use crate::texts::{push_number, word_of};
use nesl_types::{Class, Kind, Ty};
use nesl_unify::narrow::{Member, members_are_below};
use nesl_unify::solve::{Equation, Solution, are_below, is_below, solve};
use std::alloc::{AllocError, Global};

/// Adds an equation, `TYPE = TYPE`.
fn push_equation(
    alloc: Global,
    equations: &mut Vec<Equation>,
    words: &str,
) -> Result<(), AllocError> {
    if let Some((left, right)) = words.split_once(" = ") {
        let left = type_of(alloc, left)?;
        let right = type_of(alloc, right)?;
        equations.push(Equation { left, right })?;
    }
    Ok(())
}

fn equations_of(alloc: Global, words: &str) -> Result<Vec<Equation>, AllocError> {
    let mut equations = Vec::new(alloc);
    for equation in words.split(", ") {
        push_equation(alloc, &mut equations, equation)?;
    }
    Ok(equations)
}

/// Adds a member, `VARIABLE CLASS`.
fn push_member(members: &mut Vec<Member>, words: &str) -> Result<(), AllocError> {
    if let Some((word, class)) = words.split_once(' ') {
        let variable = variable(word);
        let class = class_named(class);
        members.push(Member { variable, class })?;
    }
    Ok(())
}

fn members_of(alloc: Global, words: &str) -> Result<Vec<Member>, AllocError> {
    let mut members = Vec::new(alloc);
    for member in words.split(", ") {
        push_member(&mut members, member)?;
    }
    Ok(members)
}

/// The class of the first variable.
fn first_class(solution: &Solution) -> &'static str {
    match solution.classes.first() {
        Some(class) => word_of(*class),
        None => "any",
    }
}

/// Writes a type where it is a variable, and else the number of its nodes.
fn push_variable_or_size(text: &mut String, ty: Result<Ty, AllocError>) -> Result<(), AllocError> {
    let ty = ty?;
    match ty.kind() {
        Kind::Var(variable) => push_number(" v", variable, text),
        _ => {
            let left = ty.room_left(5000).unwrap_or(0);
            push_number(" ", 5000u64.saturating_sub(left), text)
        }
    }
}

/// Writes the class of the first variable, and the types of those that are asked for.
fn push_solution(
    alloc: Global,
    solution: &Solution,
    asked: &str,
    text: &mut String,
) -> Result<(), AllocError> {
    text.push_str(first_class(solution))?;
    for word in asked.split_whitespace() {
        push_variable_or_size(text, solution.variable(alloc, variable(word)))?;
    }
    Ok(())
}

fn solve_and_tell(
    alloc: Global,
    count: u64,
    equations: &[Equation],
    members: &[Member],
    asked: &str,
    text: &mut String,
) -> Result<(), AllocError> {
    if !are_below(count, equations) || !members_are_below(count, members) {
        return text.push_str("too few variables");
    }
    match solve(alloc, count, equations, members) {
        Ok(solution) => push_solution(alloc, &solution, asked, text),
        Err(fault) => write!(text, "{fault}"),
    }
}

/// Solves the equations with `MEMBERS|ASKED`.
fn tell_of(
    alloc: Global,
    count: u64,
    equations: &[Equation],
    words: &str,
    text: &mut String,
) -> Result<(), AllocError> {
    let (members, asked) = words.split_once('|').unwrap_or((words, ""));
    let members = members_of(alloc, members)?;
    solve_and_tell(alloc, count, equations, &members, asked, text)
}

/// What solves equations. A row asks `COUNT|EQUATIONS|MEMBERS|ASKED`, where the count is that of the variables.
struct Solutions;

impl Subject for Solutions {
    fn tell(&self, alloc: Global, row: &str, text: &mut String) -> Result<(), AllocError> {
        let (count, rest) = row.split_once('|').unwrap_or((row, ""));
        let (equations, rest) = rest.split_once('|').unwrap_or((rest, ""));
        let equations = equations_of(alloc, equations)?;
        tell_of(alloc, variable(count), &equations, rest, text)
    }
}

/// Two classes meet, a type has no sequence of itself, and no sequence is ordinal.
const SMALL: &str = "1||v0 ordinal, v0 logical| => number
1|v0 = seq v0|| => no solution
1|v0 = seq int|v0 ordinal| => no solution";

/// The largest type, one that is too large, and one that is far too large, in both orders.
const LARGE: &str = "12|@11~v& = both v$ v$, @||v11 => any 4095
13|@12~v& = both v$ v$, @|| => no solution
5001|@5000~v& = both v$ v$, @|| => no solution
5001|@5000~v? = both v! v!, @|| => no solution";

/// A chain of equal variables.
const CHAIN: &str =
    "100000|@99999~v$ = v&, @|v0 number, v99999 logical|v0 v54321 v99999 => number v0 v0 v0";

/// A thousand variables, each the first of a dozen in which each but the last is the pairs of the next one with itself,
/// are types of 4,095 nodes, and are then all made equal.
const LARGE_AND_EQUAL: &str = "12000|\
    @1000~v$.0 = both v$.1 v$.1, v$.1 = both v$.2 v$.2, v$.2 = both v$.3 v$.3, v$.3 = both v$.4 v$.4, \
    v$.4 = both v$.5 v$.5, v$.5 = both v$.6 v$.6, v$.6 = both v$.7 v$.7, v$.7 = both v$.8 v$.8, \
    v$.8 = both v$.9 v$.9, v$.9 = both v$.10 v$.10, v$.10 = both v$.11 v$.11, @\
    @999~v&.0 = v$.0, @||v11999 v11988 => any v11 4095";

/// Sequences of different types, for two variables, which are then the same.
const SEQUENCES: &str = "2|v0 = seq d3, v1 = seq d4||v0 v1 => any 2 2
2|v0 = seq d3, v1 = seq d4, v0 = v1|| => no solution";

/// Equations neither side of which is a variable.
const APART: &str = "2|both v0 seq v0 = both bool v1||v0 v1 => any 1 2
1|both v0 int = seq int|| => no solution
1|both v0 d1 = both int d2|| => no solution
2|both v0 v1 = both seq v1 seq v0|| => no solution
0|int = bool|| => no solution
0|seq d1 = seq d1|| => any";

#[test]
fn equations_are_solved(rt: HostRuntime) {
    let tables = [SMALL, LARGE, CHAIN, LARGE_AND_EQUAL, SEQUENCES, APART];
    all_hold(&rt, rt.alloc(), &Solutions, &tables);
}
