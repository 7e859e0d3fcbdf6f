//! The costs of a submission at all numbers of a row.
ghost use Rattle.std.specs.Prelude.{IfOk, IfSome};
ghost use Rattle.nesl_grade.specs.Outcomes.{IsMeasuredAt};

use crate::cost::{measured, said_in};
use crate::examined::Examined;
use crate::line::line_at;
use crate::reply::reply_after;
use nesl_exercise::bound::{Op, value_at};
use nesl_exercise::measure::Measure;
use nesl_exercise::outcome::Point;
use nesl_exercise::test::{Check, Test};
use std::alloc::{AllocError, Global};

/// Measures the tests of costs, in order. Other tests have no points.
pub fn curves_of(
    alloc: Global,
    examined: &Examined,
    tests: &[Test],
) -> Result<Vec<Vec<Point>>, AllocError> {
    let mut curves = Vec::new(alloc);
    for test in tests {
        let curve = curve_of(alloc, examined, &test.check)?;
        curves.push(curve)?;
    }
    Ok(curves)
}

fn curve_of(alloc: Global, examined: &Examined, check: &Check) -> Result<Vec<Point>, AllocError> {
    match check {
        Check::Cost {
            exp,
            row,
            measure,
            bound,
        } => measure_row(
            alloc,
            examined,
            exp.as_slice(),
            row.as_slice(),
            *measure,
            bound.as_slice(),
        ),
        Check::Value { .. } | Check::Fault { .. } | Check::Feature { .. } => Ok(Vec::new(alloc)),
    }
}

// Measures an expression at each number of a row. Numbers at which it has no value are left out.
fn measure_row(
    alloc: Global,
    examined: &Examined,
    exp: &[u8],
    row: &[u64],
    measure: Measure,
    bound: &[Op],
) -> Result<Vec<Point>, AllocError> {
    let mut points = Vec::new(alloc);
    for n in row {
        if let Some(point) = point_at(alloc, examined, exp, *n, measure, bound)? {
            points.push(point)?;
        }
    }
    Ok(points)
}

// Measures an expression at a number.
fn point_at(
    alloc: Global,
    examined: &Examined,
    exp: &[u8],
    n: u64,
    measure: Measure,
    bound: &[Op],
) -> Result<Option<Point>, AllocError>
    ensures { IfOk result (λ point. IfSome point (IsMeasuredAt examined.now exp.now measure bound.now)) }
{
    let line = line_at(alloc, exp, n)?;
    let got = reply_after(
        alloc,
        examined.limits,
        examined.lines.as_slice(),
        line.as_slice(),
    )?;
    let Some(said) = said_in(alloc, got.as_slice())? else {
        return Ok(None);
    };
    Ok(Some(Point {
        n,
        cost: measured(measure, said.work, said.depth),
        bound: value_at(alloc, bound, n).ok(),
    }))
}
