//! Curves of costs and of bounds, as SVG.

use crate::out::Out;
use nesl_exercise::outcome::Point;

/// What a curve is of.
#[derive(Clone, Copy)]
enum Curve {
    Cost,
    Bound,
}

/// The size of the curves in pixels, and the space around them.
const WIDTH: u128 = 320;

const HEIGHT: u128 = 160;

const MARGIN: u128 = 20;

/// Appends the curve of the costs of a test, and that of its bound. The numbers `n` are at equal distances.
pub(crate) fn put_curves(out: &mut Out, points: &[Point]) {
    let (Some(first), Some(last)) = (points.first(), points.last()) else {
        return;
    };
    let top = top_of(points);
    out.put("<svg viewBox=\"0 0 360 220\" width=\"360\" height=\"220\" role=\"img\">\n");
    out.put("<path class=\"axes\" d=\"M20 20V180H340\"/>\n");
    put_curve(out, Curve::Bound, points, top);
    put_curve(out, Curve::Cost, points, top);
    out.put("<text x=\"24\" y=\"16\">");
    out.put_number(top);
    out.put_named("</text>\n<text x=\"20\" y=\"198\">n = ", first.n);
    out.put_named(
        "</text>\n<text x=\"340\" y=\"198\" text-anchor=\"end\">n = ",
        last.n,
    );
    out.put("</text>\n<text class=\"cost\" x=\"20\" y=\"215\">cost</text>\n");
    out.put("<text class=\"bound\" x=\"60\" y=\"215\">bound</text>\n</svg>\n");
}

fn put_curve(out: &mut Out, curve: Curve, points: &[Point], top: u128) {
    out.put("<polyline class=\"");
    out.put(class_of(curve));
    out.put("\" points=\"");
    let steps = points.len().saturating_sub(1) as u128;
    for (place, point) in points.iter().enumerate() {
        let across = part(WIDTH, place as u128, steps);
        let up = part(HEIGHT, height(curve, point), top);
        out.put_number(MARGIN.saturating_add(across));
        out.put(",");
        out.put_number(MARGIN.saturating_add(HEIGHT.saturating_sub(up)));
        out.put(" ");
    }
    out.put("\"/>\n");
}

fn class_of(curve: Curve) -> &'static str {
    match curve {
        Curve::Cost => "cost",
        Curve::Bound => "bound",
    }
}

fn height(curve: Curve, point: &Point) -> u128 {
    match curve {
        Curve::Cost => u128::from(point.cost),
        Curve::Bound => point.bound.unwrap_or(0),
    }
}

// What `some` of `all` is of a length.
fn part(length: u128, some: u128, all: u128) -> u128 {
    some.saturating_mul(length).checked_div(all).unwrap_or(0)
}

// The greatest cost or bound.
fn top_of(points: &[Point]) -> u128 {
    let mut top: u128 = 1;
    for point in points {
        top = greater(top, height(Curve::Cost, point));
        top = greater(top, height(Curve::Bound, point));
    }
    top
}

fn greater(one: u128, other: u128) -> u128 {
    if one < other { other } else { one }
}
