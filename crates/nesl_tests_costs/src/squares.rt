//! The account of `f([3, 5]);` after `function f(v) = {a * a : a in v};`: two turns, as deep as each other.
use nesl_cost_rows::reading::charges_of;
use nesl_cost_rows::trace::{Mark, Trace};
use nesl_cost_shown::json::json_of;
use nesl_cost_shown::parts::Text;
use nesl_cost_shown::printed::Line;
use nesl_cost_shown::prompt::{Ended, shown};
use nesl_cost_shown::table::table_of;
use nesl_lex::token::Span;
use std::alloc::{AllocError, Global};

const LINE: &[u8] = b"f([3, 5])";

const FUNCTION: &[u8] = b"function f(v) = {a * a : a in v};";

const JSON: &str = "{\"work\":14,\"depth\":9,\
\"texts\":{\"\":\"f([3, 5])\",\"f\":\"function f(v) = {a * a : a in v};\"},\
\"places\":[{\"in\":\"\",\"at\":[0,9],\"entered\":1,\"work\":1,\"depth\":1},\
{\"in\":\"\",\"at\":[2,8],\"entered\":1,\"work\":1,\"depth\":1},\
{\"in\":\"\",\"at\":[3,4],\"entered\":1,\"work\":1,\"depth\":1},\
{\"in\":\"\",\"at\":[6,7],\"entered\":1,\"work\":1,\"depth\":1},\
{\"in\":\"f\",\"at\":[16,32],\"entered\":1,\"work\":3,\"depth\":1},\
{\"in\":\"f\",\"at\":[17,18],\"entered\":2,\"work\":2,\"depth\":1},\
{\"in\":\"f\",\"at\":[17,22],\"entered\":2,\"work\":2,\"depth\":1},\
{\"in\":\"f\",\"at\":[21,22],\"entered\":2,\"work\":2,\"depth\":1},\
{\"in\":\"f\",\"at\":[30,31],\"entered\":1,\"work\":1,\"depth\":1}],\
\"turns\":[{\"in\":\"f\",\"at\":[16,32],\"turn\":0,\"times\":1}]}";

const SHOWN: &str = "
in the line: work 4 of 14, depth 4 of 9
       f([3, 5])
work%  29-------
path%  44-------

in `f`: work 10 of 14, depth 5 of 9
       function f(v) = {a * a : a in v};
work%                  71--------------
path%                  56--------------

where  node                              entered      work          depth
f      {a * a : a in v}                        1         3  21%         1  11%
f      a                                       2         2  14%         1  11%
f      a * a                                   2         2  14%         1  11%
f      a                                       2         2  14%         1  11%
line   f([3, 5])                               1         1   7%         1  11%
line   [3, 5]                                  1         1   7%         1  11%
       3 other nodes                           3         3  21%         3  33%
       all                                    12        14 100%         9 100%

path: in {a * a : a in v} turn 0
time on p processors, level by level, at least and at most:
  p              2         4         8        16        32        64       128
  least          9         9         9         9         9         9         9
  most          16        12        10         9         9         9         9
";

fn entered(start: usize, end: usize) -> Mark<'static> {
    Mark::Entered(Span { start, end })
}

const EACH: Span = Span { start: 16, end: 32 };

/// A turn's value has one node.
const VALUE: Mark<'static> = Mark::Besides {
    span: EACH,
    work: 1,
    depth: 0,
};

fn marks() -> [Mark<'static>; 22] {
    [
        entered(0, 9),
        entered(2, 8),
        entered(3, 4),
        entered(6, 7),
        Mark::Called {
            name: b"f",
            span: Span { start: 0, end: 9 },
        },
        entered(16, 32),
        entered(30, 31),
        Mark::Turn {
            span: EACH,
            place: 0,
        },
        entered(17, 22),
        entered(17, 18),
        entered(21, 22),
        VALUE,
        Mark::Others,
        Mark::Turn {
            span: EACH,
            place: 1,
        },
        entered(17, 22),
        entered(17, 18),
        entered(21, 22),
        VALUE,
        Mark::Others,
        Mark::Turned,
        Mark::Turned,
        Mark::Returned,
    ]
}

fn trace_of<'a>(alloc: Global, marks: &[Mark<'a>]) -> Result<Trace<'a>, AllocError> {
    let mut trace = Trace::new(alloc);
    for mark in marks {
        trace.add(*mark)?;
    }
    Ok(trace)
}

fn text_of(alloc: Global, lines: &[Line]) -> Result<Vec<u8>, AllocError> {
    let mut text = Vec::new(alloc);
    for line in lines {
        text.extend_from_slice(line.bytes())?;
        text.push(b'\n')?;
    }
    Ok(text)
}

#[test]
fn account_of_a_call(rt: HostRuntime) {
    let alloc = rt.alloc();
    let trace = trace_of(alloc, &marks()).expect(&rt, "memory");
    let charges = charges_of(alloc, trace.marks()).expect(&rt, "memory");
    assert_eq!(rt; charges.path.depth(), 9);
    let table = table_of(alloc, &charges).expect(&rt, "memory");
    assert_eq!(rt; table.rows().len(), 10);
    assert_eq!(rt; table.work(), 14);
    assert_eq!(rt; table.depth(), 9);
    let texts = [
        Text {
            home: None,
            bytes: LINE,
        },
        Text {
            home: Some(b"f"),
            bytes: FUNCTION,
        },
    ];
    let json = json_of(alloc, &texts, &table).expect(&rt, "memory");
    assert_eq!(rt; str::from_utf8(json.bytes()).expect(&rt, "text"), JSON);
    let lines = shown(alloc, &texts, &table, Ended::Value).expect(&rt, "memory");
    let text = text_of(alloc, lines.as_slice()).expect(&rt, "memory");
    assert_eq!(rt; str::from_utf8(text.as_slice()).expect(&rt, "text"), SHOWN);
}
