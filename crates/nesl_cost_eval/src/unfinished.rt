//! Why an evaluation with an account ended without a value.
ghost use Rattle.std.specs.Prelude.{◌≡◌};
ghost use Rattle.nesl_eval_meaning.specs.Names.{Value as Meant};
ghost use Rattle.nesl_cost_meaning.specs.Traced.{Traced, at_call};
ghost use Rattle.nesl_cost_eval.specs.Writes.{Book, Writes, Halts, lifted, calling, returning};
ghost use Rattle.nesl_eval_nodes.specs.Meets.{Is};

use nesl_eval_nodes::meter::Stop;
use nesl_lex::token::Span;
use nesl_scalars::Trap;
use nesl_values::Value;

/// A span of the line, or of the text of a function.
#[derive(Clone, Copy)]
pub struct Source<'a> {
    /// The function's name, or `None` for the line.
    pub home: Option<&'a [u8]>,
    pub span: Span,
}

/// Why an evaluation ended without a value.
#[derive(Clone, Copy)]
pub enum Unfinished<'a> {
    /// A fault, with the span that is reported, which is in the line, and its place, which may be in a function's body.
    Fault {
        trap: Trap,
        span: Span,
        place: Source<'a>,
    },
    /// It would take more than the fuel.
    Over,
    Memory,
    /// An ill-typed expression.
    Stuck,
}

/// The same, of what a node does at once. Its faults are at the span that is reported.
pub(crate) fn halted<'a, R: Drop>(found: Result<R, Stop>) -> Result<R, Unfinished<'a>>
    ensures { result ≡ lifted found }
{
    match found {
        Ok(value) => Ok(value),
        Err(Stop::Fault(trap, span)) => Err(Unfinished::Fault {
            trap,
            span,
            place: Source { home: None, span },
        }),
        Err(Stop::Over) => Err(Unfinished::Over),
        Err(Stop::Memory) => Err(Unfinished::Memory),
        Err(Stop::Stuck) => Err(Unfinished::Stuck),
    }
}

/// What a function's body evaluated to, for the node at this span that called the function.
pub(crate) fn called_at<'a>(
    name: &'a [u8],
    span: Span,
    found: Result<Value, Unfinished<'a>>,
) -> Result<Value, Unfinished<'a>>
    ensures { (a b : Book) (o : Traced Meant) → Writes Is (calling name.now span a) found.entry b o
        → Writes Is a result (returning b) (at_call name.now span o) }
{
    match found {
        Ok(value) => Ok(value),
        Err(halt) => Err(past_call(name, span, halt)),
    }
}

// Why a function's body ended without a value, for the node at this span that called the function.
fn past_call<'a>(name: &'a [u8], span: Span, halt: Unfinished<'a>) -> Unfinished<'a>
    ensures { (a b : Book) (o : Traced Meant) → Halts (calling name.now span a) halt.entry b o
        → Halts a result (returning b) (at_call name.now span o) }
{
    match halt {
        Unfinished::Fault { trap, place, .. } => Unfinished::Fault {
            trap,
            span,
            place: Source {
                home: Some(place.home.unwrap_or(name)),
                span: place.span,
            },
        },
        Unfinished::Over => Unfinished::Over,
        Unfinished::Memory => Unfinished::Memory,
        Unfinished::Stuck => Unfinished::Stuck,
    }
}
