//! Preparing expressions: their names are resolved.

ghost use Rattle.std.specs.Prelude.{◌≡◌, ◌∷◌, ◌++◌, [], IfOk, OnOk, List, length};
ghost use Rattle.std.proofs.Common.{Box, Global as Heap};
ghost use Rattle.nesl_syntax_tree.specs.Trees.{Tree, node, text, variable, call, element, pair, choice, strided_range};
ghost use Rattle.nesl_syntax_tree.specs.Trees.{prefix_of, sequence, let_in, each, filtered_each};
ghost use Rattle.nesl_syntax_tree.specs.Views.{tree_of, trees_in, binders_in, pattern_tree};
ghost use Rattle.nesl_eval_meaning.specs.Outcome.{denoted, sources};
ghost use Rattle.nesl_eval_code.specs.declared.code.Code.{Code, ApplyTwo};
ghost use Rattle.nesl_eval_code.specs.Means.{Means, AllMean, BindingsMean, Layer, bindings as layer};
ghost use Rattle.nesl_eval_code.specs.Resolving.{layers_of, known};

use crate::code::Code;
use crate::frames::{Frame, Parameter};
use crate::layers::{Layers, LocalPlace, element_up, place_of_local};
use crate::places::{Places, place_of};
use nesl_builtins::{Builtin, named, of_infix, of_prefix};
use nesl_lex::token::Span;
use nesl_seqs_base::seq_fn::SeqFn;
use nesl_syntax_tree::tree::{Binding, Exp, Node, Pattern, Prefix};
use std::alloc::{AllocError, Global};

/// Where the code of an expression is put, and the names that it sees.
#[derive(Clone, Copy)]
struct Preparing<'a> {
    alloc: Global,
    places: &'a Places<'a>,
    layers: &'a Layers<'a>,
}

/// The code of an expression whose local names are in these frames. It recurs as deep as the expression is high.
#[cycle(prepare)]
#[inline(always)]
fn code_of(at: &Preparing<'_>, exp: &Exp) -> Result<Code, AllocError>
    ensures { IfOk result (λ c. Means (known at.now.places.now) (layers_of at.now.layers.now) c (tree_of exp.now)) }
{
    let span = exp.span;
    match &exp.node {
        Node::Number(value) => Ok(Code::Number {
            span,
            value: number(*value),
        }),
        Node::Truth(value) => Ok(Code::Truth {
            span,
            value: *value,
        }),
        Node::Character(value) => Ok(Code::Character {
            span,
            value: *value,
        }),
        Node::Text(bytes) => code_of_text(at, span, bytes.as_slice()),
        Node::Variable(name) => code_of_variable(at, span, name.as_slice()),
        Node::Call { name, argument } => code_of_applied(at, span, name.as_slice(), argument),
        Node::Pair { left, right } => code_of_pair(at, span, left, right),
        Node::Prefix { operator, operand } => code_of_prefix(at, span, *operator, operand),
        Node::Infix {
            operator,
            left,
            right,
        } => code_of_two(at, span, of_infix(*operator), left, right),
        Node::Index { sequence, index } => {
            let function = Builtin::OfSequences(SeqFn::ElementAt);
            code_of_two(at, span, function, sequence, index)
        }
        Node::Choice { test, yes, no } => code_of_choice(at, span, test, yes, no),
        Node::Sequence(items) => code_of_sequence(at, span, items.as_slice()),
        Node::Empty(_) => Ok(Code::Empty { span }),
        Node::Range { from, to } => {
            let function = Builtin::OfSequences(SeqFn::Range);
            code_of_two(at, span, function, from, to)
        }
        Node::StridedRange { from, to, stride } => code_of_strided(at, span, from, to, stride),
        Node::Let { bindings, body } => code_of_let(at, span, bindings.as_slice(), body),
        Node::Each { body, bindings } => code_of_each(at, span, body, bindings.as_slice()),
        Node::FilteredEach {
            body,
            bindings,
            filter,
        } => code_of_filtered(at, span, body, bindings.as_slice(), filter),
        Node::Element => code_of_element(at, span),
    }
}

/// The code of an expression, in a box. That of a name, which most parts are, is made in its place.
#[cycle(prepare)]
#[inline(never)]
fn boxed_code_of(at: &Preparing<'_>, exp: &Exp) -> Result<Box<Code>, AllocError>
    ensures { IfOk result (λ b. Means (known at.now.places.now) (layers_of at.now.layers.now) b.value
        (tree_of exp.now)) }
{
    match &exp.node {
        Node::Variable(name) => boxed_variable(at, exp.span, name.as_slice()),
        _ => box_code_of(at, exp),
    }
}

/// The code of an expression, put into a box.
#[cycle(prepare)]
#[inline(never)]
fn box_code_of(at: &Preparing<'_>, exp: &Exp) -> Result<Box<Code>, AllocError>
    ensures { IfOk result (λ b. Means (known at.now.places.now) (layers_of at.now.layers.now) b.value
        (tree_of exp.now)) }
{
    let code = code_of(at, exp)?;
    let boxed = Box::new(at.alloc, code)?;
    Ok(boxed)
}

/// The code of a name before `(` and its argument.
#[cycle(prepare)]
#[inline(never)]
fn code_of_applied(
    at: &Preparing<'_>,
    span: Span,
    name: &[u8],
    argument: &Exp,
) -> Result<Code, AllocError>
    ensures { IfOk result (λ c. Means (known at.now.places.now) (layers_of at.now.layers.now) c
        (node span (call name.now (tree_of argument.now)))) }
{
    let argument = boxed_code_of(at, argument)?;
    code_of_call(at, span, name, argument)
}

/// The code of an operator before an expression.
#[cycle(prepare)]
#[inline(never)]
fn code_of_prefix(
    at: &Preparing<'_>,
    span: Span,
    operator: Prefix,
    operand: &Exp,
) -> Result<Code, AllocError>
    ensures { IfOk result (λ c. Means (known at.now.places.now) (layers_of at.now.layers.now) c
        (node span (prefix_of operator (tree_of operand.now)))) }
{
    let argument = boxed_code_of(at, operand)?;
    Ok(Code::Apply {
        span,
        function: of_prefix(operator),
        argument,
    })
}

#[cycle(prepare)]
#[inline(never)]
fn code_of_pair(at: &Preparing<'_>, span: Span, left: &Exp, right: &Exp) -> Result<Code, AllocError>
    ensures { IfOk result (λ c. Means (known at.now.places.now) (layers_of at.now.layers.now) c
        (node span (pair (tree_of left.now) (tree_of right.now)))) }
{
    let left = boxed_code_of(at, left)?;
    let right = boxed_code_of(at, right)?;
    Ok(Code::Pair { span, left, right })
}

/// The code of a built-in function of two parts.
#[cycle(prepare)]
#[inline(never)]
fn code_of_two(
    at: &Preparing<'_>,
    span: Span,
    function: Builtin,
    left: &Exp,
    right: &Exp,
) -> Result<Code, AllocError>
    ensures { IfOk result (λ c. (l : Box Code Heap) × (r : Box Code Heap) × (c ≡ ApplyTwo span function l r)
        × Means (known at.now.places.now) (layers_of at.now.layers.now) l.value (tree_of left.now)
        × Means (known at.now.places.now) (layers_of at.now.layers.now) r.value (tree_of right.now)) }
{
    let left = boxed_code_of(at, left)?;
    let right = boxed_code_of(at, right)?;
    Ok(Code::ApplyTwo {
        span,
        function,
        left,
        right,
    })
}

/// The code of a range with a stride.
#[cycle(prepare)]
#[inline(never)]
fn code_of_strided(
    at: &Preparing<'_>,
    span: Span,
    from: &Exp,
    to: &Exp,
    stride: &Exp,
) -> Result<Code, AllocError>
    ensures { IfOk result (λ c. Means (known at.now.places.now) (layers_of at.now.layers.now) c
        (node span (strided_range (tree_of from.now) (tree_of to.now) (tree_of stride.now)))) }
{
    let first = boxed_code_of(at, from)?;
    let second = boxed_code_of(at, to)?;
    let third = boxed_code_of(at, stride)?;
    Ok(Code::ApplyThree {
        span,
        function: Builtin::OfSequences(SeqFn::RangeBy),
        first,
        second,
        third,
    })
}

#[cycle(prepare)]
#[inline(never)]
fn code_of_choice(
    at: &Preparing<'_>,
    span: Span,
    test: &Exp,
    yes: &Exp,
    no: &Exp,
) -> Result<Code, AllocError>
    ensures { IfOk result (λ c. Means (known at.now.places.now) (layers_of at.now.layers.now) c
        (node span (choice (tree_of test.now) (tree_of yes.now) (tree_of no.now)))) }
{
    let test = boxed_code_of(at, test)?;
    let yes = boxed_code_of(at, yes)?;
    let no = boxed_code_of(at, no)?;
    Ok(Code::Choice {
        span,
        test,
        yes,
        no,
    })
}

/// The code of a `let`, whose body sees the names of all its bindings.
#[cycle(prepare)]
#[inline(never)]
fn code_of_let(
    at: &Preparing<'_>,
    span: Span,
    bound: &[Binding],
    body: &Exp,
) -> Result<Code, AllocError>
    ensures { IfOk result (λ c. Means (known at.now.places.now) (layers_of at.now.layers.now) c
        (node span (let_in (binders_in bound.now) (tree_of body.now)))) }
{
    let BoundCodes { codes, frame } = codes_of_bindings(at, bound)?;
    let layers = Layers::Let(&frame, at.layers);
    let inner = Preparing {
        alloc: at.alloc,
        places: at.places,
        layers: &layers,
    };
    let body = boxed_code_of(&inner, body)?;
    Ok(Code::Let {
        span,
        bindings: codes,
        body,
    })
}

/// The code of an apply-to-each.
#[cycle(prepare)]
#[inline(never)]
fn code_of_each(
    at: &Preparing<'_>,
    span: Span,
    body: &Exp,
    drawn: &[Binding],
) -> Result<Code, AllocError>
    ensures { IfOk result (λ c. Means (known at.now.places.now) (layers_of at.now.layers.now) c
        (node span (each (tree_of body.now) (binders_in drawn.now)))) }
{
    let sources = codes_of_sources(at, drawn)?;
    let frame = Frame::of(at.alloc, drawn)?;
    let layers = Layers::Row(&frame, at.layers);
    let inner = Preparing {
        alloc: at.alloc,
        places: at.places,
        layers: &layers,
    };
    let body = boxed_code_of(&inner, body)?;
    Ok(Code::Each {
        span,
        sources,
        body,
    })
}

/// The code of an apply-to-each with a filter.
#[cycle(prepare)]
#[inline(never)]
fn code_of_filtered(
    at: &Preparing<'_>,
    span: Span,
    body: &Exp,
    drawn: &[Binding],
    filter: &Exp,
) -> Result<Code, AllocError>
    ensures { IfOk result (λ c. Means (known at.now.places.now) (layers_of at.now.layers.now) c
        (node span (filtered_each (tree_of body.now) (binders_in drawn.now) (tree_of filter.now)))) }
{
    let sources = codes_of_sources(at, drawn)?;
    let frame = Frame::of(at.alloc, drawn)?;
    let layers = Layers::Row(&frame, at.layers);
    let inner = Preparing {
        alloc: at.alloc,
        places: at.places,
        layers: &layers,
    };
    let body = boxed_code_of(&inner, body)?;
    let filter = boxed_code_of(&inner, filter)?;
    Ok(Code::FilteredEach {
        span,
        sources,
        body,
        filter,
    })
}

/// One more code: that of an expression.
#[cycle(prepare)]
#[inline(never)]
fn add_code(at: &Preparing<'_>, codes: &mut Vec<Code>, exp: &Exp) -> Result<(), AllocError>
    ensures { OnOk result ((c : Code) × (codes.new.items ≡ codes.old.items ++ c ∷ [])
        × Means (known at.now.places.now) (layers_of at.now.layers.now) c (tree_of exp.now)) }
{
    let code = code_of(at, exp)?;
    codes.push(code)?;
    Ok(())
}

/// The code of a sequence that is written out.
#[cycle(prepare)]
#[inline(never)]
fn code_of_sequence(at: &Preparing<'_>, span: Span, items: &[Exp]) -> Result<Code, AllocError>
    ensures { IfOk result (λ c. Means (known at.now.places.now) (layers_of at.now.layers.now) c
        (node span (sequence (trees_in items.now)))) }
{
    let parts = codes_of(at, items)?;
    Ok(Code::Sequence { span, parts })
}

/// The codes of expressions.
#[cycle(prepare)]
#[inline(never)]
fn codes_of(at: &Preparing<'_>, items: &[Exp]) -> Result<Vec<Code>, AllocError>
    ensures { IfOk result (λ cs. AllMean (known at.now.places.now) (layers_of at.now.layers.now) cs.items
        (trees_in items.now)) }
{
    let mut codes = Vec::with_capacity(at.alloc, items.len())?;
    for item in items {
        add_code(at, &mut codes, item)?;
    }
    Ok(codes)
}

/// The codes of the sequences of an apply-to-each, which don't see its names.
#[cycle(prepare)]
#[inline(never)]
fn codes_of_sources(at: &Preparing<'_>, drawn: &[Binding]) -> Result<Vec<Code>, AllocError>
    ensures { IfOk result (λ cs. AllMean (known at.now.places.now) (layers_of at.now.layers.now) cs.items
        (sources (binders_in drawn.now))) }
{
    let mut codes = Vec::with_capacity(at.alloc, drawn.len())?;
    for binder in drawn {
        add_code(at, &mut codes, &binder.value)?;
    }
    Ok(codes)
}

/// The codes of the bindings of a `let`, and the frame with all their names.
#[derive(Drop)]
struct BoundCodes<'a> {
    codes: Vec<Code>,
    frame: Frame<'a>,
}

/// The codes of the bindings of a `let`, each of which sees the names before it.
#[cycle(prepare)]
#[inline(never)]
fn codes_of_bindings<'a>(
    at: &Preparing<'_>,
    bound: &'a [Binding],
) -> Result<BoundCodes<'a>, AllocError>
    ensures codes { IfOk result (λ b. BindingsMean (known at.now.places.now) (layers_of at.now.layers.now) []
        b.codes.items (binders_in bound.now)) }
    ensures bound { IfOk result (λ b. b.frame.bound.now ≡ bound.now) }
    ensures seen { IfOk result (λ b. b.frame.seen ≡ length bound.now) }
{
    let mut codes = Vec::with_capacity(at.alloc, bound.len())?;
    let mut frame = Frame::new(bound);
    for binding in bound {
        let layers = Layers::Let(&frame, at.layers);
        let inner = Preparing {
            alloc: at.alloc,
            places: at.places,
            layers: &layers,
        };
        add_code(&inner, &mut codes, &binding.value)?;
        frame = frame.with_next(at.alloc)?;
    }
    Ok(BoundCodes { codes, frame })
}

/// The code of an expression of the top level.
pub fn code_of_expression(alloc: Global, places: &Places<'_>, exp: &Exp) -> Result<Code, AllocError>
    ensures { IfOk result (λ c. Means (known places.now) [] c (tree_of exp.now)) }
{
    let at = Preparing {
        alloc,
        places,
        layers: &Layers::Top,
    };
    code_of(&at, exp)
}

/// The code of a function's body, in which its parameter alone is local.
pub fn code_of_body(
    alloc: Global,
    places: &Places<'_>,
    parameter: &Pattern,
    body: &Exp,
) -> Result<Code, AllocError>
    ensures { IfOk result (λ c. Means (known places.now) (layer (pattern_tree parameter.now ∷ []) ∷ []) c
        (tree_of body.now)) }
{
    let parameter = Parameter::new(alloc, parameter)?;
    let layers = Layers::Parameter(&parameter);
    let at = Preparing {
        alloc,
        places,
        layers: &layers,
    };
    code_of(&at, body)
}

/// A number that a tree holds; one beyond the greatest is taken as the greatest.
fn number(value: u64) -> i64
    ensures { result ≡ denoted value }
{
    if value <= i64::MAX as u64 {
        value as i64
    } else {
        i64::MAX
    }
}

#[inline(never)]
fn code_of_text(at: &Preparing<'_>, span: Span, bytes: &[u8]) -> Result<Code, AllocError>
    ensures { IfOk result (λ c. Means (known at.now.places.now) (layers_of at.now.layers.now) c
        (node span (text bytes.now))) }
{
    let bytes = Vec::from_slice(at.alloc, bytes)?;
    Ok(Code::Text { span, bytes })
}

/// The code of a name.
#[inline(never)]
fn code_of_variable(at: &Preparing<'_>, span: Span, name: &[u8]) -> Result<Code, AllocError>
    ensures { IfOk result (λ c. Means (known at.now.places.now) (layers_of at.now.layers.now) c
        (node span (variable name.now))) }
{
    variable(at, span, name)
}

/// The code of a name, in a box.
#[inline(never)]
fn boxed_variable(at: &Preparing<'_>, span: Span, name: &[u8]) -> Result<Box<Code>, AllocError>
    ensures { IfOk result (λ b. Means (known at.now.places.now) (layers_of at.now.layers.now) b.value
        (node span (variable name.now))) }
{
    let code = variable(at, span, name)?;
    let boxed = Box::new(at.alloc, code)?;
    Ok(boxed)
}

/// The code of a name: a local one, or else one of the top level.
#[inline(always)]
fn variable(at: &Preparing<'_>, span: Span, name: &[u8]) -> Result<Code, AllocError>
    ensures { IfOk result (λ c. Means (known at.now.places.now) (layers_of at.now.layers.now) c
        (node span (variable name.now))) }
{
    if let Some(LocalPlace { up, index, steps }) = place_of_local(at.alloc, at.layers, name)? {
        return Ok(Code::Local {
            span,
            up,
            index,
            steps,
        });
    }
    match place_of(at.places, name) {
        Some(place) => Ok(Code::Top { span, place }),
        None => {
            let name = Vec::from_slice(at.alloc, name)?;
            Ok(Code::Named { span, name })
        }
    }
}

/// The code of a name before `(`: a built-in function, or else a function or a datatype of the top level.
#[inline(always)]
fn code_of_call(
    at: &Preparing<'_>,
    span: Span,
    name: &[u8],
    argument: Box<Code>,
) -> Result<Code, AllocError>
    ensures { IfOk result (λ c. (ls : List Layer) (e : Tree) → Means (known at.now.places.now) ls argument.value e
        → Means (known at.now.places.now) ls c (node span (call name.now e))) }
{
    if let Some(function) = named(name) {
        return Ok(Code::Apply {
            span,
            function,
            argument,
        });
    }
    match place_of(at.places, name) {
        Some(place) => Ok(Code::Call {
            span,
            place,
            argument,
        }),
        None => {
            let name = Vec::from_slice(at.alloc, name)?;
            Ok(Code::CallNamed {
                span,
                name,
                argument,
            })
        }
    }
}

/// The code of the body of an apply-to-each without a body.
#[inline(never)]
fn code_of_element(at: &Preparing<'_>, span: Span) -> Result<Code, AllocError>
    ensures { IfOk result (λ c. Means (known at.now.places.now) (layers_of at.now.layers.now) c (node span element)) }
{
    let up = element_up(at.layers)?;
    Ok(Code::Local {
        span,
        up,
        index: 0,
        steps: Vec::new(at.alloc),
    })
}
