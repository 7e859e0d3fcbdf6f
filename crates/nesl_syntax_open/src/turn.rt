// What the newest opening becomes when an expression and a token that ends a part follow it.

ghost use Rattle.std.specs.Prelude.{◌≡◌, ◌∷◌, List, Option, Some, None, Err, false, true, if◌then◌else◌};
ghost use Rattle.nesl_syntax_tree.specs.Trees.{Tree, Trees, Binders, PatternTree, no_binders, with_last};
ghost use Rattle.nesl_syntax_tree.specs.Trees.{with_last_binder};
ghost use Rattle.nesl_syntax_tree.specs.Patterns.{pattern_in};
ghost use Rattle.nesl_syntax_open.specs.Machine.{Waiting, before, marked, open_at, taken_up, turned};
ghost use Rattle.nesl_syntax_open.specs.Machine as machine;
ghost use Rattle.nesl_syntax_open.specs.Modes.{Follows};
ghost use Rattle.nesl_syntax_tree.specs.Parts.{Sees, SeesAll, SeesBody, SeesBound, SeesPattern};
ghost use Rattle.nesl_syntax_open.specs.Stack.{SeesGroup, SeesOpening, SeesPending, SeesStack};
ghost use Rattle.nesl_syntax_open.specs.Stack.{some_elements, some_binders};
ghost use Rattle.nesl_syntax_open.specs.Turns.{let_turned, each_turned};
ghost use Rattle.nesl_syntax_open.specs.declared.pending.Pending as pending;
ghost use Rattle.nesl_syntax_open.specs.declared.mode.Mode.TheVariants as mode;
ghost use Rattle.nesl_lex.specs.declared.token.Span.{Span};

use crate::fault::ParseFault;
use crate::mark::Mark;
use crate::mode::{Mode, wait};
use crate::pending::{Group, Opening, Pending, newest};
use nesl_lex::token::{Name, Span};
use nesl_syntax_tree::parts::lists::{
    Bindings, Elements, each_of, filtered_each_of, push_binding, push_part, sequence_of,
};
use nesl_syntax_tree::parts::part::{
    Part, call_of, index_of, over, range_of, strided_range_of, widen,
};
use nesl_syntax_tree::parts::pattern::{PatternPart, pattern_of};
use std::alloc::Global;

/// A token that ends a part, and where it is; and where memory for what it makes comes from.
#[derive(Clone, Copy)]
struct End {
    alloc: Global,
    mark: Mark,
    at: Span,
}

// The tokens have no tree; what was read of one is dropped.
fn refuse<T: Drop>(value: T) -> Result<Mode, ParseFault>
    ensures { result ≡ Err ParseFault.Syntax }
{
    drop(value);
    Err(ParseFault::Syntax)
}

// Memory ran out; what was read of a tree is dropped.
fn run_out<T: Drop>(value: T) -> Result<Mode, ParseFault>
    ensures { result ≡ Err ParseFault.Memory }
{
    drop(value);
    Err(ParseFault::Memory)
}

// A part that is whole.
#[inline(always)]
fn whole(part: Part) -> Mode
    ensures { result ≡ mode.Behind false part }
{
    Mode::Behind { fresh: false, part }
}

// Something else is open in place of what was.
#[inline(always)]
fn becomes(stack: &mut Vec<Pending>, opening: Opening) -> Result<Mode, ParseFault>
    ensures { (ws : List Waiting) (o : machine.Opening) → SeesStack stack.old.items ws → SeesOpening opening o →
        Follows result stack.new.items (Some (open_at o ∷ ws, before)) }
{
    wait(stack, Pending::Open(opening))
}

#[inline(always)]
fn end_round(from: Span, part: Part, end: End) -> Result<Mode, ParseFault>
    ensures { (ps : List pending.Pending) (ws : List Waiting) (x : Tree) → SeesStack ps ws → Sees part x →
        Follows result ps (taken_up ws (turned end.mark end.at (machine.round from) x)) }
{
    match end.mark {
        Mark::CloseParenthesis => Ok(whole(widen(part, over(from, end.at)))),
        _ => refuse(part),
    }
}

#[inline(always)]
fn end_call(name: Name, from: Span, part: Part, end: End) -> Result<Mode, ParseFault>
    ensures { (ps : List pending.Pending) (ws : List Waiting) (x : Tree) → SeesStack ps ws → Sees part x →
        Follows result ps (taken_up ws (turned end.mark end.at (machine.call name.letters.items from) x)) }
{
    match end.mark {
        Mark::CloseParenthesis => Ok(whole(call_of(end.alloc, name, part, over(from, end.at))?)),
        _ => refuse((name, part)),
    }
}

#[inline(never)]
fn end_index(base: Part, part: Part, end: End) -> Result<Mode, ParseFault>
    ensures { (ps : List pending.Pending) (ws : List Waiting) (a x : Tree) → SeesStack ps ws → Sees base a →
        Sees part x →
        Follows result ps (taken_up ws (turned end.mark end.at (machine.index_of a) x)) }
{
    match end.mark {
        Mark::CloseBracket => Ok(whole(index_of(end.alloc, base, part, end.at)?)),
        _ => refuse((base, part)),
    }
}

#[inline(never)]
fn end_test(stack: &mut Vec<Pending>, word: Span, part: Part, end: End) -> Result<Mode, ParseFault>
    ensures { (ws : List Waiting) (x : Tree) → SeesStack stack.old.items ws → Sees part x →
        Follows result stack.new.items (taken_up ws (turned end.mark end.at (machine.test word) x)) }
{
    match end.mark {
        Mark::Then => becomes(stack, Opening::Branch { word, test: part }),
        _ => refuse(part),
    }
}

#[inline(never)]
fn end_branch(
    stack: &mut Vec<Pending>,
    test: Part,
    word: Span,
    part: Part,
    end: End,
) -> Result<Mode, ParseFault>
    ensures { (ws : List Waiting) (a x : Tree) → SeesStack stack.old.items ws → Sees test a → Sees part x →
        Follows result stack.new.items (taken_up ws (turned end.mark end.at (machine.branch word a) x)) }
{
    match end.mark {
        Mark::Else => wait(
            stack,
            Pending::Else {
                word,
                test,
                yes: part,
            },
        ),
        _ => refuse((test, part)),
    }
}

#[inline(always)]
#[tactic(auto, using(crate::proofs::Turns::no_elements))]
fn end_list(
    stack: &mut Vec<Pending>,
    some: bool,
    elements: Elements,
    from: Span,
    part: Part,
    end: End,
) -> Result<Mode, ParseFault>
    ensures { (ws : List Waiting) (xs : Trees) (x : Tree) → SeesStack stack.old.items ws →
        some ≡ some_elements xs → SeesAll elements xs → Sees part x →
        Follows result stack.new.items (taken_up ws (turned end.mark end.at (machine.list from xs) x)) }
{
    match end.mark {
        Mark::CloseBracket => {
            let elements = push_part(elements, part)?;
            let list = sequence_of(end.alloc, elements, over(from, end.at))?;
            Ok(whole(list))
        }
        Mark::Colon => {
            drop(elements);
            if some {
                return refuse(part);
            }
            becomes(stack, Opening::RangeFrom { from, start: part })
        }
        _ => refuse((elements, part)),
    }
}

#[inline(never)]
fn end_range_from(
    stack: &mut Vec<Pending>,
    start: Part,
    from: Span,
    part: Part,
    end: End,
) -> Result<Mode, ParseFault>
    ensures { (ws : List Waiting) (a x : Tree) → SeesStack stack.old.items ws → Sees start a → Sees part x →
        Follows result stack.new.items (taken_up ws (turned end.mark end.at (machine.range_from from a) x)) }
{
    match end.mark {
        Mark::Colon => {
            becomes(
                stack,
                Opening::RangeTo {
                    from,
                    start,
                    stop: part,
                },
            )
        }
        Mark::CloseBracket => Ok(whole(range_of(end.alloc, start, part, over(from, end.at))?)),
        _ => refuse((start, part)),
    }
}

#[inline(never)]
fn end_range_to(
    start: Part,
    stop: Part,
    from: Span,
    part: Part,
    end: End,
) -> Result<Mode, ParseFault>
    ensures { (ps : List pending.Pending) (ws : List Waiting) (a b x : Tree) → SeesStack ps ws → Sees start a →
        Sees stop b → Sees part x →
        Follows result ps (taken_up ws (turned end.mark end.at (machine.range_to from a b) x)) }
{
    match end.mark {
        Mark::CloseBracket => {
            let range = strided_range_of(end.alloc, start, stop, part, over(from, end.at))?;
            Ok(whole(range))
        }
        _ => refuse((start, stop, part)),
    }
}

// A pattern, where an expression may be one.
#[inline(always)]
fn bind(
    stack: &mut Vec<Pending>,
    group: Group,
    bindings: Bindings,
    part: Part,
) -> Result<Mode, ParseFault>
    ensures { (ws : List Waiting) (g : machine.Group) (bs : Binders) (x : Tree) → SeesStack stack.old.items ws →
        SeesGroup group g → SeesBound bindings bs → Sees part x →
        Follows result stack.new.items (taken_up ws (machine.bound g bs (pattern_in x))) }
{
    match pattern_of(part) {
        Some(pattern) => becomes(
            stack,
            Opening::Value {
                group,
                bindings,
                pattern,
            },
        ),
        None => refuse((group, bindings)),
    }
}

/// No binders so far.
#[inline(always)]
pub fn no_bindings(alloc: Global) -> Bindings
    ensures { SeesBound result no_binders }
{
    Bindings::Built {
        height: 0,
        items: Vec::new(alloc),
    }
}

#[inline(never)]
fn end_brace(stack: &mut Vec<Pending>, from: Span, part: Part, end: End) -> Result<Mode, ParseFault>
    ensures { (ws : List Waiting) (x : Tree) → SeesStack stack.old.items ws → Sees part x →
        Follows result stack.new.items (taken_up ws (turned end.mark end.at (machine.brace from) x)) }
{
    match end.mark {
        Mark::Colon => {
            let group = Group::Each {
                from,
                body: Some(part),
            };
            let bindings = no_bindings(end.alloc);
            becomes(
                stack,
                Opening::Binders {
                    group,
                    some: false,
                    bindings,
                },
            )
        }
        Mark::In => {
            let group = Group::Each { from, body: None };
            bind(stack, group, no_bindings(end.alloc), part)
        }
        _ => refuse(part),
    }
}

// Whether the token comes between a binder's pattern and its value.
fn begins_value(group: &Group, mark: Mark) -> bool
    ensures { (g : machine.Group) (bs : Binders) (s : Span) (x : Tree) → SeesGroup group.now g →
        turned mark s (machine.binders g bs) x ≡ (if result then machine.bound g bs (pattern_in x) else None) }
{
    match group {
        Group::Let(_) => match mark {
            Mark::Equal => true,
            _ => false,
        },
        Group::Each { .. } => match mark {
            Mark::In => true,
            _ => false,
        },
    }
}

#[inline(always)]
fn end_pattern(
    stack: &mut Vec<Pending>,
    group: Group,
    bindings: Bindings,
    part: Part,
    end: End,
) -> Result<Mode, ParseFault>
    ensures { (ws : List Waiting) (g : machine.Group) (bs : Binders) (x : Tree) → SeesStack stack.old.items ws →
        SeesGroup group g → SeesBound bindings bs → Sees part x →
        Follows result stack.new.items (taken_up ws (turned end.mark end.at (machine.binders g bs) x)) }
{
    if !begins_value(&group, end.mark) {
        return refuse((group, bindings, part));
    }
    bind(stack, group, bindings, part)
}

// After the value of a binder of a let.
fn end_let_value(
    stack: &mut Vec<Pending>,
    bindings: Bindings,
    word: Span,
    end: End,
) -> Result<Mode, ParseFault>
    ensures { (ws : List Waiting) (bs : Binders) → SeesStack stack.old.items ws → SeesBound bindings bs →
        some_binders bs ≡ true →
        Follows result stack.new.items (taken_up ws (let_turned end.mark word bs)) }
{
    match end.mark {
        Mark::Semicolon => {
            becomes(
                stack,
                Opening::Binders {
                    group: Group::Let(word),
                    some: true,
                    bindings,
                },
            )
        }
        Mark::In => wait(stack, Pending::Body { word, bindings }),
        _ => refuse(bindings),
    }
}

// After the value of a binder of an apply-to-each.
fn end_each_value(
    stack: &mut Vec<Pending>,
    body: Option<Part>,
    bindings: Bindings,
    from: Span,
    end: End,
) -> Result<Mode, ParseFault>
    ensures { (ws : List Waiting) (b : Option Tree) (bs : Binders) → SeesStack stack.old.items ws →
        SeesBody body b → SeesBound bindings bs → some_binders bs ≡ true →
        Follows result stack.new.items (taken_up ws (each_turned end.mark end.at from b bs)) }
{
    match end.mark {
        Mark::Semicolon => {
            becomes(
                stack,
                Opening::Binders {
                    group: Group::Each { from, body },
                    some: true,
                    bindings,
                },
            )
        }
        Mark::Bar => {
            becomes(
                stack,
                Opening::Filter {
                    from,
                    body,
                    bindings,
                },
            )
        }
        Mark::CloseBrace => Ok(whole(each_of(end.alloc, body, bindings, over(from, end.at))?)),
        _ => refuse((body, bindings)),
    }
}

#[inline(always)]
#[tactic(auto, using(crate::proofs::Turns::at_let, crate::proofs::Turns::at_each, crate::proofs::Turns::some_bound))]
fn end_value(
    stack: &mut Vec<Pending>,
    group: Group,
    bindings: Bindings,
    pattern: PatternPart,
    part: Part,
    end: End,
) -> Result<Mode, ParseFault>
    ensures { (ws : List Waiting) (g : machine.Group) (bs : Binders) (p : PatternTree) (x : Tree) →
        SeesStack stack.old.items ws → SeesGroup group g → SeesBound bindings bs → SeesPattern pattern p →
        Sees part x →
        Follows result stack.new.items (taken_up ws (turned end.mark end.at (machine.value g bs p) x)) }
{
    let Ok(bindings) = push_binding(end.alloc, bindings, pattern, part) else {
        return run_out(group);
    };
    match group {
        Group::Let(word) => end_let_value(stack, bindings, word, end),
        Group::Each { from, body } => end_each_value(stack, body, bindings, from, end),
    }
}

#[inline(never)]
fn end_filter(
    body: Option<Part>,
    bindings: Bindings,
    from: Span,
    part: Part,
    end: End,
) -> Result<Mode, ParseFault>
    ensures { (ps : List pending.Pending) (ws : List Waiting) (b : Option Tree) (bs : Binders) (x : Tree) →
        SeesStack ps ws → SeesBody body b → SeesBound bindings bs → Sees part x →
        Follows result ps (taken_up ws (turned end.mark end.at (machine.filter from b bs) x)) }
{
    match end.mark {
        Mark::CloseBrace => {
            let each = filtered_each_of(end.alloc, body, bindings, part, over(from, end.at))?;
            Ok(whole(each))
        }
        _ => refuse((body, bindings, part)),
    }
}

// An opening that isn't on the list any more, with its last part.
#[inline(always)]
fn end_opening(
    stack: &mut Vec<Pending>,
    opening: Opening,
    part: Part,
    end: End,
) -> Result<Mode, ParseFault>
    ensures { (ws : List Waiting) (o : machine.Opening) (x : Tree) → SeesStack stack.old.items ws →
        SeesOpening opening o → Sees part x →
        Follows result stack.new.items (taken_up ws (turned end.mark end.at o x)) }
{
    match opening {
        Opening::Round(from) => end_round(from, part, end),
        Opening::Call { name, from } => end_call(name, from, part, end),
        Opening::Index(base) => end_index(base, part, end),
        Opening::Test(word) => end_test(stack, word, part, end),
        Opening::Branch { word, test } => end_branch(stack, test, word, part, end),
        Opening::List {
            from,
            some,
            elements,
        } => end_list(stack, some, elements, from, part, end),
        Opening::RangeFrom { from, start } => end_range_from(stack, start, from, part, end),
        Opening::RangeTo { from, start, stop } => end_range_to(start, stop, from, part, end),
        Opening::Brace(from) => end_brace(stack, from, part, end),
        Opening::Binders {
            group,
            bindings,
            ..
        } => end_pattern(stack, group, bindings, part, end),
        Opening::Value {
            group,
            bindings,
            pattern,
        } => end_value(stack, group, bindings, pattern, part, end),
        Opening::Filter {
            from,
            body,
            bindings,
        } => end_filter(body, bindings, from, part, end),
    }
}

// What the newest is, with its last part.
#[inline(never)]
fn end_popped(
    stack: &mut Vec<Pending>,
    popped: Pending,
    part: Part,
    end: End,
) -> Result<Mode, ParseFault>
    ensures { (ws : List Waiting) (w : Waiting) (x : Tree) → SeesStack stack.old.items ws → SeesPending popped w →
        Sees part x →
        Follows result stack.new.items (marked end.mark end.at (w ∷ ws) x) }
{
    match popped {
        Pending::Open(opening) => end_opening(stack, opening, part, end),
        other => refuse((other, part)),
    }
}

// The newest opening, whatever it is, with its last part.
#[inline(never)]
fn end_any(stack: &mut Vec<Pending>, part: Part, end: End) -> Result<Mode, ParseFault>
    ensures { (ws : List Waiting) (x : Tree) → SeesStack stack.old.items ws → Sees part x →
        Follows result stack.new.items (marked end.mark end.at ws x) }
{
    match stack.pop() {
        Some(popped) => end_popped(stack, popped, part, end),
        None => refuse(part),
    }
}

// The newest opening, which is a `(`, with its last part.
#[inline(never)]
fn end_newest_round(stack: &mut Vec<Pending>, part: Part, end: End) -> Result<Mode, ParseFault>
    ensures { (ws : List Waiting) (x : Tree) → SeesStack stack.old.items ws → Sees part x →
        Follows result stack.new.items (marked end.mark end.at ws x) }
{
    match stack.pop() {
        Some(Pending::Open(Opening::Round(from))) => end_round(from, part, end),
        Some(other) => end_popped(stack, other, part, end),
        None => refuse(part),
    }
}

// The newest opening, which is a call, with its last part.
#[inline(never)]
fn end_newest_call(stack: &mut Vec<Pending>, part: Part, end: End) -> Result<Mode, ParseFault>
    ensures { (ws : List Waiting) (x : Tree) → SeesStack stack.old.items ws → Sees part x →
        Follows result stack.new.items (marked end.mark end.at ws x) }
{
    match stack.pop() {
        Some(Pending::Open(Opening::Call { name, from })) => end_call(name, from, part, end),
        Some(other) => end_popped(stack, other, part, end),
        None => refuse(part),
    }
}

// The newest opening, which is a list, with its last part.
#[inline(never)]
fn end_newest_list(stack: &mut Vec<Pending>, part: Part, end: End) -> Result<Mode, ParseFault>
    ensures { (ws : List Waiting) (x : Tree) → SeesStack stack.old.items ws → Sees part x →
        Follows result stack.new.items (marked end.mark end.at ws x) }
{
    match stack.pop() {
        Some(
            Pending::Open(
                Opening::List {
                    from,
                    some,
                    elements,
                },
            ),
        ) => end_list(stack, some, elements, from, part, end),
        Some(other) => end_popped(stack, other, part, end),
        None => refuse(part),
    }
}

// The newest opening, which is a pattern that is to come, with its last part.
#[inline(never)]
fn end_newest_binders(stack: &mut Vec<Pending>, part: Part, end: End) -> Result<Mode, ParseFault>
    ensures { (ws : List Waiting) (x : Tree) → SeesStack stack.old.items ws → Sees part x →
        Follows result stack.new.items (marked end.mark end.at ws x) }
{
    match stack.pop() {
        Some(
            Pending::Open(
                Opening::Binders {
                    group,
                    bindings,
                    ..
                },
            ),
        ) => end_pattern(stack, group, bindings, part, end),
        Some(other) => end_popped(stack, other, part, end),
        None => refuse(part),
    }
}

// The newest opening, which is a binder, with its last part.
#[inline(never)]
fn end_newest_value(stack: &mut Vec<Pending>, part: Part, end: End) -> Result<Mode, ParseFault>
    ensures { (ws : List Waiting) (x : Tree) → SeesStack stack.old.items ws → Sees part x →
        Follows result stack.new.items (marked end.mark end.at ws x) }
{
    match stack.pop() {
        Some(
            Pending::Open(
                Opening::Value {
                    group,
                    bindings,
                    pattern,
                },
            ),
        ) => end_value(stack, group, bindings, pattern, part, end),
        Some(other) => end_popped(stack, other, part, end),
        None => refuse(part),
    }
}

/// The openings that most tokens end a part of.
#[derive(Clone, Copy)]
enum Usual {
    Round,
    Call,
    List,
    Binders,
    Value,
}

// Which of these an opening is.
#[inline(always)]
fn usual_of(opening: &Opening) -> Option<Usual> {
    match opening {
        Opening::Round(_) => Some(Usual::Round),
        Opening::Call { .. } => Some(Usual::Call),
        Opening::List { .. } => Some(Usual::List),
        Opening::Binders { .. } => Some(Usual::Binders),
        Opening::Value { .. } => Some(Usual::Value),
        _ => None,
    }
}

// Which of these the newest is.
#[inline(always)]
fn newest_usual(stack: &[Pending]) -> Option<Usual> {
    match newest(stack) {
        Some(Pending::Open(opening)) => usual_of(opening),
        _ => None,
    }
}

/// What a token leaves that ends a part of the newest opening, with that part. That is looked at before it is taken
/// off: a function pays at each call for all that it may hold, so each of the usual ones has a function of its own.
#[inline(always)]
pub fn end_part(
    alloc: Global,
    stack: &mut Vec<Pending>,
    part: Part,
    mark: Mark,
    at: Span,
) -> Result<Mode, ParseFault>
    ensures { (ws : List Waiting) (x : Tree) → SeesStack stack.old.items ws → Sees part x →
        Follows result stack.new.items (marked mark at ws x) }
{
    let end = End { alloc, mark, at };
    match newest_usual(stack.as_slice()) {
        Some(Usual::Round) => end_newest_round(stack, part, end),
        Some(Usual::Call) => end_newest_call(stack, part, end),
        Some(Usual::List) => end_newest_list(stack, part, end),
        Some(Usual::Binders) => end_newest_binders(stack, part, end),
        Some(Usual::Value) => end_newest_value(stack, part, end),
        None => end_any(stack, part, end),
    }
}
