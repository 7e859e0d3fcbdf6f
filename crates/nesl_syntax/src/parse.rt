// Reading tokens with a list of what is open.

ghost use Rattle.std.specs.Prelude.{◌≡◌, ◌≤◌, ◌<◌, ◌∷◌, [], ◌++◌, Err, IfOk, IfErr, IfSome, if◌then◌else◌, None, Some};
ghost use Rattle.std.specs.Prelude.{List, vec_len};
ghost use Rattle.nesl_syntax_tree.specs.Trees.{Tree, TypeTree, height_of, type_height_of, written};
ghost use Rattle.nesl_syntax_tree.specs.Trees as trees;
ghost use Rattle.nesl_syntax_tree.specs.Patterns.{is_pattern_shape};
ghost use Rattle.nesl_syntax_tree.specs.Views.{shape_of, type_shape};
ghost use Rattle.nesl_syntax_open.specs.declared.pending.Pending as pending;
ghost use Rattle.nesl_syntax_open.specs.Machine.{Waiting, type_at, typing, opened, called, before};
ghost use Rattle.nesl_syntax_open.specs.Machine.{with_newest, marked, separated, listed, mark_level, followed};
ghost use Rattle.nesl_syntax_open.specs.Machine.{open_at, index_of, joined, folded, on_both};
ghost use Rattle.nesl_syntax_open.specs.Machine.{let_closed, let_body, emptied, empty_opening, type_done};
ghost use Rattle.nesl_syntax_open.specs.Machine.{type_separated, type_bracketed, bracket_type, type_closed, begun_with};
ghost use Rattle.nesl_syntax_open.specs.Machine.{typed_with, typed_on};
ghost use Rattle.nesl_syntax_open.specs.Machine as machine;
ghost use Rattle.nesl_syntax_tree.specs.Parts.{Sees, SeesType};
ghost use Rattle.nesl_syntax_open.specs.Stack.{SeesOpening, SeesTypeOpening, SeesPending, SeesStack};
ghost use Rattle.nesl_syntax_open.specs.Modes.{SeesMode, Follows};
ghost use Rattle.nesl_syntax.specs.Steps.{GivesTree, PendingGiven, TypeOpeningGiven, TypeGiven};
ghost use Rattle.nesl_syntax.specs.Steps.{OpeningPopped, newest_opening, TypePopped, newest_type};
ghost use Rattle.nesl_syntax_open.specs.declared.mode.Mode.TheVariants as mode;
ghost use Rattle.nesl_syntax_tree.specs.declared.parts.part.Part.TheVariants as part;
ghost use Rattle.nesl_lex.specs.Tokens.{lexeme_of, placed_of, placed, symbol, reserved};

use nesl_lex::token::{Kind, Sign, Span, Token, Word};
use nesl_syntax_open::ParseFault;
use nesl_syntax_open::mark::{Follow, Mark, follow_of};
use nesl_syntax_open::mode::{Mode, push, wait};
use nesl_syntax_open::pending::{
    Group, Opening, Pending, TypeOpening, fold, level_begun, level_of, newest, wanted,
};
use nesl_syntax_open::turn::{end_part, no_bindings};
use nesl_syntax_tree::parts::lists::{Elements, push_part};
use nesl_syntax_tree::parts::part::{Part, empty_of, make_node, over};
use nesl_syntax_tree::parts::types::{self, TypePart, make_type, pair_of, sequence_of};
use nesl_syntax_tree::tree::{Exp, Node, Operator, Prefix, TypeNode};
use std::alloc::Global;

// The tokens have no tree; what was read of one is dropped.
fn refuse<T: Drop>(value: T) -> Result<Mode, ParseFault>
    ensures { result ≡ Err ParseFault.Syntax }
{
    drop(value);
    Err(ParseFault::Syntax)
}

// One more that waits for a type.
fn wait_for_type(stack: &mut Vec<Pending>, opening: TypeOpening) -> Result<Mode, ParseFault>
    ensures { (ws : List Waiting) (o : machine.TypeOpening) → SeesStack stack.old.items ws → SeesTypeOpening opening o →
        Follows result stack.new.items (Some (type_at o ∷ ws, typing)) }
{
    push(stack, Pending::Type(opening))?;
    Ok(Mode::Typing)
}

// The newest, where it is an opening.
#[inline(always)]
fn pop_opening(stack: &mut Vec<Pending>) -> Option<Opening>
    ensures { (ws : List Waiting) → SeesStack stack.old.items ws →
        OpeningPopped result stack.new.items (newest_opening ws) }
{
    match stack.pop() {
        Some(Pending::Open(opening)) => Some(opening),
        other => {
            drop(other);
            None
        }
    }
}

// The newest, where it is a type's.
fn pop_type(stack: &mut Vec<Pending>) -> Option<TypeOpening>
    ensures popped { (ws : List Waiting) → SeesStack stack.old.items ws →
        TypePopped result stack.new.items (newest_type ws) }
    ensures shorter { IfSome result (λ o. vec_len stack.new < vec_len stack.old) }
{
    match stack.pop() {
        Some(Pending::Type(opening)) => Some(opening),
        other => {
            drop(other);
            None
        }
    }
}

// One more that is open, where it may come.
#[inline(always)]
fn open(stack: &mut Vec<Pending>, pending: Pending) -> Result<Mode, ParseFault>
    ensures { (ws : List Waiting) (w : Waiting) → SeesStack stack.old.items ws → SeesPending pending w →
        Follows result stack.new.items (opened w ws) }
{
    if wanted(stack) > level_begun(&pending) {
        return refuse(pending);
    }
    wait(stack, pending)
}

// One more element, where a list is open.
fn list(stack: &mut Vec<Pending>, opening: Opening, part: Part) -> Result<Mode, ParseFault>
    ensures { (ws : List Waiting) (o : machine.Opening) (x : Tree) → SeesStack stack.old.items ws →
        SeesOpening opening o → Sees part x →
        Follows result stack.new.items (with_newest before ws (listed o x)) }
{
    match opening {
        Opening::List { from, elements, .. } => {
            let elements = push_part(elements, part)?;
            let opening = Opening::List {
                some: true,
                from,
                elements,
            };
            wait(stack, Pending::Open(opening))
        }
        other => refuse((other, part)),
    }
}

// After a comma.
#[tactic(auto, using(crate::proofs::StepLemmas::near_comma))]
fn separate(stack: &mut Vec<Pending>, part: Part) -> Result<Mode, ParseFault>
    ensures { (ws : List Waiting) (x : Tree) → SeesStack stack.old.items ws → Sees part x →
        Follows result stack.new.items (separated ws x) }
{
    if wanted(stack) <= 1 {
        return open(stack, Pending::Comma(part));
    }
    let Some(opening) = pop_opening(stack) else {
        return refuse(part);
    };
    list(stack, opening, part)
}

// After a `(` that follows an expression.
#[inline(never)]
fn call(stack: &mut Vec<Pending>, fresh: bool, part: Part) -> Result<Mode, ParseFault>
    ensures { (ws : List Waiting) (x : Tree) → SeesStack stack.old.items ws → Sees part x →
        Follows result stack.new.items (if fresh then called ws x else None) }
{
    if !fresh {
        return refuse(part);
    }
    match part {
        Part::Built { exp, .. } => {
            let (span, node) = Box::into_inner(exp).into_parts();
            match node {
                Node::Variable(name) => open(
                    stack,
                    Pending::Open(Opening::Call { name, from: span }),
                ),
                other => refuse(Exp { span, node: other }),
            }
        }
        Part::High(_) => Err(ParseFault::Syntax),
    }
}

// The level at which what comes before a token is put together.
fn level_at(mark: Mark) -> u8
    ensures { result ≡ mark_level mark }
{
    match mark {
        Mark::CloseParenthesis => 1,
        _ => 2,
    }
}

// After a `[` that follows an expression.
#[inline(never)]
fn index(stack: &mut Vec<Pending>, part: Part) -> Result<Mode, ParseFault>
    ensures { (ws : List Waiting) (x : Tree) → SeesStack stack.old.items ws → Sees part x →
        Follows result stack.new.items (opened (open_at (index_of x)) ws) }
{
    open(stack, Pending::Open(Opening::Index(part)))
}

// A comma after an expression.
#[inline(never)]
fn follow_comma(alloc: Global, stack: &mut Vec<Pending>, part: Part) -> Result<Mode, ParseFault>
    ensures { (ws : List Waiting) (x : Tree) → SeesStack stack.old.items ws → Sees part x →
        Follows result stack.new.items (on_both separated (folded 2 ws x)) }
{
    let part = fold(alloc, stack, 2, part)?;
    separate(stack, part)
}

// An operator after an expression.
#[inline(never)]
fn follow_operator(
    alloc: Global,
    stack: &mut Vec<Pending>,
    operator: Operator,
    part: Part,
) -> Result<Mode, ParseFault>
    ensures { (ws : List Waiting) (x : Tree) → SeesStack stack.old.items ws → Sees part x →
        Follows result stack.new.items (joined operator ws x) }
{
    let part = fold(alloc, stack, level_of(operator), part)?;
    open(
        stack,
        Pending::Sign {
            operator,
            left: part,
        },
    )
}

// A token that ends a part, after an expression. Most tokens are such; so it is inlined.
#[inline(always)]
fn follow_mark(
    alloc: Global,
    stack: &mut Vec<Pending>,
    part: Part,
    mark: Mark,
    at: Span,
) -> Result<Mode, ParseFault>
    ensures { (ws : List Waiting) (x : Tree) → SeesStack stack.old.items ws → Sees part x →
        Follows result stack.new.items (on_both (marked mark at) (folded (mark_level mark) ws x)) }
{
    let part = fold(alloc, stack, level_at(mark), part)?;
    end_part(alloc, stack, part, mark, at)
}

// A token after an expression. What each but a mark does is in a function of its own, for a function pays at each
// call for all that it may hold.
fn follow(
    alloc: Global,
    stack: &mut Vec<Pending>,
    fresh: bool,
    part: Part,
    follow: Follow,
    at: Span,
) -> Result<Mode, ParseFault>
    ensures { (ws : List Waiting) (x : Tree) → SeesStack stack.old.items ws → Sees part x →
        Follows result stack.new.items (followed follow ws fresh x at) }
{
    match follow {
        Follow::Call => call(stack, fresh, part),
        Follow::Index => index(stack, part),
        Follow::Comma => follow_comma(alloc, stack, part),
        Follow::Operator(operator) => follow_operator(alloc, stack, operator, part),
        Follow::Mark(mark) => follow_mark(alloc, stack, part, mark, at),
        Follow::Nothing => refuse(part),
    }
}

// A let whose binders end in a `;`.
fn close_let(opening: Opening) -> Result<Pending, ParseFault>
    ensures { (o : machine.Opening) → SeesOpening opening o → PendingGiven result (let_body o) }
{
    match opening {
        Opening::Binders {
            group,
            some,
            bindings,
        } => match group {
            Group::Let(word) if some => Ok(Pending::Body { word, bindings }),
            other => {
                drop((other, bindings));
                Err(ParseFault::Syntax)
            }
        },
        other => {
            drop(other);
            Err(ParseFault::Syntax)
        }
    }
}

// An `in` where an expression is to come.
fn begin_body(stack: &mut Vec<Pending>) -> Result<Mode, ParseFault>
    ensures { (ws : List Waiting) → SeesStack stack.old.items ws → Follows result stack.new.items (let_closed ws) }
{
    let Some(opening) = pop_opening(stack) else {
        return Err(ParseFault::Syntax);
    };
    wait(stack, close_let(opening)?)
}

// A list with no elements.
fn empty_list(opening: Opening) -> Result<TypeOpening, ParseFault>
    ensures { (o : machine.Opening) → SeesOpening opening o → TypeOpeningGiven result (empty_opening o) }
{
    match opening {
        Opening::List {
            from,
            some,
            elements,
        } => {
            drop(elements);
            if some {
                return Err(ParseFault::Syntax);
            }
            Ok(TypeOpening::Empty(from))
        }
        other => {
            drop(other);
            Err(ParseFault::Syntax)
        }
    }
}

// A `]` where an expression is to come.
fn begin_type(stack: &mut Vec<Pending>) -> Result<Mode, ParseFault>
    ensures { (ws : List Waiting) → SeesStack stack.old.items ws → Follows result stack.new.items (emptied ws) }
{
    let Some(opening) = pop_opening(stack) else {
        return Err(ParseFault::Syntax);
    };
    wait_for_type(stack, empty_list(opening)?)
}

// A leaf of a tree.
fn leaf(exp: Box<Exp>, fresh: bool) -> Mode
    ensures { result ≡ mode.Behind fresh (part.Built fresh 1 exp) }
{
    Mode::Behind {
        fresh,
        part: Part::Built {
            pattern: fresh,
            height: 1,
            exp,
        },
    }
}

// A leaf of a tree where an expression is to come.
fn begin_leaf(alloc: Global, span: Span, node: Node, fresh: bool) -> Result<Mode, ParseFault>
    ensures { (ps : List pending.Pending) (ws : List Waiting) → SeesStack ps ws → height_of (shape_of node) ≡ 1 →
        is_pattern_shape (shape_of node) ≡ fresh →
        Follows result ps (Some (ws, machine.behind fresh (trees.node span (shape_of node)))) }
{
    Ok(leaf(make_node(alloc, span, node)?, fresh))
}

// A sign where an expression is to come.
#[inline(never)]
fn begin_sign(
    alloc: Global,
    stack: &mut Vec<Pending>,
    sign: Sign,
    span: Span,
) -> Result<Mode, ParseFault>
    ensures { (ws : List Waiting) → SeesStack stack.old.items ws →
        Follows result stack.new.items (begun_with ws span (symbol sign)) }
{
    match sign {
        Sign::OpenParenthesis => open(stack, Pending::Open(Opening::Round(span))),
        Sign::OpenBracket => {
            let elements = Elements::Built {
                height: 0,
                items: Vec::new(alloc),
            };
            open(
                stack,
                Pending::Open(Opening::List {
                    some: false,
                    from: span,
                    elements,
                }),
            )
        }
        Sign::OpenBrace => open(stack, Pending::Open(Opening::Brace(span))),
        Sign::CloseBracket => begin_type(stack),
        Sign::Hash => open(
            stack,
            Pending::Prefix {
                operator: Prefix::Length,
                sign: span,
            },
        ),
        Sign::Minus => open(
            stack,
            Pending::Prefix {
                operator: Prefix::Negate,
                sign: span,
            },
        ),
        _ => Err(ParseFault::Syntax),
    }
}

// A reserved word where an expression is to come.
#[inline(never)]
fn begin_word(
    alloc: Global,
    stack: &mut Vec<Pending>,
    word: Word,
    span: Span,
) -> Result<Mode, ParseFault>
    ensures { (ws : List Waiting) → SeesStack stack.old.items ws →
        Follows result stack.new.items (begun_with ws span (reserved word)) }
{
    match word {
        Word::If => open(stack, Pending::Open(Opening::Test(span))),
        Word::Let => {
            let bindings = no_bindings(alloc);
            open(
                stack,
                Pending::Open(Opening::Binders {
                    group: Group::Let(span),
                    some: false,
                    bindings,
                }),
            )
        }
        Word::In => begin_body(stack),
        _ => Err(ParseFault::Syntax),
    }
}

// A token where an expression is to come.
fn begin(alloc: Global, stack: &mut Vec<Pending>, token: &Token) -> Result<Mode, ParseFault>
    ensures { (ws : List Waiting) → SeesStack stack.old.items ws →
        Follows result stack.new.items (begun_with ws token.now.span (lexeme_of token.now.kind)) }
{
    let span = token.span;
    match &token.kind {
        Kind::Number(n) => begin_leaf(alloc, span, Node::Number(*n), false),
        Kind::Truth(value) => begin_leaf(alloc, span, Node::Truth(*value), false),
        Kind::Character(c) => begin_leaf(alloc, span, Node::Character(*c), false),
        Kind::Text(text) => begin_leaf(alloc, span, Node::Text(text.clone()?), false),
        Kind::Name(name) => begin_leaf(alloc, span, Node::Variable(name.clone()?), true),
        Kind::Reserved(word) => begin_word(alloc, stack, *word, span),
        Kind::Symbol(sign) => begin_sign(alloc, stack, *sign, span),
    }
}

// Where an empty sequence waits for its type.
fn empty_at(pending: &Pending) -> Option<Span>
    ensures { (w : Waiting) → SeesPending pending.now w → result ≡ machine.empty_of w }
{
    match pending {
        Pending::Type(opening) => match opening {
            TypeOpening::Empty(from) => Some(*from),
            _ => None,
        },
        _ => None,
    }
}

// Where the newest is an empty sequence that waits for its type.
fn empty_from(stack: &[Pending]) -> Option<Span>
    ensures { (ws : List Waiting) → SeesStack stack.now ws → result ≡ machine.empty_newest ws }
{
    match newest(stack) {
        None => None,
        Some(pending) => empty_at(pending),
    }
}

// A type that has come.
fn end_type(alloc: Global, stack: &mut Vec<Pending>, part: TypePart) -> Result<Mode, ParseFault>
    ensures { (ws : List Waiting) (a : TypeTree) → SeesStack stack.old.items ws → SeesType part a →
        Follows result stack.new.items (Some (type_done ws a)) }
{
    match empty_from(stack.as_slice()) {
        Some(from) => {
            drop(pop_type(stack));
            let part = empty_of(alloc, part, from)?;
            Ok(Mode::Behind { fresh: false, part })
        }
        None => Ok(Mode::Typed(part)),
    }
}

// A type of one token.
fn begin_type_leaf(
    alloc: Global,
    stack: &mut Vec<Pending>,
    span: Span,
    node: TypeNode,
) -> Result<Mode, ParseFault>
    ensures { (ws : List Waiting) → SeesStack stack.old.items ws → type_height_of (type_shape node) ≡ 1 →
        Follows result stack.new.items (Some (type_done ws (written span (type_shape node)))) }
{
    let part = types::leaf(make_type(alloc, span, node)?);
    end_type(alloc, stack, part)
}

// A token where a type is to come.
#[inline(never)]
fn begin_written(alloc: Global, stack: &mut Vec<Pending>, token: &Token) -> Result<Mode, ParseFault>
    ensures { (ws : List Waiting) → SeesStack stack.old.items ws →
        Follows result stack.new.items (typed_with ws token.now.span (lexeme_of token.now.kind)) }
{
    let span = token.span;
    match &token.kind {
        Kind::Reserved(word) => match word {
            Word::Int => begin_type_leaf(alloc, stack, span, TypeNode::Int),
            Word::Bool => begin_type_leaf(alloc, stack, span, TypeNode::Bool),
            Word::Char => begin_type_leaf(alloc, stack, span, TypeNode::Char),
            _ => Err(ParseFault::Syntax),
        },
        Kind::Name(name) => {
            let name = TypeNode::Name {
                name: name.clone()?,
                token: span,
            };
            begin_type_leaf(alloc, stack, span, name)
        }
        Kind::Symbol(sign) => match sign {
            Sign::OpenBracket => wait_for_type(stack, TypeOpening::List(span)),
            Sign::OpenParenthesis => wait_for_type(stack, TypeOpening::Round(span)),
            _ => Err(ParseFault::Syntax),
        },
        _ => Err(ParseFault::Syntax),
    }
}

// Whether a comma may come after a type there.
fn has_commas(pending: &Pending) -> bool
    ensures { (w : Waiting) → SeesPending pending.now w → result ≡ machine.has_commas w }
{
    match pending {
        Pending::Type(opening) => match opening {
            TypeOpening::Round(_) | TypeOpening::Comma(_) => true,
            _ => false,
        },
        _ => false,
    }
}

fn newest_has_commas(stack: &[Pending]) -> bool
    ensures { (ws : List Waiting) → SeesStack stack.now ws → result ≡ machine.newest_has_commas ws }
{
    match newest(stack) {
        None => false,
        Some(pending) => has_commas(pending),
    }
}

// A comma after a type.
fn separate_types(stack: &mut Vec<Pending>, part: TypePart) -> Result<Mode, ParseFault>
    ensures { (ws : List Waiting) (a : TypeTree) → SeesStack stack.old.items ws → SeesType part a →
        Follows result stack.new.items (type_separated ws a) }
{
    if !newest_has_commas(stack.as_slice()) {
        return refuse(part);
    }
    wait_for_type(stack, TypeOpening::Comma(part))
}

// A type in brackets.
fn bracketed(
    alloc: Global,
    opening: TypeOpening,
    part: TypePart,
    at: Span,
) -> Result<TypePart, ParseFault>
    ensures { (o : machine.TypeOpening) (a : TypeTree) → SeesTypeOpening opening o → SeesType part a →
        TypeGiven result (bracket_type o at a) }
{
    match opening {
        TypeOpening::List(from) => Ok(sequence_of(alloc, part, over(from, at))?),
        other => {
            drop((other, part));
            Err(ParseFault::Syntax)
        }
    }
}

// A `]` after a type.
fn bracket(
    alloc: Global,
    stack: &mut Vec<Pending>,
    part: TypePart,
    at: Span,
) -> Result<Mode, ParseFault>
    ensures { (ws : List Waiting) (a : TypeTree) → SeesStack stack.old.items ws → SeesType part a →
        Follows result stack.new.items (type_bracketed ws at a) }
{
    let Some(opening) = pop_type(stack) else {
        return refuse(part);
    };
    let part = bracketed(alloc, opening, part, at)?;
    end_type(alloc, stack, part)
}

// A `)` after a type.
fn close_types(
    alloc: Global,
    stack: &mut Vec<Pending>,
    part: TypePart,
    at: Span,
) -> Result<Mode, ParseFault>
    ensures { (ws : List Waiting) (a : TypeTree) → SeesStack stack.old.items ws → SeesType part a →
        Follows result stack.new.items (type_closed ws at a) }
{
    let mut part = part;
    'types: loop {
        let Some(opening) = pop_type(stack) else {
            return refuse(part);
        };
        match opening {
            TypeOpening::Comma(left) => part = pair_of(alloc, left, part)?,
            TypeOpening::Round(from) => {
                let part = types::widen(part, over(from, at));
                return end_type(alloc, stack, part);
            }
            other => return refuse((other, part)),
        }
    }
}

// A token after a type.
#[inline(never)]
fn follow_type(
    alloc: Global,
    stack: &mut Vec<Pending>,
    part: TypePart,
    token: &Token,
) -> Result<Mode, ParseFault>
    ensures { (ws : List Waiting) (a : TypeTree) → SeesStack stack.old.items ws → SeesType part a →
        Follows result stack.new.items (typed_on ws a token.now.span (lexeme_of token.now.kind)) }
{
    match &token.kind {
        Kind::Symbol(sign) => match sign {
            Sign::Comma => separate_types(stack, part),
            Sign::CloseBracket => bracket(alloc, stack, part, token.span),
            Sign::CloseParenthesis => close_types(alloc, stack, part, token.span),
            _ => refuse(part),
        },
        _ => refuse(part),
    }
}

// A token.
fn step(
    alloc: Global,
    stack: &mut Vec<Pending>,
    mode: Mode,
    token: &Token,
) -> Result<Mode, ParseFault>
    ensures { (ws : List Waiting) (m : machine.Mode) → SeesStack stack.old.items ws → SeesMode mode m →
        Follows result stack.new.items (machine.step ws m (placed_of token.now)) }
{
    match mode {
        Mode::Before => begin(alloc, stack, token),
        Mode::Behind { fresh, part } => {
            follow(
                alloc,
                stack,
                fresh,
                part,
                follow_of(&token.kind),
                token.span,
            )
        }
        Mode::Typing => begin_written(alloc, stack, token),
        Mode::Typed(part) => follow_type(alloc, stack, part, token),
    }
}

// All the tokens.
fn run(
    alloc: Global,
    stack: &mut Vec<Pending>,
    mode: Mode,
    tokens: &[Token],
) -> Result<Mode, ParseFault>
    ensures { (ws : List Waiting) (m : machine.Mode) → SeesStack stack.old.items ws → SeesMode mode m →
        Follows result stack.new.items (machine.run (ws, m) (placed tokens.now)) }
{
    let mut mode = mode;
    for token in tokens {
        mode = step(alloc, stack, mode, token)?;
    }
    Ok(mode)
}

// The expression at the end of the tokens, where nothing is open any more.
fn finish(alloc: Global, stack: &mut Vec<Pending>, mode: Mode) -> Result<Part, ParseFault>
    ensures { (ws : List Waiting) (m : machine.Mode) → SeesStack stack.old.items ws → SeesMode mode m →
        GivesTree result (machine.tree_left_in ws m) }
{
    match mode {
        Mode::Behind { part, .. } => {
            let part = fold(alloc, stack, 2, part)?;
            if !stack.is_empty() {
                drop(part);
                return Err(ParseFault::Syntax);
            }
            Ok(part)
        }
        other => {
            drop(other);
            Err(ParseFault::Syntax)
        }
    }
}

/// How many that wait room is taken for at first. More room is taken where more wait.
const FIRST_ROOM: usize = 8;

/// The expression that the tokens are.
pub fn expression(alloc: Global, tokens: &[Token]) -> Result<Part, ParseFault>
    ensures { GivesTree result (machine.expression (placed tokens.now)) }
{
    let mut stack = Vec::with_capacity(alloc, FIRST_ROOM)?;
    let mode = run(alloc, &mut stack, Mode::Before, tokens)?;
    finish(alloc, &mut stack, mode)
}

// The type at the end of the tokens, where nothing is open any more.
fn finish_type(stack: &[Pending], mode: Mode) -> Result<TypePart, ParseFault>
    ensures { (ws : List Waiting) (m : machine.Mode) → SeesStack stack.now ws → SeesMode mode m →
        TypeGiven result (machine.type_left_in ws m) }
{
    match mode {
        Mode::Typed(part) => {
            if !stack.is_empty() {
                drop(part);
                return Err(ParseFault::Syntax);
            }
            Ok(part)
        }
        other => {
            drop(other);
            Err(ParseFault::Syntax)
        }
    }
}

/// The type that the tokens are.
pub fn written_type(alloc: Global, tokens: &[Token]) -> Result<TypePart, ParseFault>
    ensures { TypeGiven result (machine.written_type (placed tokens.now)) }
{
    let mut stack = Vec::new(alloc);
    let mode = run(alloc, &mut stack, Mode::Typing, tokens)?;
    finish_type(stack.as_slice(), mode)
}
