// What is open while tokens are read: brackets, operators with their left sides, parts of a choice, binders.

ghost use Rattle.std.specs.Prelude.{◌≡◌, ◌≤◌, ◌<◌, ◌∷◌, [], ◌++◌, List, IfOk, IfSome, IfNone, IsTrue, MatchOption};
ghost use Rattle.std.specs.Prelude.{length, vec_len};
ghost use Rattle.nesl_syntax_open.specs.declared.pending.Pending as pending;
ghost use Rattle.nesl_syntax_tree.specs.Trees.{Tree};
ghost use Rattle.nesl_syntax_tree.specs.Grammar as grammar;
ghost use Rattle.nesl_syntax_open.specs.Machine.{Waiting, opening_wants, opening_begins, wanted_by, begun_by};
ghost use Rattle.nesl_syntax_open.specs.Machine.{completed, folded};
ghost use Rattle.nesl_syntax_open.specs.Machine as machine;
ghost use Rattle.nesl_syntax_tree.specs.Parts.{Sees};
ghost use Rattle.nesl_syntax_open.specs.Stack.{SeesGroup, SeesOpening, SeesPending, SeesStack};

use nesl_lex::token::{Name, Span};
use nesl_syntax_tree::parts::lists::{Bindings, Elements, let_of};
use nesl_syntax_tree::parts::part::{Part, choice_of, infix_of, pair_of, prefix_of};
use nesl_syntax_tree::parts::pattern::PatternPart;
use nesl_syntax_tree::parts::types::TypePart;
use nesl_syntax_tree::tree::{Operator, Prefix};
use std::alloc::{AllocError, Global};

/// What has binders: a let, or an apply-to-each with its body, if it has one.
#[derive(Drop)]
pub enum Group {
    Let(Span),
    Each { from: Span, body: Option<Part> },
}

/// What is open and must be closed by a token, with its parts so far. It begins with the span, or with its word.
#[derive(Drop)]
pub enum Opening {
    Round(Span),
    Call {
        name: Name,
        from: Span,
    },
    Index(Part),
    Test(Span),
    Branch {
        word: Span,
        test: Part,
    },
    /// Elements of a sequence, and whether there is one so far.
    List {
        some: bool,
        from: Span,
        elements: Elements,
    },
    RangeFrom {
        from: Span,
        start: Part,
    },
    RangeTo {
        from: Span,
        start: Part,
        stop: Part,
    },
    Brace(Span),
    /// A pattern is to come, and whether there are binders before it.
    Binders {
        some: bool,
        group: Group,
        bindings: Bindings,
    },
    Value {
        group: Group,
        bindings: Bindings,
        pattern: PatternPart,
    },
    Filter {
        from: Span,
        body: Option<Part>,
        bindings: Bindings,
    },
}

/// What is open in a type and must be closed by a token: a bracket from the span on, or what a comma follows.
#[derive(Drop)]
pub enum TypeOpening {
    Empty(Span),
    List(Span),
    Round(Span),
    Comma(TypePart),
}

/// What is open: it waits for what comes after it.
#[derive(Drop)]
pub enum Pending {
    Open(Opening),
    Comma(Part),
    Else { word: Span, test: Part, yes: Part },
    Body { word: Span, bindings: Bindings },
    Prefix { operator: Prefix, sign: Span },
    Sign { operator: Operator, left: Part },
    Type(TypeOpening),
}

/// The level of an operator.
pub fn level_of(operator: Operator) -> u8
    ensures { result ≡ grammar.level_of operator }
{
    match operator {
        Operator::Or | Operator::Nor | Operator::Xor => 3,
        Operator::And | Operator::Nand => 4,
        Operator::Equal
        | Operator::NotEqual
        | Operator::Less
        | Operator::Greater
        | Operator::LessOrEqual
        | Operator::GreaterOrEqual => 5,
        Operator::Plus | Operator::Minus | Operator::Append | Operator::Write => 6,
        Operator::Times | Operator::Divide | Operator::Read => 7,
    }
}

// The level of what may come after it.
fn opening_wants(opening: &Opening) -> u8
    ensures { (o : machine.Opening) → SeesOpening opening.now o → result ≡ opening_wants o }
{
    match opening {
        Opening::Round(_) | Opening::Call { .. } => 1,
        Opening::Binders { .. } => 10,
        _ => 2,
    }
}

// The level of what may come after it.
fn level_behind(pending: &Pending) -> u8
    ensures { (w : Waiting) → SeesPending pending.now w → result ≡ wanted_by w }
{
    match pending {
        Pending::Open(opening) => opening_wants(opening),
        Pending::Comma(_) => 1,
        Pending::Else { .. } | Pending::Body { .. } => 2,
        Pending::Prefix { .. } => 8,
        Pending::Sign { operator, .. } => level_of(*operator) + 1,
        Pending::Type(_) => 0,
    }
}

fn group_level(group: &Group) -> u8
    ensures { (g : machine.Group) → SeesGroup group.now g → result ≡ machine.group_level g }
{
    match group {
        Group::Let(_) => 2,
        Group::Each { .. } => 10,
    }
}

// The level of what it begins.
fn opening_begins(opening: &Opening) -> u8
    ensures { (o : machine.Opening) → SeesOpening opening.now o → result ≡ opening_begins o }
{
    match opening {
        Opening::Index(_) => 9,
        Opening::Test(_) | Opening::Branch { .. } => 2,
        Opening::Binders { group, .. } => group_level(group),
        Opening::Value { group, .. } => group_level(group),
        _ => 10,
    }
}

/// The level of what it begins.
pub fn level_begun(pending: &Pending) -> u8
    ensures { (w : Waiting) → SeesPending pending.now w → result ≡ begun_by w }
{
    match pending {
        Pending::Open(opening) => opening_begins(opening),
        Pending::Comma(_) => 1,
        Pending::Else { .. } | Pending::Body { .. } => 2,
        Pending::Prefix { .. } => 8,
        Pending::Sign { operator, .. } => level_of(*operator),
        Pending::Type(_) => 10,
    }
}

// The level of what it is once its last part is there, or 0 where more tokens must follow that part.
fn rank(pending: &Pending) -> u8
    ensures { (w : Waiting) → SeesPending pending.now w → result ≡ machine.rank w }
{
    match pending {
        Pending::Open(_) | Pending::Type(_) => 0,
        Pending::Comma(_) => 1,
        Pending::Else { .. } | Pending::Body { .. } => 2,
        Pending::Prefix { .. } => 8,
        Pending::Sign { operator, .. } => level_of(*operator),
    }
}

// Drops what isn't completed by a part.
fn alone<T: Drop>(open: T, part: Part) -> Part
    ensures { result ≡ part }
{
    drop(open);
    part
}

// It and its last part, put together.
fn complete(alloc: Global, pending: Pending, part: Part) -> Result<Part, AllocError>
    ensures { IfOk result (λ r. (w : Waiting) (x : Tree) → SeesPending pending w → Sees part x →
        Sees r (completed w x)) }
{
    match pending {
        Pending::Comma(left) => pair_of(alloc, left, part),
        Pending::Else { word, test, yes } => choice_of(alloc, word, test, yes, part),
        Pending::Body { word, bindings } => let_of(alloc, word, bindings, part),
        Pending::Prefix {
            operator: prefix,
            sign,
        } => prefix_of(alloc, prefix, sign, part),
        Pending::Sign { operator, left } => infix_of(alloc, operator, left, part),
        Pending::Open(open) => Ok(alone(open, part)),
        Pending::Type(open) => Ok(alone(open, part)),
    }
}

/// The newest, if anything is open.
pub fn newest(stack: &[Pending]) -> Option<&Pending>
    ensures { MatchOption result (stack.now ≡ [])
        (λ p. (under : List pending.Pending) × (stack.now ≡ under ++ p.now ∷ [])) }
{
    stack.last()
}

/// The level of what may come at this place.
pub fn wanted(stack: &[Pending]) -> u8
    ensures { (ws : List Waiting) → SeesStack stack.now ws → result ≡ machine.wanted ws }
{
    match newest(stack) {
        None => 2,
        Some(pending) => level_behind(pending),
    }
}

// The newest, where it is complete at this level.
fn pop_at(stack: &mut Vec<Pending>, level: u8) -> Option<Pending>
    requires { 1 ≤ level }
    ensures popped { IfSome result (λ p. stack.old.items ≡ stack.new.items ++ p ∷ []) }
    ensures shorter { IfSome result (λ p. vec_len stack.new < vec_len stack.old) }
    ensures ranked { IfSome result (λ p. (w : Waiting) → SeesPending p w → level ≤ machine.rank w) }
    ensures settled { IfNone result ((ws : List Waiting) (x : Tree) → SeesStack stack.old.items ws →
        folded level ws x ≡ (ws, x)) }
    ensures same { IfNone result (stack.new.items ≡ stack.old.items) }
{
    let rank = match newest(stack) {
        None => 0,
        Some(pending) => rank(pending),
    };
    if rank < level {
        return None;
    }
    stack.pop()
}

// Whether the newest isn't complete at this level, or nothing is open.
#[inline(always)]
fn is_settled(stack: &[Pending], level: u8) -> bool
    requires { 1 ≤ level }
    ensures { IsTrue result → (ws : List Waiting) (x : Tree) → SeesStack stack.now ws → folded level ws x ≡ (ws, x) }
{
    let rank = match newest(stack) {
        None => 0,
        Some(pending) => rank(pending),
    };
    rank < level
}

// Puts together what is complete at this level, where something is.
#[inline(never)]
fn fold_open(
    alloc: Global,
    stack: &mut Vec<Pending>,
    level: u8,
    part: Part,
) -> Result<Part, AllocError>
    requires { 1 ≤ level }
    ensures { IfOk result (λ r. (ws : List Waiting) (x : Tree) → SeesStack stack.old.items ws → Sees part x →
        SeesStack stack.new.items (folded level ws x).0 × Sees r (folded level ws x).1) }
{
    let mut part = part;
    while let Some(pending) = pop_at(stack, level) {
        part = complete(alloc, pending, part)?;
    }
    Ok(part)
}

/// Puts together what is complete at this level. After most tokens nothing is; that test is inlined.
#[inline(always)]
pub fn fold(
    alloc: Global,
    stack: &mut Vec<Pending>,
    level: u8,
    part: Part,
) -> Result<Part, AllocError>
    requires { 1 ≤ level }
    ensures { IfOk result (λ r. (ws : List Waiting) (x : Tree) → SeesStack stack.old.items ws → Sees part x →
        SeesStack stack.new.items (folded level ws x).0 × Sees r (folded level ws x).1) }
{
    if is_settled(stack.as_slice(), level) {
        return Ok(part);
    }
    fold_open(alloc, stack, level, part)
}
