//! Operations in the order of evaluation.

ghost use Rattle.std.specs.Prelude.{◌≡◌, ◌≤◌, IfSome, None};
ghost use Rattle.nesl_eval_code.specs.Flat.{flat};
ghost use Rattle.nesl_eval_ops.specs.View.{block_of, body_block};
ghost use Rattle.nesl_eval_ops.specs.Weight.{weight};
ghost use Rattle.nesl_eval_ops.specs.declared.ops.Block.TheDeep.{deep-Ops};

use crate::spans::ShortSpan;
use nesl_builtins::Builtin;
use nesl_eval_code::{Code, Step};
use nesl_lex::token::Span;
use std::marker::Model;

/// What has no parts: a literal, a local name by the place of its value and the steps from there, or a name of the top
/// level. What takes more than a word is in a box, so that a leaf is small.
#[derive(Drop)]
pub enum What {
    Number(i64),
    Truth(bool),
    Character(u8),
    Text(Box<Vec<u8>>),
    Empty,
    /// A local name without steps. The values of local names lie one after the other, those of the newest frame last.
    Local(usize),
    /// The left part of the pair at a place.
    Left(usize),
    /// The right part of the pair at a place.
    Right(usize),
    /// A local name with steps of any other kind.
    Part(Box<Part>),
    /// A local name without a place (only in expressions without a type).
    Missing,
    /// A top-level name, by its place.
    Top(usize),
    /// A top-level name that has no place yet: looked up when it is run.
    Named(Box<Vec<u8>>),
}

/// What steps reach from the value at a place.
#[derive(Drop)]
pub struct Part {
    pub place: usize,
    pub steps: Vec<Step>,
}

/// A node without parts, with its span.
#[derive(Drop)]
pub struct Leaf {
    pub span: ShortSpan,
    pub what: What,
}

/// What is made of two values.
#[derive(Drop)]
pub enum Two {
    /// A built-in function of their pair, which is no node.
    Of(Builtin),
    /// A built-in function of their pair, which is written out with this span.
    OfPair(Builtin, ShortSpan),
    /// Their pair.
    Pair,
}

/// What is made of any number of values.
#[derive(Clone, Copy)]
pub enum Many {
    /// A built-in function of three: of (first, (second, third)).
    OfThree(Builtin),
    /// The sequence of them.
    Sequence,
}

/// A node that applies a function to one value.
#[derive(Clone, Copy)]
pub struct OneNode {
    pub height: u32,
    pub span: Span,
    pub function: Builtin,
}

/// A node of two values.
#[derive(Drop)]
pub struct TwoNode {
    pub height: u32,
    pub span: ShortSpan,
    pub two: Two,
}

/// A node of any number of values.
#[derive(Clone, Copy)]
pub struct ManyNode {
    pub height: u32,
    pub span: Span,
    pub many: Many,
}

/// What is called: a place of the top level, or a name that has no place yet.
#[derive(Drop)]
pub enum Callee {
    Placed(usize),
    Named(Vec<u8>),
}

/// Operations that others hold. Contracts see them as their block.
#[cycle(ops)]
#[derive(Drop)]
pub struct Block {
    ops: Ops,
}

impl Model for Block {
    ghost use Rattle.nesl_eval_code.specs.Block.{Block};
    ghost use Rattle.nesl_eval_ops.specs.Codes.{block_code};
    ghost use Rattle.std.specs.Coded.{codes};
    ghost use Rattle.nesl_lex.specs.contracts.token.Span as span;
    ghost use Rattle.nesl_builtins.specs.contracts.builtin.Builtin as builtin;
    ghost use Rattle.nesl_eval_code.specs.contracts.code.Step as step;

    ghost Value = { Block };

    ghost coded = { block_code (Prim.hlevel (codes, span.the_row.coded, builtin.the_row.coded, step.the_row.coded)) };

    ghost use Rattle.nesl_eval_ops.specs.View.{block_of};

    ghost view = { λ a. block_of a.ops };

    ghost use Rattle.nesl_eval_ops.specs.Weight.{weight};

    ghost size = { weight };

    ghost use Rattle.nesl_eval_ops.specs.Falls.{depth_le};

    ghost size_decreases = { λ a h. depth_le a.ops };
}

impl Block {
    pub fn new(ops: Ops) -> Block
        ensures { result ≡ block_of ops }
    {
        Block { ops }
    }

    pub fn ops(&self) -> &Ops
        ensures { block_of result.now ≡ self.now }
    {
        &self.ops
    }

    #[tactic(auto, using(crate::proofs::Falling::falls))]
    pub(crate) fn into_ops(self) -> Ops
        ensures is { block_of result ≡ self }
        ensures lower { deep-Ops result ≤ weight self }
    {
        self.ops
    }
}

/// The body or the filter of an apply-to-each.
#[cycle(ops)]
#[derive(Drop)]
pub enum Body {
    /// Operations alone.
    Any(Block),
    /// Operations and the code that they are laid from, whose parts may have columns.
    Plain(Plain),
}

/// Operations, and the code that they are laid from.
#[cycle(ops)]
#[derive(Drop)]
pub struct Plain {
    pub(crate) ops: Ops,
    /// The height of the code in the body of the function or in the expression that it is in.
    pub(crate) height: u32,
    /// The sizes of the frames round the code, its own first.
    pub(crate) sizes: Vec<usize>,
    pub(crate) code: Code,
}

impl Model for Plain {
    ghost use Rattle.std.specs.Prelude.{◌≡◌, None};
    ghost use Rattle.nesl_eval_code.specs.Flat.{flat};
    ghost use Rattle.nesl_eval_ops.specs.Kept.{Kept, kept_code};
    ghost use Rattle.std.specs.Coded.{codes};
    ghost use Rattle.nesl_eval_code.specs.contracts.code.Code as the_code;

    ghost Value = { Kept };

    ghost coded = { kept_code (Prim.hlevel (codes, the_code.the_row.coded)) };

    ghost view = { λ a. record { height = a.height; sizes = a.sizes.items; code = a.code } };

    ghost use Rattle.nesl_eval_ops.specs.View.{block_of};

    ghost invariant = { λ a. block_of a.ops ≡ flat a.height a.sizes.items a.code None };

    ghost use Rattle.nesl_eval_ops.specs.Weight.{weight};

    ghost size = { λ k. weight (flat k.height k.sizes k.code None) };

    ghost use Rattle.nesl_eval_ops.specs.Falls.{depth_le_same};

    ghost size_decreases = { λ a h. depth_le_same a.ops (flat a.height a.sizes.items a.code None) h };
}

/// The code that a body is laid from: its height, and the sizes of the frames round it, its own first.
#[derive(Clone, Copy)]
pub struct Laid<'a> {
    pub height: u32,
    pub sizes: &'a [usize],
    pub code: &'a Code,
}

impl Body {
    /// The body's operations.
    pub fn ops(&self) -> &Ops
        ensures { block_of result.now ≡ body_block self.now }
    {
        match self {
            Body::Any(block) => block.ops(),
            Body::Plain(plain) => &plain.ops,
        }
    }

    /// The code of the body, if it was kept.
    pub fn plain(&self) -> Option<Laid<'_>>
        ensures { IfSome result (λ l. body_block self.now ≡ flat l.height l.sizes.now l.code.now None) }
    {
        match self {
            Body::Any(_) => None,
            Body::Plain(plain) => Some(Laid {
                height: plain.height,
                sizes: &plain.sizes,
                code: &plain.code,
            }),
        }
    }
}

/// Operations. Values are on a stack, the last one on top. A height is that of a node in its body; a node is entered
/// before its parts.
#[cycle(ops)]
pub enum Ops {
    /// Nothing more: one value is left.
    Finish,
    /// Enters a leaf, and pushes its value.
    Push {
        height: u32,
        leaf: Leaf,
        next: Box<Block>,
    },
    /// Enters a node that has parts.
    Enter {
        height: u32,
        span: Span,
        next: Box<Block>,
    },
    /// Applies a function to a leaf. The leaves of a node have the height that it names: one more than its own.
    OfLeaf {
        node: OneNode,
        leaf: Leaf,
        next: Box<Block>,
    },
    /// Applies a function to the value on top.
    OfTop {
        node: OneNode,
        next: Box<Block>,
    },
    /// What is made of two leaves.
    OfLeaves {
        node: TwoNode,
        left: Leaf,
        right: Leaf,
        next: Box<Block>,
    },
    /// What is made of the value on top and a leaf.
    OfTopAndLeaf {
        node: TwoNode,
        right: Leaf,
        next: Box<Block>,
    },
    /// What is made of the two values on top.
    OfTops {
        node: TwoNode,
        next: Box<Block>,
    },
    /// What is made of `count` values on top and of leaves.
    OfMany {
        node: ManyNode,
        count: usize,
        leaves: Vec<Leaf>,
        next: Box<Block>,
    },
    /// Goes on with the one or the other, and then with what is next.
    Choose {
        yes: Box<Block>,
        no: Box<Block>,
        next: Box<Block>,
    },
    /// The one or the other, after which nothing is left to do.
    Last {
        yes: Box<Block>,
        no: Box<Block>,
    },
    /// Calls a function, whose body has a level less than the node at this height, or makes a record.
    Call {
        height: u32,
        span: Span,
        callee: Callee,
        next: Box<Block>,
    },
    /// The value on top is that of one more local name.
    Bind {
        next: Box<Block>,
    },
    /// Only the first `places` local names are left.
    Forget {
        places: usize,
        next: Box<Block>,
    },
    /// A body at all places of `count` sequences.
    Each {
        span: Span,
        count: usize,
        body: Box<Body>,
        next: Box<Block>,
    },
    /// A body at the places of `count` sequences where a filter holds.
    Filtered {
        span: Span,
        count: usize,
        body: Box<Body>,
        filter: Box<Body>,
        next: Box<Block>,
    },
}

// A loop along the operations: it recurs only into a side of a choice, a body or a filter, of which no more than a
// node's levels are inside one another.
impl Drop for Ops {
    #[cycle(drops)]
    fn drop(mut self) {
        loop {
            let next = match self {
                Ops::Finish => return,
                Ops::Last { yes: _yes, no: _no } => return,
                Ops::Push {
                    height: _,
                    leaf: _leaf,
                    next,
                } => next,
                Ops::Enter {
                    height: _,
                    span: _,
                    next,
                } => next,
                Ops::OfLeaf {
                    node: _,
                    leaf: _leaf,
                    next,
                } => next,
                Ops::OfTop { node: _, next } => next,
                Ops::OfLeaves {
                    node: _node,
                    left: _left,
                    right: _right,
                    next,
                } => next,
                Ops::OfTopAndLeaf {
                    node: _node,
                    right: _right,
                    next,
                } => next,
                Ops::OfTops { node: _node, next } => next,
                Ops::OfMany {
                    node: _,
                    count: _,
                    leaves: _leaves,
                    next,
                } => next,
                Ops::Choose {
                    yes: _yes,
                    no: _no,
                    next,
                } => next,
                Ops::Call {
                    height: _,
                    span: _,
                    callee: _callee,
                    next,
                } => next,
                Ops::Bind { next } => next,
                Ops::Forget { places: _, next } => next,
                Ops::Each {
                    span: _,
                    count: _,
                    body: _body,
                    next,
                } => next,
                Ops::Filtered {
                    span: _,
                    count: _,
                    body: _body,
                    filter: _filter,
                    next,
                } => next,
            };
            self = Box::into_inner(next).into_ops();
        }
    }
}
