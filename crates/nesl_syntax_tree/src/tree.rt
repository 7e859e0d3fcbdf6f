// The trees of expressions, patterns, types and forms.

ghost use Rattle.std.specs.Prelude.{◌≡◌};

use nesl_lex::token::{Name, Span};

/// An operator between two expressions.
#[derive(Clone, Copy, PartialEq, Eq, Debug)]
pub enum Operator {
    Or,
    Nor,
    Xor,
    And,
    Nand,
    Equal,
    NotEqual,
    Less,
    Greater,
    LessOrEqual,
    GreaterOrEqual,
    Plus,
    Minus,
    Append,
    Write,
    Times,
    Divide,
    Read,
}

/// An operator before an expression.
#[derive(Clone, Copy, PartialEq, Eq, Debug)]
pub enum Prefix {
    Length,
    Negate,
}

/// A class of types.
#[derive(Clone, Copy, PartialEq, Eq, Debug)]
pub enum Class {
    Any,
    Ordinal,
    Number,
    Logical,
}

/// A type as it is written, with its bytes in the line.
#[cycle(written)]
#[derive(Debug)]
pub struct TypeExp {
    pub span: Span,
    pub node: TypeNode,
}

// By hand, so that no crate above has to prove how the parts are dropped.
impl Drop for TypeExp {
    #[cycle(written)]
    fn drop(self) {
        let TypeExp { span: _, node } = self;
        drop(node);
    }
}

/// What a type is.
#[cycle(written)]
#[derive(Debug, Drop)]
pub enum TypeNode {
    Int,
    Bool,
    Char,
    /// A name, and where its token is, which parentheses don't widen.
    Name {
        name: Name,
        token: Span,
    },
    Sequence(Box<TypeExp>),
    Pair {
        left: Box<TypeExp>,
        right: Box<TypeExp>,
    },
}

/// A pattern, with its bytes in the line.
#[cycle(pattern)]
#[derive(Debug)]
pub struct Pattern {
    pub span: Span,
    pub node: PatternNode,
}

// By hand, so that no crate above has to prove how the parts are dropped.
impl Drop for Pattern {
    #[cycle(pattern)]
    fn drop(self) {
        let Pattern { span: _, node } = self;
        drop(node);
    }
}

/// What a pattern is.
#[cycle(pattern)]
#[derive(Debug, Drop)]
pub enum PatternNode {
    Name(Name),
    Pair {
        left: Box<Pattern>,
        right: Box<Pattern>,
    },
    /// A datatype's name before `(`.
    Record {
        name: Name,
        part: Box<Pattern>,
    },
}

/// An expression, with its bytes in the line.
#[cycle(tree)]
#[derive(Debug)]
pub struct Exp {
    pub span: Span,
    pub node: Node,
}

// By hand, so that no crate above has to prove how the parts are dropped.
impl Drop for Exp {
    #[cycle(tree)]
    fn drop(self) {
        let Exp { span: _, node } = self;
        drop(node);
    }
}

impl Exp {
    /// Its bytes in the line, and what it is.
    pub fn into_parts(self) -> (Span, Node)
        ensures span { result.0 ≡ self.span }
        ensures node { result.1 ≡ self.node }
    {
        let Exp { span, node } = self;
        (span, node)
    }
}

/// A pattern and the expression that it is bound to.
#[cycle(tree)]
#[derive(Debug, Drop)]
pub struct Binding {
    pub pattern: Pattern,
    pub value: Exp,
}

/// What an expression is.
#[cycle(tree)]
#[derive(Debug, Drop)]
pub enum Node {
    Number(u64),
    Truth(bool),
    Character(u8),
    Text(Vec<u8>),
    Variable(Name),
    /// A name before `(`: a built-in function, a user's function or a datatype.
    Call {
        name: Name,
        argument: Box<Exp>,
    },
    Pair {
        left: Box<Exp>,
        right: Box<Exp>,
    },
    Prefix {
        operator: Prefix,
        operand: Box<Exp>,
    },
    Infix {
        operator: Operator,
        left: Box<Exp>,
        right: Box<Exp>,
    },
    Index {
        sequence: Box<Exp>,
        index: Box<Exp>,
    },
    Choice {
        test: Box<Exp>,
        yes: Box<Exp>,
        no: Box<Exp>,
    },
    Sequence(Vec<Exp>),
    /// An empty sequence, with the type of its elements. It is in a box, since it is larger than all other nodes.
    Empty(Box<TypeExp>),
    Range {
        from: Box<Exp>,
        to: Box<Exp>,
    },
    StridedRange {
        from: Box<Exp>,
        to: Box<Exp>,
        stride: Box<Exp>,
    },
    Let {
        bindings: Vec<Binding>,
        body: Box<Exp>,
    },
    /// An apply-to-each.
    Each {
        body: Box<Exp>,
        bindings: Vec<Binding>,
    },
    /// An apply-to-each with a filter, which comes last.
    FilteredEach {
        body: Box<Exp>,
        bindings: Vec<Binding>,
        filter: Box<Exp>,
    },
    /// The body of an apply-to-each that has none: the first binder's element.
    Element,
}

/// The types of a function, and the classes of names in them.
#[derive(Debug, Drop)]
pub struct Signature {
    pub from: TypeExp,
    pub to: TypeExp,
    pub members: Vec<Member>,
}

/// A name and the class that it is put in.
#[derive(Debug, Drop)]
pub struct Member {
    pub name: Name,
    pub class: Class,
}

/// A line.
#[derive(Debug, Drop)]
pub enum Form {
    Nothing,
    Fun {
        name: Vec<u8>,
        parameter: Pattern,
        signature: Option<Signature>,
        body: Exp,
    },
    /// A datatype's name, and the type that its records hold.
    Datatype {
        name: Vec<u8>,
        content: TypeExp,
    },
    Bind {
        name: Vec<u8>,
        value: Exp,
    },
    Eval(Exp),
    ShowNames,
    ShowBudget,
    ShowType(Exp),
}
