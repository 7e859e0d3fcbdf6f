// The tokens of a line.

ghost use Rattle.std.specs.Prelude.{◌≡◌, ◌≤◌, length};

use smallvec::SmallVec;
use std::alloc::AllocError;

/// The bytes of a line from `start` on and before `end`.
#[derive(Clone, Copy, PartialEq, Eq, Debug)]
pub struct Span {
    pub start: usize,
    pub end: usize,
}

/// A reserved word of the language.
#[derive(Clone, Copy, PartialEq, Eq, Debug)]
pub enum Word {
    Function,
    Datatype,
    Let,
    In,
    If,
    Then,
    Else,
    Or,
    Nor,
    Xor,
    And,
    Nand,
    Int,
    Bool,
    Char,
}

/// A sign of one byte or two.
#[derive(Clone, Copy, PartialEq, Eq, Debug)]
pub enum Sign {
    /// `(`
    OpenParenthesis,
    /// `)`
    CloseParenthesis,
    /// `[`
    OpenBracket,
    /// `]`
    CloseBracket,
    /// `{`
    OpenBrace,
    /// `}`
    CloseBrace,
    /// `,`
    Comma,
    /// `;`
    Semicolon,
    /// `:`
    Colon,
    /// `::`
    DoubleColon,
    /// `|`
    Bar,
    /// `=`
    Equal,
    /// `==`
    DoubleEqual,
    /// `/=`
    NotEqual,
    /// `<`
    Less,
    /// `>`
    Greater,
    /// `<=`
    LessOrEqual,
    /// `>=`
    GreaterOrEqual,
    /// `+`
    Plus,
    /// `++`
    DoublePlus,
    /// `-`
    Minus,
    /// `<-`
    LeftArrow,
    /// `->`
    RightArrow,
    /// `*`
    Star,
    /// `/`
    Slash,
    /// `#`
    Hash,
}

/// A name. One of at most 16 bytes is kept in the value itself, and a longer one takes memory of its own.
#[derive(PartialEq, Eq, Debug)]
pub struct Name {
    pub letters: SmallVec<u8, 16>,
}

// By hand, so that no crate above has to prove how the letters are dropped.
impl Drop for Name {
    fn drop(self) {
        let Name { letters } = self;
        drop(letters);
    }
}

impl Clone for Name {
    ghost is_clone = { λ one other. other.letters.items ≡ one.letters.items };

    ghost is_infallible = { λ one. length one.letters.items ≤ 16 };

    fn clone(&self) -> Result<Self, AllocError> {
        let letters = SmallVec::from_slice(*self.letters.allocator(), self.letters.as_slice())?;
        Ok(Name { letters })
    }
}

impl Name {
    /// Its letters.
    pub fn as_slice(&self) -> &[u8]
        ensures value { result.now ≡ self.now.letters.items }
    {
        self.letters.as_slice()
    }
}

/// What a token is.
#[derive(PartialEq, Eq, Debug, Drop)]
pub enum Kind {
    /// A number's value, which is below 2 ^ 63.
    Number(u64),
    /// A name in small letters.
    Name(Name),
    Reserved(Word),
    Truth(bool),
    /// A character's code.
    Character(u8),
    /// The bytes between a text's quotes.
    Text(Vec<u8>),
    Symbol(Sign),
}

/// A token, and where it is in its line.
#[derive(PartialEq, Eq, Debug)]
pub struct Token {
    pub kind: Kind,
    pub span: Span,
}

// By hand, so that no crate above has to prove how the parts are dropped.
impl Drop for Token {
    fn drop(self) {
        let Token { kind, span: _ } = self;
        drop(kind);
    }
}
