//! What can be wrong with a line's tokens, and what a person reads of it.

/// What is wrong with a line's tokens. A comment says which the two places of the problem are, the second in brackets.
#[derive(Clone, Copy)]
pub(crate) enum Problem {
    /// The last token, after which a `;` is missing.
    NoSemicolon,
    /// The last token, after which more is missing.
    GoesOn,
    /// A character that is a `;`, where the form should have ended.
    SemicolonQuoted,
    /// What follows a form's `;`.
    TwoForms,
    BehindCommand,
    NoCommand,
    PromptWord,
    ResetAlone,
    CommandAlone,
    TruthAsName,
    TruthCalled,
    WordAsName,
    NoName,
    NoPattern,
    NoEqual,
    /// A name that is defined [the token after which no form goes on].
    NoFunction,
    /// A name that is defined.
    NoDatatype,
    /// A name that is bound [the `in`].
    NoLet,
    /// What should be in braces [the token after which no form goes on].
    NoBraces,
    NoColon,
    NoParameter,
    SecondParameter,
    DoubleEqual,
    DatatypeEqual,
    NoArrow,
    NoMember,
    /// An argument [its function].
    NoParentheses,
    NoOperator,
    NotCalled,
    EqualForEqual,
    BoundByEqual,
    /// The token in place of an `in` [the `let`].
    NoIn,
    /// [the `if`]
    NoThen,
    /// [the `if`]
    NoElse,
    NoLetEqual,
    /// [the `{`]
    NoEachIn,
    /// [the `{`]
    Elements,
    ThenAlone,
    ElseAlone,
    InAlone,
    NoElementType,
    NoExpression,
    NoType,
    BehindType,
    TypeHere,
    /// [the bracket]
    StillOpen,
    /// A bracket [where it should have been closed].
    NotClosed,
    NotOpen,
    /// [the bracket]
    OtherBracket,
    CommaHere,
    NoSemicolonBetween,
    /// The `[` [the comma].
    CommaInIndex,
    ColonHere,
    /// [the `[`]
    ColonInIndex,
    BarHere,
    InOperand,
    FormInside,
    NothingInside,
    NoIndex,
    NoSequence,
    /// A type before a name.
    TypedName,
    /// The `:` in a parameter.
    TypedParameter,
    /// The `:` after a name that is bound.
    TypedValue,
    /// A `::` after an expression.
    SignatureAlone,
    BindsOne,
    ElementBound,
    CallBound,
    /// [the `[`]
    NoComma,
    /// A type before a `(`.
    Converted,
    /// What follows the name of a function [the `let`].
    LetFunction,
    /// A word of a `let` of another language [the `let`].
    LetWord,
    /// The token in place of an `in`, where parts are bound [the `let`].
    NoInOfParts,
    /// The `:` of a range without an end [the `[`].
    OpenRange,
    BarAlone,
    /// Signs of another language that change an element.
    ElementChanged,
    NamedArgument,
    NoBoundName,
    TwoSemicolons,
    /// A constant where a pattern should begin [the `{`].
    NamedPart,
    /// Two names with a `::` between.
    PathHere,
    /// The name of a function's value, and its `=`.
    NamedResult,
    SeveralResults,
    /// An operator as an argument [its function].
    OperatorAlone,
    /// A `=` within no brackets.
    EqualAlone,
    NoForm,
    /// The first word of the line, which begins lines in another language.
    ForeignWord,
    /// Two signs that another language has for one.
    ForeignPair,
    /// The first word of the line, which is one of another prompt.
    PromptLine,
}

/// What a person reads of each problem but the last three: a line for each, in the order of the problems.
///
/// `{place}` and `{second}` are the bytes at the two places of the problem.
const SENTENCES: &str = "\
a form ends in `;`
something is missing at the end; a line whose form goes on in the next one ends in `\\`
a `;` after a backquote is a character: the `;` that ends the form is missing
a line has one form, which ends in `;`: write the rest in another line, or as a comment `% .. %`
a command has no `;` after it, but for `:type x;`
the commands are `:names`, `:budget`, `:type x;` and `:reset`; a prompt has `:help` and `:quit` too
`:{place}` is a word of the prompt alone, which has it at the front of a line
`:reset` is these six bytes, with nothing before or after them
nothing follows this command
`{place}` is a truth value, as are `t`, `f`, `true` and `false`, small or capital: take another name
`{place}` is a truth value and no function: an operator is missing after it, or the function has another name
`{place}` is a word of the language and no name: take another name
a name should be here: a letter, then letters, digits and `_`
what is bound is a name, or names in parentheses with commas between
the body of a function comes after `=`, as in `function g(x) = x + 1;`
a function is defined by `function g(x) = x + 1;`, and `==` compares
a datatype is defined by `datatype point (int, int);`
an `in` has a `let` before its bindings, as in `let y = 1 in y + 1;`
an apply-to-each belongs in braces, as in `{a in v | a > 0}`, and whether x is in v is `any({a == x : a in v})`
a signature comes after a `:`, as in `function g(x) : int -> int = x;`
a function has a parameter, as in `function g(x) = x + 1;`
a function has one parameter: several names belong in parentheses, as in `function g(a, b) = a + b;`
`==` compares: a function's body comes after `=`
a datatype has no `=`: write `datatype point (int, int);`
a signature is `type -> type`, as in `function g(x) : int -> int = x;`
after `::` come names with their classes, as in `(a in number; b in ordinal)`
an argument belongs in parentheses: `{second}(..)`; between two values there is an operator
an operator is missing before `{place}`, or the form should have ended
only a name can be called, and an operator is missing before this `(`
`=` binds a name, and `==` compares
a name is bound by `=` alone, as in `x = 3;`
a `let` has a body after `in`, as in `let y = 1 in y + 1;`; a name of the session needs none: `y = 1;`
an `if` has a `then` and an `else`: `if .. then .. else ..`
an `if` has an `else` too, since it always has a value: `if .. then .. else ..`
a `let` binds names by `=`, without types or other words, as in `let y = 1 in y + 1;`
after `:` come a name, `in` and a sequence, as in `{a * a : a in [1, 2]}`
elements belong in `[ ]`, and a part of an expression in `( )`: braces are an apply-to-each, as `{a * a : a in [1, 2]}`
no `if` waits for this `then`
no `if .. then` waits for this `else`
no `let` and no apply-to-each waits for this `in`; whether x is in v is `any({a == x : a in v})`
the empty sequence says the type of its elements, as in `[] int`
an expression is missing before `{place}`
a type should be here: `int`, `bool`, `char`, `[int]`, `(int, int)` or a datatype
the type has ended before this
`{place}` is a type and no value: write `x = 3;` and `function g(x) = x + 1;` without it
the `{second}` before it is still open
this `{place}` is closed nowhere: close it, or leave it out
no bracket is open that `{place}` would close
the `{second}` before it is open, and is closed by another bracket
a comma comes between arguments, elements and parts of a pair, within brackets, as in `(1, 2)`
a `;` comes between bindings, as in `let y = 1; z = 2 in y + z` and `{a + b : a in v; b in w}`
an index is one number, as in `m[i][j]`, and a function's arguments belong in parentheses
a `:` belongs in an apply-to-each, in a range as `[1 : 6]`, or after a function's parameter; `[x] ++ v` puts x in front
an index is one number; the elements from place 1 below 3 are `v -> [1 : 3]`
an apply-to-each is `{a * a : a in v | a > 0}`, with its filter after the `|`; `or` joins truth values
`{place}` is an operand only in parentheses
a definition has a line of its own, as in `function g(x) = x + 1;`
these parentheses are empty: a function has an argument, and `x = 3;` binds a name without one
an index is missing between the brackets, as in `v[0]`
these braces are empty: `[] int` is the empty sequence of numbers
`{place}` is a type, which no name has before it: types come after a parameter, as in `function g(x) : int -> int = x;`
a parameter has names alone: its type comes after it, as in `function g(x) : int -> int = x;`
a variable is bound without its type, as in `x = 3;`
a signature is a part of a definition, as in `function g(x) : int -> int = x;`, and no name has a `::`
a line binds one name, as in `x = 3;`: `==` compares, and parts are bound by `let (a, b) = p in a + b`
`=` binds a name, and elements are replaced by `<-`, as in `v = v <- [(0, 5)];`
a function is defined by `function g(x) = x + 1;`, and an element is replaced by `v = v <- [(0, 5)];`
elements have commas between, as in `[1, 2, 3]`
`{place}` is a type and converts nothing: `char_code(c)`, `code_char(n)` and `btoi(b)` do
a `let` defines no function: `function g(x) = x + 1;` does, in a line of its own
a `let` has no `{place}`: it binds names for what follows `in`, as in `let y = 1 in y + 1;`
a `let` has a body after `in`, as in `let (a, b) = p in a + b;`
an index is one number; the elements from place 1 on are `drop(v, 1)`
bits and truth values are joined by `or`; a `|` comes before a filter, as in `{a in v | a > 0}`
an element is changed by `<-`, as in `v = v <- [(0, v[0] + 1)];`
an argument has no name, as in `g(3)`, and `==` compares
a name is missing before `=`, as in `x = 3;`
one `;` ends a form: leave the other one out
no part of a value has a name: `(1, 2)` is a pair, and after `:` come a name and `in`, as in `{a * a : a in v}`
no name has a `::`: a function is called as `g(x)`, and the empty sequence of numbers is `[] int`
a function's name and parameter come first, and its value has no name: `function g(x) = x + 1;`
a function's name comes first, and it gives several values as one: `function g(x) = (x, x + 1);`
an expression is missing before `{place}`
`=` binds a name, and `==` compares
these tokens are no form
";

impl Problem {
    /// What a person reads of it. It is empty where the line itself decides that, as for something of another language.
    pub(crate) fn sentence(self) -> &'static str {
        let place = self as usize;
        for (row, sentence) in SENTENCES.lines().enumerate() {
            if row == place {
                return sentence;
            }
        }
        ""
    }
}
