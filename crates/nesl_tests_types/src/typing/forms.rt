//! Lines and their trees, or why they have none. The trees come from an independent reader of the same grammar, the
//! spans of written types from hand.

use crate::rows::all_hold;
use crate::typing::shown::Forms;

const ATOMS_PAIRS_AND_CALLS: &str = r#"17; => Eval(0..2 Number(17))
T; => Eval(0..1 Truth(true))
`a; => Eval(0..2 Character(97))
"a b"; => Eval(0..5 Text([97, 32, 98]))
X; => Eval(0..1 Variable([120]))
(x); => Eval(0..3 Variable([120]))
g(x); => Eval(0..4 Call name: [103], argument: 2..3 Variable([120]))
g((x)); => Eval(0..6 Call name: [103], argument: 2..5 Variable([120]))
g(a, b, c); => Eval(0..10 Call name: [103], argument: 2..9 Pair left: 2..3 Variable([97]), right: 5..9 Pair left: 5..6 Variable([98]), right: 8..9 Variable([99]))
(a, (b, c)); => Eval(0..11 Pair left: 1..2 Variable([97]), right: 4..10 Pair left: 5..6 Variable([98]), right: 8..9 Variable([99]))
((a, b), c); => Eval(0..11 Pair left: 1..7 Pair left: 2..3 Variable([97]), right: 5..6 Variable([98]), right: 9..10 Variable([99]))"#;

const ARITHMETIC_BY_LEVEL: &str =
    r#"1 - (2 - 3); => Eval(0..11 Infix operator: Minus, left: 0..1 Number(1), right: 4..11 Infix operator: Minus, left: 5..6 Number(2), right: 9..10 Number(3))
a + b * c; => Eval(0..9 Infix operator: Plus, left: 0..1 Variable([97]), right: 4..9 Infix operator: Times, left: 4..5 Variable([98]), right: 8..9 Variable([99]))
a * b + c; => Eval(0..9 Infix operator: Plus, left: 0..5 Infix operator: Times, left: 0..1 Variable([97]), right: 4..5 Variable([98]), right: 8..9 Variable([99]))
a ++ b - c; => Eval(0..10 Infix operator: Minus, left: 0..6 Infix operator: Append, left: 0..1 Variable([97]), right: 5..6 Variable([98]), right: 9..10 Variable([99]))
v <- w -> i / j; => Eval(0..15 Infix operator: Write, left: 0..1 Variable([118]), right: 5..15 Infix operator: Divide, left: 5..11 Infix operator: Read, left: 5..6 Variable([119]), right: 10..11 Variable([105]), right: 14..15 Variable([106]))
#v[0]; => Eval(0..5 Prefix operator: Length, operand: 1..5 Index sequence: 1..2 Variable([118]), index: 3..4 Number(0))
-a * b; => Eval(0..6 Infix operator: Times, left: 0..2 Prefix operator: Negate, operand: 1..2 Variable([97]), right: 5..6 Variable([98]))
- #v; => Eval(0..4 Prefix operator: Negate, operand: 2..4 Prefix operator: Length, operand: 3..4 Variable([118]))"#;

const LOGIC_AND_COMPARISONS_BY_LEVEL: &str =
    r#"a < b < c; => Eval(0..9 Infix operator: Less, left: 0..5 Infix operator: Less, left: 0..1 Variable([97]), right: 4..5 Variable([98]), right: 8..9 Variable([99]))
a or b nor c xor d; => Eval(0..18 Infix operator: Xor, left: 0..12 Infix operator: Nor, left: 0..6 Infix operator: Or, left: 0..1 Variable([97]), right: 5..6 Variable([98]), right: 11..12 Variable([99]), right: 17..18 Variable([100]))
a and b or c nand d; => Eval(0..19 Infix operator: Or, left: 0..7 Infix operator: And, left: 0..1 Variable([97]), right: 6..7 Variable([98]), right: 11..19 Infix operator: Nand, left: 11..12 Variable([99]), right: 18..19 Variable([100]))
a == b /= c >= d; => Eval(0..16 Infix operator: GreaterOrEqual, left: 0..11 Infix operator: NotEqual, left: 0..6 Infix operator: Equal, left: 0..1 Variable([97]), right: 5..6 Variable([98]), right: 10..11 Variable([99]), right: 15..16 Variable([100]))
a <= b > c; => Eval(0..10 Infix operator: Greater, left: 0..6 Infix operator: LessOrEqual, left: 0..1 Variable([97]), right: 5..6 Variable([98]), right: 9..10 Variable([99]))"#;

const INDICES_SEQUENCES_AND_RANGES: &str =
    r#"v[i][j]; => Eval(0..7 Index sequence: 0..4 Index sequence: 0..1 Variable([118]), index: 2..3 Variable([105]), index: 5..6 Variable([106]))
g(x)[0]; => Eval(0..7 Index sequence: 0..4 Call name: [103], argument: 2..3 Variable([120]), index: 5..6 Number(0))
[1]; => Eval(0..3 Sequence([1..2 Number(1)]))
[1, 2, (3, 4)]; => Eval(0..14 Sequence([1..2 Number(1), 4..5 Number(2), 7..13 Pair left: 8..9 Number(3), right: 11..12 Number(4)]))
[1:2]; => Eval(0..5 Range from: 1..2 Number(1), to: 3..4 Number(2))
[1:2:3]; => Eval(0..7 StridedRange from: 1..2 Number(1), to: 3..4 Number(2), stride: 5..6 Number(3))
[] int; => Eval(0..6 Empty(3..6 Int))
[] [(bool, char, p)]; => Eval(0..20 Empty(3..20 Sequence(4..19 Pair left: 5..9 Bool, right: 11..18 Pair left: 11..15 Char, right: 17..18 Name name: [112], token: 17..18)))
[] ((p)) ++ v; => Eval(0..13 Infix operator: Append, left: 0..8 Empty(3..8 Name name: [112], token: 5..6), right: 12..13 Variable([118]))"#;

const APPLY_TO_EACH: &str =
    r#"{a in v}; => Eval(0..8 Each body: 1..2 Element, bindings: [Binding pattern: 1..2 Name([97]), value: 6..7 Variable([118])])
{(a, b) in v; c in w}; => Eval(0..21 Each body: 1..7 Element, bindings: [Binding pattern: 1..7 Pair left: 2..3 Name([97]), right: 5..6 Name([98]), value: 11..12 Variable([118]), Binding pattern: 14..15 Name([99]), value: 19..20 Variable([119])])
{a + b : a in v; b in w}; => Eval(0..24 Each body: 1..6 Infix operator: Plus, left: 1..2 Variable([97]), right: 5..6 Variable([98]), bindings: [Binding pattern: 9..10 Name([97]), value: 14..15 Variable([118]), Binding pattern: 17..18 Name([98]), value: 22..23 Variable([119])])
{a in v | a > 0}; => Eval(0..16 FilteredEach body: 1..2 Element, bindings: [Binding pattern: 1..2 Name([97]), value: 6..7 Variable([118])], filter: 10..15 Infix operator: Greater, left: 10..11 Variable([97]), right: 14..15 Number(0))
{a : p(a, (b, c)) in v | b}; => Eval(0..27 FilteredEach body: 1..2 Variable([97]), bindings: [Binding pattern: 5..17 Record name: [112], part: 7..16 Pair left: 7..8 Name([97]), right: 10..16 Pair left: 11..12 Name([98]), right: 14..15 Name([99]), value: 21..22 Variable([118])], filter: 25..26 Variable([98]))"#;

const CHOICES_AND_BINDINGS: &str =
    r#"if a then b else if c then d else e; => Eval(0..35 Choice test: 3..4 Variable([97]), yes: 10..11 Variable([98]), no: 17..35 Choice test: 20..21 Variable([99]), yes: 27..28 Variable([100]), no: 34..35 Variable([101]))
let x = 1 in x; => Eval(0..14 Let bindings: [Binding pattern: 4..5 Name([120]), value: 8..9 Number(1)], body: 13..14 Variable([120]))
let x = 1; in x; => Eval(0..15 Let bindings: [Binding pattern: 4..5 Name([120]), value: 8..9 Number(1)], body: 14..15 Variable([120]))
let (y, z) = p; q(w) = r in let x = 2 in x; => Eval(0..42 Let bindings: [Binding pattern: 4..10 Pair left: 5..6 Name([121]), right: 8..9 Name([122]), value: 13..14 Variable([112]), Binding pattern: 16..20 Record name: [113], part: 18..19 Name([119]), value: 23..24 Variable([114])], body: 28..42 Let bindings: [Binding pattern: 32..33 Name([120]), value: 36..37 Number(2)], body: 41..42 Variable([120]))
(let x = 1 in x) + 1; => Eval(0..20 Infix operator: Plus, left: 0..16 Let bindings: [Binding pattern: 5..6 Name([120]), value: 9..10 Number(1)], body: 14..15 Variable([120]), right: 19..20 Number(1))
[if a then b else c]; => Eval(0..20 Sequence([1..19 Choice test: 4..5 Variable([97]), yes: 11..12 Variable([98]), no: 18..19 Variable([99])]))
v[if a then b else c]; => Eval(0..21 Index sequence: 0..1 Variable([118]), index: 2..20 Choice test: 5..6 Variable([97]), yes: 12..13 Variable([98]), no: 19..20 Variable([99]))"#;

const BINDINGS_AND_COMMANDS: &str = r#"x = 1; => Bind name: [120], value: 4..5 Number(1)
X = (1, 2); => Bind name: [120], value: 4..10 Pair left: 5..6 Number(1), right: 8..9 Number(2)
names; => Eval(0..5 Variable([110, 97, 109, 101, 115]))
:names => ShowNames
: BUDGET => ShowBudget
:type 1 + 2; => ShowType(6..11 Infix operator: Plus, left: 6..7 Number(1), right: 10..11 Number(2))"#;

const DATATYPES_AND_FUNCTIONS: &str = r#": TYPE x; => ShowType(7..8 Variable([120]))
datatype p int; => Datatype name: [112], content: 11..14 Int
datatype P (int, [q]); => Datatype name: [112], content: 11..21 Pair left: 12..15 Int, right: 17..20 Sequence(18..19 Name name: [113], token: 18..19)
function g x = x == x; => Fun name: [103], parameter: 11..12 Name([120]), signature: None, body: 15..21 Infix operator: Equal, left: 15..16 Variable([120]), right: 20..21 Variable([120])
function g(x, (y, z)) = x; => Fun name: [103], parameter: 10..21 Pair left: 11..12 Name([120]), right: 14..20 Pair left: 15..16 Name([121]), right: 18..19 Name([122]), signature: None, body: 24..25 Variable([120])
function g(p(x)) = {x : x in x}; => Fun name: [103], parameter: 10..16 Record name: [112], part: 13..14 Name([120]), signature: None, body: 19..31 Each body: 20..21 Variable([120]), bindings: [Binding pattern: 24..25 Name([120]), value: 29..30 Variable([120])]
function g(x) : int -> bool = x; => Fun name: [103], parameter: 10..13 Name([120]), signature: Some(Signature from: 16..19 Int, to: 23..27 Bool, members: []), body: 30..31 Variable([120])
function g(a, b) : (n, n) -> [n] :: (n in number) = a; => Fun name: [103], parameter: 10..16 Pair left: 11..12 Name([97]), right: 14..15 Name([98]), signature: Some(Signature from: 19..25 Pair left: 20..21 Name name: [110], token: 20..21, right: 23..24 Name name: [110], token: 23..24, to: 29..32 Sequence(30..31 Name name: [110], token: 30..31), members: [Member name: [110], class: Number]), body: 52..53 Variable([97])
function g(a) : n -> m :: (n in Any; m IN ordinal; k in logical) = a; => Fun name: [103], parameter: 10..13 Name([97]), signature: Some(Signature from: 16..17 Name name: [110], token: 16..17, to: 21..22 Name name: [109], token: 21..22, members: [Member name: [110], class: Any, Member name: [109], class: Ordinal, Member name: [107], class: Logical]), body: 67..68 Variable([97])"#;

/// No tokens are the empty line.
const ONLY_A_COMMENT: &str = " % a comment %  => Nothing";

/// Lines that are deep.
const DEEP: &str = r#"@2047~(@1@2047~)@; => Eval(0..4095 Number(1))
@32767~(@1@32767~)@; => Eval(0..65535 Number(1))
@100~-@1; => Nested
@60000~-@1 1; => Syntax
@4095~[@; => Syntax
@2047~[@1@2047~]@; => Nested
@100~[@1@100~]@; => Nested
@99~[@[] int@99~]@; => Nested
@50~(a, @b@50~)) + 1@; => Syntax
@20000~{a in @v@20000~}@; => Nested
@20000~if a then @b@20000~ else c@; => Nested"#;

/// Lines whose trees have a height of 100.
const AS_HIGH_AS_CAN_BE: &str =
    r#"@99~-@1; => Eval(0..100 Prefix operator: Negate, operand: 1..100 ..
@99~[@1@99~]@; => Eval(0..199 Sequence([1..198 ..
@98~[@[] int@98~]@; => Eval(0..202 Sequence([1..201 ..
@99~(a, @b@99~)@; => Eval(0..496 Pair left: 1..2 Variable([97]), right: .."#;

/// Lines with types of a height of 100 and of one more: each type of a line is measured alone.
const WITH_TYPES: &str =
    r#"datatype p @99~[@int@99~]@; => Datatype name: [112], content: 11..212 Sequence(12..211 ..
datatype p @100~[@int@100~]@; => Nested
function g(x) : @99~[@int@99~]@ -> int = x; => Fun name: [103], parameter: 10..13 Name([120]), signature: Some(Signature from: 16..217 Sequence(17..216 ..
function g(x) : @100~[@int@100~]@ -> int = x; => Nested
function g(x) : int -> @99~[@int@99~]@ :: (n in any) = x; => Fun name: [103], parameter: 10..13 Name([120]), signature: Some(Signature from: 16..19 Int, to: 23..224 Sequence(24..223 ..
function g(x) : int -> @100~[@int@100~]@ :: (n in any) = x; => Nested
function g(x) : @100~[@int@100~]@ -> int = ; => Syntax"#;

const EXPRESSIONS_AND_BINDINGS: &str = r#"; => Syntax
1 => Syntax
1; 2; => Syntax
1;; => Syntax
a b; => Syntax
a = b = c; => Syntax
2 = 1; => Syntax
(x) = 1; => Syntax
1 + if a then b else c; => Syntax
-let x = 1 in x; => Syntax
if a then b; => Syntax
if a else b; => Syntax
(); => Syntax
g(); => Syntax
(a, ); => Syntax
g (1)(2); => Syntax
(g)(1); => Syntax
[]; => Syntax
[1, ]; => Syntax
[1, 2 : 3]; => Syntax
[1 : 2 : 3 : 4]; => Syntax
[] 1; => Syntax
[] (int, ); => Syntax
[] [int, int]; => Syntax
{}; => Syntax
{a}; => Syntax
{a : }; => Syntax
{1 in v}; => Syntax
{a : b}; => Syntax
{a in v |}; => Syntax
{a in v; }; => Syntax
{a in v | b; c in w}; => Syntax
let x = 1; => Syntax"#;

const DEFINITIONS_AND_COMMANDS: &str = r#"let in x; => Syntax
let 1 = x in x; => Syntax
let x == 1 in x; => Syntax
let x = 1;; in x; => Syntax
let (x, ) = 1 in x; => Syntax
1 : 2; => Syntax
:names; => Syntax
:budget; => Syntax
:type 1 => Syntax
:type ; => Syntax
:name => Syntax
: => Syntax
datatype p; => Syntax
datatype int int; => Syntax
datatype p = int; => Syntax
datatype p int => Syntax
datatype p int int; => Syntax
function f(x) = x; => Syntax
function g(x) = x => Syntax
function add(a, b) = a + b => Syntax
function g = x; => Syntax
function g(1) = x; => Syntax
function g(x) : int = x; => Syntax
function g(x) : int -> = x; => Syntax
function g(x) : -> int = x; => Syntax
function g(x) :: int -> int = x; => Syntax
function g(x) : int -> int :: () = x; => Syntax
function g(x) : n -> n :: n in any = x; => Syntax
function g(x) : n -> n :: (n in any;) = x; => Syntax
function g(x) : n -> n :: (n in all) = x; => Syntax
function g(x) : n -> n :: (n = any) = x; => Syntax
function g(x) : n -> n :: (n in any, m in any) = x; => Syntax
function g(x) : n -> n -> n = x; => Syntax
function g(x) = x = y; => Syntax
function (x) = x; => Syntax
(function g(x) = x;) => Syntax
1 % a comment % ;; => Syntax"#;

#[test]
fn lines_have_these_trees_or_none(rt: HostRuntime) {
    let tables = [
        ATOMS_PAIRS_AND_CALLS,
        ARITHMETIC_BY_LEVEL,
        LOGIC_AND_COMPARISONS_BY_LEVEL,
        INDICES_SEQUENCES_AND_RANGES,
        APPLY_TO_EACH,
        CHOICES_AND_BINDINGS,
        BINDINGS_AND_COMMANDS,
        DATATYPES_AND_FUNCTIONS,
        ONLY_A_COMMENT,
        DEEP,
        AS_HIGH_AS_CAN_BE,
        WITH_TYPES,
        EXPRESSIONS_AND_BINDINGS,
        DEFINITIONS_AND_COMMANDS,
    ];
    all_hold(&rt, rt.alloc(), &Forms, &tables);
}
