//! The functions on scalars.
use crate::reading::{place_of, value_of};
use crate::told::{is_named, is_value};
use nesl_scalars::{Binary, Cost, Trap, Unary};
use nesl_values::Value;
use std::alloc::{AllocError, Global};
use std::test::Fail;

/// The names of the functions of one scalar.
const NAMES_OF_ONE: &str =
    "not plusp minusp zerop oddp evenp negate abs isqrt btoi char_code code_char";

/// These functions, in the order of their names.
const OF_ONE: [Unary; 12] = [
    Unary::Not,
    Unary::Plusp,
    Unary::Minusp,
    Unary::Zerop,
    Unary::Oddp,
    Unary::Evenp,
    Unary::Negate,
    Unary::Abs,
    Unary::Isqrt,
    Unary::Btoi,
    Unary::CharCode,
    Unary::CodeChar,
];

/// The names and the signs of the functions of two scalars.
const NAMES_OF_TWO: &str = "and or xor nand nor == /= < > <= >= + - * / rem max min lshift rshift";

/// These functions, in the order of their names.
const OF_TWO: [Binary; 20] = [
    Binary::And,
    Binary::Or,
    Binary::Xor,
    Binary::Nand,
    Binary::Nor,
    Binary::Equal,
    Binary::Unequal,
    Binary::Less,
    Binary::Greater,
    Binary::AtMost,
    Binary::AtLeast,
    Binary::Add,
    Binary::Subtract,
    Binary::Multiply,
    Binary::Divide,
    Binary::Rem,
    Binary::Max,
    Binary::Min,
    Binary::Lshift,
    Binary::Rshift,
];

/// The result of the function of this name.
fn outcome(name: &str, argument: &Value) -> Option<Result<Value, Trap>> {
    match argument.as_pair() {
        Some((left, right)) => {
            let function = OF_TWO.get(place_of(NAMES_OF_TWO, name)?)?;
            Some(function.apply(left, right))
        }
        None => {
            let function = OF_ONE.get(place_of(NAMES_OF_ONE, name)?)?;
            Some(function.apply(argument))
        }
    }
}

/// Whether a function has the value of that text, or the fault of that name.
fn comes_to(alloc: Global, name: &str, argument: &Value, wanted: &str) -> Result<bool, AllocError> {
    match outcome(name, argument) {
        Some(Ok(value)) => is_value(alloc, &value, wanted),
        Some(Err(trap)) => is_named(alloc, trap, wanted),
        None => Ok(false),
    }
}

/// Whether a row holds.
fn holds(alloc: Global, row: &str) -> Result<bool, AllocError> {
    let sign = if row.contains(" ! ") { " ! " } else { " = " };
    let (call, wanted) = row.split_once(sign).unwrap_or((row, ""));
    let (name, argument) = call.split_once(' ').unwrap_or((call, ""));
    match value_of(alloc, argument, 0)? {
        Some(argument) => comes_to(alloc, name, &argument, wanted),
        None => Ok(false),
    }
}

/// Fails at the first row that doesn't hold. A row is `NAME ARGUMENT = RESULT`, or `NAME ARGUMENT ! FAULT`.
fn all_hold(alloc: Global, rows: &str) -> Result<(), Fail> {
    for row in rows.lines() {
        if !holds(alloc, row)? {
            return Err(Fail::new(row));
        }
    }
    Ok(())
}

/// Numbers that stop where they no longer fit.
const NUMBERS: &str = r#"+ ( MAX -1 ) = 9223372036854775806
+ ( MAX 1 ) ! Overflow
- ( -1 MAX ) = MIN
- ( 0 MIN ) ! Overflow
* ( -3 5 ) = -15
* ( MIN -1 ) ! Overflow
negate 7 = -7
negate MIN ! Overflow
abs -7 = 7
abs MIN ! Overflow"#;

/// Quotients are rounded towards zero.
const QUOTIENTS: &str = r#"/ ( -7 2 ) = -3
/ ( MIN -1 ) ! Overflow
/ ( 1 0 ) ! Division
rem ( -7 2 ) = -1
rem ( MIN -1 ) = 0
rem ( 1 0 ) ! Division"#;

const SHIFTS_AND_ROOTS: &str = r#"rshift ( -7 1 ) = -4
rshift ( -1 63 ) = -1
rshift ( 1 64 ) ! Range
lshift ( 3 61 ) = 6917529027641081856
lshift ( 1 63 ) ! Overflow
lshift ( -1 63 ) = MIN
lshift ( 1 -1 ) ! Range
isqrt MAX = 3037000499
isqrt -1 ! Range"#;

const COMPARISONS: &str = r#"== ( 2 2 ) = T
/= ( 2 2 ) = F
< ( -1 0 ) = T
> ( -1 0 ) = F
<= ( 3 3 ) = T
>= ( 2 3 ) = F
max ( -2 3 ) = 3
min ( -2 3 ) = -2
max ( 'a 'b ) = 'b
plusp 0 = F
minusp -1 = T
zerop 0 = T
oddp -3 = T
evenp -3 = F"#;

const BITS: &str = r#"and ( 6 3 ) = 2
or ( 6 3 ) = 7
xor ( 6 3 ) = 5
nand ( 6 3 ) = -3
nor ( 6 3 ) = -8
not 0 = -1
nand ( T T ) = F
xor ( T F ) = T
btoi T = 1"#;

/// The character with the code 0 is in the first row.
const CODES: &str = "code_char 0 = '\0\n\
    code_char 256 ! Code\n\
    code_char -1 ! Code";

#[test]
fn rows_hold(rt: HostRuntime) -> Result<(), Fail> {
    for rows in [
        NUMBERS,
        QUOTIENTS,
        SHIFTS_AND_ROOTS,
        COMPARISONS,
        BITS,
        CODES,
    ] {
        all_hold(rt.alloc(), rows)?;
    }
    Ok(())
}

#[test]
fn the_last_character_has_a_code(rt: HostRuntime) {
    let last: Result<Value, Trap> = Unary::CharCode.apply(&Value::<Global>::Char(255));
    assert!(rt; matches!(&last, Ok(Value::Int(255))));
}

#[test]
fn costs_add_up(rt: HostRuntime) {
    let first = Cost { work: 3, depth: 2 };
    let second = Cost { work: 4, depth: 5 };
    let (then, beside) = (first.then(second), first.beside(second));
    assert!(rt; then == Cost { work: 7, depth: 7 } && beside == Cost { work: 7, depth: 5 });
}
