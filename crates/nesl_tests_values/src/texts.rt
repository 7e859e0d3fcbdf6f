//! The texts of values.
use crate::desk::value_of;
use crate::made::{session, type_of};
use nesl_reply::value_text;
use nesl_types::{Context, Ty};
use nesl_values::Value;
use std::alloc::{AllocError, Global};

/// Values, their types and their texts.
const TEXTS: &str = r#"'10 : C => code_char(10)
'126 : C => `~
-9223372036854775808 : I => -9223372036854775808
F : B => F
c" : C S => [`"]
e : C S => ""
e : I S => []
i1,-2 : I S => [1, -2]
bTF : B S => [T, F]
'97 '32 s : C S => "a "
'97 '10 s : C S => [`a, code_char(10)]
ca e s : C S S => ["a", ""]
e i1 s : I S S => [[], [1]]
1 2 p 3 p : I I P I P => ((1, 2), 3)
1 2 3 p p : I I I P P => (1, 2, 3)
3 4 p t0 : N0 => point(3, 4)
1 2 p 3 p t1 : N1 => r((1, 2), 3)
1 2 p t0 3 4 p t0 s t2 : N2 => q([point(1, 2), point(3, 4)])"#;

fn is_text(
    alloc: Global,
    context: &Context<u8>,
    value: &Value,
    ty: &Ty,
    wanted: &str,
) -> Result<bool, AllocError> {
    let text = value_text(alloc, value, ty, context)?;
    Ok(text.as_slice() == wanted.as_bytes())
}

// Whether a row `SCRIPT : TYPE => TEXT` holds.
fn holds(alloc: Global, context: &Context<u8>, row: &str) -> Result<bool, AllocError> {
    let (value, wanted) = row.split_once(" => ").unwrap_or((row, ""));
    let (value, ty) = value.split_once(" : ").unwrap_or((value, ""));
    let value = value_of(alloc, value)?;
    is_text(alloc, context, &value, &type_of(alloc, ty)?, wanted)
}

#[test]
fn of_each_type(rt: HostRuntime) {
    let context = session(rt.alloc()).expect(&rt, "memory");
    for row in TEXTS.lines() {
        assert!(rt;
            holds(rt.alloc(), &context, row).expect(&rt, "memory"),
            "{row}"
        );
    }
}
