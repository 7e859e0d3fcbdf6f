//! Sequences from numbers.
use crate::told::{price_of, price_within};
use nesl_seqs::{Argument, SeqFn};
use nesl_values::Value;
use std::test::Fail;

pub const ROWS: &str = r#"% Copies of a value
dist ( 7 0 ) = [] : 1 1 1
dist ( 7 1 ) = [7] : 2 1 2
dist ( 7 3 ) = [7,7,7] : 4 1 4
dist ( T 2 ) = {TT} : 3 1 3
dist ( 'a 3 ) = "aaa" : 4 1 4
dist ( [1,2] 0 ) = [] : 1 1 1
dist ( [1,2] 1 ) = < [1,2] > : 4 1 4
dist ( "ab" 2 ) = < "ab" "ab" > : 7 1 7
dist ( ( 1 T ) 2 ) = < ( 1 T ) ( 1 T ) > : 7 1 7
dist ( [] 2 ) = < [] [] > : 3 1 3
dist ( 7 -1 ) ! Length
dist ( "ab" -1 ) ! Length
dist ( 7 MIN ) ! Length
% Numbers below an end
range ( 5 5 ) = [] : 1 1 1
range ( 5 4 ) = [] : 1 1 1
range ( 3 4 ) = [3] : 2 1 2
range ( -2 3 ) = [-2,-1,0,1,2] : 6 1 6
range ( 9223372036854775806 MAX ) = [9223372036854775806] : 2 1 2
range ( MIN -9223372036854775806 ) = [MIN,-9223372036854775807] : 3 1 3
% Numbers in steps
range_by ( 5 ( 1 2 ) ) = [] : 1 1 1
range_by ( 5 ( 5 2 ) ) = [] : 1 1 1
range_by ( 1 ( 2 7 ) ) = [1] : 2 1 2
range_by ( 1 ( 6 2 ) ) = [1,3,5] : 4 1 4
range_by ( 1 ( 7 2 ) ) = [1,3,5] : 4 1 4
range_by ( 1 ( 8 2 ) ) = [1,3,5,7] : 5 1 5
range_by ( MIN ( MAX MAX ) ) = [MIN,-1,9223372036854775806] : 4 1 4
range_by ( 1 ( 6 0 ) ) ! Stride
range_by ( 6 ( 1 -1 ) ) ! Stride
range_by ( 1 ( 6 MIN ) ) ! Stride
% First whole numbers
index 0 = [] : 1 1 1
index 1 = [0] : 2 1 2
index 4 = [0,1,2,3] : 5 1 5
index -1 ! Length
index MIN ! Length"#;

// The nodes of many copies of a number.
const MANY: u128 = 1_000_000_000_001;

#[test]
fn a_price_alone(rt: HostRuntime) -> Result<(), Fail> {
    let copies = Value::pair(rt.alloc(), Value::Int(0), Value::Int(1_000_000_000_000))?;
    let whole = price_of(MANY, 1, MANY);
    let told = price_within(SeqFn::Dist, Argument::One(&copies), MANY);
    let less = price_within(SeqFn::Dist, Argument::One(&copies), MANY - 1);
    assert!(rt; told == Ok(Some(whole)) && less == Ok(None));
    Ok(())
}
