//! Columns of one leaf.
ghost use Rattle.std.specs.Prelude.{◌≡◌, IfSome, replicate};
ghost use Rattle.nesl_values.specs.Tree.{int, boolean, character};
ghost use Rattle.nesl_values.specs.View.{tree_of};
ghost use Rattle.nesl_eval_columns.specs.Columns.{leaves_of};

use nesl_eval_columns::Column;
use nesl_values::Value;
use std::alloc::Allocator;

// An item `count` times.
fn repeated<X: Copy, A: Allocator>(item: X, count: usize, alloc: A) -> Option<Vec<X, A>>
    ensures { IfSome result (λ v. v.items ≡ replicate count item) }
{
    let mut items = Vec::new(alloc);
    match items.resize(count, item) {
        Ok(()) => Some(items),
        Err(_) => None,
    }
}

#[tactic(auto, using(crate::proofs::Places::map_replicate))]
fn ints<A: Allocator>(n: i64, count: usize, alloc: A) -> Option<Column<A>>
    ensures { IfSome result (λ c. leaves_of c ≡ replicate count (int n)) }
{
    Some(Column::Ints(repeated(n, count, alloc)?))
}

#[tactic(auto, using(crate::proofs::Places::map_replicate))]
fn bools<A: Allocator>(b: bool, count: usize, alloc: A) -> Option<Column<A>>
    ensures { IfSome result (λ c. leaves_of c ≡ replicate count (boolean b)) }
{
    Some(Column::Bools(repeated(b, count, alloc)?))
}

#[tactic(auto, using(crate::proofs::Places::map_replicate))]
fn chars<A: Allocator>(c: u8, count: usize, alloc: A) -> Option<Column<A>>
    ensures { IfSome result (λ d. leaves_of d ≡ replicate count (character c)) }
{
    Some(Column::Chars(repeated(c, count, alloc)?))
}

/// The column of a value at `count` turns, if it is a leaf.
pub fn column_of<A: Allocator, B: Allocator>(
    value: &Value<A>,
    count: usize,
    alloc: B,
) -> Option<Column<B>>
    ensures { IfSome result (λ c. leaves_of c ≡ replicate count (tree_of value.now)) }
{
    match value {
        Value::Int(n) => ints(*n, count, alloc),
        Value::Bool(b) => bools(*b, count, alloc),
        Value::Char(c) => chars(*c, count, alloc),
        Value::Shared(_) => None,
    }
}
