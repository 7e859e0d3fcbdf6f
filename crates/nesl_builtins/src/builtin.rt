//! Which built-in function a name or a sign is.

ghost use Rattle.std.specs.Prelude.{◌≡◌, ◌∷◌, ℕ, List, map};
ghost use Rattle.nesl_builtins.specs.Named.{look_up, builtin_named, infix_builtin, prefix_builtin};

use nesl_scalars::{Binary, Unary};
use nesl_seqs_base::seq_fn::SeqFn;
use nesl_syntax_tree::tree::{Operator, Prefix};

/// A built-in function. It takes one value: two arguments are a pair, three are `(a, (b, c))`.
#[derive(Clone, Copy, PartialEq, Eq)]
pub enum Builtin {
    /// A function of one scalar.
    OfOne(Unary),
    /// A function of two scalars.
    OfTwo(Binary),
    /// A function on sequences.
    OfSequences(SeqFn),
}

/// The built-in functions whose names begin with a to c.
const TO_C: [(&[u8], Builtin); 9] = [
    (b"abs", Builtin::OfOne(Unary::Abs)),
    (b"btoi", Builtin::OfOne(Unary::Btoi)),
    (b"char_code", Builtin::OfOne(Unary::CharCode)),
    (b"code_char", Builtin::OfOne(Unary::CodeChar)),
    (b"any", Builtin::OfSequences(SeqFn::Any)),
    (b"all", Builtin::OfSequences(SeqFn::All)),
    (b"count", Builtin::OfSequences(SeqFn::Count)),
    (b"and_scan", Builtin::OfSequences(SeqFn::AndScan)),
    (b"bottop", Builtin::OfSequences(SeqFn::Bottop)),
];

/// The built-in functions whose names begin with d to l.
const TO_L: [(&[u8], Builtin); 10] = [
    (b"evenp", Builtin::OfOne(Unary::Evenp)),
    (b"isqrt", Builtin::OfOne(Unary::Isqrt)),
    (b"lshift", Builtin::OfTwo(Binary::Lshift)),
    (b"dist", Builtin::OfSequences(SeqFn::Dist)),
    (b"index", Builtin::OfSequences(SeqFn::Index)),
    (b"flatten", Builtin::OfSequences(SeqFn::Flatten)),
    (b"drop", Builtin::OfSequences(SeqFn::Drop)),
    (b"even_elts", Builtin::OfSequences(SeqFn::EvenElts)),
    (b"interleave", Builtin::OfSequences(SeqFn::Interleave)),
    (b"eql", Builtin::OfSequences(SeqFn::Eql)),
];

/// The built-in functions whose names begin with m to o.
const TO_O: [(&[u8], Builtin); 12] = [
    (b"not", Builtin::OfOne(Unary::Not)),
    (b"minusp", Builtin::OfOne(Unary::Minusp)),
    (b"oddp", Builtin::OfOne(Unary::Oddp)),
    (b"negate", Builtin::OfOne(Unary::Negate)),
    (b"max", Builtin::OfTwo(Binary::Max)),
    (b"min", Builtin::OfTwo(Binary::Min)),
    (b"max_val", Builtin::OfSequences(SeqFn::MaxVal)),
    (b"min_val", Builtin::OfSequences(SeqFn::MinVal)),
    (b"max_index", Builtin::OfSequences(SeqFn::MaxIndex)),
    (b"min_index", Builtin::OfSequences(SeqFn::MinIndex)),
    (b"or_scan", Builtin::OfSequences(SeqFn::OrScan)),
    (b"odd_elts", Builtin::OfSequences(SeqFn::OddElts)),
];

/// The built-in functions whose names begin with p to r.
const TO_R: [(&[u8], Builtin); 9] = [
    (b"plusp", Builtin::OfOne(Unary::Plusp)),
    (b"rem", Builtin::OfTwo(Binary::Rem)),
    (b"rshift", Builtin::OfTwo(Binary::Rshift)),
    (b"plus_scan", Builtin::OfSequences(SeqFn::PlusScan)),
    (b"partition", Builtin::OfSequences(SeqFn::Partition)),
    (b"reverse", Builtin::OfSequences(SeqFn::Reverse)),
    (b"rotate", Builtin::OfSequences(SeqFn::Rotate)),
    (b"permute", Builtin::OfSequences(SeqFn::Permute)),
    (b"rep", Builtin::OfSequences(SeqFn::Rep)),
];

/// The built-in functions whose names begin with s on.
const TO_Z: [(&[u8], Builtin); 6] = [
    (b"zerop", Builtin::OfOne(Unary::Zerop)),
    (b"sum", Builtin::OfSequences(SeqFn::Sum)),
    (b"split", Builtin::OfSequences(SeqFn::Split)),
    (b"take", Builtin::OfSequences(SeqFn::Take)),
    (b"zip", Builtin::OfSequences(SeqFn::Zip)),
    (b"unzip", Builtin::OfSequences(SeqFn::Unzip)),
];

/// What the table has beside the name.
fn entry(mut table: &[(&[u8], Builtin)], name: &[u8]) -> Option<Builtin>
    ensures { result ≡ look_up (map (λ e. (e.0.now, e.1)) table.entry.now) name.now }
{
    while let [(known, builtin), rest @ ..] = table {
        if name == *known {
            return Some(*builtin);
        }
        table = rest;
    }
    None
}

/// The built-in functions whose names begin with letters near this one, so that few names are gone over.
fn names_near(first: u8) -> &'static [(&'static [u8], Builtin)]
    ensures { (rest : List ℕ) → builtin_named (first ∷ rest)
        ≡ look_up (map (λ e. (e.0.now, e.1)) result.now) (first ∷ rest) }
{
    if first < b'm' {
        if first < b'd' { &TO_C } else { &TO_L }
    } else if first < b'p' {
        &TO_O
    } else if first < b's' {
        &TO_R
    } else {
        &TO_Z
    }
}

/// The built-in function that is called by the name.
pub fn named(name: &[u8]) -> Option<Builtin>
    ensures { result ≡ builtin_named name.now }
{
    match name {
        [] => None,
        [first, ..] => entry(names_near(*first), name),
    }
}

/// The built-in function that the operator between two expressions is. The two are a pair for it.
pub fn of_infix(operator: Operator) -> Builtin
    ensures { result ≡ infix_builtin operator }
{
    match operator {
        Operator::Or => Builtin::OfTwo(Binary::Or),
        Operator::Nor => Builtin::OfTwo(Binary::Nor),
        Operator::Xor => Builtin::OfTwo(Binary::Xor),
        Operator::And => Builtin::OfTwo(Binary::And),
        Operator::Nand => Builtin::OfTwo(Binary::Nand),
        Operator::Equal => Builtin::OfTwo(Binary::Equal),
        Operator::NotEqual => Builtin::OfTwo(Binary::Unequal),
        Operator::Less => Builtin::OfTwo(Binary::Less),
        Operator::Greater => Builtin::OfTwo(Binary::Greater),
        Operator::LessOrEqual => Builtin::OfTwo(Binary::AtMost),
        Operator::GreaterOrEqual => Builtin::OfTwo(Binary::AtLeast),
        Operator::Plus => Builtin::OfTwo(Binary::Add),
        Operator::Minus => Builtin::OfTwo(Binary::Subtract),
        Operator::Append => Builtin::OfSequences(SeqFn::Append),
        Operator::Write => Builtin::OfSequences(SeqFn::Write),
        Operator::Times => Builtin::OfTwo(Binary::Multiply),
        Operator::Divide => Builtin::OfTwo(Binary::Divide),
        Operator::Read => Builtin::OfSequences(SeqFn::Gather),
    }
}

/// The built-in function that the operator before an expression is.
pub fn of_prefix(operator: Prefix) -> Builtin
    ensures { result ≡ prefix_builtin operator }
{
    match operator {
        Prefix::Length => Builtin::OfSequences(SeqFn::Length),
        Prefix::Negate => Builtin::OfOne(Unary::Negate),
    }
}
