//! The types of the built-in functions.

ghost use Rattle.std.specs.Prelude.{◌≡◌, IfOk};
ghost use Rattle.nesl_builtins.specs.FunctionTypes.{function_type, unary_type, binary_type, sequence_type};
ghost use Rattle.nesl_builtins.specs.FunctionTypes.{builtin_type};
ghost use Rattle.nesl_builtins.specs.Lists.{IsList};

use crate::builtin::Builtin;
use crate::shapes::{
    ANY, BOOL, BOOLS, CHAR, INT, INTS, JOINED, PIECES, SEPARATE, SEQUENCE, SEQUENCE_WITH_BOOLS,
    SEQUENCE_WITH_INT, SEQUENCE_WITH_INTS, SEQUENCE_WITH_ITEM, SEQUENCE_WITH_ITEMS, THREE_INTS,
    TWO, TWO_INTS, TWO_SEQUENCES, WITH_INT, last,
};
use nesl_scalars::{Binary, Unary};
use nesl_seqs_base::seq_fn::SeqFn;
use nesl_types::{Class, Part, Scheme, Ty};
use nesl_types_shared::{Bank, Shape};
use std::alloc::{AllocError, Global};

/// What a built-in function takes.
pub fn takes(builtin: Builtin) -> Part<'static>
    ensures { result ≡ (builtin_type builtin).argument }
{
    match builtin {
        Builtin::OfOne(function) => last(taken_by_one(function)),
        Builtin::OfTwo(function) => last(taken_by_two(function)),
        Builtin::OfSequences(function) => last(taken_by_sequences(function)),
    }
}

/// What a built-in function gives.
pub fn gives(builtin: Builtin) -> Part<'static>
    ensures { result ≡ (builtin_type builtin).result }
{
    match builtin {
        Builtin::OfOne(function) => last(given_by_one(function)),
        Builtin::OfTwo(function) => last(given_by_two(function)),
        Builtin::OfSequences(function) => last(given_by_sequences(function)),
    }
}

/// The class of each variable of what a built-in function takes and gives.
pub fn classes(builtin: Builtin) -> &'static [Class]
    ensures { result.now ≡ (builtin_type builtin).classes }
{
    match builtin {
        Builtin::OfOne(function) => classes_of_one(function),
        Builtin::OfTwo(function) => classes_of_two(function),
        Builtin::OfSequences(function) => classes_of_sequences(function),
    }
}

/// The type of a built-in function.
pub fn scheme(alloc: Global, builtin: Builtin) -> Result<Scheme, AllocError>
    ensures { IfOk result (λ s. function_type s ≡ builtin_type builtin) }
{
    let argument = copy(alloc, &takes(builtin))?;
    let given = copy(alloc, &gives(builtin))?;
    let classes = Vec::from_slice(alloc, classes(builtin))?;
    Ok(Scheme {
        argument,
        result: given,
        classes,
    })
}

/// A type of its own that is a part of another.
fn copy(alloc: Global, part: &Part<'_>) -> Result<Ty, AllocError>
    ensures { IfOk result (λ t. t ≡ part.now) }
{
    let mut bank = Bank::new(alloc);
    let place = part.put(alloc, &mut bank, &[])?;
    Ty::read(alloc, &bank, place)
}

fn taken_by_one(function: Unary) -> &'static [Shape]
    ensures { IsList result.now (unary_type function).argument }
{
    match function {
        Unary::Not | Unary::Plusp | Unary::Minusp | Unary::Zerop | Unary::Negate | Unary::Abs => {
            &ANY
        }
        Unary::Oddp | Unary::Evenp | Unary::Isqrt | Unary::CodeChar => &INT,
        Unary::Btoi => &BOOL,
        Unary::CharCode => &CHAR,
    }
}

fn given_by_one(function: Unary) -> &'static [Shape]
    ensures { IsList result.now (unary_type function).result }
{
    match function {
        Unary::Not | Unary::Negate | Unary::Abs => &ANY,
        Unary::Plusp | Unary::Minusp | Unary::Zerop | Unary::Oddp | Unary::Evenp => &BOOL,
        Unary::Isqrt | Unary::Btoi | Unary::CharCode => &INT,
        Unary::CodeChar => &CHAR,
    }
}

fn classes_of_one(function: Unary) -> &'static [Class]
    ensures { result.now ≡ (unary_type function).classes }
{
    match function {
        Unary::Not => &[Class::Logical],
        Unary::Plusp | Unary::Minusp | Unary::Zerop | Unary::Negate | Unary::Abs => {
            &[Class::Number]
        }
        Unary::Oddp
        | Unary::Evenp
        | Unary::Isqrt
        | Unary::Btoi
        | Unary::CharCode
        | Unary::CodeChar => &[],
    }
}

fn taken_by_two(function: Binary) -> &'static [Shape]
    ensures { IsList result.now (binary_type function).argument }
{
    match function {
        Binary::Rem | Binary::Lshift | Binary::Rshift => &TWO_INTS,
        Binary::And
        | Binary::Or
        | Binary::Xor
        | Binary::Nand
        | Binary::Nor
        | Binary::Equal
        | Binary::Unequal
        | Binary::Less
        | Binary::Greater
        | Binary::AtMost
        | Binary::AtLeast
        | Binary::Add
        | Binary::Subtract
        | Binary::Multiply
        | Binary::Divide
        | Binary::Max
        | Binary::Min => &TWO,
    }
}

fn given_by_two(function: Binary) -> &'static [Shape]
    ensures { IsList result.now (binary_type function).result }
{
    match function {
        Binary::Equal
        | Binary::Unequal
        | Binary::Less
        | Binary::Greater
        | Binary::AtMost
        | Binary::AtLeast => &BOOL,
        Binary::Rem | Binary::Lshift | Binary::Rshift => &INT,
        Binary::And
        | Binary::Or
        | Binary::Xor
        | Binary::Nand
        | Binary::Nor
        | Binary::Add
        | Binary::Subtract
        | Binary::Multiply
        | Binary::Divide
        | Binary::Max
        | Binary::Min => &ANY,
    }
}

fn classes_of_two(function: Binary) -> &'static [Class]
    ensures { result.now ≡ (binary_type function).classes }
{
    match function {
        Binary::And | Binary::Or | Binary::Xor | Binary::Nand | Binary::Nor => &[Class::Logical],
        Binary::Equal
        | Binary::Unequal
        | Binary::Less
        | Binary::Greater
        | Binary::AtMost
        | Binary::AtLeast
        | Binary::Max
        | Binary::Min => &[Class::Ordinal],
        Binary::Add | Binary::Subtract | Binary::Multiply | Binary::Divide => &[Class::Number],
        Binary::Rem | Binary::Lshift | Binary::Rshift => &[],
    }
}

fn taken_by_sequences(function: SeqFn) -> &'static [Shape]
    ensures { IsList result.now (sequence_type function).argument }
{
    match function {
        SeqFn::Length
        | SeqFn::Sum
        | SeqFn::MaxIndex
        | SeqFn::MinIndex
        | SeqFn::MaxVal
        | SeqFn::MinVal
        | SeqFn::Reverse
        | SeqFn::OddElts
        | SeqFn::EvenElts
        | SeqFn::PlusScan
        | SeqFn::OrScan
        | SeqFn::AndScan
        | SeqFn::Bottop => &SEQUENCE,
        SeqFn::Flatten => &PIECES,
        SeqFn::ElementAt | SeqFn::Take | SeqFn::Drop | SeqFn::Rotate => &SEQUENCE_WITH_INT,
        SeqFn::Append | SeqFn::Interleave => &TWO_SEQUENCES,
        SeqFn::Gather | SeqFn::Permute | SeqFn::Partition => &SEQUENCE_WITH_INTS,
        SeqFn::Split => &SEQUENCE_WITH_BOOLS,
        SeqFn::Write => &SEQUENCE_WITH_ITEMS,
        SeqFn::Rep => &SEQUENCE_WITH_ITEM,
        SeqFn::Dist => &WITH_INT,
        SeqFn::Eql => &TWO,
        SeqFn::Any | SeqFn::All | SeqFn::Count => &BOOLS,
        SeqFn::Index => &INT,
        SeqFn::Range => &TWO_INTS,
        SeqFn::RangeBy => &THREE_INTS,
        SeqFn::Zip => &SEPARATE,
        SeqFn::Unzip => &JOINED,
    }
}

fn given_by_sequences(function: SeqFn) -> &'static [Shape]
    ensures { IsList result.now (sequence_type function).result }
{
    match function {
        SeqFn::Length | SeqFn::MaxIndex | SeqFn::MinIndex | SeqFn::Count => &INT,
        SeqFn::Any | SeqFn::All | SeqFn::Eql => &BOOL,
        SeqFn::ElementAt | SeqFn::Sum | SeqFn::MaxVal | SeqFn::MinVal => &ANY,
        SeqFn::Index | SeqFn::Range | SeqFn::RangeBy => &INTS,
        SeqFn::Bottop | SeqFn::Split | SeqFn::Partition => &PIECES,
        SeqFn::Reverse
        | SeqFn::OddElts
        | SeqFn::EvenElts
        | SeqFn::PlusScan
        | SeqFn::OrScan
        | SeqFn::AndScan
        | SeqFn::Flatten
        | SeqFn::Take
        | SeqFn::Drop
        | SeqFn::Rotate
        | SeqFn::Append
        | SeqFn::Interleave
        | SeqFn::Gather
        | SeqFn::Permute
        | SeqFn::Write
        | SeqFn::Rep
        | SeqFn::Dist => &SEQUENCE,
        SeqFn::Zip => &JOINED,
        SeqFn::Unzip => &SEPARATE,
    }
}

fn classes_of_sequences(function: SeqFn) -> &'static [Class]
    ensures { result.now ≡ (sequence_type function).classes }
{
    match function {
        SeqFn::Sum | SeqFn::PlusScan => &[Class::Number],
        SeqFn::OrScan | SeqFn::AndScan => &[Class::Logical],
        SeqFn::MaxIndex | SeqFn::MinIndex | SeqFn::MaxVal | SeqFn::MinVal => &[Class::Ordinal],
        SeqFn::Any | SeqFn::All | SeqFn::Count | SeqFn::Index | SeqFn::Range | SeqFn::RangeBy => {
            &[]
        }
        SeqFn::Zip | SeqFn::Unzip => &[Class::Any, Class::Any],
        SeqFn::Length
        | SeqFn::ElementAt
        | SeqFn::Append
        | SeqFn::Dist
        | SeqFn::Bottop
        | SeqFn::Take
        | SeqFn::Drop
        | SeqFn::Reverse
        | SeqFn::Rotate
        | SeqFn::Rep
        | SeqFn::Eql
        | SeqFn::Flatten
        | SeqFn::OddElts
        | SeqFn::EvenElts
        | SeqFn::Interleave
        | SeqFn::Gather
        | SeqFn::Permute
        | SeqFn::Split
        | SeqFn::Partition
        | SeqFn::Write => &[Class::Any],
    }
}
