//! Why a line is refused.

ghost use Rattle.std.specs.Prelude.{◌≡◌, ◌++◌, OnOk};
ghost use Rattle.nesl_reply.specs.Faults.{number_of, fault_of, fault_words, work_text, no_work, span_text, stop_text};
ghost use Rattle.nesl_reply.specs.Faults.{fault_text};

use crate::writing::{write_bytes, write_number};
use nesl_lex::token::Span;
use nesl_scalars::Trap;
use std::alloc::AllocError;

/// Where an evaluation stopped, and the work that was spent until then.
#[derive(Clone, Copy, PartialEq, Eq, Debug)]
pub struct Stop {
    pub span: Span,
    pub work: u64,
}

/// Why a line is refused, and the details that its reply reports. A line with the fault `Long`, `Transcript` or
/// `Memory` isn't recorded. `User` and `Busy` belong to no session.
#[derive(Clone, Copy, PartialEq, Eq)]
pub enum Fault {
    Long,
    /// The first byte at which no token, blank or whole comment stands.
    Lexical(usize),
    Syntax,
    Nested,
    /// Where the first unknown name stands.
    Unknown(Span),
    IllTyped,
    Ambiguous,
    Retype,
    Taken,
    Overflow(Stop),
    Division(Stop),
    Range(Stop),
    Code(Stop),
    Length(Stop),
    Empty(Stop),
    Permutation(Stop),
    Count(Stop),
    Stride(Stop),
    Deep(Stop),
    Large(Stop),
    /// The budget, all of which is spent.
    Work(u64),
    /// The work that was spent.
    Elements(u64),
    Transcript,
    Memory,
    User,
    Busy,
}

impl Fault {
    /// The fault of an evaluation that has no value.
    pub const fn of_trap(trap: Trap, stop: Stop) -> Fault
        ensures { result ≡ fault_of trap stop }
    {
        match trap {
            Trap::Overflow => Fault::Overflow(stop),
            Trap::Division => Fault::Division(stop),
            Trap::Range => Fault::Range(stop),
            Trap::Code => Fault::Code(stop),
            Trap::Length => Fault::Length(stop),
            Trap::Empty => Fault::Empty(stop),
            Trap::Permutation => Fault::Permutation(stop),
            Trap::Count => Fault::Count(stop),
            Trap::Stride => Fault::Stride(stop),
            Trap::Deep => Fault::Deep(stop),
            Trap::Large => Fault::Large(stop),
        }
    }

    /// The number of the fault, 1 to 26, in the order of the checks.
    pub const fn number(self) -> u8
        ensures { result ≡ number_of self }
    {
        match self {
            Fault::Long => 1,
            Fault::Lexical(_) => 2,
            Fault::Syntax => 3,
            Fault::Nested => 4,
            Fault::Unknown(_) => 5,
            Fault::IllTyped => 6,
            Fault::Ambiguous => 7,
            Fault::Retype => 8,
            Fault::Taken => 9,
            Fault::Overflow(_) => 10,
            Fault::Division(_) => 11,
            Fault::Range(_) => 12,
            Fault::Code(_) => 13,
            Fault::Length(_) => 14,
            Fault::Empty(_) => 15,
            Fault::Permutation(_) => 16,
            Fault::Count(_) => 17,
            Fault::Stride(_) => 18,
            Fault::Deep(_) => 19,
            Fault::Large(_) => 20,
            Fault::Work(_) => 21,
            Fault::Elements(_) => 22,
            Fault::Transcript => 23,
            Fault::Memory => 24,
            Fault::User => 25,
            Fault::Busy => 26,
        }
    }
}

// Writes ` (work W)`.
fn write_work(out: &mut Vec<u8>, work: u64) -> Result<(), AllocError>
    ensures { OnOk result (out.new.items ≡ out.old.items ++ work_text work) }
{
    write_bytes(out, b" (work ")?;
    write_number(out, work)?;
    write_bytes(out, b")")
}

// Writes a word, and ` (work 0)` after it.
fn write_plain(out: &mut Vec<u8>, word: &[u8]) -> Result<(), AllocError>
    ensures { OnOk result (out.new.items ≡ out.old.items ++ (word.now ++ no_work)) }
{
    write_bytes(out, word)?;
    write_bytes(out, b" (work 0)")
}

// Writes a word, and the work that was spent.
fn write_spent(out: &mut Vec<u8>, word: &[u8], work: u64) -> Result<(), AllocError>
    ensures { OnOk result (out.new.items ≡ out.old.items ++ (word.now ++ work_text work)) }
{
    write_bytes(out, word)?;
    write_work(out, work)
}

// Writes a word, where the evaluation stopped, and the work that was spent.
fn write_stop(out: &mut Vec<u8>, word: &[u8], stop: Stop) -> Result<(), AllocError>
    ensures { OnOk result (out.new.items ≡ out.old.items ++ (word.now ++ stop_text stop)) }
{
    write_bytes(out, word)?;
    write_span(out, stop.span)?;
    write_work(out, stop.work)
}

// Writes ` at S..E`.
fn write_span(out: &mut Vec<u8>, span: Span) -> Result<(), AllocError>
    ensures { OnOk result (out.new.items ≡ out.old.items ++ span_text span) }
{
    write_bytes(out, b" at ")?;
    write_number(out, span.start as u64)?;
    write_bytes(out, b"..")?;
    write_number(out, span.end as u64)
}

// Writes the words of a lexical fault, with the index of the byte at which no token begins.
fn write_lexical(out: &mut Vec<u8>, at: usize) -> Result<(), AllocError>
    ensures { OnOk result (out.new.items ≡ out.old.items ++ fault_words (Fault.Lexical at)) }
{
    write_bytes(out, b"lexical at ")?;
    write_number(out, at as u64)?;
    write_bytes(out, b" (work 0)")
}

// Writes the words of a fault for an unknown name, with the name's span.
fn write_unknown(out: &mut Vec<u8>, span: Span) -> Result<(), AllocError>
    ensures { OnOk result (out.new.items ≡ out.old.items ++ fault_words (Fault.Unknown span)) }
{
    write_bytes(out, b"unknown")?;
    write_span(out, span)?;
    write_bytes(out, b" (work 0)")
}

// Writes all of a fault but the leading `fault `.
fn write_words(out: &mut Vec<u8>, fault: Fault) -> Result<(), AllocError>
    ensures { OnOk result (out.new.items ≡ out.old.items ++ fault_words fault) }
{
    match fault {
        Fault::Long => write_plain(out, b"long"),
        Fault::Lexical(at) => write_lexical(out, at),
        Fault::Syntax => write_plain(out, b"syntax"),
        Fault::Nested => write_plain(out, b"nested"),
        Fault::Unknown(span) => write_unknown(out, span),
        Fault::IllTyped => write_plain(out, b"type"),
        Fault::Ambiguous => write_plain(out, b"ambiguous"),
        Fault::Retype => write_plain(out, b"retype"),
        Fault::Taken => write_plain(out, b"taken"),
        Fault::Overflow(stop) => write_stop(out, b"overflow", stop),
        Fault::Division(stop) => write_stop(out, b"division", stop),
        Fault::Range(stop) => write_stop(out, b"range", stop),
        Fault::Code(stop) => write_stop(out, b"code", stop),
        Fault::Length(stop) => write_stop(out, b"length", stop),
        Fault::Empty(stop) => write_stop(out, b"empty", stop),
        Fault::Permutation(stop) => write_stop(out, b"permutation", stop),
        Fault::Count(stop) => write_stop(out, b"count", stop),
        Fault::Stride(stop) => write_stop(out, b"stride", stop),
        Fault::Deep(stop) => write_stop(out, b"deep", stop),
        Fault::Large(stop) => write_stop(out, b"large", stop),
        Fault::Work(work) => write_spent(out, b"work", work),
        Fault::Elements(work) => write_spent(out, b"elements", work),
        Fault::Transcript => write_plain(out, b"transcript"),
        Fault::Memory => write_plain(out, b"memory"),
        Fault::User => write_bytes(out, b"user"),
        Fault::Busy => write_bytes(out, b"busy"),
    }
}

pub(crate) fn write_fault(out: &mut Vec<u8>, fault: Fault) -> Result<(), AllocError>
    ensures { OnOk result (out.new.items ≡ out.old.items ++ fault_text fault) }
{
    write_bytes(out, b"fault ")?;
    write_words(out, fault)
}
