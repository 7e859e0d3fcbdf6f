//! Charges, and paths of charges.
ghost use Rattle.std.specs.Prelude.{◌≡◌, map};
ghost use Rattle.nesl_cost_meaning.specs.Cost.{depths};
ghost use Rattle.nesl_cost_rows.specs.Charges.{charge_of};

use nesl_lex::token::Span;

/// What is charged at a place: how often it was entered, its work and its depth; or, at no cost, the place of the turn
/// that decides there.
#[derive(Clone, Copy)]
pub struct Charge<'a> {
    /// The name of the function whose text has the span, or `None` for the line.
    pub home: Option<&'a [u8]>,
    pub span: Span,
    pub entries: u64,
    pub work: u64,
    pub depth: u64,
    pub decides: Option<u64>,
}

/// Charges that depend on each other, and their depth.
#[derive(Drop)]
pub struct Path<'a> {
    pub(crate) charges: Vec<Charge<'a>>,
    pub(crate) depth: u64,
    ghost sums: { depths (map charge_of charges.items) ≡ depth },
}
