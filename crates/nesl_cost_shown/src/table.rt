//! What is charged at each place.
ghost use Rattle.std.specs.Prelude.{◌≡◌, ◌+◌, ◌++◌, ◌∷◌, [], IsTrue, IfOk, OnOk, map, option_map};
ghost use Rattle.std.specs.List.Sorted.{IsPermutation};
ghost use Rattle.nesl_cost_meaning.specs.Cost.{works, depths};
ghost use Rattle.nesl_cost_rows.specs.Charges.{charge_of};
ghost use Rattle.nesl_cost_rows.specs.Readings.{charges_in};
ghost use Rattle.nesl_cost_shown.specs.Tables.{Joins, SameDepth, SameWork, depth_alone, times, work_alone};

use nesl_cost_rows::charge::Charge;
use nesl_cost_rows::reading::Charges;
use std::alloc::{AllocError, Global};

/// What is charged at each place altogether, and the turns that decide.
///
/// Rows are in the order of their homes, the line first, then of their spans. The depth of a row is what is charged
/// there on the critical path. A turn that decides is a row without work or depth, and has been entered as often as it
/// decides.
#[derive(Drop)]
pub struct PlaceTable<'a> {
    rows: Vec<Charge<'a>>,
    work: u64,
    depth: u64,
    ghost works_add_up: { works (map charge_of rows.items) ≡ work },
    ghost depths_add_up: { depths (map charge_of rows.items) ≡ depth },
}

impl<'a> PlaceTable<'a> {
    pub fn rows(&self) -> &[Charge<'a>]
        ensures { result.now ≡ self.now.rows.items }
    {
        self.rows.as_slice()
    }

    /// The sum of the rows' works.
    pub fn work(&self) -> u64
        ensures { result ≡ works (map charge_of self.now.rows.items) }
    {
        self.work
    }

    /// The sum of the rows' depths.
    pub fn depth(&self) -> u64
        ensures { result ≡ depths (map charge_of self.now.rows.items) }
    {
        self.depth
    }
}

/// The table of an evaluation's charges. `Err` is also for sums above 64 bits.
pub fn table_of<'a>(alloc: Global, charges: &Charges<'a>) -> Result<PlaceTable<'a>, AllocError>
    ensures work { IfOk result
        (λ t. SameWork (map charge_of t.rows.items) (map charge_of charges.now.all.items)) }
    ensures depth { IfOk result (λ t. SameDepth (map charge_of t.rows.items) (charges_in charges.now.path)) }
{
    let mut pieces = pieces_of(alloc, charges)?;
    sort(&mut pieces);
    let rows = rows_of(alloc, pieces.as_slice())?;
    let work = work_of(rows.as_slice())?;
    let depth = depth_of(rows.as_slice())?;
    Ok(PlaceTable { rows, work, depth })
}

// All charges without their depths, and those on the critical path without their works.
fn pieces_of<'a>(alloc: Global, charges: &Charges<'a>) -> Result<Vec<Charge<'a>>, AllocError>
    ensures { IfOk result (λ r. map charge_of r.items
        ≡ map work_alone (map charge_of charges.now.all.items) ++ map depth_alone (charges_in charges.now.path)) }
{
    let mut pieces = Vec::new(alloc);
    add_works(&mut pieces, charges.all.as_slice())?;
    add_depths(&mut pieces, charges.path.charges())?;
    Ok(pieces)
}

fn add_works<'a>(pieces: &mut Vec<Charge<'a>>, charges: &[Charge<'a>]) -> Result<(), AllocError>
    ensures { OnOk result (map charge_of pieces.new.items
        ≡ map charge_of pieces.old.items ++ map work_alone (map charge_of charges.now)) }
{
    for charge in charges {
        pieces.push(work_alone(charge))?;
    }
    Ok(())
}

fn add_depths<'a>(pieces: &mut Vec<Charge<'a>>, charges: &[Charge<'a>]) -> Result<(), AllocError>
    ensures { OnOk result (map charge_of pieces.new.items
        ≡ map charge_of pieces.old.items ++ map depth_alone (map charge_of charges.now)) }
{
    for charge in charges {
        pieces.push(depth_alone(charge))?;
    }
    Ok(())
}

fn work_alone<'a>(charge: &Charge<'a>) -> Charge<'a>
    ensures { charge_of result ≡ work_alone (charge_of charge.now) }
{
    Charge {
        home: charge.home,
        span: charge.span,
        entries: charge.entries,
        work: charge.work,
        depth: 0,
        decides: charge.decides,
    }
}

fn depth_alone<'a>(charge: &Charge<'a>) -> Charge<'a>
    ensures { charge_of result ≡ depth_alone (charge_of charge.now) }
{
    Charge {
        home: charge.home,
        span: charge.span,
        entries: times(charge.decides),
        work: 0,
        depth: charge.depth,
        decides: charge.decides,
    }
}

fn times(decides: Option<u64>) -> u64
    ensures { result ≡ times decides }
{
    match decides {
        Some(_) => 1,
        None => 0,
    }
}

/// Where a charge is, so that charges at one place are side by side in order.
type Key<'a> = (Option<&'a [u8]>, usize, usize, Option<u64>);

fn key_of<'a>(charge: &Charge<'a>) -> Key<'a> {
    (
        charge.home,
        charge.span.start,
        charge.span.end,
        charge.decides,
    )
}

fn sort(pieces: &mut Vec<Charge<'_>>)
    ensures { IsPermutation pieces.old.items pieces.new.items }
{
    pieces
        .as_mut_slice()
        .sort_unstable_by_key(|piece| key_of(piece));
}

// Joins neighbours that are at one place.
fn rows_of<'a>(alloc: Global, pieces: &[Charge<'a>]) -> Result<Vec<Charge<'a>>, AllocError>
    ensures work { IfOk result (λ r. SameWork (map charge_of r.items) (map charge_of pieces.now)) }
    ensures depth { IfOk result (λ r. SameDepth (map charge_of r.items) (map charge_of pieces.now)) }
{
    let mut rows = Vec::new(alloc);
    for piece in pieces {
        add(&mut rows, piece)?;
    }
    Ok(rows)
}

// Adds a charge to the last row, if it is at the same place, or else as a row of its own.
fn add<'a>(rows: &mut Vec<Charge<'a>>, piece: &Charge<'a>) -> Result<(), AllocError>
    ensures work { OnOk result (SameWork (map charge_of rows.new.items)
        (map charge_of rows.old.items ++ charge_of piece.now ∷ [])) }
    ensures depth { OnOk result (SameDepth (map charge_of rows.new.items)
        (map charge_of rows.old.items ++ charge_of piece.now ∷ [])) }
{
    let Some(last) = rows.pop() else {
        rows.push(*piece)?;
        return Ok(());
    };
    if is_beside(&last, piece) {
        let row = joined(&last, piece)?;
        rows.push(row)?;
        return Ok(());
    }
    rows.push(last)?;
    rows.push(*piece)?;
    Ok(())
}

// Whether two charges are at one place, and of one kind.
fn is_beside(one: &Charge<'_>, other: &Charge<'_>) -> bool
    ensures { IsTrue result → (charge_of one.now).place ≡ (charge_of other.now).place }
{
    is_home(one.home, other.home) && one.span == other.span && one.decides == other.decides
}

pub(crate) fn is_home(one: Option<&[u8]>, other: Option<&[u8]>) -> bool
    ensures { IsTrue result → option_map (λ x. x.now) one.entry ≡ option_map (λ x. x.now) other.entry }
{
    match (one, other) {
        (Some(one), Some(other)) => one == other,
        (None, None) => true,
        _ => false,
    }
}

// Two charges at one place, together.
fn joined<'a>(one: &Charge<'a>, other: &Charge<'a>) -> Result<Charge<'a>, AllocError>
    ensures { IfOk result (λ r. Joins (charge_of one.now) (charge_of other.now) (charge_of r)) }
{
    Ok(Charge {
        home: one.home,
        span: one.span,
        entries: sum_of(one.entries, other.entries)?,
        work: sum_of(one.work, other.work)?,
        depth: sum_of(one.depth, other.depth)?,
        decides: one.decides,
    })
}

pub(crate) fn sum_of(one: u64, other: u64) -> Result<u64, AllocError>
    ensures { IfOk result (λ r. r ≡ one + other) }
{
    match one.checked_add(other) {
        Some(sum) => Ok(sum),
        None => Err(AllocError),
    }
}

fn work_of(rows: &[Charge<'_>]) -> Result<u64, AllocError>
    ensures { IfOk result (λ r. r ≡ works (map charge_of rows.now)) }
{
    let mut work = 0;
    for row in rows {
        work = sum_of(work, row.work)?;
    }
    Ok(work)
}

fn depth_of(rows: &[Charge<'_>]) -> Result<u64, AllocError>
    ensures { IfOk result (λ r. r ≡ depths (map charge_of rows.now)) }
{
    let mut depth = 0;
    for row in rows {
        depth = sum_of(depth, row.depth)?;
    }
    Ok(depth)
}
