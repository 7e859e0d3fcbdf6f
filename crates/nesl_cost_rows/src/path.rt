//! Paths, made charge by charge.
ghost use Rattle.std.specs.Prelude.{◌≡◌, ◌++◌, ◌∷◌, [], OnOk, map};
ghost use Rattle.nesl_cost_meaning.specs.Cost.{depths};
ghost use Rattle.nesl_cost_rows.specs.Charges.{charge_of};
ghost use Rattle.nesl_cost_rows.specs.Readings.{charges_in, deeper_of};

use crate::charge::{Charge, Path};
use std::alloc::{AllocError, Global};

impl<'a> Path<'a> {
    pub(crate) fn new(alloc: Global) -> Self
        ensures { charges_in result ≡ [] }
    {
        Path {
            charges: Vec::new(alloc),
            depth: 0,
        }
    }

    /// The charges, in order.
    pub fn charges(&self) -> &[Charge<'a>]
        ensures { map charge_of result.now ≡ charges_in self.now }
    {
        self.charges.as_slice()
    }

    /// The sum of their depths.
    pub fn depth(&self) -> u64
        ensures { result ≡ depths (charges_in self.now) }
    {
        self.depth
    }

    /// One more charge. `Err` is also for a sum that is too great.
    pub(crate) fn add(&mut self, charge: Charge<'a>) -> Result<(), AllocError>
        ensures { OnOk result (charges_in self.new ≡ charges_in self.old ++ charge_of charge.entry ∷ []) }
    {
        let Some(depth) = self.depth.checked_add(charge.depth) else {
            return Err(AllocError);
        };
        self.charges.push(charge)?;
        self.depth = depth;
        Ok(())
    }

    /// The charges of another path after these.
    pub(crate) fn append(&mut self, other: Path<'a>) -> Result<(), AllocError>
        ensures { OnOk result (charges_in self.new ≡ charges_in self.old ++ charges_in other.entry) }
    {
        if self.charges.is_empty() {
            *self = other;
            return Ok(());
        }
        let Some(depth) = self.depth.checked_add(other.depth) else {
            return Err(AllocError);
        };
        self.charges.extend_from_slice(other.charges.as_slice())?;
        self.depth = depth;
        Ok(())
    }
}

/// The deeper one of two paths, the first one if both are as deep.
pub(crate) fn deeper<'a>(first: Path<'a>, second: Path<'a>) -> Path<'a>
    ensures { charges_in result ≡ deeper_of (charges_in first.entry) (charges_in second.entry) }
{
    if second.depth <= first.depth {
        first
    } else {
        second
    }
}
