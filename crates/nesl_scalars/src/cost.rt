//! Work and depth.

ghost use Rattle.std.specs.Prelude.{◌≡◌, ◌+◌, ◌<◌, ◌^◌, max};

/// What an evaluation costs, counted as in Blelloch's *Programming Parallel Algorithms* (CACM 39(3), 1996).
#[derive(Clone, Copy, PartialEq, Eq)]
pub struct Cost {
    /// All steps, whichever thread takes them.
    pub work: u64,
    /// The longest chain of steps of which each waits for the one before.
    pub depth: u64,
}

impl Cost {
    /// The cost of one evaluation and then another: both sums.
    pub const fn then(self, next: Cost) -> Cost
        requires work_fits { self.work + next.work < 2 ^ 64 }
        requires depth_fits { self.depth + next.depth < 2 ^ 64 }
        ensures work { result.work ≡ self.work + next.work }
        ensures depth { result.depth ≡ self.depth + next.depth }
    {
        Cost {
            work: self.work + next.work,
            depth: self.depth + next.depth,
        }
    }

    /// The cost of two evaluations side by side: the sum of the works, the greater depth.
    pub fn beside(self, other: Cost) -> Cost
        requires { self.work + other.work < 2 ^ 64 }
        ensures work { result.work ≡ self.work + other.work }
        ensures depth { result.depth ≡ max self.depth other.depth }
    {
        Cost {
            work: self.work + other.work,
            depth: self.depth.max(other.depth),
        }
    }
}
