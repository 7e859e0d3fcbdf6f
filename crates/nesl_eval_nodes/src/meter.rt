//! The fuel that is left and the depth so far.
ghost use Rattle.std.specs.Prelude.{◌≡◌, ◌+◌, ◌<◌, ◌≤◌, ◌^◌, MatchResult, max};

use nesl_lex::token::Span;
use nesl_scalars::Trap;
use std::marker::Model;

/// Why an evaluation stopped.
#[derive(Debug, Clone, Copy)]
pub enum Stop {
    Fault(Trap, Span),
    Over,
    Memory,
    /// An ill-typed expression.
    Stuck,
}

/// What may still be done, and the depth so far. The fuel and the depth together fit 64 bits.
#[derive(Debug, Clone, Copy)]
pub struct Meter {
    fuel: u64,
    depth: u64,
}

impl Model for Meter {
    ghost use Rattle.std.specs.Prelude.{◌+◌, ◌<◌, ◌^◌};
    ghost use Rattle.nesl_eval_nodes.specs.Measures.{Measure};

    ghost Value = { Measure };

    ghost view = { λ m. record { fuel = m.fuel; depth = m.depth } };

    ghost invariant = { λ m. m.fuel + m.depth < 2 ^ 64 };

    ghost inverse = { λ m. record { fuel = m.fuel; depth = m.depth } };
}

impl Meter {
    /// A meter with this fuel, at depth 0.
    #[inline(always)]
    pub fn new(fuel: u64) -> Self
        ensures { result ≡ record { fuel = fuel; depth = 0 } }
    {
        Meter { fuel, depth: 0 }
    }

    /// The fuel that is left.
    #[inline(always)]
    pub fn fuel(&self) -> u64
        ensures { result ≡ self.now.fuel }
    {
        self.fuel
    }

    /// The depth so far.
    #[inline(always)]
    pub fn depth(&self) -> u64
        ensures depth { result ≡ self.now.depth }
        ensures room { self.now.fuel + result < 2 ^ 64 }
    {
        self.depth
    }

    /// Takes that much work off the fuel.
    #[inline(always)]
    pub fn charge(&mut self, work: u64) -> Result<(), Stop>
        ensures { MatchResult result
            (λ _. (self.old.fuel ≡ self.new.fuel + work) × (self.new.depth ≡ self.old.depth))
            (λ e. (e ≡ Stop.Over) × (self.new ≡ self.old) × (self.old.fuel < work)) }
    {
        self.charge_deep(work, 0)
    }

    /// Takes that much work off the fuel, and goes deeper by a part of it.
    #[inline(always)]
    pub fn charge_deep(&mut self, work: u64, depth: u64) -> Result<(), Stop>
        requires { depth ≤ work }
        ensures { MatchResult result
            (λ _. (self.old.fuel ≡ self.new.fuel + work) × (self.new.depth ≡ self.old.depth + depth))
            (λ e. (e ≡ Stop.Over) × (self.new ≡ self.old) × (self.old.fuel < work)) }
    {
        if self.fuel < work {
            return Err(Stop::Over);
        }
        self.fuel -= work;
        self.depth += depth;
        Ok(())
    }

    /// Leaves this much of the fuel.
    #[inline(always)]
    pub fn leave(&mut self, fuel: u64)
        requires { fuel ≤ self.old.fuel }
        ensures { self.new ≡ record { fuel = fuel; depth = self.old.depth } }
    {
        self.fuel = fuel;
    }

    /// Leaves this much of the fuel, and goes deeper by a part of what was taken off it.
    #[inline(always)]
    pub fn leave_deep(&mut self, fuel: u64, depth: u64)
        requires { fuel + depth ≤ self.old.fuel }
        ensures { self.new ≡ record { fuel = fuel; depth = self.old.depth + depth } }
    {
        self.fuel = fuel;
        self.depth += depth;
    }

    /// Begins again at depth 0.
    #[inline(always)]
    pub fn restart(&mut self)
        ensures { self.new ≡ record { fuel = self.old.fuel; depth = 0 } }
    {
        self.depth = 0;
    }

    /// Goes to a depth for which the fuel leaves room.
    #[inline(always)]
    pub fn set_depth(&mut self, depth: u64)
        requires { self.old.fuel + depth < 2 ^ 64 }
        ensures { self.new ≡ record { fuel = self.old.fuel; depth = depth } }
    {
        self.depth = depth;
    }

    /// The greatest depth of runs beside each other, of which those before this one come to `most`.
    #[inline(always)]
    pub fn deepest(&self, most: u64) -> u64
        ensures { result ≡ max most self.now.depth }
    {
        self.depth.max(most)
    }
}
