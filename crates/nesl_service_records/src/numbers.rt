//! The numbers of connections.
ghost use Rattle.std.specs.Prelude.{◌≡◌, ◌+◌, ◌-◌, ◌≤◌, ◌<◌, ◌↔◌, IfSome, IsSome, Some, None};
ghost use Rattle.std.specs.Option.{IfNone};
ghost use Rattle.nesl_service_records.specs.Ends.{gravest_of};

/// Why a service ended early.
#[derive(Clone, Copy, PartialEq, Eq, Debug)]
pub enum Fault {
    /// A line could not be kept.
    Keep,
    /// A socket that accepts connections failed.
    Socket,
    /// A thread could not be made, or memory for it ran out.
    Memory,
}

impl Fault {
    // Returns the graver one of this fault and an earlier one, if there was one.
    fn or_graver(self, earlier: Option<Fault>) -> Fault
        ensures { result ≡ gravest_of earlier self }
    {
        match earlier {
            Some(Fault::Keep) => Fault::Keep,
            Some(Fault::Socket) => match self {
                Fault::Keep => Fault::Keep,
                Fault::Socket | Fault::Memory => Fault::Socket,
            },
            Some(Fault::Memory) | None => self,
        }
    }
}

/// The numbers of connections. `all` is how many there are in all, and `left` how many are still to come. `fault` is
/// what ended them early, if anything did.
#[derive(Clone, Copy, PartialEq, Eq, Debug)]
pub struct Numbers {
    pub all: u64,
    pub left: u64,
    pub fault: Option<Fault>,
}

impl Numbers {
    /// The numbers for `all` connections.
    pub fn new(all: u64) -> Numbers
        ensures { result ≡ record { all = all; left = all; fault = None } }
    {
        Numbers {
            all,
            left: all,
            fault: None,
        }
    }

    /// Gives out the next number, counted from 1, or `None` if none is left.
    pub fn next(&mut self) -> Option<u64>
        ensures given { IsSome result ↔ (0 < self.old.left) }
        ensures number { IfSome result (λ number. number ≡ self.old.all - self.new.left) }
        ensures taken { IfSome result (λ number. self.new ≡ record self.old { left = self.old.left - 1 }) }
        ensures kept { IfNone result (self.new ≡ self.old) }
    {
        if self.left == 0 {
            return None;
        }
        self.left -= 1;
        Some(self.all.saturating_sub(self.left))
    }

    /// Gives out no more numbers, though nothing has failed.
    pub fn close(&mut self)
        ensures { self.new ≡ record self.old { left = 0 } }
    {
        self.left = 0;
    }

    /// Gives out no more numbers. Of several faults the gravest is reported: that of a line that could not be kept, or
    /// else one of a socket, or else one of memory.
    pub fn end(&mut self, fault: Fault)
        ensures none { self.new.left ≡ 0 }
        ensures all { self.new.all ≡ self.old.all }
        ensures fault { self.new.fault ≡ Some (gravest_of self.old.fault fault) }
    {
        self.left = 0;
        self.fault = Some(fault.or_graver(self.fault));
    }
}
