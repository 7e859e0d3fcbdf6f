//! What the definitions' words for whole numbers mean, and calls that are worked by hand.

ghost use Rattle.nesl_scalars.specs.Laws.{QuotientAndRemainder, SignOfRemainder, RoundedDown, GreatestRoot};
ghost use Rattle.nesl_scalars.specs.Laws.{LeastByMinusOne, SevenByTwo, ByZero, Shifts, RootOfGreatest, Complement};
ghost use Rattle.nesl_scalars.specs.Laws.{Mixed};

/// Quotients, remainders and roots are what these words mean.
pub fn whole_numbers()
    ensures quotient_and_remainder { QuotientAndRemainder }
    ensures sign_of_remainder { SignOfRemainder }
    ensures rounded_down { RoundedDown }
    ensures greatest_root { GreatestRoot }
{}

/// Calls that are worked by hand.
pub fn worked_calls()
    ensures least_by_minus_one { LeastByMinusOne }
    ensures seven_by_two { SevenByTwo }
    ensures by_zero { ByZero }
    ensures shifts { Shifts }
    ensures root_of_greatest { RootOfGreatest }
    ensures complement { Complement }
    ensures mixed { Mixed }
{}
