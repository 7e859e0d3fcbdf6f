// How the elements before a place are joined.
ghost use Rattle.std.specs.Prelude.{◌≡◌, []};
ghost use Rattle.nesl_seqs_base.specs.Scans.{joined_truths, join_truths, join_bits, no_bits_joined};

/// How truth values are joined, and numbers bit by bit.
#[derive(Clone, Copy)]
pub enum Joint {
    Or,
    And,
}

impl Joint {
    pub fn of_no_truths(self) -> bool
        ensures { result ≡ joined_truths self [] }
    {
        match self {
            Joint::Or => false,
            Joint::And => true,
        }
    }

    pub fn of_truths(self, one: bool, other: bool) -> bool
        ensures { result ≡ join_truths self one other }
    {
        match self {
            Joint::Or => one | other,
            Joint::And => one & other,
        }
    }

    pub fn of_no_numbers(self) -> i64
        ensures { result ≡ no_bits_joined self }
    {
        match self {
            Joint::Or => 0,
            Joint::And => -1,
        }
    }

    pub fn of_numbers(self, one: i64, other: i64) -> i64
        ensures { result ≡ join_bits self one other }
    {
        match self {
            Joint::Or => one | other,
            Joint::And => one & other,
        }
    }
}
