//! Which lines about connections without a seat are logged.

/// The most such lines that are logged at once.
const MOST_AT_ONCE: u64 = 60;

/// Counts the lines about connections without a seat. At most `MOST_AT_ONCE` are logged at once, and one a second after
/// that. So peers who connect again and again can't fill a disk. Seconds are counted since 1970.
#[derive(Drop)]
pub struct Strangers {
    /// The second up to which lines are allowed.
    now: u64,
    /// The number of lines that may be logged now.
    allowed: u64,
    /// The number of lines that were left out since the last note.
    left_out: u64,
    /// The second of the last note.
    noted: u64,
}

/// A note of how many lines about connections without a seat were left out.
#[derive(Clone, Copy, PartialEq, Eq, Debug)]
pub struct LeftOut(pub u64);

impl Strangers {
    pub fn new() -> Strangers {
        Strangers {
            now: 0,
            allowed: MOST_AT_ONCE,
            left_out: 0,
            noted: 0,
        }
    }

    /// Returns whether one more line is logged, and counts it.
    pub fn admit(&mut self, second: u64) -> bool {
        let passed = second.saturating_sub(self.now);
        self.now = self.now.max(second);
        self.allowed = self.allowed.saturating_add(passed).min(MOST_AT_ONCE);
        if self.allowed == 0 {
            self.left_out = self.left_out.saturating_add(1);
            return false;
        }
        self.allowed -= 1;
        true
    }

    /// Returns the note that is due, if one is: once a second, if lines were left out.
    pub fn due_note(&mut self, second: u64) -> Option<LeftOut> {
        if second <= self.noted {
            return None;
        }
        self.noted = second;
        self.last_note()
    }

    /// Returns the note of what was left out since the last one, if something was.
    pub fn last_note(&mut self) -> Option<LeftOut> {
        let count = self.left_out;
        self.left_out = 0;
        match count {
            0 => None,
            _ => Some(LeftOut(count)),
        }
    }

    /// Counts the lines of a note that was lost for the next one.
    pub fn put_back(&mut self, note: LeftOut) {
        let LeftOut(count) = note;
        self.left_out = self.left_out.saturating_add(count);
    }
}
