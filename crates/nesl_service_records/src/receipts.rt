//! The receipts of connections.
ghost use Rattle.std.specs.Prelude.{◌≡◌, ◌+◌, ◌<◌, [], length, IfOk, IfSome, IsTrue, IsFalse};
ghost use Rattle.nesl_house.specs.Table.{recorded_in};

use nesl_house::lease::Receipt;
use nesl_house::roster::MOST_USERS;
use std::alloc::{AllocError, Global};

/// The receipts of ended connections, added up by user.
#[derive(Drop)]
pub struct Receipts {
    entries: Vec<Receipt>,
}

impl Receipts {
    /// No receipts. Room for one of each user is reserved.
    pub fn new(alloc: Global) -> Result<Receipts, AllocError>
        ensures { IfOk result (λ r. r.entries.items ≡ []) }
    {
        let entries = Vec::with_capacity(alloc, MOST_USERS)?;
        Ok(Receipts { entries })
    }

    /// Adds a receipt, without allocating. Returns false if all 64 entries are taken by others, or if a user's lines
    /// reach 2^64.
    pub fn take_in(&mut self, receipt: Receipt) -> bool
        ensures taken { IsTrue result → recorded_in self.new.entries.items
            ≡ recorded_in self.old.entries.items + receipt.recorded }
        ensures kept { IsFalse result → self.new ≡ self.old }
    {
        match self.entry_of(receipt.place) {
            Some(entry) => self.add_to(entry, receipt.recorded),
            None => self.push(receipt),
        }
    }

    /// Returns the entries.
    pub fn into_vec(self) -> Vec<Receipt>
        ensures { result ≡ self.entries }
    {
        self.entries
    }

    // Finds the entry of a user, who has this place in the roster.
    fn entry_of(&self, place: usize) -> Option<usize>
        ensures { IfSome result (λ entry. entry < length self.now.entries.items) }
    {
        self.entries.iter().position(|entry| entry.place == place)
    }

    fn add_to(&mut self, entry: usize, recorded: u64) -> bool
        requires { entry < length self.old.entries.items }
        ensures taken { IsTrue result → recorded_in self.new.entries.items
            ≡ recorded_in self.old.entries.items + recorded }
        ensures kept { IsFalse result → self.new ≡ self.old }
    {
        let had = self.entries[entry];
        match had.recorded.checked_add(recorded) {
            Some(has) => {
                self.entries[entry] = Receipt {
                    recorded: has,
                    ..had
                };
                true
            }
            None => false,
        }
    }

    fn push(&mut self, receipt: Receipt) -> bool
        ensures taken { IsTrue result → recorded_in self.new.entries.items
            ≡ recorded_in self.old.entries.items + receipt.recorded }
        ensures kept { IsFalse result → self.new ≡ self.old }
    {
        if self.entries.len() == self.entries.capacity() {
            return false;
        }
        self.entries.push_reserved(receipt);
        true
    }
}
