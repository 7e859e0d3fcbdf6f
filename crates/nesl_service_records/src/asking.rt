//! Helpers whose requests are reported to a journal.

use crate::journal::Journal;
use nesl_eval_helpers::Helpers;

/// Asks others for helpers, and reports to a journal whether each request was granted.
#[derive(Drop)]
pub struct ReportingHelpers<'x, H, J> {
    pub helpers: H,
    pub journal: &'x J,
}

impl<H: Helpers, J: Journal> Helpers for ReportingHelpers<'_, H, J> {
    type Permit = H::Permit;

    fn ask(&self) -> Option<H::Permit> {
        let permit = self.helpers.ask();
        if self.journal.is_counting() {
            self.journal.asked(permit.is_some());
        }
        permit
    }

    fn done(&self, permit: H::Permit) {
        self.helpers.done(permit);
    }
}
