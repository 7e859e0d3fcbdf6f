//! Functions that drop what was found, so that their callers don't have to prove how each part is dropped.
use crate::forms::finding::{Definition, Finding, Shown};

impl Finding {
    pub fn release(self) {
        drop(self);
    }
}

impl Definition {
    pub fn release(self) {
        drop(self);
    }
}

impl Shown {
    pub fn release(self) {
        drop(self);
    }
}
