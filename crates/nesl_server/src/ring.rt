//! The keys that count for a service, as an operator replaces them.

use nesl_keys::keys::Keys;
use nesl_operator::desk::KeyHolder;
use nesl_service::seat::KeyRing;
use std::sync::{Arc, Wait};

/// The keys of a service's users.
#[derive(Drop)]
pub struct Ring {
    pub keys: KeyRing,
}

impl Ring {
    pub fn new(keys: Arc<Keys>) -> Ring {
        Ring {
            keys: KeyRing::new(keys),
        }
    }
}

impl KeyHolder for Ring {
    fn replace<R: Wait>(&self, rt: &R, keys: Arc<Keys>) {
        self.keys.replace(rt, keys);
    }
}
