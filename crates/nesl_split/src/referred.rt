//! The places of the top level to which a block refers.

use nesl_eval_ops::{Body, Callee, Leaf, Ops, What};
use std::alloc::{AllocError, Global};

// How many operations are looked at, and how many places can be found. Both keep a look short.
const MOST_OPS: usize = 512;

const MOST_PLACES: usize = 1024;

/// What was found, and the operations that wait to be looked at.
#[derive(Drop)]
struct Finder<'a> {
    bodies: &'a [Option<Ops>],
    is_found: Vec<bool>,
    /// The number of places up to the last one that was found.
    places: usize,
    waiting: Vec<&'a Ops>,
}

/// Finds the places to which a block and the functions that it calls refer. In long code some aren't found.
pub(crate) fn places_referred(
    block: &Body,
    bodies: &[Option<Ops>],
    alloc: Global,
) -> Result<Vec<bool>, AllocError> {
    let mut finder = Finder {
        bodies,
        is_found: Vec::from_elem(alloc, false, MOST_PLACES)?,
        places: 0,
        waiting: Vec::new(alloc),
    };
    finder.look_from(block.ops());
    let Finder {
        bodies: _,
        mut is_found,
        places,
        waiting: _waiting,
    } = finder;
    is_found.truncate(places);
    Ok(is_found)
}

impl<'a> Finder<'a> {
    // Looks at operations, and at those that they lead to.
    fn look_from(&mut self, first: &'a Ops) {
        let mut ops = first;
        for _ in 0..MOST_OPS {
            self.look_at(ops);
            match next_of(ops) {
                Some(next) => ops = next,
                None => match self.waiting.pop() {
                    Some(next) => ops = next,
                    None => return,
                },
            }
        }
    }

    // Looks at one operation.
    fn look_at(&mut self, ops: &'a Ops) {
        match ops {
            Ops::Push { leaf, .. } => self.find_leaf(leaf),
            Ops::OfLeaf { leaf, .. } => self.find_leaf(leaf),
            Ops::OfLeaves { left, right, .. } => self.find_two(left, right),
            Ops::OfTopAndLeaf { right, .. } => self.find_leaf(right),
            Ops::OfMany { leaves, .. } => self.find_all(leaves),
            Ops::Choose { yes, no, .. } => self.wait_for_two(yes.ops(), no.ops()),
            Ops::Last { yes, no } => self.wait_for_two(yes.ops(), no.ops()),
            Ops::Call { callee, .. } => self.find_callee(callee),
            Ops::Each { body, .. } => self.wait_for(body.ops()),
            Ops::Filtered { body, filter, .. } => self.wait_for_two(body.ops(), filter.ops()),
            _ => {}
        }
    }

    // Keeps operations for later. If there is no memory, they aren't looked at.
    fn wait_for(&mut self, ops: &'a Ops) {
        let _ = self.waiting.push(ops).is_ok();
    }

    fn wait_for_two(&mut self, one: &'a Ops, other: &'a Ops) {
        self.wait_for(one);
        self.wait_for(other);
    }

    // Marks a place as found. Returns whether it is new.
    fn find(&mut self, place: usize) -> bool {
        if place >= self.is_found.len() || self.is_found[place] {
            return false;
        }
        self.is_found[place] = true;
        self.places = self.places.max(place + 1);
        true
    }

    fn find_leaf(&mut self, leaf: &Leaf) {
        if let What::Top(place) = &leaf.what {
            let _ = self.find(*place);
        }
    }

    fn find_two(&mut self, left: &Leaf, right: &Leaf) {
        self.find_leaf(left);
        self.find_leaf(right);
    }

    fn find_all(&mut self, leaves: &[Leaf]) {
        for leaf in leaves {
            self.find_leaf(leaf);
        }
    }

    // The body of a function is looked at once.
    fn find_callee(&mut self, callee: &Callee) {
        let Callee::Placed(place) = callee else {
            return;
        };
        if !self.find(*place) {
            return;
        }
        if let Some(Some(body)) = self.bodies.get(*place) {
            self.wait_for(body);
        }
    }
}

// Returns the operation after this one, if there is one.
fn next_of(ops: &Ops) -> Option<&Ops> {
    match ops {
        Ops::Push { next, .. } => Some(next.ops()),
        Ops::Enter { next, .. } => Some(next.ops()),
        Ops::OfLeaf { next, .. } => Some(next.ops()),
        Ops::OfTop { next, .. } => Some(next.ops()),
        Ops::OfLeaves { next, .. } => Some(next.ops()),
        Ops::OfTopAndLeaf { next, .. } => Some(next.ops()),
        Ops::OfTops { next, .. } => Some(next.ops()),
        Ops::OfMany { next, .. } => Some(next.ops()),
        Ops::Choose { next, .. } => Some(next.ops()),
        Ops::Call { next, .. } => Some(next.ops()),
        Ops::Bind { next } => Some(next.ops()),
        Ops::Forget { next, .. } => Some(next.ops()),
        Ops::Each { next, .. } => Some(next.ops()),
        Ops::Filtered { next, .. } => Some(next.ops()),
        Ops::Finish | Ops::Last { .. } => None,
    }
}
