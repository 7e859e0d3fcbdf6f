//! Classes that meet, and texts of types.

use crate::made::{class_named, type_of};
use crate::rows::{Subject, all_hold};
use crate::texts::word_of;
use nesl_types::{Context, meet, type_text};
use std::alloc::{AllocError, Global};

/// The class of what has two classes.
struct Meetings;

impl Subject for Meetings {
    fn tell(&self, _alloc: Global, words: &str, text: &mut String) -> Result<(), AllocError> {
        let (one, other) = words.split_once(' ').unwrap_or((words, ""));
        text.push_str(word_of(meet(class_named(one), class_named(other))))
    }
}

const MET: &str = "any logical => logical
ordinal ordinal => ordinal
ordinal logical => number
number ordinal => number";

/// The texts of types without names.
struct Texts;

impl Subject for Texts {
    fn tell(&self, alloc: Global, words: &str, text: &mut String) -> Result<(), AllocError> {
        let ty = type_of(alloc, words)?;
        let bytes = type_text(alloc, &ty, &Context::<u8>::new(alloc))?;
        text.push_str(str::from_utf8(bytes.as_slice()).unwrap_or(""))
    }
}

/// Left pairs have brackets, and right pairs are joined.
const TYPES: &str = "both both int int int => ((int, int), int)
both int both int int => (int, int, int)
seq seq char => [[char]]";

#[test]
fn classes_meet_and_types_are_written(rt: HostRuntime) {
    all_hold(&rt, rt.alloc(), &Meetings, &[MET]);
    all_hold(&rt, rt.alloc(), &Texts, &[TYPES]);
}
