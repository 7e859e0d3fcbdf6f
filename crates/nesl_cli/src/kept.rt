//! What `keep` does.

use crate::failure::Failure;
use crate::run::LIMITS;
use nesl_kept::collection::Collection;
use nesl_kept::folder::KeptFolders;
use nesl_line::device::Sink;
use nesl_words::keep_words::{Keep, KeepWord};
use std::alloc::Global;

/// Looks at the kept sessions of a folder: at those of the first of these users, or of all if there is none.
pub(crate) fn run_keep<'a, F: KeptFolders, W: Sink>(
    alloc: Global,
    folders: &F,
    keep: Keep<'a>,
    users: &[&'a str],
    writer: &mut W,
) -> Result<(), Failure<'a>> {
    let collection = Collection {
        alloc,
        limits: LIMITS,
        folders,
        path: keep.folder.unwrap_or(""),
    };
    let user = users.first().copied();
    let looked = match keep.word {
        KeepWord::Check => collection.check(user, writer),
        KeepWord::Show => collection.show(user.unwrap_or(""), writer),
        KeepWord::Renew => collection.renew(user.unwrap_or(""), writer),
        KeepWord::Csv => collection.tabulate(user, writer),
    };
    match looked {
        Ok(()) => Ok(()),
        Err(failure) => Err(Failure::Kept(failure)),
    }
}
