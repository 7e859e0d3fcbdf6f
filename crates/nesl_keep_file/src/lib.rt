//! The files of users, in one folder of this machine.
//!
//! What is proved rests on a record of the calls that a file was sent, each with its outcome. That the system did what
//! it answered is trusted, and so is that each call is noted as what it was. No code but that of `file` and `system`
//! makes one.
#![tactic(auto)]

mod calls;
mod file;
mod folder;
mod history;
mod look;
mod renew;
mod system;

pub use file::UserFile;
pub use folder::{Files, FolderFault};
pub use look::{ListedNames, LookFault, list_names, read_file};
pub use renew::put_aside;
pub use system::Storage;
