//! What holds of files of keys.
ghost use Rattle.std.specs.Prelude.{◌≡◌, ℕ, List};
ghost use Rattle.nesl_keys.specs.Entries.{IsFile, Listed};

/// A file lists its users in one way. So what `Keys::read` returns is all that the file says.
pub fn one_list_of_users()
    ensures { (bytes : List ℕ) (one other : List Listed) → IsFile bytes one → IsFile bytes other → one ≡ other }
{}
