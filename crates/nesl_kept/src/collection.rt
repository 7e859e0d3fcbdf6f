//! The commands on the kept sessions of a folder.
ghost use Rattle.std.specs.Prelude.{◌≡◌, ⊤, Err, List, ℕ, IfOk, OnOk};
ghost use Rattle.nesl_line.specs.declared.keeper.Mismatch.{Mismatch};
ghost use Rattle.nesl_session_meaning.specs.State.{Log};
ghost use Rattle.nesl_kept.specs.Again.{ComesBack, StaysAway, Writes};
ghost use Rattle.nesl_kept.specs.Rows.{TellsLine, TellsRow};

use crate::again::{Comeback, FileEnd, Setback, Teller, Unheard, say_again, write};
use crate::failure::{LookFailure, Trouble};
use crate::folder::{FolderNames, KeptFolders, PlaceFault, Warning};
use crate::name::{NameKind, kind_of};
use crate::rows::{HEAD, LineTeller, RowTeller, Silent};
use nesl_house::roster::is_user_name;
use nesl_line::device::Sink;
use nesl_session::limits::Limits;
use std::alloc::{AllocError, Global};
use std::fmt;

/// The kept sessions of a folder, and the limits with which they come back.
#[derive(Drop)]
pub struct Collection<'x, 'a, F> {
    pub alloc: Global,
    pub limits: Limits,
    pub folders: &'x F,
    /// The path of the folder.
    pub path: &'a str,
}

/// Why one session could not be looked at.
#[derive(Clone, Copy)]
enum Stop {
    /// Memory ran out, or a write failed.
    Failed(Unheard),
    /// The session can't be had. Others may be.
    Trouble(Trouble),
}

impl From<Unheard> for LookFailure<'_> {
    fn from(unheard: Unheard) -> Self {
        match unheard {
            Unheard::Memory => LookFailure::Memory,
            Unheard::Write => LookFailure::Write,
        }
    }
}

impl<'a, F: KeptFolders> Collection<'_, 'a, F> {
    /// Writes of each file, or of that of a user, whether its session comes back. Fails if one doesn't.
    pub fn check<W: Sink>(
        &self,
        user: Option<&'a str>,
        writer: &mut W,
    ) -> Result<(), LookFailure<'a>> {
        let users = self.users(user)?;
        let mut lost = 0usize;
        for user in &users {
            match self.check_one(user.as_str(), writer) {
                Ok(()) => {}
                Err(Stop::Failed(unheard)) => return Err(LookFailure::from(unheard)),
                Err(Stop::Trouble(trouble)) => {
                    self.write_trouble(user.as_str(), trouble, writer)?;
                    lost = lost.saturating_add(1);
                }
            }
        }
        require_all(lost, users.len())
    }

    /// Writes each line of a user, and its answer below it.
    pub fn show<W: Sink>(&self, user: &'a str, writer: &mut W) -> Result<(), LookFailure<'a>>
        ensures { OnOk result ((file : List ℕ) × (session : Log)
            × F.gave self.now.folders.now self.now.path.now user.now file
            × ComesBack self.now.limits (Writes TellsLine (W.held writer.old) (W.held writer.new)) file session) }
    {
        require_name(user)?;
        match self.say(user, &LineTeller, writer) {
            Ok(back) => {
                drop(back);
                Ok(())
            }
            Err(Stop::Failed(unheard)) => Err(LookFailure::from(unheard)),
            Err(Stop::Trouble(trouble)) => Err(LookFailure::Session(user, trouble)),
        }
    }

    /// Writes the lines of all users, or of one, as CSV. Fails if a session doesn't come back. Its first lines are
    /// written nevertheless.
    pub fn tabulate<W: Sink>(
        &self,
        user: Option<&'a str>,
        writer: &mut W,
    ) -> Result<(), LookFailure<'a>> {
        let users = self.users(user)?;
        write(writer, HEAD)?;
        let mut lost = 0usize;
        for user in &users {
            match self.write_rows(user.as_str(), writer) {
                Ok(()) => {}
                Err(Stop::Failed(unheard)) => return Err(LookFailure::from(unheard)),
                Err(Stop::Trouble(trouble)) => {
                    self.folders.warn(Warning::Trouble(user.as_str(), trouble));
                    lost = lost.saturating_add(1);
                }
            }
        }
        require_all(lost, users.len())
    }

    /// Puts the file of a user aside, so that the session begins anew.
    pub fn renew<W: Sink>(&self, user: &'a str, writer: &mut W) -> Result<(), LookFailure<'a>> {
        require_name(user)?;
        match self.folders.put_aside(self.alloc, self.path, user) {
            Ok(name) => self.write_renewed(user, name.as_str(), writer),
            Err(PlaceFault::Memory) => Err(LookFailure::Memory),
            Err(fault) => Err(LookFailure::Renewal(user, fault)),
        }
    }

    // Returns the users whose files are looked at, in order.
    fn users(&self, user: Option<&'a str>) -> Result<Vec<String>, LookFailure<'a>> {
        match user {
            Some(user) => {
                require_name(user)?;
                Ok(self.only(user)?)
            }
            None => match self.folders.names(self.alloc, self.path) {
                Ok(names) => Ok(self.users_among(names)?),
                Err(PlaceFault::Memory) => Err(LookFailure::Memory),
                Err(fault) => Err(LookFailure::Folder(self.path, fault)),
            },
        }
    }

    // Returns a user's name alone.
    fn only(&self, user: &str) -> Result<Vec<String>, AllocError> {
        let mut users = Vec::new(self.alloc);
        users.push(String::from_str(self.alloc, user)?)?;
        Ok(users)
    }

    // Picks the users among the names in a folder, and warns of names that don't belong there.
    fn users_among(&self, names: FolderNames) -> Result<Vec<String>, AllocError> {
        let mut users = Vec::new(self.alloc);
        for name in names.texts {
            match kind_of(name.as_str()) {
                NameKind::User => users.push(name)?,
                NameKind::Beside => {}
                NameKind::Stranger => self.folders.warn(Warning::Stranger(name.as_str())),
            }
        }
        if names.unreadable > 0 {
            self.folders.warn(Warning::Unreadable(names.unreadable));
        }
        Ok(users)
    }

    // Reads the file of a user, and says its lines again.
    fn say<T: Teller, W: Sink>(
        &self,
        user: &str,
        teller: &T,
        writer: &mut W,
    ) -> Result<Comeback, Stop>
        ensures back { IfOk result (λ back. (file : List ℕ)
            × F.gave self.now.folders.now self.now.path.now user.now file
            × ComesBack self.now.limits (Writes (T.tells teller.now) (W.held writer.old) (W.held writer.new)) file
            back.session) }
        ensures away { (mismatch : Mismatch) → result ≡ Err (Stop.Trouble (Trouble.Misfit mismatch))
            → (file : List ℕ) × F.gave self.now.folders.now self.now.path.now user.now file
            × StaysAway self.now.limits (Writes (T.tells teller.now) (W.held writer.old) (W.held writer.new)) file
            (Setback.Misfit mismatch) }
    {
        let bytes = match self.folders.read(self.alloc, self.path, user) {
            Ok(bytes) => bytes,
            Err(fault) => return Err(stop_unread(fault)),
        };
        match say_again(self.alloc, self.limits, bytes.as_slice(), teller, writer) {
            Ok(back) => Ok(back),
            Err(setback) => Err(stop_away(setback)),
        }
    }

    // Writes what comes back of a user.
    fn check_one<W: Sink>(&self, user: &str, writer: &mut W) -> Result<(), Stop>
        ensures good { OnOk result ((file : List ℕ) × (session : Log)
            × F.gave self.now.folders.now self.now.path.now user.now file
            × ComesBack self.now.limits (λ _ _. ⊤) file session) }
        ensures damaged { (mismatch : Mismatch) → result ≡ Err (Stop.Trouble (Trouble.Misfit mismatch))
            → (file : List ℕ) × F.gave self.now.folders.now self.now.path.now user.now file
            × StaysAway self.now.limits (λ _ _. ⊤) file (Setback.Misfit mismatch) }
    {
        let back = match self.say(user, &Silent, writer) {
            Ok(back) => back,
            Err(stop) => return Err(stop),
        };
        let Ok(text) = describe(self.alloc, user, &back) else {
            return Err(Stop::Failed(Unheard::Memory));
        };
        match write(writer, text.as_bytes()) {
            Ok(()) => Ok(()),
            Err(unheard) => Err(Stop::Failed(unheard)),
        }
    }

    // Writes the rows of a user.
    fn write_rows<W: Sink>(&self, user: &str, writer: &mut W) -> Result<(), Stop>
        ensures { OnOk result ((file : List ℕ) × (session : Log)
            × F.gave self.now.folders.now self.now.path.now user.now file
            × ComesBack self.now.limits (Writes (TellsRow user.now) (W.held writer.old) (W.held writer.new)) file
            session) }
    {
        match self.say(user, &RowTeller { user }, writer) {
            Ok(back) => {
                drop(back);
                Ok(())
            }
            Err(stop) => Err(stop),
        }
    }

    // Writes why the session of a user can't be had.
    fn write_trouble<W: Sink>(
        &self,
        user: &str,
        trouble: Trouble,
        writer: &mut W,
    ) -> Result<(), LookFailure<'a>> {
        let text = format!(in self.alloc; "{user} {trouble}\n")?;
        Ok(write(writer, text.as_bytes())?)
    }

    // Writes which name the old file of a user has.
    fn write_renewed<W: Sink>(
        &self,
        user: &str,
        name: &str,
        writer: &mut W,
    ) -> Result<(), LookFailure<'a>> {
        let text = format!(in self.alloc;
            "{user} begins anew; the old file is {}/{name}\n",
            self.path
        )?;
        Ok(write(writer, text.as_bytes())?)
    }
}

// Why a session that stays away could not be looked at.
fn stop_away(setback: Setback) -> Stop
    ensures { (mismatch : Mismatch) → result ≡ Stop.Trouble (Trouble.Misfit mismatch)
        → setback ≡ Setback.Misfit mismatch }
{
    match setback {
        Setback::Memory => Stop::Failed(Unheard::Memory),
        Setback::Unheard(unheard) => Stop::Failed(unheard),
        Setback::Misfit(mismatch) => Stop::Trouble(Trouble::Misfit(mismatch)),
    }
}

// Why a session whose file can't be read could not be looked at.
fn stop_unread(fault: PlaceFault) -> Stop
    ensures { (mismatch : Mismatch) → result ≡ Stop.Trouble (Trouble.Misfit mismatch) → ⊥ }
{
    match fault {
        PlaceFault::Memory => Stop::Failed(Unheard::Memory),
        fault => Stop::Trouble(Trouble::Unread(fault)),
    }
}

fn require_name<'a>(user: &'a str) -> Result<(), LookFailure<'a>> {
    if is_user_name(user.as_bytes()) {
        Ok(())
    } else {
        Err(LookFailure::Name(user))
    }
}

// Fails if some of all sessions can't be had.
fn require_all<'a>(lost: usize, all: usize) -> Result<(), LookFailure<'a>> {
    if lost == 0 {
        Ok(())
    } else {
        Err(LookFailure::Lost { lost, all })
    }
}

// Describes the session of a user that comes back.
fn describe(alloc: Global, user: &str, back: &Comeback) -> Result<String, AllocError> {
    let (lines, bytes, end) = (back.session.lines().len(), back.bytes, back.end);
    format!(in alloc; "{user} comes back: {lines} lines, {bytes} bytes{end}\n")
}

impl fmt::Display for FileEnd {
    fn fmt<W: fmt::Write>(&self, f: &mut fmt::Formatter<W>) -> fmt::Result {
        match self {
            FileEnd::AtRest => Ok(()),
            FileEnd::Torn(0) => f.write_str(", without the closed gate"),
            FileEnd::Torn(count) => write!(f, ", of which {count} after the last line don't count"),
        }
    }
}
