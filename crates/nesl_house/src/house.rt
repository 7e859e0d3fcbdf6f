//! Users and their sessions.
ghost use Rattle.std.specs.Prelude.{◌≡◌, ℕ, [], ◌∷◌, IfOk, IfErr, OnErr, map, length, option_map, position, OnOk};
ghost use Rattle.std.specs.Str.{bytes_eq};
ghost use Rattle.nesl_session_meaning.specs.Solo.{Responds};
ghost use Rattle.nesl_house.specs.Runs.{session_of, Runs, AllReplay};
ghost use Rattle.nesl_house.specs.Roster.{IsRoster, IsRefused, new_house};

use crate::laws::scripts_follow;
use crate::manner::{By, ByCall, InHeap, Manner, Plainly, Saying};
use crate::roster::{NewFault, check};
use crate::user::User;
use nesl_eval_helpers::{Gate, Helpers};
use nesl_session::answer::Answer;
use nesl_session::limits::Limits;
use nesl_session::session::Session;
use std::alloc::{AllocError, Allocator, Global};
use std::marker::Model;
use std::thread::Threads;

/// The users of a house, in the order of its roster. Contracts see the list of their accounts.
pub struct House {
    users: Vec<User>,
}

// Written by hand, so that no crate that uses this one has to prove how the parts are dropped.
impl Drop for House {
    fn drop(self) {
        let House { users } = self;
        drop(users);
    }
}

impl Model for House {
    ghost use Rattle.std.specs.Prelude.{List};
    ghost use Rattle.nesl_house.specs.Runs.{Account, AllReplay};

    ghost Value = { List Account };

    ghost view = { λ h. h.users.items };

    ghost invariant = { λ h. AllReplay h.users.items };
}

/// A line that a user says.
#[derive(Drop)]
pub struct Said {
    /// The name of the user.
    pub user: Vec<u8>,
    /// The line, without its LF.
    pub text: Vec<u8>,
}

impl House {
    ghost use Rattle.nesl_house.specs.Said.{events_of};

    /// A house in which each user of the roster has an empty session with these limits. The roster is checked before
    /// any memory is taken.
    pub fn new(alloc: Global, roster: &[Vec<u8>], limits: Limits) -> Result<House, NewFault>
        ensures roster { OnOk result (IsRoster (map (λ v. v.items) roster.now)) }
        ensures opened { IfOk result (λ house. house ≡ new_house limits (map (λ v. v.items) roster.now)) }
        ensures refused { IfErr result (IsRefused (map (λ v. v.items) roster.now)) }
    {
        check(roster)?;
        match House::open(alloc, roster, limits) {
            Ok(house) => Ok(house),
            Err(_) => Err(NewFault::Memory),
        }
    }

    fn open(alloc: Global, roster: &[Vec<u8>], limits: Limits) -> Result<House, AllocError>
        ensures { IfOk result (λ house. house ≡ new_house limits (map (λ v. v.items) roster.now)) }
    {
        let mut users = Vec::with_capacity(alloc, roster.len())?;
        for name in roster {
            let user = User::new(alloc, name.as_slice(), limits)?;
            users.push_reserved(user);
        }
        Ok(House { users })
    }

    // A house of these users.
    pub(crate) fn of(users: Vec<User>) -> House
        requires { AllReplay users.items }
        ensures { result ≡ users.items }
    {
        House { users }
    }

    /// The users, in the order of the roster. Each session is the replay of the lines that it stored.
    pub fn users(&self) -> &[User]
        ensures users { result.now ≡ self.now }
        ensures replayed { AllReplay self.now }
    {
        self.users.as_slice()
    }

    /// The session of a user, or `None` if the house has no such user.
    pub fn session(&self, user: &[u8]) -> Option<&Session>
        ensures { option_map (λ s. s.now) result ≡ session_of self.now user.now }
    {
        match place_of(self.users.as_slice(), user) {
            Some(place) => Some(self.users[place].session()),
            None => None,
        }
    }

    /// Answers one line of a user by that user's session. A stranger gets `fault user`, and nothing changes.
    pub fn say(&mut self, alloc: Global, user: &[u8], text: &[u8]) -> Answer
        ensures { Runs self.old (record { user = user.now; line = text.now; reply = result } ∷ []) self.new }
    {
        self.say_by(alloc, &Plainly, user, text)
    }

    /// Answers one line of a user, which is evaluated in `heap`. A stranger gets `fault user`, and nothing changes.
    pub fn say_in<A: Allocator + Copy>(
        &mut self,
        alloc: Global,
        user: &[u8],
        text: &[u8],
        heap: A,
    ) -> Answer
        ensures { Runs self.old (record { user = user.now; line = text.now; reply = result } ∷ []) self.new }
    {
        self.say_by(alloc, &InHeap(heap), user, text)
    }

    /// Answers one line of a user, which is evaluated in halves that threads share, where `helpers` are granted. The
    /// call waits for these threads. A stranger gets `fault user`, and nothing changes.
    pub fn say_with<R: Threads + Sync, H: Helpers + Sync, G: Gate + Sync>(
        &mut self,
        rt: &R,
        alloc: Global,
        user: &[u8],
        text: &[u8],
        helpers: &H,
        gate: &G,
    ) -> Answer
        ensures { Runs self.old (record { user = user.now; line = text.now; reply = result } ∷ []) self.new }
    {
        let call = |session: &mut Session, line: &[u8]| -> Answer
            ensures { Responds session.old line.now result session.new }
        { session.line_split(rt, alloc, line, helpers, gate) };
        self.say_as(alloc, &ByCall { call }, user, text)
    }

    /// Answers one line of a user in this manner. A stranger gets `fault user`, and nothing changes.
    pub fn say_by<M: Manner>(
        &mut self,
        alloc: Global,
        manner: &M,
        user: &[u8],
        text: &[u8],
    ) -> Answer
        ensures { Runs self.old (record { user = user.now; line = text.now; reply = result } ∷ []) self.new }
    {
        self.say_as(alloc, &By { manner }, user, text)
    }

    // Answers one line of a user in this way.
    fn say_as<S: Saying>(&mut self, alloc: Global, by: &S, user: &[u8], text: &[u8]) -> Answer
        requires { S.sound by.now }
        ensures { Runs self.old (record { user = user.now; line = text.now; reply = result } ∷ []) self.new }
    {
        let Some(place) = place_of(self.users.as_slice(), user) else {
            return Answer::no_user();
        };
        self.users[place].say_as(alloc, by, text)
    }

    /// Answers lines of many users, in order. On `Err` there is no memory for the list of the answers, and no line was
    /// said.
    pub fn run(&mut self, alloc: Global, script: &[Said]) -> Result<Vec<Answer>, AllocError>
        ensures answers { IfOk result (λ answers. length answers.items ≡ length script.now) }
        ensures runs { IfOk result (λ answers. Runs self.old (events_of script.now answers.items) self.new) }
        ensures err { OnErr result (self.new ≡ self.old) }
    {
        self.run_by(alloc, &Plainly, script)
    }

    /// Answers lines of many users, in order. Each is evaluated in halves that threads share, where `helpers` are
    /// granted, and the call waits for these threads. On `Err` there is no memory for the list of the answers, and no
    /// line was said.
    pub fn run_with<R: Threads + Sync, H: Helpers + Sync, G: Gate + Sync>(
        &mut self,
        rt: &R,
        alloc: Global,
        script: &[Said],
        helpers: &H,
        gate: &G,
    ) -> Result<Vec<Answer>, AllocError>
        ensures answers { IfOk result (λ answers. length answers.items ≡ length script.now) }
        ensures runs { IfOk result (λ answers. Runs self.old (events_of script.now answers.items) self.new) }
        ensures err { OnErr result (self.new ≡ self.old) }
    {
        let call = |session: &mut Session, line: &[u8]| -> Answer
            ensures { Responds session.old line.now result session.new }
        { session.line_split(rt, alloc, line, helpers, gate) };
        self.run_as(alloc, &ByCall { call }, script)
    }

    /// Answers lines of many users, in order, each in this manner. On `Err` there is no memory for the list of the
    /// answers, and no line was said.
    pub fn run_by<M: Manner>(
        &mut self,
        alloc: Global,
        manner: &M,
        script: &[Said],
    ) -> Result<Vec<Answer>, AllocError>
        ensures answers { IfOk result (λ answers. length answers.items ≡ length script.now) }
        ensures runs { IfOk result (λ answers. Runs self.old (events_of script.now answers.items) self.new) }
        ensures err { OnErr result (self.new ≡ self.old) }
    {
        self.run_as(alloc, &By { manner }, script)
    }

    // Answers lines of many users, in order, each in this way.
    fn run_as<S: Saying>(
        &mut self,
        alloc: Global,
        by: &S,
        script: &[Said],
    ) -> Result<Vec<Answer>, AllocError>
        requires { S.sound by.now }
        ensures answers { IfOk result (λ answers. length answers.items ≡ length script.now) }
        ensures runs { IfOk result (λ answers. Runs self.old (events_of script.now answers.items) self.new) }
        ensures err { OnErr result (self.new ≡ self.old) }
    {
        scripts_follow();
        let _ = &self.users;
        let mut answers = Vec::with_capacity(alloc, script.len())?;
        for said in script {
            let answer = self.say_as(alloc, by, said.user.as_slice(), said.text.as_slice());
            answers.push_reserved(answer);
        }
        Ok(answers)
    }
}

// The place of a user in the roster.
fn place_of(users: &[User], user: &[u8]) -> Option<usize>
    ensures { result ≡ position (λ account. bytes_eq account.name user.now) users.now }
{
    users.iter().position(|u| u.name() == user)
}
