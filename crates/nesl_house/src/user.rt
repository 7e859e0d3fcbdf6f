//! One user of a house.
ghost use Rattle.std.specs.Prelude.{◌≡◌, IfOk};
ghost use Rattle.nesl_session_meaning.specs.State.{State, empty_log};
ghost use Rattle.nesl_session_meaning.specs.Solo.{Replays, Responds};

use crate::manner::Saying;
use nesl_session::answer::Answer;
use nesl_session::limits::Limits;
use nesl_session::session::Session;
use std::alloc::{AllocError, Global};
use std::marker::Model;

/// A user, and that user's session.
#[derive(Drop)]
pub struct User {
    name: Vec<u8>,
    session: Session,
}

impl Model for User {
    ghost use Rattle.nesl_house.specs.Runs.{Account};

    ghost Value = { Account };

    ghost view = { λ u. record { name = u.name.items; session = u.session } };
}

impl User {
    /// A user with an empty session.
    pub(crate) fn new(alloc: Global, name: &[u8], limits: Limits) -> Result<User, AllocError>
        ensures fresh { IfOk result (λ user. user ≡ record { name = name.now; session = empty_log limits }) }
        ensures replayed { IfOk result (λ user. (state : State) × Replays user.session state) }
    {
        let name = Vec::from_slice(alloc, name)?;
        let session = Session::new(alloc, limits)?;
        Ok(User { name, session })
    }

    /// A user with this session.
    pub(crate) fn of(name: Vec<u8>, session: Session) -> User
        ensures { result ≡ record { name = name.items; session = session } }
    {
        User { name, session }
    }

    /// The name, as it stands in the roster.
    pub fn name(&self) -> &[u8]
        ensures { result.now ≡ self.now.name }
    {
        self.name.as_slice()
    }

    pub fn session(&self) -> &Session
        ensures { result.now ≡ self.now.session }
    {
        &self.session
    }

    /// Answers one line of this user in this way.
    pub(crate) fn say_as<S: Saying>(&mut self, alloc: Global, by: &S, text: &[u8]) -> Answer
        requires { S.sound by.now }
        ensures name { self.new.name ≡ self.old.name }
        ensures answers { Responds self.old.session text.now result self.new.session }
    {
        by.say(alloc, &mut self.session, text)
    }
}
