//! What is replied to a line.
ghost use Rattle.std.specs.Prelude.{◌≡◌, codes};
ghost use Rattle.nesl_session_meaning.specs.Response.{Reply, busy, no_memory, no_user};

use nesl_reply::Fault;
use std::marker::Model;

/// The text of an answer. A fixed text takes no memory.
#[derive(Drop)]
pub enum Text {
    NoMemory,
    NoUser,
    Busy,
    Made(Vec<u8>),
}

/// An answer to a line. Contracts see it as a reply.
#[derive(Drop)]
pub struct Answer {
    text: Text,
    fault: Option<Fault>,
    recorded: bool,
}

impl Model for Answer {
    ghost use Rattle.nesl_session_meaning.specs.Response.{Reply};
    ghost use Rattle.nesl_session.specs.Text.{text_bytes};

    ghost Value = { Reply };

    ghost view = { λ a. record { bytes = text_bytes a.text; fault = a.fault; recorded = a.recorded } };
}

impl Answer {
    /// The answer `fault memory`. It takes no memory.
    pub fn no_memory() -> Answer
        ensures { result ≡ no_memory }
    {
        Answer {
            text: Text::NoMemory,
            fault: Some(Fault::Memory),
            recorded: false,
        }
    }

    /// The answer to a line of a user who isn't in the house. It takes no memory.
    pub fn no_user() -> Answer
        ensures { result ≡ no_user }
    {
        Answer {
            text: Text::NoUser,
            fault: Some(Fault::User),
            recorded: false,
        }
    }

    /// The answer to a user who asks for a session that is taken out. It takes no memory.
    pub fn busy() -> Answer
        ensures { result ≡ busy }
    {
        Answer {
            text: Text::Busy,
            fault: Some(Fault::Busy),
            recorded: false,
        }
    }

    pub(crate) fn made(text: Vec<u8>, fault: Option<Fault>, recorded: bool) -> Answer
        ensures { result ≡ record { bytes = text.items; fault = fault; recorded = recorded } }
    {
        Answer {
            text: Text::Made(text),
            fault,
            recorded,
        }
    }

    /// The bytes of the answer, with their line end.
    pub fn bytes(&self) -> &[u8]
        ensures { result.now ≡ self.now.bytes }
    {
        match &self.text {
            Text::NoMemory => nesl_reply::no_memory(),
            Text::NoUser => b"fault user\n",
            Text::Busy => b"fault busy\n",
            Text::Made(text) => text.as_slice(),
        }
    }

    /// Whether the line was recorded in the session's transcript, or was a reset.
    pub fn recorded(&self) -> bool
        ensures { result ≡ self.now.recorded }
    {
        self.recorded
    }

    /// Why the line was refused, if it was.
    pub fn fault(&self) -> Option<Fault>
        ensures { result ≡ self.now.fault }
    {
        self.fault
    }
}
