//! Listens to the first line of a connection, and decides what a service hears.
ghost use Rattle.std.specs.Prelude.{◌≡◌, ◌≢◌, ◌↔◌, ℕ, ◌≤◌, List, [], ◌∷◌, ◌++◌, IsTrue, length, min, option_map, take};
ghost use Rattle.arrayvec.specs.ArrayVec.{array_vec_len};

use crate::admitted::Door;
use crate::first_line::{let_in, without_return};
use crate::sign_in::{SignIn, TurnedAway};
use arrayvec::ArrayVec;

/// The most bytes of a first line without its LF: `user `, a name, a space, a key and a CR.
const MOST_LINE_BYTES: usize = 55;

/// The same with the LF.
const ROOM: usize = 56;

/// What a porter does.
#[derive(Clone, Copy, PartialEq, Eq, Debug)]
pub(crate) enum Stage {
    /// It listens to the first line.
    Listening,
    /// It tells the service who is let in. All that follows is heard.
    Passing,
    /// It tells the service that nobody is. Nothing more is heard.
    Ending,
}

/// Listens to a first line, and then tells the service what it is to hear.
#[derive(Drop)]
pub(crate) struct Porter<'k> {
    door: Door<'k>,
    stage: Stage,
    /// What has come of the first line, and then the line that the service is to hear.
    line: ArrayVec<u8, ROOM>,
    /// How many bytes of the line were told.
    given: usize,
    away: Option<TurnedAway>,
    ghost within: { given ≤ array_vec_len line },
}

impl<'k> Porter<'k> {
    ghost use Rattle.nesl_keys.specs.Hearing.{heard, heard_of, left_of, line_at};

    /// Where users are known by their word, nobody is asked.
    pub(crate) fn new(door: Door<'k>) -> Porter<'k>
        ensures { (bytes : List ℕ) → heard_of result bytes ≡ heard door.entry bytes }
    {
        let stage = match door.sign_in {
            SignIn::Word => Stage::Passing,
            SignIn::Keys(_) | SignIn::Header | SignIn::Address => Stage::Listening,
        };
        Porter {
            door,
            stage,
            line: ArrayVec::new(),
            given: 0,
            away: None,
        }
    }

    pub(crate) fn is_listening(&self) -> bool
        ensures { IsTrue result ↔ (self.now.stage ≡ Stage.Listening) }
    {
        self.stage == Stage::Listening
    }

    /// Whether nothing more is heard after what was told.
    pub(crate) fn is_ending(&self) -> bool
        ensures { IsTrue result ↔ (self.now.stage ≡ Stage.Ending) }
    {
        self.stage == Stage::Ending
    }

    /// Returns the line that the service is to hear with its LF, if somebody was let in.
    pub(crate) fn line(&self) -> Option<&[u8]>
        ensures { option_map (λ line. line.now) result ≡ line_at self.now.stage self.now.line.items }
    {
        match self.stage {
            Stage::Passing => Some(self.line.as_slice()),
            Stage::Listening | Stage::Ending => None,
        }
    }

    /// Returns why somebody was turned away.
    pub(crate) fn away(&self) -> Option<TurnedAway>
        ensures { result ≡ self.now.away }
    {
        self.away
    }

    /// Hears a byte.
    pub(crate) fn hear(&mut self, byte: u8)
        requires { self.old.stage ≡ Stage.Listening }
        ensures { (rest : List ℕ) → heard_of self.new rest ≡ heard_of self.old (byte ∷ rest) }
    {
        if byte == b'\n' {
            self.answer();
        } else if self.line.len() < MOST_LINE_BYTES {
            self.line.push(byte);
        } else {
            self.refuse(TurnedAway::Line);
        }
    }

    /// Hears that nothing more comes.
    pub(crate) fn end(&mut self)
        requires { self.old.stage ≡ Stage.Listening }
        ensures stage { self.new.stage ≡ Stage.Ending }
        ensures heard { heard_of self.new [] ≡ heard_of self.old [] }
    {
        if self.line.is_empty() {
            self.stage = Stage::Ending;
        } else {
            self.refuse(TurnedAway::Line);
        }
    }

    /// Whether all was told.
    pub(crate) fn is_done(&self) -> bool
        ensures { IsTrue result ↔ (length (left_of self.now) ≡ 0) }
    {
        self.given == self.line.len()
    }

    /// Tells as many bytes as fit into `room`, and returns their number.
    pub(crate) fn tell(&mut self, room: &mut [u8]) -> usize
        requires { self.old.stage ≢ Stage.Listening }
        ensures stage { self.new.stage ≡ self.old.stage }
        ensures given { left_of self.old ≡ take result room.new ++ left_of self.new }
        ensures count { result ≡ min (length (left_of self.old)) (length room.old) }
        ensures room { length room.new ≡ length room.old }
    {
        let count = room.len().min(self.line.len() - self.given);
        room[..count].copy_from_slice(&self.line.as_slice()[self.given..self.given + count]);
        self.given += count;
        count
    }

    // Answers the first line, which is whole.
    fn answer(&mut self)
        requires { self.old.stage ≡ Stage.Listening }
        ensures { (rest : List ℕ) → heard_of self.new rest ≡ heard_of self.old (10 ∷ rest) }
    {
        match let_in(self.door, without_return(self.line.as_slice())) {
            Ok(length) => {
                self.line.truncate(length);
                self.line.push(b'\n');
                self.given = 0;
                self.stage = Stage::Passing;
            }
            Err(away) => self.refuse(away),
        }
    }

    // Lets nobody in. The service hears an empty line.
    fn refuse(&mut self, away: TurnedAway)
        ensures stage { self.new.stage ≡ Stage.Ending }
        ensures heard { (rest : List ℕ) → heard_of self.new rest ≡ 10 ∷ [] }
    {
        self.line.clear();
        self.line.push(b'\n');
        self.given = 0;
        self.stage = Stage::Ending;
        self.away = Some(away);
    }
}
