//! One line of a batch, as a house hears it.
ghost use Rattle.std.specs.Prelude.{◌≡◌, ◌||◌, ℕ, ◌≤◌, [], IfOk, IfSome, IfNone, false, length};
ghost use Rattle.std.specs.Vec.{vec_capacity};
ghost use Rattle.nesl_house.specs.Roster.{is_digit, is_small_letter};
ghost use Rattle.nesl_line.specs.Conversation.{IsUserLine, NamesNobody};
ghost use Rattle.nesl_line.specs.Told.{text_told};
ghost use Rattle.nesl_line.specs.Steps.{chosen, NamesFit, TalkedTo, TurnsHouse};

use crate::hearer::{Hearer, Told};
use nesl_house::house::House;
use nesl_house::laws::scripts_follow;
use nesl_house::manner::Manner;
use nesl_session::answer::Answer;
use nesl_session::session::Session;
use std::alloc::{AllocError, Global};

// The name of the selected user, which is empty if nobody is selected; and the manner in which lines are said to
// sessions.
#[derive(Drop)]
pub struct Chooser<'m, M> {
    who: Vec<u8>,
    manner: &'m M,
}

impl<'m, M: Manner> Chooser<'m, M> {
    // Nobody is selected, and there is room for names of `room` bytes.
    pub fn new(alloc: Global, manner: &'m M, room: usize) -> Result<Chooser<'m, M>, AllocError>
        ensures nobody { IfOk result (λ chooser. chooser.who.items ≡ []) }
        ensures room { IfOk result (λ chooser. vec_capacity chooser.who ≡ room) }
    {
        let who = Vec::with_capacity(alloc, room)?;
        Ok(Chooser { who, manner })
    }

    // The session of the selected user.
    pub fn session<'h>(&self, house: &'h House) -> Option<&'h Session> {
        house.session(self.who.as_slice())
    }

    // Selects a user of the house; a stranger leaves nobody selected.
    fn select(&mut self, house: &House, line: &[u8], name: &[u8]) -> Told
        requires fit { NamesFit (vec_capacity self.old.who) house.now }
        requires named { IsUserLine line.now name.now }
        ensures turn { TurnsHouse house.now house.now (chosen self.old.who.items) (chosen self.new.who.items) line.now
            (text_told line.now result) }
        ensures fit { NamesFit (vec_capacity self.new.who) house.now }
    {
        if house.session(name).is_none() {
            self.who.clear();
            return Told::By(Answer::no_user());
        }
        put_name(&mut self.who, name);
        Told::Back
    }

    // Says a line to the session of the selected user.
    fn say(&self, alloc: Global, house: &mut House, line: &[u8]) -> Told
        requires named { NamesNobody line.now }
        requires fit { NamesFit (vec_capacity self.now.who) house.old }
        ensures turn { TurnsHouse house.old house.new (chosen self.now.who.items) (chosen self.now.who.items) line.now
            (text_told line.now result) }
        ensures fit { NamesFit (vec_capacity self.now.who) house.new }
    {
        if self.who.is_empty() {
            return Told::By(Answer::no_user());
        }
        scripts_follow();
        let answer = house.say_by(alloc, self.manner, self.who.as_slice(), line);
        Told::By(answer)
    }
}

impl<M: Manner> Hearer for Chooser<'_, M> {
    type World = House;

    ghost heard = { λ first start now house lines texts. TalkedTo start lines texts (chosen now.who.items) house };

    ghost over = { λ chooser. false };

    ghost ready = { λ chooser house. NamesFit (vec_capacity chooser.who) house };

    fn hear(&mut self, alloc: Global, world: &mut House, line: &[u8]) -> Told {
        match user_named(line) {
            Some(name) => self.select(world, line, name),
            None => self.say(alloc, world, line),
        }
    }

    fn is_over(&self) -> bool {
        false
    }
}

// Replaces a name by another, which fits its room.
fn put_name(who: &mut Vec<u8>, name: &[u8])
    requires { length name.now ≤ vec_capacity who.old }
    ensures items { who.new.items ≡ name.now }
    ensures room { vec_capacity who.old ≤ vec_capacity who.new }
{
    who.clear();
    if who.extend_from_slice(name).is_err() {
        unreachable!();
    }
}

// The name in a user line.
pub fn user_named(line: &[u8]) -> Option<&[u8]>
    ensures some { IfSome result (λ name. IsUserLine line.now name.now) }
    ensures none { IfNone result (NamesNobody line.now) }
{
    if line.len() < 6 || &line[..5] != b"user ".as_slice() {
        return None;
    }
    let name = &line[5..];
    if name.iter().all(|b| is_name_byte(*b)) {
        Some(name)
    } else {
        None
    }
}

fn is_name_byte(b: u8) -> bool
    ensures { result ≡ (is_small_letter b || is_digit b) }
{
    b'a' <= b && b <= b'z' || b'0' <= b && b <= b'9'
}
