//! The user of a connection.
ghost use Rattle.std.specs.Prelude.{◌≡◌, [], ◌∷◌, None, false};
ghost use Rattle.nesl_line.specs.Told.{text_told};
ghost use Rattle.nesl_line.specs.Visiting.{HasReceipt, HeardAt, IsKeptAt, Speaks, is_over};

use crate::hearer::{Hearer, Told};
use crate::keeper::{Keeper, Mark, NotTakenUp, TakenUp, Unkept};
use crate::turn::user_named;
use nesl_house::lease::{Lease, Receipt};
use nesl_house::table::{Table, TakeFault};
use nesl_session::answer::Answer;
use nesl_session::laws::{goes_on, recorded_lines_grow};
use nesl_session::session::Session;
use std::alloc::Global;
use std::marker::PhantomData;
use std::mem;
use std::sync::Wait;

// The stage that a guest has reached.
pub enum Stage {
    // No line has come yet.
    Waiting,
    // A user is seated, and all further lines are this user's.
    Seated(Lease),
    // A line of the user who was seated could not be kept. Nothing more is heard.
    Lost(Lease),
    // Nobody was seated, and nothing more is heard.
    Over,
}

// The user of a connection: nobody at first, and then one user, or nobody for good. `speak` says a line to a session
// that was taken out. A keeper keeps the session.
pub struct Guest<'t, R: Wait, F, K> {
    rt: &'t R,
    table: &'t Table,
    speak: F,
    stage: Stage,
    restored: Option<Receipt>,
    fault: Option<Unkept>,
    keeper: PhantomData<K>,
}

// What a guest leaves: the receipts for the lines said and for those restored, and why something was not kept.
#[derive(Clone, Copy)]
pub struct Left {
    pub receipt: Option<Receipt>,
    pub restored: Option<Receipt>,
    pub fault: Option<Unkept>,
}

impl<'t, R: Wait, F, K> Guest<'t, R, F, K> {
    // Nobody has spoken yet.
    pub fn new(rt: &'t R, table: &'t Table, speak: F) -> Guest<'t, R, F, K>
        ensures table { result.table.now ≡ table.entry.now }
        ensures speak { result.speak ≡ speak }
        ensures stage { result.stage ≡ Stage.Waiting }
    {
        Guest {
            rt,
            table,
            speak,
            stage: Stage::Waiting,
            restored: None,
            fault: None,
            keeper: PhantomData,
        }
    }

    // The session of the user who is seated.
    pub fn session(&self) -> Option<&Session> {
        match &self.stage {
            Stage::Seated(lease) => Some(lease.session()),
            Stage::Waiting | Stage::Lost(_) | Stage::Over => None,
        }
    }

    // Goes on to a stage, and gives back a session that is still taken out.
    fn go_on(&mut self, stage: Stage)
        ensures stage { self.new.stage ≡ stage }
        ensures table { self.new.table.now ≡ self.old.table.now }
        ensures speak { self.new.speak ≡ self.old.speak }
    {
        match mem::replace(&mut self.stage, stage) {
            Stage::Seated(lease) | Stage::Lost(lease) => {
                self.table.give(self.rt, lease);
            }
            Stage::Waiting | Stage::Over => {}
        }
    }
}

impl<R: Wait, F: Drop, K> Guest<'_, R, F, K> {
    // Gives the session back, if one is taken out.
    pub fn leave(self) -> Left
        ensures { HasReceipt self.entry.stage result.receipt }
    {
        let Guest {
            rt,
            table,
            speak: _,
            stage,
            restored,
            fault,
            keeper: _,
        } = self;
        let receipt = match stage {
            Stage::Seated(lease) | Stage::Lost(lease) => Some(table.give(rt, lease)),
            Stage::Waiting | Stage::Over => None,
        };
        Left {
            receipt,
            restored,
            fault,
        }
    }
}

// The stage after a first line, what is replied to it, and the receipt for the lines that were restored. If the user's
// session could not be taken up, there is a fault.
struct Greeted {
    stage: Stage,
    told: Told,
    restored: Option<Receipt>,
    fault: Option<Unkept>,
}

impl Greeted {
    // Nobody is seated.
    fn turned_away(answer: Answer) -> Greeted
        ensures stage { result.stage ≡ Stage.Over }
        ensures told { result.told ≡ Told.By answer }
    {
        Greeted {
            stage: Stage::Over,
            told: Told::By(answer),
            restored: None,
            fault: None,
        }
    }
}

// Hears the first line, which names the user.
fn greet<R: Wait, K: Keeper>(
    rt: &R,
    alloc: Global,
    table: &Table,
    keeper: &mut K,
    line: &[u8],
) -> Greeted
    ensures heard { HeardAt K.keeps K.leaves K.has_failed keeper.old keeper.new table.now.roster table.now.limits
        result.stage (line.now ∷ []) (text_told line.now result.told ∷ []) }
    ensures kept { IsKeptAt K.keeps keeper.new result.stage }
{
    let Some(user) = user_named(line) else {
        return Greeted::turned_away(Answer::no_user());
    };
    match table.take(rt, user) {
        Ok(lease) => match keeper.take_up(alloc, user, lease) {
            Ok(taken) => {
                let TakenUp { lease, restored } = taken;
                Greeted {
                    stage: Stage::Seated(lease),
                    told: Told::Back,
                    restored,
                    fault: None,
                }
            }
            Err(NotTakenUp { lease, fault }) => {
                let place = lease.place();
                table.give(rt, lease);
                Greeted {
                    stage: Stage::Over,
                    told: Told::By(Answer::busy()),
                    restored: None,
                    fault: Some(Unkept { place, fault }),
                }
            }
        },
        Err(TakeFault::NoUser) => Greeted::turned_away(Answer::no_user()),
        Err(TakeFault::Busy) => Greeted::turned_away(Answer::busy()),
    }
}

impl<R: Wait, F: Fn(Lease, &[u8]) -> (Lease, Answer), K: Keeper> Hearer for Guest<'_, R, F, K> {
    type World = K;

    ghost heard = { λ first start now world lines texts. (now.table.now ≡ first.table.now)
        × HeardAt K.keeps K.leaves K.has_failed start world first.table.now.roster first.table.now.limits now.stage
        lines texts };

    ghost over = { λ guest. is_over guest.stage };

    ghost ready = { λ guest world. (is_over guest.stage ≡ false) × Speaks F.Fn guest.speak
        × IsKeptAt K.keeps world guest.stage };

    fn hear(&mut self, alloc: Global, world: &mut K, line: &[u8]) -> Told {
        match mem::replace(&mut self.stage, Stage::Over) {
            Stage::Waiting => {
                let Greeted {
                    stage,
                    told,
                    restored,
                    fault,
                } = greet(self.rt, alloc, self.table, world, line);
                self.restored = restored;
                self.fault = fault;
                self.go_on(stage);
                told
            }
            Stage::Seated(lease) => {
                goes_on();
                recorded_lines_grow();
                let was = Mark::of(lease.session());
                let (lease, answer) = (self.speak)(lease, line);
                match world.keep(alloc, line, was, lease.session()) {
                    Ok(()) => {
                        self.go_on(Stage::Seated(lease));
                        Told::By(answer)
                    }
                    Err(fault) => {
                        let place = lease.place();
                        self.fault = Some(Unkept { place, fault });
                        self.go_on(Stage::Lost(lease));
                        Told::Text(Vec::new(alloc))
                    }
                }
            }
            Stage::Lost(lease) => {
                self.go_on(Stage::Lost(lease));
                unreachable!()
            }
            Stage::Over => unreachable!(),
        }
    }

    fn is_over(&self) -> bool {
        match self.stage {
            Stage::Lost(_) | Stage::Over => true,
            Stage::Waiting | Stage::Seated(_) => false,
        }
    }
}
