//! The state of a session, and what a line changes in it.
ghost use Rattle.std.specs.Prelude.{◌≡◌, ◌+◌, ◌-◌, ◌<◌, ◌≤◌, ◌^◌, ◌++◌, ℕ, [], true, IfOk, OnOk, OnErr, codes, length};
ghost use Rattle.std.specs.Prelude.{take, sum_by, vec_len, vec_capacity};
ghost use Rattle.nesl_session_bindings.specs.Known.{put_binding};
ghost use Rattle.nesl_session_bindings.specs.Stored.{bindings_of};
ghost use Rattle.nesl_session_meaning.specs.State.{opening};
ghost use Rattle.nesl_session_meaning.specs.Step.{after, with_line, charged, is_part, recorded_by_reset, most_recorded};
ghost use Rattle.nesl_session.specs.Found.{finding_of, meaning_of, work_of, binding_of, CanBe};
ghost use Rattle.nesl_session.specs.Settling.{CanSettle, HasRoomFor};

use crate::forms::finding::{Definition, Finding, Meaning};
use nesl_session_bindings::Bindings;
use nesl_session_meaning::limits::Limits;
use std::alloc::{AllocError, Global};

/// The state of a session, as its fields hold it.
pub struct Standing {
    pub limits: Limits,
    pub bindings: Bindings,
    pub work_left: u64,
    /// The lines stored since the last reset.
    pub transcript: Vec<Vec<u8>>,
    /// The number of bytes of these lines.
    pub bytes: u64,
    /// The joined parts of a form that isn't complete yet.
    pub pending: Vec<u8>,
    /// The work that was left at the last reset.
    pub base: u64,
    /// The number of lines recorded until the last reset, the reset included.
    pub cleared: u64,
}

// Written by hand, so that no crate that uses this one has to prove how the parts are dropped.
impl Drop for Standing {
    fn drop(self) {
        let Standing {
            limits: _,
            bindings,
            work_left: _,
            transcript,
            bytes: _,
            pending,
            base: _,
            cleared: _,
        } = self;
        drop((bindings, transcript, pending));
    }
}

impl Standing {
    ghost use Rattle.nesl_session.specs.Inside.{state_of, Counts};

    /// The state that a reset leaves, with this work left and this number of recorded lines.
    pub fn opened(alloc: Global, limits: Limits, base: u64, cleared: u64) -> Standing
        requires { cleared ≤ most_recorded }
        ensures state { state_of result ≡ opening base cleared }
        ensures counts { Counts result }
        ensures limits { result.limits ≡ limits }
    {
        Standing {
            limits,
            bindings: Bindings::new(alloc),
            work_left: base,
            transcript: Vec::new(alloc),
            bytes: 0,
            pending: Vec::new(alloc),
            base,
            cleared,
        }
    }

    /// Changes the state by what was found of a line. All memory is allocated before the first change. Binding a name
    /// may run out of memory too, so it is the first change.
    pub fn settle(&mut self, alloc: Global, text: &[u8], finding: Finding) -> Result<(), AllocError>
        requires counts { Counts self.old }
        requires can { CanSettle (state_of self.old) text.now finding }
        ensures ok { OnOk result (state_of self.new ≡ after text.now (state_of self.old) (finding_of finding)) }
        ensures err { OnErr result (state_of self.new ≡ state_of self.old) }
        ensures counts { Counts self.new }
        ensures limits { self.new.limits ≡ self.old.limits }
    {
        match finding {
            Finding::Unread(_) => Ok(()),
            Finding::Reset => {
                self.reset(alloc);
                Ok(())
            }
            Finding::Part => self.take_part(alloc, text),
            Finding::Refused(_, work) => self.take_read(alloc, text, work),
            Finding::Answered(shown) => {
                shown.release();
                self.take_read(alloc, text, 0)
            }
            Finding::Defined(definition) => self.take_definition(alloc, text, definition),
        }
    }

    fn reset(&mut self, alloc: Global)
        requires counts { Counts self.old }
        requires few { recorded_by_reset (state_of self.old) ≤ most_recorded }
        ensures state { state_of self.new ≡ opening self.old.work_left (recorded_by_reset (state_of self.old)) }
        ensures counts { Counts self.new }
        ensures limits { self.new.limits ≡ self.old.limits }
    {
        let recorded = self.cleared + self.transcript.len() as u64 + 1;
        self.bindings = Bindings::new(alloc);
        self.transcript = Vec::new(alloc);
        self.bytes = 0;
        self.pending = Vec::new(alloc);
        self.base = self.work_left;
        self.cleared = recorded;
    }

    // Stores a line that is part of a form, and joins it to the parts before it.
    fn take_part(&mut self, alloc: Global, text: &[u8]) -> Result<(), AllocError>
        requires counts { Counts self.old }
        requires fits { HasRoomFor (state_of self.old) text.now }
        requires is_part { is_part text.now ≡ true }
        ensures ok { OnOk result (state_of self.new ≡ after text.now (state_of self.old) (finding_of Finding.Part)) }
        ensures err { OnErr result (state_of self.new ≡ state_of self.old) }
        ensures counts { Counts self.new }
        ensures limits { self.new.limits ≡ self.old.limits }
    {
        let line = room_for(&mut self.transcript, alloc, text)?;
        join(&mut self.pending, text)?;
        self.store(line);
        Ok(())
    }

    // Stores and charges a line that was read.
    fn take_read(&mut self, alloc: Global, text: &[u8], work: u64) -> Result<(), AllocError>
        requires counts { Counts self.old }
        requires fits { HasRoomFor (state_of self.old) text.now }
        requires paid { work ≤ self.old.work_left }
        ensures ok { OnOk result (state_of self.new ≡ charged text.now work (state_of self.old)) }
        ensures err { OnErr result (state_of self.new ≡ state_of self.old) }
        ensures counts { Counts self.new }
        ensures limits { self.new.limits ≡ self.old.limits }
    {
        let line = room_for(&mut self.transcript, alloc, text)?;
        self.store(line);
        self.charge(work);
        Ok(())
    }

    // Binds a name, which is the first change, and then stores and charges the line.
    fn take_definition(
        &mut self,
        alloc: Global,
        text: &[u8],
        definition: Definition,
    ) -> Result<(), AllocError>
        requires counts { Counts self.old }
        requires can { CanSettle (state_of self.old) text.now (Finding.Defined definition) }
        ensures ok { OnOk result (state_of self.new ≡ after text.now (state_of self.old)
            (finding_of (Finding.Defined definition))) }
        ensures err { OnErr result (state_of self.new ≡ state_of self.old) }
        ensures counts { Counts self.new }
        ensures limits { self.new.limits ≡ self.old.limits }
    {
        let work = definition.meaning.work();
        let line = match room_for(&mut self.transcript, alloc, text) {
            Ok(line) => line,
            Err(error) => {
                definition.release();
                return Err(error);
            }
        };
        define(&mut self.bindings, alloc, definition)?;
        self.store(line);
        self.charge(work);
        Ok(())
    }

    // Stores a line, for which there is room.
    fn store(&mut self, line: Vec<u8>)
        requires counts { Counts self.old }
        requires room { vec_len self.old.transcript < vec_capacity self.old.transcript }
        requires fits { HasRoomFor (state_of self.old) line.items }
        ensures state { state_of self.new ≡ with_line line.items (state_of self.old) }
        ensures counts { Counts self.new }
        ensures limits { self.new.limits ≡ self.old.limits }
    {
        self.bytes += line.len() as u64;
        self.transcript.push_reserved(line);
    }

    // Charges the work of a line that was read, after which no part of a form is left.
    fn charge(&mut self, work: u64)
        requires counts { Counts self.old }
        requires paid { work ≤ self.old.work_left }
        ensures state { state_of self.new ≡ record (state_of self.old)
            { work_left = self.old.work_left - work; pending = [] } }
        ensures counts { Counts self.new }
        ensures limits { self.new.limits ≡ self.old.limits }
    {
        self.work_left -= work;
        self.pending.clear();
    }
}

// Copies a line that is to be stored, and reserves room for it.
fn room_for(
    transcript: &mut Vec<Vec<u8>>,
    alloc: Global,
    text: &[u8],
) -> Result<Vec<u8>, AllocError>
    ensures items { transcript.new.items ≡ transcript.old.items }
    ensures line { IfOk result (λ line. line.items ≡ text.now) }
    ensures room { OnOk result (vec_len transcript.new < vec_capacity transcript.new) }
{
    let line = Vec::from_slice(alloc, text)?;
    transcript.reserve(1)?;
    Ok(line)
}

// Joins a part to those before it, with a blank in place of its last byte.
fn join(pending: &mut Vec<u8>, text: &[u8]) -> Result<(), AllocError>
    requires { is_part text.now ≡ true }
    ensures ok { OnOk result (pending.new.items ≡ pending.old.items
        ++ (take (length text.now - 1) text.now ++ codes " ")) }
    ensures err { OnErr result (pending.new.items ≡ pending.old.items) }
{
    pending.extend_from_slice(text)?;
    let _ = pending.pop();
    pending.push_reserved(b' ');
    Ok(())
}

fn define(bindings: &mut Bindings, alloc: Global, definition: Definition) -> Result<(), AllocError>
    requires { CanBe (bindings_of bindings.old) definition }
    ensures ok { OnOk result (bindings_of bindings.new
        ≡ put_binding definition.name.items (meaning_of definition.meaning) (bindings_of bindings.old)) }
    ensures err { OnErr result (bindings.new ≡ bindings.old) }
{
    let Definition { name, meaning } = definition;
    let name = name.as_slice();
    match meaning {
        Meaning::Variable(ty, value, _) => bindings.set_variable(alloc, name, ty, value),
        Meaning::Function(scheme, parameter, body) => bindings.set_function(
            alloc, name, scheme, parameter, body,
        ),
        Meaning::Datatype(_, content) => bindings.set_datatype(alloc, name, content),
    }
}
