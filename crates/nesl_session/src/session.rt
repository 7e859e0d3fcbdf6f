//! One user's session.
ghost use Rattle.std.specs.Prelude.{◌≡◌, ◌≤◌, [], IfOk, OnErr, map};
ghost use Rattle.nesl_syntax_tree.specs.Views.{tree_of};
ghost use Rattle.nesl_eval_meaning.specs.Names.{outside};
ghost use Rattle.nesl_eval_meaning.specs.Out.{within};
ghost use Rattle.nesl_eval_meaning.specs.Outcome.{out};
ghost use Rattle.nesl_eval_top_level.specs.Stored.{environment};
ghost use Rattle.nesl_eval.specs.Outcomes.{OutcomeIs};
ghost use Rattle.nesl_session_meaning.specs.State.{State, remaining_of, recorded_lines, empty_log};
ghost use Rattle.nesl_session_meaning.specs.Solo.{Replays, Responds};
ghost use Rattle.nesl_session_bindings.specs.Stored.{bindings_of};
ghost use Rattle.nesl_session.specs.Asking.{AnswersWith};
ghost use Rattle.std.specs.Iterator.{item_count, YieldsFirstRef};

use crate::answer::Answer;
use crate::evaluator::{ByCall, Evaluator, InHeap, InPlace};
use crate::line::{find, step};
use crate::standing::Standing;
use nesl_eval::Outcome;
use nesl_eval_helpers::{Gate, Helpers};
use nesl_eval_top_level::Env;
use nesl_reply::Fault;
use nesl_session_bindings::Bindings;
use nesl_session_meaning::limits::{Limits, Remaining};
use nesl_split::eval_split;
use nesl_syntax_tree::tree::Exp;
use std::alloc::{AllocError, Allocator, Global};
use std::marker::Model;
use std::thread::Threads;

/// A session. Contracts see its limits, what the last reset left, and the lines that it has stored since. Its state is
/// the replay of these lines.
pub struct Session {
    standing: Standing,
}

// Written by hand, so that no crate that uses this one has to prove how the parts are dropped.
impl Drop for Session {
    fn drop(self) {
        let Session { standing } = self;
        drop(standing);
    }
}

impl Model for Session {
    ghost use Rattle.nesl_session_meaning.specs.State.{Log};

    ghost Value = { Log };

    ghost use Rattle.nesl_session.specs.Inside.{log_of, IsSound};

    ghost view = { λ s. log_of s.standing };

    ghost invariant = { λ s. IsSound s.standing };
}

/// The names that are bound, in order of their first definition.
#[derive(Drop)]
pub struct Names<'a> {
    bindings: &'a Bindings,
    place: usize,
}

impl<'a> Iterator for Names<'a> {
    ghost use Rattle.nesl_session.specs.Names.{names_left};

    type Item = &'a [u8];

    ghost next_gives = { YieldsFirstRef names_left };

    ghost remaining = { item_count names_left };

    fn next(&mut self) -> Option<&'a [u8]> {
        let bindings = self.bindings;
        if self.place >= bindings.len() {
            return None;
        }
        let name = bindings.name_at(self.place);
        self.place += 1;
        name
    }
}

impl Session {
    ghost use Rattle.nesl_session.specs.Inside.{state_of, log_of, IsSound};
    ghost use Rattle.nesl_session.specs.Names.{names_left};
    ghost use Rattle.nesl_session_meaning.specs.Step.{most_recorded};

    /// The empty session: nothing is bound or recorded, and all of its work is left.
    pub fn new(alloc: Global, limits: Limits) -> Result<Session, AllocError>
        ensures empty { IfOk result (λ s. s ≡ empty_log limits) }
        ensures replayed { IfOk result (λ s. (state : State) × Replays s state) }
    {
        Ok(Session {
            standing: Standing::opened(alloc, limits, limits.session_work, 0),
        })
    }

    /// A session as a reset leaves it: with this work left, and this number of recorded lines. Nothing is bound.
    pub fn opened(alloc: Global, limits: Limits, base: u64, cleared: u64) -> Session
        requires { cleared ≤ most_recorded }
        ensures opened { result ≡ record { limits = limits; base = base; cleared = cleared; lines = [] } }
        ensures replayed { (state : State) × Replays result state }
    {
        Session {
            standing: Standing::opened(alloc, limits, base, cleared),
        }
    }

    /// The limits that the session was given.
    pub fn limits(&self) -> Limits
        ensures { result ≡ self.now.limits }
    {
        self.standing.limits
    }

    /// The lines that the session has stored since the last reset. Its state is their replay.
    pub fn lines(&self) -> &[Vec<u8>]
        ensures lines { map (λ v. v.items) result.now ≡ self.now.lines }
        ensures replayed { (state : State) × Replays self.now state }
    {
        self.standing.transcript.as_slice()
    }

    /// The work that was left at the last reset, or at first if there was none.
    pub fn base(&self) -> u64
        ensures { result ≡ self.now.base }
    {
        self.standing.base
    }

    /// The number of lines recorded until the last reset, the reset included.
    pub fn cleared(&self) -> u64
        ensures { result ≡ self.now.cleared }
    {
        self.standing.cleared
    }

    /// The number of recorded lines: those that the session stores, and those that resets cleared.
    pub fn recorded_lines(&self) -> u64
        ensures { result ≡ recorded_lines self.now }
    {
        self.standing.cleared + self.standing.transcript.len() as u64
    }

    /// The joined parts of a form that isn't complete yet.
    pub fn pending(&self) -> &[u8]
        ensures { (s : State) × Replays self.now s × (result.now ≡ s.pending) }
    {
        self.standing.pending.as_slice()
    }

    /// What is left of each limit.
    pub fn remaining(&self) -> Remaining
        ensures { (s : State) × Replays self.now s × (result ≡ remaining_of self.now.limits s) }
    {
        let limits = self.standing.limits;
        Remaining {
            work: self.standing.work_left,
            elements: limits
                .elements
                .saturating_sub(self.standing.bindings.elements()),
            lines: limits
                .transcript_lines
                .saturating_sub(self.standing.transcript.len() as u64),
            bytes: limits.transcript_bytes.saturating_sub(self.standing.bytes),
        }
    }

    /// The names that are bound, in order of their first definition.
    pub fn bindings(&self) -> Names<'_>
        ensures { (s : State) × Replays self.now s × (names_left result ≡ map (λ b. b.name) s.bindings) }
    {
        Names {
            bindings: &self.standing.bindings,
            place: 0,
        }
    }

    /// What the names mean.
    pub fn meanings(&self) -> &Bindings
        ensures { (s : State) × Replays self.now s × (bindings_of result.now ≡ s.bindings) }
    {
        &self.standing.bindings
    }

    /// Why a line would be refused, or `None` if it wouldn't. This takes as much work as the line, and changes nothing.
    pub fn fault_of(&self, alloc: Global, text: &[u8]) -> Result<Option<Fault>, AllocError>
        ensures { IfOk result (AnswersWith self.now text.now) }
    {
        let finding = find(&self.standing, alloc, text, &InPlace)?;
        let fault = finding.fault();
        finding.release();
        Ok(fault)
    }

    /// Answers one line. The answer is the step's, or `fault memory`, which changes nothing.
    pub fn line(&mut self, alloc: Global, text: &[u8]) -> Answer
        ensures { Responds self.old text.now result self.new }
    {
        self.line_by(alloc, text, &InPlace)
    }

    /// Answers one line, which is evaluated in `heap`. A value that is bound is copied out of the heap. The answer is
    /// the step's, or `fault memory`, which changes nothing.
    pub fn line_in<A: Allocator + Copy>(&mut self, alloc: Global, text: &[u8], heap: A) -> Answer
        ensures { Responds self.old text.now result self.new }
    {
        self.line_by(alloc, text, &InHeap { heap })
    }

    /// Answers one line, which is evaluated in halves that threads share, where `helpers` are granted. The call waits
    /// for these threads. The answer is the step's, or `fault memory`, which changes nothing.
    pub fn line_split<R: Threads + Sync, H: Helpers + Sync, G: Gate + Sync>(
        &mut self,
        rt: &R,
        alloc: Global,
        text: &[u8],
        helpers: &H,
        gate: &G,
    ) -> Answer
        ensures { Responds self.old text.now result self.new }
    {
        let call = |env: &Env, exp: &Exp, levels: u32, fuel: u64| -> Outcome<Global>
            ensures { OutcomeIs result (within fuel (out levels (environment env.now) (outside []) (tree_of exp.now))) }
        { eval_split(rt, alloc, env, exp, levels, fuel, helpers, gate) };
        self.line_by(alloc, text, &ByCall { call })
    }

    // Answers one line by an evaluator.
    fn line_by<A: Allocator, E: Evaluator<A>>(
        &mut self,
        alloc: Global,
        text: &[u8],
        by: &E,
    ) -> Answer
        requires { E.sound by.now }
        ensures { Responds self.old text.now result self.new }
    {
        match self.try_line(alloc, text, by) {
            Ok(answer) => answer,
            Err(_) => Answer::no_memory(),
        }
    }

    fn try_line<A: Allocator, E: Evaluator<A>>(
        &mut self,
        alloc: Global,
        text: &[u8],
        by: &E,
    ) -> Result<Answer, AllocError>
        requires { E.sound by.now }
        ensures ok { IfOk result (λ a. Responds self.old text.now a self.new) }
        ensures err { OnErr result (self.new ≡ self.old) }
    {
        let answer = step(&mut self.standing, alloc, text, by)?;
        Ok(answer)
    }
}
