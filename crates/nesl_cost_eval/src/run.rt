//! An evaluation under way: what it has cost, and the fuel that is left.
ghost use Rattle.std.specs.Prelude.{◌≡◌, MatchResult, map, length};
ghost use Rattle.nesl_values.specs.Tree.{sequence, character};
ghost use Rattle.nesl_values.specs.View.{tree_of};
ghost use Rattle.nesl_seqs_base.specs.Lent.{argument_tree};
ghost use Rattle.nesl_eval_meaning.specs.Names.{Value as Meant};
ghost use Rattle.nesl_eval_meaning.specs.Out.{Out, value};
ghost use Rattle.nesl_eval_meaning.specs.Outcome.{apply_builtin};
ghost use Rattle.nesl_eval_nodes.specs.Meets.{Meets, Is};
ghost use Rattle.nesl_cost_meaning.specs.Cost.{spent, entered};
ghost use Rattle.nesl_cost_meaning.specs.Traced.{charged};
ghost use Rattle.nesl_cost_rows.specs.Written.{note_of};
ghost use Rattle.nesl_cost_eval.specs.Writes.{Writes, Adds, Notes, Lacks, book, noted, closed, joined_by};

use crate::unfinished::{Unfinished, halted};
use nesl_builtins::Builtin;
use nesl_cost_rows::trace::{Mark, Trace};
use nesl_eval_nodes::meter::{Meter, Stop};
use nesl_eval_nodes::nodes::{apply_builtin, make_pair, make_text};
use nesl_lex::token::Span;
use nesl_seqs::Argument;
use nesl_values::Value;
use std::alloc::Global;

/// An evaluation under way. The depth of its meter is that of all turns, one after the other, so only what it gains
/// at a node says anything.
#[derive(Drop)]
pub(crate) struct Run<'a> {
    pub trace: Trace<'a>,
    pub meter: Meter,
}

/// What becomes of two parts.
#[derive(Clone, Copy)]
pub(crate) enum Joined {
    Pair,
    /// The argument of a function.
    Argument(Builtin),
}

impl<'a> Run<'a> {
    /// Notes a mark, which costs nothing of its own.
    pub fn note(&mut self, mark: Mark<'a>) -> Result<(), Unfinished<'a>>
        ensures { MatchResult result
            (λ _. book self.new ≡ noted (note_of mark.entry) (book self.old))
            (λ e. e ≡ Unfinished.Memory) }
    {
        match self.trace.add(mark) {
            Ok(()) => Ok(()),
            Err(_) => Err(Unfinished::Memory),
        }
    }

    /// Enters a node, which costs 1 of both.
    pub fn enter(&mut self, span: Span) -> Result<(), Unfinished<'a>>
        ensures { MatchResult result
            (λ _. Adds (book self.old) (book self.new) (entered span))
            (λ e. Lacks (book self.old) 1 e) }
    {
        match self.meter.charge_deep(1, 1) {
            Ok(()) => self.note(Mark::Entered(span)),
            Err(_) => Err(Unfinished::Over),
        }
    }

    /// Charges the work at a node besides its own 1.
    pub fn spend(&mut self, span: Span, work: u64) -> Result<(), Unfinished<'a>>
        ensures { MatchResult result
            (λ _. Adds (book self.old) (book self.new) (spent span work 0))
            (λ e. Lacks (book self.old) work e) }
    {
        match self.meter.charge(work) {
            Ok(()) => self.note_spent(span, work, 0),
            Err(_) => Err(Unfinished::Over),
        }
    }

    // Notes what was spent at a node already.
    fn note_spent(&mut self, span: Span, work: u64, depth: u64) -> Result<(), Unfinished<'a>>
        ensures { MatchResult result
            (λ _. Notes (book self.old) (book self.new) (spent span work depth))
            (λ e. e ≡ Unfinished.Memory) }
    {
        if work == 0 && depth == 0 {
            return Ok(());
        }
        self.note(Mark::Besides { span, work, depth })
    }

    // Notes at a node what its meter lost and gained since then. A fault is no deeper.
    fn settle(
        &mut self,
        span: Span,
        before: Meter,
        found: Result<Value, Stop>,
    ) -> Result<Value, Unfinished<'a>>
        ensures { (o : Out Meant) → Meets Is before found self.old.meter o
            → Writes Is (record { notes = (book self.old).notes; fuel = before.fuel }) result (book self.new)
            (charged span o) }
    {
        let work = before.fuel().saturating_sub(self.meter.fuel());
        match found {
            Ok(value) => {
                let depth = self.meter.depth().saturating_sub(before.depth());
                self.note_spent(span, work, depth)?;
                Ok(value)
            }
            Err(stop) => {
                self.note_spent(span, work, 0)?;
                halted(Err(stop))
            }
        }
    }

    /// A built-in function at its argument.
    pub fn apply(
        &mut self,
        alloc: Global,
        span: Span,
        function: Builtin,
        argument: Argument<'_>,
    ) -> Result<Value, Unfinished<'a>>
        ensures { Writes Is (book self.old) result (book self.new)
            (charged span (apply_builtin span function (argument_tree argument.entry))) }
    {
        let before = self.meter;
        let found = apply_builtin(function, argument, span, &mut self.meter, alloc);
        self.settle(span, before, found)
    }

    /// The value of a text, whose characters cost.
    pub fn text(&mut self, alloc: Global, span: Span, bytes: &[u8]) -> Result<Value, Unfinished<'a>>
        ensures { Writes Is (book self.old) result (book self.new)
            (charged span (value (sequence (map character bytes.now)) (length bytes.now) 0)) }
    {
        let before = self.meter;
        let found = make_text(bytes, &mut self.meter, alloc);
        self.settle(span, before, found)
    }

    /// What becomes of two parts.
    pub fn join(
        &mut self,
        alloc: Global,
        span: Span,
        joined: Joined,
        left: Value,
        right: Value,
    ) -> Result<Value, Unfinished<'a>>
        ensures { Writes Is (book self.old) result (book self.new)
            (joined_by span joined (tree_of left) (tree_of right)) }
    {
        match joined {
            Joined::Pair => halted(make_pair(left, right, span, alloc)),
            Joined::Argument(function) => {
                self.apply(alloc, span, function, Argument::Two(&left, &right))
            }
        }
    }

    /// Ends turns that are one in the others of the other.
    pub fn close(&mut self, turns: usize) -> Result<(), Unfinished<'a>>
        ensures { MatchResult result
            (λ _. book self.new ≡ closed turns (book self.old))
            (λ e. e ≡ Unfinished.Memory) }
    {
        for _turn in 0..turns {
            self.note(Mark::Turned)?;
        }
        Ok(())
    }
}
