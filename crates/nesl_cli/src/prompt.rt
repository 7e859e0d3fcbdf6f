//! The prompt of `repl`.
ghost use Rattle.std.specs.Prelude.{◌≡◌, IfErr, OnOk};
ghost use Rattle.nesl_line.specs.declared.exchange.End.TheVariants as end;
ghost use Rattle.nesl_prompt.specs.Points.{is_plain};
ghost use Rattle.nesl_cli.specs.Failures.{prompt_failure_of};
ghost use Rattle.nesl_words.specs.Wanted.{limits_wanted};
ghost use Rattle.nesl_cli.specs.Program.{limits_by, PromptFails, Prompted};
ghost use Rattle.nesl_cli.specs.Prompted.{access_for, style_for};

use crate::failure::Failure;
use crate::terms::limits_by;
use nesl_line::device::{Sink, Source};
use nesl_line::exchange::End;
use nesl_prompt::converse::converse;
use nesl_prompt::shelf::{Access, Guarded, Shelf};
use nesl_prompt::style::Style;
use nesl_session::session::Session;
use nesl_words::limit_words::LimitWords;
use std::alloc::Global;
use thiserror::Error;

/// Why a prompt ended before the end of input.
#[derive(Clone, Copy, PartialEq, Eq, Debug, Error)]
pub enum PromptFault {
    #[error("repl: read fault")]
    Read,
    #[error("repl: write fault")]
    Write,
    #[error("repl: no memory")]
    Memory,
}

impl PromptFault {
    /// The fault for an end of a prompt. The end of input is no fault.
    pub fn of_end(end: End) -> Option<PromptFault>
        ensures { result ≡ prompt_failure_of end }
    {
        match end {
            End::Input => None,
            End::ReadFault => Some(PromptFault::Read),
            End::WriteFault => Some(PromptFault::Write),
            End::NoMemory => Some(PromptFault::Memory),
        }
    }
}

/// Which of standard input and output are terminals.
#[derive(Clone, Copy, PartialEq, Eq, Debug)]
pub struct Terminals {
    pub input: bool,
    pub output: bool,
}

impl Terminals {
    /// The style of a prompt on these terminals; `is_hinted` is `--hints`.
    pub fn style(self, is_hinted: bool) -> Style
        ensures { result ≡ style_for self is_hinted }
    {
        Style {
            prompts: self.input && self.output,
            hints: self.output || is_hinted,
        }
    }

    /// Whether a prompt on these terminals may open files; `has_files` is `--files`.
    pub fn access(self, has_files: bool) -> Access
        ensures { result ≡ access_for self has_files }
    {
        if self.input || has_files {
            Access::Granted
        } else {
            Access::Refused
        }
    }
}

/// The devices of a prompt besides its reader and its writer.
#[derive(Drop)]
pub struct PromptDevices<'x, F> {
    pub terminals: Terminals,
    /// The files that the prompt loads and saves.
    pub files: &'x F,
}

impl<'x, F> PromptDevices<'x, F> {
    /// The files, as far as the prompt may open them; `has_files` is `--files`.
    pub fn guarded(&self, has_files: bool) -> Guarded<'x, F>
        ensures { result.access ≡ access_for self.now.terminals has_files }
    {
        Guarded {
            files: self.files,
            access: self.terminals.access(has_files),
        }
    }
}

/// Runs a prompt over an empty session with these limits, until the end of input or `:quit`.
#[tactic(auto, using(crate::proofs::Ends::heard, crate::proofs::Ends::broken, crate::proofs::Ends::unmade))]
pub(crate) fn run_prompt<'a, S: Source, W: Sink, F: Shelf>(
    alloc: Global,
    files: &F,
    style: Style,
    limits: LimitWords,
    reader: &mut S,
    writer: &mut W,
) -> Result<(), Failure<'a>>
    ensures prompted { OnOk result (Prompted (is_plain style) end.Input (limits_by (limits_wanted limits))
        (S.left reader.old) (S.left reader.new) (W.held writer.old) (W.held writer.new)) }
    ensures failed { IfErr result (λ failure. PromptFails (is_plain style) (limits_by (limits_wanted limits)) failure
        (S.left reader.old) (S.left reader.new) (W.held writer.old) (W.held writer.new)) }
{
    let Ok(mut session) = Session::new(alloc, limits_by(limits)) else {
        return Err(Failure::Prompt(PromptFault::Memory));
    };
    let ran = converse(alloc, reader, writer, &mut session, files, style);
    match PromptFault::of_end(ran.end) {
        None => Ok(()),
        Some(fault) => Err(Failure::Prompt(fault)),
    }
}
