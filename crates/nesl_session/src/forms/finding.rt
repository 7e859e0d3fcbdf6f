//! What is found of a line.
ghost use Rattle.std.specs.Prelude.{◌≡◌, ℕ};

use nesl_reply::{Fault, Reply, Used};
use nesl_scalars::Cost;
use nesl_syntax_tree::tree::{Exp, Pattern};
use nesl_types::{Scheme, Ty};
use nesl_values::Value;

/// What a name is about to be defined as.
#[derive(Drop)]
pub enum Meaning {
    /// A variable: its type, its value, and what the evaluation cost.
    Variable(Ty, Value, Cost),
    /// A function: its type, its parameter and its body.
    Function(Scheme, Pattern, Exp),
    /// A datatype: its tag, and what its records hold.
    Datatype(u64, Ty),
}

/// A name, and what it is about to be defined as.
#[derive(Drop)]
pub struct Definition {
    pub name: Vec<u8>,
    pub meaning: Meaning,
}

/// What is replied to a line that binds no name.
#[derive(Drop)]
pub enum Shown {
    /// The line has no tokens.
    Blank,
    /// All names.
    Names,
    /// The work that is left, and how much is used of each limit: elements, lines, and bytes of lines.
    Budget(u64, Used, Used, Used),
    /// The type of an expression.
    Type(Ty),
}

/// What is found of a line: the first check that fails, or what the line does.
#[derive(Drop)]
pub enum Finding {
    /// The line is refused unread, and nothing changes.
    Unread(Fault),
    /// Everything is dropped but the work that is left.
    Reset,
    /// The line is part of a form that isn't complete yet.
    Part,
    /// The line is refused, after this amount of work.
    Refused(Fault, u64),
    /// The line is answered, and binds no name.
    Answered(Shown),
    /// The line binds a name.
    Defined(Definition),
}

impl Meaning {
    ghost use Rattle.nesl_session.specs.Found.{work_of};

    /// The work of the evaluation, or 0 if there was none.
    pub fn work(&self) -> u64
        ensures { result ≡ work_of self.now }
    {
        match self {
            Meaning::Variable(_, _, cost) => cost.work,
            Meaning::Function(_, _, _) => 0,
            Meaning::Datatype(_, _) => 0,
        }
    }
}

impl Definition {
    ghost use Rattle.nesl_session.specs.Found.{definition_report};
    ghost use Rattle.nesl_reply.specs.Replies.{report_of};

    fn reply(&self) -> Reply<'_>
        ensures { report_of result ≡ definition_report self.now.name.items self.now.meaning }
    {
        let name = self.name.as_slice();
        match &self.meaning {
            Meaning::Variable(ty, value, cost) => Reply::Bound(name, value, ty, *cost),
            Meaning::Function(scheme, _, _) => Reply::FunTold(name, scheme),
            Meaning::Datatype(_, content) => Reply::DatatypeTold(name, content),
        }
    }
}

impl Shown {
    ghost use Rattle.nesl_session.specs.Found.{shown_report};
    ghost use Rattle.nesl_reply.specs.Replies.{report_of};

    fn reply(&self) -> Reply<'_>
        ensures { report_of result ≡ shown_report self.now }
    {
        match self {
            Shown::Blank => Reply::Blank,
            Shown::Names => Reply::Names,
            Shown::Budget(work, elements, lines, bytes) => Reply::Budget(
                *work, *elements, *lines, *bytes,
            ),
            Shown::Type(ty) => Reply::Shown(ty),
        }
    }
}

impl Finding {
    ghost use Rattle.nesl_session.specs.Found.{finding_report, fault_in, is_recorded};
    ghost use Rattle.nesl_reply.specs.Replies.{report_of};

    /// What is replied, if the session stores this number of lines.
    pub fn reply(&self, lines: u64) -> Reply<'_>
        ensures { report_of result ≡ finding_report lines self.now }
    {
        match self {
            Finding::Unread(fault) => Reply::Refused(*fault),
            Finding::Reset => Reply::Cleared(lines),
            Finding::Part => Reply::More,
            Finding::Refused(fault, _) => Reply::Refused(*fault),
            Finding::Answered(shown) => shown.reply(),
            Finding::Defined(definition) => definition.reply(),
        }
    }

    /// Why the line is refused, if it is.
    pub fn fault(&self) -> Option<Fault>
        ensures { result ≡ fault_in self.now }
    {
        match self {
            Finding::Unread(fault) => Some(*fault),
            Finding::Refused(fault, _) => Some(*fault),
            _ => None,
        }
    }

    /// Whether the line is recorded.
    pub fn is_recorded(&self) -> bool
        ensures { result ≡ is_recorded self.now }
    {
        !matches!(self, Finding::Unread(_))
    }
}
