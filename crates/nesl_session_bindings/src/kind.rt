//! What a name is about to be defined as.

ghost use Rattle.std.specs.Prelude.{◌≡◌, ◌↔◌, IsTrue};
ghost use Rattle.nesl_session_bindings.specs.Stored.{kind_of};
ghost use Rattle.nesl_session_bindings.specs.Redefinition.{a_datatype, is_no_variable};

use nesl_types::{Scheme, Ty};

/// What a name is about to be defined as.
#[derive(Clone, Copy)]
pub enum Kind<'a> {
    /// A variable of a type.
    Variable(&'a Ty),
    /// A function of a type.
    Function(&'a Scheme),
    Datatype,
}

impl Kind<'_> {
    pub fn is_datatype(self) -> bool
        ensures { IsTrue result ↔ (kind_of self.entry ≡ a_datatype) }
    {
        match self {
            Kind::Variable(_) => false,
            Kind::Function(_) => false,
            Kind::Datatype => true,
        }
    }

    pub fn is_no_variable(self) -> bool
        ensures { result ≡ is_no_variable (kind_of self.entry) }
    {
        match self {
            Kind::Variable(_) => false,
            Kind::Function(_) => true,
            Kind::Datatype => true,
        }
    }
}
