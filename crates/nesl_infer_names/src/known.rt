//! Whether a name refers to something.

ghost use Rattle.std.specs.Prelude.{◌≡◌};
ghost use Rattle.std.specs.Option.{is_some, option_map};
ghost use Rattle.nesl_infer_names.specs.Names.{names_in, datatype_in};

use nesl_builtins::named;
use nesl_types::{Context, Top};

/// Whether a variable node with the name, which is no local one, refers to something. `own` is the name of the
/// function whose body it is in.
pub fn is_variable<P: Drop>(context: &Context<P>, own: &Option<Vec<u8>>, name: &[u8]) -> bool
    ensures { result ≡ is_some ((names_in context.now (option_map (λ v. v.items) own.now)).variables name.now) }
{
    if let Some(own) = own {
        if name == own.as_slice() || name == b"it".as_slice() {
            return false;
        }
    }
    match context.get(name) {
        Some((Top::Variable(_), _)) => true,
        Some((Top::Function(_), _)) => false,
        Some((Top::Datatype(_, _), _)) => false,
        None => false,
    }
}

/// Whether an application node with the name refers to something.
pub fn is_function<P: Drop>(context: &Context<P>, own: &Option<Vec<u8>>, name: &[u8]) -> bool
    ensures { result ≡ is_some ((names_in context.now (option_map (λ v. v.items) own.now)).functions name.now) }
{
    if let Some(own) = own {
        if name == own.as_slice() {
            return true;
        }
    }
    if named(name).is_some() {
        return true;
    }
    match context.get(name) {
        Some((Top::Variable(_), _)) => false,
        Some((Top::Function(_), _)) => true,
        Some((Top::Datatype(_, _), _)) => true,
        None => false,
    }
}

/// Whether the name is a datatype.
pub fn is_datatype<P: Drop>(context: &Context<P>, name: &[u8]) -> bool
    ensures { result ≡ is_some (datatype_in context.now name.now) }
{
    match context.get(name) {
        Some((Top::Variable(_), _)) => false,
        Some((Top::Function(_), _)) => false,
        Some((Top::Datatype(_, _), _)) => true,
        None => false,
    }
}
