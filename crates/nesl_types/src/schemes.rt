//! The types of functions.

ghost use Rattle.std.specs.Prelude.{◌≡◌, ◌<◌, ◌++◌, ◌↔◌, [], ℕ, IsTrue, map, length, IfOk};
ghost use Rattle.nesl_types_shared.specs.Term.{variable};
ghost use Rattle.nesl_types.specs.Class.{class_at};
ghost use Rattle.nesl_types_shared.specs.Substitution.{substitute};
ghost use Rattle.nesl_types_shared.specs.Shapes.{IsShapeBelow};
ghost use Rattle.nesl_types_shared.specs.Types.{type_at};
ghost use Rattle.nesl_types_shared.specs.Lists.{last_type};
ghost use Rattle.nesl_types.specs.Numbered.{numbered_shape};
ghost use Rattle.nesl_types_shared.specs.Numbering.{IsBelow, variables, first_occurrences, numbers_below, number_of};

use crate::classes::Class;
use crate::kept::{Kept, Marks};
use indexmap::IndexSet;
use nesl_types_shared::{Bank, Parts, Shape, Ty};
use std::alloc::{AllocError, Global};

/// The type of a function: what it takes, what it gives, and the class of each variable of these types.
/// The variables are numbered from 0 in the order in which they first occur, so that a principal type makes one scheme.
pub struct Scheme {
    pub argument: Ty,
    pub result: Ty,
    pub classes: Vec<Class>,
    pub ghost numbered: { first_occurrences (variables argument ++ variables result)
        ≡ numbers_below (length classes.items) },
}

// By hand, so that no crate above has to prove how the parts are dropped.
impl Drop for Scheme {
    fn drop(self) {
        let Scheme {
            argument,
            result,
            classes,
        } = self;
        drop((argument, result, classes));
    }
}

/// The number of a variable: how many are noted before it.
fn number_of(seen: &IndexSet<u64>, variable: u64) -> u64
    ensures { result ≡ number_of seen.now.keys variable }
{
    match seen.get_index_of(&variable) {
        Some(place) => place as u64,
        None => seen.len() as u64,
    }
}

/// A shape with the number of its variable, and with its parts at the places that are given for them.
fn numbered(seen: &IndexSet<u64>, shape: Shape, places: &[usize]) -> Shape
    requires { IsShapeBelow (length places.now) shape }
    ensures { result ≡ numbered_shape (number_of seen.now.keys) places.now shape }
{
    match shape {
        Shape::Var(variable) => Shape::Var(number_of(seen, variable)),
        Shape::SeqOf(item) => Shape::SeqOf(places[item]),
        Shape::Both(first, second) => Shape::Both(places[first], places[second]),
        _ => shape,
    }
}

/// Puts a type into a bank, with the number of each variable in its place, and gives the place of the type there. In
/// `places` is noted where its parts are.
fn put_numbered(
    seen: &IndexSet<u64>,
    parts: &Parts<'_>,
    bank: &mut Bank,
    places: &mut Vec<usize>,
) -> Result<usize, AllocError>
    requires some { 0 < length parts.now }
    requires bank { bank.old ≡ [] }
    requires places { places.old.items ≡ [] }
    ensures within { IfOk result (λ p. p < length bank.new) }
    ensures here { IfOk result (λ p. type_at bank.new p
        ≡ substitute (λ v. variable (number_of seen.now.keys v)) (last_type parts.now)) }
{
    for place in 0..parts.len() {
        let shape = numbered(seen, parts.shape(place), places.as_slice());
        let put = bank.put(shape)?;
        places.push(put)?;
    }
    Ok(places[parts.len() - 1])
}

/// The type with the number of each variable in its place.
fn renumbered(alloc: Global, seen: &IndexSet<u64>, ty: &Ty) -> Result<Ty, AllocError>
    ensures { IfOk result (λ t. t ≡ substitute (λ v. variable (number_of seen.now.keys v)) ty.now) }
{
    let parts = ty.parts();
    let mut bank = Bank::new(alloc);
    let mut places = Vec::with_capacity(alloc, parts.len())?;
    let place = put_numbered(seen, &parts, &mut bank, &mut places)?;
    Ty::read(alloc, &bank, place)
}

/// The class of a variable, `Any` where none is given.
fn class_of(classes: &[Class], variable: u64) -> Class
    ensures { result ≡ class_at classes.now variable }
{
    match classes.get(variable as usize) {
        Some(class) => *class,
        None => Class::Any,
    }
}

/// The classes of the variables, in order.
fn classes_of(alloc: Global, classes: &[Class], variables: &[u64]) -> Result<Vec<Class>, AllocError>
    ensures { IfOk result (λ cs. cs.items ≡ map (class_at classes.now) variables.now) }
{
    variables
        .iter()
        .map(|variable| class_of(classes, *variable))
        .collect(alloc)
}

/// Whether both are the same classes in the same order.
fn are_same(first: &[Class], second: &[Class]) -> bool
    ensures { IsTrue result ↔ (first.now ≡ second.now) }
{
    first == second
}

impl Scheme {
    ghost use Rattle.nesl_types.specs.Scheme.{IsSchemeOf, IsSameScheme};

    /// A law: each variable of a scheme has a class.
    pub fn variables_have_classes(&self)
        ensures argument { IsBelow (length self.now.classes.items) self.now.argument }
        ensures result { IsBelow (length self.now.classes.items) self.now.result }
    {}

    // This scheme, its types shared with those that are kept, and the numbers under which these are.
    pub(crate) fn shared(
        self,
        alloc: Global,
        kept: &mut Kept,
    ) -> Result<(Scheme, Marks), AllocError>
        ensures { IfOk result (λ r. r.0 ≡ self) }
    {
        let Scheme {
            argument,
            result,
            classes,
        } = self;
        let (argument, first) = kept.share(alloc, argument)?;
        let (gives, second) = kept.share(alloc, result)?;
        let scheme = Scheme {
            argument,
            result: gives,
            classes,
        };
        Ok((scheme, Marks { first, second }))
    }

    /// Whether both are the same scheme.
    pub fn same(&self, other: &Scheme) -> bool
        ensures { IsTrue result ↔ IsSameScheme self.now other.now }
    {
        self.argument.same(&other.argument)
            && self.result.same(&other.result)
            && are_same(self.classes.as_slice(), other.classes.as_slice())
    }

    /// The scheme of a function that takes and gives these types, where `classes` has the class of each variable at the
    /// variable's place: a variable past its end is in `Any`.
    pub fn new(
        alloc: Global,
        takes: &Ty,
        gives: &Ty,
        classes: &[Class],
    ) -> Result<Scheme, AllocError>
        ensures { IfOk result (IsSchemeOf takes.now gives.now (class_at classes.now)) }
    {
        let mut seen = IndexSet::new(alloc);
        Scheme::over(alloc, &mut seen, takes, gives, classes)
    }

    // The scheme of a function with these types, whose variables are noted first.
    fn over(
        alloc: Global,
        seen: &mut IndexSet<u64>,
        takes: &Ty,
        gives: &Ty,
        classes: &[Class],
    ) -> Result<Scheme, AllocError>
        requires { seen.old.keys ≡ [] }
        ensures { IfOk result (IsSchemeOf takes.now gives.now (class_at classes.now)) }
    {
        takes.note_variables(alloc, seen)?;
        gives.note_variables(alloc, seen)?;
        let classes = classes_of(alloc, classes, seen.as_slice())?;
        let argument = renumbered(alloc, seen, takes)?;
        let gives = renumbered(alloc, seen, gives)?;
        Ok(Scheme {
            argument,
            result: gives,
            classes,
        })
    }
}
