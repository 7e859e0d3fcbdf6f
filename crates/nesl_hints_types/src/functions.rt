//! Whole forms.

use crate::clash::{Halt, Role, Typed};
use crate::guesses::of_class;
use crate::names::Names;
use crate::walk::{Own, Walk};
use nesl_syntax_tree::tree as syntax;
use nesl_syntax_tree::tree::{Exp, Form, Pattern, Signature};
use nesl_types::Class;

/// The class of types that a written class is.
fn class_of(class: syntax::Class) -> Class {
    match class {
        syntax::Class::Any => Class::Any,
        syntax::Class::Ordinal => Class::Ordinal,
        syntax::Class::Number => Class::Number,
        syntax::Class::Logical => Class::Logical,
    }
}

impl<'e> Walk<'e> {
    /// Walks over a form, and gives its expression. A definition has no expression of its own.
    pub fn form(&mut self, form: &'e Form) -> Result<Option<Typed>, Halt> {
        match form {
            Form::Eval(exp) | Form::ShowType(exp) | Form::Bind { value: exp, .. } => {
                Ok(Some(Typed::new(exp.span, self.check(exp)?)))
            }
            Form::Fun {
                name,
                parameter,
                signature,
                body,
            } => {
                self.function(name.as_slice(), parameter, signature, body)?;
                Ok(None)
            }
            _ => Ok(None),
        }
    }

    fn function(
        &mut self,
        name: &'e [u8],
        parameter: &'e Pattern,
        signature: &'e Option<Signature>,
        body: &'e Exp,
    ) -> Result<(), Halt> {
        let ends = self.guesses.unknown()?;
        self.own = Some(Own { name, ends });
        self.bind(parameter, ends.takes)?;
        let signed = match signature {
            Some(signature) => Some(self.sign(parameter, signature, ends.takes)?),
            None => None,
        };
        let found = Typed::new(body.span, self.check(body)?);
        if let Some(wanted) = signed {
            self.same(Role::Body, wanted, found)?;
        }
        self.join(Role::OwnBody, found, ends.gives)
    }

    // What a signature says of the parameter; gives the type that it says the body has.
    fn sign(
        &mut self,
        parameter: &'e Pattern,
        signature: &'e Signature,
        takes: usize,
    ) -> Result<Typed, Halt> {
        let mut names = Names::new(self.alloc);
        let own = Typed::new(parameter.span, takes);
        self.sign_with(own, signature, &mut names)
    }

    // The same, where the parameter is known, and the names of types are noted.
    fn sign_with(
        &mut self,
        own: Typed,
        signature: &'e Signature,
        names: &mut Names<'e>,
    ) -> Result<Typed, Halt> {
        let from = Typed::new(signature.from.span, self.written(&signature.from, names)?);
        let to = Typed::new(signature.to.span, self.written(&signature.to, names)?);
        for member in &signature.members {
            let wanted = self.add(of_class(class_of(member.class)))?;
            let place = self.named_type(member.name.as_slice(), names)?;
            self.join(Role::Parameter, Typed::new(from.span, place), wanted)?;
        }
        self.same(Role::Parameter, from, own)?;
        Ok(to)
    }
}
