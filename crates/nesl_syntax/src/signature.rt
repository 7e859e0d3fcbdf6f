// A function's signature: its types, and the classes of names in them.

ghost use Rattle.std.specs.Prelude.{◌≡◌, ◌≢◌, ◌≤◌, ◌<◌, Some, IfOk, IfErr, IfSome, IfNone};
ghost use Rattle.nesl_syntax_tree.specs.declared.tree.Class as class;
ghost use Rattle.nesl_syntax_tree.specs.Lines.{class_text};
ghost use Rattle.nesl_syntax.specs.declared.signature.SignaturePart.TheVariants as signatures;
ghost use Rattle.nesl_syntax_tree.specs.Trees.{TypeTree};
ghost use Rattle.nesl_syntax_tree.specs.Views.{member_tree};
ghost use Rattle.nesl_syntax_tree.specs.Parts.{SeesType};
ghost use Rattle.nesl_syntax.specs.Reading as reading;
ghost use Rattle.nesl_syntax.specs.Given.{Given, SeesMember, SeesMembers, SeesTarget, SeesSignature};
ghost use Rattle.nesl_lex.specs.Tokens.{lexeme_of, placed};

use crate::cut::{Divider, cut};
use crate::parse::written_type;
use crate::text::is_text;
use nesl_lex::token::{Kind, Sign, Token, Word};
use nesl_syntax_open::ParseFault;
use nesl_syntax_tree::parts::types::TypePart;
use nesl_syntax_tree::tree::{Class, Member, Signature, TypeExp};
use std::alloc::Global;

/// A signature, or one with a type that is too high.
#[derive(Drop)]
pub enum SignaturePart {
    Built(Box<Signature>),
    High,
}

/// What comes after a signature's `->`.
#[derive(Drop)]
pub struct Target {
    pub to: TypePart,
    pub members: Vec<Member>,
}

fn class_named(name: &[u8]) -> Option<Class>
    ensures some { IfSome result (λ k. name.now ≡ class_text k) }
    ensures none { IfNone result ((k : class.Class) → name.now ≢ class_text k) }
{
    if is_text(name, b"any") {
        Some(Class::Any)
    } else if is_text(name, b"ordinal") {
        Some(Class::Ordinal)
    } else if is_text(name, b"number") {
        Some(Class::Number)
    } else if is_text(name, b"logical") {
        Some(Class::Logical)
    } else {
        None
    }
}

fn class_of(name: &[u8]) -> Option<Class>
    ensures { result ≡ reading.class_of name.now }
{
    class_named(name)
}

// The member of a name's token and a class's.
fn member_named(name: &Token, class: &Token) -> Result<Member, ParseFault>
    ensures { Given SeesMember result (reading.member_named (lexeme_of name.now.kind) (lexeme_of class.now.kind)) }
{
    match &name.kind {
        Kind::Name(name) => match &class.kind {
            Kind::Name(class) => match class_of(class.as_slice()) {
                Some(class) => {
                    let name = name.clone()?;
                    Ok(Member { name, class })
                }
                None => Err(ParseFault::Syntax),
            },
            _ => Err(ParseFault::Syntax),
        },
        _ => Err(ParseFault::Syntax),
    }
}

// A name, `in` and a class.
fn member(name: &Token, word: &Token, class: &Token) -> Result<Member, ParseFault>
    ensures { Given SeesMember result (reading.member_of
        (lexeme_of name.now.kind) (lexeme_of word.now.kind) (lexeme_of class.now.kind)) }
{
    match &word.kind {
        Kind::Reserved(word) => match word {
            Word::In => member_named(name, class),
            _ => Err(ParseFault::Syntax),
        },
        _ => Err(ParseFault::Syntax),
    }
}

/// What comes after a member.
#[derive(Clone, Copy, PartialEq, Eq)]
enum MemberEnd {
    /// A `)`, and nothing more.
    Close,
    Semicolon,
    Other,
}

// What a token and those after it are.
fn behind_of(token: &Token, rest: &[Token]) -> MemberEnd
    ensures { result ≡ reading.behind_of (lexeme_of token.now.kind) (placed rest.now) }
{
    match &token.kind {
        Kind::Symbol(sign) => match sign {
            Sign::CloseParenthesis => match rest {
                [] => MemberEnd::Close,
                _ => MemberEnd::Other,
            },
            Sign::Semicolon => MemberEnd::Semicolon,
            _ => MemberEnd::Other,
        },
        _ => MemberEnd::Other,
    }
}

// Members with `;` between, and a `)` after them.
fn members(alloc: Global, tokens: &[Token]) -> Result<Vec<Member>, ParseFault>
    ensures { Given (λ v. SeesMembers v.items) result (reading.members_in (placed tokens.now)) }
{
    let mut members = Vec::new(alloc);
    let mut rest = tokens;
    while let [name, word, class, sign, behind @ ..] = rest {
        members.push(member(name, word, class)?)?;
        match behind_of(sign, behind) {
            MemberEnd::Semicolon => rest = behind,
            MemberEnd::Close => return Ok(members),
            MemberEnd::Other => return Err(ParseFault::Syntax),
        }
    }
    Err(ParseFault::Syntax)
}

// Members in parentheses.
fn bracketed(alloc: Global, tokens: &[Token]) -> Result<Vec<Member>, ParseFault>
    ensures { Given (λ v. SeesMembers v.items) result (reading.bracketed_in (placed tokens.now)) }
{
    let [first, rest @ ..] = tokens else {
        return Err(ParseFault::Syntax);
    };
    match &first.kind {
        Kind::Symbol(sign) => match sign {
            Sign::OpenParenthesis => members(alloc, rest),
            _ => Err(ParseFault::Syntax),
        },
        _ => Err(ParseFault::Syntax),
    }
}

// A type, and the members after a `::`, if there is one.
fn read_target(alloc: Global, tokens: &[Token]) -> Result<Target, ParseFault>
    ensures { Given SeesTarget result (reading.target_in (placed tokens.now)) }
{
    match cut(Divider::DoubleColon, tokens) {
        None => {
            let to = written_type(alloc, tokens)?;
            let members = Vec::new(alloc);
            Ok(Target { to, members })
        }
        Some((front, behind)) => {
            let to = written_type(alloc, front)?;
            let members = bracketed(alloc, behind)?;
            Ok(Target { to, members })
        }
    }
}

// Drops the parts of what is too high.
fn too_high<T: Drop>(parts: T) -> SignaturePart
    ensures { result ≡ signatures.High }
{
    drop(parts);
    SignaturePart::High
}

// A signature on the heap.
fn make_signature(
    alloc: Global,
    from: Box<TypeExp>,
    to: Box<TypeExp>,
    members: Vec<Member>,
) -> Result<Box<Signature>, ParseFault>
    ensures made { IfOk result (λ r. (r.value.from ≡ from.value) × (r.value.to ≡ to.value)
        × (r.value.members ≡ members)) }
    ensures fails { IfErr result (λ e. e ≡ ParseFault.Memory) }
{
    let signature = Signature {
        from: Box::into_inner(from),
        to: Box::into_inner(to),
        members,
    };
    Ok(Box::new(alloc, signature)?)
}

// The signature of its parts.
fn signature_of(alloc: Global, from: TypePart, target: Target) -> Result<SignaturePart, ParseFault>
    ensures { (a : TypeTree) (r : reading.Targets) → SeesType from a → SeesTarget target r →
        Given SeesSignature result (Some (reading.signature_of a r)) }
{
    let Target { to, members } = target;
    match from {
        TypePart::Built { written: from, .. } => match to {
            TypePart::Built { written: to, .. } => {
                let signature = make_signature(alloc, from, to, members)?;
                Ok(SignaturePart::Built(signature))
            }
            TypePart::High => Ok(too_high((from, members))),
        },
        TypePart::High => Ok(too_high((to, members))),
    }
}

/// The signature that the tokens are.
pub fn signature(alloc: Global, tokens: &[Token]) -> Result<SignaturePart, ParseFault>
    ensures { Given SeesSignature result (reading.signature_in (placed tokens.now)) }
{
    let Some((front, behind)) = cut(Divider::RightArrow, tokens) else {
        return Err(ParseFault::Syntax);
    };
    let from = written_type(alloc, front)?;
    let target = read_target(alloc, behind)?;
    signature_of(alloc, from, target)
}
