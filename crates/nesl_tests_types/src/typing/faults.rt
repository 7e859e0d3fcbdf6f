//! The texts of the refusals.

use nesl_lex::LexFault;
use nesl_syntax::ParseFault;
use std::alloc::{AllocError, Global};

const TEXTS: &str = "no token stands at byte 7; out of memory; the tokens have no tree; \
    the tree of the tokens is higher than 100; out of memory";

/// The text of each refusal.
fn texts(alloc: Global) -> Result<String, AllocError> {
    let (lexical, no_memory) = (LexFault::Lexical { at: 7 }, LexFault::Memory);
    let (syntax, nested, none) = (ParseFault::Syntax, ParseFault::Nested, ParseFault::Memory);
    format!(in alloc; "{lexical}; {no_memory}; {syntax}; {nested}; {none}")
}

#[test]
fn each_refusal_has_a_text(rt: HostRuntime) {
    let texts = texts(rt.alloc()).expect(&rt, "memory");
    assert!(rt; texts.as_str() == TEXTS);
}
