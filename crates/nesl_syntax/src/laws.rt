// Laws of the grammar.

ghost use Rattle.nesl_syntax.specs.Laws.{OneTree, OnePattern, OneType, FormComputes};

/// Tokens have at most one expression, one pattern and one type.
pub fn one_phrase()
    ensures expression { OneTree }
    ensures pattern { OnePattern }
    ensures written_type { OneType }
{}

/// A line's form, computed of its tokens: so a crate above can state a worked line as bytes, call this law and give its
/// clause the tokens that `nesl_lex::reading_computes` computes of them.
pub fn form_computes()
    ensures { FormComputes }
{}
