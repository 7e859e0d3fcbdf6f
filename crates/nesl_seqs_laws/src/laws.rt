//! What `<-` evaluates to, one pair after another.
ghost use Rattle.nesl_seqs_laws.specs.Laws.{WritesNone, WritesInOrder};

/// `v <- p` writes one pair after another: none leaves `v`, and one more sets a place of what those before it left.
pub fn writes_in_order()
    ensures none { WritesNone }
    ensures more { WritesInOrder }
{}
