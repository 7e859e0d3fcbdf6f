// Laws of the definition of tokens, and worked lines.

ghost use Rattle.nesl_lex.specs.Laws.{OneList, OnePlace, NotBoth, Either, TokensInOrder, TokensStandIn};
ghost use Rattle.nesl_lex.specs.Laws.{ReadingComputes};
ghost use Rattle.nesl_lex.specs.Examples.{Arrow, ArrowAndMinus, TwoMinuses, ThreeColons, TwoComments, PercentInText};
ghost use Rattle.nesl_lex.specs.Examples.{OpenText, OpenComment, BlankCharacter, LoneBackquote, BackquoteAndDelete};
ghost use Rattle.nesl_lex.specs.Examples.{GreatestNumber, TooLargeNumber, LeadingZeros, TruthAndName, FoldedWords};
ghost use Rattle.nesl_lex.specs.Examples.{NumberAndName, ZeroByte, LargeByte};

/// Each line either has one list of tokens or is stuck at one place.
pub fn one_reading()
    ensures one_list { OneList }
    ensures one_place { OnePlace }
    ensures not_both { NotBoth }
    ensures either { Either }
{}

/// A line's tokens lie within it, one after another, and the bytes of each one's span are its text.
pub fn tokens_in_order()
    ensures in_order { TokensInOrder }
    ensures stand_in { TokensStandIn }
{}

/// A line's tokens, or the place where it is stuck, computed: so a crate above can state a worked line as bytes, call
/// this law and give its clause the bytes.
pub fn reading_computes()
    ensures { ReadingComputes }
{}

/// Lines that are worked by hand.
pub fn worked_lines()
    ensures arrow { Arrow }
    ensures arrow_and_minus { ArrowAndMinus }
    ensures two_minuses { TwoMinuses }
    ensures three_colons { ThreeColons }
    ensures two_comments { TwoComments }
    ensures percent_in_text { PercentInText }
    ensures open_text { OpenText }
    ensures open_comment { OpenComment }
    ensures blank_character { BlankCharacter }
    ensures lone_backquote { LoneBackquote }
    ensures backquote_and_delete { BackquoteAndDelete }
    ensures greatest_number { GreatestNumber }
    ensures too_large_number { TooLargeNumber }
    ensures leading_zeros { LeadingZeros }
    ensures truth_and_name { TruthAndName }
    ensures folded_words { FoldedWords }
    ensures number_and_name { NumberAndName }
    ensures zero_byte { ZeroByte }
    ensures large_byte { LargeByte }
{}
