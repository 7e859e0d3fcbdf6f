//! What the definitions evaluate to, in other words, and calls that are worked by hand.
ghost use Rattle.nesl_seqs.specs.Laws.{PlacesOfRotate, NumbersOfRange, TakenAndDropped, EveryOther, Woven, Zipped, Cut};
ghost use Rattle.nesl_seqs.specs.Laws.{PlacesOfPermute, ToldEqual, NumberOfDigits};
ghost use Rattle.nesl_seqs.specs.Worked.{Steps, Pieces, Writes, Permutes, Equals, Sums, Greatest, Turns};

/// `rotate` moves element j to place (j + k) modulo n, whatever number k is.
pub fn places_of_rotate()
    ensures { PlacesOfRotate }
{}

/// `[s:e:d]` has just the numbers s, s + d, s + 2d and so on that are below e.
pub fn numbers_of_range()
    ensures { NumbersOfRange }
{}

/// `take` and `drop` cut a sequence in two.
pub fn takes_and_drops()
    ensures { TakenAndDropped }
{}

/// Element j of the even places is element 2 j, and of the odd places element 2 j + 1.
pub fn takes_every_other()
    ensures { EveryOther }
{}

/// Two sequences that are woven are at the even places and at the odd ones.
pub fn weaves()
    ensures { Woven }
{}

/// `unzip` undoes `zip`.
pub fn zips()
    ensures { Zipped }
{}

/// The pieces that `partition` makes are the whole when they are joined, and have the lengths that
/// were asked for.
pub fn cuts_the_whole()
    ensures { Cut }
{}

/// `permute` puts each element where its index says.
pub fn tells_places()
    ensures { PlacesOfPermute }
{}

/// `eql` decides whether two trees are the same.
pub fn tells_equality()
    ensures { ToldEqual }
{}

/// The depth of a reduction or a scan grows with the binary digits of the number of elements.
pub fn counts_digits()
    ensures { NumberOfDigits }
{}

/// Calls that are worked by hand.
pub fn worked_calls()
    ensures steps { Steps }
    ensures pieces { Pieces }
    ensures writes { Writes }
    ensures permutes { Permutes }
    ensures equals { Equals }
    ensures sums { Sums }
    ensures greatest { Greatest }
    ensures turns { Turns }
{}
