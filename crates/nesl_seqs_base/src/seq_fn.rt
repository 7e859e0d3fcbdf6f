//! The functions on sequences.

/// A function on sequences, of this profile's table. It takes one value: two arguments are a pair,
/// three are `(a, (b, c))`.
#[derive(Clone, Copy, PartialEq, Eq)]
pub enum SeqFn {
    /// `#v`: the length.
    Length,
    /// `v[i]`: the element at a place.
    ElementAt,
    /// `v ++ w`: the one, then the other.
    Append,
    /// `dist(x, k)`: a value, `k` times.
    Dist,
    /// `[s:e]`: the numbers from the one to before the other.
    Range,
    /// `[s:e:d]`: the same in steps.
    RangeBy,
    /// `index(k)`: the first whole numbers.
    Index,
    /// `sum(v)`: the exact sum.
    Sum,
    /// `any(v)`: whether one is true.
    Any,
    /// `all(v)`: whether all are true.
    All,
    /// `count(v)`: how many are true.
    Count,
    /// `bottop(v)`: the first half and the second.
    Bottop,
    /// `take(v, k)`: the first `k`, or the last `-k`.
    Take,
    /// `drop(v, k)`: all but the first `k`, or all but the last `-k`.
    Drop,
    /// `reverse(v)`: from the last to the first.
    Reverse,
    /// `rotate(v, k)`: each element `k` places on, over the end to the front.
    Rotate,
    /// `zip(v, w)`: the pairs of elements at the same place.
    Zip,
    /// `rep(v, x, i)`: the sequence with another element at a place.
    Rep,
    /// `eql(x, y)`: whether they are the same.
    Eql,
    /// `max_val(v)`: the greatest element.
    MaxVal,
    /// `min_val(v)`: the least element.
    MinVal,
    /// `max_index(v)`: the first place of the greatest element.
    MaxIndex,
    /// `min_index(v)`: the first place of the least element.
    MinIndex,
    /// `plus_scan(v)`: at each place the sum of the elements before it.
    PlusScan,
    /// `or_scan(v)`: at each place the elements before it, joined by `or`.
    OrScan,
    /// `and_scan(v)`: at each place the elements before it, joined by `and`.
    AndScan,
    /// `flatten(v)`: the elements of the inner sequences, one sequence after the other.
    Flatten,
    /// `unzip(v)`: the left parts of pairs and the right ones.
    Unzip,
    /// `odd_elts(v)`: the elements at the places 1, 3 and so on.
    OddElts,
    /// `even_elts(v)`: the elements at the places 0, 2 and so on.
    EvenElts,
    /// `interleave(v, w)`: one element of each in turn.
    Interleave,
    /// `v -> i`: the elements at the indices.
    Gather,
    /// `permute(v, i)`: each element at its index.
    Permute,
    /// `split(v, f)`: the elements with `F`, and those with `T`.
    Split,
    /// `partition(v, c)`: the pieces of these lengths.
    Partition,
    /// `v <- p`: the pairs of an index and an element written in order.
    Write,
}
