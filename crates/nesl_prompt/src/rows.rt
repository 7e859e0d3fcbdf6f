//! The help on the built-in functions, group by group, in the order of the tables of docs/LANGUAGE.md. The texts are
//! those of these tables; scripts/check_help compares them.

use nesl_builtins::{Builtin, named};
use nesl_scalars::Binary;
use nesl_seqs_base::seq_fn::SeqFn;

/// Functions on scalars. A line has the names and signs of a group, how they are called, and their result. After a `;`
/// it has the faults; nothing follows the last bar.
pub const SCALARS: &str = "\
+ - *|`+`, `-`, `*`|; `overflow`|
/|`/`|towards zero; `division` by 0, `overflow`|
negate abs|`-` before one, `negate`, `abs`|; `overflow`|
rem|`rem`|a - b * (a / b); `division` by 0|
max min|`max`, `min`||
== /= < > <= >=|`==`, `/=`, `<`, `>`, `<=`, `>=`|characters by their byte|
plusp minusp zerop|`plusp`, `minusp`, `zerop`|above, below, equal to 0|
oddp evenp|`oddp`, `evenp`||
and or xor nand nor|`and`, `or`, `xor`, `nand`, `nor`|bit by bit on int; both sides are evaluated|
not|`not`|all bits on int|
lshift|`lshift`|a * 2^n; `range` unless n is 0 to 63, `overflow`|
rshift|`rshift`|a / 2^n rounded down; `range` unless n is 0 to 63|
isqrt|`isqrt`|the greatest r with r * r at most a; `range` below 0|
btoi|`btoi`|T is 1, F is 0|
char_code|`char_code`||
code_char|`code_char`|; `code` unless 0 to 255|
";

/// Functions on sequences. After the last bar come the lengths that count as work. An `R` before them means that the
/// depth has their binary digits.
pub const SEQUENCES: &str = "\
#|`#v`|the length|0
v[i]|`v[i]`|; `range` unless i is 0 to n - 1|0
++|`v ++ w`|v, then w|n + m
dist|`dist(x, k)`|k times x; `length` if k is below 0|0
[s:e] [s:e:d]|`[s:e]`, `[s:e:d]`|s, s + d, .. below e; `stride` if d is below 1|0
index|`index(k)`|0 to k - 1; `length` if k is below 0|0
sum|`sum(v)`|0 for none; `overflow` if the exact sum doesn't fit|R n
max_val min_val|`max_val(v)`, `min_val(v)`|; `empty`|R n
max_index min_index|`max_index(v)`, `min_index(v)`|the first place of the greatest or least; `empty`|R n
any all|`any(v)`, `all(v)`|for none F, T|R n
count|`count(v)`|the number of T|R n
plus_scan|`plus_scan(v)`|at each place the sum of those before it; `overflow` if one doesn't fit|R n
or_scan and_scan|`or_scan(v)`, `and_scan(v)`|the same; first F and T, of int 0 and -1|R n
flatten|`flatten(v)`|one level removed|n
partition|`partition(v, c)`|pieces of these lengths; `count` if one is below 0 or their sum isn't n|n + m
split|`split(v, b)`|two pieces: those with F, those with T; `length`|n + m
bottop|`bottop(v)`|two halves, the first not the smaller|n
take|`take(v, k)`|the first k, for k below 0 the last -k; `range` if more than n|n
drop|`drop(v, k)`|without these; `range`|n
reverse|`reverse(v)`||n
rotate|`rotate(v, k)`|element j goes to place (j + k) modulo n|n
odd_elts even_elts|`odd_elts(v)`, `even_elts(v)`|places 1, 3, ..; places 0, 2, ..|n
interleave|`interleave(v, w)`|v0, w0, v1, ..; `length` unless n is m or m + 1|n + m
zip|`zip(v, w)`|; `length`|n + m
unzip|`unzip(v)`||n
permute|`permute(v, i)`|element j goes to place i[j]; `length`, `range`, `permutation` if one repeats|n + m
->|`v -> i`|the elements at these places; `range`|n + m
<-|`v <- p`|these written to their places in order, so the last wins; `range`|n + m
rep|`rep(v, x, i)`|v with x at place i; `range`|n
eql|`eql(x, y)`|whether they are the same|the nodes of both
";

/// The functions that are written as signs.
const SIGNS: [(&str, Builtin); 21] = [
    ("+", Builtin::OfTwo(Binary::Add)),
    ("-", Builtin::OfTwo(Binary::Subtract)),
    ("*", Builtin::OfTwo(Binary::Multiply)),
    ("/", Builtin::OfTwo(Binary::Divide)),
    ("==", Builtin::OfTwo(Binary::Equal)),
    ("/=", Builtin::OfTwo(Binary::Unequal)),
    ("<", Builtin::OfTwo(Binary::Less)),
    (">", Builtin::OfTwo(Binary::Greater)),
    ("<=", Builtin::OfTwo(Binary::AtMost)),
    (">=", Builtin::OfTwo(Binary::AtLeast)),
    ("and", Builtin::OfTwo(Binary::And)),
    ("or", Builtin::OfTwo(Binary::Or)),
    ("xor", Builtin::OfTwo(Binary::Xor)),
    ("nand", Builtin::OfTwo(Binary::Nand)),
    ("nor", Builtin::OfTwo(Binary::Nor)),
    ("#", Builtin::OfSequences(SeqFn::Length)),
    ("v[i]", Builtin::OfSequences(SeqFn::ElementAt)),
    ("++", Builtin::OfSequences(SeqFn::Append)),
    ("[s:e]", Builtin::OfSequences(SeqFn::Range)),
    ("->", Builtin::OfSequences(SeqFn::Gather)),
    ("<-", Builtin::OfSequences(SeqFn::Write)),
];

/// Returns the function with this name or sign.
pub fn builtin_of(name: &str) -> Option<Builtin> {
    for (sign, builtin) in &SIGNS {
        if *sign == name {
            return Some(*builtin);
        }
    }
    if name == "[s:e:d]" {
        return Some(Builtin::OfSequences(SeqFn::RangeBy));
    }
    named(name.as_bytes())
}

/// A line of the tables: the help on a group of functions.
#[derive(Clone, Copy)]
pub struct Row<'a> {
    /// The names and signs, separated by blanks.
    pub names: &'a str,
    /// How they are called.
    pub called: &'a str,
    /// The result, and after a `;` the faults.
    pub what: &'a str,
    /// The lengths that count as work, after `R ` where the depth has their digits. Empty for functions on scalars.
    pub lengths: &'a str,
}

/// Splits a line of the tables.
pub fn row_of(line: &str) -> Option<Row<'_>> {
    let (names, rest) = line.split_once("|")?;
    let (called, rest) = rest.split_once("|")?;
    let (what, lengths) = rest.split_once("|")?;
    Some(Row {
        names,
        called,
        what,
        lengths,
    })
}
