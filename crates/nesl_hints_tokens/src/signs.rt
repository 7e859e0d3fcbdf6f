//! Bytes that begin no token, and what to write in their place.

/// Bytes that begin no token directly after a name, a number or a bracket, and what is said of them.
pub(crate) const SIGNS_BEHIND: &str = "\
!==\t`!==` is no sign: two values that differ are `/=`
!=\t`!=` is no sign: two values that differ are `/=`
!\t`!` is no sign: a call is `g(x)`, elements are written `[1, 2, 3]`, and an expression alone shows its value
'\t`'` is no sign: a name has letters, digits and `_`, a text has double quotes, and the columns of m are \
    `{{r[j] : r in m} : j in index(#m[0])}`
_\ta number has digits only, and a name begins with a letter
";

/// Bytes that begin no token, and what is said of them. The first that fits is taken.
pub(crate) const SIGNS: &str = "\
&&\t`&&` is no sign: write `and`, which evaluates both sides
&\t`&` is no sign: between two values write `and`, and before one leave it out: there are no references
!==\t`!==` is no sign: two values that differ are `/=`
!=\t`!=` is no sign: two values that differ are `/=`
!!\t`!!` is no sign: an element is `v[i]`, counted from 0
!\t`!` is no sign: write `not(..)`
...\t`...` is no sign: two sequences are joined by `v ++ w`, and a range is `[1 : 6]`
..\t`..` is no sign: a range is `[1 : 6]`, and ends before its second number
.* .^ ./ .+ .-\tan operation on each element is an apply-to-each, as in `{a * b : a in v; b in w}`
.\t`.` is no sign: a function comes before its argument, as `g(x)`, and two functions in a row are `g(h(x))`
''\t`'` is no sign: a text has double quotes, as \"ab\", and a character is a backquote and one byte, as `a
'\\\t`'` is no sign: a character is a backquote and one byte, as `a, or made of its code, as `code_char(10)`
'\t`'` is no sign: a character is a backquote and one byte, as `a, and a text has double quotes
^\t`^` is no sign: write a product, or `lshift(1, n)` for a power of two; bits are joined by `xor`
~=\t`~=` is no sign: two values that differ are `/=`
~\t`~` is no sign: write `-` before a number, and `not(..)` of a truth value
@(\tfunctions are no values: define one by `function g(x) = x + 1;`
@\t`@` is no sign: two sequences are joined by `++`
??\ta name always has a value: a choice is `if .. then .. else ..`
?.\ta name always has a value, and nothing has parts with a `.`: a pair is taken apart by `let (a, b) = p in a`
?\t`?` is no sign: a choice is `if .. then .. else ..`, and `:help` lists what there is
${\ta text has no gaps for values: two texts are joined by `++`
$\t`$` is no sign: a name has letters, digits and `_`, and an argument belongs in parentheses, as `g(x)`
_\ta name begins with a letter, and goes on with letters, digits and `_`
\\\t`\\` only ends a line whose form goes on in the next; functions are defined by `function g(x) = x + 1;`
‘ ’\ta curly quote: a character is a backquote and one byte, as `a
“ ” „\ta curly quote: a text has straight double quotes, as \"ab\"
´\tan accent: a character is a backquote and one byte, as `a
« »\tan angled quote: a text has straight double quotes, as \"ab\"
\u{a0}\ta blank of another kind: write a usual blank
¬\tthis is no sign: write `not(..)`
× ·\tthis is no sign: a product is `a * b`
÷\tthis is no sign: a quotient is `a / b`
−\ta minus of another kind: write `-`
– —\ta dash: write `-`
…\tdots: a range is `[1 : 6]`, and ends before its second number
≠\tthis is no sign: two values that differ are `/=`
≤\tthis is no sign: write `<=`
≥\tthis is no sign: write `>=`
→\tthis is no sign: write `->`
←\tthis is no sign: write `<-`
∧\tthis is no sign: write `and`
∨\tthis is no sign: write `or`
";

/// Words before a `.`, and what is said of them.
pub(crate) const OWNERS: &str = "\
console system stdio\tan expression alone shows its value: write it without `{name}` and what follows it
math np numpy std list data prelude string\tthere are no modules: a function's name is written alone
";
