//! Names that other languages have, and what to write in their place.

use crate::tables::said_of_word;

/// Words of other prompts, and what is said of them.
const PROMPTS: &str = "\
exit quit bye logout\ta prompt is left by `:quit`, and a page by closing it
help\t`:help` lists what there is, at a prompt and in a page
names who whos ls dir\t`:names`, without a `;`, lists the names of the session; an expression ends in `;`
budget\t`:budget`, without a `;`, shows what is left of the session's work; an expression ends in `;`
reset clear\t`:reset`, alone in its line, forgets all names; an expression ends in `;`
clc cls\tnothing clears the screen; `:reset` forgets all names
end\ta form ends in `;` alone
pass\ta line that does nothing is an empty one
";

/// Names of values and functions, and what is said of them.
const NAMES: &str = "\
length lenght lengh len size strlen numel nrow\tthe length of a sequence is `#v`
ncol\tthe length of the first row is `#m[0]`
head first hd car\tthe first element is `v[0]`
tail rest tl cdr\tall elements but the first are `drop(v, 1)`
last\tthe last element is `v[#v - 1]`
init\tall elements but the last are `take(v, #v - 1)`
nth elt\tan element is `v[i]`, counted from 0
map sapply lapply foreach for_each iter\ta function is called for each element by `{g(a) : a in v}`
filter\telements are chosen by `{a in v | a > 0}`
fold foldl foldr reduce\tsequences are reduced by `sum`, `max_val`, `min_val`, `any`, `all` and `count`
append push push_back\tan element is appended by `v ++ [x]`, and two sequences are joined by `v ++ w`
concat\ttwo sequences are joined by `v ++ w`, and all of a sequence by `flatten(v)`
paste join\ttwo texts are joined by `++`, and all of a sequence by `flatten(v)`
cons\tan element is put in front by `[x] ++ v`
zeros\tn zeros are `dist(0, n)`
ones\tn ones are `dist(1, n)`
repeat replicate\tn times x is `dist(x, n)`
range seq linspace\tthe numbers from a below b are `[a : b]`
iota\tthe numbers from 0 to n - 1 are `index(n)`
enumerate\tthe places with their elements are `zip(index(#v), v)`
contains includes elem member in_array\twhether x is in v is `any({a == x : a in v})`
mod modulo remainder\tthe remainder is `rem(a, b)`
div quot\ta quotient is `a / b`
pow power\ta power is a product, and a power of two is `lshift(1, n)`
sqrt\tthe root of a whole number is `isqrt(n)`
floor ceil round\tnumbers are whole, so that nothing is rounded
mean average avg\tthe mean is `sum(v) / #v`, without its fraction
log exp sin cos tan pi\tnumbers are whole, and there is no `{name}`
random rand\tthere are no random numbers
ord\tthe number of a character is `char_code(c)`
chr\tthe character of a number is `code_char(n)`
str string tostring to_string show\tno function makes a text of a number: compute its digits
print println printf putstrln puts echo disp cat display\tan expression alone shows its value: leave `{name}` out
type typeof class\ta type is shown by `:type x;`
input readline scanf\tno function reads input: bind a value, as in `x = 3;`
plot\tnothing is drawn here; a page draws the work of a function over n
write\tan expression alone shows its value, and elements are replaced by `v <- [(i, x)]`
maximum\tthe greatest element is `max_val(v)`
minimum\tthe least element is `min_val(v)`
fst snd\tthe parts of a pair are bound by `let (a, b) = p in a`
even\twhether a number is even is `evenp(n)`
odd\twhether a number is odd is `oddp(n)`
zero\twhether a number is 0 is `zerop(n)`
neg\tthe negative of a number is `-n`
scan cumsum\tthe sums before each place are `plus_scan(v)`
prod product\tthere is no product of a sequence; `sum(v)` is its sum
sort sorted\tthere is no `{name}`: lesson 4, on quicksort, defines a sort, `qs(v)`
rev reversed\ta sequence is turned round by `reverse(v)`
equal equals\t`a == b` compares numbers and characters, and `eql(a, b)` all values
null nil none undefined nan nothing\ta name always has a value, and the empty sequence of numbers is `[] int`
some just\ta value needs no `{name}` around it, since no value is missing
otherwise\tan `if` has an `else`: `if .. then .. else ..`
id\tthere is no `id`: `function id(x) = x;` defines it
";

/// Names of functions, and what is said of their calls.
const CALLS: &str = "\
c list vec vector array\ta sequence is written as `[1, 2, 3]`, and the numbers from a below b as `[a : b]`
";

/// Names of types, and what is said of them.
const TYPES: &str = "\
string str text\ta text is `[char]`
boolean\tthe type of truth values is `bool`
integer number num\tthe type of numbers is `int`
float double real\tnumbers have no fractions: their type is `int`
character\tthe type of characters is `char`
list array vector\tthe type of a sequence of numbers is `[int]`
";

/// What is said of a name of a value or a function that other languages have. Its `{name}` is the name.
pub fn known_elsewhere(name: &[u8]) -> Option<&'static str> {
    match said_of_word(NAMES, name) {
        Some(said) => Some(said),
        None => prompt_said(name),
    }
}

/// What is said of a name of a function that other languages have, where it is called.
pub fn called_elsewhere(name: &[u8]) -> Option<&'static str> {
    match said_of_word(CALLS, name) {
        Some(said) => Some(said),
        None => known_elsewhere(name),
    }
}

/// What is said of a word of other prompts.
pub(crate) fn prompt_said(name: &[u8]) -> Option<&'static str> {
    said_of_word(PROMPTS, name)
}

/// What is said of a name of a type that other languages have.
pub fn type_elsewhere(name: &[u8]) -> Option<&'static str> {
    said_of_word(TYPES, name)
}
