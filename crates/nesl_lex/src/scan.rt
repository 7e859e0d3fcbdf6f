// What is at the front of some bytes.

ghost use Rattle.std.specs.Prelude.{◌≡◌, ◌≢◌, ◌≤◌, ◌<◌, ◌^◌, ◌+◌, ◌-◌, ◌*◌, ◌==◌, ◌↔◌, IsTrue, IfOk, IfSome, IfNone};
ghost use Rattle.std.specs.Prelude.{length, map, slice_index};
ghost use Rattle.nesl_lex.specs.Lexemes.{is_digit, is_capital, is_letter, is_name_byte, is_printable, is_text_byte};
ghost use Rattle.nesl_lex.specs.Lexemes.{small_letter, AllBytes, with_digits, SpellsName, sign_text};
ghost use Rattle.nesl_lex.specs.Tokens.{lexeme_of};
ghost use Rattle.nesl_lex.specs.Reading.{word_among, words_of, word_in, truth_in};
ghost use Rattle.nesl_lex.specs.Scan.{start_of, test_of, front_len, PieceStands, single, double, sign_in};
ghost use Rattle.nesl_lex.specs.declared.scan.Start.TheVariants as start;

use crate::token::{Kind, Name, Sign, Word};
use smallvec::SmallVec;
use std::alloc::{AllocError, Global};

/// What a first byte begins.
#[derive(Clone, Copy)]
pub enum Start {
    Blank,
    Comment,
    Number,
    Name,
    Character,
    Text,
    /// A sign, or nothing.
    Other,
}

/// A kind of byte that comes in runs.
#[derive(Clone, Copy)]
pub enum ByteClass {
    Digit,
    NameByte,
    /// A byte inside a comment.
    Comment,
    /// A byte between a text's quotes.
    Text,
}

/// What is at the front, and how many bytes it takes.
#[derive(Drop)]
pub enum Piece {
    /// A blank or a comment.
    Gap(usize),
    Token(usize, Kind),
    Nothing,
}

/// The greatest number.
const GREATEST: u64 = 9223372036854775807;

fn is_digit(b: u8) -> bool
    ensures { result ≡ is_digit b }
{
    b >= b'0' && b <= b'9'
}

fn is_capital(b: u8) -> bool
    ensures { result ≡ is_capital b }
{
    b >= b'A' && b <= b'Z'
}

fn is_letter(b: u8) -> bool
    ensures { result ≡ is_letter b }
{
    is_capital(b) || (b >= b'a' && b <= b'z')
}

fn is_name_byte(b: u8) -> bool
    ensures { result ≡ is_name_byte b }
{
    is_letter(b) || is_digit(b) || b == b'_'
}

fn is_printable(b: u8) -> bool
    ensures { result ≡ is_printable b }
{
    b >= 32 && b <= 126
}

fn is_text_byte(b: u8) -> bool
    ensures { result ≡ is_text_byte b }
{
    b != b'"' && is_printable(b)
}

fn small_letter(b: u8) -> u8
    ensures { result ≡ small_letter b }
{
    if is_capital(b) { b + 32 } else { b }
}

fn start_of(b: u8) -> Start
    ensures { result ≡ start_of b }
{
    match b {
        b' ' | b'\t' | b'\r' => Start::Blank,
        b'%' => Start::Comment,
        b'0'..=b'9' => Start::Number,
        b'A'..=b'Z' | b'a'..=b'z' => Start::Name,
        b'`' => Start::Character,
        b'"' => Start::Text,
        _ => Start::Other,
    }
}

#[inline(always)]
fn passes(class: ByteClass, b: u8) -> bool
    ensures { result ≡ test_of class b }
{
    match class {
        ByteClass::Digit => is_digit(b),
        ByteClass::NameByte => is_name_byte(b),
        ByteClass::Comment => b != b'%',
        ByteClass::Text => is_text_byte(b),
    }
}

// How many bytes at the front are of the class.
#[inline(always)]
fn front_len(bytes: &[u8], class: ByteClass) -> usize
    ensures value { result ≡ front_len (test_of class) bytes.now }
    ensures within { result ≤ length bytes.now }
{
    let mut n = 0;
    while n < bytes.len() && passes(class, bytes[n]) {
        n += 1;
    }
    n
}

// The number that the digits make.
fn number(digits: &[u8]) -> Option<u64>
    requires { AllBytes is_digit digits.now }
    ensures some { IfSome result (λ n. (n ≡ with_digits 0 digits.now) × (n < 2 ^ 63)) }
    ensures none { IfNone result (2 ^ 63 ≤ with_digits 0 digits.now) }
{
    let mut value = 0;
    for digit in digits {
        if value > GREATEST / 10 {
            return None;
        }
        let next = value * 10 + u64::from(*digit - b'0');
        if next > GREATEST {
            return None;
        }
        value = next;
    }
    Some(value)
}

// The reserved word of these two bytes.
#[inline(never)]
fn word_of_two(bytes: &[u8]) -> Option<Word>
    ensures { result ≡ word_among (words_of 2) bytes.now }
{
    if bytes == b"in".as_slice() {
        Some(Word::In)
    } else if bytes == b"if".as_slice() {
        Some(Word::If)
    } else if bytes == b"or".as_slice() {
        Some(Word::Or)
    } else {
        None
    }
}

// The reserved word of these three bytes.
#[inline(never)]
fn word_of_three(bytes: &[u8]) -> Option<Word>
    ensures { result ≡ word_among (words_of 3) bytes.now }
{
    if bytes == b"let".as_slice() {
        Some(Word::Let)
    } else if bytes == b"nor".as_slice() {
        Some(Word::Nor)
    } else if bytes == b"xor".as_slice() {
        Some(Word::Xor)
    } else if bytes == b"and".as_slice() {
        Some(Word::And)
    } else if bytes == b"int".as_slice() {
        Some(Word::Int)
    } else {
        None
    }
}

// The reserved word of these four bytes.
#[inline(never)]
fn word_of_four(bytes: &[u8]) -> Option<Word>
    ensures { result ≡ word_among (words_of 4) bytes.now }
{
    if bytes == b"then".as_slice() {
        Some(Word::Then)
    } else if bytes == b"else".as_slice() {
        Some(Word::Else)
    } else if bytes == b"nand".as_slice() {
        Some(Word::Nand)
    } else if bytes == b"bool".as_slice() {
        Some(Word::Bool)
    } else if bytes == b"char".as_slice() {
        Some(Word::Char)
    } else {
        None
    }
}

// The reserved word of these eight bytes.
#[inline(never)]
fn word_of_eight(bytes: &[u8]) -> Option<Word>
    ensures { result ≡ word_among (words_of 8) bytes.now }
{
    if bytes == b"function".as_slice() {
        Some(Word::Function)
    } else if bytes == b"datatype".as_slice() {
        Some(Word::Datatype)
    } else {
        None
    }
}

// The reserved word of these bytes. Few names have as many bytes as a word; that test is inlined.
#[inline(always)]
fn word(bytes: &[u8]) -> Option<Word>
    ensures { result ≡ word_in bytes.now }
{
    match bytes.len() {
        2 => word_of_two(bytes),
        3 => word_of_three(bytes),
        4 => word_of_four(bytes),
        8 => word_of_eight(bytes),
        _ => None,
    }
}

// The truth value that these bytes name.
fn truth(bytes: &[u8]) -> Option<bool>
    ensures { result ≡ truth_in bytes.now }
{
    if bytes == b"t".as_slice() || bytes == b"true".as_slice() {
        Some(true)
    } else if bytes == b"f".as_slice() || bytes == b"false".as_slice() {
        Some(false)
    } else {
        None
    }
}

// The text in small letters.
fn small(alloc: Global, text: &[u8]) -> Result<Name, AllocError>
    ensures { IfOk result (λ name. name.letters.items ≡ map small_letter text.now) }
{
    let mut letters = SmallVec::with_capacity(alloc, text.len())?;
    for b in text {
        letters.push(small_letter(*b))?;
    }
    Ok(Name { letters })
}

// The sign of one byte.
#[inline(always)]
fn single(b: u8) -> Option<Sign>
    ensures { result ≡ single b }
{
    match b {
        b'(' => Some(Sign::OpenParenthesis),
        b')' => Some(Sign::CloseParenthesis),
        b'[' => Some(Sign::OpenBracket),
        b']' => Some(Sign::CloseBracket),
        b'{' => Some(Sign::OpenBrace),
        b'}' => Some(Sign::CloseBrace),
        b',' => Some(Sign::Comma),
        b';' => Some(Sign::Semicolon),
        b':' => Some(Sign::Colon),
        b'|' => Some(Sign::Bar),
        b'=' => Some(Sign::Equal),
        b'<' => Some(Sign::Less),
        b'>' => Some(Sign::Greater),
        b'+' => Some(Sign::Plus),
        b'-' => Some(Sign::Minus),
        b'*' => Some(Sign::Star),
        b'/' => Some(Sign::Slash),
        b'#' => Some(Sign::Hash),
        _ => None,
    }
}

// The sign of two bytes.
fn double(b: u8, c: u8) -> Option<Sign>
    ensures { result ≡ double b c }
{
    match (b, c) {
        (b':', b':') => Some(Sign::DoubleColon),
        (b'=', b'=') => Some(Sign::DoubleEqual),
        (b'/', b'=') => Some(Sign::NotEqual),
        (b'<', b'=') => Some(Sign::LessOrEqual),
        (b'>', b'=') => Some(Sign::GreaterOrEqual),
        (b'+', b'+') => Some(Sign::DoublePlus),
        (b'<', b'-') => Some(Sign::LeftArrow),
        (b'-', b'>') => Some(Sign::RightArrow),
        _ => None,
    }
}

// The longest sign at the front.
fn sign(bytes: &[u8]) -> Option<Sign>
    ensures { result ≡ sign_in bytes.now }
{
    match bytes {
        [] => None,
        [b] => single(*b),
        [b, c, ..] => double(*b, *c).or_else(|| single(*b)),
    }
}

// How many bytes a sign has.
fn sign_len(sign: Sign) -> usize
    ensures { result ≡ length (sign_text sign) }
{
    match sign {
        Sign::DoubleColon
        | Sign::DoubleEqual
        | Sign::NotEqual
        | Sign::LessOrEqual
        | Sign::GreaterOrEqual
        | Sign::DoublePlus
        | Sign::LeftArrow
        | Sign::RightArrow => 2,
        _ => 1,
    }
}

// A comment, from its first `%` on.
fn comment(bytes: &[u8]) -> Piece
    requires some { 0 < length bytes.now }
    requires percent { start_of (slice_index bytes.now 0) ≡ start.Comment }
    ensures { PieceStands bytes.now result }
{
    let rest = &bytes[1..];
    let n = front_len(rest, ByteClass::Comment);
    if n < rest.len() {
        Piece::Gap(n + 2)
    } else {
        Piece::Nothing
    }
}

// A number.
fn digits(bytes: &[u8]) -> Piece
    requires some { 0 < length bytes.now }
    requires digit { start_of (slice_index bytes.now 0) ≡ start.Number }
    ensures { PieceStands bytes.now result }
{
    let n = front_len(bytes, ByteClass::Digit);
    match number(&bytes[..n]) {
        Some(value) => Piece::Token(n, Kind::Number(value)),
        None => Piece::Nothing,
    }
}

// What a name's text is in small letters: a reserved word, a truth value or a name.
fn named(name: Name) -> Kind
    ensures { SpellsName name.letters.items (lexeme_of result) }
{
    if let Some(word) = word(name.as_slice()) {
        return Kind::Reserved(word);
    }
    match truth(name.as_slice()) {
        Some(value) => Kind::Truth(value),
        None => Kind::Name(name),
    }
}

// A name, a reserved word or a truth value. No memory is taken for a word in small letters.
fn name(alloc: Global, bytes: &[u8]) -> Result<Piece, AllocError>
    requires some { 0 < length bytes.now }
    requires letter { start_of (slice_index bytes.now 0) ≡ start.Name }
    ensures { IfOk result (λ piece. PieceStands bytes.now piece) }
{
    let n = front_len(bytes, ByteClass::NameByte);
    let text = &bytes[..n];
    if let Some(word) = word(text) {
        return Ok(Piece::Token(n, Kind::Reserved(word)));
    }
    Ok(Piece::Token(n, named(small(alloc, text)?)))
}

// A character, from its backquote on.
fn character(bytes: &[u8]) -> Piece
    requires some { 0 < length bytes.now }
    requires backquote { start_of (slice_index bytes.now 0) ≡ start.Character }
    ensures { PieceStands bytes.now result }
{
    if bytes.len() > 1 && is_printable(bytes[1]) {
        Piece::Token(2, Kind::Character(bytes[1]))
    } else {
        Piece::Nothing
    }
}

// A text, from its first quote on.
fn text(alloc: Global, bytes: &[u8]) -> Result<Piece, AllocError>
    requires some { 0 < length bytes.now }
    requires quote { start_of (slice_index bytes.now 0) ≡ start.Text }
    ensures { IfOk result (λ piece. PieceStands bytes.now piece) }
{
    let rest = &bytes[1..];
    let n = front_len(rest, ByteClass::Text);
    if n < rest.len() && rest[n] == b'"' {
        let inside = Vec::from_slice(alloc, &rest[..n])?;
        Ok(Piece::Token(n + 2, Kind::Text(inside)))
    } else {
        Ok(Piece::Nothing)
    }
}

// A sign, or nothing.
fn symbol(bytes: &[u8]) -> Piece
    requires some { 0 < length bytes.now }
    requires other { start_of (slice_index bytes.now 0) ≡ start.Other }
    ensures { PieceStands bytes.now result }
{
    match sign(bytes) {
        Some(sign) => Piece::Token(sign_len(sign), Kind::Symbol(sign)),
        None => Piece::Nothing,
    }
}

/// What is at the front.
pub fn next_piece(alloc: Global, bytes: &[u8]) -> Result<Piece, AllocError>
    requires { 0 < length bytes.now }
    ensures { IfOk result (λ piece. PieceStands bytes.now piece) }
{
    match start_of(bytes[0]) {
        Start::Blank => Ok(Piece::Gap(1)),
        Start::Comment => Ok(comment(bytes)),
        Start::Number => Ok(digits(bytes)),
        Start::Name => name(alloc, bytes),
        Start::Character => Ok(character(bytes)),
        Start::Text => text(alloc, bytes),
        Start::Other => Ok(symbol(bytes)),
    }
}
