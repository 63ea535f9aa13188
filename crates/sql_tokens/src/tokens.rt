//! Cuts a text into tokens.
ghost use Rattle.std.specs.Prelude.{◌≡◌, ◌≤◌, ◌<◌, map, length, slice_index, option_map, Some, None, true, All, if◌then◌else◌, IfOk, IfSome};
ghost use Rattle.std.specs.Char.{is_ascii_digit};
ghost use Rattle.std.specs.Str.{IsAscii, is_utf8, str_eq_ignore_ascii_case};
ghost use Rattle.std.specs.List.{prefix_len};
ghost use Rattle.sql_tokens.specs.Tokens.{keyword_in, keyword_of, word_token, word_front, number_len, number_front, quoted, text_front, name_front, after_comment, symbol_in, symbol_front, other_front, front, tokens_of, is_blank, begins_word};
ghost use Rattle.sql_tokens.specs.Fronts.{front_view, IsShorter, is_in, quoted_byte};

use crate::token::{Keyword, Symbol, Token};
use ct_value::{Bytes, Memory, Text, TextFault};
use std::alloc::Global;
use std::marker::Model;

const KEYWORDS: [(&[u8], Keyword); 52] = [
    (b"ALL", Keyword::All),
    (b"AND", Keyword::And),
    (b"AS", Keyword::As),
    (b"ASC", Keyword::Asc),
    (b"BETWEEN", Keyword::Between),
    (b"BY", Keyword::By),
    (b"CASE", Keyword::Case),
    (b"CAST", Keyword::Cast),
    (b"CREATE", Keyword::Create),
    (b"DESC", Keyword::Desc),
    (b"DISTINCT", Keyword::Distinct),
    (b"ELSE", Keyword::Else),
    (b"END", Keyword::End),
    (b"ENFORCED", Keyword::Enforced),
    (b"EXCEPT", Keyword::Except),
    (b"EXISTS", Keyword::Exists),
    (b"FALSE", Keyword::False),
    (b"FILTER", Keyword::Filter),
    (b"FROM", Keyword::From),
    (b"FULL", Keyword::Full),
    (b"GROUP", Keyword::Group),
    (b"HAVING", Keyword::Having),
    (b"IN", Keyword::In),
    (b"INNER", Keyword::Inner),
    (b"INSERT", Keyword::Insert),
    (b"INTERSECT", Keyword::Intersect),
    (b"INTO", Keyword::Into),
    (b"IS", Keyword::Is),
    (b"JOIN", Keyword::Join),
    (b"KEY", Keyword::Key),
    (b"LEFT", Keyword::Left),
    (b"LIKE", Keyword::Like),
    (b"LIMIT", Keyword::Limit),
    (b"NOT", Keyword::Not),
    (b"NULL", Keyword::Null),
    (b"ON", Keyword::On),
    (b"OR", Keyword::Or),
    (b"ORDER", Keyword::Order),
    (b"OUTER", Keyword::Outer),
    (b"OVER", Keyword::Over),
    (b"PARTITION", Keyword::Partition),
    (b"PRIMARY", Keyword::Primary),
    (b"RIGHT", Keyword::Right),
    (b"SELECT", Keyword::Select),
    (b"SET", Keyword::Set),
    (b"TABLE", Keyword::Table),
    (b"THEN", Keyword::Then),
    (b"TRUE", Keyword::True),
    (b"UNION", Keyword::Union),
    (b"WHEN", Keyword::When),
    (b"WHERE", Keyword::Where),
    (b"WITH", Keyword::With),
];

// The longer ones first.
const SYMBOLS: [(&[u8], Symbol); 18] = [
    (b"<>", Symbol::NotEqual),
    (b"!=", Symbol::NotEqual),
    (b"<=", Symbol::LessEqual),
    (b">=", Symbol::GreaterEqual),
    (b"||", Symbol::Concat),
    (b"(", Symbol::Open),
    (b")", Symbol::Close),
    (b",", Symbol::Comma),
    (b".", Symbol::Dot),
    (b";", Symbol::Semicolon),
    (b"=", Symbol::Equal),
    (b"<", Symbol::Less),
    (b">", Symbol::Greater),
    (b"+", Symbol::Plus),
    (b"-", Symbol::Minus),
    (b"*", Symbol::Times),
    (b"/", Symbol::Divide),
    (b"%", Symbol::Modulo),
];

/// The tokens of a text up to its end, or up to the first place where nothing can be read.
#[derive(Debug, Drop)]
pub struct Tokens {
    items: Vec<Token>,
    is_whole: bool,
}

impl Model for Tokens {
    ghost use Rattle.sql_tokens.specs.Tokens.{Read};

    ghost Value = { Read };

    ghost view = { λ t. record { tokens = t.items.items; is_whole = t.is_whole } };
}

impl Tokens {
    /// The tokens.
    pub fn as_slice(&self) -> &[Token]
        ensures { result.now ≡ self.now.tokens }
    {
        self.items.as_slice()
    }

    /// Whether the text ends behind them, and doesn't go on with a bad place.
    pub fn is_whole(&self) -> bool
        ensures { result ≡ self.now.is_whole }
    {
        self.is_whole
    }
}

// What stands at the front of a text, and what follows.
enum Front<'t> {
    Nothing,
    Bad,
    Gap(&'t [u8]),
    Token(Token, &'t [u8]),
}

// Bytes that go on with one another.
#[derive(Clone, Copy)]
enum Class {
    Word,
    Digit,
    Line,
}

/// The tokens of a text. It takes time in proportion to the text's length.
pub fn tokens_of(alloc: Global, text: &[u8]) -> Result<Tokens, Memory>
    ensures { IfOk result (λ tokens. tokens ≡ tokens_of text.now) }
{
    let mut items = Vec::new(alloc);
    let mut rest = text;
    'fronts: loop {
        match read_front(alloc, rest)? {
            Front::Nothing => {
                return Ok(Tokens {
                    items,
                    is_whole: true,
                });
            }
            Front::Bad => {
                return Ok(Tokens {
                    items,
                    is_whole: false,
                });
            }
            Front::Gap(after) => rest = after,
            Front::Token(token, after) => {
                items.push(token)?;
                rest = after;
            }
        }
    }
}

#[tactic(auto, unfolding(crate::specs::Tokens::front))]
fn read_front(alloc: Global, text: &[u8]) -> Result<Front<'_>, Memory>
    ensures ok { IfOk result (λ read. front_view read ≡ front text.now) }
    ensures shorter { IfOk result (λ read. IsShorter (front_view read) text.now) }
{
    let [first, rest @ ..] = text else {
        return Ok(Front::Nothing);
    };
    if is_blank(*first) {
        return Ok(Front::Gap(rest));
    }
    if begins_word(*first) {
        return word(alloc, text);
    }
    if first.is_ascii_digit() {
        return number(alloc, text);
    }
    if *first == b'\'' {
        return quoted_text(alloc, rest);
    }
    if *first == b'`' {
        return quoted_name(alloc, rest);
    }
    Ok(other(text))
}

fn is_blank(byte: u8) -> bool
    ensures { result ≡ is_blank byte }
{
    byte == b' ' || byte == b'\t' || byte == b'\r' || byte == b'\n'
}

fn begins_word(byte: u8) -> bool
    ensures { result ≡ begins_word byte }
{
    byte.is_ascii_alphabetic() || byte == b'_'
}

fn is_in(class: Class, byte: u8) -> bool
    ensures { result ≡ is_in class byte }
{
    match class {
        Class::Word => byte.is_ascii_alphanumeric() || byte == b'_',
        Class::Digit => byte.is_ascii_digit(),
        Class::Line => byte != b'\n',
    }
}

// How many first bytes are of a class.
fn run_len(text: &[u8], class: Class) -> usize
    ensures value { result ≡ prefix_len (is_in class) text.now }
    ensures within { result ≤ length text.now }
{
    let mut len = 0;
    while len < text.len() && is_in(class, text[len]) {
        len += 1;
    }
    len
}

// ---- words

fn word(alloc: Global, text: &[u8]) -> Result<Front<'_>, Memory>
    requires { begins_word (slice_index text.now 0) ≡ true }
    ensures ok { IfOk result (λ read. front_view read ≡ word_front text.now) }
    ensures shorter { IfOk result (λ read. IsShorter (front_view read) text.now) }
{
    let (word, rest) = text.split_at(run_len(text, Class::Word));
    Ok(Front::Token(word_token(alloc, word)?, rest))
}

fn word_token(alloc: Global, word: &[u8]) -> Result<Token, Memory>
    requires { IsAscii word.now }
    ensures { IfOk result (λ token. token ≡ word_token word.now) }
{
    match keyword_of(word) {
        Some(keyword) => Ok(Token::Keyword(keyword)),
        None => Ok(Token::Name {
            text: ascii_text(alloc, word)?,
            quoted: false,
        }),
    }
}

#[tactic(auto, unfolding(crate::specs::Tokens::keyword_of))]
fn keyword_of(word: &[u8]) -> Option<Keyword>
    ensures { result ≡ keyword_of word.now }
{
    keyword_in(&KEYWORDS, word)
}

fn keyword_in(mut table: &[(&[u8], Keyword)], word: &[u8]) -> Option<Keyword>
    ensures { result ≡ keyword_in (map (λ e. (e.0.now, e.1)) table.entry.now) word.now }
{
    while let [entry, rest @ ..] = table {
        if is_same_word(entry.0, word) {
            return Some(entry.1);
        }
        table = rest;
    }
    None
}

// Whether two words are one in any case of letters.
fn is_same_word(word: &[u8], other: &[u8]) -> bool
    ensures { result ≡ str_eq_ignore_ascii_case word.now other.now }
{
    word.eq_ignore_ascii_case(other)
}

fn ascii_text(alloc: Global, bytes: &[u8]) -> Result<Text, Memory>
    requires { IsAscii bytes.now }
    ensures { IfOk result (λ text. text ≡ bytes.now) }
{
    match Text::from_bytes(alloc, bytes) {
        Ok(text) => Ok(text),
        Err(TextFault::Memory) => Err(Memory),
        Err(TextFault::NotUtf8) => unreachable!(),
    }
}

// ---- numbers

fn number(alloc: Global, text: &[u8]) -> Result<Front<'_>, Memory>
    requires { is_ascii_digit (slice_index text.now 0) ≡ true }
    ensures ok { IfOk result (λ read. front_view read ≡ number_front text.now) }
    ensures shorter { IfOk result (λ read. IsShorter (front_view read) text.now) }
{
    let (number, rest) = text.split_at(number_len(text));
    match rest {
        [next, ..] if begins_word(*next) => Ok(Front::Bad),
        _ => Ok(Front::Token(Token::Number(ascii_text(alloc, number)?), rest)),
    }
}

fn number_len(text: &[u8]) -> usize
    ensures value { result ≡ number_len text.now }
    ensures within { result ≤ length text.now }
{
    let whole = run_len(text, Class::Digit);
    if whole < text.len() && text[whole] == b'.' {
        let fraction = run_len(&text[whole + 1..], Class::Digit);
        if fraction > 0 {
            return whole + 1 + fraction;
        }
    }
    whole
}

// ---- texts in single quotes and names in backticks

fn quoted_text(alloc: Global, text: &[u8]) -> Result<Front<'_>, Memory>
    ensures ok { IfOk result (λ read. front_view read ≡ text_front text.now) }
    ensures shorter { IfOk result (λ read. IsShorter (front_view read) text.now) }
{
    let Some((bytes, rest)) = quoted(alloc, b'\'', text)? else {
        return Ok(Front::Bad);
    };
    match utf8_text(alloc, &bytes)? {
        Some(text) => Ok(Front::Token(Token::Str(text), rest)),
        None => Ok(Front::Bad),
    }
}

fn quoted_name(alloc: Global, text: &[u8]) -> Result<Front<'_>, Memory>
    ensures ok { IfOk result (λ read. front_view read ≡ name_front text.now) }
    ensures shorter { IfOk result (λ read. IsShorter (front_view read) text.now) }
{
    let Some((bytes, rest)) = quoted(alloc, b'`', text)? else {
        return Ok(Front::Bad);
    };
    if bytes.is_empty() {
        return Ok(Front::Bad);
    }
    match utf8_text(alloc, &bytes)? {
        Some(text) => Ok(Front::Token(Token::Name { text, quoted: true }, rest)),
        None => Ok(Front::Bad),
    }
}

// The bytes within quotes and what follows, and `None` where the quotes aren't closed.
fn quoted(alloc: Global, quote: u8, text: &[u8]) -> Result<Option<(Bytes, &[u8])>, Memory>
    ensures ok { IfOk result (λ found. option_map (λ r. (r.0, r.1.now)) found ≡ quoted quote text.now) }
    ensures shorter { IfOk result (λ found. IfSome found (λ r. length r.1.now < length text.now)) }
{
    let mut bytes = Bytes::new(alloc);
    let mut rest = text;
    'bytes: while let Some((byte, after)) = quoted_byte(quote, rest) {
        bytes.push(byte)?;
        rest = after;
    }
    match rest {
        [_, after @ ..] => Ok(Some((bytes, after))),
        [] => Ok(None),
    }
}

// The next byte within quotes and what follows, and `None` where the quotes or the text end.
fn quoted_byte(quote: u8, text: &[u8]) -> Option<(u8, &[u8])>
    ensures ok { option_map (λ r. (r.0, r.1.now)) result ≡ quoted_byte quote text.now }
    ensures shorter { IfSome result (λ r. length r.1.now < length text.now) }
{
    match text {
        [first, second, rest @ ..] if *first == quote && *second == quote => Some((quote, rest)),
        [first, rest @ ..] if *first != quote => Some((*first, rest)),
        _ => None,
    }
}

// The text of these bytes, and `None` where they aren't UTF-8.
fn utf8_text(alloc: Global, bytes: &Bytes) -> Result<Option<Text>, Memory>
    ensures { IfOk result (λ found. found ≡ (if is_utf8 bytes.now then Some bytes.now else None)) }
{
    match Text::from_bytes(alloc, bytes.as_slice()) {
        Ok(text) => Ok(Some(text)),
        Err(TextFault::NotUtf8) => Ok(None),
        Err(TextFault::Memory) => Err(Memory),
    }
}

// ---- comments and symbols

#[tactic(auto, unfolding(crate::specs::Tokens::symbol_front))]
fn other(text: &[u8]) -> Front<'_>
    ensures ok { front_view result ≡ other_front text.now }
    ensures shorter { IsShorter (front_view result) text.now }
{
    if text.starts_with(b"--") {
        return Front::Gap(&text[run_len(text, Class::Line)..]);
    }
    if text.starts_with(b"/*") {
        return match after_comment(&text[2..]) {
            Some(rest) => Front::Gap(rest),
            None => Front::Bad,
        };
    }
    symbol_in(&SYMBOLS, text)
}

// What follows the next `*/`.
fn after_comment(text: &[u8]) -> Option<&[u8]>
    ensures ok { option_map (λ rest. rest.now) result ≡ after_comment text.now }
    ensures shorter { IfSome result (λ rest. length rest.now < length text.now) }
{
    let mut rest = text;
    'bytes: while let [_, after @ ..] = rest {
        if rest.starts_with(b"*/") {
            return Some(&after[1..]);
        }
        rest = after;
    }
    None
}

fn symbol_in<'t>(mut table: &[(&[u8], Symbol)], text: &'t [u8]) -> Front<'t>
    requires { All (λ e. 0 < length e.0.now) table.now }
    ensures ok { front_view result ≡ symbol_in (map (λ e. (e.0.now, e.1)) table.entry.now) text.now }
    ensures shorter { IsShorter (front_view result) text.now }
{
    while let [entry, rest @ ..] = table {
        if text.starts_with(entry.0) {
            return Front::Token(Token::Symbol(entry.1), &text[entry.0.len()..]);
        }
        table = rest;
    }
    Front::Bad
}
