//! Order files: how many changes are taken when, and which channel or bundle works in between.
ghost use Rattle.std.specs.Prelude.{◌≡◌, ◌+◌, ◌≤◌, ◌<◌, ◌==◌, ◌∷◌, [], ℕ, length, Some, None, Ok, Err, IfOk, IfSome, IfNone, IsErrOf, OnOk, Result, List as Seq, true, option_map, option_and_then, position};
ghost use Rattle.std.specs.List.{slice_split};
ghost use Rattle.std.specs.Str.Lines.{lines, strip_carriage_return};
ghost use Rattle.job_text.specs.declared.orders.OrderFault.TheVariants.{BadLine};
ghost use Rattle.job_text.specs.declared.orders.OrderLine.{OrderLine};
ghost use Rattle.job_text.specs.Orders.{drain_of, flush_of, is_skipped, line_before, move_of, number_before, number_of, numbers_of, orders_of, take_of, verb_of};
ghost use Rattle.job_text.specs.Cuts.{is_padded, is_without, orders_behind, parts_left, sole_count, sole_number, words_left};

use ct_value::{Bytes, List, Memory};
use std::alloc::Global;

/// What a line of an order file asks for.
#[derive(Clone, Copy, Debug, PartialEq, Eq)]
pub enum Verb {
    /// So many changes are taken: of the source of this number, from 1, where each source has a change file of its own, else of the one
    /// change file, and the number is 0.
    Take {
        table: u32,
        count: u32,
    },
    /// So many changes of the channel of an edge, from a subtask to another, are delivered.
    Move {
        edge: u32,
        from: u32,
        to: u32,
        count: u32,
    },
    /// The bundle of a node's subtask is flushed.
    Flush {
        node: u32,
        subtask: u32,
    },
    /// The job is drained.
    Drain,
}

/// A line of an order file that isn't skipped; lines are counted from 1.
#[derive(Clone, Copy, Debug, PartialEq, Eq)]
pub struct OrderLine {
    pub line: u32,
    pub verb: Verb,
}

/// The lines of an order file that aren't skipped.
pub type Orders = List<OrderLine>;

/// Why an order file isn't read.
#[derive(Clone, Copy, Debug, PartialEq, Eq)]
pub enum OrderFault {
    /// This line, counted from 1, is the first that is neither skipped nor a verb.
    BadLine(u32),
    Memory,
}

impl From<Memory> for OrderFault {
    ghost use Rattle.std.specs.Prelude.{◌≡◌};
    ghost use Rattle.job_text.specs.declared.orders.OrderFault.TheVariants.{Memory};

    ghost from_gives = { λ _ fault. fault ≡ Memory };

    fn from(_: Memory) -> Self {
        OrderFault::Memory
    }
}

/// The orders of a file of at most 67,108,864 bytes. By table, each source has a change file of its own, and each take names a source.
pub fn read_order(alloc: Global, bytes: &Bytes, by_table: bool) -> Result<Orders, OrderFault>
    requires { length bytes.now ≤ 67108864 }
    ensures ok { IfOk result (λ orders. orders_of by_table bytes.now ≡ Ok orders) }
    ensures refused { (line : ℕ) → IsErrOf result (BadLine line) → orders_of by_table bytes.now ≡ Err line }
{
    let mut orders = Orders::new(alloc);
    let mut rest = bytes.as_slice();
    let mut number: u32 = 0;
    'line: while let Some((line, behind)) = first_line(rest) {
        number += 1;
        put_order(&mut orders, number, line, by_table)?;
        rest = behind;
    }
    Ok(orders)
}

// Puts the verb of a line of this number behind the orders, where the line isn't skipped.
fn put_order(
    orders: &mut Orders,
    number: u32,
    line: &[u8],
    by_table: bool,
) -> Result<(), OrderFault>
    ensures ok { OnOk result ((others : Result (Seq OrderLine) ℕ) → orders_behind orders.old (line_before by_table number line.now others) ≡ orders_behind orders.new others) }
    ensures refused { (bad : ℕ) → IsErrOf result (BadLine bad) → (others : Result (Seq OrderLine) ℕ) → orders_behind orders.old (line_before by_table number line.now others) ≡ Err bad }
{
    if is_skipped(line) {
        return Ok(());
    }
    let Some(verb) = verb_of(line, by_table) else {
        return Err(OrderFault::BadLine(number));
    };
    orders.push(OrderLine { line: number, verb })?;
    Ok(())
}

// Whether a line is empty or a remark.
fn is_skipped(line: &[u8]) -> bool
    ensures { result ≡ is_skipped line.now }
{
    match line {
        [] => true,
        [first, ..] => *first == b'#',
    }
}

// The first line of a text, without its end, and what stands behind it; `None` where there is no text.
fn first_line(text: &[u8]) -> Option<(&[u8], &[u8])>
    ensures none { IfNone result (lines text.now ≡ []) }
    ensures line { IfSome result (λ cut. lines text.now ≡ cut.0.now ∷ lines cut.1.now) }
    ensures shorter { IfSome result (λ cut. length cut.1.now < length text.now) }
{
    if text.is_empty() {
        return None;
    }
    let (line, behind) = cut_at(text, b'\n');
    match behind {
        Some(behind) => Some((without_return(line), behind)),
        None => Some((line, &[])),
    }
}

// A line that LF ends, without a CR before that.
fn without_return(line: &[u8]) -> &[u8]
    ensures { result.now ≡ strip_carriage_return line.now }
{
    match line {
        [front @ .., b'\r'] => front,
        _ => line,
    }
}

// What stands before the first of these bytes, and what behind it where there is one.
fn cut_at(text: &[u8], byte: u8) -> (&[u8], Option<&[u8]>)
    ensures parts { slice_split (λ b. b == byte) text.now ≡ result.0.now ∷ parts_left byte (option_map (λ s. s.now) result.1) }
    ensures shorter { IfSome result.1 (λ behind. length behind.now < length text.now) }
{
    match place_of(text, byte) {
        Some(at) => (&text[..at], Some(&text[at + 1..])),
        None => (text, None),
    }
}

fn place_of(text: &[u8], byte: u8) -> Option<usize>
    ensures { result ≡ position (λ b. b == byte) text.now }
{
    text.iter().position(|b| *b == byte)
}

// The verb that a line is.
fn verb_of(line: &[u8], by_table: bool) -> Option<Verb>
    ensures { result ≡ verb_of by_table line.now }
{
    let (word, rest) = cut_at(line, b' ');
    if word == b"take".as_slice() {
        return take_of(rest, by_table);
    }
    if word == b"move".as_slice() {
        return move_of(rest);
    }
    if word == b"flush".as_slice() {
        return flush_of(rest);
    }
    if word == b"drain".as_slice() {
        return drain_of(rest);
    }
    None
}

// The words that are left of a line; none where no space stands before them.
type Words<'a> = Option<&'a [u8]>;

fn take_of(rest: Words<'_>, by_table: bool) -> Option<Verb>
    ensures { result ≡ option_and_then (take_of by_table) (numbers_of (words_left (option_map (λ s. s.now) rest.entry))) }
{
    if !by_table {
        let count = sole_count(rest)?;
        return Some(Verb::Take { table: 0, count });
    }
    let (table, rest) = next_number(rest)?;
    let count = sole_count(rest)?;
    Some(Verb::Take { table, count })
}

fn move_of(rest: Words<'_>) -> Option<Verb>
    ensures { result ≡ option_and_then move_of (numbers_of (words_left (option_map (λ s. s.now) rest.entry))) }
{
    let (edge, rest) = next_number(rest)?;
    let (from, rest) = next_number(rest)?;
    let (to, rest) = next_number(rest)?;
    let count = sole_count(rest)?;
    Some(Verb::Move {
        edge,
        from,
        to,
        count,
    })
}

fn flush_of(rest: Words<'_>) -> Option<Verb>
    ensures { result ≡ option_and_then flush_of (numbers_of (words_left (option_map (λ s. s.now) rest.entry))) }
{
    let (node, rest) = next_number(rest)?;
    let subtask = sole_number(rest)?;
    Some(Verb::Flush { node, subtask })
}

fn drain_of(rest: Words<'_>) -> Option<Verb>
    ensures { result ≡ option_and_then drain_of (numbers_of (words_left (option_map (λ s. s.now) rest.entry))) }
{
    match rest {
        Some(_) => None,
        None => Some(Verb::Drain),
    }
}

// The one number that is left, of changes, of which there is one at least.
fn sole_count(rest: Words<'_>) -> Option<u32>
    ensures { result ≡ option_and_then sole_count (numbers_of (words_left (option_map (λ s. s.now) rest.entry))) }
{
    let count = sole_number(rest)?;
    if count == 0 {
        return None;
    }
    Some(count)
}

// The one number that is left.
fn sole_number(rest: Words<'_>) -> Option<u32>
    ensures { result ≡ option_and_then sole_number (numbers_of (words_left (option_map (λ s. s.now) rest.entry))) }
{
    let (number, rest) = next_number(rest)?;
    match rest {
        Some(_) => None,
        None => Some(number),
    }
}

// The number that the next word is, and the words behind it.
fn next_number(rest: Words<'_>) -> Option<(u32, Words<'_>)>
    ensures none { IfNone result (is_without (numbers_of (words_left (option_map (λ s. s.now) rest.entry))) ≡ true) }
    ensures number { IfSome result (λ next. numbers_of (words_left (option_map (λ s. s.now) rest.entry)) ≡ number_before (Some next.0) (numbers_of (words_left (option_map (λ s. s.now) next.1)))) }
{
    let text = rest?;
    let (word, rest) = cut_at(text, b' ');
    let number = number_of(word)?;
    Some((number, rest))
}

// The number that a word spells.
fn number_of(word: &[u8]) -> Option<u32>
    ensures { result ≡ number_of word.now }
{
    if is_padded(word) {
        return None;
    }
    let Ok(text) = str::from_utf8(word) else {
        return None;
    };
    text.parse::<u32>().ok()
}

// Whether a sign or a leading zero stands before digits.
fn is_padded(word: &[u8]) -> bool
    ensures { result ≡ is_padded word.now }
{
    match word {
        [] => false,
        [first] => *first == b'+',
        [first, _, ..] => *first == b'+' || *first == b'0',
    }
}
