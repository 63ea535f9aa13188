ghost use Rattle.std.specs.Prelude.{◌≡◌, ◌<◌, ◌≤◌, ◌↔◌, ◌++◌, Some, length, take, slice_index, string_bytes, EachIndex, IfOk, IsErrOf, IsTrue};
ghost use Rattle.std.specs.Str.{IsUtf8, bytes_eq};
ghost use Rattle.std.specs.Ordering.{nat_cmp, eq_by_cmp};
ghost use Rattle.std.specs.Cmp.{eq_by_cmp_equiv, partial_equiv_from_equiv, po};
ghost use Rattle.std.specs.Cmp.Lexicographic.{slice_cmp, nat_list_cmp_total};
ghost use Rattle.std.proofs.Common.{refl};
ghost use Rattle.ct_value.specs.Abbreviations.{first_digits, number_onto};

use crate::Memory;
use crate::each::compare_each;
use std::alloc::{AllocError, Global};
use std::cmp::Ordering;
use std::convert::AsStr;
use std::marker::Model;

// So many bytes are compared one by one, and more by groups.
const FEW_BYTES: usize = 16;

// So many bytes lie in the text itself, which then takes no memory.
const ROOM: usize = 22;

/// A text in UTF-8, seen as the list of its bytes, by which texts are ordered.
#[derive(Debug, Drop)]
pub struct Text {
    held: Held,
}

// Where the bytes of a text lie.
#[derive(Debug, Drop)]
enum Held {
    Near(u8, [u8; 22]),
    Far(Box<String>),
}

impl Model for Text {
    ghost use Rattle.std.specs.Prelude.{List, ℕ};
    ghost use Rattle.ct_value.specs.Texts.{held_bytes, IsText};

    ghost Value = { List ℕ };

    ghost view = { λ t. held_bytes t.held };

    ghost invariant = { λ t. IsText t.held };
}

impl AsStr for Text {
    ghost text = { λ t. t };

    fn as_str(&self) -> &str {
        Text::as_str(self)
    }
}

/// Why bytes are no text.
#[derive(Clone, Copy, Debug, PartialEq, Eq)]
pub enum TextFault {
    NotUtf8,
    Memory,
}

impl From<AllocError> for TextFault {
    ghost use Rattle.std.specs.Prelude.{◌≡◌};
    ghost use Rattle.ct_value.specs.declared.text.TextFault.TheVariants.{Memory};

    ghost from_gives = { λ _ fault. fault ≡ Memory };

    fn from(_: AllocError) -> Self {
        TextFault::Memory
    }
}

impl Text {
    /// The text of these bytes.
    pub fn from_bytes(alloc: Global, bytes: &[u8]) -> Result<Text, TextFault>
        ensures text { IfOk result (λ text. text ≡ bytes.now) }
        ensures utf8 { IfOk result (λ _. IsUtf8 bytes.now) }
        ensures not_utf8 { IsErrOf result TextFault.NotUtf8 → ¬ (IsUtf8 bytes.now) }
    {
        if bytes.len() <= ROOM && is_ascii(bytes) {
            return Ok(near(bytes));
        }
        let Ok(text) = str::from_utf8(bytes) else {
            return Err(TextFault::NotUtf8);
        };
        match Text::from_str(alloc, text) {
            Ok(text) => Ok(text),
            Err(Memory) => Err(TextFault::Memory),
        }
    }

    /// A copy of a `str`.
    pub fn from_str(alloc: Global, text: &str) -> Result<Text, Memory>
        ensures { IfOk result (λ copy. copy ≡ text.now) }
    {
        if text.len() <= ROOM {
            return Ok(near(text.as_bytes()));
        }
        far(alloc, String::from_str(alloc, text)?)
    }

    /// One text behind the other.
    pub fn concat(alloc: Global, left: &Text, right: &Text) -> Result<Text, Memory>
        ensures { IfOk result (λ text. text ≡ left.now ++ right.now) }
    {
        let mut text = String::from_str(alloc, left.as_str())?;
        text.push_str(right.as_str())?;
        if text.len() <= ROOM {
            return Ok(near(text.as_str().as_bytes()));
        }
        far(alloc, text)
    }

    /// The bytes, which are UTF-8.
    pub fn as_slice(&self) -> &[u8]
        ensures bytes { result.now ≡ self.now }
        ensures utf8 { IsUtf8 self.now }
    {
        match &self.held {
            Held::Near(len, bytes) => &bytes[..*len as usize],
            Held::Far(text) => text.as_str().as_bytes(),
        }
    }

    // The first seven bytes as a number, the first of them the highest, with zeros where there are fewer.
    pub(crate) fn front(&self) -> u64
        ensures { result ≡ number_onto 0 (first_digits 7 self.now) }
    {
        match &self.held {
            Held::Near(len, bytes) => near_front(*len, bytes),
            Held::Far(text) => far_front(text.as_str().as_bytes()),
        }
    }

    /// The text as a `str`.
    pub fn as_str(&self) -> &str
        ensures { result.now ≡ self.now }
    {
        match &self.held {
            Held::Near(len, bytes) => str::from_utf8(&bytes[..*len as usize]).unwrap_or(""),
            Held::Far(text) => text.as_str(),
        }
    }

    /// Whether these are its bytes.
    pub fn is(&self, bytes: &[u8]) -> bool
        ensures same { IsTrue result ↔ (self.now ≡ bytes.now) }
        ensures value { result ≡ bytes_eq self.now bytes.now }
    {
        self.as_slice() == bytes
    }

    /// An equal text.
    pub fn dup(&self) -> Result<Text, Memory>
        ensures { IfOk result (λ copy. copy ≡ self.now) }
    {
        match &self.held {
            Held::Near(len, bytes) => Ok(Text {
                held: Held::Near(*len, *bytes),
            }),
            Held::Far(text) => dup_far(text),
        }
    }
}

impl PartialEq for Text {
    ghost eq = { eq_by_cmp (slice_cmp nat_cmp) };

    ghost laws = { partial_equiv_from_equiv (eq_by_cmp_equiv nat_list_cmp_total) };

    fn eq(&self, other: &Text) -> bool {
        self.cmp(other).is_eq()
    }
}

impl Eq for Text {
    ghost laws = { eq_by_cmp_equiv nat_list_cmp_total };
}

impl PartialOrd for Text {
    ghost partial_cmp = { λ a b. Some (slice_cmp nat_cmp a b) };

    ghost laws = { po nat_list_cmp_total (λ a b. refl) };

    fn partial_cmp(&self, other: &Text) -> Option<Ordering> {
        Some(self.cmp(other))
    }
}

impl Ord for Text {
    ghost cmp = { slice_cmp nat_cmp };

    ghost total = { nat_list_cmp_total };

    ghost matches_partial_cmp = { λ a b. refl };

    ghost matches_eq = { λ a b. refl };

    fn cmp(&self, other: &Text) -> Ordering {
        compare_bytes(self.as_slice(), other.as_slice())
    }
}

// Never inlined, so that the comparison of values, which calls it, stays small where they are numbers.
#[inline(never)]
fn compare_bytes(left: &[u8], right: &[u8]) -> Ordering
    ensures { result ≡ slice_cmp nat_cmp left.now right.now }
{
    if left.len().min(right.len()) <= FEW_BYTES {
        return compare_each(left, right);
    }
    left.cmp(right)
}

// Never inlined, so that the copy of a short text, which takes no memory, stays small.
#[inline(never)]
fn dup_far(text: &Box<String>) -> Result<Text, Memory>
    ensures { IfOk result (λ copy. copy ≡ string_bytes text.now.value) }
{
    far(*text.allocator(), text.as_ref().clone()?)
}

// Whether all bytes are ASCII. It is for few bytes: the test of UTF-8 passes many by groups, and that costs more to begin than few cost.
fn is_ascii(bytes: &[u8]) -> bool
    ensures { IsTrue result ↔ EachIndex bytes.now (λ k. slice_index bytes.now k < 128) }
{
    for byte in bytes {
        if *byte >= 128 {
            return false;
        }
    }
    true
}

// A short text, which takes no memory.
fn near(text: &[u8]) -> Text
    requires short { length text.now ≤ 22 }
    requires utf8 { IsUtf8 text.now }
    ensures { result ≡ text.now }
{
    let mut bytes = [0; 22];
    bytes[..text.len()].copy_from_slice(text);
    Text {
        held: Held::Near(text.len() as u8, bytes),
    }
}

// The front of a short text. What lies behind its bytes counts nothing.
fn near_front(len: u8, bytes: &[u8; 22]) -> u64
    ensures { result ≡ number_onto 0 (first_digits 7 (take len bytes.now)) }
{
    let behind = 8 * (7 - len.min(7));
    let eight = u64::from_be_bytes([
        bytes[0], bytes[1], bytes[2], bytes[3], bytes[4], bytes[5], bytes[6], bytes[7],
    ]);
    eight >> 8 >> behind << behind
}

// The same where the bytes lie elsewhere. Never inlined, for few texts are so long.
#[inline(never)]
fn far_front(bytes: &[u8]) -> u64
    ensures { result ≡ number_onto 0 (first_digits 7 bytes.now) }
{
    let mut number = 0;
    for i in 0..7 {
        let byte = if i < bytes.len() { bytes[i] } else { 0 };
        number = number * 256 + byte as u64;
    }
    number
}

// A text whose bytes lie in memory of their own.
fn far(alloc: Global, text: String) -> Result<Text, Memory>
    ensures { IfOk result (λ made. made ≡ string_bytes text) }
{
    Ok(Text {
        held: Held::Far(Box::new(alloc, text)?),
    })
}
