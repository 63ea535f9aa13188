//! LIKE.
ghost use Rattle.std.specs.Prelude.{◌≡◌, ◌≤◌, ◌==◌, ◌&&◌, ◌||◌, true, length, take, drop, IfOk};
ghost use Rattle.ct_expr.specs.Like.{part_len, fits};
ghost use Rattle.std.specs.List.{list_any};
ghost use Rattle.std.specs.Str.{chars};
ghost use Rattle.ct_expr.specs.Values.{is_like, like_of, rests};

use ct_value::{Memory, Text, Value};
use std::alloc::Global;

/// Whether a text is like a pattern, and NULL beside NULL. It takes memory in proportion to both, and time too but for a part between
/// two percent signs that nearly fits at many places of the text: there the part's length counts once for each place.
pub(crate) fn like_of(alloc: Global, value: &Value, pattern: &Value) -> Result<Value, Memory>
    ensures { IfOk result (λ v. v ≡ like_of value.now pattern.now) }
{
    match (value, pattern) {
        (Value::Text(text), Value::Text(pattern)) => Ok(Value::Bool(is_like_text(
            alloc, text, pattern,
        )?)),
        _ => Ok(Value::Null),
    }
}

fn is_like_text(alloc: Global, text: &Text, pattern: &Text) -> Result<bool, Memory>
    ensures { IfOk result (λ b. b ≡ is_like (chars pattern.now) (chars text.now)) }
{
    let text = characters(alloc, text.as_str())?;
    let pattern = characters(alloc, pattern.as_str())?;
    Ok(is_like(&text, &pattern))
}

#[tactic(auto, using(crate::proofs::Texts::counted))]
fn characters(alloc: Global, text: &str) -> Result<Vec<char>, Memory>
    ensures { IfOk result (λ cs. cs.items ≡ chars text.now) }
{
    Ok(text.chars().collect(alloc)?)
}

// The pattern is cut at its percent signs. The first part is matched at the text's front and the last at its end; each part between
// is found where it comes first, which leaves the most of the text for those behind it.
#[tactic(auto, using(crate::proofs::Parts::begins, crate::proofs::Parts::begins_not, crate::proofs::Parts::like_last, crate::proofs::Parts::other_length))]
fn is_like(text: &[char], pattern: &[char]) -> bool
    ensures { result ≡ is_like pattern.now text.now }
{
    let len = part_len(pattern);
    if len == pattern.len() {
        return text.len() == pattern.len() && fits(text, pattern);
    }
    fits(text, front(pattern, len)) && some_rest(behind(text, len), behind(pattern, len + 1))
}

// Whether some rest of the text is like the pattern.
#[tactic(auto, using(crate::proofs::Parts::found_here, crate::proofs::Parts::found_later, crate::proofs::Parts::found_nowhere, crate::proofs::Parts::last_part))]
fn some_rest(text: &[char], pattern: &[char]) -> bool
    ensures { result ≡ list_any (is_like pattern.now) (rests text.now) }
{
    let mut rest = text;
    let mut parts = pattern;
    let mut len = part_len(parts);
    'places: while len < parts.len() {
        if fits(rest, front(parts, len)) {
            rest = behind(rest, len);
            parts = behind(parts, len + 1);
            len = part_len(parts);
        } else if rest.is_empty() {
            return false;
        } else {
            rest = behind(rest, 1);
        }
    }
    is_end(rest, parts)
}

// Whether the text ends with characters that the last part matches.
#[tactic(auto, using(crate::proofs::Parts::too_short, crate::proofs::Parts::at_the_end))]
fn is_end(text: &[char], part: &[char]) -> bool
    requires { part_len part.now ≡ length part.now }
    ensures { result ≡ list_any (is_like part.now) (rests text.now) }
{
    if text.len() < part.len() {
        return false;
    }
    fits(behind(text, text.len() - part.len()), part)
}

// How long the part is that the pattern begins with.
fn part_len(pattern: &[char]) -> usize
    ensures value { result ≡ part_len pattern.now }
    ensures most { result ≤ length pattern.now }
{
    let mut len = 0;
    'items: while len < pattern.len() {
        if pattern[len] == '%' {
            return len;
        }
        len += 1;
    }
    len
}

// Whether the text begins with characters that the part matches.
#[tactic(auto, using(crate::proofs::Parts::fits_short))]
fn fits(text: &[char], part: &[char]) -> bool
    ensures value { result ≡ fits part.now text.now }
    ensures room { result ≡ true → length part.now ≤ length text.now }
{
    if text.len() < part.len() {
        return false;
    }
    let mut place = 0;
    'places: while place < part.len() {
        if !is_matched(part[place], text[place]) {
            return false;
        }
        place += 1;
    }
    true
}

fn is_matched(item: char, character: char) -> bool
    ensures { result ≡ ((item == 95) || (item == character)) }
{
    item == '_' || item == character
}

fn front(items: &[char], count: usize) -> &[char]
    requires { count ≤ length items.now }
    ensures { result.now ≡ take count items.now }
{
    &items[..count]
}

fn behind(items: &[char], count: usize) -> &[char]
    requires { count ≤ length items.now }
    ensures { result.now ≡ drop count items.now }
{
    &items[count..]
}
