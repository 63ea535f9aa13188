//! The fields of texts in printed records, quoted as CSV does.
ghost use Rattle.std.specs.Prelude.{◌≡◌, ◌++◌, ◌∷◌, [], OnOk, cond};
ghost use Rattle.csv.specs.Writing as csv;
ghost use Rattle.ct_field.specs.Fields.{begins_with_backslash, escaped};

use ct_value::{Bytes, Memory};

/// Puts the field of a text, which has one more backslash where it begins with one.
#[tactic(auto, using(crate::proofs::Quotes::plain_text, crate::proofs::Quotes::marked_text))]
pub(crate) fn push_text(line: &mut Bytes, text: &[u8]) -> Result<(), Memory>
    ensures { OnOk result (line.new ≡ line.old ++ csv.field_text csv.default_writer (escaped text.now)) }
{
    if needs_quotes(text) {
        return push_quoted(line, text);
    }
    push_backslash(line, text)?;
    line.extend(text)
}

// Whether a text holds what would end its field or the record.
fn needs_quotes(text: &[u8]) -> bool
    ensures { result ≡ csv.needs_quotes csv.default_writer text.now }
{
    text.iter().any(|byte| is_marked(*byte))
}

fn is_marked(byte: u8) -> bool
    ensures { result ≡ csv.needs_byte csv.default_writer byte }
{
    byte == b',' || byte == b'"' || byte == b'\r' || byte == b'\n'
}

// Puts the backslash that is one more, before a text that begins with one.
fn push_backslash(line: &mut Bytes, text: &[u8]) -> Result<(), Memory>
    ensures { OnOk result (line.new ≡ line.old ++ cond (begins_with_backslash text.now) (csv.backslash ∷ []) []) }
{
    if let [b'\\', ..] = text {
        line.push(b'\\')?;
    }
    Ok(())
}

// Puts a text between quotes, each quote in it doubled. Few texts are, so it stays out of the way of the others.
#[inline(never)]
#[tactic(auto, using(crate::proofs::Quotes::quotes_round))]
fn push_quoted(line: &mut Bytes, text: &[u8]) -> Result<(), Memory>
    ensures { OnOk result (line.new ≡ line.old ++ csv.quoted csv.default_writer (escaped text.now)) }
{
    line.push(b'"')?;
    push_backslash(line, text)?;
    push_doubled(line, text)?;
    line.push(b'"')
}

// Puts the bytes of a text, each quote doubled.
#[tactic(auto, using(crate::proofs::Quotes::doubled_step, crate::proofs::Quotes::doubled_none))]
fn push_doubled(line: &mut Bytes, text: &[u8]) -> Result<(), Memory>
    ensures { OnOk result (line.new ≡ line.old ++ csv.escaped csv.default_writer text.now) }
{
    for i in 0..text.len() {
        push_byte(line, text[i])?;
    }
    Ok(())
}

// Puts a byte of a quoted text.
#[tactic(auto, using(crate::proofs::Quotes::byte_doubled, crate::proofs::Quotes::byte_alone))]
fn push_byte(line: &mut Bytes, byte: u8) -> Result<(), Memory>
    ensures { OnOk result (line.new ≡ line.old ++ csv.escaped csv.default_writer (byte ∷ [])) }
{
    if byte == b'"' {
        return line.extend(b"\"\"");
    }
    line.push(byte)
}
