//! How many records a change file has, and how many fields a record may have: past that memory is wanting, before they
//! are listed.
ghost use Rattle.std.specs.Prelude.{◌≡◌, ◌≤◌, ◌+◌, ◌&&◌, ◌||◌, ◌==◌, cond, drop, length, nat_lt, slice_index, true, IfOk};
ghost use Rattle.std.specs.List.{prefix_len};
ghost use Rattle.csv.specs.Machine as csv;
ghost use Rattle.csv.specs.Reading.{default_config, is_bom, strip_bom};
ghost use Rattle.csv.specs.declared.parser.State.TheVariants.{StartRecord};
ghost use Rattle.job_text.specs.Ends.{before_end, field_ends, is_plain, is_start, is_unmarked, may_cut, state_at, state_behind};
ghost use Rattle.job_text.specs.Lines.{records_of};

use ct_value::Memory;

// The most fields of a record; a line has 66 at most.
const MOST_FIELDS: usize = 1_048_576;

// Where a byte leaves a reader of records.
#[derive(Clone, Copy, Debug, PartialEq, Eq)]
enum Place {
    RecordStart,
    BehindReturn,
    FieldStart,
    Plain,
    Quoted,
    BehindQuote,
}

/// How many records these bytes have, which are no more than the bytes. Memory is wanting where one of them has more
/// fields than may be listed.
#[tactic(auto, using(crate::proofs::RecordEnds::one_record))]
pub(crate) fn count_records(bytes: &[u8]) -> Result<u32, Memory>
    requires { length bytes.now ≤ 67108864 }
    ensures { IfOk result (λ count. count ≡ length (records_of bytes.now)) }
{
    let text = without_mark(bytes);
    let mut count: u32 = 0;
    let mut at = 0;
    while at < text.len() {
        let end = record_end(text, at);
        if has_many_fields(&text[at..end]) {
            return Err(Memory);
        }
        count += one_if(at < end);
        at = end + 1;
    }
    Ok(count)
}

/// Whether a change file may be cut between `bytes` and `rest`: a record begins behind these bytes, and neither part begins with a byte
/// order mark. Each part has three bytes at least. Then the file's records are those of its parts. It takes no memory.
pub fn may_cut(bytes: &[u8], rest: &[u8]) -> bool
    ensures { result ≡ may_cut bytes.now rest.now }
{
    is_unmarked(bytes) && is_unmarked(rest) && ends_lines(bytes)
}

// Whether there are three bytes, which are no byte order mark.
#[tactic(auto, using(crate::proofs::Ends::unmarked_of, crate::proofs::Ends::few_unmarked))]
fn is_unmarked(bytes: &[u8]) -> bool
    ensures { result ≡ is_unmarked bytes.now }
{
    if bytes.len() < 3 {
        return false;
    }
    !is_mark(bytes[0], bytes[1], bytes[2])
}

// Whether a record begins behind these bytes, before which one begins.
#[tactic(auto, using(crate::proofs::RecordEnds::more_lines, crate::proofs::RecordEnds::last_line))]
fn ends_lines(bytes: &[u8]) -> bool
    ensures { result ≡ is_start (state_behind StartRecord bytes.now) }
{
    let mut begins = true;
    let mut at = 0;
    while at < bytes.len() {
        let end = record_end(bytes, at);
        begins = begins_behind(bytes, at, end);
        at = end + 1;
    }
    begins
}

// Whether a record begins behind the byte at `end`, where a line ends that begins at `at`. Behind a record that a return ends, its line
// feed may come first.
fn begins_behind(bytes: &[u8], at: usize, end: usize) -> bool
    ensures { result ≡ (nat_lt end (length bytes.now) && ((at == end) || (slice_index bytes.now end == 10))) }
{
    end < bytes.len() && (at == end || bytes[end] == b'\n')
}

// Where the record ends that begins at a place, or its empty line: before the byte that ends it, or behind the text.
#[tactic(auto, using(crate::proofs::RecordEnds::plain_record))]
fn record_end(text: &[u8], at: usize) -> usize
    requires { at ≤ length text.now }
    ensures is { result ≡ at + before_end StartRecord (drop at text.now) }
    ensures within { result ≤ length text.now }
{
    let end = plain_end(text, at);
    if has_quote_at(text, end) {
        return quoted_end(text, at);
    }
    end
}

fn has_quote_at(text: &[u8], place: usize) -> bool
    ensures { result ≡ (nat_lt place (length text.now) && (slice_index text.now place == 34)) }
{
    place < text.len() && text[place] == b'"'
}

// The place of the first quote or end of a line, from a place on, or else the end of the text.
fn plain_end(text: &[u8], from: usize) -> usize
    requires { from ≤ length text.now }
    ensures is { result ≡ from + prefix_len is_plain (drop from text.now) }
    ensures within { result ≤ length text.now }
{
    for i in from..text.len() {
        if !is_plain(text[i]) {
            return i;
        }
    }
    text.len()
}

fn is_plain(byte: u8) -> bool
    ensures { result ≡ is_plain byte }
{
    byte != b'"' && byte != b'\r' && byte != b'\n'
}

// The end of a record that has quotes, which may stand round ends of lines.
#[tactic(auto, using(crate::proofs::RecordEnds::one_within, crate::proofs::RecordEnds::one_out, crate::proofs::RecordEnds::none_before))]
fn quoted_end(text: &[u8], at: usize) -> usize
    requires { at ≤ length text.now }
    ensures is { result ≡ at + before_end StartRecord (drop at text.now) }
    ensures within { result ≤ length text.now }
{
    let mut place = Place::RecordStart;
    for i in at..text.len() {
        let byte = text[i];
        if is_plain(byte) {
            place = place_within(place, byte);
            continue;
        }
        place = place_behind(place, byte);
        if !is_within(place) {
            return i;
        }
    }
    text.len()
}

// Where a byte leaves the reader that is no quote and no end of a line: within the record.
#[tactic(auto, using(crate::proofs::PlainBytes::quoted_stays, crate::proofs::PlainBytes::comma_starts, crate::proofs::PlainBytes::other_plain))]
fn place_within(place: Place, byte: u8) -> Place
    requires { is_plain byte ≡ true }
    ensures is { state_at result ≡ (csv.step default_config (state_at place) byte).0 }
    ensures within { csv.ends_at_end (state_at result) ≡ true }
{
    if place == Place::Quoted {
        Place::Quoted
    } else if byte == b',' {
        Place::FieldStart
    } else {
        Place::Plain
    }
}

// Whether more fields end within a record than may be listed.
#[tactic(auto, using(crate::proofs::RecordEnds::few_fields))]
fn has_many_fields(text: &[u8]) -> bool
    ensures { result ≡ nat_lt 1048576 (field_ends StartRecord text.now) }
{
    text.len() > MOST_FIELDS && field_ends(text) > MOST_FIELDS
}

// How many fields end within a record, each at its comma.
#[tactic(auto, using(crate::proofs::RecordEnds::one_field, crate::proofs::RecordEnds::no_field))]
fn field_ends(text: &[u8]) -> usize
    ensures { result ≡ field_ends StartRecord text.now }
{
    let mut place = Place::RecordStart;
    let mut ends: usize = 0;
    for byte in text {
        place = place_behind(place, *byte);
        if place == Place::FieldStart {
            ends += 1;
        }
    }
    ends
}

// The bytes behind a byte order mark, if there is one.
#[tactic(auto, using(crate::proofs::Ends::unmarked_short, crate::proofs::Ends::unmarked, crate::proofs::Ends::marked))]
fn without_mark(bytes: &[u8]) -> &[u8]
    ensures { result.now ≡ strip_bom bytes.now }
{
    if bytes.len() < 3 {
        return bytes;
    }
    if is_mark(bytes[0], bytes[1], bytes[2]) {
        &bytes[3..]
    } else {
        bytes
    }
}

fn is_mark(first: u8, second: u8, third: u8) -> bool
    ensures { result ≡ is_bom first second third }
{
    first == 0xEF && second == 0xBB && third == 0xBF
}

// Where a byte leaves the reader.
fn place_behind(place: Place, byte: u8) -> Place
    ensures { state_at result ≡ (csv.step default_config (state_at place) byte).0 }
{
    match place {
        Place::RecordStart => at_record(byte),
        Place::BehindReturn => {
            if byte == b'\n' {
                Place::RecordStart
            } else {
                at_record(byte)
            }
        }
        Place::FieldStart => at_field(byte),
        Place::Plain => in_field(byte),
        Place::Quoted => {
            if byte == b'"' {
                Place::BehindQuote
            } else {
                Place::Quoted
            }
        }
        // Within a quoted field a doubled quote stands for one.
        Place::BehindQuote => {
            if byte == b'"' {
                Place::Quoted
            } else {
                in_field(byte)
            }
        }
    }
}

fn at_record(byte: u8) -> Place
    ensures { state_at result ≡ (csv.start_record default_config byte).0 }
{
    if byte == b'\r' || byte == b'\n' {
        Place::RecordStart
    } else {
        at_field(byte)
    }
}

fn at_field(byte: u8) -> Place
    ensures { state_at result ≡ (csv.start_field default_config byte).0 }
{
    if byte == b'"' {
        Place::Quoted
    } else {
        in_field(byte)
    }
}

// Behind a byte outside quotes.
fn in_field(byte: u8) -> Place
    ensures { state_at result ≡ (csv.in_field default_config byte).0 }
{
    if byte == b',' {
        Place::FieldStart
    } else if byte == b'\r' {
        Place::BehindReturn
    } else if byte == b'\n' {
        Place::RecordStart
    } else {
        Place::Plain
    }
}

// Whether a record ends where the bytes end there.
fn is_within(place: Place) -> bool
    ensures { result ≡ csv.ends_at_end (state_at place) }
{
    match place {
        Place::RecordStart | Place::BehindReturn => false,
        Place::FieldStart | Place::Plain | Place::Quoted | Place::BehindQuote => true,
    }
}

fn one_if(holds: bool) -> u32
    ensures is { result ≡ cond holds 1 0 }
    ensures small { result ≤ 1 }
{
    if holds { 1 } else { 0 }
}
