ghost use Rattle.std.specs.Prelude.{◌≡◌, ◌+◌, ◌∷◌, ◌≤◌, ◌<◌, ◌⊎◌, [], IfOk, length, List, Some, None, Ok, Err, IsSome, ℕ};
ghost use Rattle.std.specs.Bool.{MatchBool};
ghost use Rattle.csv.specs.Records.{fields_of};
ghost use Rattle.job_text.specs.Lines.{LinesLeft, Record, answer_of, line_in, one_read, records_of};
ghost use Rattle.job_text.specs.Reading.{IsReading, Takes, left_in};

use crate::counting::count_records;
use crate::line::{Line, LineFault, line_in};
use crate::named::NamedSources;
use csv::{ByteRecord, Reader, ReaderBuilder};
use ct_value::Memory;
use std::alloc::Global;
use std::io::{AsBytes, Cursor, Read};
use std::marker::Model;

// The bytes of a change file, as a cursor goes over them.
#[derive(Drop)]
struct FileBytes<'a> {
    bytes: &'a [u8],
}

impl<'a> Model for FileBytes<'a> {
    ghost use Rattle.std.specs.Prelude.{List, ℕ};

    ghost Value = { List ℕ };

    ghost view = { λ file. file.bytes.now };
}

impl<'a> AsBytes for FileBytes<'a> {
    ghost use Rattle.std.specs.Prelude.{Some};

    ghost bytes = { λ file. Some file };

    fn as_byte_slice(&self) -> &[u8] {
        self.bytes
    }
}

// A reader of the records of what `source` gives, before the first of them.
fn reader_of<R: Read>(alloc: Global, source: R) -> Reader<R>
    requires { IsSome (R.remaining source) }
    ensures reading { IsReading R.remaining result }
    ensures left { (xs : List ℕ) → R.remaining source ≡ Some xs → left_in R.remaining result ≡ records_of xs }
{
    ReaderBuilder::new()
        .has_headers(false)
        .flexible(true)
        .from_reader(alloc, source)
}

// The next record into `fields`, and whether there was one.
fn try_record<R: Read>(reader: &mut Reader<R>, fields: &mut ByteRecord) -> Result<bool, Memory>
    requires { IsReading R.remaining reader.old }
    ensures { IfOk result (λ found. MatchBool found (Takes R.remaining reader.old (fields_of fields.new) reader.new) (left_in R.remaining reader.old ≡ [])) }
{
    let Ok(found) = reader.read_byte_record(fields) else {
        return Err(Memory);
    };
    Ok(found)
}

/// The lines of a change file, whose bytes are borrowed, and of which some were read. It is seen as how many were read and the list of the
/// records that are left.
#[derive(Drop)]
pub struct ChangeLines<'a> {
    alloc: Global,
    reader: Reader<Cursor<FileBytes<'a>>>,
    fields: ByteRecord,
    feed: Option<u32>,
    read: u32,
    left: u32,
}

impl<'a> Model for ChangeLines<'a> {
    ghost use Rattle.job_text.specs.Lines.{LinesLeft};
    ghost use Rattle.job_text.specs.Reading.{IsWithin, lines_left};

    ghost Value = { LinesLeft };

    ghost view = { λ a. lines_left a.feed a.read a.reader a.left };

    ghost invariant = { λ a. IsWithin a.read a.reader a.left };
}

impl<'a> ChangeLines<'a> {
    /// The lines of a file of at most 67,108,864 bytes, none of which was read. They are all of the source of the feed's place, from 0,
    /// where there is a feed; else each names its source.
    pub fn new(alloc: Global, bytes: &'a [u8], feed: Option<u32>) -> Result<ChangeLines<'a>, Memory>
        requires { length bytes.now ≤ 67108864 }
        ensures { IfOk result (λ lines. lines ≡ record { feed = feed; read = 0; records = records_of bytes.now }) }
    {
        ChangeLines::behind(alloc, bytes, feed, 0)
    }

    /// The lines of a part of such a file, before which so many lines were read.
    pub fn behind(
        alloc: Global,
        bytes: &'a [u8],
        feed: Option<u32>,
        read: u32,
    ) -> Result<ChangeLines<'a>, Memory>
        requires { read + length bytes.now ≤ 67108864 }
        ensures { IfOk result (λ lines. lines ≡ record { feed = feed; read = read; records = records_of bytes.now }) }
    {
        let left = count_records(bytes)?;
        Ok(ChangeLines {
            alloc,
            reader: reader_of(alloc, Cursor::new(FileBytes { bytes })),
            fields: ByteRecord::new(alloc),
            feed,
            read,
            left,
        })
    }

    /// The source, by its place from 0, of which all lines are. It takes no memory.
    pub fn feed(&self) -> Option<u32>
        ensures { result ≡ self.now.feed }
    {
        self.feed
    }

    /// How many records were read. It takes no memory.
    pub fn read(&self) -> u32
        ensures { result ≡ self.now.read }
    {
        self.read
    }

    /// How many records were not read. It takes no memory.
    pub fn left(&self) -> u32
        ensures { result ≡ length self.now.records }
    {
        self.left
    }

    /// Reads the next record, and answers the line of one of the sources that it is, and `None` exactly at the end. After a
    /// refusal it stands behind the refused record, after want of memory at its end.
    pub fn next_line(&mut self, sources: &NamedSources<'_>) -> Result<Option<Line>, LineFault>
        ensures end { self.old.records ≡ [] → (result ≡ Ok None) × (self.new ≡ self.old) }
        ensures line { (first : Record) (rest : List Record) → self.old.records ≡ first ∷ rest
            → ((result ≡ Err LineFault.Memory) × (self.new.records ≡ [])) ⊎ ((result ≡ answer_of (line_in sources.now self.old.feed first)) × (self.new ≡ one_read self.old rest)) }
    {
        if self.left == 0 {
            return Ok(None);
        }
        if try_record(&mut self.reader, &mut self.fields).is_err() {
            self.left = 0;
            return Err(LineFault::Memory);
        }
        self.read += 1;
        self.left -= 1;
        match line_in(self.alloc, sources, self.feed, &self.fields) {
            Ok(line) => Ok(Some(line)),
            Err(LineFault::Change(code)) => Err(LineFault::Change(code)),
            Err(LineFault::Memory) => {
                self.left = 0;
                Err(LineFault::Memory)
            }
        }
    }
}
