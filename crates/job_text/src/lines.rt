ghost use Rattle.std.specs.Prelude.{◌≡◌, ◌++◌, ◌∷◌, [], length, cond, IsTrue, List, ℕ, OnOk, IfOk, option_copied};
ghost use Rattle.std.specs.List.{AllByRecursion};
ghost use Rattle.ct_field.specs.Numbers.{is_type};
ghost use Rattle.ct_field.specs.Fields.{field_text};
ghost use Rattle.stream_model.specs.KeysTold.{told_by};
ghost use Rattle.job_text.specs.AtKey.{at_key};
ghost use Rattle.job_text.specs.Printed.{IsWide, change_line, commaed, field_texts, fields_behind, item_line, kind_text, numbers_told, quiet_line, record_line, row_line, row_text, sum_of, told_texts};

use crate::quoting::push_text;
use ct_change::{Change, Kind, among};
use ct_field::push_field;
use ct_value::{Bytes, Cols, Memory, Row, Ty, Value};
use std::alloc::Global;
use std::marker::Model;
use stream_model::PrintItem;

/// Makes the lines of items, one after the other, in room that it keeps. It is seen as the line that it made last.
#[derive(Drop)]
pub struct LineWriter {
    alloc: Global,
    line: Bytes,
}

impl Model for LineWriter {
    ghost use Rattle.std.specs.Prelude.{List, ℕ};

    ghost Value = { List ℕ };

    ghost view = { λ w. w.line };
}

impl LineWriter {
    /// One that has made no line. It takes no memory.
    pub fn new(alloc: Global) -> Self
        ensures { result ≡ [] }
    {
        LineWriter {
            alloc,
            line: Bytes::new(alloc),
        }
    }

    /// The line that it made last.
    pub fn line(&self) -> &[u8]
        ensures { result.now ≡ self.now }
    {
        self.line.as_slice()
    }

    /// Makes the line of an item, whose change has columns of these types. The key is that of the sink where this is an upsert table: of a
    /// `-D` into that the key's texts are printed alone. By table, a quiet moment has the number of changes taken of each source, else their
    /// sum.
    pub fn write_item(
        &mut self,
        item: &PrintItem,
        tys: &[Ty],
        key: Option<&Cols>,
        by_table: bool,
    ) -> Result<(), Memory>
        requires wide { IsWide (length tys.now) item.now }
        requires types { AllByRecursion (λ ty. IsTrue (is_type ty)) tys.now }
        ensures { OnOk result (self.new ≡ item_line by_table tys.now (option_copied key.entry) item.now) }
    {
        self.line.clear();
        match item {
            PrintItem::Change(change) => {
                push_change(self.alloc, &mut self.line, change, tys, key)
            }
            PrintItem::Quiet(counts) => {
                push_quiet(self.alloc, &mut self.line, counts.as_slice(), by_table)
            }
        }
    }
}

/// The line of a row with columns of these types.
pub fn row_line(alloc: Global, row: &Row, tys: &[Ty]) -> Result<Vec<u8>, Memory>
    requires wide { length row.now ≡ length tys.now }
    requires types { AllByRecursion (λ ty. IsTrue (is_type ty)) tys.now }
    ensures { IfOk result (λ line. line.items ≡ row_line tys.now row.now) }
{
    let mut fields = Bytes::new(alloc);
    push_values(alloc, &mut fields, tys, row.as_slice())?;
    record_line(alloc, fields.as_slice())
}

/// The row without the end of its line; the empty row is nothing.
pub fn row_text(alloc: Global, row: &Row, tys: &[Ty]) -> Result<Vec<u8>, Memory>
    requires wide { length row.now ≡ length tys.now }
    requires types { AllByRecursion (λ ty. IsTrue (is_type ty)) tys.now }
    ensures { IfOk result (λ text. text.items ≡ row_text tys.now row.now) }
{
    if row.is_empty() {
        return Ok(Vec::new(alloc));
    }
    let mut line = row_line(alloc, row, tys)?;
    line.pop();
    Ok(line)
}

// The line of a record whose fields each stand behind a comma. No field, or an empty one alone, is two quotes.
#[tactic(auto, using(crate::proofs::RecordLines::blank_record, crate::proofs::RecordLines::shown_record))]
fn record_line(alloc: Global, behind: &[u8]) -> Result<Vec<u8>, Memory>
    ensures { (fields : List (List ℕ)) → behind.now ≡ fields_behind fields → IfOk result (λ line. line.items ≡ record_line fields) }
{
    if behind.len() <= 1 {
        return Ok(Vec::from_slice(alloc, b"\"\"\n")?);
    }
    let mut line = Vec::from_slice(alloc, &behind[1..])?;
    line.push(b'\n')?;
    Ok(line)
}

// Puts the line of a change.
#[tactic(auto, using(crate::proofs::RecordLines::change_put))]
fn push_change(
    alloc: Global,
    line: &mut Bytes,
    change: &Change,
    tys: &[Ty],
    key: Option<&Cols>,
) -> Result<(), Memory>
    requires wide { length change.now.row ≡ length tys.now }
    requires types { AllByRecursion (λ ty. IsTrue (is_type ty)) tys.now }
    ensures { OnOk result (line.new ≡ line.old ++ change_line tys.now (option_copied key.entry) change.now) }
{
    line.extend(kind_text(change.kind).as_bytes())?;
    let told = told_key(key, change.kind);
    push_row(alloc, line, tys, change.row.as_slice(), told)?;
    line.push(b'\n')?;
    Ok(())
}

// The key that a change of this kind tells alone, into a sink with this key.
fn told_key(key: Option<&Cols>, kind: Kind) -> Option<&Cols>
    ensures { option_copied result ≡ told_by (option_copied key.entry) kind }
{
    let key = key?;
    match kind {
        Kind::D => Some(key),
        Kind::I | Kind::UB | Kind::UA => None,
    }
}

// Puts the texts of a row, or those of a key that is told alone.
fn push_row(
    alloc: Global,
    line: &mut Bytes,
    tys: &[Ty],
    values: &[Value],
    key: Option<&Cols>,
) -> Result<(), Memory>
    requires types { AllByRecursion (λ ty. IsTrue (is_type ty)) tys.now }
    requires wide { length values.now ≡ length tys.now }
    ensures { OnOk result (line.new ≡ line.old ++ fields_behind (told_texts (option_copied key.entry) (field_texts tys.now values.now))) }
{
    match key {
        None => push_values(alloc, line, tys, values),
        Some(key) => push_key_values(alloc, line, tys, values, key.as_slice()),
    }
}

// Puts the texts of values.
#[tactic(auto, using(crate::proofs::Texts::texts_none, crate::proofs::Texts::type_at))]
fn push_values(alloc: Global, line: &mut Bytes, tys: &[Ty], values: &[Value]) -> Result<(), Memory>
    requires types { AllByRecursion (λ ty. IsTrue (is_type ty)) tys.now }
    requires wide { length values.now ≡ length tys.now }
    ensures { OnOk result (line.new ≡ line.old ++ fields_behind (field_texts tys.now values.now)) }
{
    for i in 0..values.len() {
        push_value(alloc, line, tys[i], &values[i])?;
    }
    Ok(())
}

// Puts the texts of the values in a key's columns.
#[tactic(auto, using(crate::proofs::Texts::key_texts_none, crate::proofs::Texts::type_at))]
fn push_key_values(
    alloc: Global,
    line: &mut Bytes,
    tys: &[Ty],
    values: &[Value],
    key: &[u32],
) -> Result<(), Memory>
    requires types { AllByRecursion (λ ty. IsTrue (is_type ty)) tys.now }
    requires wide { length values.now ≡ length tys.now }
    ensures { OnOk result (line.new ≡ line.old ++ fields_behind (at_key key.now 0 (field_texts tys.now values.now))) }
{
    let in_key = among(alloc, values.len(), key)?;
    for i in 0..values.len() {
        push_at_key(alloc, line, tys[i], &values[i], in_key[i])?;
    }
    Ok(())
}

// Puts the text of a value where its column is one of the key's.
#[tactic(auto, using(crate::proofs::Texts::none_behind))]
fn push_at_key(
    alloc: Global,
    line: &mut Bytes,
    ty: Ty,
    value: &Value,
    is_key: bool,
) -> Result<(), Memory>
    requires ty { IsTrue (is_type ty) }
    ensures { OnOk result (line.new ≡ line.old ++ fields_behind (cond is_key (field_text ty value.now ∷ []) [])) }
{
    if is_key {
        return push_value(alloc, line, ty, value);
    }
    Ok(())
}

// Puts the text of a value behind a comma. That of a number or a truth value needs no quotes.
#[tactic(auto, using(crate::proofs::PlainFields::plain_behind, crate::proofs::PlainFields::field_behind))]
fn push_value(alloc: Global, line: &mut Bytes, ty: Ty, value: &Value) -> Result<(), Memory>
    requires ty { IsTrue (is_type ty) }
    ensures { OnOk result (line.new ≡ line.old ++ fields_behind (field_text ty value.now ∷ [])) }
{
    line.push(b',')?;
    match value {
        Value::Text(text) => push_text(line, text.as_slice()),
        Value::Null | Value::Bool(_) | Value::Num(_) => push_field(alloc, line, ty, value),
    }
}

// Puts the line of a quiet moment.
fn push_quiet(alloc: Global, line: &mut Bytes, counts: &[u32], by_table: bool) -> Result<(), Memory>
    ensures { OnOk result (line.new ≡ line.old ++ quiet_line (numbers_told by_table counts.now)) }
{
    if by_table {
        push_counts(alloc, line, counts)
    } else {
        push_sum(alloc, line, sum_of(counts))
    }
}

#[tactic(auto, using(crate::proofs::Texts::counts_start, crate::proofs::Texts::counts_end))]
fn push_counts(alloc: Global, line: &mut Bytes, counts: &[u32]) -> Result<(), Memory>
    ensures { OnOk result (line.new ≡ line.old ++ quiet_line counts.now) }
{
    line.push(b'=')?;
    for i in 0..counts.len() {
        push_count(alloc, line, counts[i])?;
    }
    line.push(b'\n')
}

// Puts a number behind a comma.
fn push_count(alloc: Global, line: &mut Bytes, count: u32) -> Result<(), Memory>
    ensures { OnOk result (line.new ≡ line.old ++ commaed (count ∷ [])) }
{
    let text = format!(in alloc; ",{count}")?;
    line.extend(text.as_bytes())
}

// The sum, for which 64 bits may be too few.
fn sum_of(counts: &[u32]) -> u128
    ensures { result ≡ sum_of counts.now }
{
    let mut sum: u128 = 0;
    for count in counts {
        sum += u128::from(*count);
    }
    sum
}

fn push_sum(alloc: Global, line: &mut Bytes, sum: u128) -> Result<(), Memory>
    ensures { OnOk result (line.new ≡ line.old ++ quiet_line (sum ∷ [])) }
{
    let text = format!(in alloc; "=,{sum}\n")?;
    line.extend(text.as_bytes())
}

fn kind_text(kind: Kind) -> &'static str
    ensures { result.now ≡ kind_text kind }
{
    match kind {
        Kind::I => "+I",
        Kind::UB => "-U",
        Kind::UA => "+U",
        Kind::D => "-D",
    }
}
