// Texts, lists, rows, their order and the texts of codes.
ghost use Rattle.std.specs.Prelude.{◌<◌, length};

use ct_value::{
    Boxed, Bytes, ChangeCode, ColTy, ColTys, Cols, Memory, OrderCode, Row, ScriptCode, Text,
    TextFault, Ty, Value, Values,
};
use std::alloc::Global;
use std::cmp::Ordering;
use std::collections::HashMap;
use std::test::Fail;

// A value as the tables of these tests write it.
#[derive(Clone, Copy)]
enum Cell {
    Null,
    Bool(bool),
    Num(i128),
    Text(&'static str),
}

fn value(alloc: Global, cell: Cell) -> Result<Value, Memory> {
    match cell {
        Cell::Null => Ok(Value::Null),
        Cell::Bool(truth) => Ok(Value::Bool(truth)),
        Cell::Num(number) => Ok(Value::Num(number)),
        Cell::Text(text) => Ok(Value::Text(Text::from_str(alloc, text)?)),
    }
}

fn values(alloc: Global, cells: &[Cell]) -> Result<Values, Memory> {
    let mut values = Values::new(alloc);
    for cell in cells {
        values.push(value(alloc, *cell)?)?;
    }
    Ok(values)
}

fn row(alloc: Global, cells: &[Cell]) -> Result<Row, Memory> {
    Ok(Row::from_values(values(alloc, cells)?))
}

// Bytes, and whether they are UTF-8.
const MAYBE_TEXTS: [(&[u8], bool); 9] = [
    (b"", true),
    (b"word", true),
    (b"\xc3\xa9", true),
    (b"\xf4\x8f\xbf\xbf", true),
    (b"\xff", false),
    (b"a\xc3", false),
    (b"\xc0\x80", false),
    (b"\xed\xa0\x80", false),
    (b"\xf4\x90\x80\x80", false),
];

// Whether bytes are a text where they are to be, and are refused otherwise.
fn is_read(alloc: Global, bytes: &[u8], is_text: bool) -> bool {
    match Text::from_bytes(alloc, bytes) {
        Ok(text) => is_text && text.is(bytes),
        Err(fault) => !is_text && fault == TextFault::NotUtf8,
    }
}

#[test]
fn bytes_are_a_text_where_they_are_utf8(rt: HostRuntime) {
    for (bytes, is_text) in &MAYBE_TEXTS {
        assert!(rt; is_read(rt.alloc(), bytes, *is_text));
    }
}

// Words in the order of their bytes.
const WORDS: [&str; 6] = ["", "Z", "a", "aa", "b", "\u{e9}"];

fn text_order(alloc: Global, word: &str, other: &str) -> Result<Ordering, Memory> {
    let text = Text::from_str(alloc, word)?;
    Ok(text.cmp(&Text::from_str(alloc, other)?))
}

#[test]
fn texts_are_ordered(rt: HostRuntime) -> Result<(), Fail> {
    for pair in WORDS.windows(2) {
        if let [word, next] = pair {
            assert!(rt; text_order(rt.alloc(), word, next)?.is_lt());
            assert!(rt; text_order(rt.alloc(), next, word)?.is_gt());
            assert!(rt; text_order(rt.alloc(), next, next)?.is_eq());
        }
    }
    Ok(())
}

#[test]
fn texts_are_copied(rt: HostRuntime) -> Result<(), Fail> {
    let text = Text::from_str(rt.alloc(), "a\u{e9}")?;
    let copy = text.dup()?;
    assert!(rt; copy.as_slice() == b"a\xc3\xa9".as_slice());
    assert!(rt; copy.as_str() == text.as_str());
    Ok(())
}

// A copy stays as it is when the bytes are cleared.
fn lists_bytes(alloc: Global) -> Result<bool, Memory> {
    let mut bytes = Bytes::new(alloc);
    bytes.extend(b"ab")?;
    bytes.push(255)?;
    let copy = bytes.dup()?;
    bytes.clear();
    Ok(bytes.is_empty() && copy.is(b"ab\xff") && copy.len() == 3 && copy.get(2) == Some(255))
}

#[test]
fn bytes_are_listed_and_copied(rt: HostRuntime) -> Result<(), Fail> {
    assert!(rt; lists_bytes(rt.alloc())?);
    assert!(rt; Bytes::from_slice(rt.alloc(), b"ab")?.is(b"ab"));
    assert!(rt; Bytes::from_vec(b"ab".to_vec(rt.alloc())?).is(b"ab"));
    Ok(())
}

fn lists_cols(alloc: Global) -> Result<bool, Memory> {
    let mut cols = Cols::new(alloc);
    for col in &[4, 0, 4] {
        cols.push(*col)?;
    }
    let copy = cols.dup()?;
    Ok(matches!(copy.as_slice(), [4, 0, 4]) && copy.len() == 3 && copy.get(3).is_none())
}

const TYPES: [ColTy; 5] = [
    ColTy {
        ty: Ty::Bool,
        nullable: false,
    },
    ColTy {
        ty: Ty::Int,
        nullable: true,
    },
    ColTy {
        ty: Ty::BigInt,
        nullable: false,
    },
    ColTy {
        ty: Ty::Decimal { p: 10, s: 2 },
        nullable: true,
    },
    ColTy {
        ty: Ty::Text,
        nullable: false,
    },
];

fn lists_types(alloc: Global) -> Result<bool, Memory> {
    let mut types = ColTys::new(alloc);
    for ty in &TYPES {
        types.push(*ty)?;
    }
    let copy = types.dup()?;
    Ok(copy.as_slice() == TYPES.as_slice() && copy.get(5).is_none())
}

#[test]
fn columns_and_their_types_are_listed(rt: HostRuntime) -> Result<(), Fail> {
    assert!(rt; Cols::new(rt.alloc()).is_empty());
    assert!(rt; lists_cols(rt.alloc())?);
    assert!(rt; lists_types(rt.alloc())?);
    Ok(())
}

fn lists_values(alloc: Global) -> Result<bool, Memory> {
    let copy = values(alloc, &[Cell::Null, Cell::Text("a")])?.dup()?;
    Ok(match copy.as_slice() {
        [Value::Null, Value::Text(text)] => text.is(b"a"),
        _ => false,
    })
}

#[test]
fn values_are_listed(rt: HostRuntime) -> Result<(), Fail> {
    assert!(rt; lists_values(rt.alloc())?);
    let row = row(rt.alloc(), &[Cell::Num(3), Cell::Null])?;
    assert!(rt; row.get(0) == Some(&Value::Num(3)));
    assert!(rt; row.get(2).is_none());
    Ok(())
}

const WHOLE: [Cell; 3] = [Cell::Text("a"), Cell::Num(-7), Cell::Bool(true)];

const PREFIXES: [(u32, &[Cell]); 4] = [(0, &[]), (1, &[Cell::Text("a")]), (3, &WHOLE), (4, &WHOLE)];

// Whether the prefix is this, of a row that stays, also in the memory of another row, and of one that goes.
fn is_cut(alloc: Global, count: u32, wanted: &[Cell]) -> Result<bool, Memory> {
    let whole = row(alloc, &WHOLE)?;
    let prefix = whole.prefix(count)?;
    let mut other = row(alloc, &[Cell::Bool(false), Cell::Null])?;
    whole.prefix_into(count, &mut other)?;
    Ok(prefix == row(alloc, wanted)? && other == prefix && whole.into_prefix(count) == prefix)
}

// The values of two columns, in this order.
fn two_of(alloc: Global, row: &Row, first: u32, second: u32) -> Result<Row, Memory>
    requires first { first < length row.now }
    requires second { second < length row.now }
{
    let mut cols = Cols::new(alloc);
    cols.push(first)?;
    cols.push(second)?;
    row.project(&cols)
}

// The same in the memory of another row.
fn two_into(alloc: Global, row: &Row, first: u32, second: u32, to: &mut Row) -> Result<(), Memory>
    requires first { first < length row.now }
    requires second { second < length row.now }
{
    let mut cols = Cols::new(alloc);
    cols.push(first)?;
    cols.push(second)?;
    row.project_into(&cols, to)
}

fn is_projected(alloc: Global) -> Result<bool, Memory> {
    let whole = row(alloc, &WHOLE)?;
    let mut other = row(alloc, &[Cell::Null])?;
    if whole.len() != 3 {
        return Ok(false);
    }
    two_into(alloc, &whole, 2, 0, &mut other)?;
    Ok(
        two_of(alloc, &whole, 2, 0)? == row(alloc, &[Cell::Bool(true), Cell::Text("a")])?
            && other == row(alloc, &[Cell::Bool(true), Cell::Text("a")])?,
    )
}

fn is_widened(alloc: Global) -> Result<bool, Memory> {
    let two = row(alloc, &[Cell::Text("a"), Cell::Num(-7)])?;
    Ok(two.with(Value::Bool(true))? == row(alloc, &WHOLE)?)
}

#[test]
fn rows_are_cut_projected_and_widened(rt: HostRuntime) -> Result<(), Fail> {
    for (count, wanted) in &PREFIXES {
        assert!(rt; is_cut(rt.alloc(), *count, wanted)?);
    }
    assert!(rt; is_projected(rt.alloc())?);
    assert!(rt; is_widened(rt.alloc())?);
    Ok(())
}

#[test]
fn a_box_holds_what_was_put_in(rt: HostRuntime) -> Result<(), Fail> {
    let boxed: Boxed<u32> = Boxed::new(rt.alloc(), 7)?;
    let other: Boxed<u32> = Boxed::beside(&boxed, 8)?;
    assert!(rt; *boxed == 7);
    assert!(rt; Boxed::into_inner(boxed) == 7);
    assert!(rt; Boxed::into_inner(other) == 8);
    Ok(())
}

// Rows in their order.
const ASCENDING: [&[Cell]; 15] = [
    &[],
    &[Cell::Null],
    &[Cell::Null, Cell::Null],
    &[Cell::Null, Cell::Text("z")],
    &[Cell::Bool(false)],
    &[Cell::Bool(true)],
    &[Cell::Bool(true), Cell::Null],
    &[Cell::Num(-10)],
    &[Cell::Num(-9)],
    &[Cell::Num(0)],
    &[Cell::Num(10)],
    &[Cell::Text("")],
    &[Cell::Text("10")],
    &[Cell::Text("10"), Cell::Null],
    &[Cell::Text("9")],
];

fn row_order(alloc: Global, cells: &[Cell], others: &[Cell]) -> Result<Ordering, Memory> {
    let row_of_cells = row(alloc, cells)?;
    Ok(row_of_cells.compare(&row(alloc, others)?))
}

#[test]
fn rows_are_ordered_value_by_value(rt: HostRuntime) -> Result<(), Fail> {
    for pair in ASCENDING.windows(2) {
        if let [cells, next] = pair {
            assert!(rt; row_order(rt.alloc(), cells, next)?.is_lt());
            assert!(rt; row_order(rt.alloc(), next, cells)?.is_gt());
            assert!(rt; row_order(rt.alloc(), next, next)?.is_eq());
        }
    }
    Ok(())
}

fn places(alloc: Global) -> Result<HashMap<Row, usize>, Memory> {
    let mut places = HashMap::new(alloc);
    for (i, cells) in ASCENDING.iter().enumerate() {
        places.insert(row(alloc, cells)?, i)?;
    }
    Ok(places)
}

// Whether each row is found at its own place.
fn are_keys(alloc: Global) -> Result<bool, Memory> {
    let places = places(alloc)?;
    for (i, cells) in ASCENDING.iter().enumerate() {
        if places.get(&row(alloc, cells)?).copied() != Some(i) {
            return Ok(false);
        }
    }
    Ok(true)
}

#[test]
fn rows_are_keys(rt: HostRuntime) {
    assert!(rt; matches!(are_keys(rt.alloc()), Ok(true)));
}

#[test]
fn codes_have_texts(rt: HostRuntime) {
    assert!(rt; ScriptCode::TooManyColumns.text() == "S24 TooManyColumns");
    assert!(rt; ChangeCode::NullNotAllowed(64).text() == "C6 NullNotAllowed");
    assert!(rt; OrderCode::TooFew(1).text() == "O3 TooFew");
}
