ghost use Rattle.std.specs.Prelude.{◌≡◌, map, length, IfOk};
ghost use Rattle.std.specs.String.{string_bytes};
ghost use Rattle.job_ending.specs.Endings.{AreTypes, IsPrintable, ending_line, script_line, change_line, column_of_code, column_text, table_text, order_line, in_flight_of, range_line, limit_text};
ghost use Rattle.job_ending.specs.Status.{status_of};

use ct_value::{Bytes, ChangeCode, ColTy, ColTys, Memory, OrderCode, Row, ScriptCode, Ty};
use job_text::row_text;
use std::alloc::{AllocError, Global};

/// How a run ends.
#[derive(Debug)]
pub enum Ending {
    /// It ended well.
    Done,
    /// The words of the command line are a wrong use.
    Usage,
    /// The script is refused at a statement, counted from 1.
    Script {
        code: ScriptCode,
        statement: u32,
    },
    /// A change line is refused; lines are counted from 1. The table is 0 where all sources have one change file, else the number of the
    /// source, from 1, whose file the line is in.
    Change {
        code: ChangeCode,
        line: u32,
        table: u32,
    },
    /// An order line is refused; lines are counted from 1.
    Order {
        code: OrderCode,
        line: u32,
    },
    /// A value left the range of its type, at this row of a node's subtask, whose columns have these types.
    Range {
        node: u32,
        subtask: u32,
        row: Row,
        tys: ColTys,
    },
    /// A file or the changes of a job are more than their limit.
    Limit(LimitName),
    /// A file couldn't be read.
    ReadFault,
    /// The output couldn't be written.
    WriteFault,
    /// Want of memory.
    Memory,
}

// By hand, so that whoever has an ending doesn't prove again how each kind of it is dropped.
impl Drop for Ending {
    fn drop(self) {
        match self {
            Ending::Range {
                node: _node,
                subtask: _subtask,
                row,
                tys,
            } => {
                drop(row);
                drop(tys);
            }
            Ending::Script {
                code: _code,
                statement: _statement,
            } => {}
            Ending::Change {
                code: _code,
                line: _line,
                table: _table,
            } => {}
            Ending::Order {
                code: _code,
                line: _line,
            } => {}
            Ending::Limit(_name) => {}
            Ending::Done
            | Ending::Usage
            | Ending::ReadFault
            | Ending::WriteFault
            | Ending::Memory => {}
        }
    }
}

/// What is limited.
#[derive(Clone, Copy, Debug, PartialEq, Eq)]
pub enum LimitName {
    Script,
    Changes,
    Order,
    Sent,
}

/// The exit status of an ending. It takes no memory.
pub fn status(ending: &Ending) -> u8
    ensures { result ≡ status_of ending.now }
{
    match ending {
        Ending::Done => 0,
        Ending::Usage => 1,
        Ending::Script { .. } => 2,
        Ending::Change { .. } => 3,
        Ending::Order { .. } => 4,
        Ending::Range { .. } => 5,
        Ending::Limit(_) => 6,
        Ending::ReadFault => 7,
        Ending::WriteFault => 8,
        Ending::Memory => 9,
    }
}

/// The line that an ending writes; `Done` writes nothing.
pub fn ending_line(alloc: Global, ending: &Ending) -> Result<Bytes, Memory>
    requires printable { IsPrintable ending.now }
    ensures { IfOk result (λ line. line ≡ ending_line ending.now) }
{
    match ending {
        Ending::Done => Ok(Bytes::new(alloc)),
        Ending::Usage => Bytes::from_slice(alloc, b"usage\n"),
        Ending::Script { code, statement } => script_line(alloc, code, *statement),
        Ending::Change { code, line, table } => change_line(alloc, code, *line, *table),
        Ending::Order { code, line } => order_line(alloc, code, *line),
        Ending::Range {
            node,
            subtask,
            row,
            tys,
        } => range_line(alloc, *node, *subtask, row, tys.as_slice()),
        Ending::Limit(name) => Bytes::from_slice(alloc, limit_text(*name).as_bytes()),
        Ending::ReadFault => Bytes::from_slice(alloc, b"read fault\n"),
        Ending::WriteFault => Bytes::from_slice(alloc, b"write fault\n"),
        Ending::Memory => Bytes::from_slice(alloc, b"out of memory\n"),
    }
}

fn script_line(alloc: Global, code: &ScriptCode, statement: u32) -> Result<Bytes, Memory>
    ensures { IfOk result (λ line. line ≡ script_line code.now statement) }
{
    let text = code.text();
    let line = format!(in alloc; "script {text} statement {statement}\n")?;
    Bytes::from_slice(alloc, line.as_bytes())
}

fn change_line(alloc: Global, code: &ChangeCode, line: u32, table: u32) -> Result<Bytes, Memory>
    ensures { IfOk result (λ text. text ≡ change_line code.now line table) }
{
    let text = code.text();
    let column = column_text(alloc, column_of(code))?;
    let table = table_text(alloc, table)?;
    let line = format!(in alloc; "change {text} line {line}{column}{table}\n")?;
    Bytes::from_slice(alloc, line.as_bytes())
}

fn column_text(alloc: Global, column: Option<u32>) -> Result<String, AllocError>
    ensures { IfOk result (λ text. string_bytes text ≡ column_text column) }
{
    match column {
        Some(column) => format!(in alloc; " column {column}"),
        None => Ok(String::new(alloc)),
    }
}

fn table_text(alloc: Global, table: u32) -> Result<String, AllocError>
    ensures { IfOk result (λ text. string_bytes text ≡ table_text table) }
{
    if table == 0 {
        return Ok(String::new(alloc));
    }
    format!(in alloc; " table {table}")
}

fn column_of(code: &ChangeCode) -> Option<u32>
    ensures { result ≡ column_of_code code.now }
{
    match code {
        ChangeCode::BadField(column) | ChangeCode::NullNotAllowed(column) => Some(*column),
        ChangeCode::FieldCount
        | ChangeCode::UnknownTable
        | ChangeCode::BadKind
        | ChangeCode::KindNotDeclared
        | ChangeCode::RowAbsent
        | ChangeCode::KeyPresent => None,
    }
}

fn order_line(alloc: Global, code: &OrderCode, line: u32) -> Result<Bytes, Memory>
    ensures { IfOk result (λ text. text ≡ order_line code.now line) }
{
    let text = code.text();
    let line = match in_flight_of(code) {
        Some(in_flight) => {
            format!(in alloc; "order {text} line {line} in flight {in_flight}\n")?
        }
        None => format!(in alloc; "order {text} line {line}\n")?,
    };
    Bytes::from_slice(alloc, line.as_bytes())
}

fn in_flight_of(code: &OrderCode) -> Option<u32>
    ensures { result ≡ in_flight_of code.now }
{
    match code {
        OrderCode::TooFew(in_flight) => Some(*in_flight),
        OrderCode::BadLine
        | OrderCode::NoSuchPlace
        | OrderCode::NoMoreChanges
        | OrderCode::NoBuffer => None,
    }
}

#[tactic(auto, using(crate::proofs::Types::tys_exist))]
fn range_line(
    alloc: Global,
    node: u32,
    subtask: u32,
    row: &Row,
    tys: &[ColTy],
) -> Result<Bytes, Memory>
    requires wide { length row.now ≡ length tys.now }
    requires types { AreTypes tys.now }
    ensures { IfOk result (λ text. text ≡ range_line node subtask row.now tys.now) }
{
    let place = format!(in alloc; "range node {node} subtask {subtask} row ")?;
    let mut line = Bytes::from_slice(alloc, place.as_bytes())?;
    let tys = tys_of(alloc, tys)?;
    let text = row_text(alloc, row, tys.as_slice())?;
    line.extend(text.as_slice())?;
    line.extend(b"\n")?;
    Ok(line)
}

fn tys_of(alloc: Global, columns: &[ColTy]) -> Result<Vec<Ty>, AllocError>
    ensures { IfOk result (λ tys. tys.items ≡ map (λ c. c.ty) columns.now) }
{
    columns.iter().map(|column| column.ty).collect(alloc)
}

fn limit_text(name: LimitName) -> &'static str
    ensures { result.now ≡ limit_text name }
{
    match name {
        LimitName::Script => "limit script\n",
        LimitName::Changes => "limit changes\n",
        LimitName::Order => "limit order\n",
        LimitName::Sent => "limit sent\n",
    }
}
