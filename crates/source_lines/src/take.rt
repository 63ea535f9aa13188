ghost use Rattle.std.specs.Prelude.{◌≡◌, ◌<◌, ◌≤◌, ◌+◌, ◌^◌, ℕ, suc, ◌∷◌, List, None, Ok, length, map, take, IfOk, IfErr, OnOk};
ghost use Rattle.ct_catalog.specs.declared.table.TableDef.{TableDef as Table};
ghost use Rattle.job_text.specs.Lines.{LinesLeft, Record, line_in};
ghost use Rattle.source_lines.specs.Standing.{StandAll, Took, TookFile};
ghost use Rattle.source_lines.specs.Taken.{IsRefused, Taken, first_of, line_refusal, nothing_taken, refused, take_file, take_files, take_line, unless_refused, with_line};

use crate::{SourceFault, SourceFold, TakeFault};
use ct_catalog::TableDef;
use ct_value::{ChangeCode, Memory};
use job_text::{ChangeLines, Line, LineFault, NamedSources};
use std::alloc::Global;

// The folds of sources, of which no change was taken.
pub(crate) fn folds_of(alloc: Global, sources: &[TableDef]) -> Result<Vec<SourceFold>, Memory>
    ensures { IfOk result (λ folds. StandAll sources.now folds.items nothing_taken) }
{
    let mut folds = Vec::new(alloc);
    for i in 0..sources.len() {
        folds.push(SourceFold::new(alloc, &sources[i])?)?;
    }
    Ok(folds)
}

// The refusal of a line, by its number in its file and the source that the file is of.
fn refusal(feed: Option<u32>, line: u32, code: ChangeCode) -> TakeFault
    ensures { IsRefused result (refused {A = Taken} feed line code) }
{
    match feed {
        None => TakeFault::Refused {
            code,
            line,
            table: 0,
        },
        Some(place) if place < u32::MAX => TakeFault::Refused {
            code,
            line,
            table: place + 1,
        },
        Some(_) => TakeFault::Memory,
    }
}

// Takes a line.
fn take_line(
    folds: &mut Vec<SourceFold>,
    feed: Option<u32>,
    number: u32,
    line: Line,
) -> Result<(), TakeFault>
    requires { (sources : List Table) × (taken : Taken) × StandAll sources folds.old.items taken × ((source : ℕ) → length (taken source) + 1 < 2 ^ 64) }
    ensures ok { OnOk result ((sources : List Table) (taken : Taken) → StandAll sources folds.old.items taken → (line_refusal sources taken line ≡ None) × StandAll sources folds.new.items (with_line taken line)) }
    ensures refused { IfErr result (λ fault. (sources : List Table) (taken : Taken) → StandAll sources folds.old.items taken → IsRefused fault (unless_refused feed number taken line (line_refusal sources taken line))) }
{
    match folds.get_mut(line.table as usize) {
        None => Err(TakeFault::Memory),
        Some(folded) => match folded.check(line.change) {
            Ok(()) => Ok(()),
            Err(SourceFault::Refused(code)) => Err(refusal(feed, number, code)),
            Err(SourceFault::Memory) => Err(TakeFault::Memory),
        },
    }
}

// Takes the next line of a file.
fn take_next(
    file: &mut ChangeLines<'_>,
    sources: &NamedSources<'_>,
    folds: &mut Vec<SourceFold>,
) -> Result<(), TakeFault>
    requires { (taken : Taken) × StandAll sources.now folds.old.items taken × ((source : ℕ) → length (taken source) + 1 < 2 ^ 64) }
    ensures ok { OnOk result ((taken : Taken) (first : Record) (rest : List Record) → StandAll sources.now folds.old.items taken → file.old.records ≡ first ∷ rest → Took sources.now file.old taken first rest folds.new.items file.new) }
    ensures refused { IfErr result (λ fault. (taken : Taken) (first : Record) (rest : List Record) → StandAll sources.now folds.old.items taken → file.old.records ≡ first ∷ rest
        → IsRefused fault (take_line sources.now file.old.feed (suc file.old.read) taken (line_in sources.now file.old.feed first))) }
{
    match file.next_line(sources) {
        Ok(Some(line)) => take_line(folds, file.feed(), file.read(), line),
        Ok(None) => Err(TakeFault::Memory),
        Err(LineFault::Change(code)) => Err(refusal(file.feed(), file.read(), code)),
        Err(LineFault::Memory) => Err(TakeFault::Memory),
    }
}

// How many of so many lines are taken.
fn first_lines(left: u32, first: Option<u64>) -> u32
    ensures within { result ≤ left }
    ensures same { (file : LinesLeft) → length file.records ≡ left → first_of first file ≡ record file { records = take result file.records } }
{
    match first {
        Some(first) if first < left as u64 => first as u32,
        _ => left,
    }
}

// Takes the first lines of a file, or all.
pub(crate) fn take_first(
    file: ChangeLines<'_>,
    sources: &NamedSources<'_>,
    folds: &mut Vec<SourceFold>,
    first: Option<u64>,
) -> Result<(), TakeFault>
    requires { (taken : Taken) × StandAll sources.now folds.old.items taken × ((source : ℕ) → length (taken source) + 4294967295 < 2 ^ 64) }
    ensures ok { OnOk result ((taken : Taken) → StandAll sources.now folds.old.items taken → TookFile sources.now (first_of first file.entry) taken folds.new.items) }
    ensures refused { IfErr result (λ fault. (taken : Taken) → StandAll sources.now folds.old.items taken → IsRefused fault (take_file sources.now taken (first_of first file.entry))) }
{
    let count = first_lines(file.left(), first);
    let mut left = file;
    'line: for _line in 0..count {
        take_next(&mut left, sources, folds)?;
    }
    Ok(())
}

// Takes the first lines of each file, or all, file by file.
pub(crate) fn take_files(
    alloc: Global,
    files: Vec<ChangeLines<'_>>,
    sources: &NamedSources<'_>,
    first: Option<u64>,
) -> Result<Vec<SourceFold>, TakeFault>
    ensures ok { IfOk result (λ folds. (taken : Taken) × (take_files sources.now nothing_taken (map (first_of first) files.entry.items) ≡ Ok taken) × StandAll sources.now folds.items taken) }
    ensures refused { IfErr result (λ fault. IsRefused fault (take_files sources.now nothing_taken (map (first_of first) files.entry.items))) }
{
    if u32::try_from(files.len()).is_err() {
        return Err(TakeFault::Memory);
    }
    let mut folds = folds_of(alloc, sources.as_slice())?;
    for file in files {
        take_first(file, sources, &mut folds, first)?;
    }
    Ok(folds)
}
