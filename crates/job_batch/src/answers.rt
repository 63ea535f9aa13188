//! The rows of a batch answer.
ghost use Rattle.std.specs.Prelude.{◌≡◌, [], length, map, Ok, IfOk, IfErr, IsErrOf};
ghost use Rattle.ct_catalog.specs.Columns.{column_types};
ghost use Rattle.job_ending.specs.Endings.{IsPrintable};
ghost use Rattle.job_ending.specs.Outcome.{ends};
ghost use Rattle.job_ending.specs.Runs.{IsBefore, ending_of_halt};
ghost use Rattle.job_ending.specs.declared.ending.Ending.TheVariants as Ending;
ghost use Rattle.job_judgement.specs.Judged.{IsJudged};
ghost use Rattle.job_judgement.specs.Views.{accepted_view};
ghost use Rattle.source_lines.specs.Fitting.{RowsFit};
ghost use Rattle.source_lines.specs.Supply.{AreWithin};
ghost use Rattle.source_lines.specs.Taken.{Taken, rows_of, taken_of};
ghost use Rattle.job_batch.specs.Batch.{done, over_tables, sink_types, with_changes, with_rows};
ghost use Rattle.job_batch.specs.Runs.{AreWide};

use batch_answer::{TypeLists, answer_of};
use ct_catalog::TableDef;
use ct_change::Bag;
use ct_expr::EvalFault;
use ct_value::{ColTys, Memory, Row, Values};
use job_ending::Halt;
use job_judgement::Accepted;
use source_lines::{Bags, ChangeFiles, TakeFault, bags_of};
use std::alloc::Global;

/// The rows that the first lines of each change file, or all, leave in the sources of an accepted script.
#[tactic(auto, using(crate::proofs::Taken::refused_line))]
pub(crate) fn tables_of(
    alloc: Global,
    script: &Accepted,
    first: Option<u64>,
    files: ChangeFiles,
) -> Result<Bags, Halt>
    requires { AreWithin files }
    ensures ok { IfOk result (λ bags. (taken : Taken) × (taken_of script.now.inserted.sources first files ≡ Ok taken) × (bags ≡ rows_of script.now.inserted.sources taken)) }
    ensures halts { IfErr result (λ halt. IsBefore halt (with_changes (accepted_view script.now) first files)) }
    ensures printable { IfErr result (λ halt. IsPrintable (ending_of_halt halt)) }
{
    match bags_of(alloc, files, &script.inserted.sources, first) {
        Ok(tables) => Ok(tables),
        Err(TakeFault::Refused { code, line, table }) => Err(Halt::Change { code, line, table }),
        Err(TakeFault::Memory) => Err(Halt::Memory),
    }
}

/// The rows of the answer over the rows of the sources, or the halt where that is out of range.
pub(crate) fn answer_over(alloc: Global, script: &Accepted, tables: &Bags) -> Result<Bag, Halt>
    requires judged { IsJudged (accepted_view script.now) }
    requires fit { RowsFit script.now.inserted.sources tables.now }
    ensures ok { IfOk result (λ rows. over_tables (accepted_view script.now) (with_rows script.now.inserted.sources tables.now) ≡ done (sink_types (accepted_view script.now)) rows) }
    ensures wide { IfOk result (λ rows. AreWide (length (sink_types (accepted_view script.now))) rows) }
    ensures halts { IfErr result (λ halt. IsBefore halt (over_tables (accepted_view script.now) (with_rows script.now.inserted.sources tables.now))) }
    ensures printable { IfErr result (λ halt. IsPrintable (ending_of_halt halt)) }
{
    match evaluated(alloc, script, tables) {
        Ok(rows) => Ok(rows),
        Err(EvalFault::Out) => Err(out_of_range(alloc)),
        Err(EvalFault::Memory) => Err(Halt::Memory),
    }
}

// The rows of the answer over the rows of the sources.
fn evaluated(alloc: Global, script: &Accepted, tables: &Bags) -> Result<Bag, EvalFault>
    requires judged { IsJudged (accepted_view script.now) }
    requires fit { RowsFit script.now.inserted.sources tables.now }
    ensures ok { IfOk result (λ rows. over_tables (accepted_view script.now) (with_rows script.now.inserted.sources tables.now) ≡ done (sink_types (accepted_view script.now)) rows) }
    ensures wide { IfOk result (λ rows. AreWide (length (sink_types (accepted_view script.now))) rows) }
    ensures out { IsErrOf result EvalFault.Out → over_tables (accepted_view script.now) (with_rows script.now.inserted.sources tables.now) ≡ ends (Ending.Range 0 0 [] []) }
{
    let types = types_of(alloc, script.inserted.sources.as_slice())?;
    answer_of(alloc, &script.inserted.query.rel, tables, &types)
}

// No node of a plan, no subtask and no row are at fault where a batch answer is out of range.
fn out_of_range(alloc: Global) -> Halt
    ensures { result ≡ Halt.Range 0 0 [] [] }
{
    Halt::Range {
        node: 0,
        subtask: 0,
        row: Row::from_values(Values::new(alloc)),
        tys: ColTys::new(alloc),
    }
}

// The types of the columns of each source.
fn types_of(alloc: Global, sources: &[TableDef]) -> Result<TypeLists, Memory>
    ensures { IfOk result (λ types. types ≡ map column_types sources.now) }
{
    let mut types = TypeLists::new(alloc);
    for table in sources {
        types.push(table.types()?)?;
    }
    Ok(types)
}
