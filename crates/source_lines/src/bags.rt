ghost use Rattle.std.specs.Prelude.{◌≡◌, List, Ok, IfOk, IfErr};
ghost use Rattle.ct_catalog.specs.declared.table.TableDef.{TableDef as Table};
ghost use Rattle.source_lines.specs.Standing.{StandAll};
ghost use Rattle.source_lines.specs.Supply.{AreWithin};
ghost use Rattle.source_lines.specs.Taken.{IsRefused, Taken, rows_of, taken_of};

use crate::take::take_files;
use crate::{ChangeFiles, SourceFold, TakeFault, read_files};
use ct_catalog::Sources;
use ct_change::Bag;
use ct_value::{List, Memory};
use job_text::NamedSources;
use std::alloc::Global;

/// The rows of sources, in the sources' order.
pub type Bags = List<Bag>;

/// The rows that the lines of change files, taken file by file, leave in each source: the first `first` lines of each, or all. A file
/// has at most 67,108,864 bytes. `Refused` comes exactly where one of these lines is refused, and names the first such line.
pub fn bags_of(
    alloc: Global,
    files: ChangeFiles,
    sources: &Sources,
    first: Option<u64>,
) -> Result<Bags, TakeFault>
    requires { AreWithin files }
    ensures ok { IfOk result (λ bags. (taken : Taken) × (taken_of sources.now first files ≡ Ok taken) × (bags ≡ rows_of sources.now taken)) }
    ensures refused { IfErr result (λ fault. IsRefused fault (taken_of sources.now first files)) }
{
    let readers = read_files(alloc, &files)?;
    let named = NamedSources::new(alloc, sources)?;
    let folds = take_files(alloc, readers, &named, first)?;
    Ok(rows_of(alloc, folds)?)
}

// The rows of each fold.
pub(crate) fn rows_of(alloc: Global, folds: Vec<SourceFold>) -> Result<Bags, Memory>
    requires { (sources : List Table) × (taken : Taken) × StandAll sources folds.items taken }
    ensures { IfOk result (λ bags. (sources : List Table) (taken : Taken) → StandAll sources folds.items taken → bags ≡ rows_of sources taken) }
{
    let mut bags = Bags::new(alloc);
    for folded in folds {
        bags.push(folded.into_bag()?)?;
    }
    Ok(bags)
}
