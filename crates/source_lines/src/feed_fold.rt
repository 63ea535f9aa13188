//! The file of the first source, taken part by part.
ghost use Rattle.std.specs.Prelude.{◌≡◌, ◌≤◌, ◌+◌, ◌++◌, List, [], length, Ok, IfOk, IfErr, OnOk};
ghost use Rattle.ct_catalog.specs.declared.table.TableDef.{TableDef as Table};
ghost use Rattle.job_text.specs.Lines.{Record, records_of};
ghost use Rattle.source_lines.specs.Feeds.{FeedStands, feed_taken};
ghost use Rattle.source_lines.specs.Taken.{IsRefused, Taken, rows_of};

use crate::bags::rows_of;
use crate::take::{folds_of, take_first};
use crate::{Bags, SourceFold, TakeFault};
use ct_catalog::Sources;
use ct_value::Memory;
use job_text::{ChangeLines, NamedSources};
use std::alloc::Global;

/// The rows of sources as the file of the first one is taken, part by part, while the others have none.
#[derive(Drop)]
pub struct FeedFold {
    alloc: Global,
    sources: Sources,
    folds: Vec<SourceFold>,
    read: u32,
}

impl FeedFold {
    /// Of these sources nothing is taken.
    pub fn new(alloc: Global, sources: &Sources) -> Result<FeedFold, Memory>
        ensures { IfOk result (λ feed. FeedStands feed sources.now []) }
    {
        let sources = sources.dup()?;
        let folds = folds_of(alloc, sources.as_slice())?;
        Ok(FeedFold {
            alloc,
            sources,
            folds,
            read: 0,
        })
    }

    /// Takes the lines of the next part. `Refused` comes exactly where one of them is refused behind those of the parts before, and
    /// names the first such line by its number in the file; after an error nothing more can be taken.
    pub fn take(&mut self, part: &[u8]) -> Result<(), TakeFault>
        requires { (sources : List Table) × (records : List Record) × FeedStands self.old sources records × (length records + length part.now ≤ 67108864) }
        ensures ok { OnOk result ((sources : List Table) (records : List Record) → FeedStands self.old sources records → FeedStands self.new sources (records ++ records_of part.now)) }
        ensures refused { IfErr result (λ fault. (sources : List Table) (records : List Record) → FeedStands self.old sources records → IsRefused fault (feed_taken sources (records ++ records_of part.now))) }
    {
        let lines = ChangeLines::behind(self.alloc, part, Some(0), self.read)?;
        let named = NamedSources::new(self.alloc, &self.sources)?;
        let count = lines.left();
        take_first(lines, &named, &mut self.folds, None)?;
        self.read += count;
        Ok(())
    }

    /// The rows that all these lines leave.
    pub fn into_bags(self) -> Result<Bags, Memory>
        requires { (sources : List Table) × (records : List Record) × FeedStands self sources records }
        ensures { IfOk result (λ bags. (sources : List Table) (records : List Record) → FeedStands self sources records → (taken : Taken) × (feed_taken sources records ≡ Ok taken) × (bags ≡ rows_of sources taken)) }
    {
        let FeedFold { alloc, folds, .. } = self;
        rows_of(alloc, folds)
    }
}
