//! What is told rank by rank.
ghost use Rattle.std.specs.Prelude.{◌≡◌, ◌+◌, ◌<◌, ◌^◌, ◌++◌, [], length, IfOk, OnOk, IfSome, IfNone};
ghost use Rattle.ct_change.specs.Emission.{emission, CanTell};
ghost use Rattle.rel_algebra.specs.Ranks as r;
ghost use Rattle.emission_rules.specs.Ranking.{told_by_rank};
ghost use Rattle.op_topn.specs.Tells.{shown_at, CanTellFrom, IsNext};

use crate::partitions::Firsts;
use ct_change::{Changes, OutMode};
use ct_value::{Memory, Row, Value};
use std::marker::Model;
use std::vec::IntoIter;

// The first rows that are left to be told, before and after a change.
#[derive(Drop)]
struct RanksLeft {
    olds: IntoIter<Row>,
    news: IntoIter<Row>,
}

impl Model for RanksLeft {
    ghost use Rattle.std.specs.Prelude.{List};
    ghost use Rattle.std.specs.Vec.Iter.{into_iter_items};
    ghost use Rattle.ct_value.specs.declared.row.Row.{Row};

    ghost Value = { List Row × List Row };

    ghost view = { λ l. (into_iter_items l.olds, into_iter_items l.news) };
}

impl RanksLeft {
    // The rows of the next rank, if there is one.
    fn next_rank(&mut self) -> Option<(Option<Row>, Option<Row>)>
        ensures some { IfSome result (λ p. IsNext self.old.0 p.0 self.new.0 × IsNext self.old.1 p.1 self.new.1 × (length self.new.0 + length self.new.1 < length self.old.0 + length self.old.1)) }
        ensures end { IfNone result ((self.old.0 ≡ []) × (self.old.1 ≡ [])) }
    {
        match (self.olds.next(), self.news.next()) {
            (None, None) => None,
            (old, new) => Some((old, new)),
        }
    }
}

/// Tells of each rank, from the first one on, that its old row gives way to its new one, with `ranked` each row with its rank,
/// behind what stands in `to`.
pub fn tell_ranks<O: OutMode>(
    ranked: bool,
    output: &O,
    firsts: Firsts,
    to: &mut Changes,
) -> Result<(), Memory>
    requires can { CanTellFrom (O.mode output.now) ranked 1 firsts.olds.items firsts.news.items }
    requires few { (length firsts.olds.items < 2 ^ 63) × (length firsts.news.items < 2 ^ 63) }
    ensures { OnOk result (to.new ≡ to.old ++ told_by_rank ranked (O.mode output.now) 1 firsts.olds.items firsts.news.items) }
{
    let mut rank: u64 = 1;
    let mut left = RanksLeft {
        olds: firsts.olds.into_iter(),
        news: firsts.news.into_iter(),
    };
    'ranks: while let Some((old, new)) = left.next_rank() {
        tell_rank(ranked, output, rank, old, new, to)?;
        rank += 1;
    }
    Ok(())
}

// Tells that the old row of a rank, if there is one, gives way to the new one, if there is one.
fn tell_rank<O: OutMode>(
    ranked: bool,
    output: &O,
    rank: u64,
    old: Option<Row>,
    new: Option<Row>,
    to: &mut Changes,
) -> Result<(), Memory>
    requires { CanTell (O.mode output.now) (shown_at ranked rank old) (shown_at ranked rank new) }
    ensures { OnOk result (to.new ≡ to.old ++ emission (O.mode output.now) (shown_at ranked rank old) (shown_at ranked rank new)) }
{
    let old = shown_if(ranked, rank, old)?;
    let new = shown_if(ranked, rank, new)?;
    output.emit(old, new, to)?;
    Ok(())
}

// A row of this rank as it is shown, if there is one.
fn shown_if(ranked: bool, rank: u64, row: Option<Row>) -> Result<Option<Row>, Memory>
    ensures { IfOk result (λ line. line ≡ shown_at ranked rank row) }
{
    match row {
        None => Ok(None),
        Some(row) => {
            let line = shown(ranked, rank, row)?;
            Ok(Some(line))
        }
    }
}

// A row, with its rank as the last column where that is kept.
fn shown(ranked: bool, rank: u64, row: Row) -> Result<Row, Memory>
    ensures { IfOk result (λ line. line ≡ r.shown ranked (row, rank)) }
{
    if ranked {
        row.with(Value::Num(rank as i128))
    } else {
        Ok(row)
    }
}
