//! What is told of the first rows of a partition before and after a change.
ghost use Rattle.std.specs.Prelude.{◌≡◌, ◌<◌, ◌≤◌, ◌^◌, ◌++◌, ◌==◌, ◌||◌, true, length, map, drop, OnOk};
ghost use Rattle.ct_change.specs.Changelog.{Mode};
ghost use Rattle.emission_rules.specs.Ranking as rule;
ghost use Rattle.emission_rules.specs.Ranking.{beyond, told_by_row};
ghost use Rattle.op_topn.specs.Tells as t;
ghost use Rattle.op_topn.specs.Tells.{CanTellFrom, AreRanked};
ghost use Rattle.op_topn.specs.Tops.{ranking};

use crate::partitions::{Firsts, TopBy};
use crate::rank_compare;
use crate::ranks::tell_ranks;
use ct_change::{Change, Changes, Kind, OutMode};
use ct_value::{Memory, Row};
use rel_algebra::SortCol;
use std::cmp::Ordering;

/// Puts the changes that lead from the first rows of a partition before a change to those after it behind what stands in `to`:
/// rank by rank where ranks are shown or there is one alone, else what left and then what entered.
pub fn tell<O: OutMode>(
    by: &TopBy,
    output: &O,
    firsts: Firsts,
    to: &mut Changes,
) -> Result<(), Memory>
    requires can { (by.now.ranked || (by.now.bound == 1)) ≡ true → CanTellFrom (O.mode output.now) by.now.ranked 1 firsts.olds.items firsts.news.items }
    requires few { (length firsts.olds.items < 2 ^ 63) × (length firsts.news.items < 2 ^ 63) }
    requires ranked { AreRanked by.now.order firsts.olds.items × AreRanked by.now.order firsts.news.items }
    ensures { OnOk result ((input : Mode) → to.new ≡ to.old ++ rule.told (ranking by.now input (O.mode output.now)) firsts.olds.items firsts.news.items) }
{
    if by.ranked || by.bound == 1 {
        tell_ranks(by.ranked, output, firsts, to)
    } else {
        tell_rows(by.order.as_slice(), &firsts, to)
    }
}

// Tells what left and then what entered.
fn tell_rows(order: &[SortCol], firsts: &Firsts, to: &mut Changes) -> Result<(), Memory>
    requires { AreRanked order.now firsts.now.olds.items × AreRanked order.now firsts.now.news.items }
    ensures { OnOk result (to.new ≡ to.old ++ told_by_row firsts.now.olds.items firsts.now.news.items) }
{
    tell_beyond(order, Kind::D, &firsts.olds, &firsts.news, to)?;
    tell_beyond(order, Kind::I, &firsts.news, &firsts.olds, to)?;
    Ok(())
}

// Tells, as changes of this kind, the rows beyond those of another list, both in rank order.
fn tell_beyond(
    order: &[SortCol],
    kind: Kind,
    rows: &[Row],
    others: &[Row],
    to: &mut Changes,
) -> Result<(), Memory>
    requires { AreRanked order.now rows.now × AreRanked order.now others.now }
    ensures { OnOk result (to.new ≡ to.old ++ map (λ row. record { kind = kind; row = row }) (beyond rows.now others.now)) }
{
    let mut from: usize = 0;
    for row in rows {
        from = past(order, row, others, from);
        if is_at(row, others, from) {
            from += 1;
        } else {
            to.push(Change::new(kind, row.dup()?))?;
        }
    }
    Ok(())
}

// The place, from this one on, of the first of the others that doesn't stand before the row.
fn past(order: &[SortCol], row: &Row, others: &[Row], from: usize) -> usize
    requires { from ≤ length others.now }
    ensures rest { drop result others.now ≡ t.past order.now row.now (drop from others.now) }
    ensures within { result ≤ length others.now }
{
    // Most rows stay, and then the row itself is the next of the others.
    if is_at(row, others, from) {
        return from;
    }
    let mut place = from;
    'skip: while place < others.len() {
        if !rank_compare(order, &others[place], row).is_lt() {
            return place;
        }
        place += 1;
    }
    place
}

// Whether the row is the one at this place.
fn is_at(row: &Row, others: &[Row], place: usize) -> bool
    ensures { result ≡ t.heads row.now (drop place others.now) }
{
    match others.get(place) {
        None => false,
        Some(other) => row == other,
    }
}
