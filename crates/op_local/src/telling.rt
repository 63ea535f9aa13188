//! The partial row of one group of changes.
ghost use Rattle.std.specs.Prelude.{◌≡◌, ◌+◌, ◌≤◌, ◌++◌, [], ◌∷◌, List, cond, length, true, false, Ok, Err, IfOk, IfErr, OnOk};
ghost use Rattle.ct_change.specs.Changelog.{Rows};
ghost use Rattle.ct_change.specs.declared.kind.Kind.TheVariants.{I};
ghost use Rattle.rel_algebra.specs.declared.agg.Agg.{Agg};
ghost use Rattle.agg_fns.specs.declared.acc.AccFault.TheVariants.{Out};
ghost use Rattle.op_rules.specs.Faults.{IfRange};
ghost use Rattle.phase_rules.specs.LocalGrouping.{amounts, are_silent, fit_after, local_answer, rows_come, rows_gone};
ghost use Rattle.op_local.specs.Amounting.{AmountsTo, ForAll};
ghost use Rattle.op_local.specs.Telling.{MayBeTold};

use crate::amounts::Amounts;
use agg_fns::AccFault;
use ct_change::{Change, Changes, Kind, Steps};
use ct_value::{Memory, Row};
use op_rules::OpFault;
use rel_algebra::Aggs;
use std::alloc::Global;
use std::sync::ledger::Ledger;

/// What is told of the changes of the group with this key.
#[tactic(auto, using(crate::proofs::TellingOn::answers_out))]
pub(crate) fn tell_group<L: Ledger>(
    alloc: Global,
    aggs: &Aggs,
    key: Row,
    changes: Changes,
    steps: &mut Steps<L>,
) -> Result<Changes, OpFault>
    requires { MayBeTold aggs.now changes }
    ensures sent { IfOk result (λ sent. local_answer aggs.now key changes ≡ Ok sent) }
    ensures range { IfRange result (λ row. local_answer aggs.now key changes ≡ Err row) }
    ensures cost { steps.new ≤ steps.old + length changes }
{
    let amounts = match amounted(alloc, aggs, &changes, steps) {
        Ok(amounts) => amounts,
        Err(AccFault::Out) => return Err(OpFault::Range(key)),
        Err(AccFault::Memory) => return Err(OpFault::Memory),
    };
    let sent = told(alloc, key, &amounts)?;
    Ok(sent)
}

// What is kept of the rows of changes. It is out of range exactly where a sum has more than 38 digits on the way.
fn amounted<L: Ledger>(
    alloc: Global,
    aggs: &Aggs,
    changes: &Changes,
    steps: &mut Steps<L>,
) -> Result<Amounts, AccFault>
    requires { MayBeTold aggs.now changes.now }
    ensures kept { IfOk result (λ kept. AmountsTo aggs.now kept (rows_come changes.now) (rows_gone changes.now)) }
    ensures fit { OnOk result (fit_after aggs.now [] changes.now ≡ true) }
    ensures out { IfErr result (λ fault. fault ≡ Out → fit_after aggs.now [] changes.now ≡ false) }
    ensures cost { steps.new ≤ steps.old + length changes.now }
{
    let mut amounts = Amounts::new(alloc, aggs)?;
    for change in changes.as_slice() {
        steps.tick();
        if let Err(fault) = amounts.take(change) {
            return Err(fault);
        }
    }
    Ok(amounts)
}

// `+I` of the key with what the rows amount to, unless there is nothing to be told.
fn told(alloc: Global, key: Row, kept: &Amounts) -> Result<Changes, Memory>
    requires { (aggs : List Agg) × (come : Rows) × (gone : Rows) × AmountsTo aggs kept.now come gone }
    ensures { IfOk result (λ sent. ForAll kept.now (λ aggs come gone. sent ≡ cond (are_silent aggs come gone) [] (record { kind = I; row = key ++ amounts aggs come gone } ∷ []))) }
{
    let mut sent = Changes::new(alloc);
    if kept.are_silent() {
        return Ok(sent);
    }
    let row = kept.row(alloc, key)?;
    sent.push(Change::new(Kind::I, row))?;
    Ok(sent)
}
