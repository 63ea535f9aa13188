ghost use Rattle.std.specs.Prelude.{◌≡◌, [], ◌∷◌, true, false, IfOk};

use crate::groups::tell_changes;
use ct_change::{Change, Changes, InMode, Steps};
use ct_value::{ColTys, Memory};
use op_rules::{OpFault, Operator, PieceOperator};
use rel_algebra::Aggs;
use std::alloc::Global;
use std::sync::ledger::Ledger;

/// The operator of a local group: for each group of a piece it tells what the rows come and gone amount to, so that a group in
/// bundles behind an exchange sums it up (Flink documentation, "Performance Tuning", Local-Global Aggregation). It keeps nothing.
#[derive(Drop)]
pub struct LocalGroup<M: InMode> {
    alloc: Global,
    keys: u32,
    aggs: Aggs,
    tys: ColTys,
    mode: M,
    broken: bool,
}

impl<M: InMode> LocalGroup<M> {
    ghost use Rattle.phase_rules.specs.LocalGrouping.{SumsUp, local_rule};

    /// A local group by the first `keys` columns of rows with columns of these types, with these calls, of a changelog in this mode.
    /// There have to be key columns; the calls have to have partials and types, and rows to stay where values of a call can't go.
    pub fn new(alloc: Global, keys: u32, aggs: Aggs, tys: ColTys, mode: M) -> LocalGroup<M>
        requires { SumsUp (record { keys = keys; aggs = aggs; columns = tys; input = M.mode mode }) }
        ensures rule { ⟦<LocalGroup<M> as Operator>⟧.rule result ≡ local_rule (record { keys = keys; aggs = aggs; columns = tys; input = M.mode mode }) }
        ensures stands { ⟦<LocalGroup<M> as Operator>⟧.stands_for result [] }
        ensures whole { ⟦<LocalGroup<M> as Operator>⟧.broken result ≡ false }
    {
        LocalGroup {
            alloc,
            keys,
            aggs,
            tys,
            mode,
            broken: false,
        }
    }
}

impl<M: InMode> Operator for LocalGroup<M> {
    ghost use Rattle.phase_rules.specs.LocalGrouping.{SumsUp, local_rule};

    ghost rule = { λ s. local_rule (record { keys = s.keys; aggs = s.aggs; columns = s.tys; input = M.mode s.mode }) };

    ghost broken = { λ s. s.broken };

    // Nothing is kept of what came, so that only what the rule needs is said.
    ghost stands_for = { λ s before. SumsUp (record { keys = s.keys; aggs = s.aggs; columns = s.tys; input = M.mode s.mode }) };

    fn opening(&mut self, _subtask: u32) -> Result<Changes, Memory> {
        Ok(Changes::new(self.alloc))
    }

    fn consume<L: Ledger>(
        &mut self,
        _port: u32,
        change: Change,
        to: &mut Changes,
        steps: &mut Steps<L>,
    ) -> Result<(), OpFault> {
        self.broken = true;
        let changes = only(self.alloc, change)?;
        let sent = match tell_changes(self.alloc, self.keys, &self.aggs, changes, steps) {
            Ok(sent) => sent,
            Err(fault) => return Err(fault),
        };
        to.append(sent)?;
        self.broken = false;
        Ok(())
    }

    fn is_broken(&self) -> bool {
        self.broken
    }
}

impl<M: InMode> PieceOperator for LocalGroup<M> {
    ghost takes_pieces = { λ s. true };

    fn take_piece<L: Ledger>(
        &mut self,
        changes: Changes,
        steps: &mut Steps<L>,
    ) -> Result<Changes, OpFault> {
        self.broken = true;
        let sent = match tell_changes(self.alloc, self.keys, &self.aggs, changes, steps) {
            Ok(sent) => sent,
            Err(fault) => return Err(fault),
        };
        self.broken = false;
        Ok(sent)
    }
}

// A piece of one change.
fn only(alloc: Global, change: Change) -> Result<Changes, Memory>
    ensures { IfOk result (λ changes. changes ≡ change ∷ []) }
{
    let mut changes = Changes::with_capacity(alloc, 1)?;
    changes.push(change)?;
    Ok(changes)
}
