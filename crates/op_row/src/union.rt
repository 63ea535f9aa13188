ghost use Rattle.std.specs.Prelude.{◌≡◌, [], false};

use ct_change::{Change, Changes, Steps};
use ct_value::Memory;
use op_rules::{OpFault, Operator};
use std::alloc::Global;
use std::sync::ledger::Ledger;

/// The operator that hands on the changes of all its inputs (Flink documentation, "Set Operations", `UNION ALL`). It keeps no
/// rows.
#[derive(Drop)]
pub struct UnionOp {
    alloc: Global,
    inputs: u32,
    broken: bool,
}

impl UnionOp {
    ghost use Rattle.emission_rules.specs.Union.{union_rule};

    /// The union of so many inputs. It takes no memory.
    pub fn new(alloc: Global, inputs: u32) -> UnionOp
        ensures rule { ⟦<UnionOp as Operator>⟧.rule result ≡ union_rule (record { inputs = inputs }) }
        ensures stands { ⟦<UnionOp as Operator>⟧.stands_for result [] }
        ensures whole { ⟦<UnionOp as Operator>⟧.broken result ≡ false }
    {
        UnionOp {
            alloc,
            inputs,
            broken: false,
        }
    }
}

impl Operator for UnionOp {
    ghost use Rattle.emission_rules.specs.Union.{union_rule};

    ghost rule = { λ s. union_rule (record { inputs = s.inputs }) };

    ghost broken = { λ s. s.broken };

    ghost stands_for = { λ s before. Unit {0} };

    fn opening(&mut self, _subtask: u32) -> Result<Changes, Memory> {
        Ok(Changes::new(self.alloc))
    }

    fn consume<L: Ledger>(
        &mut self,
        _port: u32,
        change: Change,
        to: &mut Changes,
        _steps: &mut Steps<L>,
    ) -> Result<(), OpFault> {
        self.broken = true;
        to.push(change)?;
        self.broken = false;
        Ok(())
    }

    fn is_broken(&self) -> bool {
        self.broken
    }
}
