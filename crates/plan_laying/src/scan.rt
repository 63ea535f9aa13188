//! The nodes of a table, of which the last sends its rows forward.
ghost use Rattle.std.specs.Prelude.{◌≡◌, ◌≢◌, [], slice_get, Some, unwrap_or, IfOk, IfErr};
ghost use Rattle.ct_catalog.specs.declared.table.TableDef.{TableDef};
ghost use Rattle.ct_change.specs.declared.kind.Declared.TheVariants.{Upsert as IsUpsert};
ghost use Rattle.rel_algebra.specs.Rel as r;
ghost use Rattle.phys_plan.specs.declared.edge.Exchange.TheVariants.{Forward as ToSame};
ghost use Rattle.plan_laying.specs.Laying.{Lays, Fails};

use crate::laying::{Laid, Laying};
use crate::laying_fault::LayingFault;
use crate::parts::{key_of, upsert_kinds};
use ct_change::Declared;
use ct_value::{Cols, List, Numbers};
use phys_plan::{Exchange, Op};

impl Laying {
    // The nodes of a table.
    #[inline(never)]
    #[tactic(auto, using(crate::proofs::laws::Laid::no_table))]
    pub(crate) fn lay_scan(&mut self, source: u32) -> Result<Laid, LayingFault>
        ensures laid { IfOk result (λ laid. Lays self.old self.new ToSame (r.Scan source) laid) }
        ensures fails { IfErr result (λ fault. Fails self.old (r.Scan source) fault) }
    {
        let table = match self.sources.get(source as usize) {
            Some(table) => table,
            None => return Err(LayingFault::NoTable),
        };
        match table.mode {
            Declared::Upsert => {
                let key = key_of(self.alloc, table)?;
                self.lay_upsert(source, key)
            }
            _ => self.lay_plain(source),
        }
    }

    // The scan of an append or retract table.
    #[tactic(auto, using(crate::proofs::laws::Laid::plain_lays, crate::proofs::laws::Laid::full_fails))]
    fn lay_plain(&mut self, source: u32) -> Result<Laid, LayingFault>
        requires table { (table : TableDef) × (slice_get self.old.sources source ≡ Some table) × (table.mode ≢ IsUpsert) }
        ensures laid { IfOk result (λ laid. Lays self.old self.new ToSame (r.Scan source) laid) }
        ensures fails { IfErr result (λ fault. Fails self.old (r.Scan source) fault) }
    {
        let inputs = Numbers::new(self.alloc);
        let flows = List::new(self.alloc);
        self.push_sending(
            Op::Scan { source },
            inputs,
            flows.as_slice(),
            Exchange::Forward,
        )
    }

    // The scan of an upsert table, normalized by its key.
    #[tactic(auto, using(crate::proofs::laws::Laid::upsert_lays, crate::proofs::laws::Laid::full_fails))]
    fn lay_upsert(&mut self, source: u32, key: Cols) -> Result<Laid, LayingFault>
        requires table { (table : TableDef) × (slice_get self.old.sources source ≡ Some table) × (table.mode ≡ IsUpsert) × (unwrap_or table.key [] ≡ key) }
        ensures laid { IfOk result (λ laid. Lays self.old self.new ToSame (r.Scan source) laid) }
        ensures fails { IfErr result (λ fault. Fails self.old (r.Scan source) fault) }
    {
        let root = self.push_keyed_scan(source, &key)?;
        let below = Laid {
            root,
            kinds: upsert_kinds(),
        };
        self.push_over(below, Op::Normalize { key }, Exchange::Forward)
    }
}
