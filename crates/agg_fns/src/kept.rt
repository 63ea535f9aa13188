//! The values that accumulators keep: the least, the greatest, or all that aren't NULL.
ghost use Rattle.std.specs.Prelude.{◌≡◌, ◌+◌, ◌<◌, ◌^◌, false, unwrap_or, option_copied, IfOk, OnOk, OnErr};
ghost use Rattle.ct_value.specs.Bag as bag;
ghost use Rattle.ct_value.specs.declared.value.Value.{Value};
ghost use Rattle.ct_value.specs.declared.value.Value.TheVariants.{Null};
ghost use Rattle.ct_field.specs.Typed.{is_null};
ghost use Rattle.rel_algebra.specs.Aggregates.{Values, size};
ghost use Rattle.agg_fns.specs.Standing.{first_item, last_item, is_below, is_above, gained, lost};

use crate::value_bag::ValueBag;
use ct_value::{Memory, Value};

// Whether a value is NULL.
pub(crate) fn is_null(value: &Value) -> bool
    ensures { result ≡ is_null value.now }
{
    matches!(value, Value::Null)
}

// Keeps a value that isn't NULL.
#[tactic(auto, using(crate::proofs::Added::copies_few))]
pub(crate) fn keep(kept: &mut ValueBag, value: &Value) -> Result<(), Memory>
    requires { size kept.old + 1 < 2 ^ 64 }
    ensures ok { OnOk result (kept.new ≡ gained kept.old value.now) }
    ensures err { OnErr result (kept.new ≡ kept.old) }
{
    if is_null(value) {
        return Ok(());
    }
    kept.add(value.dup()?)
}

// Loses a value that isn't NULL, one of which is kept.
pub(crate) fn lose(kept: &mut ValueBag, value: &Value)
    requires { is_null value.now ≡ false → 0 < bag.copies kept.old value.now }
    ensures { kept.new ≡ lost kept.old value.now }
{
    if !is_null(value) {
        kept.remove(value);
    }
}

// Keeps a value in the place of another, one of which is kept, each of them if it isn't NULL.
#[tactic(auto, using(crate::proofs::Replaced::gained_lost, crate::proofs::Replaced::still_there))]
pub(crate) fn keep_for(kept: &mut ValueBag, old: &Value, fresh: &Value) -> Result<(), Memory>
    requires room { size kept.old + 1 < 2 ^ 64 }
    requires stands { is_null old.now ≡ false → 0 < bag.copies kept.old old.now }
    ensures ok { OnOk result (kept.new ≡ gained (lost kept.old old.now) fresh.now) }
    ensures err { OnErr result (kept.new ≡ kept.old) }
{
    keep(kept, fresh)?;
    lose(kept, old);
    Ok(())
}

// Whether a value takes the place of the least so far.
fn is_below(value: &Value, least: &Option<Value>) -> bool
    ensures { result ≡ is_below value.now least.now }
{
    match least {
        Some(standing) => value.cmp(standing).is_lt(),
        None => true,
    }
}

// Whether a value takes the place of the greatest so far.
fn is_above(value: &Value, greatest: &Option<Value>) -> bool
    ensures { result ≡ is_above value.now greatest.now }
{
    match greatest {
        Some(standing) => value.cmp(standing).is_gt(),
        None => true,
    }
}

// Puts a value in the place of a greater one.
#[tactic(auto, using(crate::proofs::Ends::least_taken, crate::proofs::Ends::least_stays))]
pub(crate) fn lower(least: &mut Option<Value>, value: &Value) -> Result<(), Memory>
    ensures ok { OnOk result ((kept : Values) → least.old ≡ first_item (bag.items kept) → least.new ≡ first_item (bag.items (gained kept value.now))) }
    ensures err { OnErr result (least.new ≡ least.old) }
{
    if is_null(value) {
        return Ok(());
    }
    if !is_below(value, least) {
        return Ok(());
    }
    *least = Some(value.dup()?);
    Ok(())
}

// Puts a value in the place of a lesser one.
#[tactic(auto, using(crate::proofs::Ends::greatest_taken, crate::proofs::Ends::greatest_stays))]
pub(crate) fn raise(greatest: &mut Option<Value>, value: &Value) -> Result<(), Memory>
    ensures ok { OnOk result ((kept : Values) → greatest.old ≡ last_item (bag.items kept) → greatest.new ≡ last_item (bag.items (gained kept value.now))) }
    ensures err { OnErr result (greatest.new ≡ greatest.old) }
{
    if is_null(value) {
        return Ok(());
    }
    if !is_above(value, greatest) {
        return Ok(());
    }
    *greatest = Some(value.dup()?);
    Ok(())
}

// The value, or NULL where there is none.
pub(crate) fn or_null(standing: Option<&Value>) -> Result<Value, Memory>
    ensures { IfOk result (λ made. made ≡ unwrap_or (option_copied standing.entry) Null) }
{
    match standing {
        Some(value) => value.dup(),
        None => Ok(Value::Null),
    }
}
