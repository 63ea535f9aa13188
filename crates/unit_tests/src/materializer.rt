//! A materializer under one key of which many rows stand.
ghost use Rattle.std.specs.Prelude.{◌≡◌, ◌<◌, List, ◌∷◌, [], true, false, length, IfOk, OnOk};
ghost use Rattle.ct_value.specs.Bag.{copies};
ghost use Rattle.ct_change.specs.Changelog.{retract, adds, apply, fold, MayCome};
ghost use Rattle.emission_rules.specs.Materialize.{materialize_rule};
ghost use Rattle.op_rules.specs.History.{Arrival, at_port};

use ct_change::{Bag, Change, Changes, Kind, Steps};
use ct_value::{Cols, Memory, Row, Value, Values};
use op_rules::{OpFault, Operator};
use op_sink::Materialize;
use std::alloc::Global;
use std::marker::Brand;
use std::sync::ledger::{Blank, Ledger};
use std::test::Fail;

// The row of a key, 7, and a number.
fn pair(alloc: Global, number: i128) -> Result<Row, Memory>
    ensures { IfOk result (λ row. length row ≡ 2) }
{
    let mut values = Values::new(alloc);
    values.push(Value::Num(7))?;
    values.push(Value::Num(number))?;
    Ok(Row::from_values(values))
}

// Takes a change into the rows that stand, where it may come.
fn stands(standing: &mut Bag, change: &Change) -> Result<bool, Memory>
    ensures { IfOk result (λ may. may ≡ true → MayCome retract standing.old change.now × (standing.new ≡ apply retract standing.old change.now)) }
{
    let count = standing.count(&change.row);
    if change.kind.is_addition() {
        return comes(standing, change, count);
    }
    if count == 0 {
        return Ok(false);
    }
    standing.remove(&change.row);
    Ok(true)
}

fn comes(standing: &mut Bag, change: &Change, count: u64) -> Result<bool, Memory>
    requires counted { count ≡ copies standing.old change.now.row }
    requires adds { adds change.now.kind ≡ true }
    ensures { IfOk result (λ may. may ≡ true → MayCome retract standing.old change.now × (standing.new ≡ apply retract standing.old change.now)) }
{
    if count > 1_000_000_000 {
        return Ok(false);
    }
    let row = change.row.dup()?;
    standing.add(row)?;
    Ok(true)
}

// What is told of a change, which has to be one that may come, is put behind the others.
fn fed<O: Operator, L: Ledger>(
    operator: &mut O,
    standing: &mut Bag,
    taken: &mut u32,
    change: Change,
    to: &mut Changes,
    steps: &mut Steps<L>,
) -> Result<(), OpFault>
    requires whole { O.broken operator.old ≡ false }
    requires fed { (before : List Arrival) × (O.rule operator.old ≡ materialize_rule (0 ∷ [])) × O.stands_for operator.old before × (standing.old ≡ fold retract (at_port 0 before)) × (length before ≡ taken.old) }
    requires wide { length change.row ≡ 2 }
    ensures whole { OnOk result (O.broken operator.new ≡ false) }
    ensures fed { OnOk result ((before : List Arrival) × (O.rule operator.new ≡ materialize_rule (0 ∷ [])) × O.stands_for operator.new before × (standing.new ≡ fold retract (at_port 0 before)) × (length before ≡ taken.new)) }
{
    if *taken > 4_000_000_000 {
        return Err(OpFault::Memory);
    }
    let may = stands(standing, &change)?;
    if !may {
        return Err(OpFault::Memory);
    }
    operator.consume(0, change, to, steps)?;
    *taken += 1;
    Ok(())
}

// What a materializer by the first column tells of changes of pairs with these numbers.
fn told<O: Operator, L: Ledger>(
    alloc: Global,
    operator: &mut O,
    changes: &[(Kind, i128)],
    blank: Blank,
) -> Result<Changes, OpFault>
    requires whole { O.broken operator.old ≡ false }
    requires stands { O.stands_for operator.old [] }
    requires rule { O.rule operator.old ≡ materialize_rule (0 ∷ []) }
    requires name { blank.name ≡ L.name }
    requires parts { blank.parts ≡ L.parts }
    requires some { 0 < L.parts }
{
    let mut steps = Steps::<L>::new(blank);
    let mut told = operator.opening(0)?;
    let mut standing = Bag::new(alloc);
    let mut taken = 0;
    for (kind, number) in changes {
        let change = Change::new(*kind, pair(alloc, *number)?);
        fed(
            operator,
            &mut standing,
            &mut taken,
            change,
            &mut told,
            &mut steps,
        )?;
    }
    Ok(told)
}

fn first_column(alloc: Global) -> Result<Cols, Memory>
    ensures { IfOk result (λ key. key ≡ 0 ∷ []) }
{
    let mut key = Cols::new(alloc);
    key.push(0)?;
    Ok(key)
}

fn tells(alloc: Global, changes: &[(Kind, i128)]) -> Result<Changes, OpFault> {
    let mut materialize = Materialize::new(alloc, first_column(alloc)?)?;
    told::<Materialize, Brand>(alloc, &mut materialize, changes, Blank::new(1))
}

// Ten thousand rows of one key, which go in order of arrival.
fn many(alloc: Global) -> Result<Vec<(Kind, i128)>, Memory> {
    let mut changes = Vec::with_capacity(alloc, 20_000)?;
    for number in 0..10_000_u32 {
        changes.push((Kind::I, number as i128))?;
    }
    for number in 0..10_000_u32 {
        changes.push((Kind::D, number as i128))?;
    }
    Ok(changes)
}

// Each that comes is shown; of those that go the last alone was shown, and the key goes with it.
#[test]
fn ten_thousand_rows_of_one_key(rt: HostRuntime) -> Result<(), Fail> {
    let told = tells(rt.alloc(), &many(rt.alloc())?)?;
    assert_eq!(rt; told.len(), 10_001);
    let kinds = told.as_slice();
    assert!(rt; kinds[0].kind == Kind::I);
    assert!(rt; kinds[9_999].kind == Kind::UA);
    assert!(rt; kinds[10_000].kind == Kind::D);
    Ok(())
}
