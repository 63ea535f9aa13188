//! The change files of a job, and its order.
ghost use Rattle.std.specs.Prelude.{◌≡◌, ◌≤◌, ◌++◌, [], ◌∷◌, ℕ, List as Seq, Some, codes, length, IfOk, IfErr, OnOk};
ghost use Rattle.command_line.specs.Requests.{input_view};
ghost use Rattle.ct_io.specs.Counts.{Rose};
ghost use Rattle.ct_io.specs.Holdings.{Holdings, Whole, loaded};
ghost use Rattle.job_ending.specs.Endings.{IsPrintable};
ghost use Rattle.job_ending.specs.Outcome.{Outcome};
ghost use Rattle.job_ending.specs.Runs.{HaltsAs, IsBefore, ending_of_halt};
ghost use Rattle.job_text.specs.Orders.{orders_of};
ghost use Rattle.job_text.specs.declared.orders.OrderLine.{OrderLine};
ghost use Rattle.source_lines.specs.Supply.{AreWithin};
ghost use Rattle.source_lines.specs.declared.supply.ChangeFiles.{ChangeFiles as Files};
ghost use Rattle.source_lines.specs.declared.supply.ChangeFiles.TheVariants.{Each};
ghost use Rattle.job_run.specs.Outcome.{after_load, after_order, feed_name, over_feeds, over_input, with_order};

use crate::load::load;
use command_line::Input;
use ct_catalog::{Sources, TableDef};
use ct_io::Shelf;
use ct_value::{Bytes, List, Memory, OrderCode, Text};
use job_ending::{Halt, LimitName};
use job_text::{OrderFault, Orders, read_order};
use source_lines::ChangeFiles;
use std::alloc::Global;

// The largest change file, in bytes; all feeds together are no larger.
const CHANGES_LIMIT: u64 = 67108864;

// The largest order, in bytes.
const ORDER_LIMIT: u64 = 67108864;

/// The change file that is named, or the feed of each source.
pub fn load_input<F: Shelf>(
    alloc: Global,
    shelf: &mut F,
    input: &Input,
    sources: &Sources,
) -> Result<ChangeFiles, Halt>
    ensures within { IfOk result AreWithin }
    ensures ok { IfOk result (λ files. (h : Holdings) → F.holdings shelf.old ≡ Some h → (next : Files → Outcome) → over_input h (input_view input.now) sources.now next ≡ next files) }
    ensures halts { IfErr result (λ halt. (next : Holdings → Files → Outcome) → HaltsAs (F.holdings shelf.old) (λ h. over_input h (input_view input.now) sources.now (next h)) (Rose (F.faults shelf.old) (F.faults shelf.new)) halt) }
    ensures printable { IfErr result (λ halt. IsPrintable (ending_of_halt halt)) }
    ensures same { F.holdings shelf.new ≡ F.holdings shelf.old }
    ensures later { F.faults shelf.old ≤ F.faults shelf.new }
{
    match input {
        Input::Changes(name) => {
            let bytes = load(alloc, shelf, name, CHANGES_LIMIT, LimitName::Changes)?;
            Ok(ChangeFiles::One(bytes))
        }
        Input::Feeds(prefix) => {
            let feeds = load_feeds(alloc, shelf, prefix, sources.as_slice())?;
            Ok(ChangeFiles::Each(feeds))
        }
    }
}

// The feeds of these tables, each within what the earlier ones left of the limit.
fn load_feeds<F: Shelf>(
    alloc: Global,
    shelf: &mut F,
    prefix: &Text,
    tables: &[TableDef],
) -> Result<List<Bytes>, Halt>
    ensures within { IfOk result (λ feeds. AreWithin (Each feeds)) }
    ensures ok { IfOk result (λ feeds. (h : Holdings) → F.holdings shelf.old ≡ Some h → (next : Files → Outcome) → over_feeds h prefix.now 67108864 tables.now [] next ≡ next (Each feeds)) }
    ensures halts { IfErr result (λ halt. (next : Holdings → Files → Outcome) → HaltsAs (F.holdings shelf.old) (λ h. over_feeds h prefix.now 67108864 tables.now [] (next h)) (Rose (F.faults shelf.old) (F.faults shelf.new)) halt) }
    ensures printable { IfErr result (λ halt. IsPrintable (ending_of_halt halt)) }
    ensures same { F.holdings shelf.new ≡ F.holdings shelf.old }
    ensures later { F.faults shelf.old ≤ F.faults shelf.new }
{
    let mut feeds = List::new(alloc);
    let mut left = CHANGES_LIMIT;
    for table in tables {
        let bytes = load_feed(alloc, shelf, prefix, table, left)?;
        left -= bytes.len() as u64;
        push_feed(&mut feeds, bytes)?;
    }
    Ok(feeds)
}

// The feed of a table, of at most `limit` bytes.
fn load_feed<F: Shelf>(
    alloc: Global,
    shelf: &mut F,
    prefix: &Text,
    table: &TableDef,
    limit: u64,
) -> Result<Bytes, Halt>
    ensures within { IfOk result (λ bytes. length bytes ≤ limit) }
    ensures whole { IfOk result (λ bytes. (h : Holdings) → F.holdings shelf.old ≡ Some h → loaded h (feed_name prefix.now table.now) limit ≡ Whole bytes) }
    ensures halts { IfErr result (λ halt. (next : Holdings → Seq ℕ → Outcome) → HaltsAs (F.holdings shelf.old) (λ h. after_load LimitName.Changes (next h) (loaded h (feed_name prefix.now table.now) limit)) (Rose (F.faults shelf.old) (F.faults shelf.new)) halt) }
    ensures printable { IfErr result (λ halt. IsPrintable (ending_of_halt halt)) }
    ensures same { F.holdings shelf.new ≡ F.holdings shelf.old }
    ensures later { F.faults shelf.old ≤ F.faults shelf.new }
{
    match feed_name(alloc, prefix, &table.name) {
        Ok(name) => load(alloc, shelf, &name, limit, LimitName::Changes),
        Err(_) => Err(Halt::Memory),
    }
}

// The name of the feed of a table of this name.
fn feed_name(alloc: Global, prefix: &Text, table: &Text) -> Result<Text, Memory>
    ensures { IfOk result (λ name. name ≡ prefix.now ++ (table.now ++ codes ".csv")) }
{
    let extension = Text::from_str(alloc, ".csv")?;
    let file = Text::concat(alloc, table, &extension)?;
    Text::concat(alloc, prefix, &file)
}

// Puts a feed behind the others.
fn push_feed(feeds: &mut List<Bytes>, bytes: Bytes) -> Result<(), Halt>
    ensures ok { OnOk result (feeds.new ≡ feeds.old ++ bytes ∷ []) }
    ensures err { IfErr result (λ halt. halt ≡ Halt.Memory) }
{
    match feeds.push(bytes) {
        Ok(()) => Ok(()),
        Err(_) => Err(Halt::Memory),
    }
}

/// The lines of the order that is named; without one there are none.
pub fn load_order<F: Shelf>(
    alloc: Global,
    shelf: &mut F,
    order: &Option<Text>,
    by_table: bool,
) -> Result<Orders, Halt>
    ensures ok { IfOk result (λ orders. (h : Holdings) → F.holdings shelf.old ≡ Some h → (next : Seq OrderLine → Outcome) → with_order h order.now by_table next ≡ next orders) }
    ensures halts { IfErr result (λ halt. (next : Holdings → Seq OrderLine → Outcome) → HaltsAs (F.holdings shelf.old) (λ h. with_order h order.now by_table (next h)) (Rose (F.faults shelf.old) (F.faults shelf.new)) halt) }
    ensures printable { IfErr result (λ halt. IsPrintable (ending_of_halt halt)) }
    ensures same { F.holdings shelf.new ≡ F.holdings shelf.old }
    ensures later { F.faults shelf.old ≤ F.faults shelf.new }
{
    match order {
        Some(name) => {
            let bytes = load(alloc, shelf, name, ORDER_LIMIT, LimitName::Order)?;
            orders_in(alloc, &bytes, by_table)
        }
        None => Ok(Orders::new(alloc)),
    }
}

// The lines of an order.
fn orders_in(alloc: Global, bytes: &Bytes, by_table: bool) -> Result<Orders, Halt>
    requires within { length bytes.now ≤ 67108864 }
    ensures ok { IfOk result (λ orders. (next : Seq OrderLine → Outcome) → after_order next (orders_of by_table bytes.now) ≡ next orders) }
    ensures halts { IfErr result (λ halt. (next : Seq OrderLine → Outcome) → IsBefore halt (after_order next (orders_of by_table bytes.now))) }
    ensures printable { IfErr result (λ halt. IsPrintable (ending_of_halt halt)) }
{
    match read_order(alloc, bytes, by_table) {
        Ok(orders) => Ok(orders),
        Err(OrderFault::BadLine(line)) => Err(Halt::Order {
            code: OrderCode::BadLine,
            line,
        }),
        Err(OrderFault::Memory) => Err(Halt::Memory),
    }
}
