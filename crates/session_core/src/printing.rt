ghost use Rattle.std.specs.Prelude.{◌≡◌, ◌++◌, [], map, length, take, OnOk, OnErr};
ghost use Rattle.stream_model.specs.declared.events.PrintItem.TheVariants.{Change as Printed};

use ct_change::Changes;
use ct_value::Memory;
use std::mem::swap;
use stream_model::{PrintItem, PrintList};

/// The sink prints changes, and leaves their list empty; where it is one, the list keeps its memory. After want of memory nothing is printed.
pub fn print_all(printed: &mut PrintList, changes: &mut Changes) -> Result<(), Memory>
    ensures emptied { OnOk result (changes.new ≡ []) }
    ensures ok { OnOk result (printed.new ≡ printed.old ++ map Printed changes.old) }
    ensures err { OnErr result (printed.new ≡ printed.old) }
{
    let Some(last) = changes.pop() else {
        return Ok(());
    };
    if changes.is_empty() {
        return printed.push(PrintItem::Change(last));
    }
    changes.push(last)?;
    let mut list = changes.beside();
    swap(&mut list, changes);
    print_list(printed, list)
}

// The same of a list.
fn print_list(printed: &mut PrintList, changes: Changes) -> Result<(), Memory>
    ensures ok { OnOk result (printed.new ≡ printed.old ++ map Printed changes) }
    ensures err { OnErr result (printed.new ≡ printed.old) }
{
    let before = printed.len();
    match push_all(printed, changes) {
        Ok(()) => Ok(()),
        Err(Memory) => {
            printed.truncate(before);
            Err(Memory)
        }
    }
}

// Puts changes behind the others.
fn push_all(printed: &mut PrintList, changes: Changes) -> Result<(), Memory>
    ensures ok { OnOk result (printed.new ≡ printed.old ++ map Printed changes) }
    ensures err { take (length printed.old) printed.new ≡ printed.old }
{
    for change in changes.into_vec() {
        printed.push(PrintItem::Change(change))?;
    }
    Ok(())
}
