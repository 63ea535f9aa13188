// Runs by an order: what is written, the line of the ending, and the status. The gate runs the program by more of them.
use crate::files::{calls, held, texts};
use crate::scripts::LATE_RETRACTION;
use crate::told::{Left, is_told, told};
use ct_io::{Calls, Files, MemShelf, MemSink, SureShelf};
use ct_value::{Memory, Text};
use job::{run_job, status};
use std::alloc::Global;

fn order_words(alloc: Global) -> Result<Vec<Text>, Memory> {
    texts(alloc, &["--script", "s", "--changes", "c", "--order", "o"])
}

fn order_files(alloc: Global, order: &str) -> Result<Files, Memory> {
    held(
        alloc,
        &[("s", LATE_RETRACTION), ("c", LATE_LINES), ("o", order)],
    )
}

// Whether a run over these files leaves this.
fn leaves(alloc: Global, files: Files, left: &Left) -> bool {
    match order_words(alloc) {
        Ok(words) => {
            let mut shelf = SureShelf::new(files);
            is_told(&told(alloc, words.as_slice(), &mut shelf), left)
        }
        Err(_) => false,
    }
}

fn leaves_by_order(alloc: Global, order: &str, left: &Left) -> bool {
    match order_files(alloc, order) {
        Ok(files) => leaves(alloc, files, left),
        Err(_) => false,
    }
}

// An order goes from Rome to Oslo: its old row and its new one go to two subtasks of the join.
const LATE_LINES: &str =
    "customers,+I,1,Rome\ncustomers,+I,2,Oslo\norders,+I,7,1\norders,-U,7,1\norders,+U,7,2\n";

const OLD_ROW_FIRST: &str = "take 3\ndrain\ntake 2\nmove 1 1 1 1\nmove 3 1 1 1\nmove 4 1 1 1\n";

const NEW_ROW_FIRST: &str = "take 3\ndrain\ntake 2\nmove 1 1 0 1\nmove 3 0 0 1\nmove 4 0 0 1\n";

// Orders, and what a run by each leaves.
const LATE: [(&str, Left); 3] = [
    (
        OLD_ROW_FIRST,
        ("+I,7,Rome\n=,3\n-U,7,Rome\n+U,7,Oslo\n=,5\n", "", 0),
    ),
    (
        NEW_ROW_FIRST,
        ("+I,7,Rome\n=,3\n+U,7,Oslo\n-U,7,Rome\n=,5\n", "", 0),
    ),
    (
        "take 5\ndrain\nmove 1 1 0 1\n",
        (
            "+I,7,Oslo\n=,5\n",
            "order O3 TooFew line 3 in flight 0\n",
            4,
        ),
    ),
];

#[test]
fn a_retraction_may_come_late(rt: HostRuntime) {
    for (order, left) in &LATE {
        assert!(rt; leaves_by_order(rt.alloc(), order, left), "by {order}");
    }
}

// The `put` that fails, and what was written before.
const FAILING_PUTS: [(u64, &str); 5] = [
    (1, ""),
    (2, "+I,7,Rome\n"),
    (3, "+I,7,Rome\n=,3\n"),
    (4, "+I,7,Rome\n=,3\n-U,7,Rome\n"),
    (5, "+I,7,Rome\n=,3\n-U,7,Rome\n+U,7,Oslo\n"),
];

// Whether a run is a write fault where this `put` fails, and has written that before.
fn writes_before(
    alloc: Global,
    shelf: &mut SureShelf,
    words: &[Text],
    puts: Calls,
    written: &str,
) -> bool {
    let Ok(mut out) = MemSink::new(alloc, puts) else {
        return false;
    };
    match MemSink::new(alloc, Calls::new(alloc)) {
        Ok(mut err) => {
            let ending = run_job(alloc, words, shelf, &mut out, &mut err);
            out.written() == written.as_bytes() && status(&ending) == 8
        }
        Err(_) => false,
    }
}

fn faults_at_put(alloc: Global, failing: u64, written: &str) -> Result<bool, Memory> {
    let words = order_words(alloc)?;
    let puts = calls(alloc, &[failing])?;
    let files = order_files(alloc, OLD_ROW_FIRST)?;
    let mut shelf = SureShelf::new(files);
    Ok(writes_before(alloc, &mut shelf, words.as_slice(), puts, written))
}

#[test]
fn each_line_is_written_by_itself(rt: HostRuntime) {
    for (failing, written) in &FAILING_PUTS {
        let faults = faults_at_put(rt.alloc(), *failing, written);
        assert!(rt; matches!(faults, Ok(true)), "put {failing}");
    }
}

const READ_FAULT: Left = ("", "read fault\n", 7);

fn faults_at_load(alloc: Global, failing: u64) -> Result<bool, Memory> {
    let words = order_words(alloc)?;
    let fails = calls(alloc, &[failing])?;
    let files = order_files(alloc, OLD_ROW_FIRST)?;
    let mut shelf = MemShelf::new(files, fails);
    Ok(is_told(&told(alloc, words.as_slice(), &mut shelf), &READ_FAULT))
}

// The script, the change file and the order.
const LOADS: [u64; 3] = [1, 2, 3];

#[test]
fn each_load_may_fail(rt: HostRuntime) {
    for failing in &LOADS {
        let faults = faults_at_load(rt.alloc(), *failing);
        assert!(rt; matches!(faults, Ok(true)), "load {failing}");
    }
}
