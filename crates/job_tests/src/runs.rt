// Worked runs: what is written, the line of the ending, and the status. The gate runs the program on more of them (`tests/runs`).
use crate::files::{calls, files, files_of, texts, usual_words};
use crate::scripts::{COUNT_APPEND, COUNT_RETRACT, LEFT_JOIN, SELECT_APPEND};
use ct_io::{Calls, Files, MemShelf, MemSink, SureShelf, SureSink};
use ct_value::{Memory, Text};
use job::{run_job, status};
use job_text::make_lines;
use std::alloc::Global;

// What a run leaves on `out` and on `err`, and its status.
type Left = (&'static str, &'static str, u8);

fn is_left(left: &Left, out: &[u8], err: &[u8], status: u8) -> bool {
    out == left.0.as_bytes() && err == left.1.as_bytes() && status == left.2
}

// Whether a run over a shelf, to an `out` of which the listed calls fail, leaves this.
fn leaves(alloc: Global, words: &[Text], shelf: &mut MemShelf, puts: Calls, left: &Left) -> bool {
    let Ok(mut out) = MemSink::new(alloc, puts) else {
        return false;
    };
    match MemSink::new(alloc, Calls::new(alloc)) {
        Ok(mut err) => {
            let ending = run_job(alloc, words, shelf, &mut out, &mut err);
            is_left(left, out.written(), err.written(), status(&ending))
        }
        Err(_) => false,
    }
}

// Whether a run over files, to sinks that never fail, leaves this.
fn surely_leaves(alloc: Global, words: &[Text], files: Files, left: &Left) -> bool {
    let Ok(mut out) = SureSink::new(alloc) else {
        return false;
    };
    match SureSink::new(alloc) {
        Ok(mut err) => {
            let mut shelf = SureShelf::new(files);
            let ending = run_job(alloc, words, &mut shelf, &mut out, &mut err);
            is_left(left, out.written(), err.written(), status(&ending))
        }
        Err(_) => false,
    }
}

fn usually_leaves(alloc: Global, files: Files, left: &Left) -> bool {
    match usual_words(alloc) {
        Ok(words) => surely_leaves(alloc, words.as_slice(), files, left),
        Err(_) => false,
    }
}

// A script, a change file, and what the run over them leaves.
type Run = (&'static str, &'static str, Left);

const RUNS: [Run; 4] = [
    (
        COUNT_RETRACT,
        "t,+I,a\nt,+I,a\nt,+I,b\nt,-U,a\nt,+U,b\n",
        (
            "+I,a,1\n-U,a,1\n+U,a,2\n+I,b,1\n-U,a,2\n+U,a,1\n-U,b,1\n+U,b,2\n=,5\n",
            "",
            0,
        ),
    ),
    (
        LEFT_JOIN,
        "a,+I,1,5\nb,+I,5,x\nb,-D,5,x\n",
        ("+I,1,\\N\n-D,1,\\N\n+I,1,x\n-D,1,x\n+I,1,\\N\n=,3\n", "", 0),
    ),
    (
        SELECT_APPEND,
        "t,+I,a\nt,-D,a\n",
        ("", "change C4 KindNotDeclared line 2\n", 3),
    ),
    ("", "", ("", "script S19 NotOneInsert statement 1\n", 2)),
];

fn shelf_leaves(alloc: Global, shelf: &mut MemShelf, puts: Calls, left: &Left) -> bool {
    match usual_words(alloc) {
        Ok(words) => leaves(alloc, words.as_slice(), shelf, puts, left),
        Err(_) => false,
    }
}

// Whether a run to an `out` of which the listed calls fail leaves what is wanted.
fn leaves_by_memory(alloc: Global, run: &Run, puts: &[u64]) -> bool {
    let Ok(puts) = calls(alloc, puts) else {
        return false;
    };
    match files_of(alloc, run.0, run.1) {
        Ok(files) => {
            let mut shelf = MemShelf::new(files, Calls::new(alloc));
            shelf_leaves(alloc, &mut shelf, puts, &run.2)
        }
        Err(_) => false,
    }
}

fn leaves_surely(alloc: Global, run: &Run) -> bool {
    match files_of(alloc, run.0, run.1) {
        Ok(files) => usually_leaves(alloc, files, &run.2),
        Err(_) => false,
    }
}

// Whether a run leaves this over a shelf and sinks that may fail, and over those that never do.
fn leaves_twice(alloc: Global, run: &Run) -> bool {
    leaves_by_memory(alloc, run, &[]) && leaves_surely(alloc, run)
}

#[test]
fn worked_runs_leave_what_is_wanted(rt: HostRuntime) {
    for run in &RUNS {
        assert!(rt; leaves_twice(rt.alloc(), run), "{} over {}", run.0, run.1);
    }
}

const PLAN: &str = "1 Scan(t) hash[0] changelogMode=[I]\n\
    2 Group(1,1) from 1 forward changelogMode=[I,UB,UA]\n\
    3 Sink(out_t) from 2 changelogMode=[I,UB,UA]\n";

// Words over a script that counts and a file of one line, and what is left: by none, and in each mode.
const WORDS: [(&[&str], Left); 5] = [
    (&[], ("", "usage\n", 1)),
    (
        &["--do", "run", "--changes=c", "--script=s"],
        ("+I,a,1\n=,1\n", "", 0),
    ),
    (
        &["--script", "s", "--changes", "c", "--do", "batch"],
        ("a,1\n", "", 0),
    ),
    (&["--script", "s", "--do", "explain"], (PLAN, "", 0)),
    (
        &["--do", "load", "--seed", "7", "--lines", "1"],
        ("load,1,1,1,1,3604650464698287380\n", "", 0),
    ),
];

fn words_leave(alloc: Global, words: &[&str], left: &Left) -> bool {
    let Ok(words) = texts(alloc, words) else {
        return false;
    };
    match files_of(alloc, COUNT_APPEND, "t,+I,a\n") {
        Ok(files) => surely_leaves(alloc, words.as_slice(), files, left),
        Err(_) => false,
    }
}

#[test]
fn each_mode_is_run(rt: HostRuntime) {
    for (words, left) in &WORDS {
        let is_left = words_leave(rt.alloc(), words, left);
        assert!(rt; is_left, "{} words", words.len());
    }
}

const FIVE_LINES: &str =
    "t,+I,w807,934\nt,+I,w424,171\nt,+I,w937,-179\nt,+I,w236,-9\nt,-D,w807,934\n";

fn five_are_made(alloc: Global) -> bool {
    match make_lines(alloc, 0, 5) {
        Ok(lines) => lines.as_slice() == FIVE_LINES.as_bytes(),
        Err(_) => false,
    }
}

#[test]
fn lines_are_made_of_a_seed(rt: HostRuntime) {
    assert!(rt; five_are_made(rt.alloc()));
}

// The names of a script and of a change file of which only `s` and `c` are held, and the load that fails besides.
const BAD_LOADS: [(&str, &str, u64); 4] = [
    ("s", "c", 1),
    ("s", "c", 2),
    ("x", "c", 3),
    ("s", "x", 3),
];

const READ_FAULT: Left = ("", "read fault\n", 7);

// Whether a run, of which this load fails, is a read fault.
fn faults_over(alloc: Global, words: &[Text], failing: u64) -> bool {
    let Ok(fails) = calls(alloc, &[failing]) else {
        return false;
    };
    match files_of(alloc, COUNT_APPEND, "t,+I,a\nt,+I,a\n") {
        Ok(files) => {
            let mut shelf = MemShelf::new(files, fails);
            leaves(alloc, words, &mut shelf, Calls::new(alloc), &READ_FAULT)
        }
        Err(_) => false,
    }
}

fn is_read_fault(alloc: Global, script: &str, changes: &str, failing: u64) -> bool {
    match texts(alloc, &["--script", script, "--changes", changes]) {
        Ok(words) => faults_over(alloc, words.as_slice(), failing),
        Err(_) => false,
    }
}

#[test]
fn a_load_that_fails_is_a_read_fault(rt: HostRuntime) {
    for (script, changes, failing) in &BAD_LOADS {
        let ends = is_read_fault(rt.alloc(), script, changes, *failing);
        assert!(rt; ends, "load {failing} of {script} and {changes}");
    }
}

// Whether a wrong use stays one where its line can't be written.
fn keeps_ending(alloc: Global, err: &mut MemSink) -> bool {
    match SureSink::new(alloc) {
        Ok(mut out) => {
            let mut shelf = SureShelf::new(Files::new(alloc));
            let ending = run_job(alloc, &[], &mut shelf, &mut out, err);
            status(&ending) == 1 && err.written().is_empty()
        }
        Err(_) => false,
    }
}

fn keeps_ending_without_line(alloc: Global) -> bool {
    let Ok(fails) = calls(alloc, &[1]) else {
        return false;
    };
    match MemSink::new(alloc, fails) {
        Ok(mut err) => keeps_ending(alloc, &mut err),
        Err(_) => false,
    }
}

#[test]
fn an_ending_stays_where_its_line_cannot_be_written(rt: HostRuntime) {
    assert!(rt; keeps_ending_without_line(rt.alloc()));
}
