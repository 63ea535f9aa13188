// Files in memory, calls by their numbers, and a sink that grows. Shelves and the other sinks are tried by the runs of job_tests.
use ct_io::{Calls, Files, GrowingSink, put_all};
use ct_value::{Bytes, Memory, Text};
use std::alloc::Global;
use std::test::Fail;

fn calls(alloc: Global, numbers: &[u64]) -> Result<Calls, Memory> {
    let mut calls = Calls::new(alloc);
    for number in numbers {
        calls.push(*number)?;
    }
    Ok(calls)
}

fn hold(alloc: Global, files: &mut Files, bytes: &[u8]) -> Result<(), Memory> {
    let name = Text::from_str(alloc, "f")?;
    let bytes = Bytes::from_slice(alloc, bytes)?;
    files.set(name, bytes)
}

// One file `f` that holds `abc`, after it held something else.
fn files(alloc: Global) -> Result<Files, Memory> {
    let mut files = Files::new(alloc);
    hold(alloc, &mut files, b"older")?;
    hold(alloc, &mut files, b"abc")?;
    Ok(files)
}

fn lists_calls(alloc: Global) -> Result<bool, Memory> {
    let copy = calls(alloc, &[7, 2])?.dup()?;
    Ok(matches!(copy.as_slice(), [7, 2]) && copy.len() == 2 && copy.get(2).is_none())
}

// Whether this name alone is held.
fn holds_one_file(alloc: Global) -> Result<bool, Memory> {
    let files = files(alloc)?;
    let held = files.get(&Text::from_str(alloc, "f")?);
    let other = files.get(&Text::from_str(alloc, "g")?);
    Ok(matches!(held, Some(bytes) if bytes.is(b"abc")) && other.is_none())
}

// Whether two pieces are told and handed over, one behind the other.
fn holds_both_pieces(alloc: Global) -> bool {
    let mut sink = GrowingSink::new(alloc);
    let taken = put_all(&mut sink, b"ab").is_ok() && put_all(&mut sink, b"c").is_ok();
    let told = matches!(sink.written(), b"abc");
    taken && told && matches!(sink.into_bytes().as_slice(), b"abc")
}

#[test]
fn calls_and_files_are_held(rt: HostRuntime) -> Result<(), Fail> {
    assert!(rt; Calls::new(rt.alloc()).is_empty());
    assert!(rt; lists_calls(rt.alloc())?);
    assert!(rt; holds_one_file(rt.alloc())?);
    Ok(())
}

#[test]
fn written_pieces_are_held(rt: HostRuntime) -> Result<(), Fail> {
    assert!(rt; holds_both_pieces(rt.alloc()));
    Ok(())
}
