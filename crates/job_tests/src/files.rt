// The words and the files of a run.
use ct_io::{Calls, Files};
use ct_value::{Bytes, Memory, Text};
use std::alloc::Global;

/// Words of a command line.
pub fn texts(alloc: Global, words: &[&str]) -> Result<Vec<Text>, Memory> {
    let mut texts = Vec::new(alloc);
    for word in words {
        texts.push(Text::from_str(alloc, word)?)?;
    }
    Ok(texts)
}

/// The words of a run over the files of `files`.
pub fn usual_words(alloc: Global) -> Result<Vec<Text>, Memory> {
    texts(alloc, &["--script", "s", "--changes", "c"])
}

/// Holds bytes under a name.
pub fn hold(alloc: Global, files: &mut Files, name: &str, bytes: Bytes) -> Result<(), Memory> {
    let name = Text::from_str(alloc, name)?;
    files.set(name, bytes)
}

/// A script held as `s`, and a change file held as `c`.
pub fn files(alloc: Global, script: Bytes, changes: Bytes) -> Result<Files, Memory> {
    let mut files = Files::new(alloc);
    hold(alloc, &mut files, "s", script)?;
    hold(alloc, &mut files, "c", changes)?;
    Ok(files)
}

/// Files of these names that hold these texts.
pub fn held(alloc: Global, texts: &[(&str, &str)]) -> Result<Files, Memory> {
    let mut files = Files::new(alloc);
    for (name, text) in texts {
        hold(
            alloc,
            &mut files,
            name,
            Bytes::from_slice(alloc, text.as_bytes())?,
        )?;
    }
    Ok(files)
}

/// Files that hold these texts.
pub fn files_of(alloc: Global, script: &str, changes: &str) -> Result<Files, Memory> {
    let script = Bytes::from_slice(alloc, script.as_bytes())?;
    let changes = Bytes::from_slice(alloc, changes.as_bytes())?;
    files(alloc, script, changes)
}

/// The calls of these numbers.
pub fn calls(alloc: Global, numbers: &[u64]) -> Result<Calls, Memory> {
    let mut calls = Calls::new(alloc);
    for number in numbers {
        calls.push(*number)?;
    }
    Ok(calls)
}
