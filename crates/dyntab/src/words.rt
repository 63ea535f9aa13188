// The words of the command line.
use ct_value::{Memory, Text};
use std::env;
use std::env::Env;
use std::io::ErrorKind;

/// Why the words of the command line can't be stored.
#[derive(Clone, Copy, Debug, PartialEq, Eq)]
pub enum WordFault {
    /// A word isn't UTF-8.
    NotText,
    Memory,
}

impl From<Memory> for WordFault {
    fn from(_: Memory) -> Self {
        WordFault::Memory
    }
}

/// The words behind the program's name, in their order. `NotText` comes where one of them isn't UTF-8. The system's words
/// have no definition, so no clause says which they are.
pub fn words_of(rt: &(impl Env + AllocGlobal)) -> Result<Vec<Text>, WordFault> {
    let mut args = match env::args(rt) {
        Ok(args) => args,
        Err(fault) if fault.kind() == ErrorKind::OutOfMemory => return Err(WordFault::Memory),
        Err(_) => return Err(WordFault::NotText),
    };
    let _ = args.next();
    let mut words = Vec::new(rt.alloc());
    for word in args {
        let word = Text::from_str(rt.alloc(), word.as_str())?;
        if words.push(word).is_err() {
            return Err(WordFault::Memory);
        }
    }
    Ok(words)
}
