// A shelf over the files of the system.
ghost use Rattle.std.specs.Prelude.{◌≡◌, ◌≤◌, None, length, IfOk};

use ct_io::{LoadFault, Shelf};
use ct_value::{Bytes, Text};
use std::alloc::Global;
use std::fs;
use std::io::Read;
use std::rt::Files;

// How many bytes are read at a time.
const PIECE: usize = 65536;

/// The files of the system, whose names are paths. It doesn't tell what they hold.
#[derive(Drop)]
pub struct FileShelf<'r, R> {
    rt: &'r R,
    faults: u64,
}

impl<'r, R: Files> FileShelf<'r, R> {
    /// The files that a runtime reaches. No load has failed yet.
    pub fn new(rt: &'r R) -> Self
        ensures { result.faults ≡ 0 }
    {
        FileShelf { rt, faults: 0 }
    }
}

impl<'r, R: Files> Shelf for FileShelf<'r, R> {
    ghost holdings = { λ _. None };

    ghost faults = { λ s. s.faults };

    fn load(&mut self, alloc: Global, name: &Text, limit: u64) -> Result<Bytes, LoadFault> {
        let loaded = read_file(self.rt, alloc, name, limit);
        if matches!(&loaded, Err(LoadFault::Failed)) {
            self.faults = self.faults.saturating_add(1);
        }
        loaded
    }
}

fn read_file<R: Files>(rt: &R, alloc: Global, name: &Text, limit: u64) -> Result<Bytes, LoadFault>
    ensures { IfOk result (λ bytes. length bytes ≤ limit) }
{
    let Ok(mut file) = fs::open(rt, name.as_str()) else {
        return Err(LoadFault::Failed);
    };
    read_within(alloc, &mut file, limit)
}

// All the bytes of a reader, where they are at most `limit`.
fn read_within<S: Read>(alloc: Global, source: &mut S, limit: u64) -> Result<Bytes, LoadFault>
    ensures { IfOk result (λ bytes. length bytes ≤ limit) }
{
    let mut bytes = Vec::new(alloc);
    let mut piece = [0u8; PIECE];
    'reads: while bytes.len() as u64 <= limit {
        let Ok(count) = source.read(&mut piece) else {
            return Err(LoadFault::Failed);
        };
        if count == 0 {
            return Ok(Bytes::from_vec(bytes));
        }
        if bytes.extend_from_slice(&piece[..count]).is_err() {
            return Err(LoadFault::Memory);
        }
    }
    Err(LoadFault::TooLong)
}

#[cfg(test)]
mod tests {
    use super::*;
    use std::test::Fail;

    #[test]
    fn a_file_is_loaded_up_to_the_limit(rt: HostRuntime) -> Result<(), Fail> {
        let alloc = rt.alloc();
        fs::write(&rt, "held", "abc")?;
        let cases = [
            ("held", 3, None),
            ("held", 2, Some(LoadFault::TooLong)),
            ("absent", 3, Some(LoadFault::Failed)),
            // A folder is opened and can't be read.
            (".", 3, Some(LoadFault::Failed)),
        ];
        let mut shelf = FileShelf::new(&rt);
        for (name, limit, fault) in cases {
            let name = Text::from_str(alloc, name)?;
            match shelf.load(alloc, &name, limit) {
                Ok(bytes) => assert!(rt; bytes.is(b"abc") && fault.is_none()),
                Err(found) => assert_eq!(rt; Some(found), fault),
            }
        }
        assert_eq!(rt; shelf.faults, 2);
        fs::remove_file(&rt, "held")?;
        Ok(())
    }
}
