//! The change files of a job.
ghost use Rattle.std.specs.Prelude.{◌≡◌, ◌∷◌, [], None, IfOk};
ghost use Rattle.std.specs.List.{AllByRecursion};
ghost use Rattle.source_lines.specs.Supply.{AreWithin, IsWithin, all_unread, unread, unread_from};

use ct_value::{Bytes, List, Memory};
use job_text::ChangeLines;
use std::alloc::Global;

/// The bytes of a job's change files: of one file for all tables, whose lines name them, or of one for each source, in the sources' order.
#[derive(Drop)]
pub enum ChangeFiles {
    One(Bytes),
    Each(List<Bytes>),
}

/// The readers of change files, in the files' order. A file has at most 67,108,864 bytes.
pub fn read_files(alloc: Global, files: &ChangeFiles) -> Result<Vec<ChangeLines<'_>>, Memory>
    requires { AreWithin files.now }
    ensures { IfOk result (λ readers. readers.items ≡ all_unread files.now) }
{
    match files {
        ChangeFiles::One(bytes) => read_one(alloc, bytes),
        ChangeFiles::Each(files) => read_each(alloc, files.as_slice()),
    }
}

// The reader of the one file.
fn read_one(alloc: Global, bytes: &Bytes) -> Result<Vec<ChangeLines<'_>>, Memory>
    requires { IsWithin bytes.now }
    ensures { IfOk result (λ readers. readers.items ≡ unread None bytes.now ∷ []) }
{
    let mut readers = Vec::with_capacity(alloc, 1)?;
    readers.push(ChangeLines::new(alloc, bytes.as_slice(), None)?)?;
    Ok(readers)
}

// The reader of each source's file.
fn read_each(alloc: Global, files: &[Bytes]) -> Result<Vec<ChangeLines<'_>>, Memory>
    requires { AllByRecursion IsWithin files.now }
    ensures { IfOk result (λ readers. readers.items ≡ unread_from 0 files.now) }
{
    let mut readers = Vec::with_capacity(alloc, files.len())?;
    for bytes in files {
        let Ok(place) = u32::try_from(readers.len()) else {
            return Err(Memory);
        };
        readers.push(ChangeLines::new(alloc, bytes.as_slice(), Some(place))?)?;
    }
    Ok(readers)
}
