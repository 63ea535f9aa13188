//! The function stands for theorems, which are its contract.
ghost use Rattle.job_text.specs.Told.{BytesTellItems, LinesTellItems};

/// Each printed item has one line, no item's line is another's, and none begins another's: so bytes are the lines of one list of items at
/// most. Where all sources have one change file, quiet moments after as many changes in all count as one item.
pub fn lines_tell_items()
    ensures one { LinesTellItems }
    ensures all { BytesTellItems }
{}
