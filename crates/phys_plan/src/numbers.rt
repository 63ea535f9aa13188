ghost use Rattle.std.specs.Prelude.{◌≡◌, option_copied};
ghost use Rattle.phys_plan.specs.Reading as r;

/// The item of a number, counted from 1. It takes no memory.
pub fn numbered<T>(items: &[T], number: u32) -> Option<&T>
    ensures { option_copied result ≡ r.numbered items.now number }
{
    if number == 0 {
        return None;
    }
    items.get(number as usize - 1)
}
