ghost use Rattle.std.specs.Prelude.{◌≡◌, ◌<◌};
ghost use Rattle.route.specs.Routing.{subtask_of};

/// The subtask of a text, among `parallelism` subtasks, one at least. Rows with one key text are of one subtask. It takes
/// no memory.
pub fn subtask_of(text: &[u8], parallelism: u32) -> u32
    requires { 0 < parallelism }
    ensures { result ≡ subtask_of parallelism text.now }
{
    let mut hash: u64 = 0;
    for byte in text {
        hash = hash.wrapping_mul(31).wrapping_add(u64::from(*byte));
    }
    (hash % u64::from(parallelism)) as u32
}
