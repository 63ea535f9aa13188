ghost use Rattle.std.specs.Prelude.{◌≡◌, ◌<◌, ◌^◌, length};

use ct_change::Changes;

/// A subtask of a node with ports: its operator, and the changes that its bundle holds, in order of arrival; none where the node
/// keeps no bundles.
#[derive(Drop)]
pub struct Subtask<O> {
    pub operator: O,
    pub held: Changes,
    ghost short: { length held < 2 ^ 32 },
}

impl<O> Subtask<O> {
    /// How many changes the bundle holds.
    pub fn held(&self) -> u32
        ensures { result ≡ length self.now.held }
    {
        self.held.len() as u32
    }
}
