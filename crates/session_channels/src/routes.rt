ghost use Rattle.std.specs.Prelude.{◌≡◌, ◌==◌, ◌<◌, ◌≤◌, ℕ, length, IfOk};
ghost use Rattle.ct_value.specs.Rows.{project};
ghost use Rattle.op_rules.specs.Edges.{Edge, goes};
ghost use Rattle.route.specs.Routing.{route_of, types_at};
ghost use Rattle.stream_model.specs.Machine.{has_channel};
ghost use Rattle.session_channels.specs.Routes.{IsWide, RoutesFor};

use crate::{KeyRoute, Route};
use ct_value::{Memory, Row};
use route::{key_text, subtask_of};
use std::alloc::Global;

impl KeyRoute {
    /// The subtask of a row, among so many: that of its key's text.
    pub fn subtask(&self, alloc: Global, parallelism: u32, row: &Row) -> Result<u32, Memory>
        requires some { 0 < parallelism }
        requires wide { length self.now.types ≤ length row.now }
        ensures value { IfOk result (λ to. to ≡ route_of parallelism (types_at self.now.columns self.now.types) (project self.now.columns row.now)) }
        ensures within { IfOk result (λ to. to < parallelism) }
    {
        if parallelism == 1 {
            return Ok(0);
        }
        let text = key_text(alloc, row, &self.columns, &self.types)?;
        Ok(subtask_of(text.as_slice(), parallelism))
    }
}

impl Route {
    /// Whether there is a channel from one subtask to the other.
    pub fn joins(&self, from: u32, to: u32) -> bool
        ensures { (many : ℕ) (edge : Edge) → RoutesFor many self.now edge → result ≡ has_channel edge.exchange from to }
    {
        match self {
            Route::Forward => from == to,
            Route::Hash(_) => true,
        }
    }
}

/// The subtask that a subtask's change goes to.
pub fn goes_to(
    alloc: Global,
    route: &Route,
    parallelism: u32,
    from: u32,
    row: &Row,
) -> Result<u32, Memory>
    requires from { from < parallelism }
    requires wide { IsWide route.now row.now }
    ensures value { IfOk result (λ to. (edge : Edge) → RoutesFor parallelism route.now edge → (j : ℕ) → goes edge from j row.now ≡ (to == j)) }
    ensures within { IfOk result (λ to. to < parallelism) }
{
    match route {
        Route::Forward => Ok(from),
        Route::Hash(key) => key.subtask(alloc, parallelism, row),
    }
}
