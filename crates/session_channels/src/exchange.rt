ghost use Rattle.std.specs.Prelude.{◌<◌, All, IsTrue, length};
ghost use Rattle.ct_field.specs.Numbers.{is_type};

use ct_value::{ColTys, Cols};

/// The columns by whose values rows are spread over subtasks, and the types of the first columns of the rows, all of these among them.
#[derive(Drop)]
pub struct KeyRoute {
    pub columns: Cols,
    pub types: ColTys,
    ghost within: { All (λ column. column < length types) columns },
    ghost typed: { All (λ column. IsTrue (is_type column.ty)) types },
}

/// Which subtask of its consumer an edge sends a change to: the one of the same number, or that of the row's values.
#[derive(Drop)]
pub enum Route {
    Forward,
    Hash(KeyRoute),
}
