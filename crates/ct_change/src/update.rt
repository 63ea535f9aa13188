use ct_value::Cols;

/// How an edge tells that a row was replaced: not at all, by the new row alone where the rows are keyed by these columns, or
/// by the old row and the new one.
#[derive(Debug, Drop)]
pub enum Update {
    Absent,
    After(Cols),
    Both,
}
