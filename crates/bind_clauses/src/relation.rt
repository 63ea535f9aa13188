use ct_value::Boxed;
use query_answer::Scope;
use rel_algebra::Rel;

/// A tree of the algebra, with the columns in reach over its rows.
#[derive(Drop)]
pub struct Relation {
    pub rel: Boxed<Rel>,
    pub scope: Scope,
}
