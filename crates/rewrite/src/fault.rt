/// Why a bound query has no tree of the algebra.
#[derive(Clone, Copy, Debug, PartialEq, Eq)]
pub enum RewriteFault {
    /// A rank of it has no bound.
    Unbounded,
    Memory,
}
