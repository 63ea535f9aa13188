//! What answers hold. The function stands for a theorem, which is its contract.
ghost use Rattle.std.specs.Prelude.{◌≡◌, List, Some};
ghost use Rattle.ct_value.specs.declared.ty.ColTy.{ColTy};
ghost use Rattle.ct_change.specs.Changelog.{Rows};
ghost use Rattle.rel_algebra.specs.Clauses.{Fits};
ghost use Rattle.rel_algebra.specs.Sums.{Each};
ghost use Rattle.rel_algebra.specs.Answer.{Table, AreTyped, answer, types_in};
ghost use Rattle.rel_algebra.specs.Rel.{Rel};
ghost use Rattle.rel_algebra.specs.Types.{columns_of};

/// The rows of the answer of a well-typed tree have the tree's columns, where the rows of the tables have theirs: each value is of
/// its column's type, and NULL stands only where it may.
pub fn answers_fit()
    ensures { (tables : List Table) → AreTyped tables → (rel : Rel) (columns : List ColTy) (rows : Rows) → columns_of (types_in tables) rel ≡ Some columns → answer tables rel ≡ Some rows → Each (Fits columns) rows }
{}
