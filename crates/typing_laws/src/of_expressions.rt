//! What expressions are at a row. The function stands for a theorem, which is its contract.
ghost use Rattle.std.specs.Prelude.{◌≡◌, true, List, Some};
ghost use Rattle.ct_value.specs.declared.ty.ColTy.{ColTy};
ghost use Rattle.ct_value.specs.declared.value.Value.{Value};
ghost use Rattle.ct_field.specs.Typed.{row_fits};
ghost use Rattle.ct_expr.specs.Expr.{Expr};
ghost use Rattle.ct_expr.specs.Eval.{eval};
ghost use Rattle.ct_expr.specs.Types.{type_of};
ghost use Rattle.typing_laws.specs.Meaning.{IsOf};

/// An expression that has a type over the columns of a row is there a value of its column, or out of range: one of its type, and
/// NULL only where its type says that NULL may come.
pub fn values_are_of_their_column()
    ensures { (columns : List ColTy) (row : List Value) → row_fits columns row ≡ true → (expr : Expr) (column : ColTy) → type_of expr columns ≡ Some column → IsOf column (eval expr row) }
{}
