//! Set operations: the column of two inputs, and how many copies of a row they leave.
ghost use Rattle.std.specs.Prelude.{◌≡◌};
ghost use Rattle.rel_algebra.specs.Sets as s;

use ct_expr::common_ty;
use ct_value::ColTy;

/// How the rows of two inputs become those of one.
#[derive(Clone, Copy)]
pub enum SetKind {
    Union,
    Except,
    Intersect,
}

/// EXCEPT, or else INTERSECT.
pub fn set_kind(except: bool) -> SetKind
    ensures { result ≡ s.set_kind except }
{
    if except {
        SetKind::Except
    } else {
        SetKind::Intersect
    }
}

/// The column of two inputs, or `None` where they have no common type. NULL may stand in it where it may in a row that is left.
pub fn set_column(kind: SetKind, left: ColTy, right: ColTy) -> Option<ColTy>
    ensures { result ≡ s.set_column kind left right }
{
    let ty = common_ty(left.ty, right.ty)?;
    Some(ColTy {
        ty,
        nullable: set_nullable(kind, left, right),
    })
}

fn set_nullable(kind: SetKind, left: ColTy, right: ColTy) -> bool
    ensures { result ≡ s.set_nullable kind left right }
{
    match kind {
        SetKind::Union => left.nullable || right.nullable,
        SetKind::Except => left.nullable,
        SetKind::Intersect => left.nullable && right.nullable,
    }
}

/// How many copies EXCEPT, or else INTERSECT, leaves of a row of which the left has `left` and the right `right`; without `all` each
/// row of the left counts once.
pub fn set_copies(except: bool, all: bool, left: u64, right: u64) -> u64
    ensures { result ≡ s.set_copies (s.set_form except all) left right }
{
    let counted = if all { left } else { left.min(1) };
    if except {
        counted.saturating_sub(right)
    } else {
        counted.min(right)
    }
}
