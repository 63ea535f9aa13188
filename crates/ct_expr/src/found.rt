//! Meanings of expressions at a row: a value that is lent by the row or by a literal, or one that was made.
ghost use Rattle.std.specs.Prelude.{◌≡◌, IfOk};
ghost use Rattle.ct_expr.specs.Types.{both_of};
ghost use Rattle.ct_expr.specs.Found.{held, meaning, both_held, pair_of};
ghost use Rattle.ct_expr.specs.Values.{negation, null_test, minus, arithmetic, comparison, null_if, concatenation, char_length, conversion, likeness};

use crate::ArithOp;
use crate::cast::cast_of;
use crate::like::like_of;
use crate::values::{
    arith_of, char_length_of, compare_of, concat_of, is_null, is_true, minus_of, not_of,
};
use ct_value::{CompareOp, Memory, Ty, Value};
use std::alloc::Global;

#[derive(Drop)]
pub(crate) enum Found<'a> {
    Lent(&'a Value),
    Made(Value),
}

// None where an expression is out of range.
pub(crate) type Meaning<'a> = Option<Found<'a>>;

// A meaning with the type that its expression says of itself.
#[derive(Drop)]
pub(crate) struct Typed<'a> {
    pub(crate) ty: Ty,
    pub(crate) value: Meaning<'a>,
}

// What a CASE comes to by its branches.
#[derive(Drop)]
pub(crate) enum Choice<'a> {
    Chosen(Meaning<'a>),
    Otherwise,
}

impl<'a> Found<'a> {
    pub(crate) fn as_value(&self) -> &Value
        ensures { result.now ≡ held self.now }
    {
        match self {
            Found::Lent(value) => value,
            Found::Made(value) => value,
        }
    }

    pub(crate) fn into_value(self) -> Result<Value, Memory>
        ensures { IfOk result (λ value. value ≡ held self.entry) }
    {
        match self {
            Found::Lent(value) => Ok(value.dup()?),
            Found::Made(value) => Ok(value),
        }
    }
}

pub(crate) fn negation<'a>(value: Meaning<'a>) -> Meaning<'a>
    ensures { meaning result ≡ negation (meaning value.entry) }
{
    Some(Found::Made(not_of(value?.as_value())))
}

pub(crate) fn null_test<'a>(value: Meaning<'a>) -> Meaning<'a>
    ensures { meaning result ≡ null_test (meaning value.entry) }
{
    Some(Found::Made(Value::Bool(is_null(value?.as_value()))))
}

pub(crate) fn minus<'a>(ty: Ty, value: Meaning<'a>) -> Meaning<'a>
    ensures { meaning result ≡ minus ty (meaning value.entry) }
{
    Some(Found::Made(minus_of(ty, value?.as_value())?))
}

pub(crate) fn char_length<'a>(value: Meaning<'a>) -> Meaning<'a>
    ensures { meaning result ≡ char_length (meaning value.entry) }
{
    Some(Found::Made(char_length_of(value?.as_value())?))
}

pub(crate) fn arithmetic<'a>(
    op: ArithOp,
    left_ty: Ty,
    right_ty: Ty,
    left: Meaning<'a>,
    right: Meaning<'a>,
) -> Meaning<'a>
    ensures { meaning result ≡ arithmetic op left_ty right_ty (meaning left.entry) (meaning right.entry) }
{
    let (left, right) = both(left, right)?;
    Some(Found::Made(arith_of(op, left_ty, right_ty, left.as_value(), right.as_value())?))
}

// A value that was made, where it is one.
fn made<'a>(value: Option<Value>) -> Meaning<'a>
    ensures { meaning result ≡ value }
{
    match value {
        None => None,
        Some(value) => Some(Found::Made(value)),
    }
}

// Both values, where both are.
fn both<'a>(left: Meaning<'a>, right: Meaning<'a>) -> Option<(Found<'a>, Found<'a>)>
    ensures { both_held result ≡ both_of pair_of (meaning left.entry) (meaning right.entry) }
{
    Some((left?, right?))
}

pub(crate) fn comparison<'a>(
    op: CompareOp,
    left_ty: Ty,
    right_ty: Ty,
    left: Meaning<'a>,
    right: Meaning<'a>,
) -> Meaning<'a>
    ensures { meaning result ≡ comparison op left_ty right_ty (meaning left.entry) (meaning right.entry) }
{
    let (left, right) = both(left, right)?;
    Some(Found::Made(compare_of(op, left_ty, right_ty, left.as_value(), right.as_value())))
}

pub(crate) fn null_if<'a>(
    left_ty: Ty,
    right_ty: Ty,
    left: Meaning<'a>,
    right: Meaning<'a>,
) -> Meaning<'a>
    ensures { meaning result ≡ null_if left_ty right_ty (meaning left.entry) (meaning right.entry) }
{
    let (left, right) = both(left, right)?;
    let equal = compare_of(
        CompareOp::Eq,
        left_ty,
        right_ty,
        left.as_value(),
        right.as_value(),
    );
    if is_true(&equal) {
        return Some(Found::Made(Value::Null));
    }
    Some(left)
}

pub(crate) fn concatenation<'a>(
    alloc: Global,
    left: Meaning<'a>,
    right: Meaning<'a>,
) -> Result<Meaning<'a>, Memory>
    ensures { IfOk result (λ m. meaning m ≡ concatenation (meaning left.entry) (meaning right.entry)) }
{
    match both(left, right) {
        None => Ok(None),
        Some((left, right)) => {
            let text = concat_of(alloc, left.as_value(), right.as_value())?;
            Ok(made(text))
        }
    }
}

pub(crate) fn likeness<'a>(
    alloc: Global,
    value: Meaning<'a>,
    pattern: Meaning<'a>,
) -> Result<Meaning<'a>, Memory>
    ensures { IfOk result (λ m. meaning m ≡ likeness (meaning value.entry) (meaning pattern.entry)) }
{
    match both(value, pattern) {
        None => Ok(None),
        Some((value, pattern)) => {
            let truth = like_of(alloc, value.as_value(), pattern.as_value())?;
            Ok(Some(Found::Made(truth)))
        }
    }
}

pub(crate) fn conversion<'a>(
    alloc: Global,
    from: Ty,
    to: Ty,
    value: Meaning<'a>,
) -> Result<Meaning<'a>, Memory>
    ensures { IfOk result (λ m. meaning m ≡ conversion from to (meaning value.entry)) }
{
    match value {
        None => Ok(None),
        Some(value) => {
            let value = cast_of(alloc, from, to, value.as_value())?;
            Ok(made(value))
        }
    }
}
