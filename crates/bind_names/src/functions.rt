//! The names of functions.
ghost use Rattle.std.specs.Prelude.{◌≡◌, drop};
ghost use Rattle.std.specs.Str.{str_eq_ignore_ascii_case};
ghost use Rattle.query_answer.specs.Functions.{function_in, function_of, functions, is_changing};

use ct_value::Text;
use query_answer::Function;
use rel_algebra::AggCall;

/// What a function's name means, read in any case of letters.
#[tactic(auto, unfolding(query_answer::specs::Functions::function_of))]
pub fn function_of(name: &Text) -> Function
    ensures { result ≡ function_of name.now }
{
    if is_word(b"COUNT", name) {
        return Function::Aggregate(AggCall::Count);
    }
    if is_word(b"SUM", name) {
        return Function::Aggregate(AggCall::Sum);
    }
    if is_word(b"MIN", name) {
        return Function::Aggregate(AggCall::Min);
    }
    if is_word(b"MAX", name) {
        return Function::Aggregate(AggCall::Max);
    }
    if is_word(b"AVG", name) {
        return Function::Aggregate(AggCall::Avg);
    }
    if is_word(b"COALESCE", name) {
        return Function::Coalesce;
    }
    if is_word(b"NULLIF", name) {
        return Function::NullIf;
    }
    if is_word(b"CHAR_LENGTH", name) {
        return Function::CharLength;
    }
    if is_word(b"ROW_NUMBER", name) {
        return Function::RowNumber;
    }
    changing_of(name)
}

// One of the functions whose answers change, or none that is known.
#[tactic(auto, unfolding(query_answer::specs::Functions::function_of))]
fn changing_of(name: &Text) -> Function
    ensures { result ≡ function_in (drop 9 functions) name.now }
{
    if is_word(b"RAND", name) || is_word(b"RAND_INTEGER", name) {
        return Function::Changing;
    }
    if is_word(b"UUID", name) || is_word(b"NOW", name) {
        return Function::Changing;
    }
    if is_word(b"CURRENT_TIMESTAMP", name) || is_word(b"CURRENT_DATE", name) {
        return Function::Changing;
    }
    if is_word(b"CURRENT_TIME", name) || is_word(b"LOCALTIME", name) {
        return Function::Changing;
    }
    if is_word(b"LOCALTIMESTAMP", name) || is_word(b"PROCTIME", name) {
        return Function::Changing;
    }
    Function::Unknown
}

/// Whether a function's answer changes from call to call.
pub fn is_changing(function: Function) -> bool
    ensures { result ≡ is_changing function }
{
    matches!(function, Function::Changing)
}

// Whether a name is a word in any case of letters.
fn is_word(word: &[u8], name: &Text) -> bool
    ensures { result ≡ str_eq_ignore_ascii_case word.now name.now }
{
    word.eq_ignore_ascii_case(name.as_slice())
}
