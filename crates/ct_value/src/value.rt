ghost use Rattle.std.specs.Prelude.{◌≡◌, Some, IfOk};
ghost use Rattle.std.specs.Ordering.{eq_by_cmp};
ghost use Rattle.std.specs.Cmp.{eq_by_cmp_equiv, partial_equiv_from_equiv, po};
ghost use Rattle.std.proofs.Common.{refl};

use crate::abbreviation::abbreviation_of;
use crate::{Memory, Text};
use std::cmp::Ordering;
use std::hash::{Hash, Hasher};
use std::slice::from_ref;

/// A value of a column. A number is unscaled: 12.50 of a type with two decimals is 1250.
#[derive(Debug, Drop)]
pub enum Value {
    Null,
    Bool(bool),
    Num(i128),
    Text(Text),
}

/// How two values are compared.
#[derive(Clone, Copy, Debug, PartialEq, Eq)]
pub enum CompareOp {
    Eq,
    Ne,
    Lt,
    Le,
    Gt,
    Ge,
}

impl Value {
    ghost use Rattle.ct_value.specs.Abbreviations.{value_abbreviation};
    ghost use Rattle.ct_value.specs.Order.{rank};

    /// An equal value.
    pub fn dup(&self) -> Result<Value, Memory>
        ensures { IfOk result (λ copy. copy ≡ self.now) }
    {
        match self {
            Value::Null => Ok(Value::Null),
            Value::Bool(truth) => Ok(Value::Bool(*truth)),
            Value::Num(number) => Ok(Value::Num(*number)),
            Value::Text(text) => Ok(Value::Text(text.dup()?)),
        }
    }

    /// A number by which most values are told apart with no look at the rest of them: of two values that differ in it the one with
    /// the less stands first (the abbreviated keys of sorts). It takes no memory.
    pub fn abbreviation(&self) -> u64
        ensures { result ≡ value_abbreviation self.now }
    {
        abbreviation_of(from_ref(self))
    }

    // The place in the order of NULL, FALSE, TRUE, all numbers and all texts.
    fn rank(&self) -> u8
        ensures { result ≡ rank self.now }
    {
        match self {
            Value::Null => 0,
            Value::Bool(false) => 1,
            Value::Bool(true) => 2,
            Value::Num(_) => 3,
            Value::Text(_) => 4,
        }
    }
}

impl PartialEq for Value {
    ghost use Rattle.ct_value.specs.Order.{value_cmp, value_total};

    ghost eq = { eq_by_cmp value_cmp };

    ghost laws = { partial_equiv_from_equiv (eq_by_cmp_equiv value_total) };

    fn eq(&self, other: &Value) -> bool {
        self.cmp(other).is_eq()
    }
}

impl Eq for Value {
    ghost use Rattle.ct_value.specs.Order.{value_total};

    ghost laws = { eq_by_cmp_equiv value_total };
}

impl PartialOrd for Value {
    ghost use Rattle.ct_value.specs.Order.{value_cmp, value_total};

    ghost partial_cmp = { λ a b. Some (value_cmp a b) };

    ghost laws = { po value_total (λ a b. refl) };

    fn partial_cmp(&self, other: &Value) -> Option<Ordering> {
        Some(self.cmp(other))
    }
}

impl Ord for Value {
    ghost use Rattle.ct_value.specs.Order.{value_cmp, value_total};

    ghost cmp = { value_cmp };

    ghost total = { value_total };

    ghost matches_partial_cmp = { λ a b. refl };

    ghost matches_eq = { λ a b. refl };

    fn cmp(&self, other: &Value) -> Ordering {
        match (self, other) {
            (Value::Num(number), Value::Num(other_number)) => number.cmp(other_number),
            (Value::Text(text), Value::Text(other_text)) => text.cmp(other_text),
            _ => self.rank().cmp(&other.rank()),
        }
    }
}

impl Hash for Value {
    ghost use Rattle.ct_value.specs.Hashed.{value_input, value_fed};

    ghost hash_input = { value_input };

    ghost respects_eq = { value_fed };

    fn hash<H: Hasher>(&self, state: &mut H) {
        state.write_u8(self.rank());
        match self {
            Value::Null | Value::Bool(_) => {}
            Value::Num(number) => number.hash(state),
            Value::Text(text) => text.as_str().hash(state),
        }
    }
}
