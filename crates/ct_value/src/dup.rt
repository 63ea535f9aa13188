ghost use Rattle.std.specs.Prelude.{◌≡◌, IfOk};

use crate::{ColTy, Memory, Text, Value};

/// A value of which a second, equal one can be made.
pub trait Dup: Drop {
    /// An equal value.
    fn dup(&self) -> Result<Self, Memory>
        ensures { IfOk result (λ copy. copy ≡ self.now) };
}

impl Dup for u32 {
    fn dup(&self) -> Result<u32, Memory> {
        Ok(*self)
    }
}

impl Dup for u64 {
    fn dup(&self) -> Result<u64, Memory> {
        Ok(*self)
    }
}

impl Dup for ColTy {
    fn dup(&self) -> Result<ColTy, Memory> {
        Ok(*self)
    }
}

impl Dup for Text {
    fn dup(&self) -> Result<Text, Memory> {
        Text::dup(self)
    }
}

impl Dup for Value {
    fn dup(&self) -> Result<Value, Memory> {
        Value::dup(self)
    }
}
