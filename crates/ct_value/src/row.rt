ghost use Rattle.std.specs.Prelude.{◌≡◌, ◌==◌, ◌<◌, [], ◌∷◌, ◌++◌, Some, All, length, take, slice_get, option_copied, OnOk, OnErr, IfOk};
ghost use Rattle.std.specs.Ordering.{eq_by_cmp};
ghost use Rattle.std.specs.Cmp.{eq_by_cmp_equiv, partial_equiv_from_equiv, po};
ghost use Rattle.std.proofs.Common.{refl};

use crate::abbreviation::abbreviation_of;
use crate::each::compare_each;
use crate::{List, Memory, Value};
use std::cmp::Ordering;
use std::hash::{Hash, Hasher};
use std::marker::Model;
use std::mem::replace;

/// Column positions, counted from 0.
pub type Cols = List<u32>;

/// Numbers in a list, such as those of a plan's nodes.
pub type Numbers = List<u32>;

/// The values of a row, column by column.
pub type Values = List<Value>;

/// A row of a table: one value for each column.
#[derive(Debug, Drop)]
pub struct Row {
    values: Values,
    // By it most rows are told apart with no look at their values.
    abbreviation: u64,
}

impl Model for Row {
    ghost use Rattle.std.specs.Prelude.{◌≡◌, List};
    ghost use Rattle.ct_value.specs.declared.value.Value.{Value as Cell};
    ghost use Rattle.ct_value.specs.Abbreviations.{row_abbreviation};

    ghost Value = { List Cell };

    ghost view = { λ r. r.values };

    ghost invariant = { λ r. r.abbreviation ≡ row_abbreviation r.values };
}

impl Row {
    ghost use Rattle.ct_value.specs.Order.{row_cmp};
    ghost use Rattle.ct_value.specs.Rows.{project};

    /// The row of these values. It takes no memory.
    pub fn from_values(values: Values) -> Row
        ensures { result ≡ values }
    {
        let abbreviation = abbreviation_of(values.as_slice());
        Row {
            values,
            abbreviation,
        }
    }

    /// How many values it has.
    pub fn len(&self) -> usize
        ensures { result ≡ length self.now }
    {
        self.values.len()
    }

    /// Whether it has no values.
    pub fn is_empty(&self) -> bool
        ensures { result ≡ (length self.now == 0) }
    {
        self.values.is_empty()
    }

    /// The value of a column, counted from 0, and `None` exactly past the end.
    pub fn get(&self, column: usize) -> Option<&Value>
        ensures { option_copied result ≡ slice_get self.now column }
    {
        self.values.get(column)
    }

    /// The values, column by column.
    pub fn as_slice(&self) -> &[Value]
        ensures { result.now ≡ self.now }
    {
        self.values.as_slice()
    }

    /// An equal row.
    pub fn dup(&self) -> Result<Row, Memory>
        ensures { IfOk result (λ copy. copy ≡ self.now) }
    {
        Ok(Row {
            values: self.values.dup()?,
            abbreviation: self.abbreviation,
        })
    }

    /// The values of these columns, in that order.
    pub fn project(&self, cols: &Cols) -> Result<Row, Memory>
        requires { All (λ col. col < length self.now) cols.now }
        ensures { IfOk result (λ row. row ≡ project cols.now self.now) }
    {
        let cells = self.values.as_slice();
        let mut values = Vec::with_capacity(self.values.alloc(), cols.len())?;
        for col in cols.as_slice() {
            let value = cells[*col as usize].dup()?;
            values.push_reserved(value);
        }
        Ok(Row::from_values(Values::from_vec(values)))
    }

    /// The first values, `count` of them, or all where there are fewer.
    pub fn prefix(&self, count: u32) -> Result<Row, Memory>
        ensures { IfOk result (λ row. row ≡ take count self.now) }
    {
        let end = count as usize;
        if self.values.len() <= end {
            // All values, and so the same abbreviation.
            return self.dup();
        }
        let mut values = Vec::with_capacity(self.values.alloc(), end)?;
        for value in &self.values.as_slice()[..end] {
            let copy = value.dup()?;
            values.push_reserved(copy);
        }
        Ok(Row::from_values(Values::from_vec(values)))
    }

    /// Makes `to` the first values, `count` of them, or all where there are fewer, in the memory that it has where that is enough. For
    /// want of memory it is left without values.
    pub fn prefix_into(&self, count: u32, to: &mut Row) -> Result<(), Memory>
        ensures ok { OnOk result (to.new ≡ take count self.now) }
        ensures err { OnErr result (to.new ≡ []) }
    {
        let nothing = Row::from_values(self.values.beside());
        let room = replace(to, nothing);
        let end = count as usize;
        if self.values.len() <= end {
            // All values, and so the same abbreviation.
            *to = Row {
                values: refilled(room, self.values.as_slice())?,
                abbreviation: self.abbreviation,
            };
            return Ok(());
        }
        *to = Row::from_values(refilled(room, &self.values.as_slice()[..end])?);
        Ok(())
    }

    /// Makes `to` the values of these columns, in that order, in the memory that it has where that is enough. For want of memory it is
    /// left without values.
    pub fn project_into(&self, cols: &Cols, to: &mut Row) -> Result<(), Memory>
        requires { All (λ col. col < length self.now) cols.now }
        ensures ok { OnOk result (to.new ≡ project cols.now self.now) }
        ensures err { OnErr result (to.new ≡ []) }
    {
        let nothing = Row::from_values(self.values.beside());
        let Row { mut values, .. } = replace(to, nothing);
        let cells = self.values.as_slice();
        values.truncate(0);
        for col in cols.as_slice() {
            values.push(cells[*col as usize].dup()?)?;
        }
        *to = Row::from_values(values);
        Ok(())
    }

    /// The row cut to its first values, `count` of them, or all where there are fewer. It takes no memory.
    pub fn into_prefix(self, count: u32) -> Row
        ensures { result ≡ take count self }
    {
        let Row { mut values, .. } = self;
        values.truncate(count as usize);
        Row::from_values(values)
    }

    /// The row with one more value behind the others.
    pub fn with(self, value: Value) -> Result<Row, Memory>
        ensures { IfOk result (λ row. row ≡ self ++ value ∷ []) }
    {
        let Row { mut values, .. } = self;
        values.push(value)?;
        Ok(Row::from_values(values))
    }

    /// The order of rows: value by value, and a row that begins a longer one before it. NULL stands before
    /// FALSE, FALSE before TRUE, these before numbers by value, numbers before texts by their bytes.
    pub fn compare(&self, other: &Row) -> Ordering
        ensures { result ≡ row_cmp self.now other.now }
    {
        if self.abbreviation < other.abbreviation {
            return Ordering::Less;
        }
        if other.abbreviation < self.abbreviation {
            return Ordering::Greater;
        }
        compare_each(self.values.as_slice(), other.values.as_slice())
    }
}

// Copies of these values, in the memory of a row where that is enough.
fn refilled(room: Row, from: &[Value]) -> Result<Values, Memory>
    ensures { IfOk result (λ values. values ≡ from.now) }
{
    let Row { mut values, .. } = room;
    values.truncate(0);
    for value in from {
        values.push(value.dup()?)?;
    }
    Ok(values)
}

impl PartialEq for Row {
    ghost use Rattle.ct_value.specs.Order.{row_cmp, row_total};

    ghost eq = { eq_by_cmp row_cmp };

    ghost laws = { partial_equiv_from_equiv (eq_by_cmp_equiv row_total) };

    fn eq(&self, other: &Row) -> bool {
        self.compare(other).is_eq()
    }
}

impl Eq for Row {
    ghost use Rattle.ct_value.specs.Order.{row_total};

    ghost laws = { eq_by_cmp_equiv row_total };
}

impl PartialOrd for Row {
    ghost use Rattle.ct_value.specs.Order.{row_cmp, row_total};

    ghost partial_cmp = { λ a b. Some (row_cmp a b) };

    ghost laws = { po row_total (λ a b. refl) };

    fn partial_cmp(&self, other: &Row) -> Option<Ordering> {
        Some(self.compare(other))
    }
}

impl Ord for Row {
    ghost use Rattle.ct_value.specs.Order.{row_cmp, row_total};

    ghost cmp = { row_cmp };

    ghost total = { row_total };

    ghost matches_partial_cmp = { λ a b. refl };

    ghost matches_eq = { λ a b. refl };

    fn cmp(&self, other: &Row) -> Ordering {
        self.compare(other)
    }
}

impl Hash for Row {
    ghost use Rattle.ct_value.specs.Hashed.{row_input, row_fed};

    ghost hash_input = { row_input };

    ghost respects_eq = { row_fed };

    fn hash<H: Hasher>(&self, state: &mut H) {
        self.values.as_slice().hash(state);
    }
}
