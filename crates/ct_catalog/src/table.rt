ghost use Rattle.std.specs.Prelude.{◌≡◌, map, IfOk};

use ct_change::Declared;
use ct_value::{ColTy, ColTys, Cols, Dup, List, Memory, Text};

/// A column of a table.
#[derive(Debug, Drop)]
pub struct ColDef {
    pub name: Text,
    pub ty: ColTy,
}

impl ColDef {
    /// An equal column.
    pub fn dup(&self) -> Result<ColDef, Memory>
        ensures { IfOk result (λ copy. copy ≡ self.now) }
    {
        Ok(ColDef {
            name: self.name.dup()?,
            ty: self.ty,
        })
    }
}

impl Dup for ColDef {
    fn dup(&self) -> Result<ColDef, Memory> {
        ColDef::dup(self)
    }
}

/// A declared table. The key's columns are places, counted from 0, in their order.
#[derive(Debug, Drop)]
pub struct TableDef {
    pub name: Text,
    pub cols: ColDefs,
    pub key: Option<Cols>,
    pub mode: Declared,
}

impl TableDef {
    /// An equal table.
    pub fn dup(&self) -> Result<TableDef, Memory>
        ensures { IfOk result (λ copy. copy ≡ self.now) }
    {
        let key = match &self.key {
            Some(key) => Some(key.dup()?),
            None => None,
        };
        Ok(TableDef {
            name: self.name.dup()?,
            cols: self.cols.dup()?,
            key,
            mode: self.mode,
        })
    }

    /// The types of its columns.
    pub fn types(&self) -> Result<ColTys, Memory>
        ensures { IfOk result (λ types. types ≡ map (λ c. c.ty) self.now.cols) }
    {
        let mut types = self.cols.beside();
        for column in self.cols.as_slice() {
            types.push(column.ty)?;
        }
        Ok(types)
    }
}

impl Dup for TableDef {
    fn dup(&self) -> Result<TableDef, Memory> {
        TableDef::dup(self)
    }
}

/// Columns, the first one first.
pub type ColDefs = List<ColDef>;

/// Tables in the order in which they were declared.
pub type Sources = List<TableDef>;
