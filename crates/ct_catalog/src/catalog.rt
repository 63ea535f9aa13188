//! The catalogue, statement by statement.
ghost use Rattle.std.specs.Prelude.{◌≡◌, Ok, Err, OnOk, OnErr, IsErrOf};
ghost use Rattle.ct_value.specs.declared.codes.ScriptCode.{ScriptCode};
ghost use Rattle.sql_syntax.specs.View.{statement_view};
ghost use Rattle.ct_catalog.specs.Catalogue.{empty, applied, created, changed, IsDeclaration};
ghost use Rattle.ct_catalog.specs.declared.catalog.CatalogFault.TheVariants.{Refused, Memory as OutOfMemory};

use crate::create::{column_names, create_refusal, keys, table_of};
use crate::{Settings, Sources};
use ct_value::{Memory, ScriptCode, Text};
use sql_syntax::{Element, Statement, TextPair};
use std::alloc::Global;
use std::marker::Model;

/// Why a statement isn't applied.
#[derive(Clone, Copy, Debug, PartialEq, Eq)]
pub enum CatalogFault {
    Refused(ScriptCode),
    Memory,
}

impl From<Memory> for CatalogFault {
    ghost from_gives = { λ _ fault. fault ≡ OutOfMemory };

    fn from(_: Memory) -> Self {
        CatalogFault::Memory
    }
}

/// The declared tables in their order, and the settings.
#[derive(Drop)]
pub struct Catalog {
    alloc: Global,
    tables: Sources,
    settings: Settings,
}

impl Model for Catalog {
    ghost use Rattle.ct_catalog.specs.Catalogue.{Catalogue};

    ghost Value = { Catalogue };

    ghost view = { λ c. record { tables = c.tables; settings = c.settings } };
}

impl Catalog {
    /// No table, and the settings that hold where nothing is set. It takes no memory.
    pub fn empty(alloc: Global) -> Catalog
        ensures { result ≡ empty }
    {
        Catalog {
            alloc,
            tables: Sources::new(alloc),
            settings: Settings::defaults(),
        }
    }

    /// The tables.
    pub fn tables(&self) -> &Sources
        ensures { result.now ≡ self.now.tables }
    {
        &self.tables
    }

    /// The settings.
    pub fn settings(&self) -> &Settings
        ensures { result.now ≡ self.now.settings }
    {
        &self.settings
    }

    /// Declares the table of a CREATE TABLE behind the others, or sets what a SET sets. After an error the
    /// catalogue is as before.
    pub fn apply(&mut self, statement: &Statement) -> Result<(), CatalogFault>
        requires { IsDeclaration (statement_view statement.now) }
        ensures ok { OnOk result (applied self.old (statement_view statement.now) ≡ Ok self.new) }
        ensures refused { (code : ScriptCode) → IsErrOf result (Refused code) → applied self.old (statement_view statement.now) ≡ Err code }
        ensures same { OnErr result (self.new ≡ self.old) }
    {
        match statement {
            Statement::Create {
                name,
                elements,
                options,
            } => self.create(name, elements.as_slice(), options.as_slice()),
            Statement::Set { key, value } => self.set(key, value),
            Statement::Insert { .. } => unreachable!(),
        }
    }

    #[tactic(auto, using(crate::proofs::laws::Refusals::few_columns))]
    fn create(
        &mut self,
        name: &Text,
        elements: &[Element],
        options: &[TextPair],
    ) -> Result<(), CatalogFault>
        ensures ok { OnOk result (created self.old name.now elements.now options.now ≡ Ok self.new) }
        ensures refused { (code : ScriptCode) → IsErrOf result (Refused code) → created self.old name.now elements.now options.now ≡ Err code }
        ensures same { OnErr result (self.new ≡ self.old) }
    {
        let names = column_names(self.alloc, elements)?;
        let key_lists = keys(self.alloc, elements)?;
        let refusal = create_refusal(
            self.alloc,
            self.tables.as_slice(),
            name,
            elements,
            options,
            names.as_slice(),
            key_lists.as_slice(),
        )?;
        if let Some(code) = refusal {
            return Err(CatalogFault::Refused(code));
        }
        let table = table_of(
            self.alloc,
            name,
            elements,
            options,
            names.as_slice(),
            key_lists.as_slice(),
        )?;
        self.tables.push(table)?;
        Ok(())
    }

    fn set(&mut self, key: &Text, value: &Text) -> Result<(), CatalogFault>
        ensures ok { OnOk result (changed self.old key.now value.now ≡ Ok self.new) }
        ensures refused { (code : ScriptCode) → IsErrOf result (Refused code) → changed self.old key.now value.now ≡ Err code }
        ensures same { OnErr result (self.new ≡ self.old) }
    {
        match self.settings.set(key, value) {
            Ok(settings) => {
                self.settings = settings;
                Ok(())
            }
            Err(code) => Err(CatalogFault::Refused(code)),
        }
    }
}
