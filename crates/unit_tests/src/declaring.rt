// What scripts declare and set.
ghost use Rattle.sql_syntax.specs.View.{statement_view};
ghost use Rattle.ct_catalog.specs.Catalogue.{IsDeclaration};

use ct_catalog::{Catalog, CatalogFault, TableDef};
use ct_change::Declared;
use ct_value::{Bytes, ScriptCode};
use sql_parse::parse_script;
use sql_syntax::Statement;
use std::alloc::Global;
use std::test::Fail;

fn apply(catalog: &mut Catalog, statement: &Statement) -> Result<(), CatalogFault>
    requires { IsDeclaration (statement_view statement.now) }
{
    catalog.apply(statement)
}

// An INSERT declares nothing.
fn declare(catalog: &mut Catalog, statement: &Statement) -> Result<(), CatalogFault> {
    match statement {
        Statement::Create { .. } => apply(catalog, statement),
        Statement::Set { .. } => apply(catalog, statement),
        Statement::Insert { .. } => Ok(()),
    }
}

fn declare_all(catalog: &mut Catalog, statements: &[Statement]) -> Result<(), CatalogFault> {
    for statement in statements {
        declare(catalog, statement)?;
    }
    Ok(())
}

// Why the statements of a text are refused, if they are.
fn refusal(alloc: Global, catalog: &mut Catalog, text: &str) -> Option<CatalogFault> {
    let bytes = Bytes::from_slice(alloc, text.as_bytes()).ok()?;
    if bytes.len() > 1000 {
        return None;
    }
    let script = parse_script(alloc, &bytes).ok()?;
    declare_all(catalog, script.statements.as_slice()).err()
}

fn is_second(table: &TableDef) -> bool {
    table.name.is(b"u") && table.cols.len() == 2 && table.mode == Declared::Upsert
}

#[test]
fn tables_and_settings_are_kept(rt: HostRuntime) -> Result<(), Fail> {
    let alloc = rt.alloc();
    let mut catalog = Catalog::empty(alloc);
    let text =
        "CREATE TABLE t (a DECIMAL(5, 2)); SET 'table.exec.resource.default-parallelism' = '4';\
        CREATE TABLE u (a INT, b INT, PRIMARY KEY (b) NOT ENFORCED) WITH ('changelog' = 'upsert');";
    assert!(rt; refusal(alloc, &mut catalog, text).is_none());
    let again = refusal(alloc, &mut catalog, "CREATE TABLE t (b INT);");
    assert!(rt;
        matches!(
            again,
            Some(CatalogFault::Refused(ScriptCode::DuplicateName))
        )
    );
    let copies = catalog.tables().dup()?;
    assert_eq!(rt; copies.len(), 2);
    assert!(rt; copies.get(1).is_some_and(|table| is_second(table)));
    for table in copies.as_slice() {
        assert_eq!(rt; table.types()?.len(), table.dup()?.cols.len());
    }
    assert_eq!(rt; catalog.settings().parallelism, 4);
    Ok(())
}
