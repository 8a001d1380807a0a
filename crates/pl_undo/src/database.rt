//! The objects and the tables, which change and go back together.

ghost use Rattle.std.specs.Prelude.{◌≡◌, ◌≤◌, ◌++◌, ◌∷◌, [], ℕ, None, IsSome, length};
ghost use Rattle.std.specs.Prelude.{IfOk, OnOk, OnErr};
ghost use Rattle.std.specs.Option.{option_copied};
ghost use Rattle.pl_catalog.specs.Objects.{table_named, tables_in, which_of};
ghost use Rattle.pl_catalog.specs.Refusals.{Answers, add_refusal, drop_refusal};
ghost use Rattle.pl_tables.specs.Named.{content_named};
ghost use Rattle.pl_undo.specs.Contents.{rules_in, with_content_of};
ghost use Rattle.pl_undo.specs.Database.{database, key_columns, keys_in, with_object};
ghost use Rattle.pl_undo.specs.Database.{without_content, without_object, IsWhole};
ghost use Rattle.pl_undo.specs.Store.{objects_of, state_at, Keeps};

use pl_base::{List, Name};
use pl_catalog::{Catalog, CatalogFail, Object, Rule, RuleKind, Which};
use pl_tables::Tables;
use std::alloc::{AllocError, Global};

/// Adds the object behind the others, and for a table the content of one without rows. Taken where
/// an object of its kind has its name.
pub(crate) fn create_object(
    alloc: Global,
    catalog: &mut Catalog,
    tables: &mut Tables,
    object: Object,
) -> Result<(), CatalogFail>
    requires { IsWhole (database catalog.old.objects tables.old.current) }
    ensures answers { Answers result (add_refusal (which_of object) catalog.old.objects) }
    ensures objects { Keeps (objects_of catalog.old) (objects_of catalog.new) }
    ensures tables { Keeps tables.old tables.new }
    ensures ok { OnOk result (database catalog.new.objects tables.new.current
        ≡ with_object object (database catalog.old.objects tables.old.current)) }
    ensures err { OnErr result (database catalog.new.objects tables.new.current
        ≡ database catalog.old.objects tables.old.current) }
{
    let which = object.which();
    match catalog.add(object) {
        Err(fail) => Err(fail),
        Ok(()) => match add_content(alloc, catalog, tables, which) {
            Ok(()) => Ok(()),
            Err(_) => {
                catalog.undo();
                Err(CatalogFail::Memory)
            }
        },
    }
}

/// Takes out this one object, a table with its rows. Absent where it isn't there, Dependent where
/// another object needs it.
pub(crate) fn drop_object(
    catalog: &mut Catalog,
    tables: &mut Tables,
    which: Which,
) -> Result<(), CatalogFail>
    requires { IsWhole (database catalog.old.objects tables.old.current) }
    ensures answers { Answers result (drop_refusal which catalog.old.objects) }
    ensures objects { Keeps (objects_of catalog.old) (objects_of catalog.new) }
    ensures tables { Keeps tables.old tables.new }
    ensures ok { OnOk result (database catalog.new.objects tables.new.current
        ≡ without_object which (database catalog.old.objects tables.old.current)) }
    ensures err { OnErr result (database catalog.new.objects tables.new.current
        ≡ database catalog.old.objects tables.old.current) }
{
    let same = copied(&which);
    match catalog.drop_object(which) {
        Err(fail) => Err(fail),
        Ok(()) => match drop_content(tables, same) {
            Ok(()) => Ok(()),
            Err(_) => {
                catalog.undo();
                Err(CatalogFail::Memory)
            }
        },
    }
}

fn copied(which: &Which) -> Which
    ensures { result ≡ which.now }
{
    match which {
        Which::Table(name) => Which::Table(*name),
        Which::Routine(name) => Which::Routine(*name),
        Which::Trigger { table, name } => Which::Trigger {
            table: *table,
            name: *name,
        },
    }
}

// Adds the content of this object, if it is a table, which is in the catalogue already.
fn add_content(
    alloc: Global,
    catalog: &Catalog,
    tables: &mut Tables,
    which: Which,
) -> Result<(), AllocError>
    requires { (name : _) → which ≡ Which.Table name
        → content_named name tables.old.current ≡ None }
    ensures keeps { Keeps tables.old tables.new }
    ensures ok { OnOk result (tables.new.current
        ≡ with_content_of which catalog.now.objects tables.old.current) }
    ensures err { OnErr result (tables.new ≡ tables.old) }
{
    match which {
        Which::Table(name) => {
            let keys = keys_of(alloc, rules_of(catalog, name))?;
            tables.create(name, keys.as_slice())
        }
        Which::Routine(_) | Which::Trigger { .. } => Ok(()),
    }
}

// Takes out what this object holds, if it is a table.
fn drop_content(tables: &mut Tables, which: Which) -> Result<(), AllocError>
    requires { (name : _) → which ≡ Which.Table name
        → IsSome (content_named name tables.old.current) }
    ensures keeps { Keeps tables.old tables.new }
    ensures ok { OnOk result (tables.new.current ≡ without_content which tables.old.current) }
    ensures err { OnErr result (tables.new ≡ tables.old) }
{
    match which {
        Which::Table(name) => tables.drop_table(name),
        Which::Routine(_) | Which::Trigger { .. } => Ok(()),
    }
}

// The rules of the table of this name. None where there is no such table.
fn rules_of(catalog: &Catalog, name: Name) -> &[Rule]
    ensures { result.now ≡ rules_in (table_named name (tables_in catalog.now.objects)) }
{
    match catalog.table(name) {
        Some(table) => table.rules.as_slice(),
        None => &[],
    }
}

// The columns of each key, in the order of the rules.
fn keys_of(alloc: Global, rules: &[Rule]) -> Result<Vec<List<usize>>, AllocError>
    ensures { IfOk result (λ keys. keys.items ≡ keys_in rules.now) }
{
    let mut keys = Vec::new(alloc);
    for rule in rules {
        push_key(alloc, &mut keys, rule)?;
    }
    Ok(keys)
}

fn push_key(alloc: Global, keys: &mut Vec<List<usize>>, rule: &Rule) -> Result<(), AllocError>
    ensures { OnOk result (keys.new.items ≡ keys.old.items ++ keys_in (rule.now ∷ [])) }
{
    if let Some(columns) = columns_of(&rule.kind) {
        keys.push(List::from_slice(alloc, columns.as_slice())?)?;
    }
    Ok(())
}

// The columns of the key that a rule asks for. None where it asks for none.
fn columns_of(kind: &RuleKind) -> Option<&List<usize>>
    ensures { option_copied result ≡ key_columns kind.now }
{
    match kind {
        RuleKind::Primary(columns) | RuleKind::Unique(columns) => Some(columns),
        RuleKind::Check(_) | RuleKind::Foreign { .. } => None,
    }
}

/// No change of the objects can be undone from now on.
pub(crate) fn settle_objects(catalog: &mut Catalog)
    ensures objects { catalog.new.objects ≡ catalog.old.objects }
    ensures past { catalog.new.past ≡ [] }
{
    if catalog.changes() > 0 {
        catalog.forget();
    }
}

/// Undoes changes of the objects until only this many can be undone.
pub(crate) fn undo_objects(catalog: &mut Catalog, start: usize)
    requires { start ≤ length catalog.old.past }
    ensures same { (n : ℕ) → n ≤ start
        → state_at (objects_of catalog.new) n ≡ state_at (objects_of catalog.old) n }
    ensures cut { length catalog.new.past ≡ start }
{
    while catalog.changes() > start {
        catalog.undo();
    }
}

/// Undoes changes of the tables until only this many can be undone.
pub(crate) fn undo_tables(tables: &mut Tables, start: usize)
    requires { start ≤ length tables.old.past }
    ensures same { (n : ℕ) → n ≤ start → state_at tables.new n ≡ state_at tables.old n }
    ensures cut { length tables.new.past ≡ start }
{
    while tables.changes() > start {
        tables.undo();
    }
}
