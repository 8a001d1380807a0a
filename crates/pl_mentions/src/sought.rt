//! What is looked for in an expression.

ghost use Rattle.std.specs.Prelude.{◌≡◌};
ghost use Rattle.pl_mentions.specs.Mentions as spec;

use pl_base::Name;

/// What is looked for.
#[derive(Clone, Copy)]
pub enum Sought {
    /// A query.
    Query,
    /// A query, or a name of a column or a variable, alone or behind another.
    NameOrQuery,
    /// The column of a table, alone or behind the table's name.
    Column { table: Name, column: Name },
}

pub(crate) fn is_name(sought: &Sought, name: &Name) -> bool
    ensures { result ≡ spec.is_name sought.now name.now }
{
    match sought {
        Sought::Query => false,
        Sought::NameOrQuery => true,
        Sought::Column { column, .. } => *column == *name,
    }
}

pub(crate) fn is_qualified(sought: &Sought, qualifier: &Name, name: &Name) -> bool
    ensures { result ≡ spec.is_qualified sought.now qualifier.now name.now }
{
    match sought {
        Sought::Query => false,
        Sought::NameOrQuery => true,
        Sought::Column { table, column } => *table == *qualifier && *column == *name,
    }
}

pub(crate) fn is_query(sought: &Sought) -> bool
    ensures { result ≡ spec.is_query sought.now }
{
    match sought {
        Sought::Query | Sought::NameOrQuery => true,
        Sought::Column { .. } => false,
    }
}
