//! The tables that queries read.

ghost use Rattle.std.specs.Prelude.{◌≡◌, true, map, Contains, IfOk, OnOk};
ghost use Rattle.pl_inside.specs.Agreement.{AgreeOn, Covers};
ghost use Rattle.pl_query.specs.Query.{rows};
ghost use Rattle.pl_query.specs.Sources.{Tables, draw, item};
ghost use Rattle.pl_value.specs.Frames.{Frame};
ghost use Rattle.pl_value.specs.Meaning.{Calls, Sub};

use pl_base::Name;
use pl_resolved::{RJoin, RQuery, RSource};
use std::alloc::{AllocError, Global};

fn has_name(names: &[Name], name: Name) -> bool
    ensures { result ≡ true → Contains names.now name }
{
    for known in names {
        if *known == name {
            return true;
        }
    }
    false
}

// Adds the name, if it isn't there.
fn add_name(names: &mut Vec<Name>, name: Name) -> Result<(), AllocError>
    ensures { OnOk result (Covers names.old.items names.new.items
        (λ one other. one name ≡ other name)) }
{
    if has_name(names.as_slice(), name) {
        return Ok(());
    }
    names.push(name)?;
    Ok(())
}

// Adds the tables that an item of FROM reads.
#[cycle(reading)]
fn add_source<C>(source: &RSource, names: &mut Vec<Name>) -> Result<(), AllocError>
    ensures { OnOk result (Covers names.old.items names.new.items (λ one other.
        (calls : Calls C) (sub : Sub C) (outer : Frame)
        → draw calls sub one outer source.now ≡ draw calls sub other outer source.now)) }
{
    match source {
        RSource::Table(name) => add_name(names, *name),
        RSource::Query(_) => Ok(()),
        RSource::Value(_) => Ok(()),
        RSource::Joined(joins) => add_joins::<C>(joins.as_slice(), names),
    }
}

// Adds the tables that the items of a FROM read.
#[cycle(reading)]
fn add_joins<C>(joins: &[RJoin], names: &mut Vec<Name>) -> Result<(), AllocError>
    ensures { OnOk result (Covers names.old.items names.new.items (λ one other.
        (calls : Calls C) (sub : Sub C) (outer : Frame)
        → map (item calls sub one outer) joins.now ≡ map (item calls sub other outer) joins.now)) }
{
    for join in joins {
        add_source::<C>(&join.source, names)?;
    }
    Ok(())
}

/// The names of the tables that the queries read, each once: the rows of no other table matter to
/// what the queries give.
pub fn tables_read<C>(alloc: Global, queries: &[RQuery]) -> Result<Vec<Name>, AllocError>
    ensures { IfOk result (λ names. (calls : Calls C) (one other : Tables)
        → AgreeOn names.items one other
        → rows calls queries.now one ≡ rows calls queries.now other) }
{
    let mut names = Vec::new(alloc);
    for query in queries {
        add_joins::<C>(query.from.as_slice(), &mut names)?;
    }
    Ok(names)
}
