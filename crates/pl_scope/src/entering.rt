//! What names mean inside of a query, and joins.

ghost use Rattle.std.specs.Prelude.{◌≡◌, ◌+◌, ◌<◌, ◌^◌, [], ◌∷◌, ◌++◌, map, IfOk, Ok};
ghost use Rattle.pl_catalog.specs.Objects.{routines_in, tables_in};
ghost use Rattle.pl_names.specs.Names.{around, reach};
ghost use Rattle.pl_scope.specs.Expressions.{no_aggregates};
ghost use Rattle.pl_scope.specs.Following.{Follows};
ghost use Rattle.pl_scope.specs.Joining as joining;
ghost use Rattle.pl_scope.specs.Steps as spec;
ghost use Rattle.pl_typing.specs.Resolved.{Gives};

use pl_base::{Boxed, List, Memory};
use pl_catalog::Catalog;
use pl_names::{Level, Names, Scope, Source, Sourced, together};
use pl_resolved::{RExpr, RJoin, RSource};
use pl_tree::JoinKind;
use pl_typing::ScopeFail;
use std::alloc::{AllocError, Global};

/// The row behind so many more. Where it doesn't fit there is no memory for so many either.
pub fn behind(row: usize, count: usize) -> Result<usize, Memory>
    ensures { IfOk result (λ next. (next ≡ row + count) × (next < 2 ^ 64)) }
{
    match row.checked_add(count) {
        Some(next) => Ok(next),
        None => Err(Memory),
    }
}

/// The levels around, and this one.
pub fn entered<'a>(
    alloc: Global,
    outer: &[Level<'a>],
    sources: &'a List<Source>,
    is_barred: bool,
) -> Result<Vec<Level<'a>>, AllocError>
    ensures { IfOk result (λ all. map reach all.items ≡ map reach outer.now ++ spec.level
        sources.now is_barred ∷ []) }
{
    let mut all = Vec::new(alloc);
    all.extend_from_slice(outer)?;
    all.push(Level { sources, is_barred })?;
    Ok(all)
}

/// What names are sought in, where these levels are around.
pub fn inside<'a>(
    catalog: &'a Catalog,
    scope: &'a Scope,
    levels: &'a [Level<'a>],
    next_row: usize,
    aggregates_row: usize,
    may_aggregate: bool,
) -> Names<'a>
    ensures { around result ≡ spec.around_of (tables_in catalog.now.objects)
        (routines_in catalog.now.objects) scope.now.frames scope.now.params (map reach levels.now)
        next_row aggregates_row may_aggregate }
{
    Names {
        catalog,
        scope,
        levels,
        next_row,
        aggregates_row,
        may_aggregate,
    }
}

/// The same, where no aggregate may stand.
pub fn without_aggregates<'a>(names: &Names<'a>) -> Names<'a>
    ensures { around result ≡ no_aggregates (around names.now) }
{
    Names {
        may_aggregate: false,
        ..*names
    }
}

// ---- joins

fn source_of(joins: List<RJoin>) -> RSource
    ensures { result ≡ spec.source_of joins }
{
    let mut joins = joins;
    if joins.len() != 1 {
        return RSource::Joined(joins);
    }
    match joins.pop() {
        Some(join) => join.source,
        None => RSource::Joined(joins),
    }
}

fn is_left(kind: JoinKind) -> bool
    ensures { result ≡ spec.is_left kind }
{
    match kind {
        JoinKind::Left => true,
        JoinKind::Inner => false,
        JoinKind::Cross => false,
    }
}

/// What is joined, and what stands to the right of the next JOIN.
#[derive(Drop)]
pub(crate) struct Both {
    pub joins: List<RJoin>,
    pub with: List<RJoin>,
    /// The items of both.
    pub sources: List<Source>,
    /// Where their rows end.
    pub end: usize,
}

fn side_by_side(done: Sourced, with: Sourced, row: usize) -> Result<Both, ScopeFail>
    ensures { Gives result (joining.side_by_side done row with) }
{
    let Sourced { joins, sources } = done;
    let Sourced {
        joins: with,
        sources: more,
    } = with;
    let sources = together(sources, more)?;
    let end = behind(row, sources.len())?;
    Ok(Both {
        joins,
        with,
        sources,
        end,
    })
}

/// Both, whose rows begin at `row`, where the right one could be read. 42712 where a name stands
/// in both.
pub(crate) fn both_of(
    done: Sourced,
    with: Result<Sourced, ScopeFail>,
    row: usize,
) -> Result<Both, ScopeFail>
    ensures { Follows with (joining.side_by_side done row) result }
{
    match with {
        Ok(with) => side_by_side(done, with, row),
        Err(fail) => {
            drop(done);
            Err(fail)
        }
    }
}

fn joined_by(
    both: Both,
    kind: JoinKind,
    condition: Option<Boxed<RExpr>>,
) -> Result<Sourced, ScopeFail>
    ensures { Gives result (Ok (joining.joined_by both kind condition)) }
{
    let Both {
        joins,
        with,
        sources,
        end: _,
    } = both;
    Ok(joined(joins, kind, with, sources, condition)?)
}

/// Both as one, where what stands behind ON could be read.
pub(crate) fn joined_on(
    both: Both,
    kind: JoinKind,
    condition: Result<Option<Boxed<RExpr>>, ScopeFail>,
) -> Result<Sourced, ScopeFail>
    ensures { Follows condition (λ on. Ok (joining.joined_by both kind on)) result }
{
    match condition {
        Ok(condition) => joined_by(both, kind, condition),
        Err(fail) => {
            drop(both);
            Err(fail)
        }
    }
}

// What is joined, with one more join, whose items the last ones of `sources` are.
fn joined(
    done: List<RJoin>,
    kind: JoinKind,
    with: List<RJoin>,
    sources: List<Source>,
    condition: Option<Boxed<RExpr>>,
) -> Result<Sourced, AllocError>
    ensures { IfOk result (λ sourced. sourced ≡ spec.joined done kind with sources condition) }
{
    let mut joins = done;
    joins.push(RJoin {
        source: source_of(with),
        is_left: is_left(kind),
        condition,
    })?;
    Ok(Sourced { joins, sources })
}

/// What is joined, and an item behind a comma.
pub fn beside(
    done: List<RJoin>,
    more: List<RJoin>,
    sources: List<Source>,
) -> Result<Sourced, AllocError>
    ensures { IfOk result (λ sourced. sourced ≡ spec.beside done more sources) }
{
    let mut joins = done;
    joins.append(more)?;
    Ok(Sourced { joins, sources })
}
