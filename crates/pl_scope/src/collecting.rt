//! Aggregates, each of them once in its query.

ghost use Rattle.std.specs.Prelude.{◌≡◌, ◌&&◌, [], codes, not, IfOk};
ghost use Rattle.pl_grouping.specs.Reading.{reads_any};
ghost use Rattle.pl_names.specs.Names.{around};
ghost use Rattle.pl_scope.specs.Answers.{Meets, settled, then_answer};
ghost use Rattle.pl_scope.specs.Expressions as spec;
ghost use Rattle.pl_typing.specs.Aggregates as typing;

use crate::Made;
use pl_base::{Boxed, Held, Name, State, Ty};
use pl_grouping::{aggregate_place, reads_any};
use pl_names::Names;
use pl_resolved::{Aggregate, RAggregate, RExpr, RQuery};
use pl_typing::{Arguments, ScopeFail, Typed, TypedAggregate, aggregated};
use std::alloc::{AllocError, Global};

fn aggregate_at(
    alloc: Global,
    place: usize,
    ty: Ty,
    head: Name,
    names: &Names<'_>,
) -> Result<Typed, AllocError>
    ensures { IfOk result (λ typed. typed ≡ spec.aggregate_at place ty head (around names.now)) }
{
    let tree = RExpr::Place {
        row: names.aggregates_row,
        column: place,
    };
    Ok(Typed {
        tree: Boxed::new(alloc, tree)?,
        ty,
        head,
    })
}

// Whether they read a row before `own`, and none from there on.
fn reads_outer_alone(
    alloc: Global,
    arguments: &[RExpr],
    queries: &[RQuery],
    since: usize,
    own: usize,
    end: usize,
) -> Result<bool, AllocError>
    ensures { IfOk result (λ does. does ≡ (reads_any [] queries.now since 1 own arguments.now
        && not (reads_any [] queries.now since own end arguments.now))) }
{
    let none: [RExpr; 0] = [];
    if !reads_any(alloc, &none, queries, since, 1, own, arguments)? {
        return Ok(false);
    }
    Ok(!reads_any(alloc, &none, queries, since, own, end, arguments)?)
}

fn is_of_outer(
    alloc: Global,
    aggregate: &RAggregate,
    since: usize,
    names: &Names<'_>,
    made: &Made,
) -> Result<bool, AllocError>
    ensures { IfOk result (λ is. is ≡ spec.is_of_outer aggregate.now since (around names.now)
        made.now) }
{
    reads_outer_alone(
        alloc,
        aggregate.arguments.as_slice(),
        made.queries.as_slice(),
        since,
        names.aggregates_row,
        names.next_row,
    )
}

fn collected_by(
    alloc: Global,
    found: Option<usize>,
    aggregated: TypedAggregate,
    head: Name,
    names: &Names<'_>,
    made: &mut Made,
) -> Result<Typed, ScopeFail>
    ensures { Meets (spec.collected_by found aggregated head (around names.now) made.old) result
        made.new }
{
    let TypedAggregate { aggregate, ty } = aggregated;
    let aggregate = Held::new(aggregate);
    match found {
        Some(place) => Ok(aggregate_at(alloc, place, ty, head, names)?),
        None => {
            let typed = aggregate_at(alloc, made.current.aggregates.len(), ty, head, names)?;
            made.current.aggregates.push(aggregate.into_inner())?;
            Ok(typed)
        }
    }
}

/// The aggregate as one of the query that is being read. 42803 where no aggregate may stand, 0A000
/// where it names columns and all of them are of outer queries. The queries in its arguments have
/// no number lower than `since`.
fn collected(
    alloc: Global,
    aggregated: TypedAggregate,
    head: Name,
    since: usize,
    names: &Names<'_>,
    made: &mut Made,
) -> Result<Typed, ScopeFail>
    ensures { Meets (spec.collected aggregated head since (around names.now) made.old) result
        made.new }
{
    if !names.may_aggregate {
        return Err(ScopeFail::State(State::GROUPING_ERROR));
    }
    if is_of_outer(alloc, &aggregated.aggregate, since, names, &*made)? {
        return Err(ScopeFail::State(State::FEATURE_NOT_SUPPORTED));
    }
    let found = aggregate_place(&aggregated.aggregate, made.current.aggregates.as_slice());
    collected_by(alloc, found, aggregated, head, names, made)
}

/// The aggregate of these arguments, by `collected`. 42883 where there is none that takes them.
pub fn collect(
    alloc: Global,
    kind: Aggregate,
    arguments: Arguments,
    head: Name,
    since: usize,
    names: &Names<'_>,
    made: &mut Made,
) -> Result<Typed, ScopeFail>
    ensures { Meets (then_answer (settled (typing.aggregated kind arguments) made.old) (λ x more.
        spec.collected x head since (around names.now) more)) result made.new }
{
    match aggregated(alloc, kind, arguments) {
        Ok(aggregated) => collected(alloc, aggregated, head, since, names, made),
        Err(fail) => Err(fail),
    }
}

fn count_heading() -> Name
    ensures { result ≡ codes "count" }
{
    Name::of("count").unwrap()
}

/// `count(*)`, by `collected`.
pub fn count_rows(alloc: Global, names: &Names<'_>, made: &mut Made) -> Result<Typed, ScopeFail>
    ensures { Meets (spec.count_rows (around names.now) made.old) result made.new }
{
    let since = made.queries.len();
    let none = Arguments::new(alloc);
    collect(
        alloc,
        Aggregate::CountRows,
        none,
        count_heading(),
        since,
        names,
        made,
    )
}
