//! Output columns that keys mean, and ORDER BY: PostgreSQL manual, "SELECT".

ghost use Rattle.std.specs.Prelude.{◌≡◌, IfOk, Ok};
ghost use Rattle.std.specs.Option.{option_copied};
ghost use Rattle.pl_scope.specs.Following.{Follows};
ghost use Rattle.pl_scope.specs.Named.{with_named};
ghost use Rattle.pl_scope.specs.Steps as spec;
ghost use Rattle.pl_typing.specs.Resolved.{Gives};

use crate::Written;
use pl_base::{Boxed, List, Name, State};
use pl_grouping::{place_of, reads, same_tree};
use pl_names::Names;
use pl_resolved::{Head, RExpr, RKey, RQuery};
use pl_tree::Nulls;
use pl_typing::{ScopeFail, Typed};
use std::alloc::{AllocError, Global};

/// Order keys as far as they have been read.
#[derive(Drop)]
pub struct Ordered {
    /// The select list, and behind it what else rows are ordered by.
    pub values: List<RExpr>,
    pub keys: List<RKey>,
}

// ---- output columns

fn place_at(is_negative: bool, number: u64, count: usize) -> Result<usize, ScopeFail>
    ensures { Gives result (spec.place_at is_negative number count) }
{
    if is_negative || number == 0 || number > count as u64 {
        return Err(ScopeFail::State(State::INVALID_COLUMN_REFERENCE));
    }
    Ok((number - 1) as usize)
}

fn alike(one: Option<&RExpr>, other: Option<&RExpr>) -> bool
    ensures { result ≡ spec.alike (option_copied one.entry) (option_copied other.entry) }
{
    match (one, other) {
        (Some(one), Some(other)) => same_tree(one, other),
        _ => false,
    }
}

fn with_named(
    is_named: bool,
    at: usize,
    values: &[RExpr],
    found: Option<usize>,
) -> Result<Option<usize>, ScopeFail>
    ensures { Gives result (with_named is_named at values.now found) }
{
    if !is_named {
        return Ok(found);
    }
    match found {
        None => Ok(Some(at)),
        Some(place) => {
            if alike(values.get(place), values.get(at)) {
                Ok(Some(place))
            } else {
                Err(ScopeFail::State(State::AMBIGUOUS_COLUMN))
            }
        }
    }
}

#[tactic(auto, using(crate::specs::Named::one_more, crate::specs::Named::another))]
fn named_on(name: Name, heads: &[Head], values: &[RExpr]) -> Result<Option<usize>, ScopeFail>
    ensures { Gives result (spec.one_of values.now (spec.places_named name 0 heads.now)) }
{
    let mut found = None;
    let mut at = 0;
    let mut rest = heads;
    while let [head, more @ ..] = rest {
        found = with_named(head.name == name, at, values, found)?;
        at += 1;
        rest = more;
    }
    Ok(found)
}

/// The output column that a key means as it is written, if it means one. 42P10 where a number is
/// out of range, 42601 where there is another constant, 42702 where two columns of the name are
/// different expressions.
#[tactic(auto, unfolding(crate::specs::Steps::output_of))]
pub fn output_of(
    written: Written,
    heads: &[Head],
    values: &[RExpr],
) -> Result<Option<usize>, ScopeFail>
    ensures { Gives result (spec.output_of written heads.now values.now) }
{
    match written {
        Written::Number { is_negative, size } => match place_at(is_negative, size, heads.len()) {
            Ok(at) => Ok(Some(at)),
            Err(fail) => Err(fail),
        },
        Written::Called(name) => named_on(name, heads, values),
        Written::Constant => Err(ScopeFail::State(State::SYNTAX_ERROR)),
        Written::Other => Ok(None),
    }
}

/// The item of this place as a key of GROUP BY. 42803 where it has an aggregate of this query,
/// whose row is the one of this number. The queries inside it have no number lower than `since`.
pub fn item_key(
    alloc: Global,
    item: Option<&RExpr>,
    queries: &[RQuery],
    since: usize,
    row: usize,
) -> Result<Boxed<RExpr>, ScopeFail>
    ensures { Gives result (spec.item_key (option_copied item.entry) queries.now since row) }
{
    let none: [RExpr; 0] = [];
    let Some(tree) = item else {
        return Err(ScopeFail::State(State::INVALID_COLUMN_REFERENCE));
    };
    let Some(end) = row.checked_add(1) else {
        return Err(ScopeFail::Memory);
    };
    if reads(alloc, &none, queries, since, row, end, tree)? {
        return Err(ScopeFail::State(State::GROUPING_ERROR));
    }
    Ok(Boxed::new(alloc, tree.copy(alloc)?)?)
}

// ---- ORDER BY

fn nulls_first(is_descending: bool, nulls: Option<Nulls>) -> bool
    ensures { result ≡ spec.nulls_first is_descending nulls }
{
    match nulls {
        None => is_descending,
        Some(Nulls::First) => true,
        Some(Nulls::Last) => false,
    }
}

fn key_of(item: usize, is_descending: bool, nulls: Option<Nulls>) -> RKey
    ensures { result ≡ spec.key_of item is_descending nulls }
{
    RKey {
        item,
        is_descending,
        nulls_first: nulls_first(is_descending, nulls),
    }
}

impl Ordered {
    /// No key yet, over this select list.
    pub fn new(alloc: Global, values: List<RExpr>) -> Ordered
        ensures { result ≡ spec.ordered_from values }
    {
        Ordered {
            values,
            keys: List::new(alloc),
        }
    }

    /// With a key that is a value of the list.
    pub fn with_item(
        self,
        item: usize,
        is_descending: bool,
        nulls: Option<Nulls>,
    ) -> Result<Ordered, AllocError>
        ensures { IfOk result (λ ordered. ordered ≡ spec.with_key (spec.key_of item is_descending
            nulls) self) }
    {
        let Ordered { values, mut keys } = self;
        keys.push(key_of(item, is_descending, nulls))?;
        Ok(Ordered { values, keys })
    }

    fn appended(
        self,
        tree: Boxed<RExpr>,
        is_descending: bool,
        nulls: Option<Nulls>,
    ) -> Result<Ordered, AllocError>
        ensures { IfOk result (λ ordered. ordered ≡ spec.appended tree is_descending nulls self) }
    {
        let Ordered {
            mut values,
            mut keys,
        } = self;
        keys.push(key_of(values.len(), is_descending, nulls))?;
        values.push(tree.into_inner())?;
        Ok(Ordered { values, keys })
    }

    /// With a key of this value: the one of the list that is the same, or a new one behind it.
    /// 42P10 where the query is DISTINCT and has no such value.
    #[tactic(auto, unfolding(crate::specs::Steps::valued_key))]
    pub fn with_value(
        self,
        tree: Boxed<RExpr>,
        is_descending: bool,
        nulls: Option<Nulls>,
        is_distinct: bool,
    ) -> Result<Ordered, ScopeFail>
        ensures { Gives result (spec.valued_key tree is_descending nulls is_distinct self) }
    {
        match place_of(tree.get(), self.values.as_slice()) {
            Some(at) => Ok(self.with_item(at, is_descending, nulls)?),
            None => {
                if is_distinct {
                    return Err(ScopeFail::State(State::INVALID_COLUMN_REFERENCE));
                }
                Ok(self.appended(tree, is_descending, nulls)?)
            }
        }
    }
}

/// With a key that is a value of the list.
pub(crate) fn by_item(
    done: Ordered,
    item: usize,
    is_descending: bool,
    nulls: Option<Nulls>,
) -> Result<Ordered, ScopeFail>
    ensures { Gives result (Ok (spec.with_key (spec.key_of item is_descending nulls) done)) }
{
    Ok(done.with_item(item, is_descending, nulls)?)
}

/// With a key of this value, where it could be read.
pub(crate) fn by_value(
    done: Ordered,
    value: Result<Typed, ScopeFail>,
    is_descending: bool,
    nulls: Option<Nulls>,
    is_distinct: bool,
) -> Result<Ordered, ScopeFail>
    ensures { Follows value (λ x. spec.valued_key x.tree is_descending nulls is_distinct done)
        result }
{
    match value {
        Ok(value) => done.with_value(value.tree, is_descending, nulls, is_distinct),
        Err(fail) => {
            drop(done);
            Err(fail)
        }
    }
}
