//! What names mean: PostgreSQL manual, "Column References".

ghost use Rattle.std.specs.Prelude.{◌≡◌, ◌+◌, ◌<◌, ◌^◌, [], length, map, IfOk};
ghost use Rattle.pl_names.specs.Names as spec;
ghost use Rattle.pl_names.specs.Names.{around, reach};
ghost use Rattle.pl_typing.specs.Resolved.{Gives};

use crate::found::{Found, Meaning, both, known_one, nearer_labelled, nearer_one};
use crate::same::is_same;
use crate::{Level, Names, Seen, Source, Visible};
use pl_base::{Boxed, List, Memory, Name, State, Ty};
use pl_resolved::{Head, RExpr};
use pl_typing::{ScopeFail, Typed};
use std::alloc::{AllocError, Global};

// ---- columns

fn columns_named(name: &Name, is_barred: bool, source: &Source) -> Found
    ensures { result ≡ spec.columns_named name.now is_barred source.now.row 0 source.now.columns }
{
    let mut found = Found::Nothing;
    let mut column = 0;
    let mut rest = source.columns.as_slice();
    while let [head, more @ ..] = rest {
        if is_same(&head.name, name) {
            found = found.also(Found::One(Meaning {
                row: source.row,
                column,
                ty: head.ty,
                is_barred,
            }));
        }
        column += 1;
        rest = more;
    }
    found
}

fn columns_in(name: &Name, is_barred: bool, mut sources: &[Source]) -> Found
    ensures { result ≡ spec.columns_in name.now is_barred sources.entry.now }
{
    let mut found = Found::Nothing;
    while let [source, rest @ ..] = sources {
        found = found.also(columns_named(name, is_barred, source));
        sources = rest;
    }
    found
}

fn columns_within(name: &Name, mut levels: &[Level<'_>]) -> Found
    ensures { result ≡ spec.columns_within name.now (map reach levels.entry.now) }
{
    let mut found = Found::Nothing;
    while let [level, rest @ ..] = levels {
        found = columns_in(name, level.is_barred, level.sources.as_slice()).nearer(found);
        levels = rest;
    }
    found
}

/// Whether an item has a column of this name.
pub fn is_column(name: Name, sources: &[Source]) -> bool
    ensures { result ≡ spec.is_column name sources.now }
{
    columns_in(&name, false, sources).is_any()
}

// ---- variables

// The place behind so many more. Where it doesn't fit there is no memory for so many either.
fn behind(place: usize, count: usize) -> Result<usize, Memory>
    ensures { IfOk result (λ next. (next ≡ place + count) × (next < 2 ^ 64)) }
{
    match place.checked_add(count) {
        Some(next) => Ok(next),
        None => Err(Memory),
    }
}

fn variables_named(name: &Name, place: usize, variables: &[Seen]) -> Found
    requires room { place + length variables.now < 2 ^ 64 }
    ensures { result ≡ spec.variables_named name.now place variables.now }
{
    let mut found = Found::Nothing;
    let mut at = place;
    let mut rest = variables;
    while let [variable, more @ ..] = rest {
        if is_same(&variable.name, name) {
            found = found.also(Found::One(Meaning {
                row: 0,
                column: at,
                ty: variable.ty,
                is_barred: false,
            }));
        }
        at += 1;
        rest = more;
    }
    found
}

// Variables of this name hide what was found further out.
fn variables_over(name: &Name, place: usize, variables: &[Seen], found: &mut Found)
    requires room { place + length variables.now < 2 ^ 64 }
    ensures { found.new ≡ spec.nearer (spec.variables_named name.now place variables.now)
        found.old }
{
    let mut at = place;
    let mut rest = variables;
    while let [variable, more @ ..] = rest {
        if is_same(&variable.name, name) {
            *found = variables_named(name, at, rest);
            return;
        }
        at += 1;
        rest = more;
    }
}

fn variables_within(name: &Name, mut frames: &[Visible]) -> Result<Found, Memory>
    ensures { IfOk result (λ found. found ≡ spec.variables_within name.now 0 frames.entry.now) }
{
    let mut found = Found::Nothing;
    let mut place = 0;
    while let [frame, rest @ ..] = frames {
        let next = behind(place, frame.variables.len())?;
        variables_over(name, place, frame.variables.as_slice(), &mut found);
        place = next;
        frames = rest;
    }
    Ok(found)
}

// ---- a name

/// What a name without a qualifier means. 42703 where it means nothing, 42702 where it means two
/// things, 42P10 where it is a column that may not be named here.
#[tactic(auto, unfolding(crate::specs::Names::name_means))]
pub fn name_means(name: Name, names: &Names<'_>) -> Result<Meaning, ScopeFail>
    ensures { Gives result (spec.name_means name (around names.now)) }
{
    let columns = columns_within(&name, names.levels);
    match variables_within(&name, names.scope.frames.as_slice()) {
        Ok(variables) => columns.also(variables).the_one(),
        Err(Memory) => Err(ScopeFail::Memory),
    }
}

// ---- qualified names

fn item_named(
    qualifier: &Name,
    name: &Name,
    is_barred: bool,
    mut sources: &[Source],
) -> Option<Found>
    ensures { result ≡ spec.item_named qualifier.now name.now is_barred sources.entry.now }
{
    while let [source, rest @ ..] = sources {
        if is_same(&source.name, qualifier) {
            return Some(columns_named(name, is_barred, source));
        }
        sources = rest;
    }
    None
}

fn item_within(qualifier: &Name, name: &Name, mut levels: &[Level<'_>]) -> Option<Found>
    ensures { result ≡ spec.item_within qualifier.now name.now (map reach levels.entry.now) }
{
    let mut found = None;
    while let [level, rest @ ..] = levels {
        let here = item_named(qualifier, name, level.is_barred, level.sources.as_slice());
        found = nearer_one(here, found);
        levels = rest;
    }
    found
}

fn labelled_here(qualifier: &Name, name: &Name, place: usize, frame: &Visible) -> Option<Found>
    requires room { place + length frame.now.variables < 2 ^ 64 }
    ensures { result ≡ spec.labelled_here qualifier.now name.now place frame.now }
{
    if is_same(&frame.label, qualifier) {
        Some(variables_named(name, place, frame.variables.as_slice()))
    } else {
        None
    }
}

fn labelled(qualifier: &Name, name: &Name, mut frames: &[Visible]) -> Result<Option<Found>, Memory>
    ensures { IfOk result (λ found. found ≡ spec.labelled qualifier.now name.now 0 frames.entry.now) }
{
    let mut found = None;
    let mut place = 0;
    while let [frame, rest @ ..] = frames {
        let next = behind(place, frame.variables.len())?;
        found = nearer_labelled(labelled_here(qualifier, name, place, frame), found);
        place = next;
        frames = rest;
    }
    Ok(found)
}

/// What `qualifier.name` means. 42P01 where nothing has the qualifier's name, 42703 where that has
/// no such column or variable, 42702 where the whole means two things, 42P10 where it is a column
/// that may not be named here.
#[tactic(auto, unfolding(crate::specs::Names::qualified_means))]
pub fn qualified_means(qualifier: Name, name: Name, names: &Names<'_>) -> Result<Meaning, ScopeFail>
    ensures { Gives result (spec.qualified_means qualifier name (around names.now)) }
{
    let columns = item_within(&qualifier, &name, names.levels);
    match labelled(&qualifier, &name, names.scope.frames.as_slice()) {
        Ok(variables) => known_one(both(columns, variables)),
        Err(Memory) => Err(ScopeFail::Memory),
    }
}

// ---- parameters

/// What `$number` means, counted from 1: the parameters are the first variables. 42P02 where there
/// is none.
pub fn parameter_means(number: u16, names: &Names<'_>) -> Result<Meaning, ScopeFail>
    ensures { Gives result (spec.parameter_means number (around names.now)) }
{
    let Some(at) = usize::from(number).checked_sub(1) else {
        return Err(ScopeFail::State(State::UNDEFINED_PARAMETER));
    };
    let Some(ty) = names.scope.params.get(at) else {
        return Err(ScopeFail::State(State::UNDEFINED_PARAMETER));
    };
    Ok(Meaning {
        row: 0,
        column: at,
        ty: *ty,
        is_barred: false,
    })
}

// ---- expressions that read a place

fn placed(alloc: Global, name: Name, meaning: Meaning) -> Result<Typed, AllocError>
    ensures { IfOk result (λ typed. typed ≡ spec.placed name meaning) }
{
    let tree = RExpr::Place {
        row: meaning.row,
        column: meaning.column,
    };
    Ok(Typed {
        tree: Boxed::new(alloc, tree)?,
        ty: meaning.ty,
        head: name,
    })
}

/// A name without a qualifier as an expression, by `name_means`.
pub fn named(alloc: Global, name: Name, names: &Names<'_>) -> Result<Typed, ScopeFail>
    ensures { Gives result (spec.name_of name (around names.now)) }
{
    match name_means(name, names) {
        Ok(meaning) => Ok(placed(alloc, name, meaning)?),
        Err(fail) => Err(fail),
    }
}

/// `qualifier.name` as an expression, by `qualified_means`.
pub fn qualified(
    alloc: Global,
    qualifier: Name,
    name: Name,
    names: &Names<'_>,
) -> Result<Typed, ScopeFail>
    ensures { Gives result (spec.qualified_of qualifier name (around names.now)) }
{
    match qualified_means(qualifier, name, names) {
        Ok(meaning) => Ok(placed(alloc, name, meaning)?),
        Err(fail) => Err(fail),
    }
}

/// `$number` as an expression, by `parameter_means`.
pub fn parameter(alloc: Global, number: u16, names: &Names<'_>) -> Result<Typed, ScopeFail>
    ensures { Gives result (spec.parameter_of number (around names.now)) }
{
    match parameter_means(number, names) {
        Ok(meaning) => Ok(placed(alloc, Name::NONE, meaning)?),
        Err(fail) => Err(fail),
    }
}

// ---- types

fn is_type(ty: &Ty, names: &Names<'_>) -> bool
    ensures { result ≡ spec.is_type ty.now (around names.now) }
{
    match ty {
        Ty::Row(name) => names.catalog.table(*name).is_some(),
        Ty::Unknown | Ty::Int | Ty::Big | Ty::Text | Ty::Bool => true,
        Ty::Rec | Ty::Void | Ty::Trigger => true,
    }
}

/// The types in front of the first that there isn't: a row type has the name of a table.
pub fn known_types(
    alloc: Global,
    mut types: &[Ty],
    names: &Names<'_>,
) -> Result<List<Ty>, AllocError>
    ensures { IfOk result (λ known. known ≡ spec.known_types [] types.entry.now
        (around names.now)) }
{
    let mut known = List::new(alloc);
    while let [ty, rest @ ..] = types {
        if !is_type(ty, names) {
            return Ok(known);
        }
        known.push(*ty)?;
        types = rest;
    }
    Ok(known)
}
