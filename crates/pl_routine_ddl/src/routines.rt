//! What CREATE FUNCTION and DROP FUNCTION do.

ghost use Rattle.std.specs.Prelude.{◌≡◌, IfOk, None};
ghost use Rattle.std.specs.Option.{option_copied};
ghost use Rattle.pl_ddl.specs.pl_catalog.Objects.{tables_in};
ghost use Rattle.pl_routine_ddl.specs.Routines as spec;
ghost use Rattle.pl_ddl.specs.pl_typing.Resolved.{Gives};

use crate::parameters::{
    all_go_in, keeps_params, keeps_result, params_refusal, result_refusal, same_types,
    two_of_a_name,
};
use pl_base::{List, Name, State, Txt, Ty};
use pl_calc::function_named;
use pl_ddl::pl_catalog::{Catalog, Heading, Routine, RoutineBody};
use pl_ddl::pl_typing::{ScopeFail, aggregate_named};
use pl_tree::{NewRoutine, ResultType, RoutineKind};
use std::alloc::{AllocError, Global};

/// What a definition of a routine does to the catalogue.
#[derive(Drop)]
pub enum RoutineDefined {
    Add(Routine),
    /// It takes the place of the one of its name.
    Replace(Routine),
    /// The routine of this name goes.
    Drop(Name),
    /// The catalogue stays as it is, by IF EXISTS; the SQLSTATE is that of the notice.
    Nothing(State),
}

/// The most parameters of a routine.
const PARAMETER_LIMIT: usize = 64;

// ---- what is looked at before the body

fn is_procedure(kind: RoutineKind) -> bool
    ensures { result ≡ spec.is_procedure kind }
{
    match kind {
        RoutineKind::Procedure => true,
        RoutineKind::Function => false,
    }
}

fn is_absent(given: &ResultType) -> bool
    ensures { result ≡ spec.is_absent given.now }
{
    match given {
        ResultType::Absent => true,
        ResultType::One(_) | ResultType::Set(_) | ResultType::Columns(_) => false,
    }
}

fn is_one(given: &ResultType) -> bool
    ensures { result ≡ spec.is_one given.now }
{
    match given {
        ResultType::One(_) => true,
        ResultType::Absent | ResultType::Set(_) | ResultType::Columns(_) => false,
    }
}

fn gives_nothing(routine: &NewRoutine) -> bool
    ensures { result ≡ spec.gives_nothing routine.now }
{
    !is_procedure(routine.kind)
        && is_absent(&routine.result)
        && all_go_in(routine.params.as_slice())
}

fn lacks_a_part(routine: &NewRoutine) -> bool
    ensures { result ≡ spec.lacks_a_part routine.now }
{
    routine.language.is_none() || routine.body.is_none() || gives_nothing(routine)
}

fn is_plpgsql(language: &Option<Txt>) -> bool
    ensures { result ≡ spec.is_plpgsql language.now }
{
    match language {
        Some(language) => language.as_bytes() == b"plpgsql".as_slice(),
        None => false,
    }
}

fn form_waits(routine: &NewRoutine) -> bool
    ensures { result ≡ spec.form_waits routine.now }
{
    is_procedure(routine.kind) || !all_go_in(routine.params.as_slice()) || !is_one(&routine.result)
}

/// What can be refused without the catalogue and the body, and comes before the failures of the
/// body: 42P13 where LANGUAGE, AS or a result is missing; 0A000 for another language, for a
/// procedure, for a parameter that goes out and for a set.
pub fn form_refusal(routine: &NewRoutine) -> Option<State>
    ensures { result ≡ spec.form_refusal routine.now }
{
    if lacks_a_part(routine) {
        return Some(State::INVALID_FUNCTION_DEFINITION);
    }
    if !is_plpgsql(&routine.language) || form_waits(routine) {
        return Some(State::FEATURE_NOT_SUPPORTED);
    }
    None
}

// ---- whether it is made

fn is_built_in(name: &Name) -> bool
    ensures { result ≡ spec.is_built_in name.now }
{
    function_named(name.as_bytes()).is_some()
        || aggregate_named(name).is_some()
        || name.as_bytes() == b"plpgsql_check_function".as_slice()
}

fn is_taken(old: Option<&Routine>, routine: &NewRoutine) -> bool
    ensures { result ≡ spec.is_taken (option_copied old.entry) routine.now }
{
    is_built_in(&routine.name) || (old.is_some() && !routine.or_replace)
}

fn is_same_kind(kind: RoutineKind, other: RoutineKind) -> bool
    ensures { result ≡ spec.is_same_kind kind other }
{
    match (kind, other) {
        (RoutineKind::Function, RoutineKind::Function) => true,
        (RoutineKind::Procedure, RoutineKind::Procedure) => true,
        _ => false,
    }
}

fn replacing_refusal(old: &Heading, routine: &NewRoutine) -> Option<State>
    ensures { result ≡ spec.replacing_refusal old.now routine.now }
{
    if !is_same_kind(old.kind, routine.kind) {
        return Some(State::WRONG_OBJECT_TYPE);
    }
    if !(keeps_params(old.params.as_slice(), routine.params.as_slice())
        && keeps_result(&old.result, &routine.result))
    {
        return Some(State::INVALID_FUNCTION_DEFINITION);
    }
    None
}

fn replaced_refusal(old: Option<&Routine>, routine: &NewRoutine) -> Option<State>
    ensures { result ≡ spec.replaced_refusal (option_copied old.entry) routine.now }
{
    match old {
        Some(old) => replacing_refusal(&old.heading, routine),
        None => None,
    }
}

// The first refusal of a routine in the place of the one that is there, if one is: a name that is
// taken, 42723; a type that there isn't, 42704, or that isn't supported, 0A000; a name of two
// parameters, 42P13; over 64 parameters, 54023; another kind than that one's, 42809; other types,
// or another name of a parameter, than that one's, 42P13.
fn routine_refusal(catalog: &Catalog, old: Option<&Routine>, routine: &NewRoutine) -> Option<State>
    ensures { result ≡ spec.routine_refusal (option_copied old.entry)
        (tables_in catalog.now.objects) routine.now }
{
    if is_taken(old, routine) {
        return Some(State::DUPLICATE_FUNCTION);
    }
    if let Some(state) = params_refusal(catalog, routine.params.as_slice()) {
        return Some(state);
    }
    if let Some(state) = result_refusal(catalog, &routine.result) {
        return Some(state);
    }
    if two_of_a_name(routine.params.as_slice()) {
        return Some(State::INVALID_FUNCTION_DEFINITION);
    }
    if routine.params.len() > PARAMETER_LIMIT {
        return Some(State::TOO_MANY_ARGUMENTS);
    }
    replaced_refusal(old, routine)
}

// ---- CREATE FUNCTION

fn result_copied(alloc: Global, given: &ResultType) -> Result<ResultType, AllocError>
    ensures { IfOk result (λ made. made ≡ given.now) }
{
    match given {
        ResultType::Absent => Ok(ResultType::Absent),
        ResultType::One(ty) => Ok(ResultType::One(*ty)),
        ResultType::Set(ty) => Ok(ResultType::Set(*ty)),
        ResultType::Columns(columns) => {
            Ok(ResultType::Columns(List::from_slice(alloc, columns.as_slice())?))
        }
    }
}

fn as_routine(
    alloc: Global,
    routine: &NewRoutine,
    text: Txt,
    body: RoutineBody,
) -> Result<Routine, AllocError>
    ensures { IfOk result (λ made. made ≡ spec.as_routine routine.now text body) }
{
    let params = List::from_slice(alloc, routine.params.as_slice())?;
    let given = result_copied(alloc, &routine.result)?;
    Ok(Routine {
        name: routine.name,
        text,
        heading: Heading {
            kind: routine.kind,
            params,
            result: given,
        },
        body,
    })
}

/// The routine that a definition of this text and this body makes, in the place of the one of its
/// name if there is one, or its first refusal. What `form_refusal` refuses was refused before.
pub fn create_routine(
    alloc: Global,
    catalog: &Catalog,
    routine: &NewRoutine,
    text: Txt,
    body: RoutineBody,
) -> Result<RoutineDefined, ScopeFail>
    requires formed { spec.form_refusal routine.now ≡ None }
    ensures { Gives result (spec.create_routine catalog.now.objects routine.now text body) }
{
    let old = catalog.routine(routine.name);
    if let Some(state) = routine_refusal(catalog, old, routine) {
        return Err(ScopeFail::State(state));
    }
    let made = as_routine(alloc, routine, text, body)?;
    match old {
        Some(_) => Ok(RoutineDefined::Replace(made)),
        None => Ok(RoutineDefined::Add(made)),
    }
}

// ---- DROP FUNCTION

fn takes(routine: &Routine, types: &Option<List<Ty>>) -> bool
    ensures { result ≡ spec.takes routine.now types.now }
{
    match types {
        Some(types) => same_types(types.as_slice(), routine.heading.params.as_slice()),
        None => true,
    }
}

// No change where it is allowed, and the refusal where it isn't.
fn if_allowed(is_allowed: bool, state: State) -> Result<RoutineDefined, ScopeFail>
    ensures { Gives result (spec.if_allowed is_allowed state) }
{
    if is_allowed {
        Ok(RoutineDefined::Nothing(state))
    } else {
        Err(ScopeFail::State(state))
    }
}

/// Which routine goes. 42883 where there is none of this name or with these parameters, 42809 where
/// it is of the other kind.
pub fn drop_routine(
    catalog: &Catalog,
    kind: RoutineKind,
    if_exists: bool,
    name: Name,
    types: &Option<List<Ty>>,
) -> Result<RoutineDefined, ScopeFail>
    ensures { Gives result (spec.drop_routine catalog.now.objects kind if_exists name types.now) }
{
    match catalog.routine(name) {
        None => if_allowed(if_exists, State::UNDEFINED_FUNCTION),
        Some(routine) => {
            if !takes(routine, types) {
                return if_allowed(if_exists, State::UNDEFINED_FUNCTION);
            }
            if is_same_kind(routine.heading.kind, kind) {
                Ok(RoutineDefined::Drop(name))
            } else {
                Err(ScopeFail::State(State::WRONG_OBJECT_TYPE))
            }
        }
    }
}
