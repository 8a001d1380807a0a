//! The procedure that a CALL names, and its arguments: PostgreSQL manual, "CALL", "Function Type
//! Resolution".

ghost use Rattle.std.specs.Prelude.{◌≡◌, [], map, IfOk, Some};
ghost use Rattle.pl_control.specs.Called.{ResolvesTo};
ghost use Rattle.pl_engine.specs.Engines.{world};
ghost use Rattle.pl_names.specs.Names.{around};
ghost use Rattle.pl_names.specs.Routines as routines;
ghost use Rattle.pl_scope.specs.Answers.{Meets};
ghost use Rattle.pl_scope.specs.Expressions as scope;
ghost use Rattle.pl_scope.specs.Resolution.{argument_part, standing};
ghost use Rattle.pl_typing.specs.Calls.{no_arguments};
ghost use Rattle.pl_typing.specs.Resolved.{Gives};
ghost use Rattle.pl_engine.specs.pl_world.Resolving as spec;

use pl_base::{List, Name, State, Ty};
use pl_catalog::Routine;
use pl_engine::Engine;
use pl_names::{Level, Names};
use pl_resolved::{RExpr, RQuery};
use pl_scope::{Made, expr, inside};
use pl_tree::{Argument, Param, RoutineKind};
use pl_typing::{Arguments, ScopeFail, Typed, fitted};
use std::alloc::{AllocError, Global};

/// A procedure, and the arguments with which it is called.
#[derive(Drop)]
pub struct Procedure {
    pub name: Name,
    pub arguments: List<RExpr>,
}

// ---- arguments

fn argument(
    alloc: Global,
    argument: &Argument,
    names: &Names<'_>,
    made: &mut Made,
) -> Result<Typed, ScopeFail>
    ensures { Meets (argument_part argument.now (around names.now) made.old) result made.new }
{
    match argument {
        Argument::Value(value) => expr(alloc, value, names, made),
        Argument::FatalErrors(value) => {
            expr(alloc, value, names, made)?;
            Err(ScopeFail::State(State::UNDEFINED_FUNCTION))
        }
    }
}

fn arguments_on(
    alloc: Global,
    list: &[Argument],
    names: &Names<'_>,
    made: &mut Made,
) -> Result<Arguments, ScopeFail>
    ensures { Meets (scope.arguments_on (map argument_part list.now) no_arguments (around names.now)
        made.old) result made.new }
{
    let mut done = Arguments::new(alloc);
    for part in list {
        let typed = argument(alloc, part, names, made)?;
        done = done.with(typed)?;
    }
    Ok(done)
}

// The arguments, unless a query stands in them.
fn without_queries(all: Arguments, queries: &[RQuery]) -> Result<Arguments, ScopeFail>
    ensures { Gives result (spec.without_queries all queries.now) }
{
    match queries {
        [] => Ok(all),
        [_, ..] => Err(ScopeFail::State(State::FEATURE_NOT_SUPPORTED)),
    }
}

// What names are sought in.
fn names_in<'a>(engine: &'a Engine, none: &'a [Level<'a>]) -> Names<'a>
    requires none { none.now ≡ [] }
    ensures { around result ≡ standing (world engine.now).database.objects
        (world engine.now).frame.static.scope }
{
    let catalog = engine.journal().catalog();
    inside(catalog, engine.declared().scope(), none, 1, 1, false)
}

// The arguments, in which no query stands.
fn arguments_of(engine: &Engine, list: &[Argument]) -> Result<Arguments, ScopeFail>
    ensures { Gives result (spec.arguments_read list.now (world engine.now).database.objects
        (world engine.now).frame.static) }
{
    let alloc = engine.alloc();
    let none: [Level<'_>; 0] = [];
    let names = names_in(engine, &none);
    let mut made = Made::new(alloc);
    let all = arguments_on(alloc, list, &names, &mut made)?;
    without_queries(all, made.queries.as_slice())
}

// ---- the procedure

fn types_of(alloc: Global, params: &[Param]) -> Result<List<Ty>, AllocError>
    ensures { IfOk result (λ types. types ≡ routines.types_of params.now) }
{
    let mut types = List::new(alloc);
    for param in params {
        types.push(param.ty)?;
    }
    Ok(types)
}

// The routine takes the arguments, if it is a procedure.
fn procedure_of(alloc: Global, routine: &Routine, all: Arguments) -> Result<Procedure, ScopeFail>
    ensures { ResolvesTo result (spec.procedure (Some routine.now) all) }
{
    let types = types_of(alloc, routine.heading.params.as_slice())?;
    let arguments = fitted(alloc, all, types.as_slice())?;
    match routine.heading.kind {
        RoutineKind::Procedure => Ok(Procedure {
            name: routine.name,
            arguments,
        }),
        RoutineKind::Function => Err(ScopeFail::State(State::WRONG_OBJECT_TYPE)),
    }
}

/// What a CALL names. The SQLSTATE of the first argument that fails, 0A000 where a query stands in
/// one; then 42883 where there is no routine of the name or it doesn't take the arguments, and
/// 42809 where it is a function.
pub fn resolve_call(engine: &Engine, name: Name, list: &[Argument]) -> Result<Procedure, ScopeFail>
    ensures { ResolvesTo result (spec.calling name list.now (world engine.now).database.objects
        (world engine.now).frame.static) }
{
    let all = arguments_of(engine, list)?;
    match engine.journal().catalog().routine(name) {
        Some(routine) => procedure_of(engine.alloc(), routine, all),
        None => Err(ScopeFail::State(State::UNDEFINED_FUNCTION)),
    }
}
