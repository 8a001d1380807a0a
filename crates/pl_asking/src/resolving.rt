//! What statements resolve, in the newest call: PostgreSQL manual, "PL/pgSQL", "Variable
//! Substitution".

ghost use Rattle.std.specs.Prelude.{◌≡◌, [], map, IfOk};
ghost use Rattle.pl_calling.specs.pl_engine.Engines.{kept, world};
ghost use Rattle.pl_calling.specs.pl_names.Names as meanings;
ghost use Rattle.pl_calling.specs.pl_names.Names.{around};
ghost use Rattle.pl_resolved.specs.declared.expression.RExpr.TheVariants.{Place};
ghost use Rattle.pl_direct.specs.pl_scope.Answers.{Meets};
ghost use Rattle.pl_direct.specs.pl_scope.Expressions as scope;
ghost use Rattle.pl_direct.specs.pl_scope.Resolution.{part, standing};
ghost use Rattle.pl_typing.specs.Resolved.{Gives};
ghost use Rattle.pl_typing.specs.Typing as typing;
ghost use Rattle.pl_world.specs.Resolving as spec;
ghost use Rattle.pl_world.specs.Variables.{variables_of};

use crate::direct::aim_at_once;
use crate::variable::Variable;
use pl_base::{Held, List, Memory, Name, Shared, State, Ty};
use pl_bodies::{Target, VariableType};
use pl_calling::pl_engine::{Engine, Spot};
use pl_calling::pl_names::{Level, Meaning, Names, Visible, name_means, qualified_means};
use pl_direct::pl_scope::{Made, ResolvedExpr, behind, expr, inside};
use pl_resolved::RExpr;
use pl_tree::Expr;
use pl_typing::{Listed, ScopeFail, Typed, in_list, with_type};
use std::alloc::Global;

/// What RETURN gives. 42804 where no value is due.
#[tactic(auto, unfolding(pl_world::specs::Resolving::giving))]
pub(crate) fn give(
    engine: &mut Engine,
    at: Spot,
    e: &Expr,
) -> Result<Shared<ResolvedExpr>, ScopeFail>
    ensures gives { Gives result (spec.giving e.now (world engine.old).database.objects
        (world engine.old).frame.static) }
    ensures is { world engine.new ≡ world engine.old }
    ensures keeps { kept engine.new ≡ kept engine.old }
{
    let e = engine.resolve_expr(at, e)?;
    match engine.declared().result() {
        Some(_) => Ok(e),
        None => Err(ScopeFail::State(State::DATATYPE_MISMATCH)),
    }
}

// ---- names

// What names are sought in.
fn names_in<'a>(engine: &'a Engine, none: &'a [Level<'a>]) -> Names<'a>
    requires none { none.now ≡ [] }
    ensures { around result ≡ standing (world engine.now).database.objects
        (world engine.now).frame.static.scope }
{
    let catalog = engine.journal().catalog();
    inside(catalog, engine.declared().scope(), none, 1, 1, false)
}

fn target_means(engine: &Engine, target: &Target) -> Result<Meaning, ScopeFail>
    ensures { Gives result (spec.target_means target.now.qualifier target.now.name
        (standing (world engine.now).database.objects (world engine.now).frame.static.scope)) }
{
    let none: [Level<'_>; 0] = [];
    let names = names_in(engine, &none);
    match target.qualifier {
        Some(qualifier) => qualified_means(qualifier, target.name, &names),
        None => name_means(target.name, &names),
    }
}

// By the rules for all names.
#[tactic(auto, unfolding(pl_world::specs::Resolving::aiming))]
fn aim_by_rules(engine: &Engine, target: &Target) -> Result<Variable, ScopeFail>
    ensures { Gives result (spec.aiming target.now (world engine.now).database.objects
        (world engine.now).frame.static) }
{
    let meaning = target_means(engine, target)?;
    Ok(Variable {
        at: meaning.column,
        ty: meaning.ty,
        is_required: engine.declared().is_required(meaning.column),
    })
}

/// The variable that a target names. 42703 where there is none, 42702 where there are several, and
/// 42P01 where nothing has the qualifier's name.
pub fn aim(engine: &Engine, target: &Target) -> Result<Variable, ScopeFail>
    ensures { Gives result (spec.aiming target.now (world engine.now).database.objects
        (world engine.now).frame.static) }
{
    match aim_at_once(engine, target) {
        Some(spot) => Ok(Variable {
            at: spot.column,
            ty: spot.seen.ty,
            is_required: engine.declared().is_required(spot.column),
        }),
        None => aim_by_rules(engine, target),
    }
}

/// The variables that targets name, from left to right, each by `aim`.
pub fn aim_all(engine: &Engine, targets: &[Target]) -> Result<List<Variable>, ScopeFail>
    ensures { Gives result (spec.aiming_all targets.now (world engine.now).database.objects
        (world engine.now).frame.static) }
{
    let mut all = List::new(engine.alloc());
    for target in targets {
        let variable = aim(engine, target)?;
        all.push(variable)?;
    }
    Ok(all)
}

// ---- CASE

// How many variables these blocks have.
fn count_of(mut blocks: &[Visible]) -> Result<usize, Memory>
    ensures { IfOk result (λ count. count ≡ variables_of blocks.entry.now) }
{
    let mut count = 0;
    while let [block, rest @ ..] = blocks {
        count = behind(count, block.variables.len())?;
        blocks = rest;
    }
    Ok(count)
}

// The operand, whose value stands behind all variables.
fn operand_of(engine: &Engine, ty: Ty) -> Result<Typed, Memory>
    ensures { IfOk result (λ made. made ≡ typing.typed (Place 0
        (variables_of (world engine.now).frame.static.scope.frames)) ty) }
{
    let column = count_of(engine.declared().scope().frames.as_slice())?;
    Ok(with_type(engine.alloc(), RExpr::Place { row: 0, column }, ty)?)
}

// Operands of one list, one after the other.
fn listed_on(
    alloc: Global,
    list: &[Expr],
    first: Listed,
    names: &Names<'_>,
    made: &mut Made,
) -> Result<Listed, ScopeFail>
    ensures { Meets (scope.listed_on (map part list.now) first (around names.now) made.old)
        result made.new }
{
    let mut done = first;
    for e in list {
        let typed = expr(alloc, e, names, made)?;
        done = done.with(typed)?;
    }
    Ok(done)
}

/// Whether an operand of this type is IN the values. 42883 where they have no type together.
pub(crate) fn find(
    engine: &Engine,
    ty: Ty,
    values: &[Expr],
) -> Result<Held<ResolvedExpr>, ScopeFail>
    ensures { Gives result (spec.matching ty values.now (world engine.now).database.objects
        (world engine.now).frame.static) }
{
    let alloc = engine.alloc();
    let none: [Level<'_>; 0] = [];
    let names = names_in(engine, &none);
    let mut made = Made::new(alloc);
    let operand = operand_of(engine, ty)?;
    let first = Listed::new(alloc).with(operand)?;
    let all = listed_on(alloc, values, first, &names, &mut made)?;
    let typed = in_list(alloc, false, all)?;
    Ok(Held::new(ResolvedExpr {
        typed,
        queries: made.queries,
    }))
}

// ---- declarations

fn scalar(ty: Ty) -> Result<Ty, ScopeFail>
    ensures { Gives result (spec.scalar ty) }
{
    match ty {
        Ty::Int | Ty::Big | Ty::Text | Ty::Bool => Ok(ty),
        _ => Err(ScopeFail::State(State::UNDEFINED_OBJECT)),
    }
}

// The type of a variable of this name.
fn type_named(engine: &Engine, name: Name) -> Result<Ty, ScopeFail>
    ensures { Gives result (spec.type_of (meanings.name_means name
        (standing (world engine.now).database.objects (world engine.now).frame.static.scope))) }
{
    let none: [Level<'_>; 0] = [];
    match name_means(name, &names_in(engine, &none)) {
        Ok(meaning) => Ok(meaning.ty),
        Err(ScopeFail::State(_)) => Err(ScopeFail::State(State::UNDEFINED_OBJECT)),
        Err(ScopeFail::Memory) => Err(ScopeFail::Memory),
    }
}

/// The type that a declaration gives. 42704 where there is none, 0A000 for one that a later part of
/// the language brings.
#[tactic(auto, unfolding(pl_world::specs::Resolving::typing))]
pub(crate) fn type_of(engine: &Engine, ty: &VariableType) -> Result<Ty, ScopeFail>
    ensures { Gives result (spec.typing ty.now (world engine.now).database.objects
        (world engine.now).frame.static) }
{
    match ty {
        VariableType::Ty(ty) => scalar(*ty),
        VariableType::OfVariable(name) => type_named(engine, *name),
        VariableType::Cursor => Err(ScopeFail::State(State::FEATURE_NOT_SUPPORTED)),
        VariableType::OfColumn { .. } => Err(ScopeFail::State(State::FEATURE_NOT_SUPPORTED)),
    }
}
