//! CREATE and DROP.

ghost use Rattle.std.specs.Prelude.{◌≡◌, OnOk};
ghost use Rattle.pl_control.specs.pl_engine.Answers.{Answers};
ghost use Rattle.pl_control.specs.pl_engine.Engines.{kept, world};
ghost use Rattle.pl_world.specs.Meaning as meaning;
ghost use Rattle.pl_reading.specs.Computed.{definition_in};
ghost use Rattle.pl_reading.specs.Defining.{stored_by};
ghost use Rattle.pl_world.specs.Commands.{defines};
ghost use Rattle.pl_world.specs.Sessions as spec;

use crate::replies::{failed, tagged, top};
use pl_base::Txt;
use pl_control::define;
use pl_control::pl_engine::{Engine, Port, Stop};
use pl_print::Tag;
use pl_tree::{Definition, RoutineKind};
use pl_world::Reply;

fn created(kind: RoutineKind) -> Tag
    ensures { result ≡ meaning.created kind }
{
    match kind {
        RoutineKind::Function => Tag::CreateFunction,
        RoutineKind::Procedure => Tag::CreateProcedure,
    }
}

fn dropped(kind: RoutineKind) -> Tag
    ensures { result ≡ meaning.dropped kind }
{
    match kind {
        RoutineKind::Function => Tag::DropFunction,
        RoutineKind::Procedure => Tag::DropProcedure,
    }
}

// The tag of a definition.
fn tag_of(definition: &Definition) -> Tag
    ensures { result ≡ meaning.tag_of definition.now }
{
    match definition {
        Definition::CreateTable(_) => Tag::CreateTable,
        Definition::CreateRoutine(routine) => created(routine.kind),
        Definition::CreateTrigger(_) => Tag::CreateTrigger,
        Definition::DropTable { .. } => Tag::DropTable,
        Definition::DropRoutine { kind, .. } => dropped(*kind),
        Definition::DropTrigger { .. } => Tag::DropTrigger,
    }
}

/// CREATE or DROP. A notice says that all stays as it is.
pub(crate) fn carry_out<P: Port>(
    engine: &mut Engine,
    port: &mut P,
    definition: &Definition,
    source: Txt,
) -> Result<Reply, Stop>
    requires alike { definition_in source ≡ stored_by definition.now source }
    requires fits { P.fits (world engine.old).last port.old }
    ensures is { Answers P.Port
        (defines spec.failed (spec.tagged (meaning.tag_of definition.now)) spec.top
        (stored_by definition.now source) source (world engine.old)) result
        engine.old engine.new port.old port.new }
    ensures keeps { OnOk result (kept engine.new ≡ kept engine.old) }
{
    let tag = tag_of(definition);
    match define(engine, port, top(), definition, source) {
        Ok(Ok(())) => Ok(tagged(tag)),
        Ok(Err(f)) => Ok(failed(f)),
        Err(stop) => Err(stop),
    }
}
