//! Blocks whose statements are protected, and their handlers: PostgreSQL manual, "PL/pgSQL",
//! "Trapping Errors".

ghost use Rattle.std.specs.Prelude.{◌≡◌, ◌<◌, ◌+◌, codes, false, IfOk, OnErr, OnOk};
ghost use Rattle.pl_base.specs.declared.types.Ty.TheVariants.{Text as TextType};
ghost use Rattle.pl_base.specs.declared.value.Value.TheVariants.{Text};
ghost use Rattle.pl_engine.specs.Engines.{Quiet, kept, world};
ghost use Rattle.pl_engine.specs.Handling.{kept_at, returned_to, with_mark, with_marks};
ghost use Rattle.pl_world.specs.Blocks.{deeper, handled_end, handling, with_handled};
ghost use Rattle.pl_world.specs.Blocks.{without_handled};
ghost use Rattle.pl_world.specs.Variables.{declared, opened};
ghost use Rattle.pl_world.specs.declared.outcome.Outcome.{Outcome};

use crate::engine::Engine;
use crate::messages::message_text;
use pl_base::{Fail, Name, Txt, Ty, Value};
use pl_undo::Mark;
use std::alloc::AllocError;

fn sqlstate_name() -> Name
    ensures { result ≡ codes "sqlstate" }
{
    Name::of("sqlstate").unwrap()
}

fn sqlerrm_name() -> Name
    ensures { result ≡ codes "sqlerrm" }
{
    Name::of("sqlerrm").unwrap()
}

impl Engine {
    /// How many blocks with handlers run their statements, and how many savepoints stand.
    pub fn depth(&self) -> usize
        ensures { result ≡ (world self.now).depth }
    {
        self.journal.depth()
    }

    /// A block with handlers begins to run its statements. The mark keeps the database for them.
    pub fn protect(&mut self) -> Result<Mark, AllocError>
        ensures is { OnOk result (world self.new ≡ deeper (world self.old)) }
        ensures keeps { OnOk result
            (kept self.new ≡ with_mark (world self.old).database (kept self.old)) }
        ensures at { IfOk result (λ mark. mark.at ≡ (world self.old).depth) }
        ensures err { OnErr result
            ((world self.new ≡ world self.old) × (kept self.new ≡ kept self.old)) }
    {
        self.journal.reserve_mark()?;
        Ok(self.journal.mark())
    }

    /// The statements of the block ended, and what they did stays. This mark and later ones go.
    pub fn unprotect(&mut self, mark: Mark)
        requires live { mark.at < (world self.old).depth }
        ensures is { world self.new ≡ record (world self.old) { depth = mark.at } }
        ensures keeps { kept self.new ≡ with_marks mark.at (kept self.old) }
    {
        self.journal.release(mark);
    }

    /// The database is again what it was at the mark, which goes. This wants no memory.
    pub(crate) fn go_back(&mut self, mark: Mark)
        requires live { mark.at < (world self.old).depth }
        ensures is { world self.new ≡ kept_at mark.at self.old }
        ensures keeps { kept self.new ≡ with_marks mark.at (kept self.old) }
    {
        self.journal.roll_back(&mark);
        self.journal.release(mark);
    }

    /// The database is again what it was at the mark, which stays. Later ones go. This wants no
    /// memory.
    pub fn return_to(&mut self, mark: &Mark)
        requires live { mark.now.at < (world self.old).depth }
        ensures is { world self.new ≡ returned_to mark.now.at self.old }
        ensures keeps { kept self.new ≡ with_marks (mark.now.at + 1) (kept self.old) }
    {
        self.journal.roll_back(mark);
    }

    // The error is the newest that the newest call handles.
    #[tactic(auto, using(crate::proofs::Turned::with_last))]
    fn handle(&mut self, f: Fail) -> Result<(), AllocError>
        ensures is { OnOk result (world self.new ≡ with_handled f (world self.old)) }
        ensures keeps { kept self.new ≡ kept self.old }
    {
        self.frames.call_mut().handled.push(f)?;
        Ok(())
    }

    // The newest call handles its newest error no longer.
    #[tactic(auto, using(crate::proofs::Turned::without_last))]
    fn unhandle(&mut self)
        ensures is { world self.new ≡ without_handled (world self.old) }
        ensures keeps { kept self.new ≡ kept self.old }
    {
        self.frames.call_mut().handled.pop();
    }

    // SQLSTATE and SQLERRM stand in a block of their own.
    fn declare_error(
        &mut self,
        label: Option<Name>,
        state: Txt,
        message: Txt,
    ) -> Result<(), AllocError>
        ensures is { OnOk result (world self.new
            ≡ declared (codes "sqlerrm") TextType false (Text message)
            (declared (codes "sqlstate") TextType false (Text state)
            (opened label (world self.old)))) }
        ensures keeps { kept self.new ≡ kept self.old }
    {
        self.open(label)?;
        self.declare(sqlstate_name(), Ty::Text, false, Value::Text(state))?;
        self.declare(sqlerrm_name(), Ty::Text, false, Value::Text(message))
    }

    /// A handler begins with the error: the database is that at the mark, which goes, the newest
    /// call handles the error, and SQLSTATE and SQLERRM are variables.
    ///
    /// Going back wants no memory; the variables do, since SQLERRM is a copy of the message. Where
    /// there is none the engine stops, and what was undone stays undone.
    pub fn begin_handler(
        &mut self,
        mark: Mark,
        label: Option<Name>,
        f: Fail,
    ) -> Result<(), AllocError>
        requires live { mark.at < (world self.old).depth }
        ensures is { OnOk result
            (world self.new ≡ handling label (kept_at mark.at self.old) f (world self.old)) }
        ensures keeps { kept self.new ≡ with_marks mark.at (kept self.old) }
    {
        self.go_back(mark);
        let state = Txt::from_slice(self.alloc, &f.state.code)?;
        let message = message_text(self.alloc, &f)?;
        self.handle(f)?;
        self.declare_error(label, state, message)
    }

    /// A handler ends: its variables are gone, and the newest call handles its error no longer.
    pub fn end_handler(&mut self)
        ensures is { (o : Outcome)
            → Quiet (handled_end o (world self.old)) o self.old self.new }
        ensures keeps { kept self.new ≡ kept self.old }
    {
        self.close();
        self.unhandle();
    }
}
