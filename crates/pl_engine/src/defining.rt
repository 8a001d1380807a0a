//! CREATE and DROP: PostgreSQL manual, "Data Definition".

ghost use Rattle.std.specs.Prelude.{◌≡◌, bytes_eq, true, List, ℕ, Some};
ghost use Rattle.std.specs.List.{list_any};
ghost use Rattle.pl_engine.specs.Changing.{Defined};
ghost use Rattle.pl_engine.specs.Engines.{kept, world};
ghost use Rattle.pl_world.specs.pl_journal.Definitions.{redefined};
ghost use Rattle.pl_world.specs.pl_reading.Computed.{definition_in};
ghost use Rattle.pl_world.specs.Commands as spec;

use crate::engine::Engine;
use pl_base::{Name, State, Txt};
use pl_tree::Definition;
use pl_typing::ScopeFail;

// The table that a definition takes away, or whose triggers it changes.
fn table_of(definition: &Definition) -> Option<Name>
    ensures { result ≡ spec.table_of definition.now }
{
    match definition {
        Definition::CreateTable(_) | Definition::CreateRoutine(_) => None,
        Definition::CreateTrigger(trigger) => Some(trigger.table),
        Definition::DropTable { name, .. } => Some(*name),
        Definition::DropRoutine { .. } => None,
        Definition::DropTrigger { table, .. } => Some(*table),
    }
}

// This name is among the others.
fn is_among(name: Name, others: &[Name]) -> bool
    ensures { result ≡ list_any (λ (other : List ℕ). bytes_eq other name) others.now }
{
    others.iter().any(|other| *other == name)
}

impl Engine {
    // Whether a running change writes this table.
    fn is_changing(&self, table: Option<Name>) -> bool
        ensures { result ≡ spec.is_changing table (world self.now).changing }
    {
        match table {
            Some(table) => is_among(table, self.changing.as_slice()),
            None => false,
        }
    }

    // Carries out the definition, whichever changes run.
    fn carry_out(&mut self, definition: &Definition, text: Txt) -> Result<Option<State>, ScopeFail>
        requires text { definition_in text ≡ Some definition.now }
        ensures is { Defined (redefined definition.now text (world self.old).database) result
            (world self.old) (world self.new) }
        ensures keeps { kept self.new ≡ kept self.old }
    {
        self.journal.define(definition, text)
    }

    // A running change writes the table: the definition is refused, after all else for which it
    // would be.
    fn refuse(&mut self, definition: &Definition, text: Txt) -> Result<Option<State>, ScopeFail>
        requires text { definition_in text ≡ Some definition.now }
        requires in_use { spec.is_changing (spec.table_of definition.now)
            (world self.old).changing ≡ true }
        ensures is { Defined (spec.defining (Some definition.now) text (world self.old).changing
            (world self.old).database) result (world self.old) (world self.new) }
        ensures keeps { kept self.new ≡ kept self.old }
    {
        let mark = self.protect()?;
        match self.carry_out(definition, text) {
            Ok(None) => {
                self.go_back(mark);
                Err(ScopeFail::State(State::OBJECT_IN_USE))
            }
            Ok(Some(notice)) => {
                self.unprotect(mark);
                Ok(Some(notice))
            }
            Err(fail) => {
                self.unprotect(mark);
                Err(fail)
            }
        }
    }

    /// Carries out a definition, whose own text this is: its first refusal, and then 55006 where a
    /// running change writes the table that it takes away. The SQLSTATE of a notice where it leaves
    /// all as it is.
    pub fn define(&mut self, definition: &Definition, text: Txt) -> Result<Option<State>, ScopeFail>
        requires text { definition_in text ≡ Some definition.now }
        ensures is { Defined (spec.defining (Some definition.now) text (world self.old).changing
            (world self.old).database) result (world self.old) (world self.new) }
        ensures keeps { kept self.new ≡ kept self.old }
    {
        if self.is_changing(table_of(definition)) {
            return self.refuse(definition, text);
        }
        self.carry_out(definition, text)
    }
}
