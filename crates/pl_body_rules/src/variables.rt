//! Variables, as far as rules ask for them.

ghost use Rattle.std.specs.Prelude.{◌≡◌, [], OnOk};
ghost use Rattle.pl_body_rules.specs.Frames as spec;

use indexmap::IndexMap;
use pl_base::Name;
use std::alloc::{AllocError, Global};
use std::marker::Model;

/// What a variable may be used for.
#[derive(Clone, Copy)]
pub enum VariableKind {
    /// It has no fields and is no cursor.
    Plain,
    /// A row or a record: its fields may be given values too.
    Row,
    /// A cursor that is bound to no query.
    Cursor,
    /// A cursor that is bound to a query with so many parameters.
    Bound { parameters: usize },
}

/// A variable.
#[derive(Clone, Copy)]
pub struct Variable {
    pub kind: VariableKind,
    pub is_constant: bool,
}

/// The variables of one block, loop, handler or routine by their names, in the order in which they
/// were declared.
#[derive(Drop)]
pub struct Variables {
    by_name: IndexMap<Name, Variable>,
}

impl Model for Variables {
    ghost use Rattle.std.specs.Prelude.{List, ℕ};
    ghost use Rattle.std.specs.Coded.{codes};
    ghost use Rattle.pl_body_rules.specs.declared.variables.Variable as declared;
    ghost use Rattle.pl_body_rules.specs.contracts.variables.Variable as variable;

    ghost Value = { List (List ℕ × declared.Variable) };

    ghost coded = { Prim.hlevel (codes, variable.the_row.coded) };

    ghost view = { λ v. v.by_name.entries };
}

impl Variables {
    pub fn new(alloc: Global) -> Variables
        ensures { result ≡ [] }
    {
        Variables {
            by_name: IndexMap::new(alloc),
        }
    }

    /// The variable of this name.
    pub fn get(&self, name: Name) -> Option<Variable>
        ensures { result ≡ spec.variable_in name self.now }
    {
        self.by_name.get(&name).copied()
    }

    /// A variable more. One of its name that is there already stays as it is.
    #[tactic(auto, using(crate::proofs::Entered::known, crate::proofs::Entered::added))]
    pub fn declare(&mut self, name: Name, variable: Variable) -> Result<(), AllocError>
        ensures { OnOk result (self.new ≡ spec.with_variable name variable self.old) }
    {
        if self.get(name).is_some() {
            return Ok(());
        }
        self.by_name.insert(name, variable)?;
        Ok(())
    }
}
