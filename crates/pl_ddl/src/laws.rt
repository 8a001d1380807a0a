//! Laws of what definitions do.

ghost use Rattle.std.specs.Prelude.{◌≡◌, ℕ, List, None, Ok, Some};
ghost use Rattle.pl_catalog.specs.Objects.{object_called, which_of};
ghost use Rattle.pl_catalog.specs.declared.object.Object.{Object};
ghost use Rattle.pl_catalog.specs.declared.object.Object.TheVariants.{Table};
ghost use Rattle.pl_catalog.specs.declared.object.TableDef.{TableDef};
ghost use Rattle.pl_catalog.specs.declared.object.Which.{Which};
ghost use Rattle.pl_ddl.specs.Definition.{defined};
ghost use Rattle.pl_ddl.specs.declared.definition.Defined.TheVariants.{Add, Drop};
ghost use Rattle.pl_tree.specs.declared.command.Definition.{Definition};

/// What a definition adds is a table of its text, and wherever its name is free the text makes the
/// same table, whichever other objects there are.
pub fn one_text_makes_one_table()
    ensures table { (objects : List Object) (d : Definition) (text : List ℕ) (o : Object)
        → defined objects d text ≡ Ok (Add o)
        → (t : TableDef) × (o ≡ Table t) × (t.text ≡ text) }
    ensures alike { (objects others : List Object) (d : Definition) (text : List ℕ) (o : Object)
        → defined objects d text ≡ Ok (Add o) → object_called (which_of o) others ≡ None
        → defined others d text ≡ Ok (Add o) }
{}

/// What a definition adds isn't there yet, and what it drops is.
pub fn definitions_suit_the_objects()
    ensures new { (objects : List Object) (d : Definition) (text : List ℕ) (o : Object)
        → defined objects d text ≡ Ok (Add o) → object_called (which_of o) objects ≡ None }
    ensures there { (objects : List Object) (d : Definition) (text : List ℕ) (w : Which)
        → defined objects d text ≡ Ok (Drop w)
        → (p : Object) × (object_called w objects ≡ Some p) }
{}
