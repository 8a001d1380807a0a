//! Laws of what definitions do.

ghost use Rattle.std.specs.Prelude.{◌≡◌, ◌↔◌, ℕ, List, None, Ok, Err, Some};
ghost use Rattle.pl_base.specs.declared.state.State.{State};
ghost use Rattle.pl_bodies.specs.declared.statement.Body.{Body};
ghost use Rattle.pl_routine.specs.pl_body_rules.Heading.{Routine as Declared};
ghost use Rattle.pl_routine_ddl.specs.pl_catalog.Objects.{object_called, which_of};
ghost use Rattle.pl_routine_ddl.specs.pl_catalog.declared.object.Object.{Object};
ghost use Rattle.pl_routine_ddl.specs.pl_catalog.declared.object.Object.TheVariants.{Routine as AsRoutine};
ghost use Rattle.pl_routine_ddl.specs.pl_catalog.declared.object.Routine.{Routine};
ghost use Rattle.pl_routine_ddl.specs.pl_catalog.declared.object.Which.{Which};
ghost use Rattle.pl_define.specs.Bodies.{body_in, IsRefused};
ghost use Rattle.pl_define.specs.Definition.{defined, text_of};
ghost use Rattle.pl_define.specs.declared.definition.Defined.TheVariants.{Add, Drop, Replace};
ghost use Rattle.pl_lex.specs.Characters.{Text};
ghost use Rattle.pl_routine.specs.Reading.{Answers};
ghost use Rattle.pl_tree.specs.declared.command.Definition.{Definition};

/// A text is read as exactly one thing: the body that is computed, or the refusal.
pub fn one_body_of_a_text()
    ensures body { (text : Text) (r : Declared) (b : Body)
        → (body_in text r ≡ Ok b) ↔ Answers text r (Ok b) }
    ensures refusal { (text : Text) (r : Declared) (state : State)
        → (body_in text r ≡ Err state) ↔ IsRefused text r state }
{}

/// What a definition adds, or puts in the place of another, is an object of its text; and wherever
/// its name is free the text adds the same object, whichever other objects there are.
pub fn one_text_makes_one_object()
    ensures text { (objects : List Object) (d : Definition) (text : List ℕ) (o : Object)
        → defined objects d text ≡ Ok (Add o) → text_of o ≡ text }
    ensures alike { (objects others : List Object) (d : Definition) (text : List ℕ) (o : Object)
        → defined objects d text ≡ Ok (Add o) → object_called (which_of o) others ≡ None
        → defined others d text ≡ Ok (Add o) }
    ensures replacing_text { (objects : List Object) (d : Definition) (text : List ℕ) (o : Object)
        → defined objects d text ≡ Ok (Replace o) → text_of o ≡ text }
    ensures replacing_alike { (objects others : List Object) (d : Definition) (text : List ℕ)
        (o : Object)
        → defined objects d text ≡ Ok (Replace o) → object_called (which_of o) others ≡ None
        → defined others d text ≡ Ok (Add o) }
{}

/// What a definition adds isn't there yet; what it drops is, and so is what it takes the place of,
/// which is a routine.
pub fn definitions_suit_the_objects()
    ensures new { (objects : List Object) (d : Definition) (text : List ℕ) (o : Object)
        → defined objects d text ≡ Ok (Add o) → object_called (which_of o) objects ≡ None }
    ensures there { (objects : List Object) (d : Definition) (text : List ℕ) (w : Which)
        → defined objects d text ≡ Ok (Drop w)
        → (p : Object) × (object_called w objects ≡ Some p) }
    ensures replaced { (objects : List Object) (d : Definition) (text : List ℕ) (o : Object)
        → defined objects d text ≡ Ok (Replace o)
        → (p : Object) × (object_called (which_of o) objects ≡ Some p) }
    ensures routine { (objects : List Object) (d : Definition) (text : List ℕ) (o : Object)
        → defined objects d text ≡ Ok (Replace o) → (r : Routine) × (o ≡ AsRoutine r) }
{}
