//! Laws of calls.

ghost use Rattle.std.specs.Prelude.{◌≡◌, []};
ghost use Rattle.pl_names.specs.Names.{Name, Around};
ghost use Rattle.pl_names.specs.Routines.{called};
ghost use Rattle.pl_typing.specs.Functions.{function_called};
ghost use Rattle.pl_typing.specs.declared.calls.Arguments.{Arguments};

/// Where there are no routines, a call is one of a built-in function, or fails as one that there
/// isn't.
pub fn without_routines_a_call_is_built_in()
    ensures { (name : Name) (all : Arguments) (a : Around) → a.routines ≡ []
        → called name all a ≡ function_called name all }
{}
