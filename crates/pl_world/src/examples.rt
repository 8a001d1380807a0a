//! Examples that compute.

ghost use Rattle.std.specs.Prelude.{◌≡◌, ◌∷◌, [], codes, false, neg_ℤ, pos, true, Ok, Some, None};
ghost use Rattle.pl_base.specs.States.{DIVISION_BY_ZERO, QUERY_CANCELED, RAISE_EXCEPTION};
ghost use Rattle.pl_base.specs.declared.types.Ty.TheVariants.{Text as TextType};
ghost use Rattle.pl_calc.specs.Logic.{is_null};
ghost use Rattle.pl_meaning.specs.pl_names.Names.{qualified_means};
ghost use Rattle.pl_print.specs.TextForm.{output};
ghost use Rattle.pl_tree.specs.declared.command.RoutineKind.TheVariants.{Function, Procedure};
ghost use Rattle.pl_world.specs.Calls.{given, is_called_by, void};
ghost use Rattle.pl_world.specs.Conditions.{code_named, code_or_name, covers, is_other};
ghost use Rattle.pl_world.specs.Control.{numbers};
ghost use Rattle.pl_world.specs.ExampleValues.{empty_world, names_there};
ghost use Rattle.pl_world.specs.Laws.{end_of};
ghost use Rattle.pl_world.specs.Raising.{formatted};
ghost use Rattle.pl_world.specs.Sessions.{top};
ghost use Rattle.pl_world.specs.declared.outcome.Outcome.TheVariants.{Next, Return};

/// The turns of FOR, the text of RAISE, which errors a condition stands for, SQLSTATE behind a
/// block's label, which routines are called how, and what one that returns void gives.
pub fn examples_hold()
    ensures up { numbers false (pos 1) (pos 6) (pos 2) ≡ pos 1 ∷ pos 3 ∷ pos 5 ∷ [] }
    ensures to_the_last { numbers false (pos 1) (pos 5) (pos 2) ≡ pos 1 ∷ pos 3 ∷ pos 5 ∷ [] }
    ensures down { numbers true (pos 7) (pos 1) (pos 3) ≡ pos 7 ∷ pos 4 ∷ pos 1 ∷ [] }
    ensures none { numbers false (pos 2) (pos 1) (pos 1) ≡ [] }
    ensures one { numbers true (neg_ℤ (pos 1)) (neg_ℤ (pos 1)) (pos 9) ≡ neg_ℤ (pos 1) ∷ [] }
    ensures text { formatted (codes "100%% of %%%") (codes "3" ∷ []) ≡ codes "100% of %3" }
    ensures named { code_named (codes "division_by_zero") ≡ Some DIVISION_BY_ZERO }
    ensures coded { code_or_name (codes "22012") ≡ Some DIVISION_BY_ZERO }
    ensures success { code_or_name (codes "00000") ≡ None }
    ensures of_its_class { covers (code_named (codes "data_exception")) DIVISION_BY_ZERO ≡ true }
    ensures of_no_class { covers (code_named (codes "raise_exception")) DIVISION_BY_ZERO ≡ false }
    ensures others { is_other RAISE_EXCEPTION ≡ true }
    ensures not_canceled { is_other QUERY_CANCELED ≡ false }
    ensures sqlstate_of_block { qualified_means (codes "b") (codes "sqlstate") names_there
        ≡ Ok (record { row = 0; column = 0; ty = TextType; is_barred = false }) }
    ensures no_function_by_call { is_called_by true Function ≡ false }
    ensures no_procedure_inside { is_called_by false Procedure ≡ false }
    ensures void_given { end_of (given None Next top empty_world) ≡ Return void }
    ensures void_prints { output void ≡ [] }
    ensures void_is_no_null { is_null void ≡ false }
{}
