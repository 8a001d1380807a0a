//! Examples that compute.

ghost use Rattle.std.specs.Prelude.{◌≡◌, [], ◌∷◌, codes, true, false, Some};
ghost use Rattle.pl_base.specs.States.{UNDEFINED_TABLE};
ghost use Rattle.pl_change.specs.Operation.{empty};
ghost use Rattle.pl_meaning.specs.Covered.{at_least, at_most};
ghost use Rattle.pl_meaning.specs.ExampleValues.{made, filled, both};
ghost use Rattle.pl_meaning.specs.Meaning.{done};
ghost use Rattle.pl_meaning.specs.Replies.{not_supported};
ghost use Rattle.pl_meaning.specs.Trace.{Failed, is_failed, text, commits, last_commit};
ghost use Rattle.pl_print.specs.declared.reply.Tag.TheVariants.{DropTable};

/// What the definitions say of the events of two commands, which make a table n with a column c and
/// put the row 1 into it.
pub fn examples_hold()
    ensures text { text both ≡ codes "CREATE TABLE\nINSERT 0 1\n" }
    ensures commits { commits both empty ≡ empty ∷ made ∷ filled ∷ [] }
    ensures last { last_commit both empty ≡ filled }
    ensures fails { is_failed (Failed not_supported ∷ []) ≡ true }
    ensures does_not_fail { is_failed both ≡ false }
    ensures error { text (Failed not_supported ∷ [])
        ≡ codes "ERROR:  0A000: feature_not_supported\n" }
    ensures notice { text (done DropTable (Some UNDEFINED_TABLE) made)
        ≡ codes "NOTICE:  undefined_table\nDROP TABLE\n" }
    ensures before_all { (at_least both 0 ≡ 0) × (at_most both 0 ≡ 1) }
    ensures in_the_first { (at_least both 5 ≡ 1) × (at_most both 5 ≡ 1) }
    ensures between { (at_least both 13 ≡ 1) × (at_most both 13 ≡ 2) }
    ensures at_the_end { (at_least both 24 ≡ 2) × (at_most both 24 ≡ 2) }
{}
