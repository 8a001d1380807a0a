//! That a script means one thing.

ghost use Rattle.std.specs.Prelude.{◌≡◌, ◌↔◌, List};
ghost use Rattle.pl_lex.specs.Characters.{Text};
ghost use Rattle.pl_change.specs.pl_reading.Computed.{script_readings};
ghost use Rattle.pl_meaning.specs.Meaning.{Readings};
ghost use Rattle.pl_change.specs.pl_reading.declared.reading.Reading.{Reading};

/// Each text has exactly one list of readings, so a script has one trace from each database.
pub fn one_trace()
    ensures is { (text : Text) (readings : List Reading) → Readings text readings
        ↔ (readings ≡ script_readings text) }
{}
