//! Laws that the meanings of expressions and of queries keep.

ghost use Rattle.std.specs.Prelude.{List, Result};
ghost use Rattle.pl_natural.specs.Kept.{kept, CallsAgree, PartsAgree, ReadsKept, SubsAgree};
ghost use Rattle.pl_query.specs.Query.{rows};
ghost use Rattle.pl_query.specs.Sources.{Tables};
ghost use Rattle.pl_resolved.specs.declared.expression.RExpr.{RExpr};
ghost use Rattle.pl_resolved.specs.declared.query.RQuery.{RQuery};
ghost use Rattle.pl_value.specs.Answers.{Reads};
ghost use Rattle.pl_value.specs.Meaning.{Calls, Sub, value};
ghost use Rattle.pl_value.specs.Reading.{Reading};
ghost use Rattle.pl_value.specs.declared.operand.Unsettled.{Unsettled};

/// An expression needs no more of the state than the calls of routines and the queries inside it.
pub fn values_agree<W, V>()
    ensures values { (keep : W → V) (calls : Calls W) (kept_calls : Calls V)
        → CallsAgree keep calls kept_calls → (sub : Sub W) (kept_sub : Sub V)
        → SubsAgree keep sub kept_sub → (e : RExpr)
        → PartsAgree keep (value calls sub e) (value kept_calls kept_sub e) }
{}

/// Queries need no more of the state than the calls of routines inside them.
pub fn rows_agree<W, V>()
    ensures rows { (keep : W → V) (calls : Calls W) (kept_calls : Calls V)
        → CallsAgree keep calls kept_calls → (queries : List RQuery) (tables : Tables)
        → SubsAgree keep (rows calls queries tables) (rows kept_calls queries tables) }
{}

/// What is answered over what is kept of a state was read over the state itself.
pub fn answers_tell<W, V, A>()
    ensures told { (keep : W → V) (reading : Reading W A) (answer : Result A Unsettled) (left : V)
        → Reads (kept keep reading) answer left → ReadsKept keep reading answer left }
{}
