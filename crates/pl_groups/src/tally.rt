//! What an aggregate made of the values so far: PostgreSQL manual, "Aggregate Functions".

ghost use Rattle.std.specs.Prelude.{◌≡◌, ◌+◌, [], pos, IfOk, OnOk, Some};
ghost use Rattle.pl_calc.specs.Answer.{Gives};
ghost use Rattle.pl_calc.specs.Casts.{text_within};
ghost use Rattle.pl_calc.specs.Numbers.{bigint};
ghost use Rattle.pl_groups.specs.Aggregates.{number, text, truth};
ghost use Rattle.pl_groups.specs.Tallies.{added, all_with, any_with, best_with, finished};
ghost use Rattle.pl_groups.specs.Tallies.{is_passed_over, longer, or_null, start, sum_or_null};
ghost use Rattle.pl_groups.specs.Tallies.{sum_with, text_or_null, text_with, truth_or_null, with_value};

use crate::Joined;
use pl_base::{State, Txt, Value};
use pl_calc::{CalcFail, TEXT_LIMIT};
use pl_keys::turned;
use pl_resolved::Aggregate;
use std::alloc::{AllocError, Global};
use std::cmp::Ordering;

/// What an aggregate made of the values that came so far. All but the number of rows pass over
/// nulls, and all but the two numbers are None before the first value.
#[derive(Drop)]
pub enum Tally {
    /// How many rows came.
    Rows(u64),
    /// How many values came.
    Values(u64),
    Sum(Option<i128>),
    Least(Option<Value>),
    Greatest(Option<Value>),
    All(Option<bool>),
    Any(Option<bool>),
    Texts(Option<Joined>),
}

impl Tally {
    pub fn new(aggregate: Aggregate) -> Tally
        ensures { result ≡ start aggregate }
    {
        match aggregate {
            Aggregate::CountRows => Tally::Rows(0),
            Aggregate::Count => Tally::Values(0),
            Aggregate::Sum => Tally::Sum(None),
            Aggregate::Min => Tally::Least(None),
            Aggregate::Max => Tally::Greatest(None),
            Aggregate::BoolAnd => Tally::All(None),
            Aggregate::BoolOr => Tally::Any(None),
            Aggregate::StringAgg => Tally::Texts(None),
        }
    }

    /// Adds what the first and the second argument are in one row more.
    pub fn add(&mut self, alloc: Global, v: &Value, other: &Value) -> Result<(), AllocError>
        ensures { OnOk result (self.new ≡ added self.old (v.now, other.now)) }
    {
        if self.passes_over(v) {
            return Ok(());
        }
        self.add_value(alloc, v, other)
    }

    fn passes_over(&self, v: &Value) -> bool
        ensures { result ≡ is_passed_over self.now v.now }
    {
        match self {
            Tally::Rows(_) => false,
            _ => matches!(v, Value::Null),
        }
    }

    fn add_value(&mut self, alloc: Global, v: &Value, other: &Value) -> Result<(), AllocError>
        ensures { OnOk result (self.new ≡ with_value self.old v.now other.now) }
    {
        match self {
            Tally::Rows(count) => *count = one_more(*count)?,
            Tally::Values(count) => *count = one_more(*count)?,
            Tally::Sum(sum) => *sum = Some(sum_with(*sum, v)?),
            Tally::Least(best) => add_best(alloc, best, v, false)?,
            Tally::Greatest(best) => add_best(alloc, best, v, true)?,
            Tally::All(all) => *all = Some(all_with(*all, v)),
            Tally::Any(any) => *any = Some(any_with(*any, v)),
            Tally::Texts(joined) => add_text(alloc, joined, v, other)?,
        }
        Ok(())
    }

    /// What the aggregate gives. 22003 for a sum that 64 bits can't hold, 54000 for too long a
    /// text.
    pub fn finish(&self, alloc: Global) -> Result<Value, CalcFail>
        ensures { Gives result (finished self.now) }
    {
        match self {
            Tally::Rows(count) => bigint_of_count(*count),
            Tally::Values(count) => bigint_of_count(*count),
            Tally::Sum(sum) => sum_or_null(*sum),
            Tally::Least(best) => Ok(copy_or_null(alloc, best)?),
            Tally::Greatest(best) => Ok(copy_or_null(alloc, best)?),
            Tally::All(truth) => Ok(truth_or_null(*truth)),
            Tally::Any(truth) => Ok(truth_or_null(*truth)),
            Tally::Texts(joined) => text_or_null(alloc, joined),
        }
    }
}

fn one_more(count: u64) -> Result<u64, AllocError>
    ensures { IfOk result (λ n. n ≡ count + 1) }
{
    match count.checked_add(1) {
        Some(count) => Ok(count),
        None => Err(AllocError),
    }
}

// 128 bits hold the sum of more values than there is memory for.
fn sum_with(sum: Option<i128>, v: &Value) -> Result<i128, AllocError>
    ensures { IfOk result (λ made. made ≡ sum_with sum v.now) }
{
    match sum {
        None => Ok(i128::from(number(v))),
        Some(sum) => match sum.checked_add(i128::from(number(v))) {
            Some(sum) => Ok(sum),
            None => Err(AllocError),
        },
    }
}

fn number(v: &Value) -> i64
    ensures { result ≡ number v.now }
{
    match v {
        Value::Int(number) => i64::from(*number),
        Value::Big(number) => *number,
        _ => 0,
    }
}

fn add_best(
    alloc: Global,
    best: &mut Option<Value>,
    v: &Value,
    is_greatest: bool,
) -> Result<(), AllocError>
    ensures { OnOk result (best.new ≡ Some (best_with is_greatest best.old v.now)) }
{
    match best {
        None => {
            *best = Some(v.copy(alloc)?);
            Ok(())
        }
        Some(known) => keep_best(alloc, known, v, is_greatest),
    }
}

fn keep_best(
    alloc: Global,
    best: &mut Value,
    v: &Value,
    is_greatest: bool,
) -> Result<(), AllocError>
    ensures { OnOk result (best.new ≡ best_with is_greatest (Some best.old) v.now) }
{
    if turned(is_greatest, v, best) == Ordering::Less {
        *best = v.copy(alloc)?;
    }
    Ok(())
}

fn all_with(all: Option<bool>, v: &Value) -> bool
    ensures { result ≡ all_with all v.now }
{
    match all {
        None => truth(v),
        Some(all) => all && truth(v),
    }
}

fn any_with(any: Option<bool>, v: &Value) -> bool
    ensures { result ≡ any_with any v.now }
{
    match any {
        None => truth(v),
        Some(any) => any || truth(v),
    }
}

fn truth(v: &Value) -> bool
    ensures { result ≡ truth v.now }
{
    match v {
        Value::Bool(truth) => *truth,
        _ => false,
    }
}

fn add_text(
    alloc: Global,
    joined: &mut Option<Joined>,
    v: &Value,
    separator: &Value,
) -> Result<(), AllocError>
    ensures { OnOk result (joined.new ≡ Some (text_with joined.old v.now separator.now)) }
{
    match joined {
        None => {
            *joined = Some(first_text(alloc, v)?);
            Ok(())
        }
        Some(made) => add_behind(made, v, separator),
    }
}

fn first_text(alloc: Global, v: &Value) -> Result<Joined, AllocError>
    ensures { IfOk result (λ made. made ≡ longer [] (text v.now)) }
{
    let mut made = Joined::new(alloc);
    made.add(text(v))?;
    Ok(made)
}

fn add_behind(made: &mut Joined, v: &Value, separator: &Value) -> Result<(), AllocError>
    ensures { OnOk result (made.new ≡ text_with (Some made.old) v.now separator.now) }
{
    made.add(text(separator))?;
    made.add(text(v))
}

fn text(v: &Value) -> &[u8]
    ensures { result.now ≡ text v.now }
{
    match v {
        Value::Text(text) => text.as_bytes(),
        _ => &[],
    }
}

fn bigint_of_count(count: u64) -> Result<Value, CalcFail>
    ensures { Gives result (bigint (pos count)) }
{
    match i64::try_from(count) {
        Ok(number) => Ok(Value::Big(number)),
        Err(_) => Err(CalcFail::State(State::NUMERIC_VALUE_OUT_OF_RANGE)),
    }
}

fn sum_or_null(sum: Option<i128>) -> Result<Value, CalcFail>
    ensures { Gives result (sum_or_null sum) }
{
    match sum {
        None => Ok(Value::Null),
        Some(sum) => bigint(sum),
    }
}

fn bigint(number: i128) -> Result<Value, CalcFail>
    ensures { Gives result (bigint number) }
{
    match i64::try_from(number) {
        Ok(number) => Ok(Value::Big(number)),
        Err(_) => Err(CalcFail::State(State::NUMERIC_VALUE_OUT_OF_RANGE)),
    }
}

fn copy_or_null(alloc: Global, best: &Option<Value>) -> Result<Value, AllocError>
    ensures { IfOk result (λ v. v ≡ or_null best.now) }
{
    match best {
        None => Ok(Value::Null),
        Some(best) => best.copy(alloc),
    }
}

fn truth_or_null(truth: Option<bool>) -> Value
    ensures { result ≡ truth_or_null truth }
{
    match truth {
        None => Value::Null,
        Some(truth) => Value::Bool(truth),
    }
}

fn text_or_null(alloc: Global, joined: &Option<Joined>) -> Result<Value, CalcFail>
    ensures { Gives result (text_or_null joined.now) }
{
    match joined {
        None => Ok(Value::Null),
        Some(joined) => limited(joined.copy(alloc)?),
    }
}

fn limited(text: Txt) -> Result<Value, CalcFail>
    ensures { Gives result (text_within text) }
{
    if text.len() > TEXT_LIMIT {
        return Err(CalcFail::State(State::PROGRAM_LIMIT_EXCEEDED));
    }
    Ok(Value::Text(text))
}
