//! An aggregate for each group.

ghost use Rattle.std.specs.Prelude.{◌≡◌, [], map, List, OnOk};
ghost use Rattle.pl_base.specs.declared.value.Value as base;
ghost use Rattle.pl_calc.specs.Answer.{Gives};
ghost use Rattle.pl_groups.specs.Aggregates.{aggregated};
ghost use Rattle.pl_groups.specs.Tallies.{answer_at, shown, tally_at, tally_of};
ghost use Rattle.pl_groups.specs.Tallies.{with_added};

use crate::Tally;
use pl_base::Value;
use pl_calc::CalcFail;
use pl_resolved::Aggregate;
use std::alloc::{AllocError, Global};

/// What an aggregate made so far, for each group.
#[derive(Drop)]
pub struct Column {
    aggregate: Aggregate,
    tallies: Vec<Tally>,
}

impl Column {
    /// An aggregate for no group.
    pub fn new(alloc: Global, aggregate: Aggregate) -> Column
        ensures { shown result ≡ (aggregate, []) }
    {
        Column {
            aggregate,
            tallies: Vec::new(alloc),
        }
    }

    /// Adds what the first and the second argument are in one row more of the group at the place,
    /// from 0. Where there is no such group yet, one more stands behind the others.
    pub fn add(
        &mut self,
        alloc: Global,
        place: usize,
        v: &Value,
        other: &Value,
    ) -> Result<(), AllocError>
        ensures { OnOk result (shown self.new
            ≡ with_added place (v.now, other.now) (shown self.old)) }
    {
        if place < self.tallies.len() {
            self.tallies[place].add(alloc, v, other)
        } else {
            let mut tally = Tally::new(self.aggregate);
            tally.add(alloc, v, other)?;
            self.tallies.push(tally)?;
            Ok(())
        }
    }

    /// What the aggregate gives for the group at the place, of which no row came where it isn't
    /// there. 22003 for a sum that 64 bits can't hold, 54000 for too long a text.
    pub fn finish(&self, alloc: Global, place: usize) -> Result<Value, CalcFail>
        ensures answer { Gives result (answer_at place (shown self.now)) }
        ensures aggregated { (pairs : List (base.Value × base.Value))
            → tally_at place (shown self.now) ≡ tally_of self.now.aggregate pairs
            → Gives result (aggregated self.now.aggregate
            (map (λ (p : base.Value × base.Value). p.0) pairs)
            (map (λ (p : base.Value × base.Value). p.1) pairs)) }
    {
        self.answer(alloc, place)
    }

    fn answer(&self, alloc: Global, place: usize) -> Result<Value, CalcFail>
        ensures { Gives result (answer_at place (shown self.now)) }
    {
        match self.tallies.get(place) {
            Some(tally) => tally.finish(alloc),
            None => Tally::new(self.aggregate).finish(alloc),
        }
    }
}
