// Lists for plans of three entries, and what tunings cost by them.
ghost use Rattle.std.specs.Prelude.{◌<◌};

use crate::dice::Dice;
use plan::records::PairRecord;
use scale::Scale;
use std::alloc::{AllocError, Global};

// They own what the lists of `fill` lend. Nothing compares them.
#[derive(Debug, Drop)]
pub(crate) struct Lists {
    pub ceiling: u32,
    pub counts: [usize; 3],
    pub own: Vec<u32>,
    pub pairs: Vec<PairRecord>,
}

impl Lists {
    // Three entries of one to three candidates, and up to three pairs.
    pub(crate) fn random(heap: Global, dice: &mut Dice) -> Result<Lists, AllocError> {
        let mut lists = Lists {
            ceiling: 5 + dice.below(20),
            counts: [0; 3],
            own: Vec::new(heap),
            pairs: Vec::new(heap),
        };
        lists.push_entries(dice)?;
        for (entry, other) in [(0, 1), (1, 2), (0, 2)] {
            lists.push_pair(dice, entry, other)?;
        }
        Ok(lists)
    }

    // Each entry's number of candidates, and their own penalties.
    fn push_entries(&mut self, dice: &mut Dice) -> Result<(), AllocError> {
        for count in &mut self.counts {
            *count = 1 + dice.place(3);
            for _ in 0..*count {
                self.own.push(dice.below(self.ceiling))?;
            }
        }
        Ok(())
    }

    // A pair's cells, each with points or not listed.
    fn push_pair(&mut self, dice: &mut Dice, entry: usize, other: usize) -> Result<(), AllocError>
        requires entry_is_there { entry < 3 }
        requires other_is_there { other < 3 }
    {
        for candidate in 0..self.counts[entry] {
            for choice in 0..self.counts[other] {
                if dice.below(3) > 0 {
                    self.pairs.push(PairRecord {
                        entry,
                        candidate,
                        other,
                        choice,
                        points: dice.below(self.ceiling),
                    })?;
                }
            }
        }
        Ok(())
    }

    // What a tuning's own penalties join to, from the own list.
    fn own_cost<S: Scale>(&self, scale: &S, tuning: &[usize; 3]) -> u32 {
        let mut total = 0;
        let mut rest: &[u32] = &self.own;
        for (candidate, count) in tuning.iter().zip(&self.counts) {
            let points = rest.get(*candidate).copied().unwrap_or(0);
            total = scale.join(self.ceiling, total, points);
            rest = rest.get(*count..).unwrap_or(&[]);
        }
        total
    }

    // Its filled cost: those, and the points of each record whose two candidates it names.
    pub(crate) fn filled_cost<S: Scale>(&self, scale: &S, tuning: &[usize; 3]) -> u32 {
        let mut total = self.own_cost(scale, tuning);
        for record in &self.pairs {
            if tuning.get(record.entry) == Some(&record.candidate)
                && tuning.get(record.other) == Some(&record.choice)
            {
                total = scale.join(self.ceiling, total, record.points);
            }
        }
        total
    }
}
