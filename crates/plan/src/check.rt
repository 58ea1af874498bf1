// Whether lists fill a plan: the first fault, in the order of the checks.
ghost use Rattle.std.specs.Prelude.{◌≡◌, ℕ, ◌<◌, ◌≤◌, ◌&&◌, length, sum, MatchResult, nat_le};
ghost use Rattle.std.specs.Prelude.{nat_lt};
ghost use Rattle.plan.specs.Faults.{counts_fault, own_fault, names_absent, lone_fault};
ghost use Rattle.plan.specs.Faults.{record_fault, first_fault, in_list, fault_of};
ghost use Rattle.plan.specs.Fillable.{FillableBy};
ghost use Rattle.plan.specs.Records.{of_pair, names_cell};
ghost use Rattle.plan.specs.Refusing.{Finds};
ghost use Rattle.plan.specs.declared.refusals.FillList.TheVariants.{Pairs};

use crate::lists::Lists;
use crate::records::PairRecord;
use crate::refusals::{FillFault, FillList, Refusal};
use crate::tables::{MOST_CANDIDATES, MOST_ENTRIES, MOST_PAIRS, Tables};
use scale::ceiling::HIGHEST_CEILING;

// Whether a count is from 1 to 8. Here and below each limit has a test of its own, in which its
// constant meets the number that the contract names; a generic test of a limit would be no plainer
// than `>`.
fn is_count(count: usize) -> bool
    ensures is_in_range { result ≡ (nat_le 1 count && nat_le count 8) }
{
    (1..=MOST_CANDIDATES).contains(&count)
}

// Whether there are more entries than a plan has room for.
fn too_many(entries: usize) -> bool
    ensures is_so { result ≡ nat_lt 16 entries }
{
    entries > MOST_ENTRIES
}

// Whether points are above the ceiling.
fn is_above(ceiling: u32, points: u32) -> bool
    ensures is_so { result ≡ nat_lt ceiling points }
{
    points > ceiling
}

// Whether there is no room for a pair more.
fn is_full(pairs: usize) -> bool
    ensures is_so { result ≡ nat_le 24 pairs }
{
    pairs >= MOST_PAIRS
}

// Whether two records are of the same pair, and whether they name the same cell.
fn same_pair(s: &PairRecord, r: &PairRecord) -> bool
    ensures is_so { result ≡ of_pair s.now r.now.entry r.now.other }
{
    (s.entry, s.other) == (r.entry, r.other)
}

fn same_cell(s: &PairRecord, r: &PairRecord) -> bool
    ensures is_so { result ≡ names_cell s.now r.now.entry r.now.candidate r.now.other r.now.choice }
{
    same_pair(s, r) && (s.candidate, s.choice) == (r.candidate, r.choice)
}

impl Lists<'_> {
    // There are 1 to 16 counts, each from 1 to 8. A `position` of the first fault would be no
    // shorter, here and in the next check.
    fn check_counts(&self) -> Result<(), FillFault>
        ensures is_the_first_fault { Finds (counts_fault self.now.counts.now) result }
    {
        if self.counts.is_empty() {
            return Err(FillFault::at(Refusal::CountOutOfRange, FillList::Counts, 0));
        }
        if too_many(self.counts.len()) {
            return Err(FillFault::at(Refusal::CountOutOfRange, FillList::Counts, MOST_ENTRIES));
        }
        for (place, &count) in self.counts.iter().enumerate() {
            if !is_count(count) {
                return Err(FillFault::at(Refusal::CountOutOfRange, FillList::Counts, place));
            }
        }
        Ok(())
    }

    // The number of all candidates.
    fn total(&self) -> usize
        requires few { sum self.now.counts.now ≤ 128 }
        ensures is_the_sum { result ≡ sum self.now.counts.now }
    {
        self.counts.iter().sum()
    }

    // There is an own penalty for each candidate, at most the ceiling.
    fn check_own(&self) -> Result<(), FillFault>
        requires few { sum self.now.counts.now ≤ 128 }
        ensures is_the_first_fault { Finds
            (own_fault self.now.ceiling self.now.counts.now self.now.own.now) result }
    {
        let total = self.total();
        if self.own.len() != total {
            return Err(FillFault::at(Refusal::OwnLength, FillList::Own, total));
        }
        for (place, &points) in self.own.iter().enumerate() {
            if is_above(self.ceiling, points) {
                return Err(FillFault::at(Refusal::PointsAboveCeiling, FillList::Own, place));
            }
        }
        Ok(())
    }

    // Whether a record names what is absent, or its first entry is not the lower one.
    fn names_absent(&self, r: &PairRecord) -> bool
        ensures is_so { result ≡ names_absent self.now.counts.now r.now }
    {
        r.entry >= r.other
            || r.other >= self.counts.len()
            || r.candidate >= self.counts[r.entry]
            || r.choice >= self.counts[r.other]
    }

    // A record by itself names what is there, and its points are at most the ceiling.
    fn check_alone(&self, r: &PairRecord) -> Result<(), Refusal>
        ensures is_the_first_fault { Finds
            (lone_fault self.now.ceiling self.now.counts.now r.now) result }
    {
        if self.names_absent(r) {
            return Err(Refusal::RecordOfAbsent);
        }
        if is_above(self.ceiling, r.points) {
            return Err(Refusal::PointsAboveCeiling);
        }
        Ok(())
    }

    // Each record is held against those before it. A rule of the project: a repeated cell or a pair
    // too many is sought by nested loops, which are left at the first fault by their label; the
    // inner one tells whether its pair was met.
    fn check_records(&self) -> Result<(), FillFault>
        ensures is_the_first_fault { Finds
            (in_list Pairs
            (first_fault (record_fault self.now.ceiling self.now.counts.now self.now.records.now)
            (length self.now.records.now)))
            result }
    {
        let mut pairs: usize = 0;
        'records: {
            for (i, r) in self.records.iter().enumerate() {
                let fault = move |refusal| FillFault::at(refusal, FillList::Pairs, i);
                // `map_err(fault)?` was tried: the proof did not find which refusal it then is.
                if let Err(refusal) = self.check_alone(r) {
                    break 'records Err(fault(refusal));
                }
                let mut known = false;
                for s in &self.records[..i] {
                    if same_pair(s, r) {
                        known = true;
                        if same_cell(s, r) {
                            break 'records Err(fault(Refusal::RepeatedCell));
                        }
                    }
                }
                if !known {
                    if is_full(pairs) {
                        break 'records Err(fault(Refusal::TooManyPairs));
                    }
                    pairs += 1;
                }
            }
            Ok(())
        }
    }
}

impl Tables {
    // Whether lists fill these tables, or else why not, at the first fault.
    pub(crate) fn check_fill(&self, lists: &Lists) -> Result<(), FillFault>
        ensures is_the_first_fault { Finds (fault_of self.now lists.now) result }
        ensures none_exactly_where_fillable { MatchResult result
            (λ _. FillableBy self.now lists.now) (λ _. ¬ FillableBy self.now lists.now) }
    {
        if self.entries.number != 0 {
            return Err(FillFault::at(Refusal::AlreadyFilled, FillList::Counts, 0));
        }
        if !(1..=HIGHEST_CEILING).contains(&lists.ceiling) {
            return Err(FillFault::at(Refusal::CeilingOutOfRange, FillList::Counts, 0));
        }
        lists.check_counts()?;
        lists.check_own()?;
        lists.check_records()
    }
}
