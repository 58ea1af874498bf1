// Tables made from lists.
ghost use Rattle.std.specs.Prelude.{◌≡◌, ℕ, ◌+◌, ◌*◌, ◌<◌, ◌≤◌, ◌&&◌, length, position, sum, take};
ghost use Rattle.std.specs.Prelude.{◌==◌, slice_index};
ghost use Rattle.plan.specs.Fillable.{ListsFit};
ghost use Rattle.plan.specs.Filling.{own_rows, with_counts, with_own, pair_place, with_room_for};
ghost use Rattle.plan.specs.Filling.{with_record, with_records, Writable, tables_of};
ghost use Rattle.plan.specs.Layout.{written_from};

use crate::layout::{candidate_place, cell_place};
use crate::lists::Lists;
use crate::records::PairRecord;
use crate::tables::{Entries, Pairs, Tables};

impl Entries {
    // The counts, from the first place on. The bounds here and below are those of plain arrays,
    // which a rule of the project asks for.
    fn write_counts(&mut self, counts: &[usize])
        requires few { length counts.now ≤ 16 }
        ensures writes_them { self.new ≡ with_counts self.old
            (written_from 0 (λ e. slice_index counts.now e) (length counts.now) self.old.counts) }
    {
        self.counts[..counts.len()].copy_from_slice(counts);
    }

    // The own penalties of an entry.
    fn write_row(&mut self, e: usize, row: &[u32])
        requires there { e < 16 }
        requires few { length row.now ≤ 8 }
        ensures writes_them { self.new ≡ with_own self.old
            (written_from (8 * e) (λ c. slice_index row.now c) (length row.now) self.old.own) }
    {
        for (c, &points) in row.iter().enumerate() {
            self.own[candidate_place(e, c)] = points;
        }
    }

    // The own penalties of all entries.
    fn write_own(&mut self, counts: &[usize], own: &[u32])
        requires few { length counts.now ≤ 16 }
        requires each_few { (e : ℕ) → e < length counts.now → slice_index counts.now e ≤ 8 }
        requires own_for_each { length own.now ≡ sum counts.now }
        ensures writes_them { self.new ≡ with_own self.old
            (own_rows counts.now own.now (length counts.now) self.old.own) }
    {
        let mut rest = own;
        for (e, &count) in counts.iter().enumerate() {
            let (row, later) = rest.split_at(count);
            self.write_row(e, row);
            rest = later;
        }
    }
}

impl Pairs {
    // The number of the pair of two entries, if it is there.
    fn find(&self, entry: usize, other: usize) -> Option<usize>
        ensures is_the_first { result ≡ position (λ ends. ends.0 == entry && ends.1 == other)
            (take self.now.number self.now.ends) }
    {
        self.ends
            .iter()
            .take(self.number)
            .position(|ends| *ends == (entry, other))
    }

    // Its number; where it is new, it takes the next.
    fn room_for(&mut self, entry: usize, other: usize) -> usize
        requires few { self.old.number ≤ 24 }
        requires place_low { pair_place self.old entry other < 24 }
        ensures is_its_place { result ≡ pair_place self.old entry other }
        ensures makes_room { self.new ≡ with_room_for self.old entry other }
    {
        if let Some(place) = self.find(entry, other) {
            return place;
        }
        let place = self.number;
        self.ends[place] = (entry, other);
        self.number += 1;
        place
    }

    // The points of a record, in the cell that it names.
    fn write(&mut self, r: &PairRecord)
        requires few { self.old.number ≤ 24 }
        requires place_low { pair_place self.old r.now.entry r.now.other < 24 }
        requires candidate_low { r.now.candidate < 8 }
        requires choice_low { r.now.choice < 8 }
        ensures writes_it { self.new ≡ with_record self.old r.now }
    {
        let p = self.room_for(r.entry, r.other);
        self.cells[cell_place(p, r.candidate, r.choice)] = r.points;
    }

    // All records, one after another.
    fn write_all(&mut self, records: &[PairRecord])
        requires writable { (k : ℕ) → k < length records.now → Writable self.old records.now k }
        ensures writes_them { self.new ≡ with_records records.now (length records.now) self.old }
    {
        for record in records {
            self.write(record);
        }
    }
}

impl Lists<'_> {
    // The tables that they make.
    pub(crate) fn tables(&self) -> Tables
        requires fit { ListsFit self.now.ceiling self.now.counts.now self.now.own.now
            self.now.records.now }
        ensures are_the_filled_tables { result ≡ tables_of self.now }
    {
        let mut tables = Tables::empty(self.ceiling);
        tables.entries.number = self.counts.len();
        tables.entries.write_counts(self.counts);
        tables.entries.write_own(self.counts, self.own);
        tables.pairs.write_all(self.records);
        tables
    }
}
