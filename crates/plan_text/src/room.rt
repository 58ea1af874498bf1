// Room for the lists of a plan's text, made before it is read.
ghost use Rattle.std.specs.Prelude.{◌≡◌, ◌≤◌, vec_capacity, vec_len, IfErr};
ghost use Rattle.plan_text.specs.Readings.{as_reading, reading};
ghost use Rattle.plan_text.specs.RoundTrips.{IsWrittenSo, ReadsBack};
ghost use Rattle.plan_text.specs.declared.faults.TextFault.TheVariants.{OutOfMemory};

use crate::columns::order_named;
use crate::faults::TextFault;
use crate::fields::cut;
use crate::lists::PlanLists;
use crate::reading::read_lines;
use plan::tables::MOST_ENTRIES;
use std::alloc::Global;

// The longest text that is read, in bytes.
const LONGEST_TEXT: usize = 30_720;

// Empty lists with room for whatever a text says, so that reading it cannot want for memory. A text
// has fewer lines than bytes, so there is room for as many as the longest text has bytes.
#[derive(Debug, Drop)]
pub struct Room {
    lists: PlanLists,
    ghost no_counts: { vec_len lists.counts ≡ 0 },
    ghost no_own: { vec_len lists.own ≡ 0 },
    ghost no_pairs: { vec_len lists.pairs ≡ 0 },
    ghost room_for_counts: { 16 ≤ vec_capacity lists.counts },
    ghost room_for_own: { 30720 ≤ vec_capacity lists.own },
    ghost room_for_pairs: { 30720 ≤ vec_capacity lists.pairs },
}

impl Room {
    // Only want of memory is an error.
    pub fn new(heap: Global) -> Result<Room, TextFault>
        ensures wants_for_memory_alone { IfErr result (λ fault. fault ≡ OutOfMemory) }
    {
        let lists = PlanLists {
            counts: Vec::with_capacity(heap, MOST_ENTRIES)?,
            own: Vec::with_capacity(heap, LONGEST_TEXT)?,
            pairs: Vec::with_capacity(heap, LONGEST_TEXT)?,
        };
        Ok(Room { lists })
    }

    // The lists that a text says, or its first fault.
    pub fn read(self, text: &[u8]) -> Result<PlanLists, TextFault>
        ensures reads_what_the_text_says { as_reading result ≡ reading text.now }
        ensures what_is_written_reads_back { ReadsBack text.now (as_reading result) }
        ensures what_it_accepts_is_written_so { IsWrittenSo text.now (as_reading result) }
    {
        self.first_reading(text)
    }

    // The reading by itself: what follows from it is promised where it is called.
    fn first_reading(self, text: &[u8]) -> Result<PlanLists, TextFault>
        ensures reads_what_the_text_says { as_reading result ≡ reading text.now }
    {
        if text.len() > LONGEST_TEXT {
            return Err(TextFault::TooLong);
        }
        let (names, lines) = cut(text, b'\n').ok_or(TextFault::Names)?;
        let order = order_named(names).ok_or(TextFault::Names)?;
        let Room { mut lists } = self;
        read_lines(&order, lines, &mut lists)?;
        Ok(lists)
    }
}
