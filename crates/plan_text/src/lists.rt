// The lists that a plan's text says.
ghost use Rattle.std.specs.Prelude.{◌≡◌, ℕ, ◌+◌, true};
ghost use Rattle.plan_text.specs.Lists.{is_next, listed, may_come, with_line};
ghost use Rattle.plan_text.specs.Rooms.{RoomFor};

use crate::lines::Line;
use plan::records::PairRecord;
use plan::tables::{MOST_CANDIDATES, MOST_ENTRIES};

// The number of candidates of each entry, their own penalties by entry and then candidate, and the
// points of cells.
#[derive(Debug, Drop)]
pub struct PlanLists {
    pub counts: Vec<usize>,
    pub own: Vec<u32>,
    pub pairs: Vec<PairRecord>,
}

// Whether an own line of this entry and candidate comes next.
fn comes_next(counts: &[usize], entry: usize, candidate: usize) -> bool
    ensures comes_next { result ≡ is_next counts.now entry candidate }
{
    if entry >= MOST_ENTRIES || candidate >= MOST_CANDIDATES {
        return false;
    }
    if candidate == 0 {
        entry == counts.len()
    } else {
        entry + 1 == counts.len() && candidate == counts[entry]
    }
}

impl PlanLists {
    // Whether a line may come after those that made the lists.
    pub(crate) fn allow(&self, line: &Line) -> bool
        ensures may_come { result ≡ may_come (listed self.now) line.now }
    {
        match line {
            Line::Own {
                entry,
                candidate,
                ..
            } => self.pairs.is_empty() && comes_next(&self.counts, *entry, *candidate),
            Line::Pair(_) => true,
        }
    }

    // A line more, into room that was made for it.
    pub(crate) fn add(&mut self, line: Line)
        requires may_come { may_come (listed self.old) line ≡ true }
        requires room_for_it { RoomFor self.old 1 }
        ensures has_the_line { listed self.new ≡ with_line (listed self.old) line }
        ensures takes_room_for_one { (n : ℕ) → RoomFor self.old (n + 1) → RoomFor self.new n }
    {
        match line {
            Line::Own {
                entry,
                candidate,
                points,
            } => {
                self.own.push_reserved(points);
                if candidate == 0 {
                    self.counts.push_reserved(1);
                } else {
                    self.counts[entry] = candidate + 1;
                }
            }
            Line::Pair(record) => self.pairs.push_reserved(record),
        }
    }
}
