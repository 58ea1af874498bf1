// The lines of a plan's text, read one after another.
ghost use Rattle.std.specs.Prelude.{◌≡◌, ℕ, ◌+◌, ◌≤◌, length, OnOk};
ghost use Rattle.plan_text.specs.Fields.{pieces};
ghost use Rattle.plan_text.specs.Lines.{line_of};
ghost use Rattle.plan_text.specs.Lists.{listed, nothing};
ghost use Rattle.plan_text.specs.Readings.{line_read, lines_read, longest, Says};
ghost use Rattle.plan_text.specs.Rooms.{RoomFor};

use crate::columns::Column;
use crate::faults::TextFault;
use crate::lines::line_said;
use crate::lists::PlanLists;

// The line that a text says, behind those that made the lists.
fn read_line(
    order: &[Column; 5],
    number: usize,
    text: &[u8],
    lists: &mut PlanLists,
) -> Result<(), TextFault>
    requires room_for_it { RoomFor lists.old 1 }
    ensures is_what_the_line_says { Says
        (line_read number (listed lists.old) (line_of order.now text.now))
        result (listed lists.new) }
    ensures takes_room_for_one { OnOk result
        ((n : ℕ) → RoomFor lists.old (n + 1) → RoomFor lists.new n) }
{
    let line = line_said(order, text).ok_or(TextFault::Malformed { line: number })?;
    if !lists.allow(&line) {
        return Err(TextFault::OutOfOrder { line: number });
    }
    lists.add(line);
    Ok(())
}

// The lines from line 2 on, into room that was made for them.
pub(crate) fn read_lines(
    order: &[Column; 5],
    lines: &[u8],
    lists: &mut PlanLists,
) -> Result<(), TextFault>
    requires nothing_yet { listed lists.old ≡ nothing }
    requires room { RoomFor lists.old (length lines.now) }
    requires short { length lines.now ≤ longest }
    ensures is_what_the_lines_say { Says
        (lines_read order.now 2 nothing (pieces 10 lines.now)) result (listed lists.new) }
{
    for (index, line) in lines.split_inclusive(|byte| *byte == b'\n').enumerate() {
        let number = index + 2;
        let line = line
            .strip_suffix(b"\n")
            .ok_or(TextFault::Malformed { line: number })?;
        read_line(order, number, line, lists)?;
    }
    Ok(())
}
