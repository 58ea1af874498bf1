// A text read as a ceiling and penalties.
ghost use Rattle.std.specs.Prelude.{◌≡◌, ◌≤◌, [], length, vec_capacity};
ghost use Rattle.plan_text.specs.Fields.{pieces, value};
ghost use Rattle.report.specs.Readings.{longest, ranged, penalties_of, reading, Says};

use crate::refusal::{Reason, Refusal};
use plan_text::fields::{cut, value_of};
use scale::ceiling::HIGHEST_CEILING;

// The longest text that is read, in bytes.
const LONGEST_TEXT: usize = 30_720;

// The value of a line from `low` to `high`.
fn ranged_value(
    line: &[u8],
    low: u32,
    high: u32,
    reason: Reason,
    number: usize,
) -> Result<u32, Refusal>
    ensures is_the_ranged_value { result ≡ ranged low high reason number (value line.now) }
{
    let found = value_of(line).ok_or(Reason::MalformedLine.at_line(number))?;
    if (low..=high).contains(&found) {
        Ok(found)
    } else {
        Err(reason.at_line(number))
    }
}

// The penalties of the lines from line 2 on, into room that was made for them; the ceiling again,
// as `read` answers it, so that one definition says both answers.
fn read_penalties(ceiling: u32, lines: &[u8], penalties: &mut Vec<u32>) -> Result<u32, Refusal>
    requires nothing_yet { penalties.old.items ≡ [] }
    requires room { length lines.now ≤ vec_capacity penalties.old }
    requires short { length lines.now ≤ longest }
    ensures is_what_the_lines_say { Says
        (penalties_of ceiling 2 [] (pieces 10 lines.now)) result penalties.new.items }
{
    for (index, line) in lines.split_inclusive(|byte| *byte == b'\n').enumerate() {
        let number = index + 2;
        let line = line
            .strip_suffix(b"\n")
            .ok_or(Reason::MalformedLine.at_line(number))?;
        let penalty = ranged_value(line, 0, ceiling, Reason::PointsAboveCeiling, number)?;
        penalties.push_reserved(penalty);
    }
    Ok(ceiling)
}

// The ceiling that a text gives, and its penalties into room that was made for them.
// The room stays the caller's: made here, it would need an error of memory around each refusal.
pub(crate) fn read(text: &[u8], penalties: &mut Vec<u32>) -> Result<u32, Refusal>
    requires nothing_yet { penalties.old.items ≡ [] }
    requires room { length text.now ≤ vec_capacity penalties.old }
    ensures is_what_the_text_says { Says (reading text.now) result penalties.new.items }
{
    if text.len() > LONGEST_TEXT {
        return Err(Reason::TextTooLong.at_line(0));
    }
    let (line, lines) = cut(text, b'\n').ok_or(Reason::MalformedLine.at_line(1))?;
    let ceiling = ranged_value(line, 1, HIGHEST_CEILING, Reason::CeilingOutOfRange, 1)?;
    read_penalties(ceiling, lines, penalties)
}
