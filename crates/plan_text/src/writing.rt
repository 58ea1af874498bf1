// Lists written as the text of a plan.
ghost use Rattle.std.specs.Prelude.{◌≡◌, ◌≤◌, ◌++◌, length, string_bytes, IfOk, OnOk};
ghost use Rattle.plan_text.specs.Lists.{listed};
ghost use Rattle.plan_text.specs.Readings.{longest, reading};
ghost use Rattle.plan_text.specs.Rows.{entry_texts, own_texts, pair_texts, row_text, spaced};
ghost use Rattle.plan_text.specs.Rows.{under_column};
ghost use Rattle.plan_text.specs.Writings.{text_of_lists, IsOrder, Sayable};

use crate::columns::Column;
use crate::lines::Line;
use crate::lists::PlanLists;
use plan::records::PairRecord;
use std::alloc::{AllocError, Global};

// What stands under the columns: their names, or what a line has there.
#[derive(Clone, Copy)]
enum Row {
    Names,
    Of(Line),
}

fn push_field(out: &mut String, row: Row, column: Column) -> Result<(), AllocError>
    ensures adds_it { OnOk result (string_bytes out.new
        ≡ string_bytes out.old ++ under_column row column) }
{
    match row {
        Row::Names => out.push_str(column.name()),
        Row::Of(
            Line::Own {
                entry,
                candidate,
                points,
            },
        ) => match column {
            Column::Entry => write!(out, "{entry}"),
            Column::Candidate => write!(out, "{candidate}"),
            Column::Other | Column::Choice => out.push_str("-"),
            Column::Points => write!(out, "{points}"),
        },
        Row::Of(Line::Pair(record)) => match column {
            Column::Entry => write!(out, "{}", record.entry),
            Column::Candidate => write!(out, "{}", record.candidate),
            Column::Other => write!(out, "{}", record.other),
            Column::Choice => write!(out, "{}", record.choice),
            Column::Points => write!(out, "{}", record.points),
        },
    }
}

// What stands under columns, each behind a space.
fn push_spaced(out: &mut String, row: Row, order: &[Column]) -> Result<(), AllocError>
    ensures adds_them { OnOk result (string_bytes out.new
        ≡ string_bytes out.old ++ spaced (under_column row) order.now) }
{
    for column in order {
        out.push_str(" ")?;
        push_field(out, row, *column)?;
    }
    Ok(())
}

// A row with its line feed.
fn push_row(out: &mut String, order: &[Column], row: Row) -> Result<(), AllocError>
    ensures adds_it { OnOk result (string_bytes out.new
        ≡ string_bytes out.old ++ row_text (under_column row) order.now) }
{
    let [first, rest @ ..] = order else {
        return out.push_str("\n");
    };
    push_field(out, row, *first)?;
    push_spaced(out, row, rest)?;
    out.push_str("\n")
}

// Own lines of an entry.
fn push_entry(
    out: &mut String,
    order: &[Column],
    entry: usize,
    own: &[u32],
) -> Result<(), AllocError>
    ensures adds_them { OnOk result (string_bytes out.new
        ≡ string_bytes out.old ++ entry_texts order.now entry 0 own.now) }
{
    for (candidate, points) in own.iter().enumerate() {
        let line = Line::Own {
            entry,
            candidate,
            points: *points,
        };
        push_row(out, order, Row::Of(line))?;
    }
    Ok(())
}

// All own lines.
fn push_own(
    out: &mut String,
    order: &[Column],
    counts: &[usize],
    own: &[u32],
) -> Result<(), AllocError>
    ensures adds_them { OnOk result (string_bytes out.new
        ≡ string_bytes out.old ++ own_texts order.now 0 counts.now own.now) }
{
    let mut rest = own;
    for (entry, count) in counts.iter().enumerate() {
        let (here, later) = rest.split_at(rest.len().min(*count));
        push_entry(out, order, entry, here)?;
        rest = later;
    }
    Ok(())
}

fn push_pairs(out: &mut String, order: &[Column], pairs: &[PairRecord]) -> Result<(), AllocError>
    ensures adds_them { OnOk result (string_bytes out.new
        ≡ string_bytes out.old ++ pair_texts order.now pairs.now) }
{
    for pair in pairs {
        push_row(out, order, Row::Of(Line::Pair(*pair)))?;
    }
    Ok(())
}

// The text of lists, in an order of the columns; only want of memory is an error.
pub fn write(heap: Global, order: &[Column], lists: &PlanLists) -> Result<String, AllocError>
    ensures is_their_text { IfOk result (λ s. string_bytes s
        ≡ text_of_lists order.now (listed lists.now)) }
    ensures reads_back { IfOk result (λ s. IsOrder order.now
        → Sayable (listed lists.now) → length (string_bytes s) ≤ longest
        → reading (string_bytes s) ≡ Ok (listed lists.now)) }
{
    let mut out = String::new(heap);
    push_row(&mut out, order, Row::Names)?;
    push_own(&mut out, order, &lists.counts, &lists.own)?;
    push_pairs(&mut out, order, &lists.pairs)?;
    Ok(out)
}

#[cfg(test)]
mod tests {
    use super::*;
    use crate::room::Room;
    use std::test::Fail;

    // Lists that are read are written in another order of the columns, and back.
    #[test]
    fn another_order(rt: HostRuntime) -> Result<(), Fail> {
        let text = "entry candidate other choice points\n\
            0 0 - - 3\n\
            0 1 - - 10\n\
            1 0 - - 0\n\
            0 1 1 0 4\n";
        let turned = "points choice other candidate entry\n\
            3 - - 0 0\n\
            10 - - 1 0\n\
            0 - - 0 1\n\
            4 0 1 1 0\n";
        let order = [
            Column::Points,
            Column::Choice,
            Column::Other,
            Column::Candidate,
            Column::Entry,
        ];
        let back = [
            Column::Entry,
            Column::Candidate,
            Column::Other,
            Column::Choice,
            Column::Points,
        ];
        let lists = Room::new(rt.alloc())?.read(text.as_bytes())?;
        let written = write(rt.alloc(), &order, &lists)?;
        assert_eq!(rt; written.as_str(), turned);
        let again = Room::new(rt.alloc())?.read(turned.as_bytes())?;
        let first = write(rt.alloc(), &back, &again)?;
        assert_eq!(rt; first.as_str(), text);
        Ok(())
    }
}
