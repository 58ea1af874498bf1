// A line of a plan's text.
ghost use Rattle.std.specs.Prelude.{◌≡◌};
ghost use Rattle.plan_text.specs.Columns.{five};
ghost use Rattle.plan_text.specs.Lines.{field, line_of, line_with, under};

use crate::columns::{Column, cut_five};
use crate::fields::value_of;
use plan::records::PairRecord;

// What a field holds.
#[derive(Clone, Copy, Debug, PartialEq, Eq)]
pub enum Field {
    Dash,
    Value(u32),
}

// The own penalty of a candidate, or the points of a pair's cell.
#[derive(Clone, Copy, Debug, PartialEq, Eq)]
pub enum Line {
    Own {
        entry: usize,
        candidate: usize,
        points: u32,
    },
    Pair(PairRecord),
}

const DASH: &[u8] = b"-";

fn field_of(text: &[u8]) -> Option<Field>
    ensures is_what_it_holds { result ≡ field text.now }
{
    if text == DASH {
        return Some(Field::Dash);
    }
    let value = value_of(text)?;
    Some(Field::Value(value))
}

fn five_fields(text: &[u8]) -> Option<[Field; 5]>
    ensures are_the_fields { result ≡ five field text.now }
{
    let fields = cut_five(text)?;
    Some([
        field_of(fields.0)?,
        field_of(fields.1)?,
        field_of(fields.2)?,
        field_of(fields.3)?,
        field_of(fields.4)?,
    ])
}

// The field under a column.
fn field_under(column: Column, order: &[Column; 5], fields: &[Field; 5]) -> Field
    ensures is_the_field_under { result ≡ under column order.now fields.now }
{
    match order.iter().position(|other| *other == column) {
        Some(place) => fields[place],
        None => Field::Dash,
    }
}

// The line of five fields.
fn line_with_fields(
    entry: Field,
    candidate: Field,
    other: Field,
    choice: Field,
    points: Field,
) -> Option<Line>
    ensures is_the_line { result ≡ line_with entry candidate other choice points }
{
    let (Field::Value(entry), Field::Value(candidate), Field::Value(points)) = (
        entry, candidate, points,
    ) else {
        return None;
    };
    let (entry, candidate) = (entry as usize, candidate as usize);
    match (other, choice) {
        (Field::Dash, Field::Dash) => Some(Line::Own {
            entry,
            candidate,
            points,
        }),
        (Field::Value(other), Field::Value(choice)) => Some(Line::Pair(PairRecord {
            entry,
            candidate,
            other: other as usize,
            choice: choice as usize,
            points,
        })),
        _ => None,
    }
}

// The line that a text says.
pub(crate) fn line_said(order: &[Column; 5], text: &[u8]) -> Option<Line>
    ensures is_what_the_text_says { result ≡ line_of order.now text.now }
{
    let fields = five_fields(text)?;
    line_with_fields(
        field_under(Column::Entry, order, &fields),
        field_under(Column::Candidate, order, &fields),
        field_under(Column::Other, order, &fields),
        field_under(Column::Choice, order, &fields),
        field_under(Column::Points, order, &fields),
    )
}
