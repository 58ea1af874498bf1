// The columns of a plan's text, and the order that its first line gives them.
ghost use Rattle.std.specs.Prelude.{◌≡◌, ◌==◌, [], ◌∷◌, false, length, MatchOption};
ghost use Rattle.plan_text.specs.Columns.{alike, column, five, is_complete, name, order_of};
ghost use Rattle.plan_text.specs.Columns.{stands_once};
ghost use Rattle.plan_text.specs.Fields.{pieces};

use crate::fields::cut;

#[derive(Clone, Copy, Debug, PartialEq, Eq)]
pub enum Column {
    Entry,
    Candidate,
    Other,
    Choice,
    Points,
}

const COLUMNS: [Column; 5] = [
    Column::Entry,
    Column::Candidate,
    Column::Other,
    Column::Choice,
    Column::Points,
];

impl Column {
    // What the first line calls it.
    pub fn name(self) -> &'static str
        ensures is_its_name { result.now ≡ name self }
    {
        match self {
            Column::Entry => "entry",
            Column::Candidate => "candidate",
            Column::Other => "other",
            Column::Choice => "choice",
            Column::Points => "points",
        }
    }
}

// Five fields between single spaces.
#[derive(Clone, Copy)]
pub(crate) struct Five<'a>(
    pub(crate) &'a [u8],
    pub(crate) &'a [u8],
    pub(crate) &'a [u8],
    pub(crate) &'a [u8],
    pub(crate) &'a [u8],
);

pub(crate) fn cut_five(line: &[u8]) -> Option<Five<'_>>
    ensures are_the_five_pieces { MatchOption result ((length (pieces 32 line.now) == 5) ≡ false)
        (λ f. pieces 32 line.now
        ≡ f.0.now ∷ f.1.now ∷ f.2.now ∷ f.3.now ∷ f.4.now ∷ []) }
{
    let (first, rest) = cut(line, b' ')?;
    let (second, rest) = cut(rest, b' ')?;
    let (third, rest) = cut(rest, b' ')?;
    let (fourth, fifth) = cut(rest, b' ')?;
    match cut(fifth, b' ') {
        None => Some(Five(first, second, third, fourth, fifth)),
        Some(_) => None,
    }
}

// The column that a name names.
fn column_named(field: &[u8]) -> Option<Column>
    ensures is_the_column { result ≡ column field.now }
{
    COLUMNS
        .iter()
        .find(|column| column.name().as_bytes() == field)
        .copied()
}

fn five_columns(line: &[u8]) -> Option<[Column; 5]>
    ensures are_the_columns { result ≡ five column line.now }
{
    let names = cut_five(line)?;
    Some([
        column_named(names.0)?,
        column_named(names.1)?,
        column_named(names.2)?,
        column_named(names.3)?,
        column_named(names.4)?,
    ])
}

// Whether a column stands once among others.
fn stands_once_in(order: &[Column], column: Column) -> bool
    ensures counts_it { result ≡ stands_once order.now column }
{
    order.iter().filter(|other| column == **other).count() == 1
}

fn has_each_once(order: &[Column]) -> bool
    ensures has_each { result ≡ is_complete order.now }
{
    COLUMNS.iter().all(|column| stands_once_in(order, *column))
}

// The order that the names of a line give the columns.
pub fn order_named(line: &[u8]) -> Option<[Column; 5]>
    ensures is_the_order_of_the_names { result ≡ order_of line.now }
{
    let order = five_columns(line)?;
    if has_each_once(&order) {
        Some(order)
    } else {
        None
    }
}
