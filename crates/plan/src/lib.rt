// A plan: entries with their candidates, the penalties of candidates and of pairs of candidates,
// and the limits of them all. Published as a weighted constraint network.
#![tactic(auto)]

ghost use Rattle.plan.specs.Invariant.{Sound};

mod check;
pub mod closing;
pub mod cost;
pub mod fill;
mod filling;
mod layout;
pub mod lifting;
mod lists;
pub mod make;
mod parts;
pub mod place;
pub mod reads;
pub mod records;
pub mod refusals;
mod rows;
pub mod settle;
mod sweep;
pub mod tables;
pub mod token;

// A plan on a scale. What it holds stands in plain tables, of which the invariant holds in every
// plan. Each public call names all that it promises, a rule of the project, though several promise
// some of it. Nothing compares plans, so it derives no equality.
#[derive(Debug, Drop)]
pub struct Plan<S> {
    scale: S,
    tables: tables::Tables,
    ghost sound: { Sound tables },
}
