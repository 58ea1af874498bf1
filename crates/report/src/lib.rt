// What the program answers: text in, text out.
#![tactic(auto)]

pub mod answer;
mod plans;
mod read;
mod refusal;
mod rows;
mod sweeps;
