// Compared runs: what calls answer on worked cases.
#![tactic(auto)]

#[cfg(test)]
mod closings;
#[cfg(test)]
mod costs;
#[cfg(test)]
mod fills;
#[cfg(test)]
mod lifts;
#[cfg(test)]
mod samples;
mod tokens;
