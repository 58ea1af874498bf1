// Lists of calls made up by a generator with fixed numbers, played on small plans. After each call
// every open tuning's cost is held against its filled cost, and every other tuning's filled cost
// against the bound.
#![tactic(auto)]

#[cfg(test)]
mod calls;
#[cfg(test)]
mod dice;
#[cfg(test)]
mod lists_of_three;
