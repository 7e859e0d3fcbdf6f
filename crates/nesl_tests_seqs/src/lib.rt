//! Tests of the functions on scalars and on sequences: rows of calls with their results and prices, worked out by hand.
#![tactic(auto)]

#[cfg(test)]
mod empties;
#[cfg(test)]
mod extremes;
#[cfg(test)]
mod heaps;
#[cfg(test)]
mod levels;
#[cfg(test)]
mod numbers;
#[cfg(test)]
mod pairs;
#[cfg(test)]
mod parts;
#[cfg(test)]
mod places;
#[cfg(test)]
mod reading;
#[cfg(test)]
mod reductions;
#[cfg(test)]
mod rows;
#[cfg(test)]
mod scalars;
#[cfg(test)]
mod scans;
#[cfg(test)]
mod shapes;
#[cfg(test)]
mod shares;
#[cfg(test)]
mod told;
