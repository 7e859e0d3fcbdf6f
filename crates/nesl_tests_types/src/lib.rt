//! Tests of tokens, trees, types, classes and equations, by the public calls alone.
#![tactic(auto)]

#[cfg(test)]
mod deep;
#[cfg(test)]
mod made;
#[cfg(test)]
mod rows;
#[cfg(test)]
mod texts;
#[cfg(test)]
mod typing;
