//! Tests of exchanges of lines, by the public calls alone.

mod batches;
mod conversation;
mod devices;
mod faults;
mod interrupted;
mod kept;
mod lines;
mod served;
mod texts;
mod told_first;
