//! Tests of the barrier: its pieces are filled and come back, workers cross in threads, and runners start.
#![tactic(auto)]

#[cfg(test)]
mod crossing;
#[cfg(test)]
mod pieces;
#[cfg(test)]
mod starting;
