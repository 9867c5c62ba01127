//! Tests of runs in threads: that workers run at the same time and in step; long runs.
#![tactic(auto)]

#[cfg(test)]
mod asking;
#[cfg(test)]
mod caller;
#[cfg(test)]
mod in_step;
#[cfg(test)]
mod listing;
#[cfg(test)]
mod long_runs;
#[cfg(test)]
mod meeting;
#[cfg(test)]
mod programs;
