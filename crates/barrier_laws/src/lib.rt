//! The barrier never sticks: while a worker has crossings left some step is open that tells somebody something new, and nobody is ever
//! two crossings ahead.
#![tactic(auto)]

pub mod laws;
