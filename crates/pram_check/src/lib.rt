//! Accepted programs: names, kinds and limits.
#![tactic(auto)]

pub mod breach_laws;
mod declarations;
mod program;
mod resolve;
mod statement;
mod step;

pub use pram_names::{
    Breach, Cause, CheckFault, Expression, Limit, Link, Meaning, Scope, Spot, Statement, Step,
    StepTarget, Target,
};
pub use program::{Program, check};
