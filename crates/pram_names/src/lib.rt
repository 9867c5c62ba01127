//! Names resolved: scopes, expressions and the heads of statements.
#![tactic(auto)]

mod body;
mod fault;
mod limits;
mod range;
mod resolving;
mod scope;
mod step_target;
mod targets;
mod values_of;

pub use body::{Expression, Link, Statement, Step, StepTarget, Target};
pub use fault::{Breach, Cause, CheckFault, Limit, Spot};
pub use limits::{check_tokens, procs_of};
pub use range::{declare_locals, new_name, pardo_range};
pub use resolving::{breach, expression};
pub use scope::{Meaning, Scope};
pub use step_target::inner_target;
pub use targets::{element_target, is_loop, target, variable};
pub use values_of::{value, values};
