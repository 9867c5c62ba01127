//! That the code of an expression computes its value and notes its faults, outside pardo and inside.
#![tactic(auto)]

pub mod formula_laws;
