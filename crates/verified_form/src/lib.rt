//! That the code of every accepted program passes the verifier.
#![tactic(auto)]

pub mod verified_laws;
