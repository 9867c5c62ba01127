//! Tests of small texts: those that are read beside a program, those that are written of many runs, of flows, of trees and of refusals, and
//! what is told of all inputs of a program.
#![tactic(auto)]

#[cfg(test)]
mod drawings;
#[cfg(test)]
mod flows;
#[cfg(test)]
mod growth;
#[cfg(test)]
mod inputs_together;
#[cfg(test)]
mod memories;
#[cfg(test)]
mod narrow;
#[cfg(test)]
mod sizes;
#[cfg(test)]
mod stops;
#[cfg(test)]
mod sweep_drawings;
#[cfg(test)]
mod swept;
#[cfg(test)]
mod trees;
#[cfg(test)]
mod words;
