// A line that says go or stop once, and hands each runner its item at go.
pub(crate) mod line;
pub(crate) mod plays;
pub(crate) mod runners;
pub(crate) mod starter;
pub(crate) mod taking;
pub(crate) mod told;
