//! The names of options and of words in their places.

pub(crate) const FILE: &str = "FILE";

pub(crate) const FILES: &str = "FILE..";

pub(crate) const SECOND: &str = "FILE2";

pub(crate) const WORD: &str = "WORD";

pub(crate) const BOUND: &str = "bound";

pub(crate) const SECONDS: &str = "seconds";

pub(crate) const INPUT: &str = "input";

pub(crate) const WORKERS: &str = "workers";

pub(crate) const MAP: &str = "map";

pub(crate) const RESERVE: &str = "reserve";

pub(crate) const SCHEDULE: &str = "schedule";

pub(crate) const LINES: &str = "lines";

pub(crate) const FROM: &str = "from";

pub(crate) const TO: &str = "to";

pub(crate) const LOCALS: &str = "locals";

pub(crate) const COLUMNS: &str = "columns";

pub(crate) const OUTCOME: &str = "outcome";

pub(crate) const BSP: &str = "bsp";

pub(crate) const SVG: &str = "svg";

pub(crate) const HTML: &str = "html";

pub(crate) const FLOW: &str = "flow";

pub(crate) const FORMAT: &str = "format";

pub(crate) const SIZE: &str = "size";

pub(crate) const MEMORY: &str = "memory";

pub(crate) const RANDOM: &str = "random";

pub(crate) const DRAW: &str = "draw";

pub(crate) const SEED: &str = "seed";

pub(crate) const ONLY: &str = "only";

pub(crate) const SHOW: &str = "show";

pub(crate) const QUIET: &str = "quiet";

pub(crate) const SWEEP: &str = "sweep";

pub(crate) const CELLS: &str = "cells";

pub(crate) const VALUES: &str = "values";

pub(crate) const PERMUTATIONS: &str = "permutations";

pub(crate) const UNDER: &str = "under";

pub(crate) const WHERE: &str = "where";

pub(crate) const ENSURE: &str = "ensure";

pub(crate) const SHRINK: &str = "shrink";

pub(crate) const WITNESS: &str = "witness";

pub(crate) const LISTING_FILE: &str = "listing";

pub(crate) const COUNT: &str = "count";

pub(crate) const TIME_AT_MOST: &str = "time-at-most";

pub(crate) const WORK_AT_MOST: &str = "work-at-most";

pub(crate) const CHECK: &str = "check";

pub(crate) const STDOUT: &str = "stdout";

pub(crate) const PROCS_AT_MOST: &str = "procs-at-most";
