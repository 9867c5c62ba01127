//! What a program comes to under a stricter rule, it comes to under a weaker one.

ghost use Rattle.rule_laws.specs.Order.{CommonIsPriority, CrewIsConcurrent, ErewIsEveryRule, OrderIsAll, OrderIsKept, SumNeedsValues};

/// Of every program, on every input within every bound: where its outcome under erew is no conflict, of reads or of writes, it is its
/// outcome under each of the five rules, the fault of arithmetic or of a range included.
pub fn erew_is_every_rule()
    // An outcome under erew that is no conflict is the outcome under every rule; under sum, of programs within bounds
    // on 64-bit values.
    ensures { ErewIsEveryRule }
{}

/// Where its outcome under crew is no write conflict, it is its outcome under common, priority and sum.
pub fn crew_is_concurrent()
    // An outcome under crew that is no write conflict is that under common, priority and sum; under sum, of programs
    // within bounds on 64-bit values.
    ensures { CrewIsConcurrent }
{}

/// Where its outcome under common is no write conflict, it is its outcome under priority.
pub fn common_is_priority()
    // An outcome under common that is no write conflict is the outcome under priority.
    ensures { CommonIsPriority }
{}

/// These three say all: outcomes are kept from a rule to each that it is within, and of any other two rules some accepted program ends
/// under the first and doesn't come to that end under the second. Nor can be left out what is asked of the input under sum.
pub fn the_order_is_exact()
    // Of accepted programs on 64-bit values an outcome that is no conflict is kept from erew to every rule, from crew
    // to common, priority and sum, from common to priority.
    ensures kept { OrderIsKept }
    // Of any two different rules not so ordered, some accepted program on 64-bit values ends under the first and does
    // not come to that end under the second.
    ensures all { OrderIsAll }
    // Under sum 64-bit values are needed: on some other input an accepted program ends under erew and does not come to
    // that end under sum.
    ensures needed { SumNeedsValues }
{}
