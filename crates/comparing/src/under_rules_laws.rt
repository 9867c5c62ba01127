//! What a comparison is.

ghost use Rattle.comparing.specs.Compared.{HasOneComparisonAtMost};

/// A program has one comparison at most on an input, within a bound: by the clauses of
/// `compare_rules` alone its answer is the only one, want of memory aside.
pub fn one_comparison_at_most()
    // Two comparisons of one program on one input, within one bound, find the same under each rule.
    ensures { HasOneComparisonAtMost }
{}
