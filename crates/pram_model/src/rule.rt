//! The rules of concurrent access.

ghost use Rattle.std.specs.Prelude.{◌≡◌, false, IfNone, MatchOption};
ghost use Rattle.pram_model.specs.Names.{is_one_of};
ghost use Rattle.pram_model.specs.Rules.{rule_word, rule_words};
ghost use Rattle.pram_model.specs.declared.rule.Rule as spec;

/// How processors may use one shared cell in one statement (JáJá, An Introduction to Parallel
/// Algorithms, chapter 1: the EREW, CREW and CRCW machines).
#[derive(Clone, Copy, Debug, PartialEq, Eq)]
pub enum Rule {
    /// Exclusive reads, exclusive writes.
    Erew,
    /// Concurrent reads, exclusive writes.
    Crew,
    /// Concurrent writes of one common value.
    Common,
    /// Of concurrent writers the one of least index succeeds.
    Priority,
    /// Concurrent writers leave the sum of their values.
    Sum,
}

impl Rule {
    /// The rule's word in the text of a program, as `erew`.
    pub fn word(self) -> &'static str
        // It is the rule's word, as the grammar has it.
        ensures { result.now ≡ rule_word self }
    {
        match self {
            Rule::Erew => "erew",
            Rule::Crew => "crew",
            Rule::Common => "common",
            Rule::Priority => "priority",
            Rule::Sum => "sum",
        }
    }

    /// The rule that has this word in the text of a program. `None`: it is no rule's.
    pub fn of_word(word: &[u8]) -> Option<Rule>
        // The rule that is found has that word; where none is found, the word is none of the five.
        ensures word { MatchOption result (is_one_of rule_words word.now ≡ false) (λ r. word.now ≡ rule_word r) }
        // Where none is found, no rule has that word.
        ensures none { IfNone result ((r : spec.Rule) → ¬ (word.now ≡ rule_word r)) }
    {
        match word {
            b"erew" => Some(Rule::Erew),
            b"crew" => Some(Rule::Crew),
            b"common" => Some(Rule::Common),
            b"priority" => Some(Rule::Priority),
            b"sum" => Some(Rule::Sum),
            _ => None,
        }
    }
}
