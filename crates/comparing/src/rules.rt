//! What is found of a program under all rules.

ghost use Rattle.std.specs.Prelude.{◌≡◌};
ghost use Rattle.pram_model.specs.Names.{same_text};
ghost use Rattle.comparing.specs.Compared as spec;
ghost use Rattle.comparing.specs.Compared.{finding_of};

use crate::finding::Finding;
use pram_trees::{Layout, Rule};

/// How a program comes out under each of the five rules, and the shared declarations by which its cells are named.
#[derive(Drop)]
pub struct UnderRules {
    pub layout: Layout,
    /// The rule that the program declares.
    pub declared: Rule,
    pub erew: Finding,
    pub crew: Finding,
    pub common: Finding,
    pub priority: Finding,
    pub sum: Finding,
}

fn is_same(a: &[u8], b: &[u8]) -> bool
    ensures { result ≡ same_text a.now b.now }
{
    a == b
}

impl UnderRules {
    /// Whether the program declares that rule.
    pub fn declares(&self, rule: Rule) -> bool
        ensures value { result ≡ spec.declares self.now rule }
    {
        is_same(rule.word().as_bytes(), self.declared.word().as_bytes())
    }

    /// What is found under that rule.
    pub fn of(&self, rule: Rule) -> Finding
        ensures value { result ≡ finding_of self.now rule }
    {
        match rule {
            Rule::Erew => self.erew,
            Rule::Crew => self.crew,
            Rule::Common => self.common,
            Rule::Priority => self.priority,
            Rule::Sum => self.sum,
        }
    }
}
