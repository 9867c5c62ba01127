//! What names stand for.

ghost use Rattle.std.specs.Prelude.{◌≡◌, ◌-◌, ◌<◌, ◌≤◌, [], ◌∷◌, ◌++◌, length, take, IfOk, OnOk, OnErr};
ghost use Rattle.std.specs.List.{All};
ghost use Rattle.pram_names.specs.Scope.{meaning_of};
ghost use Rattle.pram_names.specs.ScopeFields as spec;
ghost use Rattle.pram_model.specs.Names.{same_text};

use std::alloc::{AllocError, Global};
use std::marker::Model;

const CHAIN_COUNT: usize = 4096;

/// What a name in scope stands for. A uniform variable, a shared declaration or a local goes by its
/// number, counted from 0 in the order of declaration.
#[derive(Clone, Copy, Debug, PartialEq, Eq)]
pub enum Meaning {
    Uniform(usize),
    Cell(usize),
    Array(usize),
    Index,
    Local(usize),
}

#[derive(Clone, Copy)]
struct Binding<'a> {
    name: &'a [u8],
    meaning: Meaning,
}

/// Names with what they stand for, in the order in which they were declared. A name is looked up in
/// the chain of its hash.
#[derive(Drop)]
pub struct Scope<'a> {
    alloc: Global,
    bindings: Vec<Binding<'a>>,
    chains: Vec<Vec<Binding<'a>>>,
}

impl<'a> Model for Scope<'a> {
    ghost use Rattle.pram_names.specs.Scope as names;
    ghost use Rattle.pram_names.specs.ScopeFields.{bound, AreChained};

    ghost Value = { names.Scope };

    ghost view = { λ s. bound s.bindings.items };

    ghost invariant = { λ s. AreChained s.bindings.items s.chains.items };
}

fn is_same(a: &[u8], b: &[u8]) -> bool
    ensures { result ≡ same_text a.now b.now }
{
    a == b
}

// The chain of a name.
fn chain_of(name: &[u8]) -> usize
    ensures value { result ≡ spec.chain_of name.now }
    ensures inside { result < spec.chain_count }
{
    let mut hash = 0;
    for byte in name {
        hash = (hash * 31 + usize::from(*byte)) % CHAIN_COUNT;
    }
    hash
}

// What a name stands for in a chain.
fn find(chain: &[Binding], name: &[u8]) -> Option<Meaning>
    ensures { result ≡ meaning_of (spec.bound chain.now) name.now }
{
    for binding in chain {
        if is_same(binding.name, name) {
            return Some(binding.meaning);
        }
    }
    None
}

// Chains without bindings.
fn empty_chains<'a>(alloc: Global) -> Result<Vec<Vec<Binding<'a>>>, AllocError>
    ensures count { IfOk result (λ chains. length chains.items ≡ spec.chain_count) }
    ensures empty { IfOk result (λ chains. All (λ chain. chain.items ≡ []) chains.items) }
{
    let mut chains = Vec::new(alloc);
    for _ in 0..CHAIN_COUNT {
        chains.push(Vec::new(alloc))?;
    }
    Ok(chains)
}

impl<'a> Scope<'a> {
    /// No names. Its chains are made at the first declaration.
    pub fn new(alloc: Global) -> Scope<'a>
        ensures { result ≡ [] }
    {
        Scope {
            alloc,
            bindings: Vec::new(alloc),
            chains: Vec::new(alloc),
        }
    }

    /// How many names there are.
    pub fn len(&self) -> usize
        ensures { result ≡ length self.now }
    {
        self.bindings.len()
    }

    /// What a name stands for.
    pub fn meaning_of(&self, name: &[u8]) -> Option<Meaning>
        ensures { result ≡ meaning_of self.now name.now }
    {
        if self.chains.is_empty() {
            return None;
        }
        find(self.chains[chain_of(name)].as_slice(), name)
    }

    /// Takes a name in.
    pub fn declare(&mut self, name: &'a [u8], meaning: Meaning) -> Result<(), AllocError>
        ensures ok { OnOk result (self.new ≡ self.old ++ (name.now, meaning) ∷ []) }
        ensures err { OnErr result (self.new ≡ self.old) }
    {
        if self.chains.is_empty() {
            self.chains = empty_chains(self.alloc)?;
        }
        let binding = Binding { name, meaning };
        self.bindings.push(binding)?;
        match self.chains[chain_of(name)].push(binding) {
            Ok(()) => Ok(()),
            Err(refused) => {
                self.bindings.pop();
                Err(AllocError::from(refused))
            }
        }
    }

    // Takes the last name out.
    fn pop(&mut self)
        ensures { self.new ≡ take (length self.old - 1) self.old }
    {
        if let Some(binding) = self.bindings.pop() {
            self.chains[chain_of(binding.name)].pop();
        }
    }

    /// Leaves the first names alone in scope.
    pub fn truncate(&mut self, len: usize)
        requires { len ≤ length self.old }
        ensures { self.new ≡ take len self.old }
    {
        for _ in len..self.bindings.len() {
            self.pop();
        }
    }
}
