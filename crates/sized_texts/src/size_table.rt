//! Sizes that are found by their names without a search through all of them.

ghost use Rattle.std.specs.Prelude.{◌≡◌, ◌<◌, [], ◌∷◌, ◌++◌, length, nat_eq, IfOk, OnOk, OnErr};
ghost use Rattle.std.specs.List.{All};
ghost use Rattle.pram_model.specs.Names.{same_text};
ghost use Rattle.sized_texts.specs.Sizes.{value_in};
ghost use Rattle.sized_texts.specs.SizeTables as spec;

use crate::size::Size;
use std::alloc::{AllocError, Global};
use std::marker::Model;

const CHAIN_COUNT: usize = 4096;

#[derive(Clone, Copy)]
struct Binding<'a> {
    name: &'a [u8],
    value: u64,
}

/// Names with the numbers that they stand for, in the order in which they were declared. A name is looked up in the chain of its hash.
#[derive(Drop)]
pub(crate) struct SizeTable<'a> {
    alloc: Global,
    bindings: Vec<Binding<'a>>,
    chains: Vec<Vec<Binding<'a>>>,
}

impl<'a> Model for SizeTable<'a> {
    ghost use Rattle.std.specs.Prelude.{List};
    ghost use Rattle.sized_texts.specs.declared.size.Size.{Size as SizeOf};
    ghost use Rattle.sized_texts.specs.SizeTables.{bound, AreChained};

    ghost Value = { List SizeOf };

    ghost view = { λ s. bound s.bindings.items };

    ghost invariant = { λ s. AreChained s.bindings.items s.chains.items };
}

fn is_same(a: &[u8], b: &[u8]) -> bool
    ensures { result ≡ same_text a.now b.now }
{
    a == b
}

// The chain of a name.
fn chain_of(name: &[u8]) -> usize
    ensures value { result ≡ spec.chain_of name.now }
    ensures inside { result < spec.chain_count }
{
    let mut hash = 0;
    for byte in name {
        hash = (hash * 31 + usize::from(*byte)) % CHAIN_COUNT;
    }
    hash
}

// The number that a name stands for in a chain.
fn find(chain: &[Binding], name: &[u8]) -> Option<u64>
    ensures { result ≡ value_in (spec.bound chain.now) name.now }
{
    for binding in chain {
        if is_same(binding.name, name) {
            return Some(binding.value);
        }
    }
    None
}

// Chains without bindings.
fn empty_chains<'a>(alloc: Global) -> Result<Vec<Vec<Binding<'a>>>, AllocError>
    ensures count { IfOk result (λ chains. length chains.items ≡ spec.chain_count) }
    ensures empty { IfOk result (λ chains. All (λ chain. chain.items ≡ []) chains.items) }
{
    let mut chains = Vec::new(alloc);
    for _ in 0..CHAIN_COUNT {
        chains.push(Vec::new(alloc))?;
    }
    Ok(chains)
}

impl<'a> SizeTable<'a> {
    /// No sizes. The chains are made at the first one.
    pub(crate) fn new(alloc: Global) -> SizeTable<'a>
        ensures { result ≡ [] }
    {
        SizeTable {
            alloc,
            bindings: Vec::new(alloc),
            chains: Vec::new(alloc),
        }
    }

    /// Whether there are no sizes.
    pub(crate) fn is_empty(&self) -> bool
        ensures { result ≡ nat_eq (length self.now) 0 }
    {
        self.bindings.is_empty()
    }

    /// The number that a name stands for, if it is one of these.
    pub(crate) fn value_of(&self, name: &[u8]) -> Option<u64>
        ensures { result ≡ value_in self.now name.now }
    {
        if self.chains.is_empty() {
            return None;
        }
        find(self.chains[chain_of(name)].as_slice(), name)
    }

    /// Takes a size in.
    pub(crate) fn declare(&mut self, name: &'a [u8], value: u64) -> Result<(), AllocError>
        ensures ok { OnOk result (self.new ≡ self.old ++ spec.size_by name.now value ∷ []) }
        ensures err { OnErr result (self.new ≡ self.old) }
    {
        if self.chains.is_empty() {
            self.chains = empty_chains(self.alloc)?;
        }
        let binding = Binding { name, value };
        self.bindings.push(binding)?;
        match self.chains[chain_of(name)].push(binding) {
            Ok(()) => Ok(()),
            Err(refused) => {
                self.bindings.pop();
                Err(AllocError::from(refused))
            }
        }
    }
}

/// These sizes, found by their names.
pub(crate) fn table_of<'a>(alloc: Global, sizes: &'a [Size]) -> Result<SizeTable<'a>, AllocError>
    ensures { IfOk result (λ table. table ≡ sizes.now) }
{
    let mut table = SizeTable::new(alloc);
    for size in sizes {
        table.declare(size.name.as_slice(), size.value)?;
    }
    Ok(table)
}
