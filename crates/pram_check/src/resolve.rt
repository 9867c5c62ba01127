//! The whole walk over a tree.

ghost use Rattle.pram_names.specs.Breaches.{breaches};
ghost use Rattle.pram_check.specs.Program.{ArePartsOf};
ghost use Rattle.pram_names.specs.Walk.{Judges};

use crate::declarations::declare_all;
use crate::statement::statements;
use pram_names::{CheckFault, Scope, Statement, check_tokens, procs_of};
use pram_trees::{Layout, Tree};
use std::alloc::Global;

/// What a tree says, beside its rule.
#[derive(Drop)]
pub struct Parts {
    pub procs: u32,
    pub layout: Layout,
    pub uniforms: usize,
    pub body: Vec<Statement>,
}

/// What a tree says, or the first thing that is wrong with it.
pub fn resolve(alloc: Global, tree: &Tree) -> Result<Parts, CheckFault>
    ensures { Judges (ArePartsOf tree.now) (breaches tree.now) result }
{
    let procs = procs_of(tree.procs())?;
    let mut scope = Scope::new(alloc);
    let mut layout = Layout::new(alloc);
    let uniforms = declare_all(alloc, &mut scope, &mut layout, tree.declarations())?;
    let body = statements(alloc, &mut scope, &[], tree.body())?;
    check_tokens(tree.token_count())?;
    Ok(Parts {
        procs,
        layout,
        uniforms,
        body,
    })
}
