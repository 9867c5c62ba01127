// The right to free a block, and the calls on the allocator. They are proved by hand.
ghost use Rattle.std.specs.Prelude.{◌≡◌, ℕ, ◌*◌, ◌^◌, ◌<◌, [], IfOk};
ghost use base.Fml.{ftrue};
ghost use denote.RawPtr.{Ptr};
ghost use Rattle.exchange_arena.specs.Ownership.{deed_owns};
ghost use Rattle.exchange_arena.specs.Run.{IsRun};

use crate::run::Run;
use std::alloc::{AllocError, Allocator};
use std::marker::{Model, PhantomData, Send, Sync};

// The right to free the block of `len` words at `base`.
pub(crate) struct Deed<A: Allocator> {
    mark: PhantomData<A>,
    pub(crate) ghost alloc: { A },
    pub(crate) ghost base: { Ptr },
    pub(crate) ghost len: { ℕ },
}

impl<A: Allocator> Model for Deed<A> {
    ghost also_owns = { λ d. deed_owns (A.dealloc_token d.alloc) d.base d.len };

    ghost also_shares = { λ _ _ _. ftrue };
}

unsafe impl<A: Allocator + Send> Send for Deed<A> {}

// A `&` to it holds nothing.
unsafe impl<A: Allocator> Sync for Deed<A> {}

pub(crate) fn take<A: Allocator>(alloc: &A, len: usize) -> Result<(Run, Deed<A>), AllocError>
    requires { len * 8 < 2 ^ 63 }
    ensures { IfOk result (λ r. IsRun r.0 r.1.base 0 len [] × (r.1.len ≡ len) × (r.1.alloc ≡ alloc.now)) }
{
    match alloc.allocate(len * 8, 8) {
        Ok(block) => {
            let ptr = block as *mut u64;
            let mark = PhantomData;
            Ok((Run { ptr }, Deed { mark }))
        }
        Err(refused) => Err(refused),
    }
}

pub(crate) fn give_back<A: Allocator>(alloc: &A, run: Run, deed: Deed<A>, len: usize)
    requires run { (run.base ≡ deed.base) × (run.start ≡ 0) × (run.room ≡ len) }
    requires deed { (deed.len ≡ len) × (deed.alloc ≡ alloc.now) }
{
    let Run { ptr } = run;
    let Deed { mark: _ } = deed;
    unsafe { alloc.deallocate(ptr as *mut u8, len * 8, 8) }
}
