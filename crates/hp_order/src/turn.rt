//! What a thread holds.
ghost use Rattle.std.specs.Prelude.{◌≡◌, ◌∷◌, ℕ, List, []};
ghost use Rattle.std.specs.Borrow.{ftrue};
ghost use Rattle.hp_order.specs.Order.{above};

use std::marker::{Model, PhantomData};

/// The ranks of the locks that a thread holds, the last first. It takes no memory: proofs alone read it. It stays in its
/// thread, which gets it by `Rest::begin`.
#[derive(Drop)]
pub struct Turn {
    stays: PhantomData<*const u8>,
    pub ghost held: { List ℕ },
}

impl Model for Turn {
    ghost also_owns = { λ _. ftrue };
}

impl Turn {
    // A thread that holds nothing.
    #[inline(always)]
    pub(crate) fn new() -> Turn
        ensures { result.held ≡ [] }
    {
        Turn { stays: PhantomData }
    }

    /// What stands in the place of a turn that was taken out. Nothing is known of it, so nobody can wait by it.
    #[inline(always)]
    pub fn spent() -> Turn {
        Turn::new()
    }

    // One that holds a lock of this rank more.
    #[inline(always)]
    pub(crate) fn with(_before: &Turn, _rank: &u64) -> Turn
        ensures { result.held ≡ _rank.now ∷ _before.now.held }
    {
        Turn { stays: PhantomData }
    }

    // One that holds the last no more.
    #[inline(always)]
    pub(crate) fn without(_before: &Turn) -> Turn
        ensures { result.held ≡ above _before.now.held }
    {
        Turn { stays: PhantomData }
    }
}
