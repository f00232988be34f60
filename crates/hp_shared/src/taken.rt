//! Claims of pages that wait to be handed out.
ghost use Rattle.std.specs.Prelude.{◌≡◌, ◌<◌, ◌^◌, ◌++◌, ◌∷◌, [], IfNone, IfSome, None, Some, false};

use hp_model::naming::Naming;
use hp_permit::Claim;
use std::marker::Model;
use std::mem;

/// Claims of pages, in the order in which they were taken: some of one node, and then at most one of another. They can't be
/// dropped: `close` ends them once all are handed out.
pub(crate) struct Taken<N: Naming> {
    first: Option<Claim<N>>,
    last: Option<Claim<N>>,
}

impl<N: Naming> Model for Taken<N> {
    ghost use Rattle.std.specs.Prelude.{is_some};
    ghost use Rattle.hp_shared.specs.Runs.{AreClaims, TakenView, nodes_in};

    ghost Value = { TakenView };

    ghost view = { λ t. record { nodes = nodes_in t.first t.last; is_full = is_some t.last } };

    ghost invariant = { λ t. AreClaims t.first t.last };
}

impl<N: Naming> Taken<N> {
    /// None.
    #[inline(always)]
    pub(crate) fn new() -> Self
        ensures { result ≡ record { nodes = []; is_full = false } }
    {
        Taken {
            first: None,
            last: None,
        }
    }

    /// Whether no other has room.
    #[inline(always)]
    pub(crate) fn is_full(&self) -> bool
        ensures { result ≡ self.now.is_full }
    {
        self.last.is_some()
    }

    /// Adds the claim of a page.
    #[inline(always)]
    pub(crate) fn add(&mut self, claim: Claim<N>)
        requires one { claim.amount ≡ 1 }
        requires few { N.frames claim.node < 2 ^ 64 }
        requires room { self.old.is_full ≡ false }
        ensures { self.new.nodes ≡ self.old.nodes ++ claim.node ∷ [] }
    {
        let Taken { first, last } = self;
        if let Some(all) = first {
            if all.node() == claim.node() {
                all.join(claim);
            } else {
                put(last, claim);
            }
            return;
        }
        put(first, claim);
    }

    /// The claim of the page that was taken first.
    #[inline(always)]
    pub(crate) fn next_claim(&mut self) -> Option<Claim<N>>
        ensures one { IfSome result (λ claim. claim.amount ≡ 1) }
        ensures some { IfSome result (λ claim. self.old.nodes ≡ claim.node ∷ self.new.nodes) }
        ensures none { IfNone result (self.old.nodes ≡ []) }
        ensures same { IfNone result (self.new ≡ self.old) }
    {
        if let Some(all) = &mut self.first {
            if all.amount() > 1 {
                return Some(all.split(1));
            }
        }
        let next = mem::replace(&mut self.last, None);
        mem::replace(&mut self.first, next)
    }

    /// Ends them, once all were handed out.
    #[inline(always)]
    pub(crate) fn close(self)
        requires { self.nodes ≡ [] }
    {
        let Taken { first, last } = self;
        end(first);
        end(last);
    }
}

// Puts a claim where none is.
#[inline(always)]
fn put<N: Naming>(place: &mut Option<Claim<N>>, claim: Claim<N>)
    requires { place.old ≡ None }
    ensures { place.new ≡ Some claim }
{
    end(mem::replace(place, Some(claim)));
}

// Ends what is no claim.
#[inline(always)]
fn end<N: Naming>(none: Option<Claim<N>>)
    requires { none ≡ None }
{
    match none {
        None => {}
        Some(_) => unreachable!(),
    }
}
