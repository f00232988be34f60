//! Tasks' numbers in order.
ghost use Rattle.std.specs.Prelude.{◌≡◌, ◌<◌, ◌≤◌, ◌==◌, ◌-◌, ℕ, [], ◌∷◌, cond, false, true, length, IfOk, IfSome, None};
ghost use Rattle.std.specs.List.{count_by};
ghost use Rattle.std.specs.List.Sorted.{IsNonDecreasing, IsPermutation};
ghost use Rattle.hp_model.specs.Profile.{most_tasks};
ghost use Rattle.hp_tasks.specs.Table.{IsPlaceFor, IsPlaceOf};

use hp_model::profile::MOST_TASKS;
use std::alloc::{AllocError, Global};
use std::marker::Model;

/// Numbers of tasks in order, with where each task stands, which is never trusted. There is room for all tasks.
///
/// A number is found in some twelve steps, and put in or taken out with a move of those above it, whichever numbers are there.
#[derive(Drop)]
pub(crate) struct Order {
    tasks: Vec<u64>,
    stands: Vec<u16>,
}

impl Model for Order {
    ghost use Rattle.std.specs.Prelude.{List, ℕ, vec_len, vec_capacity};
    ghost use Rattle.hp_tasks.specs.Table.{IsOrdered};

    ghost Value = { List ℕ };

    ghost view = { λ o. o.tasks.items };

    ghost invariant = { λ o.
        IsOrdered o.tasks.items (vec_len o.stands) (vec_capacity o.tasks) (vec_capacity o.stands) };
}

// Where a number is.
fn find(tasks: &[u64], task: u64) -> Option<usize>
    requires { IsNonDecreasing tasks.now }
    ensures some { IfSome result (IsPlaceOf tasks.now task) }
    ensures none { result ≡ None → count_by (λ n. n == task) tasks.now ≡ 0 }
{
    match tasks.binary_search(&task) {
        Ok(at) => Some(at),
        Err(_) => None,
    }
}

// Where a number is, or would be.
fn place_for(tasks: &[u64], task: u64) -> usize
    requires { IsNonDecreasing tasks.now }
    ensures { IsPlaceFor tasks.now task result }
{
    match tasks.binary_search(&task) {
        Ok(at) => at,
        Err(at) => at,
    }
}

impl Order {
    /// No number, and room for all.
    pub(crate) fn new(alloc: Global) -> Result<Order, AllocError>
        ensures { IfOk result (λ o. o ≡ []) }
    {
        Ok(Order {
            tasks: Vec::with_capacity(alloc, MOST_TASKS)?,
            stands: Vec::with_capacity(alloc, MOST_TASKS)?,
        })
    }

    /// Where a task was noted to stand.
    pub(crate) fn stand(&self, task: u64) -> Option<usize>
        ensures { result ≡ None → count_by (λ n. n == task) self.now ≡ 0 }
    {
        let at = find(&self.tasks, task)?;
        Some(self.stands[at] as usize)
    }

    /// Adds a number. Takes no memory.
    pub(crate) fn add(&mut self, task: u64, stand: u16)
        requires { length self.old < most_tasks }
        ensures { IsPermutation (task ∷ self.old) self.new }
    {
        let at = place_for(&self.tasks, task);
        let _ = self.tasks.insert(at, task);
        let _ = self.stands.insert(at, stand);
    }

    /// Takes a number out, if it is there.
    pub(crate) fn remove(&mut self, task: u64)
        ensures { (t : ℕ) → count_by (λ n. n == t) self.new
            ≡ count_by (λ n. n == t) self.old - cond (task == t) 1 0 }
    {
        let Some(at) = find(&self.tasks, task) else {
            return;
        };
        self.tasks.remove(at);
        self.stands.remove(at);
    }

    /// Notes where a task stands, if its number is there, and tells whether it is.
    pub(crate) fn move_to(&mut self, task: u64, stand: u16) -> bool
        ensures order { self.new ≡ self.old }
        ensures there { result ≡ true → 1 ≤ count_by (λ n. n == task) self.old }
        ensures absent { result ≡ false → count_by (λ n. n == task) self.old ≡ 0 }
    {
        match find(&self.tasks, task) {
            Some(at) => {
                self.stands[at] = stand;
                true
            }
            None => false,
        }
    }
}
