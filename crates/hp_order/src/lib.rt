//! The order in which threads take locks, by which none waits for itself.
#![tactic(auto)]

ghost use Rattle.hp_order.specs.Running.{EachRunGoesOn, NoRunHasCycle};
ghost use Rattle.hp_order.specs.Waiting.{EndsAtWork, HasNoCycle};

mod line_lock;
mod ranked_lock;
mod rest;
mod turn;
mod waiting;

pub use line_lock::LineLock;
pub use ranked_lock::{Ordered, RankedLock, hold, let_go, try_hold};
pub use rest::Rest;
pub use turn::Turn;
pub use waiting::receive;

/// No thread waits for itself, through whomever.
pub fn nobody_waits_for_itself()
    ensures { HasNoCycle }
{}

/// Whoever waits for a lock that is held waits at last for a thread that can go on.
pub fn each_waits_for_one_at_work()
    ensures { EndsAtWork }
{}

/// In no run of threads that keep the order does one wait for itself, through whomever.
pub fn no_run_deadlocks()
    ensures { NoRunHasCycle }
{}

/// In each of them whoever waits for a lock that is held waits at last for a thread that can go on.
pub fn each_run_goes_on()
    ensures { EachRunGoesOn }
{}
