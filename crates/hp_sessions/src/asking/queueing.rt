//! Loads, stores and faults that wait, done several at a time.
ghost use Rattle.std.specs.Prelude.{◌≡◌, ◌<◌, ◌≤◌, drop, length, take};
ghost use Rattle.hp_model.specs.beside.Queue.{DoesAll};
ghost use Rattle.hp_model.specs.Profile.{most_bytes};
ghost use Rattle.hp_sessions.specs.Calls.{IsCallMade};

use super::Asking;
use hp_events::Parts;
use hp_model::queued::Queued;
use hp_model::service::Service;

impl<P: Parts> Asking<P> {
    // Does the loads, stores and faults of a queue: those of one slot that follow each other together, where no entries are kept, and
    // each other one by itself.
    pub(super) fn do_waiting(&mut self, queue: &mut [Queued], room: &mut [u8])
        requires { most_bytes ≤ length room.old }
        ensures { DoesAll (λ s step reply t. IsCallMade P.keeps P.page s step reply t)
            self.old queue.old queue.new self.new }
    {
        let mut done = 0;
        while done < queue.len() {
            let some = self.do_together(&mut queue[done..], room);
            done += some;
            if some == 0 {
                self.do_one(&mut queue[done], room);
                done += 1;
            }
        }
    }

    // Does the first loads, stores and faults of a queue, as many as their slot takes at once.
    #[inline(always)]
    fn do_together(&mut self, queue: &mut [Queued], room: &mut [u8]) -> usize
        requires some { 0 < length queue.old }
        requires room { most_bytes ≤ length room.old }
        ensures few { result ≤ length queue.old }
        ensures done { DoesAll (λ s step reply t. IsCallMade P.keeps P.page s step reply t)
            self.old (take result queue.old) (take result queue.new) self.new }
        ensures left { drop result queue.new ≡ drop result queue.old }
    {
        let at = queue[0].access().slot as usize;
        if self.parts.is_kept() || at >= self.parts.count() {
            return 0;
        }
        self.parts.accesses(at, queue, room)
    }
}
