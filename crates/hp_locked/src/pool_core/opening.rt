//! A mount's share and its limits, under the pool's lock.
ghost use Rattle.std.specs.Prelude.{Some, ◌≡◌, ◌<◌, false, IfOk, OnErr};
ghost use Rattle.hp_model.specs.files.Options.{limits, wanted_of};
ghost use Rattle.hp_mount_door.specs.Limits.{IsLimitedBy};
ghost use Rattle.hp_trail.specs.Keeping.{has_room};
ghost use Rattle.hp_mount_door.specs.Opened.{IsShareOf};
ghost use Rattle.hp_history.specs.Sections.{IsEntered, IsFreeSeat, IsSeat};
ghost use Rattle.hp_locked.specs.Views.{IsFull, IsSection};

use super::{Core, Full};
use crate::noting::note;
use hp_history::{History, Places, Token};
use hp_model::entry::{Asked, PoolEntry};
use hp_model::limits::Limits;
use hp_model::naming::Naming;
use hp_model::refusal::Refusal;
use hp_own_pool::limits::set_limits;
use hp_own_pool::opening::open_share;
use hp_subpool::Subpool;
use hp_trail::trail::Trail;

impl<N: Naming + Places, T: Trail<PoolEntry>> Core<N, T> {
    /// The section of a mount: reads nr, and commits the minimum that the options mean at it, for pages of so many bytes.
    /// The share and the limits, or BadOption, MinOverSize or NoPages; and the section. At `Err` the trail is full, and
    /// nothing changed.
    pub fn open(
        &mut self,
        history: &History<N>,
        mine: &mut Token,
        page_bytes: u64,
        options: &[u8],
    ) -> Result<(Result<(Subpool<N>, Limits), Refusal>, Asked), Full>
        requires bytes { 0 < page_bytes }
        requires mine { IsFreeSeat N.history mine.old.table_id mine.old.me }
        ensures section { IfOk result (λ r. IsSection self.old self.new r.1) }
        ensures opens { IfOk result (λ r. IsShareOf (limits self.old.pool.nr page_bytes
            (wanted_of options.now))
            self.old.pool.nr r.0 r.1.section r.1.answer) }
        ensures full { OnErr result (IsFull T.keeps self.old self.new mine.old.me mine.new.me) }
        ensures entered { IfOk result (λ r.
            IsEntered T.keeps mine.old.me.0 (Some r.1) mine.new.me.0) }
        ensures mine { IsSeat N.history mine.new.table_id mine.new.me }
    {
        let Core { pool, trail, seat } = self;
        if !trail.has_room(false) {
            return Err(Full {});
        }
        let (share, section, answer) = open_share(pool, page_bytes, options);
        pool.law();
        let asked = note(trail, seat, history, mine, section, answer);
        Ok((share, asked))
    }

    /// Sets a share's limits to what the options mean at nr, for pages of so many bytes: the limit of files, or BadOption,
    /// MinOverSize or NoPages; and the section. At `Err` the trail is full, and nothing changed.
    pub fn limits(
        &mut self,
        history: &History<N>,
        mine: &mut Token,
        share: &mut Subpool<N>,
        page_bytes: u64,
        options: &[u8],
    ) -> Result<(Result<Option<u64>, Refusal>, Asked), Full>
        requires bytes { 0 < page_bytes }
        requires mine { IsFreeSeat N.history mine.old.table_id mine.old.me }
        ensures section { IfOk result (λ r. IsSection self.old self.new r.1) }
        ensures set { IfOk result (λ r. IsLimitedBy (limits self.old.pool.nr page_bytes
            (wanted_of options.now))
            self.old.pool.nr share.old share.new r.0 r.1.section r.1.answer) }
        ensures full { OnErr result (IsFull T.keeps self.old self.new mine.old.me mine.new.me) }
        ensures unchanged { OnErr result (share.new ≡ share.old) }
        ensures entered { IfOk result (λ r.
            IsEntered T.keeps mine.old.me.0 (Some r.1) mine.new.me.0) }
        ensures mine { IsSeat N.history mine.new.table_id mine.new.me }
    {
        let Core { pool, trail, seat } = self;
        if !trail.has_room(false) {
            return Err(Full {});
        }
        let (files, section, answer) = set_limits(pool, share, page_bytes, options);
        pool.law();
        let asked = note(trail, seat, history, mine, section, answer);
        Ok((files, asked))
    }
}
