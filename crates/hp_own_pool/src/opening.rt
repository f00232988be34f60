//! The section in which a mount gets its share.
ghost use Rattle.std.specs.Prelude.{◌≡◌, ◌<◌};
ghost use Rattle.hp_model.specs.files.Options.{limits, wanted_of};
ghost use Rattle.hp_model.specs.pool.Pool.{section};
ghost use Rattle.hp_mount_door.specs.Door.{IsReady};
ghost use Rattle.hp_mount_door.specs.Opened.{IsShareOf};

use crate::limits::{no_limits, read_nr};
use hp_model::limits::Limits;
use hp_model::naming::Naming;
use hp_model::refusal::Refusal;
use hp_model::section::{PoolAnswer, Section};
use hp_options::options::parse_options;
use hp_pool::Pool;
use hp_subpool::Subpool;

/// A share with the limits that the options mean at the pool's nr, for pages of `page_bytes` bytes, and these limits; or
/// BadOption, MinOverSize or NoPages, and nothing changes. With the section, and the pool's answer to it.
#[inline(always)]
pub fn open_share<N: Naming>(
    pool: &mut Pool<N>,
    page_bytes: u64,
    options: &[u8],
) -> (Result<(Subpool<N>, Limits), Refusal>, Section, PoolAnswer)
    requires ready { IsReady pool.old }
    requires bytes { 0 < page_bytes }
    ensures section { section pool.old result.1 ≡ (result.2, pool.new) }
    ensures opens { IsShareOf (limits pool.old.nr page_bytes (wanted_of options.now))
        pool.old.nr result.0 result.1 result.2 }
    ensures ready { IsReady pool.new }
{
    let nr = pool.nr();
    match parse_options(options, nr, page_bytes) {
        Err(refusal) => no_limits(pool, refusal),
        Ok(limits) => {
            let section = Section::ReadAndGrant { pages: limits.min };
            match Subpool::open(pool, limits.max, limits.min) {
                Ok(share) => (Ok((share, limits)), section, read_nr(true, nr)),
                Err(refusal) => (Err(refusal), section, read_nr(false, nr)),
            }
        }
    }
}
