//! The section in which a mount's limits are set anew.
ghost use Rattle.std.specs.Prelude.{◌≡◌, ◌<◌, true, Err};
ghost use Rattle.hp_model.specs.declared.section.Section.TheVariants.{ReadAndGrant};
ghost use Rattle.hp_model.specs.files.Options.{limits, wanted_of};
ghost use Rattle.hp_model.specs.pool.Pool.{section};
ghost use Rattle.hp_mount_door.specs.Door.{IsReady};
ghost use Rattle.hp_mount_door.specs.Limits.{IsLimitedBy, minimum_section, read_nr};

use hp_model::naming::Naming;
use hp_model::refusal::Refusal;
use hp_model::section::{PoolAnswer, Section};
use hp_options::options::parse_options;
use hp_pool::Pool;
use hp_subpool::Subpool;

/// Sets a share's limits to what the options mean at the pool's nr, for pages of `page_bytes` bytes, and answers the limit
/// of files; or BadOption, MinOverSize or NoPages, and nothing changes. With the section, and the pool's answer to it.
pub fn set_limits<N: Naming>(
    pool: &mut Pool<N>,
    share: &mut Subpool<N>,
    page_bytes: u64,
    options: &[u8],
) -> (Result<Option<u64>, Refusal>, Section, PoolAnswer)
    requires ready { IsReady pool.old }
    requires bytes { 0 < page_bytes }
    ensures section { section pool.old result.1 ≡ (result.2, pool.new) }
    ensures limits { IsLimitedBy (limits pool.old.nr page_bytes (wanted_of options.now))
        pool.old.nr share.old share.new result.0 result.1 result.2 }
    ensures ready { IsReady pool.new }
{
    let nr = pool.nr();
    match parse_options(options, nr, page_bytes) {
        Err(refusal) => no_limits(pool, refusal),
        Ok(limits) => {
            let section = minimum_section(share, limits.min);
            match share.set_limits(pool, limits.max, limits.min) {
                Ok(()) => (Ok(limits.inodes), section, read_nr(true, nr)),
                Err(refusal) => (Err(refusal), section, read_nr(false, nr)),
            }
        }
    }
}

// What another minimum asks of the pool, or gives back to it.
fn minimum_section<N: Naming>(share: &Subpool<N>, min: u64) -> Section
    ensures { result ≡ minimum_section share.now min }
{
    let committed = share.used().max(share.min());
    let wanted = share.used().max(min);
    if wanted < committed {
        Section::ReadAndGiveBack {
            pages: committed - wanted,
        }
    } else {
        Section::ReadAndGrant {
            pages: wanted - committed,
        }
    }
}

// What is answered where the options mean no limits: nr was read, and nothing asked of the pool.
pub(crate) fn no_limits<N: Naming, T>(
    pool: &Pool<N>,
    refusal: Refusal,
) -> (Result<T, Refusal>, Section, PoolAnswer)
    requires { IsReady pool.now }
    ensures error { result.0 ≡ Err refusal }
    ensures asked { result.1 ≡ ReadAndGrant 0 }
    ensures answer { result.2 ≡ read_nr true pool.now.nr }
    ensures section { section pool.now result.1 ≡ (result.2, pool.now) }
{
    pool.law();
    let section = Section::ReadAndGrant { pages: 0 };
    (Err(refusal), section, read_nr(true, pool.nr()))
}

// The pool's answer where nr is read.
pub(crate) fn read_nr(granted: bool, nr: u64) -> PoolAnswer
    ensures { result ≡ read_nr granted nr }
{
    PoolAnswer {
        granted,
        node: 0,
        nr,
        pages: [0; 4],
    }
}
