//! What a session does while a test holds a place, and how all is as before.

/// So many pages in the pool.
pub const PAGES: u64 = 48;

/// The slots with files and maps: the first, a middle one and the last. Slot 1 has a mount with nothing on it, and slot 3 none.
pub const USED: [u64; 3] = [0, 2, 4];

/// All that the works want to be there.
pub const BEGIN: &str = "nr 48\nconnect 1 0\nmount 1 -\nmount 2 -\nmount 4 -\n";

/// The files of a slot S, and the maps of task 1: of a page, of two reserved indices, and of a hole.
pub const FILES: &str =
    "create S p\ncreate S a\ncreate S h\npreallocate S p 0 1\nmap 1 S p 0 1 shared noreserve\n\
map 1 S a 0 2 shared\nmap 1 S h 0 1 shared noreserve\n";

/// The maps of task 2: a copy of a page on each slot.
pub const COPIES: &str =
    "connect 2 0\nmap 2 0 p 0 1 private\nfault 2 0 1 0 write\nmap 2 2 p 0 1 private\nfault 2 2 1 0 write\n\
map 2 4 p 0 1 private\nfault 2 4 1 0 write\n";

const RESERVED: &str = "punch S a 0 2\nunmap 1 S 2 0 2\nmap 1 S a 0 2 shared\n";

/// Which slots an act takes, one at a time.
#[derive(Clone, Copy, Drop, PartialEq, Eq)]
pub enum Slots {
    None,
    /// The one that it is of, which has files.
    Its,
    Only(u64),
    Each,
}

/// When an act takes the task table: with no trace, what looks a task up reads a word.
#[derive(Clone, Copy, Drop, PartialEq, Eq)]
pub enum Table {
    Never,
    Traced,
    Always,
}

/// Whether an act takes the pool, and whether then a node.
#[derive(Clone, Copy, Drop, PartialEq, Eq)]
pub enum Pool {
    Never,
    Alone,
    AndNode,
}

/// What an act takes, of slot S: these lines, which come together. At the pool and at a node it holds its slot alone, or the first
/// of each, and elsewhere nothing. What it wants just before it, and what undoes it.
#[derive(Clone, Copy, Drop)]
pub struct Row {
    pub act: &'static str,
    pub slots: Slots,
    pub table: Table,
    pub pool: Pool,
    pub before: &'static str,
    pub after: &'static str,
}

fn takes(
    act: &'static str,
    slots: Slots,
    table: Table,
    pool: Pool,
    before: &'static str,
    after: &'static str,
) -> Row {
    Row {
        act,
        slots,
        table,
        pool,
        before,
        after,
    }
}

/// The works of a task at its maps: of a page that is there, of reserved indices by one line or by two, of a hole, and of slot 0
/// with no file's name.
pub fn of_maps() -> [Row; 8] {
    let (its, looks) = (Slots::Its, Table::Traced);
    [
        takes("load 1 S 1 0 0 1\n", its, looks, Pool::Never, "", ""),
        takes(
            "store 1 S 2 0 0 78\n",
            its,
            looks,
            Pool::AndNode,
            "",
            RESERVED,
        ),
        takes(
            "store 1 S 2 0 0 11\nfault 1 S 2 0 write\n",
            its,
            looks,
            Pool::AndNode,
            "",
            RESERVED,
        ),
        takes(
            "fault 1 S 2 0 write\nfault 1 S 2 1 write\n",
            its,
            looks,
            Pool::AndNode,
            "",
            RESERVED,
        ),
        takes(
            "fault 1 S 3 0 write\n",
            its,
            looks,
            Pool::AndNode,
            "",
            "punch S h 0 1\n",
        ),
        takes(
            "map 1 S p 0 1 private\n",
            its,
            looks,
            Pool::Alone,
            "",
            "unmap 1 S 4 0 1\n",
        ),
        takes(
            "unmap 1 S 2 0 2\n",
            its,
            looks,
            Pool::Alone,
            "",
            "map 1 S a 0 2 shared\n",
        ),
        takes(
            "anon 1 1 shared\n",
            Slots::Only(0),
            looks,
            Pool::Alone,
            "",
            "unmap 1 S 4 0 1\n",
        ),
    ]
}

/// Those of files.
pub fn of_files() -> [Row; 9] {
    let (its, never) = (Slots::Its, Table::Never);
    [
        takes(
            "preallocate S h 0 1\n",
            its,
            never,
            Pool::AndNode,
            "",
            "punch S h 0 1\n",
        ),
        takes(
            "punch S p 0 1\n",
            its,
            never,
            Pool::AndNode,
            "",
            "preallocate S p 0 1\n",
        ),
        takes(
            "truncate S p 0\n",
            its,
            never,
            Pool::AndNode,
            "",
            "preallocate S p 0 1\n",
        ),
        takes("read S p 0 0 1\n", its, never, Pool::Never, "", ""),
        takes("create S n\n", its, never, Pool::Never, "", "unlink S n\n"),
        takes("unlink S n\n", its, never, Pool::Alone, "create S n\n", ""),
        takes("stat S p\n", its, never, Pool::Never, "", ""),
        takes("ls S\n", its, never, Pool::Never, "", ""),
        takes("df S\n", its, never, Pool::Never, "", ""),
    ]
}

/// Those of mounts, of slots 3 and 1, of tasks and of the pool. Task 1 has a child, and task 2 exits.
pub fn of_others() -> [Row; 11] {
    let (one, none, never) = (Slots::Only(1), Slots::None, Table::Never);
    let page = "create S p\npreallocate S p 0 1\n";
    [
        takes(
            "mount S min_size=1K\n",
            Slots::Only(3),
            never,
            Pool::Alone,
            "",
            "umount S\n",
        ),
        takes(
            "remount S min_size=1K\n",
            one,
            never,
            Pool::Alone,
            "",
            "remount S min_size=0\n",
        ),
        takes("umount S\n", one, never, Pool::AndNode, page, "mount S -\n"),
        takes(
            "fork 1 9\n",
            Slots::Each,
            Table::Always,
            Pool::Alone,
            "",
            "exit 9\n",
        ),
        takes(
            "exit 2\n",
            Slots::Each,
            Table::Always,
            Pool::AndNode,
            "",
            COPIES,
        ),
        takes(
            "connect 9 1\n",
            none,
            Table::Always,
            Pool::Never,
            "",
            "exit 9\n",
        ),
        takes("attach 1\n", none, Table::Traced, Pool::Never, "", ""),
        takes("nr 47\n", none, never, Pool::Alone, "", "nr 48\n"),
        takes(
            "overcommit 1\n",
            none,
            never,
            Pool::Alone,
            "",
            "overcommit 0\n",
        ),
        takes("meminfo\n", none, never, Pool::Alone, "", ""),
        takes("nodes\n", none, never, Pool::Alone, "", ""),
    ]
}
