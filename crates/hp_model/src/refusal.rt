//! Why a step is refused.
ghost use Rattle.std.specs.Prelude.{◌≡◌, Some};
ghost use Rattle.hp_model.specs.text.Names.{name_of_refusal, number_of_refusal};

use std::fmt;

/// The refusals, in the order of their numbers from 1 on.
#[derive(Clone, Copy, Debug, PartialEq, Eq)]
pub enum Refusal {
    /// A growth was refused.
    OutOfMemory,
    /// More pages than may be committed.
    NoPages,
    /// More pages than the mount's limit.
    MountFull,
    /// An access at an index not below the file's length.
    BeyondEnd,
    /// An access at an index without a copy, in a map from which the owner took a page.
    TakenByOwner,
    /// No such task in the table.
    NoSuchTask,
    /// The task's number is in use.
    TaskExists,
    /// No slot of that number, or none mounted.
    NoSuchSlot,
    /// A mount on an open slot.
    SlotTaken,
    /// A minimum above the limit, in pages.
    MinOverSize,
    /// Mount options that are none.
    BadOption,
    /// No file of that name.
    NoSuchFile,
    /// A file of that name is there.
    FileExists,
    /// As many files as the mount may have.
    NoInodes,
    /// Not 1 to 64 of A-Z a-z 0-9 `.` `_` `-`.
    BadName,
    /// The task has no such map on the slot.
    NoSuchMap,
    /// An empty range, one past the file limit, an index that is not mapped, or an overcommit past its limit.
    OutOfRange,
    /// Bytes past the end of a page.
    CrossesPage,
    /// An umount of slot 0, or of a slot with maps.
    Busy,
    /// Past a limit on tasks, files, maps, pages of a map or bytes.
    TooMany,
    /// A line that is no step.
    BadLine,
    /// A line of more than 1,024 bytes.
    LineTooLong,
    /// No room in a kept trail or in a session's receipts.
    TraceFull,
    /// Trails and receipts that cannot belong to one run.
    TrailsDiffer,
    /// A home that is no node.
    NoSuchNode,
}

impl Refusal {
    /// The refusal's number, from 1 on.
    pub fn number(self) -> u64
        ensures { result ≡ number_of_refusal self }
    {
        self as u64 + 1
    }

    /// The refusal's name, as a reply writes it.
    pub fn name(self) -> &'static str
        ensures { result.now ≡ name_of_refusal self }
    {
        match self {
            Refusal::OutOfMemory => "OutOfMemory",
            Refusal::NoPages => "NoPages",
            Refusal::MountFull => "MountFull",
            Refusal::BeyondEnd => "BeyondEnd",
            Refusal::TakenByOwner => "TakenByOwner",
            Refusal::NoSuchTask => "NoSuchTask",
            Refusal::TaskExists => "TaskExists",
            Refusal::NoSuchSlot => "NoSuchSlot",
            Refusal::SlotTaken => "SlotTaken",
            Refusal::MinOverSize => "MinOverSize",
            Refusal::BadOption => "BadOption",
            Refusal::NoSuchFile => "NoSuchFile",
            Refusal::FileExists => "FileExists",
            Refusal::NoInodes => "NoInodes",
            Refusal::BadName => "BadName",
            Refusal::NoSuchMap => "NoSuchMap",
            Refusal::OutOfRange => "OutOfRange",
            Refusal::CrossesPage => "CrossesPage",
            Refusal::Busy => "Busy",
            Refusal::TooMany => "TooMany",
            Refusal::BadLine => "BadLine",
            Refusal::LineTooLong => "LineTooLong",
            Refusal::TraceFull => "TraceFull",
            Refusal::TrailsDiffer => "TrailsDiffer",
            Refusal::NoSuchNode => "NoSuchNode",
        }
    }
}

impl fmt::Display for Refusal {
    ghost output = { λ x. Some (name_of_refusal x) };

    fn fmt<W: fmt::Write>(&self, f: &mut fmt::Formatter<W>) -> fmt::Result {
        f.write_str(self.name())
    }
}
