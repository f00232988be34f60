//! Where names and numbers lead.
ghost use Rattle.std.specs.Prelude.{◌≡◌, None, IfSome, IfNone};
ghost use Rattle.hp_model.specs.Lists.{found};
ghost use Rattle.hp_model.specs.machine.SlotEvent.{has_name};
ghost use Rattle.hp_lookup.specs.Places.{IsFound, IsMissing, IsNamed};
ghost use Rattle.hp_lookup.specs.Files.{Files as TheFiles};

use hp_lookup::MapPlace;

/// Where the names of files and the numbers of maps lead, with no step for each file or map.
pub trait Lookup {
    /// The files, as contracts see them.
    ghost seen: { Self → TheFiles };

    /// The place of the task's map of that number. It makes no step for each file or map: where another stands where the map
    /// stood, its file is looked for near its place, else by a binary search, and the map in it by another; it is noted to stand
    /// there.
    fn find(&self, task: u64, number: u64) -> Option<MapPlace>
        ensures some { IfSome result (λ at.
            IsFound (seen self.now).files task number at.file at.map) }
        ensures none { IfNone result (IsMissing (seen self.now).files task number) };

    /// The place of the file with the name. It makes no step for each file: where another stands where the file stood, its tag
    /// is found by a binary search, and the file noted to stand there.
    fn named(&self, name: &[u8]) -> Option<usize>
        ensures some { IfSome result (λ at. IsNamed (seen self.now).files name.now at) }
        ensures none { IfNone result (found (has_name name.now) (seen self.now).files ≡ None) };
}
