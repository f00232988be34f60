//! Maps that leave all files.
ghost use Rattle.std.specs.Prelude.{◌≡◌, ◌^◌, ◌+◌, ◌<◌, ◌≤◌, ℕ, length, true};
ghost use Rattle.std.specs.List.{All, sum_by};
ghost use Rattle.hp_file.specs.HeldPages.{AreDropped, AreHeld};
ghost use Rattle.hp_lookup.specs.Held.{in_files};
ghost use Rattle.hp_lookup.specs.Keyed.{is_listed, labels_of, maps_for};
ghost use Rattle.hp_file.specs.Leaving.{HaveLeft};
ghost use Rattle.hp_lookup.specs.Leaving.{file_owed, map_sum, swept_at};

use crate::file_list::FileList;
use crate::held_pages::HeldPages;
use hp_lookup::Departed;
use hp_model::naming::Naming;

/// All maps of a task go from each of some files. A file that is left without name and maps loses its pages and entries.
pub fn drop_maps_of<N: Naming>(
    task: u64,
    files: &mut FileList,
    pages: &mut HeldPages<N>,
) -> Departed
    requires held { AreHeld (λ n. in_files n files.old.files) pages.old }
    requires few { sum_by file_owed files.old.files < 2 ^ 64 }
    requires few_maps { map_sum files.old.files < 2 ^ 64 }
    ensures { HaveLeft task files.old files.new pages.old pages.new result }
{
    let mut maps = 0;
    let mut reserves = 0;
    for at in 0..files.len() {
        let gone = files[at].drop_maps_of(task, pages);
        maps += gone.maps;
        reserves += gone.reserves;
    }
    Departed { maps, reserves }
}

/// The same for a task that has so many maps. No file is walked where it has none.
pub fn drop_some_maps_of<N: Naming>(
    task: u64,
    count: u64,
    files: &mut FileList,
    pages: &mut HeldPages<N>,
) -> Departed
    requires count { count ≡ sum_by (maps_for task) (labels_of files.old.files) }
    requires listed { All (λ label. is_listed label ≡ true) (labels_of files.old.files) }
    requires held { AreHeld (λ n. in_files n files.old.files) pages.old }
    requires few { sum_by file_owed files.old.files < 2 ^ 64 }
    requires few_maps { map_sum files.old.files < 2 ^ 64 }
    ensures { HaveLeft task files.old files.new pages.old pages.new result }
{
    if count == 0 {
        return Departed {
            maps: 0,
            reserves: 0,
        };
    }
    drop_maps_of(task, files, pages)
}

/// A file without name and maps goes, with its pages and entries, and those behind it move down. Answers how many of its
/// entries had no page.
pub fn sweep_file<N: Naming>(files: &mut FileList, at: usize, pages: &mut HeldPages<N>) -> u64
    requires within { at < length files.old.files }
    requires held { AreHeld (λ n. in_files n files.old.files) pages.old }
    ensures files { files.new.files ≡ swept_at at files.old.files }
    ensures dropping { AreDropped (λ n. in_files n files.old.files)
        (λ n. in_files n files.new.files) pages.old pages.new }
    ensures reserves { result + sum_by file_owed files.new.files
        ≡ sum_by file_owed files.old.files }
{
    if files[at].is_used() {
        return 0;
    }
    let gone = files.remove(at);
    gone.close(pages)
}

impl FileList {
    /// Ends the files with their maps. What they hold goes.
    pub fn close<N: Naming>(self, pages: &mut HeldPages<N>)
        requires { AreHeld (λ n. in_files n self.files) pages.old }
        ensures { AreDropped (λ n. in_files n self.files) (λ n. 0) pages.old pages.new }
    {
        let mut files = self;
        while let Some(file) = files.pop() {
            file.close(pages);
        }
    }
}
