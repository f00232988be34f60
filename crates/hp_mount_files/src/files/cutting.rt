//! Pages and names that go.
ghost use Rattle.std.specs.Prelude.{◌≡◌, ◌^◌, ◌<◌, length};
ghost use Rattle.hp_lookup.specs.Files.{edited_at, file_at};
ghost use Rattle.hp_lookup.specs.Dropping.{IsLeft};
ghost use Rattle.hp_model.specs.files.GiveBack.{punched, truncated, unlinked};
ghost use Rattle.hp_lookup.specs.Places.{IsNamed};

use super::Files;
use hp_model::naming::Naming;

impl<N: Naming> Files<N> {
    /// The pages of a file's indices from `a` up to `b` go with their entries, and so do private copies of them. Entries
    /// without a page stay. It takes a step for each page and copy that was there, and for each map of the file.
    pub fn punch(&mut self, file: usize, a: u64, b: u64)
        requires { file < length self.old.files }
        ensures files { self.new.files
            ≡ edited_at file (punched a b (file_at self.old.files file)) self.old.files }
        ensures left { IsLeft 0 self.old self.new }
    {
        let at = &mut self.list[file];
        at.punch(a, b, &mut self.pages);
    }

    /// Makes a file `pages` indices long. Pages, entries and private copies from there on go. Answers how many entries
    /// without a page went, each of which was a reservation. It takes a step for each page and copy that was there, and
    /// for each map of the file.
    pub fn truncate(&mut self, file: usize, pages: u64) -> u64
        requires file { file < length self.old.files }
        requires small { pages < 2 ^ 32 }
        ensures files { self.new.files
            ≡ edited_at file (truncated pages (file_at self.old.files file)) self.old.files }
        ensures left { IsLeft result self.old self.new }
    {
        let at = &mut self.list[file];
        at.truncate(pages, &mut self.pages)
    }

    /// Takes the name of a file away. Without maps the file goes, with its pages and entries, and those behind it move down
    /// by one place. Answers how many entries without a page went, each of which was a reservation.
    pub fn unlink(&mut self, file: usize, name: &[u8]) -> u64
        requires { IsNamed self.old.files name.now file }
        ensures files { self.new.files
            ≡ edited_at file (unlinked (file_at self.old.files file)) self.old.files }
        ensures left { IsLeft result self.old self.new }
    {
        self.hints.forget_file(name);
        if self.list[file].map_count() > 0 {
            let at = &mut self.list[file];
            at.drop_name();
            return 0;
        }
        let gone = self.list.remove(file);
        gone.close(&mut self.pages)
    }
}
