//! Files and maps that are lent, to be asked.
ghost use Rattle.std.specs.Prelude.{◌≡◌, ◌<◌, length, IfSome};
ghost use Rattle.hp_lookup.specs.Files.{file_at};
ghost use Rattle.hp_lookup.specs.Places.{map_among, shown_at};
ghost use Rattle.hp_mount_files.specs.Lent.{IsLent, IsMapLent, IsReadable};

use super::Files;
use hp_file::File;
use hp_lookup::MapPlace;
use hp_mapping::Mapping;
use hp_model::naming::Naming;
use hp_nodes::Page;

impl<N: Naming> Files<N> {
    /// The file at a place.
    #[inline(always)]
    pub fn file(&self, at: usize) -> &File
        requires { at < length self.now.files }
        ensures { IsLent (file_at self.now.files at) result.now }
    {
        &self.list[at]
    }

    /// The map at a place.
    #[inline(always)]
    pub fn map(&self, at: MapPlace) -> &Mapping
        requires file { at.file < length self.now.files }
        requires map { at.map < length (file_at self.now.files at.file).maps }
        ensures { IsMapLent (map_among self.now.files at.file at.map) result.now }
    {
        self.list[at.file].map(at.map)
    }

    /// The page that a reader of a map finds at an index and need not ask for: the copy of a private map, or the file's page
    /// where the map has no copy and is not marked.
    #[inline(always)]
    pub fn found(&self, at: MapPlace, index: u64) -> Option<&Page<N>>
        requires file { at.file < length self.now.files }
        requires map { at.map < length (file_at self.now.files at.file).maps }
        ensures shown { IfSome result (λ page. page.now.bytes
            ≡ shown_at N.page_bytes self.now.files at index) }
        ensures readable { IfSome result (λ page. IsReadable index
            (file_at self.now.files at.file) (map_among self.now.files at.file at.map)) }
    {
        let file = &self.list[at.file];
        let map = file.map(at.map);
        match map.copy_at(index) {
            Some(copy) => {
                if map.is_shared() {
                    return None;
                }
                Some(self.pages.store.page(copy))
            }
            None => {
                if map.is_marked() {
                    return None;
                }
                match file.page_at(index) {
                    Some(page) => Some(self.pages.store.page(page)),
                    None => None,
                }
            }
        }
    }
}
