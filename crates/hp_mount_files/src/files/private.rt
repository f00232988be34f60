//! Private maps and their copies.

use super::Files;
use crate::map_pages::MapPages;
use hp_file::drop_holder;
use hp_lookup::{CopyState, MapPlace};
use hp_model::naming::Naming;
use hp_model::page_no::PageNo;
use hp_nodes::Page;

impl<N: Naming> MapPages<Page<N>> for Files<N> {
    ghost seen = { λ f. f };

    ghost page_bytes = { N.page_bytes };

    ghost page_of = { λ p. p };

    fn shown(&self, at: MapPlace, index: u64) -> Option<&Page<N>> {
        let file = &self.list[at.file];
        let map = file.map(at.map);
        match map.copy_at(index) {
            Some(copy) => Some(self.pages.store.page(copy)),
            None => match file.page_at(index) {
                Some(page) => Some(self.pages.store.page(page)),
                None => None,
            },
        }
    }

    fn copy(&self, at: MapPlace, index: u64) -> CopyState {
        let map = self.list[at.file].map(at.map);
        let Some(number) = map.copy_at(index) else {
            return CopyState::Missing;
        };
        if self.pages.store.holders(number) == 1 {
            CopyState::HeldOnce
        } else {
            CopyState::HeldBySeveral
        }
    }

    fn put_copy(&mut self, at: MapPlace, index: u64, page: Page<N>) -> PageNo {
        let number = self.pages.store.insert(page);
        let file = &mut self.list[at.file];
        file.put_copy(at.map, index, number);
        number
    }

    fn part(&mut self, at: MapPlace, index: u64, page: Page<N>) -> PageNo {
        let number = self.pages.store.insert(page);
        let file = &mut self.list[at.file];
        let old = file.replace_copy(at.map, index, number);
        drop_holder(old, &mut self.pages);
        number
    }

    fn take_back(&mut self, at: MapPlace, index: u64) {
        let file = &mut self.list[at.file];
        file.take_back(at.map, index, &mut self.pages);
    }

    fn write_copy(&mut self, at: MapPlace, index: u64, offset: usize, bytes: &[u8]) {
        let map = self.list[at.file].map(at.map);
        let number = map.copy_at(index).unwrap();
        self.pages.store.write(number, offset, bytes);
    }
}
