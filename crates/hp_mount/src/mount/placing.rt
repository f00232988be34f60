//! Where an access goes, or why it does not begin.
ghost use Rattle.std.specs.Prelude.{◌≡◌, IfErr, IfOk, OnOk, Some};
ghost use Rattle.hp_mount.specs.Found.{Fits, IsPlaced, why_not};

use super::Mount;
use super::reach::{Asked, MapAccess};
use hp_model::naming::Naming;
use hp_model::profile::MOST_BYTES;
use hp_model::refusal::Refusal;
use hp_mount_files::{Lookup, MapPlace};
use hp_nodes::Page;

impl<N: Naming> Mount<N> {
    // Where the map of an access stands, or why the access does not begin.
    #[inline(always)]
    pub(super) fn place(
        &self,
        page_bytes: u64,
        access: &MapAccess,
        asked: Asked,
    ) -> Result<MapPlace, Refusal>
        ensures placed { IfOk result (λ at. IsPlaced self.now access.now asked page_bytes at) }
        ensures fits { OnOk result (Fits page_bytes asked) }
        ensures refused { IfErr result (λ e. why_not self.now access.now asked page_bytes
            ≡ Some e) }
    {
        let Some(at) = self.files.find(access.task, access.map) else {
            return Err(Refusal::NoSuchMap);
        };
        if !self.files.map(at).is_live(access.index) {
            return Err(Refusal::OutOfRange);
        }
        match asked {
            Asked::Page => {}
            Asked::Bytes { offset, count } => {
                if count == 0 {
                    return Err(Refusal::OutOfRange);
                }
                if offset > page_bytes || count > page_bytes - offset {
                    return Err(Refusal::CrossesPage);
                }
                if count > MOST_BYTES as u64 {
                    return Err(Refusal::TooMany);
                }
            }
        }
        if access.index >= self.files.file(at.file).len() {
            return Err(Refusal::BeyondEnd);
        }
        Ok(at)
    }
}
