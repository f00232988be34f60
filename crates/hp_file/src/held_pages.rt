//! Pages with their holders.

use hp_model::naming::Naming;
use hp_store::PageStore;

/// The pages of files and maps with their holders, and how many holders there are beyond the first of each: to each of these
/// a page is owed, once it writes.
pub struct HeldPages<N: Naming> {
    pub store: PageStore<N>,
    pub more: usize,
}
