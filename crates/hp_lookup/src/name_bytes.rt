//! Bytes of a name, mostly few.
ghost use Rattle.std.specs.Prelude.{◌≡◌, ◌≤◌, length, IfOk, IsOk};
ghost use Rattle.hp_lookup.specs.Name.{HasRoom, bytes_of};

use std::alloc::{AllocError, Global};

// So many bytes lie in the value itself.
const FEW: usize = 30;

/// The bytes of a name. Where they are few they lie in the value itself, else in memory of their own.
#[derive(Drop)]
pub enum NameBytes {
    Few(u8, [u8; FEW]),
    Many(Vec<u8>),
}

impl NameBytes {
    /// A copy of some bytes. Memory is asked for where they are more than 30.
    #[inline(always)]
    pub fn new(alloc: Global, bytes: &[u8]) -> Result<Self, AllocError>
        ensures copy { IfOk result (λ copy. bytes_of copy ≡ bytes.now) }
        ensures room { IfOk result HasRoom }
        ensures few { length bytes.now ≤ 30 → IsOk result }
    {
        let count = bytes.len();
        if count > FEW {
            return Ok(NameBytes::Many(Vec::from_slice(alloc, bytes)?));
        }
        let mut few = [0; FEW];
        few[..count].copy_from_slice(bytes);
        Ok(NameBytes::Few(count as u8, few))
    }

    /// The same bytes once more. Memory is asked for where they are more than 30.
    #[inline(always)]
    pub fn copy(&self, alloc: Global) -> Result<Self, AllocError>
        requires { HasRoom self.now }
        ensures copy { IfOk result (λ copy. bytes_of copy ≡ bytes_of self.now) }
        ensures room { IfOk result HasRoom }
    {
        match self {
            NameBytes::Few(count, few) => Ok(NameBytes::Few(*count, *few)),
            NameBytes::Many(many) => Ok(NameBytes::Many(Vec::from_slice(alloc, many)?)),
        }
    }

    #[inline(always)]
    pub fn as_slice(&self) -> &[u8]
        requires { HasRoom self.now }
        ensures { result.now ≡ bytes_of self.now }
    {
        match self {
            NameBytes::Few(count, few) => &few[..*count as usize],
            NameBytes::Many(many) => many.as_slice(),
        }
    }
}
