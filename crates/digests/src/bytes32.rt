//! Digests of 32 bytes, held by value.
ghost use Rattle.std.specs.Prelude.{◌≡◌, length};
ghost use Rattle.std.proofs.Common.{rules};

use crate::{Digest, write_all};
use refusals::WriteError;

impl Digest for [u8; 32] {
    ghost image = { λ d. d };

    ghost SIZE = { 32 };

    const SIZE: usize = 32;

    ghost valid = { λ d. length d ≡ 32 };

    ghost long = { Prim.search rules };

    ghost one = { Prim.search rules };

    ghost small = { Prim.search rules };

    fn read(bytes: &[u8]) -> Option<[u8; 32]> {
        bytes.first_chunk().copied()
    }

    fn encode_size(&self) -> usize {
        self.len()
    }

    fn write(&self, out: &mut [u8]) -> Result<usize, WriteError> {
        write_all(self, out)
    }
}
