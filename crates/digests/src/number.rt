//! Digests that are numbers.
ghost use Rattle.std.specs.Prelude.{◌^◌, ◌<◌};
ghost use Rattle.digests.specs.BigEndian.{big_endian};
ghost use Rattle.digests.specs.EightBytes.{big_endian_one};
ghost use Rattle.std.proofs.Common.{rules};

use crate::{Digest, write_all};
use refusals::WriteError;

/// A number of 64 bits in eight bytes, the high byte first.
impl Digest for u64 {
    ghost image = { big_endian };

    ghost SIZE = { 8 };

    const SIZE: usize = 8;

    ghost valid = { λ n. n < 2 ^ 64 };

    ghost long = { Prim.search rules };

    ghost one = { big_endian_one };

    ghost small = { Prim.search rules };

    fn read(bytes: &[u8]) -> Option<u64> {
        bytes.first_chunk().map(|b| u64::from_be_bytes(*b))
    }

    fn encode_size(&self) -> usize {
        // Not `Self::SIZE`: a call on the number brings the proof that it is below 2^64, for the clause `holds`.
        self.to_be_bytes().len()
    }

    fn write(&self, out: &mut [u8]) -> Result<usize, WriteError> {
        write_all(&self.to_be_bytes(), out)
    }
}
