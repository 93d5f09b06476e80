//! The worked examples of the formats and the rules, run and proved.
#![tactic(auto)]

ghost use Rattle.std.specs.Prelude.{◌≡◌, ℕ, ◌^◌, ◌<◌, ◌≤◌, true, false, List, [], ◌∷◌, length, drop, Some, MatchResult, slice_set};
ghost use Rattle.refusals.specs.declared.Refusal.{Refusal as RefusalOf};
ghost use Rattle.digests.specs.BigEndian.{big_endian};
ghost use Rattle.refusals.specs.Refusals.{refusal};
ghost use Rattle.keys.specs.declared.error.Layer.TheVariants as layer;
ghost use Rattle.keys.specs.declared.error.Field.TheVariants as field;
ghost use Rattle.keys.specs.declared.error.Location.{Location as LocationOf};
ghost use Rattle.keys.specs.declared.error.Location.TheVariants.{InField, AtTag};
ghost use Rattle.keys.specs.Keys.{key_bytes, KeyAt};
ghost use Rattle.keys.specs.Refusals.{refusal_of, Refuses};
ghost use Rattle.worked_examples.specs.Examples.{Examples};

use digests::Digest;
use keys::{Key, KeyRef, Location, ReadError};
use refusals::Refusal;
use types::{Cutoff, Epoch, Height, Round, View};

fn finalized(height: u64) -> Key<u64>
    ensures { result ≡ Key.Finalized (record { 0 = height }) }
{
    Key::Finalized {
        height: Height::new(height),
    }
}

fn round(epoch: u64, view: u64) -> Round
    ensures { result ≡ record { epoch = record { 0 = epoch }; view = record { 0 = view } } }
{
    Round::new(Epoch::new(epoch), View::new(view))
}

/// Whether the key is written in exactly these bytes.
fn writes(key: &Key<u64>, bytes: &[u8]) -> bool
    ensures { key_bytes big_endian key.now ≡ bytes.now → length bytes.now ≤ 32 → result ≡ true }
{
    let mut out = [0u8; 32];
    key.write(&mut out) == Ok(bytes.len()) && out.starts_with(bytes)
}

/// The refusal that reading these bytes meets.
fn refusal_of(bytes: &[u8]) -> Option<Refusal<Location>>
    ensures { (f : RefusalOf LocationOf) → Refuses 8 bytes.now f → result ≡ Some f }
{
    let mut key = Key::Block(0u64);
    Key::read(bytes, &mut key).err().map(|e| Refusal::from(e))
}

/// What the examples come to when they are run.
pub struct WorkedExamples {
    /// Whether `Finalized` 300, `Notarized` (1, 128) and `Finalized` 2^64 - 1 are written in the bytes of the list.
    pub written: [bool; 3],
    /// The refusals of 01 80 00, of 03, of no bytes, and of 01, nine FF and 02.
    pub refused: [Option<Refusal<Location>>; 4],
    /// Whether the cutoff of the round (3, 5) covers (3, 5) and (3, 6), and that of the epoch 3 covers (3, 2^64 - 1) and (4, 0).
    pub covered: [bool; 4],
}

/// Runs the worked examples.
pub fn worked_examples() -> WorkedExamples
    ensures list { Examples big_endian 8 × Examples (λ (d : List ℕ). d) 32 }
    ensures written { result.written ≡ true ∷ true ∷ true ∷ [] }
    ensures refused { result.refused ≡ Some (refusal 3 (InField layer.Number field.Height 2)) ∷ Some (refusal 4 (AtTag layer.Key 3 0)) ∷ Some (refusal 1 (InField layer.Key field.Tag 0)) ∷ Some (refusal 2 (InField layer.Number field.Height 10)) ∷ [] }
    ensures covered { result.covered ≡ true ∷ false ∷ true ∷ false ∷ [] }
{
    WorkedExamples {
        written: written(),
        refused: refused(),
        covered: covered(),
    }
}

/// Reads a borrowed key, copies it, and only then overwrites the bytes under it: the copy stays what was read. The other
/// way round does not build, since the bytes are lent as long as the borrowed key is used.
pub fn copy_then_overwrite(bytes: &mut [u8]) -> Result<Key<u64>, ReadError>
    ensures { MatchResult result (λ k. KeyAt big_endian (λ n. n < 2 ^ 64) bytes.old k (drop (length (key_bytes big_endian k)) bytes.old) × (bytes.new ≡ slice_set bytes.old 0 255)) (λ e. Refuses 8 bytes.old (refusal_of e) × (bytes.new ≡ bytes.old)) }
{
    let (borrowed, _) = KeyRef::read::<u64>(bytes)?;
    let key = Key::try_from(borrowed)?;
    bytes[0] = 0xFF;
    Ok(key)
}

fn written() -> [bool; 3]
    ensures list { Examples big_endian 8 × Examples (λ (d : List ℕ). d) 32 }
    ensures value { result ≡ true ∷ true ∷ true ∷ [] }
{
    let key = Key::Notarized {
        round: round(1, 128),
    };
    let highest = [
        0x01, 0xFF, 0xFF, 0xFF, 0xFF, 0xFF, 0xFF, 0xFF, 0xFF, 0xFF, 0x01,
    ];
    [
        writes(&finalized(300), &[0x01, 0xAC, 0x02]),
        writes(&key, &[0x02, 0x01, 0x80, 0x01]),
        writes(&finalized(u64::MAX), &highest),
    ]
}

fn refused() -> [Option<Refusal<Location>>; 4]
    ensures { result ≡ Some (refusal 3 (InField layer.Number field.Height 2)) ∷ Some (refusal 4 (AtTag layer.Key 3 0)) ∷ Some (refusal 1 (InField layer.Key field.Tag 0)) ∷ Some (refusal 2 (InField layer.Number field.Height 10)) ∷ [] }
{
    let too_large = [
        0x01, 0xFF, 0xFF, 0xFF, 0xFF, 0xFF, 0xFF, 0xFF, 0xFF, 0xFF, 0x02,
    ];
    [
        refusal_of(&[0x01, 0x80, 0x00]),
        refusal_of(&[0x03]),
        refusal_of(&[]),
        refusal_of(&too_large),
    ]
}

fn covered() -> [bool; 4]
    ensures { result ≡ true ∷ false ∷ true ∷ false ∷ [] }
{
    let last = Cutoff::Round(round(3, 5));
    let epoch = Cutoff::Epoch(Epoch::new(3));
    [
        last.covers(round(3, 5)),
        last.covers(round(3, 6)),
        epoch.covers(round(3, u64::MAX)),
        epoch.covers(round(4, 0)),
    ]
}
