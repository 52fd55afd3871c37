// Where the fields of each record kind lie in the 32 bytes of a cell.
ghost use Rattle.std.specs.Prelude.{◌≡◌, ℕ, ◌≤◌, true, List, ◌∷◌, length, drop, Option};
ghost use Rattle.std.proofs.Math.Path.{refl};
ghost use Rattle.records.specs.Bytes.{all_are_lem};
ghost use Rattle.octets.specs.Codec.{decoded, encoded};
ghost use Rattle.octets.specs.Kinds.{tag_decoded, tag_encoded, tag_fields, tag_in, tare_decoded, tare_encoded, tare_fields, tare_in};
ghost use Rattle.std.proofs.Common.{rules};

use records::bytes::{byte_at, u16_at, u32_at, u64_at};
use records::kind::RecordKind;
use records::kinds::Record;
use records::numbers::{TagNumbers, TareNumbers};
use records::records::{TagRecord, TareRecord};

// A record kind with a number, whose plain numbers lie in bytes 2 to `end` - 1 of a cell; the bytes from `end` on are 0.
pub trait Coded: Record {
    ghost kind: { ℕ };

    ghost end: { ℕ };

    // the plain numbers in the 32 bytes of a cell
    ghost numbers_in: { List ℕ → Self.Numbers };

    // bytes 2 to 31 of a cell with these plain numbers
    ghost fields: { Self.Numbers → List ℕ };

    // the record that bytes spell, if they do
    ghost record_in: { List ℕ → Option Self };

    // the 32 bytes of a record
    ghost bytes_of: { Self → List ℕ };

    // a number, as a cell's second byte has it
    fn kind() -> u8
        ensures { result ≡ kind };

    fn end() -> usize
        ensures { result ≡ end };

    // The numbers in a cell's bytes. Where the bytes from `end` on are 0, they give the same bytes again.
    fn numbers_in(bytes: &[u8]) -> Self::Numbers
        ensures value { result ≡ numbers_in bytes.now }
        ensures back { length bytes.now ≡ 32 → all_are_lem 0 (drop end bytes.now) ≡ true → fields result ≡ drop 2 bytes.now };

    // The bytes behind a cell's first two. They give the same numbers again.
    fn fields_of(numbers: Self::Numbers) -> [u8; 30]
        ensures value { result ≡ fields numbers }
        ensures back { numbers_in (1 ∷ kind ∷ result) ≡ numbers };

    // there are 30 of them
    ghost thirty: { (n : Self.Numbers) → length (fields n) ≡ 30 };

    // those from `end` on are 0
    ghost blank: { (n : Self.Numbers) → all_are_lem 0 (drop end (1 ∷ kind ∷ fields n)) ≡ true };

    // bytes spell a record where they have its shape and their numbers make it
    ghost reads: { (c : List ℕ) → record_in c ≡ decoded kind end numbers_in Self.made c };

    // and a record is spelled by its own numbers
    ghost writes: { (r : Self) → bytes_of r ≡ encoded kind fields Self.numbers_of r };
}

impl Coded for TareRecord {
    ghost kind = { 1 };

    ghost end = { 20 };

    ghost numbers_in = { tare_in };

    ghost fields = { tare_fields };

    ghost record_in = { tare_decoded };

    ghost bytes_of = { tare_encoded };

    ghost thirty = { Prim.search rules };

    ghost blank = { unfold all_are_lem in λ n. refl };

    ghost reads = { λ c. refl };

    ghost writes = { λ r. refl };

    fn kind() -> u8 {
        RecordKind::Tare.number()
    }

    fn end() -> usize {
        20
    }

    fn numbers_in(bytes: &[u8]) -> TareNumbers {
        TareNumbers {
            first: u64_at(bytes, 2),
            second: u32_at(bytes, 10),
            tare: u32_at(bytes, 14),
            day: u16_at(bytes, 18),
        }
    }

    fn fields_of(numbers: TareNumbers) -> [u8; 30] {
        let mut fields = [0; 30];
        fields[0..8].copy_from_slice(&numbers.first.to_be_bytes());
        fields[8..12].copy_from_slice(&numbers.second.to_be_bytes());
        fields[12..16].copy_from_slice(&numbers.tare.to_be_bytes());
        fields[16..18].copy_from_slice(&numbers.day.to_be_bytes());
        fields
    }
}

impl Coded for TagRecord {
    ghost kind = { 2 };

    ghost end = { 15 };

    ghost numbers_in = { tag_in };

    ghost fields = { tag_fields };

    ghost record_in = { tag_decoded };

    ghost bytes_of = { tag_encoded };

    ghost thirty = { Prim.search rules };

    ghost blank = { unfold all_are_lem in λ n. refl };

    ghost reads = { λ c. refl };

    ghost writes = { λ r. refl };

    fn kind() -> u8 {
        RecordKind::Tag.number()
    }

    fn end() -> usize {
        15
    }

    fn numbers_in(bytes: &[u8]) -> TagNumbers {
        TagNumbers {
            tag: u64_at(bytes, 2),
            grower: u32_at(bytes, 10),
            grain: byte_at(bytes, 14),
        }
    }

    fn fields_of(numbers: TagNumbers) -> [u8; 30] {
        let mut fields = [0; 30];
        fields[0..8].copy_from_slice(&numbers.tag.to_be_bytes());
        fields[8..12].copy_from_slice(&numbers.grower.to_be_bytes());
        fields[12] = numbers.grain;
        fields
    }
}
