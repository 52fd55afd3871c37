// Bytes: tests on them, and the numbers in them, big-endian.
ghost use Rattle.std.specs.Prelude.{◌≡◌, ◌+◌, ◌<◌, ℕ, drop, slice_index};
ghost use Rattle.records.specs.Bytes.{all_are_lem, word2, word4, word8};

use std::array;

// Whether the bytes from a place on all have this value.
#[tactic(auto, unfolding(crate::specs::Bytes::all_are_lem))]
pub fn all_are(bytes: &[u8], from: usize, value: u8) -> bool
    ensures { result ≡ all_are_lem value (drop from bytes.now) }
{
    bytes.iter().skip(from).all(|b| *b == value)
}

// The byte at a place, 0 past the end.
pub fn byte_at(bytes: &[u8], at: usize) -> u8
    ensures { result ≡ slice_index bytes.now at }
{
    bytes.get(at).copied().unwrap_or(0)
}

// The bytes from a place on; those past the end count as 0.
fn array_at<const N: usize>(bytes: &[u8], at: usize) -> [u8; N]
    ensures { (k : ℕ) → k < N → slice_index result k ≡ slice_index bytes.now (at + k) }
{
    let rest = bytes.get(at..).unwrap_or(&[]);
    // mostly all are there, and one load takes them
    match rest.first_chunk() {
        Some(whole) => *whole,
        None => array::from_fn(|k| byte_at(rest, k)),
    }
}

// The number in the two bytes from a place on; bytes past the end count as 0.
pub fn u16_at(bytes: &[u8], at: usize) -> u16
    ensures { result ≡ word2 bytes.now at }
{
    u16::from_be_bytes(array_at(bytes, at))
}

// The number in the four bytes from a place on; bytes past the end count as 0.
pub fn u32_at(bytes: &[u8], at: usize) -> u32
    ensures { result ≡ word4 bytes.now at }
{
    u32::from_be_bytes(array_at(bytes, at))
}

// The number in the eight bytes from a place on; bytes past the end count as 0.
pub fn u64_at(bytes: &[u8], at: usize) -> u64
    ensures { result ≡ word8 bytes.now at }
{
    u64::from_be_bytes(array_at(bytes, at))
}
