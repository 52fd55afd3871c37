// Plates, lawful by what they are.
ghost use Rattle.std.specs.Prelude.{◌≡◌, ◌^◌, ◌<◌, true, length};
ghost use Rattle.records.specs.Bytes.{word4, word8};
ghost use Rattle.records.specs.Declines.{TakenIf};
ghost use Rattle.records.specs.Plates.{Text, is_plate, padded, plate_bytes, plate_in};

use crate::bytes::{u32_at, u64_at};
use crate::characters::{all_characters, is_padded};
use crate::declines::Decline;
use crate::numbers::Words;

// One to twelve characters, padded with blanks to 12 bytes: the first eight bytes and the last four, big-endian.
#[derive(Clone, Copy, Debug, PartialEq, Eq)]
pub struct Plate {
    pub first: u64,
    pub second: u32,
    ghost lawful: { is_plate first second ≡ true },
}

// Two of these read bytes, which one `TryFrom` could not tell apart; the third is named as they are.
impl Plate {
    // The plate with these characters, as typed: any bytes, any length.
    pub fn from_text(text: &[u8]) -> Result<Plate, Decline>
        ensures { TakenIf (Text text.now) 3 (λ p. (p.first ≡ word8 (padded text.now) 0) × (p.second ≡ word4 (padded text.now) 8)) result }
    {
        if text.is_empty() || text.len() > 12 || !all_characters(text) {
            return Err(Decline::NoPlate);
        }
        let mut bytes = [b' '; 12];
        bytes[..text.len()].copy_from_slice(text);
        Plate::from_bytes(&bytes)
    }

    // The plate that these bytes spell, blanks included: they have to be 12.
    pub fn from_bytes(bytes: &[u8]) -> Result<Plate, Decline>
        ensures { TakenIf ((length bytes.now ≡ 12) × (plate_in bytes.now ≡ true)) 3 (λ p. (p.first ≡ word8 bytes.now 0) × (p.second ≡ word4 bytes.now 8)) result }
    {
        if bytes.len() != 12 {
            return Err(Decline::NoPlate);
        }
        Plate::from_parts(u64_at(bytes, 0), u32_at(bytes, 8))
    }

    // The plate with these key words.
    pub fn from_words(words: Words) -> Result<Plate, Decline>
        ensures { TakenIf ((words.second < 2 ^ 32) × (is_plate words.first words.second ≡ true)) 3 (λ p. (p.first ≡ words.first) × (p.second ≡ words.second)) result }
    {
        let second = u32::try_from(words.second).map_err(|_| Decline::NoPlate)?;
        Plate::from_parts(words.first, second)
    }

    // The plate with this first word and this half of the second.
    #[tactic(auto, unfolding(crate::specs::Plates::is_plate))]
    pub(crate) fn from_parts(first: u64, second: u32) -> Result<Plate, Decline>
        ensures { TakenIf (is_plate first second ≡ true) 3 (λ p. (p.first ≡ first) × (p.second ≡ second)) result }
    {
        if is_padded(&spelled(first, second)) {
            Ok(Plate { first, second })
        } else {
            Err(Decline::NoPlate)
        }
    }

    // The plate's 12 bytes, blanks included.
    pub fn bytes(self) -> [u8; 12]
        ensures { result ≡ plate_bytes self.first self.second }
    {
        spelled(self.first, self.second)
    }
}

// The 12 bytes of these two numbers.
fn spelled(first: u64, second: u32) -> [u8; 12]
    ensures { result ≡ plate_bytes first second }
{
    let mut bytes = [0; 12];
    bytes[..8].copy_from_slice(&first.to_be_bytes());
    bytes[8..].copy_from_slice(&second.to_be_bytes());
    bytes
}
