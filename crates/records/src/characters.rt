// The characters of a plate, and the tests that bytes spell one.
ghost use Rattle.std.specs.Prelude.{◌≡◌};
ghost use Rattle.std.specs.List.{prefix_len};
ghost use Rattle.records.specs.Plates.{character, all_characters_lem, plate_in};

use crate::bytes::all_are;

// A to Z or 0 to 9
#[tactic(auto, unfolding(crate::specs::Plates::character))]
pub fn is_character(b: u8) -> bool
    ensures { result ≡ character b }
{
    matches!(b, b'0'..=b'9' | b'A'..=b'Z')
}

// Whether every byte is a character of a plate.
#[tactic(auto, unfolding(crate::specs::Plates::all_characters_lem))]
pub fn all_characters(bytes: &[u8]) -> bool
    ensures { result ≡ all_characters_lem bytes.now }
{
    bytes.iter().all(|b| is_character(*b))
}

// How many characters of a plate the bytes begin with.
fn text_len(bytes: &[u8]) -> usize
    ensures { result ≡ prefix_len character bytes.now }
{
    bytes.iter().take_while(|b| is_character(**b)).count()
}

// Whether the bytes are one character or more, then blanks to the end.
#[tactic(auto, using(crate::proofs::Runs::plate_by_text))]
pub fn is_padded(bytes: &[u8]) -> bool
    ensures { result ≡ plate_in bytes.now }
{
    let text = text_len(bytes);
    text > 0 && all_are(bytes, text, b' ')
}
