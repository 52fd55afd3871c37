// One codec for all record kinds: a cell as 32 bytes.
ghost use Rattle.std.specs.Prelude.{◌≡◌, IfSome, Some};
ghost use Rattle.octets.specs.Codec.{coded, shaped};

use crate::kinds::Coded;
use records::bytes::{all_are, byte_at};
use records::kinds::Record;
use stores::cells::Cell;

// Whether these are 32 bytes, the first 1, the second the kind, and those from `end` on 0.
fn is_shaped(bytes: &[u8], kind: u8, end: usize) -> bool
    ensures { result ≡ shaped kind end bytes.now }
{
    bytes.len() == 32
        && byte_at(bytes, 0) == 1
        && byte_at(bytes, 1) == kind
        && all_are(bytes, end, 0)
}

// The record that these bytes spell, if they do. Written again it gives the same bytes.
pub fn decode<R: Coded>(bytes: &[u8]) -> Option<R>
    ensures value { result ≡ R.Coded.record_in bytes.now }
    ensures back { IfSome result (λ x. R.Coded.bytes_of x ≡ bytes.now) }
{
    if !is_shaped(bytes, R::kind(), R::end()) {
        return None;
    }
    R::from_numbers(R::numbers_in(bytes)).ok()
}

// The 32 bytes of a cell. Read again they give the same cell.
pub fn encode<R: Coded>(cell: Cell<R>) -> [u8; 32]
    ensures bytes { result ≡ coded R.Coded.bytes_of cell }
    ensures back { R.Coded.record_in result ≡ cell }
{
    let mut code = [0; 32];
    if let Some(held) = cell {
        let fields = R::fields_of(held.to_numbers());
        code[0] = 1;
        code[1] = R::kind();
        code[2..32].copy_from_slice(&fields);
    }
    code
}
