// The byte store: a lent slice of bytes, 32 to a cell, for any record kind that has a code.
ghost use Rattle.std.specs.Prelude.{◌≡◌, slice_index_or, None};
ghost use Rattle.stores.specs.Cells.{after, asked, numbered, read_of, write_of};
ghost use Rattle.stores.specs.Makings.{at_name, of_bytes};
ghost use Rattle.octets.specs.Codec.{byte_row, bytes_after, cell_at_lem, cell_bytes, cells_of, coded, lawful_at};

use crate::codec::{decode, encode};
use crate::kinds::Coded;
use records::bytes::all_are;
use records::declines::Decline;
use records::kinds::Record;
use stores::cells::Cell;
use stores::plain::MOST;
use stores::row::Row;
use stores::store::{Store, asked_cell};

// The whole cells of a slice of bytes.
pub fn bytes_length(bytes: &[u8]) -> u64
    ensures { result ≡ cells_of bytes.now }
{
    (bytes.len() as u64 / 32).min(MOST)
}

// The 32 bytes of a cell, fewer where the slice ends before.
pub fn cell_part(bytes: &[u8], at: usize) -> &[u8]
    ensures { result.now ≡ cell_bytes bytes.now at }
{
    let end = bytes.len();
    let from = at.saturating_mul(32).min(end);
    &bytes[from..from.saturating_add(32).min(end)]
}

// A cell: unlawful bytes, and bytes past the end, count as empty.
pub fn cell_at<R: Coded>(bytes: &[u8], at: usize) -> Cell<R>
    ensures { result ≡ cell_at_lem R.Coded.record_in bytes.now at }
{
    decode(cell_part(bytes, at))
}

// Whether a cell's bytes are all 0 or those of a record.
pub fn is_lawful<R: Coded>(bytes: &[u8], at: usize) -> bool
    ensures { result ≡ lawful_at R.Coded.record_in bytes.now at }
{
    let part = cell_part(bytes, at);
    all_are(part, 0, 0) || decode::<R>(part).is_some()
}

// The named cell, empty at or past the end.
pub fn cell_or_empty<R: Coded>(bytes: &[u8], at: u64) -> Cell<R>
    ensures { result ≡ slice_index_or (byte_row R.Coded.record_in bytes.now) at None }
{
    if at >= bytes_length(bytes) {
        return None;
    }
    cell_at(bytes, at as usize)
}

// The named cell.
pub fn bytes_read<R: Coded>(bytes: &[u8], at: u64) -> Result<Cell<R>, Decline>
    ensures { numbered result ≡ read_of (byte_row R.Coded.record_in bytes.now) at }
{
    if at >= bytes_length(bytes) {
        return Err(Decline::NoSuchCell);
    }
    Ok(cell_or_empty::<R>(bytes, at))
}

// Replaces the 32 bytes of the named cell, and no others.
pub fn bytes_write<R: Coded>(
    bytes: &mut [u8],
    at: u64,
    cell: &Cell<R::Numbers>,
) -> Result<(), Decline>
    ensures answer { numbered result ≡ write_of (asked R.Record.made cell.now) (byte_row R.Coded.record_in bytes.old) at }
    ensures cells { byte_row R.Coded.record_in bytes.new ≡ after (asked R.Record.made cell.now) (byte_row R.Coded.record_in bytes.old) at }
    ensures raw { bytes.new ≡ bytes_after R.Coded.bytes_of (asked R.Record.made cell.now) bytes.old at }
{
    let wanted = asked_cell::<R>(cell)?;
    if at >= bytes_length(bytes) {
        return Err(Decline::NoSuchCell);
    }
    let code = encode::<R>(wanted);
    let from = 32 * at as usize;
    bytes[from..from + 32].copy_from_slice(&code);
    Ok(())
}

// The cells of a slice of bytes that is lent.
#[derive(Drop)]
pub struct ByteStore<'a> {
    pub bytes: &'a mut [u8],
}

impl<R: Coded> Store<R> for ByteStore<'_> {
    ghost cells = { λ s. byte_row R.Coded.record_in s.bytes.now };

    ghost place = { λ s. at_name s.bytes.ghost_name };

    ghost raw = { λ s k. of_bytes (cell_bytes s.bytes.now k) };

    ghost code = { λ s k v. of_bytes (coded R.Coded.bytes_of v) };

    fn length(&self) -> u64 {
        bytes_length(self.bytes)
    }

    fn read(&self, at: u64) -> Result<Cell<R>, Decline> {
        bytes_read::<R>(self.bytes, at)
    }

    fn write(&mut self, at: u64, cell: &Cell<R::Numbers>) -> Result<(), Decline> {
        bytes_write::<R>(self.bytes, at, cell)
    }
}

// The cells of a slice of bytes that is only read.
#[derive(Clone, Copy)]
pub struct ByteRow<'a> {
    pub bytes: &'a [u8],
}

impl<R: Coded> Row<R> for ByteRow<'_> {
    ghost cells = { λ s. byte_row R.Coded.record_in s.bytes.now };

    fn cell(&self, at: u32) -> Cell<R> {
        cell_or_empty(self.bytes, u64::from(at))
    }
}
