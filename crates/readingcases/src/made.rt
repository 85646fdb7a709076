// The bytes of books.
use crate::cases::{Change, Filled, Header};
use std::alloc::{AllocError, Global};
use terms::Channel;

// The bytes of a header.
pub(crate) fn header(heap: Global, header: Header) -> Result<Vec<u8>, AllocError> {
    let mut bytes = Vec::new(heap);
    bytes.extend_from_slice(&((header.n % 65536) as u16).to_be_bytes())?;
    bytes.extend_from_slice(&((header.t % 65536) as u16).to_be_bytes())?;
    bytes.extend_from_slice(&header.c.to_be_bytes())?;
    bytes.extend_from_slice(&header.g.to_be_bytes())?;
    Ok(bytes)
}

// The bytes of a book with the same amount at every place, the block of G behind that of C.
pub(crate) fn filled(heap: Global, case: Filled) -> Result<Vec<u8>, AllocError> {
    let Filled { n, t, amount, .. } = case;
    let count = n.saturating_mul(t);
    let g = count.saturating_mul(4).saturating_add(12);
    let mut bytes = header(heap, Header { n, t, c: 12, g })?;
    for _ in 0..2 * u64::from(count) {
        bytes.extend_from_slice(&amount.to_be_bytes())?;
    }
    Ok(bytes)
}

// Writes an amount into the bytes of such a book, as far as they reach.
pub(crate) fn write_raw(bytes: &mut Vec<u8>, case: Filled, change: Change) {
    let t = case.t as usize;
    let row = change.place.point.saturating_sub(1).saturating_mul(t);
    let skipped = match change.place.channel {
        Channel::C => 0,
        Channel::G => t.saturating_mul(case.n as usize),
    };
    let count = row
        .saturating_add(change.place.interval as usize)
        .saturating_add(skipped);
    let at = count.saturating_mul(4).saturating_add(12);
    let Some(places) = bytes.as_mut_slice().get_mut(at..) else {
        return;
    };
    for (place, byte) in places.iter_mut().zip(change.amount.to_be_bytes()) {
        *place = byte;
    }
}
