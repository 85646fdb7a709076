// The header of a book, and the rules that it keeps.
ghost use Rattle.std.specs.Prelude.{◌≡◌, ◌*◌, Some};
ghost use Rattle.books.specs.Books.{block_of, blocks_lawful, counts_lawful, holds, lawful_header, offset_in};

use terms::{Channel, Place};

// Bytes of the header.
const HEADER: usize = 12;

// How many points and intervals a book has, and at which bytes the blocks of the two channels begin.
#[derive(Clone, Copy)]
pub(crate) struct Header {
    points: u16,
    intervals: u16,
    c: u32,
    g: u32,
}

impl Header {
    // The header of a book that keeps every rule.
    pub(crate) fn read(bytes: &[u8]) -> Option<Header>
        ensures { result ≡ lawful_header bytes.now }
    {
        let &[n1, n0, t1, t0, c3, c2, c1, c0, g3, g2, g1, g0, ..] = bytes else {
            return None;
        };
        let header = Header {
            points: u16::from_be_bytes([n1, n0]),
            intervals: u16::from_be_bytes([t1, t0]),
            c: u32::from_be_bytes([c3, c2, c1, c0]),
            g: u32::from_be_bytes([g3, g2, g1, g0]),
        };
        (header.counts_lawful() && header.blocks_lawful(bytes.len())).then_some(header)
    }

    // Whether a book may have so many points and intervals.
    fn counts_lawful(self) -> bool
        ensures { result ≡ counts_lawful self.points self.intervals }
    {
        (1..=128).contains(&self.points)
            && (12..=8928).contains(&self.intervals)
            && self.intervals % 12 == 0
    }

    // Whether blocks for so many points and intervals may begin there in a book of `len` bytes.
    fn blocks_lawful(self, len: usize) -> bool
        ensures { result ≡ blocks_lawful len (4 * (self.points * self.intervals)) self.c self.g }
    {
        let size = 4 * (usize::from(self.points) * usize::from(self.intervals));
        let c = self.c as usize;
        let g = self.g as usize;
        c >= HEADER
            && g >= HEADER
            && c + size <= len
            && g + size <= len
            && (c + size <= g || g + size <= c)
    }

    // Whether a book with this header has the place.
    fn holds(self, place: Place) -> bool
        ensures { result ≡ holds self place }
    {
        (1..=usize::from(self.points)).contains(&place.point)
            && place.interval < u32::from(self.intervals)
    }

    // At which byte the block of a channel begins.
    fn block(self, channel: Channel) -> u32
        ensures { result ≡ block_of self channel }
    {
        match channel {
            Channel::C => self.c,
            Channel::G => self.g,
        }
    }

    // At which byte the amount of a place begins, if a book with this header has the place.
    pub(crate) fn offset(self, place: Place) -> Option<usize>
        ensures { result ≡ offset_in (Some self) place }
    {
        if !self.holds(place) {
            return None;
        }
        let row = (place.point - 1) * usize::from(self.intervals);
        Some(self.block(place.channel) as usize + 4 * (row + place.interval as usize))
    }
}
