// Corrections of a working book.
ghost use Rattle.std.specs.Prelude.{◌≡◌, ◌+◌, ◌≤◌, Some, length};
ghost use Rattle.terms.specs.declared.channels.Place.{Place};
ghost use Rattle.readings.specs.Places.{Corrected, limit};
ghost use Rattle.books.specs.Books.{book_at, extent as places_of, KeptBut, lawful_header, offset_in};

use crate::books::WorkingBook;
use readings::{Correctable, INTERVAL_LIMIT};
use terms::{Place, Refusal};

impl WorkingBook<'_> {
    // Writes an amount at a place, which begins at `at`.
    fn put(&mut self, place: Place, at: usize, amount: u32)
        requires found { Some at ≡ offset_in (lawful_header self.old.bytes.now) place }
        requires inside { at + 4 ≤ length self.old.bytes.now }
        requires low { amount ≤ limit }
        ensures places { Corrected (book_at self.old.bytes.now) (book_at self.new.bytes.now) place amount }
        ensures stays { (q : Place) → places_of self.new.bytes.now q ≡ places_of self.old.bytes.now q }
        ensures memory { self.old.bytes.ghost_name ≡ self.new.bytes.ghost_name }
        ensures kept { KeptBut place self.old.bytes.now self.new.bytes.now }
    {
        self.bytes[at..at + 4].copy_from_slice(&amount.to_be_bytes());
    }
}

impl Correctable for WorkingBook<'_> {
    ghost extent = { λ s. places_of s.bytes.now };

    ghost tied = { λ s p t. (s.bytes.ghost_name ≡ t.bytes.ghost_name) × KeptBut p s.bytes.now t.bytes.now };

    fn correct(&mut self, place: Place, amount: u32) -> Result<(), Refusal> {
        let Some(at) = self.as_book().offset(place) else {
            return Err(Refusal::OutsideExtent(place));
        };
        if amount > INTERVAL_LIMIT {
            return Err(Refusal::TooLarge(place));
        }
        self.put(place, at, amount);
        Ok(())
    }
}
