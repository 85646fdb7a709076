// What a source of readings is, and one that takes corrections.
ghost use Rattle.std.specs.Prelude.{◌≡◌, ℕ, Bool, OnOk, OnErr, Option};
ghost use Rattle.terms.specs.Answers.{answered};
ghost use Rattle.terms.specs.declared.channels.Place.{Place};
ghost use Rattle.readings.specs.Places.{correction_tests, Corrected};

use terms::{Place, Refusal};

// The largest amount of one interval, in Wh.
pub const INTERVAL_LIMIT: u32 = 15_000_000;

// A source of readings. At a place where a reading came it has an amount in Wh, and otherwise nothing.
pub trait Source {
    // What the source has at each place.
    ghost at: { Self → Place → Option ℕ };

    fn reading(&self, place: Place) -> Option<u32>
        ensures { result ≡ at self.now place };
}

// A source that also takes corrections.
pub trait Correctable: Source {
    // The places that it accepts.
    ghost extent: { Self → Place → Bool };

    // What else holds of the states before and after a correction at a place: that they stand over the same
    // lent memory, and what of it stays, so that whoever lent it knows what it holds.
    ghost tied: { Self → Place → Self → Type 0 };

    // Puts an amount at a place of the extent.
    fn correct(&mut self, place: Place, amount: u32) -> Result<(), Refusal>
        ensures answer { answered result ≡ correction_tests (extent self.old place) place amount }
        ensures places { OnOk result (Corrected (Self.Source.at self.old) (Self.Source.at self.new) place amount) }
        ensures refused { OnErr result (self.new ≡ self.old) }
        ensures stays { (q : Place) → extent self.new q ≡ extent self.old q }
        ensures lender { tied self.old place self.new };
}
