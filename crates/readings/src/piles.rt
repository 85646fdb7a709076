// A source with a fallback.
ghost use Rattle.std.specs.Prelude.{◌≡◌};
ghost use Rattle.readings.specs.Places.{or_else};

use crate::sources::{Correctable, Source};
use terms::{Place, Refusal};

// Two sources, one on top of the other: it has main's amount, or backup's where main has nothing.
#[derive(Drop)]
pub struct Pile<M, B> {
    pub main: M,
    pub backup: B,
}

impl<M: Source, B: Source> Source for Pile<M, B> {
    ghost at = { λ s p. or_else (M.Source.at s.main p) (B.Source.at s.backup p) };

    fn reading(&self, place: Place) -> Option<u32> {
        match self.main.reading(place) {
            Some(amount) => Some(amount),
            None => self.backup.reading(place),
        }
    }
}

// Corrections go to main, whose extent is the pile's.
impl<M: Correctable, B: Source> Correctable for Pile<M, B> {
    ghost extent = { λ s. M.Correctable.extent s.main };

    ghost tied = { λ s p t. M.Correctable.tied s.main p t.main × (s.backup ≡ t.backup) };

    fn correct(&mut self, place: Place, amount: u32) -> Result<(), Refusal> {
        self.main.correct(place, amount)
    }
}
