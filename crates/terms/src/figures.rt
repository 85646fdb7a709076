// Figures as they are printed.
ghost use Rattle.std.specs.Prelude.{Some};
ghost use Rattle.terms.specs.Figures.{mwh_text, unsigned_mwh};

use std::fmt;

// Watt-hours, printed in MWh with six decimals.
#[derive(Clone, Copy, Debug, PartialEq, Eq)]
pub struct Mwh(pub i64);

// The same without a sign.
#[derive(Clone, Copy)]
struct UnsignedMwh(u64);

impl fmt::Display for UnsignedMwh {
    ghost output = { λ x. Some (unsigned_mwh x.0) };

    #[tactic(auto, using(crate::proofs::Decimals::in_mwh))]
    fn fmt<W: fmt::Write>(&self, f: &mut fmt::Formatter<W>) -> fmt::Result {
        write!(f, "{}.{:06}", self.0 / 1_000_000, self.0 % 1_000_000)
    }
}

impl fmt::Display for Mwh {
    ghost output = { λ x. Some (mwh_text x.0) };

    fn fmt<W: fmt::Write>(&self, f: &mut fmt::Formatter<W>) -> fmt::Result {
        let size = UnsignedMwh(self.0.unsigned_abs());
        if self.0 < 0 {
            write!(f, "-{size}")
        } else {
            write!(f, "{size}")
        }
    }
}
