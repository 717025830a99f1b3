ghost use Rattle.std.specs.Prelude.{◌≡◌};
ghost use Rattle.items.specs.declared.Refusal.TheVariants.{BadLine};

use crate::draft::NotALine;
use items::Refusal;

// Why a text is refused, and by which line.
#[derive(Clone, Copy, PartialEq, Eq, Debug, Drop)]
pub struct Refused {
    pub refusal: Refusal,
    pub line: usize,
}

impl From<NotALine> for Refused {
    ghost from_gives = { λ bad r. r ≡ record { refusal = BadLine; line = bad.0 } };

    fn from(bad: NotALine) -> Self {
        Refused {
            refusal: Refusal::BadLine,
            line: bad.0,
        }
    }
}
