ghost use Rattle.std.specs.Prelude.{◌≡◌};
ghost use Rattle.edges.specs.Faults.{refusal_of};

use items::Refusal;

// Why a call on an edge is not done: it is refused, or the lent words are too few for these edges. No `Option` of a
// refusal: too few words are a mistake of their own (D66).
#[derive(Clone, Copy, PartialEq, Eq, Debug, Drop)]
pub enum Fault {
    Refused(Refusal),
    ShortMemory,
}

impl Fault {
    // How the call is refused; too few words are no refusal, but a mistake of whoever lends them.
    pub fn refusal(self) -> Option<Refusal>
        ensures { result ≡ refusal_of self }
    {
        match self {
            Fault::Refused(refusal) => Some(refusal),
            Fault::ShortMemory => None,
        }
    }
}
