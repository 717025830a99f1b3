ghost use Rattle.std.specs.Prelude.{◌≡◌, ◌+◌, ◌<◌, ◌≤◌, MatchResult};
ghost use Rattle.items.specs.declared.Refusal.TheVariants.{NoRoom};
ghost use Rattle.edges.specs.declared.fault.Fault.TheVariants.{Refused};

use crate::Fault;
use crate::layout::CAPACITY;
use items::Refusal;

// Where the items of an edge stand among its 516 slots, which are lent: from slot `start` on, `len` of them.
#[derive(Clone, Copy)]
pub struct Head {
    pub start: usize,
    pub len: usize,
    ghost fits: { (start < 256) × (len ≤ 256) },
}

// The head of an edge without items; by hand, for no default is derived over a ghost field.
impl Default for Head {
    ghost is_default = { λ h. (h.start ≡ 0) × (h.len ≡ 0) };

    fn default() -> Head {
        Head { start: 0, len: 0 }
    }
}

impl Head {
    // The head with n items more, if there is room for them.
    pub fn with_more(self, n: usize) -> Result<Head, Fault>
        ensures { MatchResult result
            (λ more. (self.len + n ≤ 256) × (more.start ≡ self.start) × (more.len ≡ self.len + n))
            (λ f. (256 < self.len + n) × (f ≡ Refused NoRoom)) }
    {
        if n > CAPACITY - self.len {
            return Err(Fault::Refused(Refusal::NoRoom));
        }
        Ok(Head {
            start: self.start,
            len: self.len + n,
        })
    }
}
