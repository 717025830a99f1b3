ghost use Rattle.std.specs.Prelude.{◌≡◌, pos, unwrap_or};
ghost use Rattle.std.specs.IoError.{raw_os_error};
ghost use Rattle.journals.specs.declared.stop.Stop.TheVariants.{Failed};
ghost use Rattle.journals.specs.Handing.{stop_of};
ghost use Rattle.journals.specs.Stops.{refusal_of};

use items::{NoItem, Refusal};
use std::io;

// Why no item comes: it isn't there yet, it is of an unknown kind, the items would be too many to be numbered, or the
// source failed, with the system's number of the failure, 0 where it has none.
#[derive(Clone, Copy, PartialEq, Eq, Debug, Drop)]
pub enum Stop {
    NotYet,
    Unknown,
    TooMany,
    // With an `io::Error`, which is some 100 bytes long, each answer would be as long, and a journal take four times as
    // long to read; with an `Option`, a tenth longer.
    Failed(i32),
}

impl Stop {
    // How a source that finds this is refused; a failure is no refusal.
    pub fn refusal(self) -> Option<Refusal>
        ensures { result ≡ refusal_of self }
    {
        match self {
            Stop::NotYet => Some(Refusal::NothingToTake),
            Stop::Unknown => Some(Refusal::UnknownItem),
            Stop::TooMany => Some(Refusal::CounterFull),
            Stop::Failed(_) => None,
        }
    }
}

impl From<NoItem> for Stop {
    ghost from_gives = { λ none stop. stop ≡ stop_of none };

    fn from(none: NoItem) -> Stop {
        match none {
            NoItem::NotYet => Stop::NotYet,
            NoItem::Unknown => Stop::Unknown,
        }
    }
}

impl From<io::Error> for Stop {
    ghost from_gives = { λ error stop. stop ≡ Failed (unwrap_or (raw_os_error error) (pos 0)) };

    fn from(error: io::Error) -> Stop {
        Stop::Failed(error.raw_os_error().unwrap_or(0))
    }
}
