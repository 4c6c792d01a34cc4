// Why a call line of a script is refused.
ghost use Rattle.std.specs.Prelude.{◌≡◌};
ghost use Rattle.lines.specs.Faults.{number, place};
ghost use Rattle.lines.specs.declared.faults.LineFault.TheVariants.{Word, Session};

use reading::faults::{Refusal, WordFault};
use session::faults::SessionFault;

// A fault of the line itself, or that of what it asked for, whole. An enum of its own: `From<F>` of a generic one would overlap
// that of `WordFault`, and `?` needs both.
#[derive(Clone, Copy)]
pub enum LineFault {
    Word(WordFault),
    // the session refuses the call
    Session(SessionFault),
}

impl Refusal for LineFault {
    ghost number = { number };

    ghost place = { place };

    fn number(&self) -> u32 {
        match self {
            LineFault::Word(fault) => fault.number(),
            LineFault::Session(fault) => fault.number(),
        }
    }

    fn place(&self) -> Option<u32> {
        match self {
            LineFault::Word(fault) => fault.place(),
            LineFault::Session(_) => None,
        }
    }
}

impl From<WordFault> for LineFault {
    ghost from_gives = { λ f l. l ≡ Word f };

    fn from(fault: WordFault) -> LineFault {
        LineFault::Word(fault)
    }
}

impl From<SessionFault> for LineFault {
    ghost from_gives = { λ f l. l ≡ Session f };

    fn from(fault: SessionFault) -> LineFault {
        LineFault::Session(fault)
    }
}
