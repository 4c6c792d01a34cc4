// Passes: what a caller must hold to make a call, and how they come back.
ghost use Rattle.std.specs.Prelude.{◌≡◌, Ok, Err, MatchResult};
ghost use Rattle.capacity.specs.Tests.{said};
ghost use Rattle.session.specs.Calls.{answer, begun};
ghost use Rattle.session.specs.Faults.{told};

use crate::faults::SessionFault;

// A quiet session's pass. It may be let go.
#[derive(Drop)]
pub struct QuietPass {
    pub(crate) number: u32,
}

impl QuietPass {
    // The number of the session that it is for.
    pub fn number(&self) -> u32
        ensures { result ≡ self.now.number }
    {
        self.number
    }

    // An accepted call turns it into the pass of the round that began, a refused one hands it back.
    pub(crate) fn into_round(
        self,
        checked: Result<(), SessionFault>,
    ) -> Result<RoundPass, Refused<QuietPass>>
        ensures answer { answer result ≡ said told checked }
        ensures pass { begun result ≡ self.number }
    {
        let (_, pass) = with_pass(checked, self)?;
        Ok(RoundPass {
            number: pass.number,
        })
    }
}

// The pass of a session with a round under way. It cannot be let go: only the step that ends the round takes it apart.
// So it is a type of its own: one generic pass could not be let go in one phase and held in the other.
pub struct RoundPass {
    pub(crate) number: u32,
}

// A refused call hands its pass back.
#[derive(Drop)]
pub struct Refused<P> {
    pub fault: SessionFault,
    pub pass: P,
}

// A closing answers how many orders went.
#[derive(Drop)]
pub struct Closing {
    pub gone: usize,
    pub pass: QuietPass,
}

// What an accepted call gave, beside its pass; a refused one hands the pass back.
pub(crate) fn with_pass<P, T>(
    checked: Result<T, SessionFault>,
    pass: P,
) -> Result<(T, P), Refused<P>>
    ensures { MatchResult result (λ x. (checked ≡ Ok x.0) × (x.1 ≡ pass)) (λ e. (checked ≡ Err e.fault) × (e.pass ≡ pass)) }
{
    match checked {
        Ok(given) => Ok((given, pass)),
        Err(fault) => Err(Refused { fault, pass }),
    }
}
