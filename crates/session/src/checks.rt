// The tests that several calls share, each refusing by one number.
ghost use Rattle.std.specs.Prelude.{◌≡◌, ◌<◌, [], ◌∷◌, length, Some, None, MatchResult};
ghost use Rattle.book.specs.Places.{orders, place, numbered_of};
ghost use Rattle.capacity.specs.Tests.{answered, said};
ghost use Rattle.session.specs.Faults.{own, told};
ghost use Rattle.session.specs.State.{state};
ghost use Rattle.session.specs.Calls.{pass_test, contract_test, closed_test, area_test, taken_test};

use crate::faults::SessionFault;
use crate::state::Session;
use capacity::limits::{LAST_AREA, LAST_CONTRACT};
use capacity::register::Register;

// Refused where `bad` holds.
pub(crate) fn refuse_if(bad: bool, fault: SessionFault) -> Result<(), SessionFault>
    ensures { said told result ≡ answered ((bad, told fault) ∷ []) }
{
    if bad { Err(fault) } else { Ok(()) }
}

pub(crate) fn check_contract(contract: u32) -> Result<(), SessionFault>
    ensures { said told result ≡ answered (contract_test contract ∷ []) }
{
    refuse_if(contract > LAST_CONTRACT, SessionFault::Contract)
}

pub(crate) fn check_area(area: u32) -> Result<(), SessionFault>
    ensures { said told result ≡ answered (area_test area ∷ []) }
{
    refuse_if(area > LAST_AREA, SessionFault::Area)
}

impl<R: Register> Session<R> {
    // The pass must name this session, and it must be quiet.
    pub(crate) fn check_quiet(&self, pass: u32) -> Result<(), SessionFault>
        ensures { said told result ≡ answered (pass_test (state R.Register.meaning self.now) pass ∷ []) }
    {
        refuse_if(
            pass != self.number || self.round.is_some(),
            SessionFault::Pass,
        )
    }

    // There is a flag for each contract, so one above 23 is never closed.
    pub(crate) fn check_open(&self, contract: u32) -> Result<(), SessionFault>
        ensures { said told result ≡ answered (closed_test (state R.Register.meaning self.now) contract ∷ []) }
    {
        let closed = self.closed.get(contract as usize).copied();
        refuse_if(closed.unwrap_or(false), SessionFault::Closed)
    }

    pub(crate) fn check_unused(&self, number: u32) -> Result<(), SessionFault>
        ensures { said told result ≡ answered (taken_test (state R.Register.meaning self.now) number ∷ []) }
    {
        refuse_if(self.book.find(number).is_some(), SessionFault::Taken)
    }

    // The place of the order of this number and member.
    pub(crate) fn check_known(&self, number: u32, member: u32) -> Result<usize, SessionFault>
        ensures { MatchResult result (λ at. (place (numbered_of number member) (orders self.now.book) ≡ Some at) × (at < length (orders self.now.book))) (λ e. (place (numbered_of number member) (orders self.now.book) ≡ None) × (told e ≡ own 9)) }
    {
        self.book
            .find_of(number, member)
            .ok_or(SessionFault::Unknown)
    }
}
