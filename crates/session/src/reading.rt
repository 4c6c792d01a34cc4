// What a session lends for reading, in any phase and without a pass, and what is asked of a reader.
ghost use Rattle.std.specs.Prelude.{◌≡◌, [], ◌∷◌};
ghost use Rattle.book.specs.Places.{orders};
ghost use Rattle.capacity.specs.Tests.{answered, said};
ghost use Rattle.session.specs.Faults.{told};
ghost use Rattle.session.specs.State.{state, register_of};
ghost use Rattle.session.specs.Calls.{contract_test, closed_test, area_test};

use crate::checks::{check_area, check_contract};
use crate::faults::SessionFault;
use crate::state::Session;
use book::places::Book;
use capacity::register::Register;

impl<R: Register> Session<R> {
    pub fn book(&self) -> &Book
        ensures { orders result.now ≡ (state R.Register.meaning self.now).book }
    {
        &self.book
    }

    pub fn register(&self) -> &R
        ensures meaning { R.Register.meaning result.now ≡ (state R.Register.meaning self.now).capacity }
        ensures register { result.now ≡ register_of self.now }
    {
        &self.register
    }

    // The contract must be one, and open.
    pub fn check_view(&self, contract: u32) -> Result<(), SessionFault>
        ensures { said told result ≡ answered (contract_test contract ∷ closed_test (state R.Register.meaning self.now) contract ∷ []) }
    {
        check_contract(contract)?;
        self.check_open(contract)
    }

    // The contract must be one, and open, and the area must be one.
    pub fn check_view_in(&self, contract: u32, area: u32) -> Result<(), SessionFault>
        ensures { said told result ≡ answered (contract_test contract ∷ closed_test (state R.Register.meaning self.now) contract ∷ area_test area ∷ []) }
    {
        self.check_view(contract)?;
        check_area(area)
    }
}
