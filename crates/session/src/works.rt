// What each call does, for a pass of any number.
ghost use Rattle.std.specs.Prelude.{◌≡◌, Bool, List};
ghost use Rattle.std.specs.Fn.{FnOnceReturnsAtMut};
ghost use Rattle.capacity.specs.Faults.{Refusal};
ghost use Rattle.capacity.specs.Meaning.{Capacity};
ghost use Rattle.capacity.specs.Tests.{answered, said};
ghost use Rattle.session.specs.Faults.{told};
ghost use Rattle.session.specs.State.{state, register_of};
ghost use Rattle.session.specs.Calls.{AnswersBy, Asked, LeavesBy, withdrawing, entering, close_tests, entry_checks};

use crate::entries::Entry;
use crate::faults::SessionFault;
use crate::state::Session;
use book::rows::Order;
use capacity::direction::Direction;
use capacity::faults::RegisterFault;
use capacity::register::Register;
use matching::round::Round;

impl<R: Register> Session<R> {
    // A call that the register answers for a direction, and a batch round on its contract if it accepts.
    pub(crate) fn ask<F: FnOnce(&mut R) -> Result<(), RegisterFault>>(
        &mut self,
        pass: u32,
        direction: Direction,
        call: F,
    ) -> Result<(), SessionFault>
        requires { F.IsAlwaysCallable call }
        ensures asked { (ts : List (Bool × Refusal)) (m : Capacity) → AnswersBy R.Register.meaning (FnOnceReturnsAtMut F.FnOnce call) self.old.register ts m → Asked (said told result) (state R.Register.meaning self.new) (state R.Register.meaning self.old) pass direction.contract ts m }
        ensures memory { LeavesBy (FnOnceReturnsAtMut F.FnOnce call) R.leaves (register_of self.old)
            → R.leaves (register_of self.old) (register_of self.new) }
    {
        self.check_quiet(pass)?;
        let contract = direction.contract;
        self.check_open(contract)?;
        call(&mut self.register)?;
        self.round = Some(Round::Batch { contract });
        Ok(())
    }

    // A withdrawal.
    pub(crate) fn strike(&mut self, pass: u32, number: u32, member: u32) -> Result<(), SessionFault>
        ensures answer { said told result ≡ (withdrawing (state R.Register.meaning self.old) pass number member).0 }
        ensures after { state R.Register.meaning self.new ≡ (withdrawing (state R.Register.meaning self.old) pass number member).1 }
        ensures register { register_of self.new ≡ register_of self.old }
    {
        self.check_quiet(pass)?;
        let at = self.check_known(number, member)?;
        self.book.remove(at);
        Ok(())
    }

    // All that is asked of a closing.
    pub(crate) fn check_closing(&self, pass: u32, contract: u32) -> Result<(), SessionFault>
        ensures { said told result ≡ answered (close_tests (state R.Register.meaning self.now) pass contract) }
    {
        self.check_quiet(pass)?;
        self.check_view(contract)
    }

    // All that is asked of an entry, but for a place in the book.
    pub(crate) fn check_entry(&self, pass: u32, entry: &Entry) -> Result<(), SessionFault>
        ensures { said told result ≡ answered (entry_checks (state R.Register.meaning self.now) pass entry.now) }
    {
        self.check_quiet(pass)?;
        self.check_view_in(entry.contract, entry.area)?;
        entry.terms.check()?;
        self.check_unused(entry.number)
    }

    // An entry.
    pub(crate) fn admit(&mut self, pass: u32, entry: &Entry) -> Result<(), SessionFault>
        ensures answer { said told result ≡ (entering (state R.Register.meaning self.old) pass entry.now).0 }
        ensures after { state R.Register.meaning self.new ≡ (entering (state R.Register.meaning self.old) pass entry.now).1 }
        ensures register { register_of self.new ≡ register_of self.old }
    {
        self.check_entry(pass, entry)?;
        let contract = entry.contract;
        let incoming = entry.number;
        let order = Order::entered(incoming, entry.member, contract, entry.area, &entry.terms);
        self.book.append(order)?;
        self.round = Some(Round::Regular { contract, incoming });
        Ok(())
    }
}
