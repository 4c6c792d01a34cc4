// A change of an order: another limit and quantity, and the age of a new one.
ghost use Rattle.std.specs.Prelude.{◌≡◌, ◌<◌, [], ◌∷◌, ◌++◌, length, IfOk, Some, Ok, Err, MatchResult};
ghost use Rattle.book.specs.Orderly.{Fit, Orderly};
ghost use Rattle.book.specs.Places.{orders, place, without, numbered_of};
ghost use Rattle.book.specs.Ranks.{order_at};
ghost use Rattle.capacity.specs.Tests.{answered, said};
ghost use Rattle.session.specs.Faults.{told};
ghost use Rattle.session.specs.State.{state, register_of};
ghost use Rattle.session.specs.Calls.{terms_with, change_tests, changing};

use crate::entries::Change;
use crate::faults::SessionFault;
use crate::state::Session;
use book::places::Book;
use book::rows::{Order, OrderTerms};
use book::terms::check_bounds;
use capacity::register::Register;
use matching::round::Round;

impl Change {
    // The order's terms with the new limit and quantity; the row keeps no terms that they could update.
    fn terms_of(&self, order: &Order) -> OrderTerms
        ensures { result ≡ terms_with order.now self.now.limit self.now.quantity }
    {
        OrderTerms {
            kind: order.kind,
            side: order.side,
            limit: self.limit,
            quantity: self.quantity,
            peak: order.peak,
            delta: order.delta,
        }
    }
}

// Takes the order at `at` out and makes `order`, of its number, the newest; where there is none, nothing changes.
fn renew(book: &mut Book, at: usize, order: Order)
    ensures after { at < length (orders book.old) → orders book.new ≡ without (orders book.old) at ++ order ∷ [] }
    ensures orderly { Orderly (orders book.old) → Fit order → order.number ≡ (order_at (orders book.old) at).number → Orderly (orders book.new) }
{
    if at < book.len() {
        book.remove(at);
        book.append(order).unwrap();
    }
}

impl<R: Register> Session<R> {
    // All that is asked of a change; where it is met, the order's place and the order.
    fn check_change(&self, pass: u32, change: &Change) -> Result<(usize, Order), SessionFault>
        ensures answer { MatchResult result (λ _. answered (change_tests (state R.Register.meaning self.now) pass change.now.number change.now.member change.now.limit change.now.quantity) ≡ Ok tt) (λ e. answered (change_tests (state R.Register.meaning self.now) pass change.now.number change.now.member change.now.limit change.now.quantity) ≡ Err (told e)) }
        ensures found { IfOk result (λ x. (place (numbered_of change.now.number change.now.member) (orders self.now.book) ≡ Some x.0) × (x.0 < length (orders self.now.book)) × (order_at (orders self.now.book) x.0 ≡ x.1)) }
    {
        self.check_quiet(pass)?;
        check_bounds(change.limit, change.quantity)?;
        let at = self.check_known(change.number, change.member)?;
        let order = self.book.order(at).unwrap();
        change.terms_of(&order).check_slices()?;
        Ok((at, order))
    }

    // A change.
    pub(crate) fn alter(&mut self, pass: u32, change: &Change) -> Result<(), SessionFault>
        ensures answer { said told result ≡ (changing (state R.Register.meaning self.old) pass change.now.number change.now.member change.now.limit change.now.quantity).0 }
        ensures after { state R.Register.meaning self.new ≡ (changing (state R.Register.meaning self.old) pass change.now.number change.now.member change.now.limit change.now.quantity).1 }
        ensures register { register_of self.new ≡ register_of self.old }
    {
        let (at, old) = self.check_change(pass, change)?;
        let terms = change.terms_of(&old);
        let order = Order::entered(old.number, old.member, old.contract, old.area, &terms);
        renew(&mut self.book, at, order);
        self.round = Some(Round::Regular {
            contract: old.contract,
            incoming: old.number,
        });
        Ok(())
    }
}
