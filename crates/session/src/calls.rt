// The calls on a session.
ghost use Rattle.std.specs.Prelude.{◌≡◌, ◌≤◌, length, MatchResult};
ghost use Rattle.session.specs.State.{state, fresh, register_of};
ghost use Rattle.session.specs.Calls.{answer, begun, kept, shut, counted, requesting, noticing, withdrawing, closing, entering, changing, ended, ending};

use crate::entries::{Change, Entry};
use crate::passes::{Closing, QuietPass, Refused, RoundPass, with_pass};
use crate::state::Session;
use book::places::Book;
use capacity::direction::Direction;
use capacity::figures::Figures;
use capacity::register::Register;

impl<R: Register> Session<R> {
    // Begins a session over a register: quiet, its book empty, all contracts open.
    pub fn begin(number: u32, register: R) -> (Session<R>, QuietPass)
        ensures after { state R.Register.meaning result.0 ≡ fresh number (R.Register.meaning register) }
        ensures pass { result.1.number ≡ number }
        ensures register { register_of result.0 ≡ register }
    {
        let session = Session {
            number,
            round: None,
            closed: [false; 24],
            book: Book::new(),
            register,
        };
        (session, QuietPass { number })
    }

    // How many orders are in the book.
    pub fn resting(&self) -> u32
        ensures count { result ≡ length (state R.Register.meaning self.now).book }
        ensures room { result ≤ 128 }
    {
        // `as`: at most 128.
        self.book.len() as u32
    }

    // Takes a quantity on one connector, and begins a batch round on the contract.
    pub fn request(
        &mut self,
        pass: QuietPass,
        direction: Direction,
        quantity: u32,
    ) -> Result<RoundPass, Refused<QuietPass>>
        ensures answer { answer result ≡ (requesting (state R.Register.meaning self.old) pass.number direction.contract direction.from direction.to quantity).0 }
        ensures after { state R.Register.meaning self.new ≡ (requesting (state R.Register.meaning self.old) pass.number direction.contract direction.from direction.to quantity).1 }
        ensures pass { begun result ≡ pass.number }
        ensures memory { R.leaves (register_of self.old) (register_of self.new) }
    {
        let checked = self.ask(pass.number, direction, |register| {
            register.take(direction, quantity)
        });
        pass.into_round(checked)
    }

    // Hands a notice to the register, and begins a batch round on the contract.
    pub fn notice(
        &mut self,
        pass: QuietPass,
        direction: Direction,
        figures: Figures,
    ) -> Result<RoundPass, Refused<QuietPass>>
        ensures answer { answer result ≡ (noticing (state R.Register.meaning self.old) pass.number direction.contract direction.from direction.to figures).0 }
        ensures after { state R.Register.meaning self.new ≡ (noticing (state R.Register.meaning self.old) pass.number direction.contract direction.from direction.to figures).1 }
        ensures pass { begun result ≡ pass.number }
        ensures memory { R.leaves (register_of self.old) (register_of self.new) }
    {
        let checked = self.ask(pass.number, direction, |register| {
            register.notice(direction, figures)
        });
        pass.into_round(checked)
    }

    // Removes an order by number and member.
    pub fn withdraw(
        &mut self,
        pass: QuietPass,
        number: u32,
        member: u32,
    ) -> Result<QuietPass, Refused<QuietPass>>
        ensures answer { answer result ≡ (withdrawing (state R.Register.meaning self.old) pass.number number member).0 }
        ensures after { state R.Register.meaning self.new ≡ (withdrawing (state R.Register.meaning self.old) pass.number number member).1 }
        ensures pass { kept result ≡ pass.number }
        ensures register { register_of self.new ≡ register_of self.old }
    {
        let checked = self.strike(pass.number, number, member);
        let (_, pass) = with_pass(checked, pass)?;
        Ok(pass)
    }

    // Removes a contract's orders, closes it for good and answers how many went.
    pub fn close(&mut self, pass: QuietPass, contract: u32) -> Result<Closing, Refused<QuietPass>>
        ensures answer { counted result ≡ (closing (state R.Register.meaning self.old) pass.number contract).0 }
        ensures after { state R.Register.meaning self.new ≡ (closing (state R.Register.meaning self.old) pass.number contract).1 }
        ensures pass { shut result ≡ pass.number }
        ensures register { register_of self.new ≡ register_of self.old }
    {
        let checked = self.check_closing(pass.number, contract);
        let (_, pass) = with_pass(checked, pass)?;
        self.closed[contract as usize] = true;
        let gone = self.book.close(contract);
        Ok(Closing { gone, pass })
    }

    // Enters an order as the newest, and begins a regular round with it as incoming.
    pub fn enter(&mut self, pass: QuietPass, entry: &Entry) -> Result<RoundPass, Refused<QuietPass>>
        ensures answer { answer result ≡ (entering (state R.Register.meaning self.old) pass.number entry.now).0 }
        ensures after { state R.Register.meaning self.new ≡ (entering (state R.Register.meaning self.old) pass.number entry.now).1 }
        ensures pass { begun result ≡ pass.number }
        ensures register { register_of self.new ≡ register_of self.old }
    {
        let checked = self.admit(pass.number, entry);
        pass.into_round(checked)
    }

    // Gives an order by number and member another limit and quantity; it is newest, and a regular round begins with it as incoming.
    pub fn change(
        &mut self,
        pass: QuietPass,
        change: &Change,
    ) -> Result<RoundPass, Refused<QuietPass>>
        ensures answer { answer result ≡ (changing (state R.Register.meaning self.old) pass.number change.now.number change.now.member change.now.limit change.now.quantity).0 }
        ensures after { state R.Register.meaning self.new ≡ (changing (state R.Register.meaning self.old) pass.number change.now.number change.now.member change.now.limit change.now.quantity).1 }
        ensures pass { begun result ≡ pass.number }
        ensures register { register_of self.new ≡ register_of self.old }
    {
        let checked = self.alter(pass.number, change);
        pass.into_round(checked)
    }

    // Ends a quiet session and gives its register back; refused, the session comes back with the pass.
    pub fn end(self, pass: QuietPass) -> Result<R, (Session<R>, Refused<QuietPass>)>
        ensures ended { ended R.Register.meaning result ≡ ending (state R.Register.meaning self) pass.number }
        ensures register { MatchResult result
            (λ r. r ≡ register_of self)
            (λ e. register_of e.0 ≡ register_of self) }
    {
        let checked = self.check_quiet(pass.number);
        // a match: each case moves the session, which `map_err` and `?` cannot
        match with_pass(checked, pass) {
            Ok(_) => Ok(self.register),
            Err(refused) => Err((self, refused)),
        }
    }
}
