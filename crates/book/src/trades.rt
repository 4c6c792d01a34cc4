// What a trade does to the book.
ghost use Rattle.std.specs.Prelude.{◌≡◌, ◌<◌, ◌++◌, length, map};
ghost use Rattle.std.specs.List.{filter};
ghost use Rattle.std.specs.List.{AllByRecursion};
ghost use Rattle.book.specs.Orderly.{Fit, Orderly};
ghost use Rattle.book.specs.Trades.{struck, renewable, renewal, renewed_by, settled, settled_rows};
ghost use Rattle.book.specs.Places.{orders, without};
ghost use Rattle.book.specs.Ranks.{order_at};
ghost use Rattle.book.specs.Icebergs.{Iced, IcedIfShown};
ghost use Rattle.book.specs.Examples.{Examples};

use crate::places::Book;

impl Book {
    // Trades `quantity` off the orders with these numbers, each in its place.
    fn strike(&mut self, buy: u32, sell: u32, quantity: u32)
        ensures after { orders self.new ≡ map (struck buy sell quantity) (orders self.old) }
        ensures iced { AllByRecursion IcedIfShown (orders self.old) → AllByRecursion IcedIfShown (orders self.new) }
    {
        let n = self.len();
        for row in &mut self.rows[..n] {
            if row.is_one_of(buy, sell) {
                row.trade(quantity);
            }
        }
    }

    // Renews the order at `at`, which has run out: with its next slice it becomes the newest, without one it leaves.
    fn renew_at(&mut self, at: usize)
        requires { at < length (orders self.old) }
        ensures after { orders self.new ≡ without (orders self.old) at ++ renewal (order_at (orders self.old) at) }
        ensures iced { AllByRecursion IcedIfShown (orders self.old) → AllByRecursion IcedIfShown (orders self.new) }
    {
        if self.rows[at].renew() {
            self.make_newest(at);
        } else {
            self.remove(at);
        }
    }

    // Keeps what shows in its place; of what has run out the next slices become the newest, the older order's first.
    // As many steps as there were orders, so that a next slice is not looked at again.
    fn renew(&mut self)
        ensures after { orders self.new ≡ renewed_by renewable (orders self.old) }
        ensures iced { AllByRecursion IcedIfShown (orders self.old) → AllByRecursion Iced (orders self.new) }
    {
        let mut at = 0;
        for _row in 0..self.len() {
            if self.rows[at].shows() {
                at += 1;
            } else {
                self.renew_at(at);
            }
        }
    }

    // Three numbers, as a trade's own struct stands in a higher crate.
    // A trade between two orders: what still shows keeps its age, what is used up leaves, the next slices become the newest.
    pub fn trade(&mut self, buy: u32, sell: u32, quantity: u32)
        ensures after { AllByRecursion Fit (orders self.old) → orders self.new ≡ settled buy sell quantity (orders self.old) }
        ensures rows { orders self.new ≡ settled_rows buy sell quantity (orders self.old) }
        ensures orderly { Orderly (orders self.old) → Orderly (orders self.new) }
        ensures iced { AllByRecursion Fit (orders self.old) → AllByRecursion Iced (orders self.old) }
        ensures still_iced { AllByRecursion Iced (orders self.old) → AllByRecursion Iced (orders self.new) }
        ensures examples { Examples }
    {
        self.strike(buy, sell, quantity);
        self.renew();
    }
}
