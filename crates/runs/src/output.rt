// A sink of text in which each trade of a turn is printed.
ghost use Rattle.std.specs.Prelude.{◌≡◌};
ghost use Rattle.reading.specs.Printing.{line_text};
ghost use Rattle.runs.specs.Output.{trade_line};

use events::events::Event;
use events::performing::CallLog;
use reading::output::{PrintedNumber, print_route_line};
use reading::text::TextSink;
use session::finishing::TradeLog;
use trades::Trade;

/// A sink, as the log of turns. It holds the sink by value: of one that is only lent, a log could not say what it is
/// afterwards.
#[derive(Drop)]
pub struct Printer<S> {
    pub sink: S,
}

impl<S: TextSink> TradeLog for Printer<S> {
    // the trade's line is printed
    ghost notes = { λ a x b. S.TextSink.hears a.sink (line_text (trade_line x)) b.sink };

    fn note(&mut self, trade: &Trade, route: &[u32]) {
        let deal = [
            PrintedNumber::Plain(trade.contract),
            PrintedNumber::Plain(trade.buy),
            PrintedNumber::Plain(trade.sell),
            PrintedNumber::Price(trade.price),
            PrintedNumber::Amount(trade.quantity),
        ];
        print_route_line(&mut self.sink, b"T", &deal, route);
    }
}

impl<S: TextSink> CallLog for Printer<S> {
    // a call is not printed before its trades
    ghost calls = { λ a e b. b ≡ a };

    fn note_call(&mut self, _event: &Event) {}
}
