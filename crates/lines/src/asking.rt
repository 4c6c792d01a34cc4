// What a line asks for, as a call on a session.
ghost use Rattle.std.specs.Prelude.{length};
ghost use Rattle.reading.specs.Reading.{ahead};
ghost use Rattle.reading.specs.Fields.{InLine, ReadTo};
ghost use Rattle.reading.specs.Making.{Makes, MakesOfCounts};
ghost use Rattle.lines.specs.Asking.{notice_fields, notice, request_fields, request, change_fields, change, withdrawal_fields, withdrawal, closing_fields, closing, EntryLine, Asks, LineReadTo};

use crate::entries::{kind_of, side_of};
use book::rows::OrderTerms;
use capacity::direction::Direction;
use capacity::figures::Figures;
use events::calls::Call;
use numbers::Unit;
use reading::faults::WordFault;
use reading::fields::{COUNT, Field, POWER, sizes};
use reading::reader::Reader;
use session::entries::{Change, Entry};

const LIMIT: Field = Field::Signed(Unit::Euro);

// The places of side and kind among the words of an entry.
const SIDE: u32 = 3;

const KIND: u32 = 5;

fn notice(reader: &mut Reader) -> Result<Call, WordFault>
    ensures call { MakesOfCounts reader.old.words notice_fields notice (ahead reader.old) result }
    ensures reads { ReadTo (length (ahead reader.old)) reader.old result reader.new }
    ensures stays { InLine reader.old reader.new }
{
    let counts = reader.counts([COUNT, COUNT, COUNT, POWER, POWER, POWER, POWER])?;
    let [contract, from, to, ntc, ntc_back, aac, aac_back] = counts;
    Ok(Call::Notice {
        direction: Direction { contract, from, to },
        figures: Figures {
            ntc,
            ntc_back,
            aac,
            aac_back,
        },
    })
}

fn request(reader: &mut Reader) -> Result<Call, WordFault>
    ensures call { MakesOfCounts reader.old.words request_fields request (ahead reader.old) result }
    ensures reads { ReadTo (length (ahead reader.old)) reader.old result reader.new }
    ensures stays { InLine reader.old reader.new }
{
    let counts = reader.counts([COUNT, COUNT, COUNT, POWER])?;
    let [contract, from, to, quantity] = counts;
    Ok(Call::Request {
        direction: Direction { contract, from, to },
        quantity,
    })
}

fn change(reader: &mut Reader) -> Result<Call, WordFault>
    ensures call { Makes reader.old.words change_fields change (ahead reader.old) result }
    ensures reads { ReadTo (length (ahead reader.old)) reader.old result reader.new }
    ensures stays { InLine reader.old reader.new }
{
    let numbers = reader.numbers([COUNT, COUNT, LIMIT, POWER])?;
    let counts = sizes(numbers);
    let [number, member, _, quantity] = counts;
    let [_, _, limit, _] = numbers;
    Ok(Call::Change(Change {
        number,
        member,
        limit,
        quantity,
    }))
}

fn withdrawal(reader: &mut Reader) -> Result<Call, WordFault>
    ensures call { MakesOfCounts reader.old.words withdrawal_fields withdrawal (ahead reader.old) result }
    ensures reads { ReadTo (length (ahead reader.old)) reader.old result reader.new }
    ensures stays { InLine reader.old reader.new }
{
    let counts = reader.counts([COUNT, COUNT])?;
    let [number, member] = counts;
    Ok(Call::Withdraw { number, member })
}

fn closing(reader: &mut Reader) -> Result<Call, WordFault>
    ensures call { MakesOfCounts reader.old.words closing_fields closing (ahead reader.old) result }
    ensures reads { ReadTo (length (ahead reader.old)) reader.old result reader.new }
    ensures stays { InLine reader.old reader.new }
{
    let counts = reader.counts([COUNT])?;
    let [contract] = counts;
    Ok(Call::Close { contract })
}

fn entry(reader: &mut Reader) -> Result<Call, WordFault>
    ensures call { EntryLine reader.old.words (ahead reader.old) result }
    ensures reads { ReadTo (length (ahead reader.old)) reader.old result reader.new }
    ensures stays { InLine reader.old reader.new }
{
    let side = side_of(reader.word_ahead(SIDE));
    let kind = kind_of(reader.word_ahead(KIND));
    let side = side.ok_or(WordFault::Form)?;
    let kind = kind.ok_or(WordFault::Form)?;
    let numbers = reader.numbers([
        COUNT,
        COUNT,
        COUNT,
        Field::Letters,
        COUNT,
        Field::Letters,
        LIMIT,
        POWER,
        POWER,
        Field::Count(Unit::Euro),
    ])?;
    let counts = sizes(numbers);
    let [number, member, contract, _, area, ..] = counts;
    let [.., quantity, peak, delta] = counts;
    let [.., limit, _, _, _] = numbers;
    let terms = OrderTerms {
        kind,
        side,
        limit,
        quantity,
        peak,
        delta,
    };
    Ok(Call::Enter(Entry {
        number,
        member,
        contract,
        area,
        terms,
    }))
}

// What the words that are left of the line ask for, its letter first. It is refused by 17 where letter, count of words,
// side or kind is wrong, and by 18 to 20 for the leftmost word at fault.
#[tactic(auto, using(crate::proofs::Passed::line_read))]
pub fn call(reader: &mut Reader) -> Result<Call, WordFault>
    ensures call { Asks reader.old.words (ahead reader.old) result }
    ensures reads { LineReadTo reader.old result reader.new }
    ensures stays { InLine reader.old reader.new }
{
    let letter = reader.letter().ok_or(WordFault::Form)?;
    // the letters are the cases of a match (docs/DECISIONS.md, Forms)
    match letter {
        'C' => change(reader),
        'E' => entry(reader),
        'K' => closing(reader),
        'N' => notice(reader),
        'W' => withdrawal(reader),
        'X' => request(reader),
        _ => Err(WordFault::Form),
    }
}
