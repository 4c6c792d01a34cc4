// The tests of a take and of a notice, for any register.
ghost use Rattle.std.specs.Prelude.{◌≡◌, ◌<◌, ◌≤◌, true, false, not, ◌&&◌, ◌==◌, Err};
ghost use Rattle.capacity.specs.Tests.{answered, said};
ghost use Rattle.capacity.specs.Faults.{told};
ghost use Rattle.capacity.specs.Meaning.{Capacity, atc};
ghost use Rattle.capacity.specs.Answers.{asked, take_tests, large, notice_tests};

use crate::direction::Direction;
use crate::faults::RegisterFault;
use crate::figures::Figures;
use crate::limits::{LAST_CONTRACT, TOP_FIGURE};

// `flow` is what the register answers when asked for the ATC.
pub fn check_take(
    direction: Direction,
    quantity: u32,
    flow: Option<i32>,
) -> Result<(), RegisterFault>
    ensures answer { (m : Capacity) → flow ≡ asked m direction.contract direction.from direction.to (atc m direction.contract direction.from direction.to) → said told result ≡ answered (take_tests m direction.contract direction.from direction.to quantity) }
    ensures no_contract { 23 < direction.contract → result ≡ Err (RegisterFault.Contract direction) }
{
    // Whatever `flow` is: a register may have one even there.
    if direction.contract > LAST_CONTRACT {
        return Err(RegisterFault::Contract(direction));
    }
    if !(1..=TOP_FIGURE).contains(&quantity) {
        return Err(RegisterFault::Quantity(direction));
    }
    let atc = flow.ok_or(RegisterFault::Unjoined(direction))?;
    if i64::from(atc) < i64::from(quantity) {
        return Err(RegisterFault::Short { direction, atc });
    }
    Ok(())
}

// `joined` says whether a connector joins the areas, and `full`, where it matters, whether the pair is not noted
// and no more can be.
pub fn check_notice(
    direction: Direction,
    figures: Figures,
    joined: bool,
    full: bool,
) -> Result<(), RegisterFault>
    ensures { (m : Capacity) → joined ≡ m.joins direction.from direction.to
        → (direction.contract ≤ 23 → joined ≡ true → large figures ≡ false
        → full ≡ (not (m.noted direction.contract direction.from direction.to) && (m.room == 0)))
        → said told result ≡ answered (notice_tests m direction.contract direction.from direction.to figures) }
{
    if direction.contract > LAST_CONTRACT {
        return Err(RegisterFault::Contract(direction));
    }
    if !joined {
        return Err(RegisterFault::Unjoined(direction));
    }
    if figures.large() {
        return Err(RegisterFault::Figure(direction));
    }
    if full {
        return Err(RegisterFault::Full(direction));
    }
    Ok(())
}
