// The capacity view: each direction of the connectors, least ATC first.
ghost use Rattle.std.specs.Prelude.{◌≡◌, ◌≤◌};
ghost use Rattle.session.specs.State.{state};
ghost use Rattle.views.specs.Ranks.{capacity_before};
ghost use Rattle.views.specs.Views.{Viewed, OnlyView};
ghost use Rattle.views.specs.Capacities.{ShowsDirection, contract_tests, CapacityLines, NoneLeftOut};
ghost use Rattle.views.specs.Single.{one_direction};

use crate::lines::CapacityLine;
use crate::view::{View, fill};
use capacity::direction::Direction;
use capacity::register::Register;
use routes::AREAS;
use session::faults::SessionFault;
use session::state::Session;

// The directions of the connectors in a contract: sixteen places for each area that one may lead from.
#[derive(Drop)]
struct Directions<'a, R> {
    register: &'a R,
    contract: u32,
    ghost traded: { contract ≤ 23 },
}

impl<'a, R: Register> View for Directions<'a, R> {
    type Line = CapacityLine;

    ghost places = { λ _. 256 };

    ghost shows = { λ v. ShowsDirection (R.Register.meaning v.register.now) v.contract };

    fn places(&self) -> usize {
        (AREAS * AREAS) as usize
    }

    fn line(&self, place: usize) -> Option<CapacityLine> {
        let direction = Direction {
            contract: self.contract,
            // `as`: a place is below 256
            from: place as u32 / AREAS,
            to: place as u32 % AREAS,
        };
        let atc = self.register.atc(direction)?;
        Some(CapacityLine {
            atc,
            from: direction.from,
            to: direction.to,
        })
    }

    ghost one = { λ v i o p. one_direction (R.Register.meaning v.register.now) v.contract i o p };
}

// Lists what can flow in each direction of the session's connectors; no line is written if there are too few.
pub fn capacity_view<R: Register>(
    session: &Session<R>,
    contract: u32,
    lines: &mut [CapacityLine],
) -> Result<usize, SessionFault>
    ensures view { Viewed capacity_before (contract_tests (state R.Register.meaning session.now) contract) (CapacityLines (state R.Register.meaning session.now) contract) lines.old result lines.new }
    ensures only { OnlyView capacity_before (contract_tests (state R.Register.meaning session.now) contract) (CapacityLines (state R.Register.meaning session.now) contract) lines.old result lines.new }
    ensures all { NoneLeftOut (state R.Register.meaning session.now) contract }
{
    session.check_view(contract)?;
    let directions = Directions {
        register: session.register(),
        contract,
    };
    fill(&directions, lines)
}
