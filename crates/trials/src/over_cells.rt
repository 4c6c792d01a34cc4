// Calls played over a register in cells that the caller lends, and over a layer on it that keeps more back.
ghost use Rattle.std.specs.Prelude.{◌≡◌, IfOk, List, length};
ghost use Rattle.capacity.specs.Meaning.{reserved};
ghost use Rattle.capacity.specs.Shapes.{network_of};
ghost use Rattle.cells.specs.Shapes.{cells_of};
ghost use Rattle.cells.specs.Lent.{StandsIn};
ghost use Rattle.events.specs.declared.events.Event.{Event as AnEvent};
ghost use Rattle.player.specs.Playing.{Plays, GivesBack, OnePlaying, calls_of};
ghost use Rattle.cells.specs.Meaning.{unnoted};
ghost use Rattle.trials.specs.Lent.{lent_kept};

use capacity::map::ConnectorMap;
use capacity::reserve::Reserve;
use cells::cell::Cell;
use cells::register::CellRegister;
use events::calls::Call;
use player::playing::{Playback, play};
use std::alloc::Global;

// As many pairs can be noted as there are cells, whatever the cells held.
pub fn play_over_cells<'a>(
    heap: Global,
    number: u32,
    map: &'a ConnectorMap,
    cells: &'a mut [Cell],
    calls: &[Call],
) -> Playback<CellRegister<'a>>
    ensures history { IfOk result.events (λ events.
        Plays (unnoted (network_of map.now).joins (length cells.old)) number calls.now events.items) }
    ensures played { IfOk result.events (λ events. calls_of events.items ≡ calls.now) }
    ensures register { (es : List AnEvent)
        × GivesBack (unnoted (network_of map.now).joins (length cells.old)) number calls.now es
        (cells_of result.register) }
    ensures cells { StandsIn cells.entry.ghost_name cells.old result.register }
    ensures only { OnePlaying (unnoted (network_of map.now).joins (length cells.old)) number calls.now }
{
    play(heap, number, CellRegister::new(map, cells), calls)
}

// The same with what the map keeps back; the layer is ended, and the register below it goes back.
pub fn play_over_kept_cells<'a>(
    heap: Global,
    number: u32,
    map: &'a ConnectorMap,
    cells: &'a mut [Cell],
    calls: &[Call],
) -> Playback<CellRegister<'a>>
    ensures history { IfOk result.events (λ events.
        Plays (lent_kept (network_of map.now) (length cells.old)) number calls.now events.items) }
    ensures played { IfOk result.events (λ events. calls_of events.items ≡ calls.now) }
    ensures register { (es : List AnEvent)
        × GivesBack (lent_kept (network_of map.now) (length cells.old)) number calls.now es
        (reserved (cells_of result.register) (network_of map.now).kept) }
    ensures cells { StandsIn cells.entry.ghost_name cells.old result.register }
    ensures only { OnePlaying (lent_kept (network_of map.now) (length cells.old)) number calls.now }
{
    let below = CellRegister::new(map, cells);
    let Playback { register, events } = play(heap, number, Reserve::new(below, map), calls);
    Playback {
        register: register.into_below(),
        events,
    }
}
