// Which areas are joined: each pair stands at 16 times its lower area plus its higher one.
ghost use Rattle.std.specs.Prelude.{◌≡◌, ◌≤◌};
ghost use Rattle.capacity.specs.Network.{connectors};
ghost use Rattle.capacity.specs.Tables.{linked};

mod calls;

#[derive(Drop, Clone, Copy)]
pub struct Links {
    joined: [bool; 256],
    count: u32,
    ghost counted: { count ≡ connectors (linked joined) },
    ghost few: { count ≤ 32 },
}
