// How far the numbers of the market go.
// The contracts of calls write these numbers out, since a definition is read on its own.
// Contracts are 0 to 23.
pub const LAST_CONTRACT: u32 = 23;
// Market areas are 0 to 15.
pub const LAST_AREA: u32 = 15;
// A map has at most 32 connectors.
pub const MOST_CONNECTORS: u32 = 32;
// An NTC, an AAC, a held figure or a quantity taken is at most 99,999.
pub const TOP_FIGURE: u32 = 99_999;
