// What an order is entered with, and what a change asks.
use book::rows::OrderTerms;

#[derive(Clone, Copy)]
pub struct Entry {
    pub number: u32,
    pub member: u32,
    pub contract: u32,
    pub area: u32,
    pub terms: OrderTerms,
}

// Another limit and quantity for the order of a number and member.
#[derive(Clone, Copy)]
pub struct Change {
    pub number: u32,
    pub member: u32,
    pub limit: i32,
    pub quantity: u32,
}
