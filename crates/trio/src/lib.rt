// A trio of tables over any three placements: idle, or a run that makes their product tile by tile.
#![tactic(auto)]

mod resting;
mod running;
mod tables;

use masked::Refusal;
use tables::Tables;

// An idle trio: its entries may be put, got, cleared and copied, and a run may begin.
#[derive(Drop)]
pub struct Idle<L, R, S> {
    tables: Tables<L, R, S>,
}

// A run: the product of left and right is being added to the result, tile by tile, until it is ended.
#[derive(Drop)]
pub struct Run<L, R, S> {
    tables: Tables<L, R, S>,
    order: u32,
    made: u64,
}

// The idle trio that could not begin, given back, and why.
#[derive(Drop)]
pub struct Declined<L, R, S> {
    pub idle: Idle<L, R, S>,
    pub refusal: Refusal,
}
