// A table of records in the order of their rank.
ghost use Rattle.std.specs.Prelude.{◌≤◌, vec_len, vec_capacity};

pub mod asks;
pub mod insert;

// Its memory is there from the start, so below its limit it never asks for more.
#[derive(Drop)]
pub struct OrderedTable<T> {
    records: Vec<T>,
    limit: usize,
    ghost room: { limit ≤ vec_capacity records },
    ghost held: { vec_len records ≤ limit },
}
