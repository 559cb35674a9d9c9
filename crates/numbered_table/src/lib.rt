//! Values under ascending numbers.
//!
//! Messages that wait, arrivals and jobs come under numbers that only rise, are looked up by number, and end in another
//! order. A `Table` keeps them in one list in the order of their numbers. Where memory was reserved, a value comes and goes
//! without taking any: one that ends leaves an empty place, and the places are moved together once more than half are empty.
//!
//! The one contract: a table is a list of pairs of a number and its value. `push` puts one last, `replace` changes one,
//! `end` takes one away, and nothing else changes the list. `room` is how many more pairs surely find a place.
#![tactic(auto)]

mod row;
mod rows;
mod table;

pub use row::Row;
pub use table::Table;
