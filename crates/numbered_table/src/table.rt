//! The table.

ghost use Rattle.std.specs.Prelude.{◌≡◌, ◌+◌, ◌<◌, ◌≤◌, [], ◌∷◌, ◌++◌, length, Some, option_copied, IsSome, OnOk};
ghost use Rattle.std.specs.Option.{option_copied_mut};
ghost use Rattle.std.specs.Borrow.{sem};
ghost use Rattle.numbered_table.specs.Pairs.{value_under, without, with_value, AllBelow, IsAscending};
ghost use Rattle.numbered_table.specs.Rows.{pairs_of};

use crate::Row;
use crate::rows::{live_end, place_of, settle, take_empty_out};
use kn_base::Memory;
use std::alloc::Global;
use std::marker::Model;
use std::mem::replace;

/// Values under ascending numbers. Contracts see the pairs of a number and its value, in order, and how many more surely find
/// `room`.
#[derive(Drop)]
pub struct Table<T> {
    /// The places in the order of their numbers. A value that was taken out leaves an empty one.
    rows: Vec<Row<T>>,
    /// How many empty places stand in front. Behind them comes a live one, if any does.
    first_live: usize,
    /// How many places are empty: at most half.
    empties: usize,
}

impl<T> Model for Table<T> {
    ghost use Rattle.std.specs.Prelude.{◌-◌, vec_len, vec_capacity};
    ghost use Rattle.numbered_table.specs.Pairs.{Numbered, numbered_code};
    ghost use Rattle.numbered_table.specs.Rows.{pairs_of, AreKept};

    ghost Value = { Numbered T };

    ghost coded = { numbered_code T.code };

    ghost view = { λ t. record { pairs = pairs_of t.rows.items; room = vec_capacity t.rows - vec_len t.rows } };

    ghost invariant = { λ t. AreKept t.rows.items t.first_live t.empties };
}

impl<T: Drop> Table<T> {
    ghost use Rattle.numbered_table.specs.Lends.{lends_get, lends_value};

    /// No values. It takes no memory.
    pub fn new(alloc: Global) -> Table<T>
        ensures { result.pairs ≡ [] }
    {
        Table {
            rows: Vec::new(alloc),
            first_live: 0,
            empties: 0,
        }
    }

    /// How many values there are.
    pub fn len(&self) -> usize
        ensures len { result ≡ length self.now.pairs }
        ensures ascending { IsAscending self.now.pairs }
    {
        self.rows.len() - self.empties
    }

    /// The places from the first value on, in the order of their numbers. Some of them may be empty.
    pub fn rows(&self) -> &[Row<T>]
        ensures pairs { pairs_of result.now ≡ self.now.pairs }
        ensures ascending { IsAscending self.now.pairs }
    {
        &self.rows.as_slice()[self.first_live..]
    }

    /// The value under a number.
    pub fn get(&self, number: u64) -> Option<&T>
        ensures { option_copied result ≡ value_under number self.now.pairs }
    {
        let place = place_of(self.rows.as_slice(), number)?;
        self.rows[place].value.as_ref()
    }

    /// The value under a number, to change it where it stands.
    pub fn get_mut(&mut self, number: u64) -> Option<&mut T>
        ensures* writes_back { sem 𝓛 (lends_get T.row self.entry number result) }
        ensures value { option_copied_mut result ≡ value_under number self.old.pairs }
    {
        if self.get(number).is_some() {
            Some(self.value_mut(number))
        } else {
            None
        }
    }

    /// Makes room for so many more values. Where there is no memory, and where there is, the values stay. The places are moved
    /// together first where that may spare memory, more than a quarter of them being empty.
    pub fn reserve(&mut self, more: usize) -> Result<(), Memory>
        ensures room { OnOk result (more ≤ self.new.room) }
        ensures pairs { self.new.pairs ≡ self.old.pairs }
        ensures kept { self.old.room ≤ self.new.room }
    {
        if self.rows.capacity() - self.rows.len() < more && self.empties > self.rows.len() / 4 {
            self.move_together();
        }
        self.rows.reserve(more)?;
        Ok(())
    }

    /// Puts a value last, under a number above all others. It takes no memory.
    pub fn push(&mut self, number: u64, value: T)
        requires above { AllBelow number self.old.pairs }
        requires room { 0 < self.old.room }
        ensures pairs { self.new.pairs ≡ self.old.pairs ++ (number, value) ∷ [] }
        ensures room { self.old.room ≤ self.new.room + 1 }
    {
        let end = live_end(self.rows.as_slice());
        self.empties -= self.rows.len() - end;
        self.rows.truncate(end);
        self.first_live = self.first_live.min(end);
        self.rows.push_reserved(Row {
            number,
            value: Some(value),
        });
    }

    /// Puts another value under a number that is there, and gives the one that was. It takes no memory.
    pub fn replace(&mut self, number: u64, value: T) -> Option<T>
        ensures was { result ≡ value_under number self.old.pairs }
        ensures pairs { self.new.pairs ≡ with_value number value self.old.pairs }
        ensures room { self.new.room ≡ self.old.room }
    {
        let place = place_of(self.rows.as_slice(), number)?;
        let was = self.rows[place].value.as_mut()?;
        Some(replace(was, value))
    }

    /// Takes the value under a number away, and gives it. It takes no memory.
    pub fn end(&mut self, number: u64) -> Option<T>
        ensures was { result ≡ value_under number self.old.pairs }
        ensures pairs { self.new.pairs ≡ without number self.old.pairs }
        ensures room { self.old.room ≤ self.new.room }
    {
        let place = place_of(self.rows.as_slice(), number)?;
        let value = self.rows[place].value.take()?;
        let (first_live, empties) = settle(&mut self.rows, self.first_live, self.empties + 1);
        self.first_live = first_live;
        self.empties = empties;
        Some(value)
    }

    // The value under a number that is there, to change it.
    fn value_mut(&mut self, number: u64) -> &mut T
        requires { IsSome (value_under number self.old.pairs) }
        ensures* writes_back { sem 𝓛 (lends_value T.row self.entry number result) }
        ensures value { value_under number self.old.pairs ≡ Some result.now }
    {
        let place = place_of(self.rows.as_slice(), number).unwrap();
        self.rows[place].value.as_mut().unwrap()
    }

    // Takes the empty places out.
    fn move_together(&mut self)
        ensures pairs { self.new.pairs ≡ self.old.pairs }
        ensures room { self.old.room ≤ self.new.room }
    {
        take_empty_out(&mut self.rows);
        self.first_live = 0;
        self.empties = 0;
    }
}
