//! What a table asks of its places.

ghost use Rattle.std.specs.Prelude.{◌≡◌, ◌≢◌, ◌-◌, ◌<◌, ◌≤◌, length, All, IfSome, IfNone, IsSome, vec_len, vec_capacity};
ghost use Rattle.std.specs.List.{HoldsAt};
ghost use Rattle.numbered_table.specs.Rows.{pairs_of, Ascend, AreEmpty, IsLive, AreCounted, AreKept};

use crate::Row;

// The place of a number, by halving.
pub(crate) fn place_of<T>(rows: &[Row<T>], number: u64) -> Option<usize>
    requires { Ascend rows.now }
    ensures within { IfSome result (λ place. place < length rows.now) }
    ensures some { IfSome result (λ place. HoldsAt (λ row. row.number ≡ number) rows.now place) }
    ensures none { IfNone result (All (λ row. row.number ≢ number) rows.now) }
{
    let place = rows.partition_point(|row| row.number < number);
    if place < rows.len() && rows[place].number == number {
        Some(place)
    } else {
        None
    }
}

// The first live place from one on, behind empty ones.
pub(crate) fn live_from<T>(rows: &[Row<T>], from: usize) -> usize
    requires within { from ≤ length rows.now }
    requires empty { AreEmpty rows.now 0 from }
    ensures within { result ≤ length rows.now }
    ensures empty { AreEmpty rows.now 0 result }
    ensures live { result < length rows.now → IsLive rows.now result }
{
    let mut place = from;
    while place < rows.len() && rows[place].value.is_none() {
        place += 1;
    }
    place
}

// How many places there are without the empty ones at the end.
pub(crate) fn live_end<T>(rows: &[Row<T>]) -> usize
    ensures within { result ≤ length rows.now }
    ensures empty { AreEmpty rows.now result (length rows.now) }
    ensures live { 0 < result → IsLive rows.now (result - 1) }
{
    let mut end = rows.len();
    while end > 0 && rows[end - 1].value.is_none() {
        end -= 1;
    }
    end
}

// Takes the empty places out. It takes no memory.
pub(crate) fn take_empty_out<T: Drop>(rows: &mut Vec<Row<T>>)
    ensures ascend { Ascend rows.old.items → Ascend rows.new.items }
    ensures pairs { pairs_of rows.new.items ≡ pairs_of rows.old.items }
    ensures full { length (pairs_of rows.new.items) ≡ length rows.new.items }
    ensures len { vec_len rows.new ≤ vec_len rows.old }
    ensures capacity { vec_capacity rows.new ≡ vec_capacity rows.old }
{
    rows.retain(|row| row.value.is_some());
}

// Moves the places together where more than half are empty, so many of them in front, and else only finds the first live one. Gives where
// that is now, and how many are empty.
pub(crate) fn settle<T: Drop>(
    rows: &mut Vec<Row<T>>,
    leading: usize,
    empties: usize,
) -> (usize, usize)
    requires { AreCounted rows.old.items leading empties }
    ensures kept { AreKept rows.new.items result.0 result.1 }
    ensures pairs { pairs_of rows.new.items ≡ pairs_of rows.old.items }
    ensures len { vec_len rows.new ≤ vec_len rows.old }
    ensures capacity { vec_capacity rows.new ≡ vec_capacity rows.old }
{
    if empties > rows.len() / 2 {
        take_empty_out(rows);
        (0, 0)
    } else {
        (live_from(rows.as_slice(), leading), empties)
    }
}
