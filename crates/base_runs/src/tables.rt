//! Tables through which many numbers go, beside a map that goes through the same.

ghost use Rattle.std.specs.Prelude.{◌≡◌, ℕ, ◌≤◌, OnOk};
ghost use Rattle.numbered_table.specs.Pairs.{with_value, AllBelow};

use kn_base::{Memory, Octets};
use line_cases::{cut_at, number, put_named};
use numbered_table::Table;
use std::alloc::Global;
use std::collections::BTreeMap;

/// Puts a value under each number from one up to another into both.
fn push_all(
    table: &mut Table<u64>,
    map: &mut BTreeMap<u64, u64>,
    from: u64,
    to: u64,
) -> Result<(), Memory>
    requires order { from ≤ to }
    requires below { AllBelow from table.old.pairs }
    ensures { OnOk result (AllBelow to table.new.pairs) }
{
    for next in from..to {
        table.reserve(1)?;
        table.push(next, next ^ 1);
        map.insert(next, next ^ 1)?;
    }
    Ok(())
}

/// Ends so many numbers in both, each a step behind the last and all below a bound. How many answers differ.
fn end_all(
    table: &mut Table<u64>,
    map: &mut BTreeMap<u64, u64>,
    bound: u64,
    step: u64,
    ends: u64,
) -> u64
    ensures { (most : ℕ) → AllBelow most table.old.pairs → AllBelow most table.new.pairs }
{
    let mut differing: u64 = 0;
    for turn in 0..ends {
        let sought = turn.wrapping_mul(step) % bound.max(1);
        if table.end(sought) != map.remove(&sought) {
            differing = differing.saturating_add(1);
        }
    }
    differing
}

/// Puts a value under a number that is there, where it stands.
fn change(table: &mut Table<u64>, number: u64, value: u64)
    ensures { table.new.pairs ≡ with_value number value table.old.pairs }
{
    match table.get_mut(number) {
        Some(stands) => *stands = value,
        None => (),
    }
}

/// Changes what stands under each number below a bound in both. How many answers differ.
fn change_all(table: &mut Table<u64>, map: &mut BTreeMap<u64, u64>, bound: u64) -> u64 {
    let mut differing: u64 = 0;
    for sought in 0..bound {
        change(table, sought, 5);
        let was = map.get(&sought).map(|_| 5);
        if let Some(value) = map.get_mut(&sought) {
            *value = sought;
        }
        if table.replace(sought, sought) != was {
            differing = differing.saturating_add(1);
        }
    }
    differing
}

/// How many numbers below a bound have another value in the one than in the other, or stand in one alone.
fn count_differing(table: &Table<u64>, map: &BTreeMap<u64, u64>, bound: u64) -> u64 {
    let mut differing: u64 = 0;
    for sought in 0..bound {
        if table.get(sought).copied() != map.get(&sought).copied() {
            differing = differing.saturating_add(1);
        }
    }
    differing
}

/// How many values a walk of the table meets, and how many of them are others in the map.
fn walk(table: &Table<u64>, map: &BTreeMap<u64, u64>) -> (u64, u64) {
    let mut met: u64 = 0;
    let mut differing: u64 = 0;
    for row in table.rows() {
        if let Some(value) = row.value {
            met = met.saturating_add(1);
            if map.get(&row.number).copied() != Some(value) {
                differing = differing.saturating_add(1);
            }
        }
    }
    (met, differing)
}

/// Puts last how many values are left, how many a walk meets, and how many answers were others than the map's.
fn put_left(
    report: &mut Octets,
    table: &mut Table<u64>,
    map: &mut BTreeMap<u64, u64>,
    bound: u64,
    ended: u64,
) -> Result<(), Memory> {
    let (met, other) = walk(table, map);
    let found = count_differing(table, map, bound);
    let changed = change_all(table, map, bound);
    let after = count_differing(table, map, bound);
    put_named(report, b"left ", table.len() as u64)?;
    put_named(report, b", met ", met)?;
    put_named(report, b", in a map ", map.len() as u64)?;
    let differing = ended.saturating_add(other).saturating_add(found);
    put_named(
        report,
        b", differing ",
        differing.saturating_add(changed).saturating_add(after),
    )
}

/// `table COUNT STEP ENDS`: a table into which COUNT numbers came, of which ENDS were ended in steps of STEP, and the same once
/// more with as many behind them.
pub fn put_table(alloc: Global, text: &[u8], report: &mut Octets) -> Result<(), Memory> {
    let (count, text) = cut_at(text, b' ');
    let (step, ends) = cut_at(text, b' ');
    let (count, step, ends) = (number(count), number(step), number(ends));
    let mut table = Table::new(alloc);
    let mut map = BTreeMap::new(alloc);
    push_all(&mut table, &mut map, 0, count)?;
    let first = end_all(&mut table, &mut map, count, step, ends);
    let bound = count.saturating_mul(2);
    push_all(&mut table, &mut map, count, bound)?;
    let second = end_all(&mut table, &mut map, bound, step, ends);
    put_left(
        report,
        &mut table,
        &mut map,
        bound,
        first.saturating_add(second),
    )
}
