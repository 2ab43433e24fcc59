//! Rows of keys, by the remainders of their identifiers.
ghost use Rattle.std.specs.Prelude.{◌≡◌, ◌+◌, ◌%◌, ◌<◌, ◌≤◌, ◌++◌, [], length, IfOk};
ghost use Rattle.arrayvec.specs.ArrayVec.{array_vec_len};
ghost use Rattle.amo_world.specs.Row.{first_place, shared, IsShare, IsSpread};

use crate::key::Key;
use arrayvec::ArrayVec;
use std::alloc::{AllocError, Global};

/// How many keys a row has room for.
const ROW: usize = 8;

/// A key, and the place that stands under it.
#[derive(Clone, Copy, Default)]
pub(crate) struct Found {
    pub(crate) key: Key,
    pub(crate) place: usize,
}

/// Keys whose identifiers leave one remainder, divided by the number of rows.
#[derive(Drop)]
pub(crate) struct Row {
    pub(crate) found: ArrayVec<Found, ROW>,
    /// Once there was no room here for a key of this row.
    pub(crate) has_spilled: bool,
}

/// The number of an identifier's row.
pub(crate) fn row_number(identifier: u64, rows: usize) -> usize
    requires { 0 < rows }
    ensures number { result ≡ identifier % rows }
    ensures below { result < rows }
{
    (identifier % rows as u64) as usize
}

/// A row for each remainder of twice as many, or one where there was none, with what stood in the former ones.
pub(crate) fn spread(alloc: Global, rows: &[Row]) -> Result<Vec<Row>, AllocError>
    ensures { IfOk result (λ spread. IsSpread rows.now spread.items) }
{
    if rows.is_empty() {
        return one_row(alloc);
    }
    let count = rows.len().checked_mul(2).ok_or(AllocError)?;
    let mut spread = Vec::with_capacity(alloc, count)?;
    while spread.len() < count {
        let number = spread.len();
        spread.push_reserved(share(&rows[number % rows.len()], number, count));
    }
    Ok(spread)
}

fn one_row(alloc: Global) -> Result<Vec<Row>, AllocError>
    ensures { IfOk result (λ rows. IsSpread [] rows.items) }
{
    let mut rows = Vec::with_capacity(alloc, 1)?;
    rows.push_reserved(Row {
        found: ArrayVec::new(),
        has_spilled: false,
    });
    Ok(rows)
}

/// What of a row goes to the row of this number, where there are so many.
fn share(row: &Row, number: usize, rows: usize) -> Row
    requires { 0 < rows }
    ensures { IsShare row.now number rows result }
{
    let mut found = ArrayVec::new();
    pick(row.found.as_slice(), number, rows, &mut found);
    Row {
        found,
        has_spilled: row.has_spilled,
    }
}

/// Adds what goes to the row of this number.
fn pick(from: &[Found], number: usize, rows: usize, to: &mut ArrayVec<Found, ROW>)
    requires some { 0 < rows }
    requires room { length from.now + array_vec_len to.old ≤ 8 }
    ensures { to.new.items ≡ to.old.items ++ shared number rows from.now }
{
    let Some((first, others)) = from.split_first() else {
        return;
    };
    if row_number(first.key.identifier, rows) == number {
        to.push(*first);
    }
    pick(others, number, rows, to);
}

/// The place of the first of these that has the key.
pub(crate) fn first_place(found: &[Found], key: &Key) -> Option<usize>
    ensures { result ≡ first_place found.now key.now }
{
    let (first, others) = found.split_first()?;
    if first.key == *key {
        Some(first.place)
    } else {
        first_place(others, key)
    }
}
