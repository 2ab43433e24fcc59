//! Where packets are stored, by their keys.
ghost use Rattle.std.specs.Prelude.{◌≡◌, ◌<◌, ℕ, true, Some, None, length, OnOk, OnErr};
ghost use Rattle.std.specs.BTreeMap.{get};
ghost use Rattle.std.proofs.Props.{props};
ghost use Rattle.amo_world.specs.declared.key.Key.{Key};
ghost use Rattle.amo_world.specs.Key.{order, with_place};
ghost use Rattle.amo_world.specs.Row.{place_in, row_of, has_spilled};

use crate::key::Key;
use crate::row::{Found, Row, first_place, row_number, spread};
use std::alloc::{AllocError, Global};
use std::collections::BTreeMap;

/// As many keys a row as there may be before there are twice as many rows: few enough that most rows have room for theirs.
const KEYS_A_ROW: usize = 5;

/// The place of each packet that a side emitted, under its key.
///
/// Identifiers are random words, so their remainders spread them over the rows as a hash would, and a key is mostly found
/// with one look at memory. Where somebody chose them so that they share a row, a tree takes what a row has no room for: no
/// journal makes a search cost more than one look at a row and one search in the tree.
#[derive(Drop)]
pub(crate) struct PacketIndex {
    rows: Vec<Row>,
    /// How many keys stand in rows.
    count: usize,
    spilled: BTreeMap<Key, usize>,
    ghost told: { (key : Key) (place : ℕ) → get order spilled key ≡ Some place → has_spilled (row_of rows.items key.identifier) ≡ true } by { Prim.hlevel props },
}

impl PacketIndex {
    /// An index in which nothing stands.
    pub(crate) fn new(alloc: Global) -> PacketIndex
        ensures { (key : Key) → place_in result.rows.items (get order result.spilled) key ≡ None }
    {
        PacketIndex {
            rows: Vec::new(alloc),
            count: 0,
            spilled: BTreeMap::new(alloc),
        }
    }

    /// The place under the key.
    pub(crate) fn get(&self, key: &Key) -> Option<usize>
        ensures { result ≡ place_in self.now.rows.items (get order self.now.spilled) key.now }
    {
        if self.rows.is_empty() {
            return None;
        }
        let row = &self.rows[row_number(key.identifier, self.rows.len())];
        match first_place(row.found.as_slice(), key) {
            Some(place) => Some(place),
            None if row.has_spilled => self.spilled.get(key).copied(),
            None => None,
        }
    }

    /// Puts the place under the key, under which none stands. Where memory runs out nothing has changed.
    pub(crate) fn put(&mut self, alloc: Global, key: Key, place: usize) -> Result<(), AllocError>
        requires { place_in self.old.rows.items (get order self.old.spilled) key ≡ None }
        ensures put { OnOk result ((k : Key) → place_in self.new.rows.items (get order self.new.spilled) k ≡ with_place (place_in self.old.rows.items (get order self.old.spilled)) key place k) }
        ensures same { OnErr result ((k : Key) → place_in self.new.rows.items (get order self.new.spilled) k ≡ place_in self.old.rows.items (get order self.old.spilled) k) }
    {
        if self.count / KEYS_A_ROW >= self.rows.len() {
            self.rows = spread(alloc, self.rows.as_slice())?;
        }
        self.add(Found { key, place })
    }

    /// Puts a place where there is a row for its key: into the row if it has room, or else into the tree.
    fn add(&mut self, found: Found) -> Result<(), AllocError>
        requires rows { 0 < length self.old.rows.items }
        requires absent { place_in self.old.rows.items (get order self.old.spilled) found.key ≡ None }
        ensures put { OnOk result ((k : Key) → place_in self.new.rows.items (get order self.new.spilled) k ≡ with_place (place_in self.old.rows.items (get order self.old.spilled)) found.key found.place k) }
        ensures same { OnErr result ((k : Key) → place_in self.new.rows.items (get order self.new.spilled) k ≡ place_in self.old.rows.items (get order self.old.spilled) k) }
    {
        let number = row_number(found.key.identifier, self.rows.len());
        if self.rows[number].found.is_full() {
            self.spilled.insert(found.key, found.place)?;
            self.rows[number].has_spilled = true;
        } else {
            self.rows[number].found.push(found);
            self.count = self.count.saturating_add(1);
        }
        Ok(())
    }
}
