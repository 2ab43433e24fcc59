//! What a client calls its line by.
ghost use Rattle.std.specs.Prelude.{◌≡◌, None, IfOk, option_map};
ghost use Rattle.json.specs.Value.{value_view};
ghost use Rattle.amo_lines.specs.Object.{id_of};

use json::Value;
use std::alloc::{AllocError, Global};
use std::marker::Model;

/// The most bytes of an id.
pub(crate) const LONGEST_ID: usize = 64;

/// The name that a client gives to its line, if it gives one: at most 64 bytes of UTF-8. Contracts see these bytes.
#[derive(Drop)]
pub struct Id {
    name: Option<Vec<u8>>,
}

impl Model for Id {
    ghost use Rattle.amo_lines.specs.Object.{Name};
    ghost use Rattle.std.specs.Prelude.{option_map};

    ghost Value = { Name };

    ghost view = { λ i. option_map (λ v. v.items) i.name };
}

impl Id {
    /// None is given.
    pub fn none() -> Id
        ensures { result ≡ None }
    {
        Id { name: None }
    }

    /// The id in an object, if it has one that is short enough.
    pub(crate) fn of(alloc: Global, value: &Value<'_>) -> Result<Id, AllocError>
        ensures { IfOk result (λ id. id ≡ id_of (value_view value.now)) }
    {
        let Some(member) = value.get("id") else {
            return Ok(Id::none());
        };
        let Some(name) = member.as_str() else {
            return Ok(Id::none());
        };
        if name.len() > LONGEST_ID {
            return Ok(Id::none());
        }
        Ok(Id {
            name: Some(Vec::from_slice(alloc, name.as_bytes())?),
        })
    }

    /// Its bytes, if it is given.
    pub fn bytes(&self) -> Option<&[u8]>
        ensures { option_map (λ b. b.now) result ≡ self.now }
    {
        match &self.name {
            Some(name) => Some(name.as_slice()),
            None => None,
        }
    }
}
