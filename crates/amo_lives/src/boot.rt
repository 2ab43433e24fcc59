//! The id of a machine's start.
ghost use Rattle.std.specs.Prelude.{◌≡◌, ◌↔◌, IfSome, IsSome, IsTrue};
ghost use Rattle.amo_lives.specs.Boot.{IsBootId, fits};

use std::marker::Model;

/// The form of a UUID's text, with an x for each digit.
const FORM: [u8; 36] = *b"xxxxxxxx-xxxx-xxxx-xxxx-xxxxxxxxxxxx";

/// The id that a machine gives its start, as `/proc/sys/kernel/random/boot_id` of Linux shows it: a UUID as text (RFC 9562, section 4), in lower
/// case. Contracts see the text.
#[derive(Clone, Copy, Debug, PartialEq, Eq)]
pub struct BootId {
    text: [u8; 36],
}

impl Model for BootId {
    ghost use Rattle.std.specs.Prelude.{List, ℕ};
    ghost use Rattle.amo_lives.specs.Boot.{IsBootId};

    ghost Value = { List ℕ };

    ghost view = { λ id. id.text };

    ghost inverse = { λ text. record { text = text } };

    ghost invariant = { λ id. IsBootId id.text };
}

impl BootId {
    /// The id of which this is the text, with nothing behind it: the system's file has a line's end there.
    pub fn read(text: &[u8]) -> Option<BootId>
        ensures some { IsSome result ↔ IsBootId text.now }
        ensures found { IfSome result (λ id. id ≡ text.now) }
    {
        if !is_boot_id(text) {
            return None;
        }
        let mut copy = [0; 36];
        copy.copy_from_slice(text);
        Some(BootId { text: copy })
    }

    /// Its text.
    pub fn text(&self) -> &[u8]
        ensures text { result.now ≡ self.now }
        ensures form { IsBootId self.now }
    {
        &self.text
    }
}

/// Whether the text has that form.
fn is_boot_id(text: &[u8]) -> bool
    ensures { IsTrue result ↔ IsBootId text.now }
{
    if text.len() != FORM.len() {
        return false;
    }
    for place in 0..FORM.len() {
        if !fits(FORM[place], text[place]) {
            return false;
        }
    }
    true
}

/// Whether a byte fits that of the form.
fn fits(of: u8, byte: u8) -> bool
    ensures { result ≡ fits of byte }
{
    if of == b'x' {
        matches!(byte, b'0'..=b'9' | b'a'..=b'f')
    } else {
        byte == of
    }
}
