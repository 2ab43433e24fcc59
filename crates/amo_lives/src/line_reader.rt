//! Reads the lines of the file, without their ends.
ghost use Rattle.std.specs.Prelude.{◌≡◌, ◌≢◌, ℕ, ◌<◌, ◌^◌, ◌↔◌, Bool, Option, List, IfSome, IfNone, IsTrue};
ghost use Rattle.std.specs.List.{list_all};
ghost use Rattle.amo_object.specs.declared.step.End.{End};
ghost use Rattle.amo_text.specs.Hexadecimal.{hex, is_hex_digit};
ghost use Rattle.amo_text.specs.Items.{ReadsAs};
ghost use Rattle.amo_text.specs.Line.{text_of};
ghost use Rattle.amo_lives.specs.Boot.{IsBootId};
ghost use Rattle.amo_lives.specs.Fault.{BeginsHeading, title};
ghost use Rattle.amo_lives.specs.Life.{IsKey, InRange, heading_fields, fields_of, tag_field, boot_field, sync_field};

use crate::{BootId, Life};
use amo_object::End;
use amo_text::{next_field, read_decimal, read_hex, read_side};

/// What stands in front of the side: what the file is, and its version.
pub(crate) const TITLE: &[u8] = b"amo lives 1 ";

/// What a heading tells: the side of the host, and the key of its words.
#[derive(Drop)]
pub(crate) struct Heading {
    pub(crate) side: End,
    pub(crate) key: [u8; 16],
}

/// The heading of which this is the text.
pub(crate) fn read_heading(text: &[u8]) -> Option<Heading>
    ensures found { IfSome result (λ h. IsKey h.key × (text.now ≡ text_of (heading_fields h.side h.key))) }
    ensures none { IfNone result ((side : End) (key : List ℕ) → IsKey key → text.now ≢ text_of (heading_fields side key)) }
{
    let rest = text.strip_prefix(TITLE)?;
    let (side, key) = next_field(rest)?;
    let side = read_side(side)?;
    let key = read_key(key)?;
    Some(Heading { side, key })
}

/// Whether the heading of this side may begin so, in front of its end.
pub(crate) fn begins_heading(side: End, text: &[u8]) -> bool
    ensures { IsTrue result ↔ BeginsHeading side text.now }
{
    let title = title_of(side);
    match text.strip_prefix(title) {
        Some(digits) => digits.len() <= 32 && are_digits(digits),
        None => title.starts_with(text),
    }
}

/// What stands in front of the key in the heading of this side.
fn title_of(side: End) -> &'static [u8]
    ensures { result.now ≡ title side }
{
    match side {
        End::Sender => b"amo lives 1 s ",
        End::Receiver => b"amo lives 1 r ",
    }
}

/// Whether each byte is a digit of HEX.
fn are_digits(text: &[u8]) -> bool
    ensures { result ≡ list_all is_hex_digit text.now }
{
    text.iter()
        .all(|byte| matches!(*byte, b'0'..=b'9' | b'a'..=b'f'))
}

/// The key that this field spells.
fn read_key(field: &[u8]) -> Option<[u8; 16]>
    ensures found { IfSome result (λ key. IsKey key × (field.now ≡ hex key)) }
    ensures none { IfNone result ((key : List ℕ) → IsKey key → field.now ≢ hex key) }
{
    let mut room = [0; 16];
    let count = read_hex(field, &mut room)?;
    if count == 16 { Some(room) } else { None }
}

/// The life of whose line this is the text; none where it is that of no life.
pub(crate) fn read_life(text: &[u8]) -> Option<Life>
    ensures { ReadsAs fields_of InRange text.now result }
{
    let (tag, rest) = next_field(text)?;
    let (first_line, rest) = next_field(rest)?;
    let (boot, sync) = next_field(rest)?;
    let tag = read_tag(tag)?;
    let first_line = read_decimal(first_line)?;
    let boot = read_boot(boot)?;
    let sync = read_sync(sync)?;
    Some(Life {
        tag,
        first_line,
        boot,
        sync,
    })
}

/// The tag that this field spells.
fn read_tag(field: &[u8]) -> Option<u32>
    ensures found { IfSome result (λ tag. (tag < 2 ^ 32) × (field.now ≡ tag_field tag)) }
    ensures none { IfNone result ((tag : ℕ) → tag < 2 ^ 32 → field.now ≢ tag_field tag) }
{
    let mut room = [0; 4];
    let count = read_hex(field, &mut room)?;
    if count == 4 {
        Some(u32::from_be_bytes(room))
    } else {
        None
    }
}

/// The machine's start that this field tells, or that it is not known.
fn read_boot(field: &[u8]) -> Option<Option<BootId>>
    ensures found { IfSome result (λ boot. IfSome boot IsBootId × (field.now ≡ boot_field boot)) }
    ensures none { IfNone result ((boot : Option (List ℕ)) → IfSome boot IsBootId → field.now ≢ boot_field boot) }
{
    if field == b"unknown".as_slice() {
        return Some(None);
    }
    let id = BootId::read(field)?;
    Some(Some(id))
}

/// Whether this field says that the journal was put on its disk.
fn read_sync(field: &[u8]) -> Option<bool>
    ensures found { IfSome result (λ sync. field.now ≡ sync_field sync) }
    ensures none { IfNone result ((sync : Bool) → field.now ≢ sync_field sync) }
{
    match field {
        b"sync" => Some(true),
        b"nosync" => Some(false),
        _ => None,
    }
}
