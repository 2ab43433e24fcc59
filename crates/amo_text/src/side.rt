//! The sides of a stream, as one letter each.
ghost use Rattle.std.specs.Prelude.{◌≡◌, ◌≢◌, ◌++◌, IfSome, IfNone, OnOk};
ghost use Rattle.amo_object.specs.declared.step.End.{End};
ghost use Rattle.amo_text.specs.Side.{letter_of};

use amo_object::End;
use std::alloc::AllocError;

/// The side that this field names: `s` the sender, `r` the receiver.
pub fn read_side(field: &[u8]) -> Option<End>
    ensures found { IfSome result (λ side. field.now ≡ letter_of side) }
    ensures none { IfNone result ((side : End) → field.now ≢ letter_of side) }
{
    match field {
        b"s" => Some(End::Sender),
        b"r" => Some(End::Receiver),
        _ => None,
    }
}

/// Appends the letter of a side.
pub fn push_side(text: &mut Vec<u8>, side: End) -> Result<(), AllocError>
    ensures { OnOk result (text.new.items ≡ text.old.items ++ letter_of side) }
{
    text.extend_from_slice(match side {
        End::Sender => b"s",
        End::Receiver => b"r",
    })
}
