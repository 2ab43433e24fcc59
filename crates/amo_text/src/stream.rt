//! The numbers of streams.
ghost use Rattle.std.specs.Prelude.{◌≡◌, ◌≢◌, ℕ, ◌∷◌, ◌++◌, List, IfSome, IfNone};
ghost use Rattle.std.specs.Fmt.{decimal};
ghost use Rattle.amo_packet.specs.Stream.{IsStream};

use crate::{next_decimal, read_decimal};
use amo_packet::STREAMS;

/// The stream that this field names, from 1 to [`STREAMS`].
pub fn read_stream(field: &[u8]) -> Option<u32>
    ensures found { IfSome result (λ stream. IsStream stream × (field.now ≡ decimal stream)) }
    ensures none { IfNone result ((stream : ℕ) → IsStream stream → field.now ≢ decimal stream) }
{
    stream_of(read_decimal(field)?)
}

/// The stream in front, and what stands behind the space after it.
pub fn next_stream(text: &[u8]) -> Option<(u32, &[u8])>
    ensures found { IfSome result (λ s. IsStream s.0 × (text.now ≡ decimal s.0 ++ 32 ∷ s.1.now)) }
    ensures none { IfNone result ((stream : ℕ) (rest : List ℕ) → IsStream stream → text.now ≢ decimal stream ++ 32 ∷ rest) }
{
    let (number, rest) = next_decimal(text)?;
    Some((stream_of(number)?, rest))
}

/// The stream of this number, if it is one's.
fn stream_of(number: u64) -> Option<u32>
    ensures found { IfSome result (λ stream. IsStream stream × (number ≡ stream)) }
    ensures none { IfNone result (¬ (IsStream number)) }
{
    if 1 <= number && number <= STREAMS as u64 {
        Some(number as u32)
    } else {
        None
    }
}
