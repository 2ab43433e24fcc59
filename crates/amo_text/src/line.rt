//! Lines of fields: single spaces between the fields, and a line feed at the end.
ghost use Rattle.std.specs.Prelude.{◌≡◌, ◌<◌, ◌++◌, ◌∷◌, length, IfSome, IfNone};
ghost use Rattle.amo_text.specs.Line.{Lacks};

use memchr::memchr;

/// What stands before the first such byte, and what stands after it.
pub fn cut(text: &[u8], byte: u8) -> Option<(&[u8], &[u8])>
    ensures found { IfSome result (λ parts. (text.now ≡ parts.0.now ++ byte ∷ parts.1.now) × Lacks byte parts.0.now) }
    ensures shorter { IfSome result (λ parts. length parts.1.now < length text.now) }
    ensures none { IfNone result (Lacks byte text.now) }
{
    for i in 0..text.len() {
        if text[i] == byte {
            return Some((&text[..i], &text[i + 1..]));
        }
    }
    None
}

/// The first line, without its end, and the lines after it.
pub fn next_line(text: &[u8]) -> Option<(&[u8], &[u8])>
    ensures found { IfSome result (λ parts. (text.now ≡ parts.0.now ++ 10 ∷ parts.1.now) × Lacks 10 parts.0.now) }
    ensures shorter { IfSome result (λ parts. length parts.1.now < length text.now) }
    ensures none { IfNone result (Lacks 10 text.now) }
{
    let end = memchr(b'\n', text)?;
    Some((&text[..end], &text[end + 1..]))
}

/// The first field and what stands behind the space after it, where there is a space. A field may be empty.
pub fn next_field(text: &[u8]) -> Option<(&[u8], &[u8])>
    ensures found { IfSome result (λ parts. (text.now ≡ parts.0.now ++ 32 ∷ parts.1.now) × Lacks 32 parts.0.now) }
    ensures none { IfNone result (Lacks 32 text.now) }
{
    cut(text, b' ')
}

/// The same, quicker where the field is long, as one in HEX.
pub fn next_long_field(text: &[u8]) -> Option<(&[u8], &[u8])>
    ensures found { IfSome result (λ parts. (text.now ≡ parts.0.now ++ 32 ∷ parts.1.now) × Lacks 32 parts.0.now) }
    ensures none { IfNone result (Lacks 32 text.now) }
{
    let end = memchr(b' ', text)?;
    Some((&text[..end], &text[end + 1..]))
}
