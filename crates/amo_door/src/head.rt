//! What the head of a request says.
ghost use Rattle.std.specs.Prelude.{◌≡◌, ◌≤◌, All, length, map, option_copied};
ghost use Rattle.std.specs.Str.{str_eq_ignore_ascii_case};
ghost use Rattle.httparse.specs.Spans.{IsHeaderWithin, IsRequestWithin, header_bytes, span_bytes};
ghost use Rattle.http1.specs.ServerTrace.{headers_at};
ghost use Rattle.amo_door.specs.Head.{IsBehind, field_of, opens_page, says, site_of};
ghost use Rattle.amo_door.specs.Requests.{ReadsAs};

use crate::{Call, Credentials, Guard, Method, Refusal, Routes, Served};
use amo_text::read_decimal;
use http1::ReadError;
use httparse::spans::{HeaderSpan, RequestSpans};

/// What a door needs to read requests.
#[derive(Clone, Copy)]
pub struct Reader<'a> {
    /// The paths of its places.
    pub routes: &'a Routes,
    /// Who may ask.
    pub guard: &'a Guard,
    /// What the host serves.
    pub served: Served,
}

/// The call that the head of a request makes, or why it is refused.
pub(crate) fn read_head(
    reader: &Reader<'_>,
    input: &[u8],
    head: &RequestSpans,
    spans: &[HeaderSpan],
) -> Result<Call, Refusal>
    requires { IsRequestWithin input.now spans.now head.now }
    ensures { ReadsAs reader.now (span_bytes input.now head.now.method) (span_bytes input.now head.now.path) (headers_at input.now spans.now head.now.headers) result }
{
    let fields = &spans[..head.headers];
    let (method, path) = (head.method.of(input), head.path.of(input));
    let credentials = Credentials {
        host: field(input, fields, b"host"),
        origin: field(input, fields, b"origin"),
        site: site(input, fields, method, path),
        authorization: field(input, fields, b"authorization"),
    };
    reader.guard.check(&credentials)?;
    match Call::read(reader.routes, reader.served, Method::read(method), path) {
        Ok(Call::Events { after }) => Ok(Call::Events {
            after: line_behind(field(input, fields, b"last-event-id"), after),
        }),
        // A part of a message is no message (RFC 9110, section 14.5).
        Ok(Call::Put(_) | Call::PutNext { .. })
            if field(input, fields, b"content-range").is_some() => { Err(Refusal::Unreadable) }
        read => read,
    }
}

/// How far away the page is that has a browser ask, where that counts.
fn site<'a>(input: &'a [u8], fields: &[HeaderSpan], method: &[u8], path: &[u8]) -> Option<&'a [u8]>
    requires { All (IsHeaderWithin (length input.now)) fields.now }
    ensures { option_copied result ≡ site_of method.now path.now (map (header_bytes input.now) fields.now) }
{
    let site = field(input, fields, b"sec-fetch-site")?;
    let mode = field(input, fields, b"sec-fetch-mode");
    let destination = field(input, fields, b"sec-fetch-dest");
    if opens_page(method, path, mode, destination) {
        return None;
    }
    Some(site)
}

/// Whether a browser opens the door's own page in a window, and in no frame: a link to it may stand on any site (Fetch Metadata Request Headers, section 2).
fn opens_page(method: &[u8], path: &[u8], mode: Option<&[u8]>, destination: Option<&[u8]>) -> bool
    ensures { result ≡ opens_page method.now path.now (option_copied mode.entry) (option_copied destination.entry) }
{
    method == b"GET".as_slice()
        && path == b"/".as_slice()
        && says(mode, b"navigate")
        && says(destination, b"document")
}

/// Whether a field is there, and has this value.
fn says(field: Option<&[u8]>, value: &[u8]) -> bool
    ensures { result ≡ says (option_copied field.entry) value.now }
{
    match field {
        Some(text) => text == value,
        None => false,
    }
}

/// The line behind which those who follow are told: a browser that comes again says which event it was told last, and asks for the same target as before
/// (the HTML standard, section 9.2). So the field counts where it is the number of a line, and else what the query has.
fn line_behind(field: Option<&[u8]>, after: Option<u64>) -> Option<u64>
    ensures { IsBehind (option_copied field.entry) after result }
{
    let Some(text) = field else {
        return after;
    };
    match read_decimal(text) {
        Some(line) => Some(line),
        None => after,
    }
}

/// What the first field of this name has.
fn field<'a>(input: &'a [u8], fields: &[HeaderSpan], name: &[u8]) -> Option<&'a [u8]>
    requires { All (IsHeaderWithin (length input.now)) fields.now }
    ensures { option_copied result ≡ field_of name.now (map (header_bytes input.now) fields.now) }
{
    for field in fields {
        if is_same_name(field.name.of(input), name) {
            return Some(field.value.of(input));
        }
    }
    None
}

/// Whether two names are one: they are the same in capitals.
fn is_same_name(one: &[u8], other: &[u8]) -> bool
    ensures { result ≡ str_eq_ignore_ascii_case one.now other.now }
{
    one.eq_ignore_ascii_case(other)
}

/// Why a request that does not read is refused.
pub(crate) fn refusal_of(error: ReadError) -> Refusal {
    match error.status() {
        414 => Refusal::LongTarget,
        431 => Refusal::LongHead,
        _ => Refusal::Unreadable,
    }
}
