//! The token that a door wants.
ghost use Rattle.std.specs.Prelude.{◌≡◌, IsTrue, ◌↔◌, IfErr, IfOk, string_bytes};
ghost use Rattle.std.specs.List.{list_all};
ghost use Rattle.amo_client.specs.Fault.{IsOfTokenFile};
ghost use Rattle.amo_client.specs.Token.{IsToken, is_token_character};

use crate::fault::ClientFault;
use amo_disk::Cause;
use std::fs;
use std::fs::File;
use std::io::Read;
use std::rt::Files;

/// How many bytes of a file of a token are read at most: a longer one has none.
const MOST_OF_TOKEN: u64 = 512;

/// How long a token is.
const SHORTEST_TOKEN: usize = 16;

const LONGEST_TOKEN: usize = 256;

/// The token that stands in this file: one line, of 16 to 256 characters that a field of a request has. Refused where the file cannot be read, or has
/// none.
pub fn read_token<R: AllocGlobal + Files<File = File>>(
    rt: &R,
    path: &str,
) -> Result<String, ClientFault>
    ensures token { IfOk result (λ token. IsToken (string_bytes token)) }
    ensures refused { IfErr result (IsOfTokenFile path.now) }
{
    let alloc = rt.alloc();
    let file = match fs::open(rt, path) {
        Ok(file) => file,
        Err(error) => return Err(ClientFault::of_file(alloc, path, Cause::from(error))),
    };
    let mut text = String::new(alloc);
    match file.take(MOST_OF_TOKEN).read_to_string(&mut text) {
        Ok(_) => {}
        Err(error) => return Err(ClientFault::of_file(alloc, path, Cause::from(error))),
    }
    let token = text.as_str().trim_end();
    if !is_token(token.as_bytes()) {
        return Err(ClientFault::of_token(alloc, path));
    }
    Ok(String::from_str(alloc, token)?)
}

/// Whether this is a token: characters that a field of a request has (RFC 6750), enough of them, and not too many.
fn is_token(token: &[u8]) -> bool
    ensures { IsTrue result ↔ IsToken token.now }
{
    SHORTEST_TOKEN <= token.len() && token.len() <= LONGEST_TOKEN && has_token_characters(token)
}

/// Whether each byte is one that tokens have.
fn has_token_characters(token: &[u8]) -> bool
    ensures { result ≡ list_all is_token_character token.now }
{
    token.iter().all(|byte| is_token_character(*byte))
}

fn is_token_character(byte: u8) -> bool
    ensures { result ≡ is_token_character byte }
{
    byte.is_ascii_alphanumeric() || matches!(byte, b'-' | b'.' | b'_' | b'~' | b'+' | b'/' | b'=')
}
