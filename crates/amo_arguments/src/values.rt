//! What the text of an argument has to be: a number within its limits, an address.
ghost use Rattle.std.specs.Prelude.{◌≡◌, ◌≢◌, ℕ, ◌<◌, ◌≤◌, ◌++◌, ◌∷◌, List, IfErr, IfNone, IfOk, IfSome, MatchOption, OnOk};
ghost use Rattle.std.specs.Fmt.{decimal};
ghost use Rattle.amo_text.specs.Line.{Lacks};
ghost use Rattle.amo_arguments.specs.Arguments.{BlamesIf};
ghost use Rattle.amo_arguments.specs.Chosen.{IsAddress};

use crate::refusal::Unfit;
use amo_text::{cut, read_decimal};
use std::alloc::Global;

/// The greatest port.
const PORTS: u64 = 65535;

/// What an address lacks.
#[derive(Clone, Copy)]
enum Lack {
    /// What stands before its colon.
    Host,
    /// Its colon, and what stands behind it.
    Colon,
    /// A port that it may have.
    Port,
}

/// The number that the text of an option spells, from `low` to `high`.
pub(crate) fn number_in(
    alloc: Global,
    name: &str,
    text: &str,
    low: u64,
    high: u64,
) -> Result<u64, Unfit>
    ensures number { IfOk result (λ n. (text.now ≡ decimal n) × (low ≤ n) × (n ≤ high)) }
    ensures refused { IfErr result (BlamesIf ((n : ℕ) → low ≤ n → n ≤ high → text.now ≢ decimal n)) }
{
    match read_number(text.as_bytes(), low, high) {
        Some(number) => Ok(number),
        None => Err(Unfit::Value(format!(in alloc;
            "--{name} {text}: give a number from {low} to {high}, without a sign or a leading zero"
        )?)),
    }
}

/// The number that this text spells, from `low` to `high`, if it spells one. A sign and a leading zero spell none.
fn read_number(text: &[u8], low: u64, high: u64) -> Option<u64>
    ensures found { IfSome result (λ n. (text.now ≡ decimal n) × (low ≤ n) × (n ≤ high)) }
    ensures none { IfNone result ((n : ℕ) → low ≤ n → n ≤ high → text.now ≢ decimal n) }
{
    match read_decimal(text) {
        Some(number) if low <= number && number <= high => Some(number),
        _ => None,
    }
}

/// Refuses the text of an option that is no address HOST:PORT, or has a port below `least`, with what to give. Such a host may be this one.
pub(crate) fn check_address(
    alloc: Global,
    name: &str,
    text: &str,
    host: &str,
    least: u64,
) -> Result<(), Unfit>
    ensures address { OnOk result (IsAddress least text.now) }
    ensures refused { IfErr result (BlamesIf (¬ (IsAddress least text.now))) }
{
    match lack_of(text.as_bytes(), least) {
        None => Ok(()),
        Some(Lack::Host) => Err(Unfit::Value(format!(in alloc;
            "--{name} {text}: give a host, as {host}{text}"
        )?)),
        Some(Lack::Colon) => Err(Unfit::Value(format!(in alloc;
            "--{name} {text}: give a port, as {text}:4800"
        )?)),
        Some(Lack::Port) => Err(Unfit::Value(format!(in alloc;
            "--{name} {text}: give a port from {least} to {PORTS}"
        )?)),
    }
}

/// What a text lacks to be an address with a port of `least` at least.
fn lack_of(text: &[u8], least: u64) -> Option<Lack>
    ensures { MatchOption result (IsAddress least text.now) (λ _. ¬ (IsAddress least text.now)) }
{
    let Some(port) = behind_last(text, b':') else {
        return Some(Lack::Colon);
    };
    let Some(_number) = read_number(port, least, PORTS) else {
        return Some(Lack::Port);
    };
    if text.len() <= port.len() + 1 {
        return Some(Lack::Host);
    }
    None
}

/// What stands behind the last such byte.
fn behind_last(text: &[u8], byte: u8) -> Option<&[u8]>
    ensures found { IfSome result (λ rest. (front : List ℕ) × (text.now ≡ front ++ byte ∷ rest.now)) }
    ensures last { IfSome result (λ rest. Lacks byte rest.now) }
    ensures none { IfNone result (Lacks byte text.now) }
{
    let Some((_front, mut rest)) = cut(text, byte) else {
        return None;
    };
    'bytes: while let Some((_more, further)) = cut(rest, byte) {
        rest = further;
    }
    Some(rest)
}

/// Refuses a longest interval that is shorter than the first one.
pub(crate) fn check_ceiling(alloc: Global, tick: u32, most: Option<u64>) -> Result<(), Unfit>
    ensures fits { OnOk result (IfSome most (λ most. tick ≤ most)) }
    ensures refused { IfErr result (BlamesIf ((ceiling : ℕ) × (most ≡ Some ceiling) × (ceiling < tick))) }
{
    let Some(most) = most else {
        return Ok(());
    };
    if u64::from(tick) <= most {
        return Ok(());
    }
    Err(Unfit::Value(format!(in alloc;
        "--tick-most {most}: give --tick, which is {tick}, or more"
    )?))
}

/// Refuses a host that would be its own peer: nothing ever comes of that.
pub(crate) fn check_apart(alloc: Global, listen: &str, peer: &str) -> Result<(), Unfit>
    ensures apart { OnOk result (listen.now ≢ peer.now) }
    ensures refused { IfErr result (BlamesIf (listen.now ≡ peer.now)) }
{
    if listen != peer {
        return Ok(());
    }
    Err(Unfit::Value(format!(in alloc;
        "--peer {peer}: it is the address of --listen: give the one where the other host listens"
    )?))
}
