//! Reads the program's arguments.
ghost use Rattle.std.specs.Prelude.{◌≡◌, ◌≢◌, ◌≤◌, ◌&&◌, ◌||◌, codes, false, true, if◌then◌else◌, None, Some, IfErr, IfNone, IfOk, IfSome, IsErrOf, MatchResult, OnOk, map, option_map, string_bytes};
ghost use Rattle.clap.specs.Words.{first_of, found_of, rows_of, subcommand_rows_of};
ghost use Rattle.amo_text.specs.Hexadecimal.{hex};
ghost use Rattle.amo_settings.specs.Limits.{IsWithin};
ghost use Rattle.amo_arguments.specs.Arguments.{AreTaken, Finds, FindsNone, IsRefusalOf, IsToldOf, RefusesIf};
ghost use Rattle.amo_arguments.specs.Chosen.{Chooses, ChoosesBy, HasAddress, HasCall, HasDoorCall, HasFlag, HasGot, HasHost, HasJournal, HasNoMore, HasNoSeed, HasCeiling, HasNumberIn, HasNumberOrNoneIn, HasOutcomes, HasReceive, HasRun, HasSend, HasServe, HasServedHost, HasSide, HasState, HasStream, HasText, HasTextOrNone, HasValuesOf, IsKept, LacksSeed, Matches, MeetsSeedless, SendsOrReceives, Suits, SuitsNone, call_name, link_name, shell_name};

use crate::ArgumentsFault;
use crate::commands::{
    CLIENTS, CRASHES, LEAST_PIECE, PIECE, PUMPS, STATS, STREAMS, TICK, TICK_MOST, WAIT, command,
};
use crate::refusal::{Refusal, Unfit, blamed, told};
use crate::values::{check_address, check_apart, check_ceiling, number_in};
use amo_settings::{
    CallSettings, DoorCall, GotSettings, HostSettings, LinkKind, OutcomesSettings, ReceiveSettings,
    RunSettings, SendSettings, ServeSettings, ServedSide, Settings, Shell,
};
use amo_text::laws::hex_is_injective;
use amo_text::read_hex;
use clap::ArgMatches;
use std::alloc::{AllocError, Global};

/// Reads the arguments, the program's name first.
#[tactic(auto, using(crate::proofs::Within::within))]
pub fn settings(alloc: Global, arguments: Vec<String>) -> Result<Settings, ArgumentsFault>
    // The command and its values are those of the match that `clap` defines for these arguments, each within its limits.
    ensures chosen { IfOk result (λ chosen. Chooses (map string_bytes arguments.items) chosen) }
    ensures within { IfOk result IsWithin }
    // Arguments are refused where `clap` refuses them, with the status of what is told; else only where no settings have their values, where
    // a run has no seed, or where there was no memory.
    ensures refused { MatchResult result (λ _. AreTaken (map string_bytes arguments.items)) (IsToldOf (map string_bytes arguments.items)) }
    // A seed is blamed only where all else is right, and it is no seed.
    ensures seed { IsErrOf result ArgumentsFault.Seed → LacksSeed (map string_bytes arguments.items) }
{
    match choose(alloc, arguments.as_slice()) {
        Ok(Some(settings)) => Ok(settings),
        Ok(None) => Err(ArgumentsFault::Seed),
        Err(refusal) => Err(told(alloc, &refusal)),
    }
}

/// The settings that the arguments choose; none where they have no seed for a run.
fn choose(alloc: Global, arguments: &[String]) -> Result<Option<Settings>, Refusal>
    ensures chosen { IfOk result (λ chosen. IfSome chosen (Chooses (map string_bytes arguments.now))) }
    ensures seed { IfOk result (λ chosen. IfNone chosen (LacksSeed (map string_bytes arguments.now))) }
    ensures refused { MatchResult result (λ _. AreTaken (map string_bytes arguments.now)) (IsRefusalOf (map string_bytes arguments.now)) }
{
    let matches = matches_of(alloc, arguments)?;
    match parse(alloc, &matches) {
        Ok(chosen) => Ok(chosen),
        Err(unfit) => Err(Refusal::Unfit(unfit)),
    }
}

/// The settings that a match chooses; none where it has no seed for a run.
fn parse(alloc: Global, matches: &ArgMatches<'_>) -> Result<Option<Settings>, Unfit>
    ensures chosen { IfOk result (λ chosen. IfSome chosen (ChoosesBy (subcommand_rows_of matches.now))) }
    ensures seed { IfOk result (λ chosen. IfNone chosen (MeetsSeedless (subcommand_rows_of matches.now))) }
    ensures refused { IfErr result (FindsNone (Suits (subcommand_rows_of matches.now))) }
{
    let Some((name, own)) = met_of(matches) else {
        return Err(Unfit::Absent);
    };
    if name == "run" {
        return parse_run(alloc, own);
    }
    match parse_met(alloc, name, own) {
        Ok(settings) => Ok(Some(settings)),
        Err(unfit) => Err(unfit),
    }
}

/// The command that a match has, with the matches of its own.
fn met_of<'a, 'm>(matches: &'m ArgMatches<'a>) -> Option<(&'a str, &'m ArgMatches<'a>)>
    ensures { option_map (λ met. (met.0.now, rows_of (found_of met.1.now))) result ≡ subcommand_rows_of matches.now }
{
    matches.subcommand()
}

/// The settings that the arguments of the command of this name choose, which is another one than `run`.
fn parse_met(alloc: Global, name: &str, matches: &ArgMatches<'_>) -> Result<Settings, Unfit>
    ensures chosen { IfOk result (ChoosesBy (Some (name.now, rows_of (found_of matches.now)))) }
    ensures refused { IfErr result (RefusesIf (name.now ≢ codes "run" → SuitsNone (Some (name.now, rows_of (found_of matches.now))))) }
{
    match name {
        "send" => parse_send(alloc, matches),
        "receive" => parse_receive(alloc, matches),
        "stop" => Ok(Settings::Stop(text_of(alloc, matches, "FILE")?)),
        "serve" => parse_serve(alloc, matches),
        "call" => parse_call(alloc, matches),
        "replay" => Ok(Settings::Replay(text_of(alloc, matches, "FILE")?)),
        "audit" => {
            let (file, second) = files_of(alloc, matches)?;
            Ok(Settings::Audit(file, second))
        }
        "explain" => {
            let (file, second) = files_of(alloc, matches)?;
            Ok(Settings::Explain(file, second))
        }
        "outcomes" => parse_outcomes(alloc, matches),
        "got" => parse_got(alloc, matches),
        "man" => Ok(Settings::Manual),
        "completions" => Ok(Settings::Completions(shell_of(alloc, matches)?)),
        _ => Err(Unfit::Absent),
    }
}

/// The match of the arguments.
fn matches_of<'a>(alloc: Global, arguments: &'a [String]) -> Result<ArgMatches<'a>, Refusal>
    ensures matches { IfOk result (Matches (map string_bytes arguments.entry.now)) }
    ensures refused { MatchResult result (λ _. AreTaken (map string_bytes arguments.entry.now)) (IsRefusalOf (map string_bytes arguments.entry.now)) }
{
    let command = match command(alloc) {
        Ok(command) => command,
        Err(AllocError) => return Err(Refusal::Unfit(Unfit::NoMemory)),
    };
    match command.try_get_matches_from(arguments) {
        Ok(matches) => Ok(matches),
        Err(error) => Err(Refusal::ByParser(error)),
    }
}

/// The settings that the arguments of `run` choose; none where they have no seed.
fn parse_run(alloc: Global, matches: &ArgMatches<'_>) -> Result<Option<Settings>, Unfit>
    ensures chosen { IfOk result (λ chosen. IfSome chosen (ChoosesBy (Some (codes "run", rows_of (found_of matches.now))))) }
    ensures seed { IfOk result (λ chosen. IfNone chosen (MeetsSeedless (Some (codes "run", rows_of (found_of matches.now))))) }
    ensures refused { IfErr result (FindsNone (HasRun (rows_of (found_of matches.now)))) }
{
    let streams = number_of(alloc, matches, "streams", 1, STREAMS)?;
    let clients = number_of(alloc, matches, "clients", 1, CLIENTS)?;
    let crashes = number_of(alloc, matches, "crashes", 0, CRASHES)?;
    let link = link_of(alloc, matches)?;
    let journal = journal_of(alloc, matches)?;
    let pumps = number_of(alloc, matches, "pumps", 1, PUMPS)?;
    let split = flag_of(alloc, matches, "split")?;
    let batch = flag_of(alloc, matches, "batch")?;
    let Some(seed) = seed_of(matches) else {
        return Ok(None);
    };
    let settings = RunSettings {
        streams,
        clients,
        crashes,
        seed,
        link,
        pumps,
        split,
        batch,
    };
    let journal = String::from_str(alloc, journal)?;
    Ok(Some(Settings::Run(settings, journal)))
}

/// The settings that the arguments of `send` choose.
fn parse_send(alloc: Global, matches: &ArgMatches<'_>) -> Result<Settings, Unfit>
    ensures chosen { IfOk result (ChoosesBy (Some (codes "send", rows_of (found_of matches.now)))) }
    ensures refused { IfErr result (FindsNone (HasSend (rows_of (found_of matches.now)))) }
{
    let each = flag_of(alloc, matches, "each")?;
    let many = flag_of(alloc, matches, "many")?;
    let batch = flag_of(alloc, matches, "batch")?;
    let hex = flag_of(alloc, matches, "hex")?;
    let host = parse_host(alloc, matches)?;
    check_each(each, many, batch)?;
    Ok(Settings::Send(SendSettings {
        host,
        each: !many && !batch,
        batch,
        hex,
    }))
}

/// Refuses flags of `send` that contradict each other.
fn check_each(each: bool, many: bool, batch: bool) -> Result<(), Unfit>
    ensures apart { OnOk result ((each && (many || batch)) ≡ false) }
    ensures refused { IfErr result (RefusesIf ((each && (many || batch)) ≡ true)) }
{
    if each && batch {
        return Err(Unfit::EachAndBatch);
    }
    if each && many {
        return Err(Unfit::EachAndMany);
    }
    Ok(())
}

/// The settings that the arguments of `receive` choose.
fn parse_receive(alloc: Global, matches: &ArgMatches<'_>) -> Result<Settings, Unfit>
    ensures chosen { IfOk result (ChoosesBy (Some (codes "receive", rows_of (found_of matches.now)))) }
    ensures refused { IfErr result (FindsNone (HasReceive (rows_of (found_of matches.now)))) }
{
    let host = parse_host(alloc, matches)?;
    let count = number_or_none_of(alloc, matches, "count", 1, u64::MAX)?;
    Ok(Settings::Receive(ReceiveSettings { host, count }))
}

/// The settings that the arguments of `serve` choose.
fn parse_serve(alloc: Global, matches: &ArgMatches<'_>) -> Result<Settings, Unfit>
    ensures chosen { IfOk result (ChoosesBy (Some (codes "serve", rows_of (found_of matches.now)))) }
    ensures refused { IfErr result (FindsNone (HasServe (rows_of (found_of matches.now)))) }
{
    let side = parse_side(alloc, matches)?;
    let (door, token_file) = door_of(alloc, matches, 0)?;
    Ok(Settings::Serve(ServeSettings {
        side,
        door,
        token_file,
    }))
}

/// The address of a door, with a port of `least` at least, and the name of its token's file, if it has one.
fn door_of(
    alloc: Global,
    matches: &ArgMatches<'_>,
    least: u64,
) -> Result<(String, Option<String>), Unfit>
    ensures address { IfOk result (λ door. HasAddress (rows_of (found_of matches.now)) (codes "door") least (string_bytes door.0)) }
    ensures token { IfOk result (λ door. HasTextOrNone (rows_of (found_of matches.now)) (codes "token-file") (option_map string_bytes door.1)) }
    ensures refused { IfErr result (FindsNone (HasAddress (rows_of (found_of matches.now)) (codes "door") least)) }
{
    let address = address_of(alloc, matches, "door", "127.0.0.1", least)?;
    let door = String::from_str(alloc, address)?;
    let token_file = text_or_none_of(alloc, matches, "token-file")?;
    Ok((door, token_file))
}

/// The side that the arguments of `serve` choose, with what its host is told.
fn parse_side(alloc: Global, matches: &ArgMatches<'_>) -> Result<ServedSide, Unfit>
    ensures { Finds result (HasSide (rows_of (found_of matches.now))) }
{
    let batch = flag_of(alloc, matches, "batch")?;
    let host = parse_served_host(alloc, matches)?;
    if is_sender(alloc, matches, batch)? {
        Ok(ServedSide::Send(SendSettings {
            host,
            each: false,
            batch,
            hex: false,
        }))
    } else {
        Ok(ServedSide::Receive(ReceiveSettings { host, count: None }))
    }
}

/// Whether a host with a door sends, and does not receive, which goes without `--batch`.
fn is_sender(alloc: Global, matches: &ArgMatches<'_>, batch: bool) -> Result<bool, Unfit>
    ensures { Finds result (SendsOrReceives (rows_of (found_of matches.now)) batch) }
{
    match matches.get_str("side") {
        Some("send") => Ok(true),
        Some("receive") if !batch => Ok(false),
        Some("receive") => Err(blamed(String::from_str(
            alloc,
            "--batch is of a host that sends: one that receives takes batches as they come",
        ))),
        Some(side) => Err(blamed(format!(in alloc; "--side {side}: give send or receive"))),
        None => Err(Unfit::Absent),
    }
}

/// The settings that the options choose which every host has, also one with a door.
fn parse_served_host(alloc: Global, matches: &ArgMatches<'_>) -> Result<HostSettings, Unfit>
    ensures { Finds result (HasServedHost (rows_of (found_of matches.now))) }
{
    let listen = address_of(alloc, matches, "listen", "0.0.0.0", 0)?;
    let peer = address_of(alloc, matches, "peer", "127.0.0.1", 1)?;
    check_apart(alloc, listen, peer)?;
    let streams = number_of(alloc, matches, "streams", 1, STREAMS)?;
    let journal = journal_of(alloc, matches)?;
    let tick = number_of(alloc, matches, "tick", 1, TICK)?;
    let tick_most = tick_most_of(alloc, matches, tick)?;
    let sync = flag_of(alloc, matches, "sync")?;
    let wait = number_or_none_of(alloc, matches, "wait", 0, WAIT)?;
    let piece = number_or_none_of(alloc, matches, "piece", LEAST_PIECE, PIECE)?;
    Ok(HostSettings {
        listen: String::from_str(alloc, listen)?,
        peer: String::from_str(alloc, peer)?,
        streams,
        journal: String::from_str(alloc, journal)?,
        tick,
        tick_most,
        json: false,
        sync,
        piece,
        wait,
        stats: None,
    })
}

/// The settings that the arguments of `call` choose.
fn parse_call(alloc: Global, matches: &ArgMatches<'_>) -> Result<Settings, Unfit>
    ensures chosen { IfOk result (ChoosesBy (Some (codes "call", rows_of (found_of matches.now)))) }
    ensures refused { IfErr result (FindsNone (HasCall (rows_of (found_of matches.now)))) }
{
    let hex = flag_of(alloc, matches, "hex")?;
    let call = parse_door_call(alloc, matches)?;
    let (door, token_file) = door_of(alloc, matches, 1)?;
    let wait = number_or_none_of(alloc, matches, "wait", 0, WAIT)?;
    Ok(Settings::Call(CallSettings {
        call,
        door,
        token_file,
        wait,
        hex,
    }))
}

/// The call of a door that the arguments of `call` choose.
fn parse_door_call(alloc: Global, matches: &ArgMatches<'_>) -> Result<DoorCall, Unfit>
    ensures { Finds result (HasDoorCall (rows_of (found_of matches.now))) }
{
    let Some(name) = value_of(matches, "CALL") else {
        return Err(Unfit::Absent);
    };
    let call = door_call_of(alloc, matches, name)?;
    check_no_more(alloc, matches, name)?;
    Ok(call)
}

/// The call of a door of this name.
fn door_call_of(alloc: Global, matches: &ArgMatches<'_>, call: &str) -> Result<DoorCall, Unfit>
    ensures { Finds result (λ found. (call.now ≡ call_name found) × HasValuesOf (rows_of (found_of matches.now)) found) }
{
    match call {
        "put" => {
            let (stream, state) = kept_of(alloc, matches)?;
            let message = text_or_none_of(alloc, matches, "MESSAGE")?;
            Ok(DoorCall::Put {
                stream,
                state,
                message,
            })
        }
        "get" => {
            let (stream, state) = kept_of(alloc, matches)?;
            Ok(DoorCall::Get { stream, state })
        }
        "done" => {
            let (stream, state) = kept_of(alloc, matches)?;
            Ok(DoorCall::Done { stream, state })
        }
        "status" => {
            let stream = stream_of(alloc, matches)?;
            Ok(DoorCall::Status { stream })
        }
        "watch" => {
            let after = number_or_none_of(alloc, matches, "after", 0, u64::MAX)?;
            Ok(DoorCall::Watch { after })
        }
        _ => Err(blamed(format!(in alloc; "call {call}: give put, get, done, status or watch"))),
    }
}

/// That nothing is there which a call of this name has no use for.
fn check_no_more(alloc: Global, matches: &ArgMatches<'_>, call: &str) -> Result<(), Unfit>
    ensures fits { OnOk result (HasNoMore (rows_of (found_of matches.now)) call.now) }
    ensures refused { IfErr result (RefusesIf (¬ (HasNoMore (rows_of (found_of matches.now)) call.now))) }
{
    check_unused(alloc, matches, call, "MESSAGE", call == "put")?;
    check_unused(alloc, matches, call, "after", call == "watch")?;
    check_unused(alloc, matches, call, "stream", call != "watch")?;
    check_unused(
        alloc,
        matches,
        call,
        "state",
        call != "watch" && call != "status",
    )
}

/// That an argument is not there, unless the call of this name uses it.
fn check_unused(
    alloc: Global,
    matches: &ArgMatches<'_>,
    call: &str,
    name: &str,
    is_used: bool,
) -> Result<(), Unfit>
    ensures fits { OnOk result (is_used ≡ false → HasTextOrNone (rows_of (found_of matches.now)) name.now None) }
    ensures refused { IfErr result (RefusesIf ((is_used ≡ false) × ¬ (HasTextOrNone (rows_of (found_of matches.now)) name.now None))) }
{
    if is_used || value_of(matches, name).is_none() {
        return Ok(());
    }
    let dashes = if name == "MESSAGE" { "" } else { "--" };
    Err(blamed(format!(in alloc; "call {call} takes no {dashes}{name}")))
}

/// The stream of a call that a file keeps, and that file's name.
fn kept_of(alloc: Global, matches: &ArgMatches<'_>) -> Result<(u32, String), Unfit>
    ensures kept { IfOk result (λ kept. IsKept (rows_of (found_of matches.now)) (kept.0, string_bytes kept.1)) }
    ensures refused { IfErr result (FindsNone (IsKept (rows_of (found_of matches.now)))) }
{
    let stream = stream_of(alloc, matches)?;
    let state = String::from_str(alloc, state_of(alloc, matches)?)?;
    Ok((stream, state))
}

/// The stream that a call of a door is about.
fn stream_of(alloc: Global, matches: &ArgMatches<'_>) -> Result<u32, Unfit>
    ensures { Finds result (HasStream (rows_of (found_of matches.now))) }
{
    if value_of(matches, "stream").is_none() {
        return Err(blamed(String::from_str(
            alloc,
            "--stream is not there: give the number of the stream",
        )));
    }
    number_of(alloc, matches, "stream", 1, STREAMS)
}

/// The name of the file that keeps a call of a door.
fn state_of<'a>(alloc: Global, matches: &ArgMatches<'a>) -> Result<&'a str, Unfit>
    ensures file { IfOk result (λ file. HasState (rows_of (found_of matches.now)) file.now) }
    ensures refused { IfErr result (FindsNone (HasState (rows_of (found_of matches.now)))) }
{
    match value_of(matches, "state") {
        Some(file) if !file.is_empty() => Ok(file),
        Some(_) => Err(blamed(String::from_str(
            alloc,
            "--state has no text: give the name of a file that keeps the call",
        ))),
        None => Err(blamed(String::from_str(
            alloc,
            "--state is not there: give the name of a file that keeps the call",
        ))),
    }
}

/// The settings that the arguments of `outcomes` choose.
fn parse_outcomes(alloc: Global, matches: &ArgMatches<'_>) -> Result<Settings, Unfit>
    ensures chosen { IfOk result (ChoosesBy (Some (codes "outcomes", rows_of (found_of matches.now)))) }
    ensures refused { IfErr result (FindsNone (HasOutcomes (rows_of (found_of matches.now)))) }
{
    let open = flag_of(alloc, matches, "open")?;
    let gone = flag_of(alloc, matches, "gone")?;
    let json = flag_of(alloc, matches, "json")?;
    let (first, second) = files_of(alloc, matches)?;
    Ok(Settings::Outcomes(OutcomesSettings {
        first,
        second,
        open,
        gone,
        json,
    }))
}

/// The settings that the arguments of `got` choose.
fn parse_got(alloc: Global, matches: &ArgMatches<'_>) -> Result<Settings, Unfit>
    ensures chosen { IfOk result (ChoosesBy (Some (codes "got", rows_of (found_of matches.now)))) }
    ensures refused { IfErr result (FindsNone (HasGot (rows_of (found_of matches.now)))) }
{
    let after = number_or_none_of(alloc, matches, "after", 0, u64::MAX)?;
    let follow = flag_of(alloc, matches, "follow")?;
    let json = flag_of(alloc, matches, "json")?;
    let file = text_of(alloc, matches, "FILE")?;
    Ok(Settings::Got(GotSettings {
        file,
        after,
        follow,
        json,
    }))
}

/// The settings that the options choose which a host has on either side.
fn parse_host(alloc: Global, matches: &ArgMatches<'_>) -> Result<HostSettings, Unfit>
    ensures { Finds result (HasHost (rows_of (found_of matches.now))) }
{
    let json = flag_of(alloc, matches, "json")?;
    let plain = parse_served_host(alloc, matches)?;
    let stats = number_or_none_of(alloc, matches, "stats", 1, STATS)?;
    Ok(HostSettings {
        json,
        stats,
        ..plain
    })
}

/// The longest interval of a host whose first one is `tick`.
fn tick_most_of(alloc: Global, matches: &ArgMatches<'_>, tick: u32) -> Result<Option<u64>, Unfit>
    ensures { Finds result (HasCeiling (rows_of (found_of matches.now)) tick) }
{
    let most = number_or_none_of(alloc, matches, "tick-most", 1, TICK_MOST)?;
    check_ceiling(alloc, tick, most)?;
    Ok(most)
}

/// The text of an argument of a command.
fn text_of(alloc: Global, matches: &ArgMatches<'_>, name: &str) -> Result<String, Unfit>
    ensures text { IfOk result (λ text. HasText (rows_of (found_of matches.now)) name.now (string_bytes text)) }
    ensures refused { IfErr result (FindsNone (HasText (rows_of (found_of matches.now)) name.now)) }
{
    match matches.get_str(name) {
        Some(text) => Ok(String::from_str(alloc, text)?),
        None => Err(Unfit::Absent),
    }
}

/// The text of an argument that is an address, HOST:PORT, with a port of `least` at least. Where it lacks its host, `host` may be given.
fn address_of<'a>(
    alloc: Global,
    matches: &ArgMatches<'a>,
    name: &str,
    host: &str,
    least: u64,
) -> Result<&'a str, Unfit>
    ensures address { IfOk result (λ text. HasAddress (rows_of (found_of matches.now)) name.now least text.now) }
    ensures refused { IfErr result (FindsNone (HasAddress (rows_of (found_of matches.now)) name.now least)) }
{
    let Some(text) = value_of(matches, name) else {
        return Err(Unfit::Absent);
    };
    check_address(alloc, name, text, host, least)?;
    Ok(text)
}

/// The name of the journal's file.
fn journal_of<'a>(alloc: Global, matches: &ArgMatches<'a>) -> Result<&'a str, Unfit>
    ensures file { IfOk result (λ file. HasJournal (rows_of (found_of matches.now)) file.now) }
    ensures refused { IfErr result (FindsNone (HasJournal (rows_of (found_of matches.now)))) }
{
    let Some(file) = value_of(matches, "journal") else {
        return Err(Unfit::Absent);
    };
    if file.is_empty() {
        return Err(blamed(String::from_str(
            alloc,
            "--journal has no text: give the name of a file",
        )));
    }
    Ok(file)
}

/// The name of a command's file, and of the second one, where there is one.
fn files_of(alloc: Global, matches: &ArgMatches<'_>) -> Result<(String, Option<String>), Unfit>
    ensures first { IfOk result (λ files. HasText (rows_of (found_of matches.now)) (codes "FILE") (string_bytes files.0)) }
    ensures second { IfOk result (λ files. HasTextOrNone (rows_of (found_of matches.now)) (codes "SECOND") (option_map string_bytes files.1)) }
    ensures refused { IfErr result (FindsNone (HasText (rows_of (found_of matches.now)) (codes "FILE"))) }
{
    let first = text_of(alloc, matches, "FILE")?;
    let second = text_or_none_of(alloc, matches, "SECOND")?;
    Ok((first, second))
}

/// The text of an option that may be absent.
fn text_or_none_of(
    alloc: Global,
    matches: &ArgMatches<'_>,
    name: &str,
) -> Result<Option<String>, Unfit>
    ensures text { IfOk result (λ text. HasTextOrNone (rows_of (found_of matches.now)) name.now (option_map string_bytes text)) }
    ensures refused { IfErr result (RefusesIf ⊥) }
{
    match matches.get_str(name) {
        Some(text) => Ok(Some(String::from_str(alloc, text)?)),
        None => Ok(None),
    }
}

/// The number of an argument, from `low` to `high`.
fn number_of(
    alloc: Global,
    matches: &ArgMatches<'_>,
    name: &str,
    low: u32,
    high: u32,
) -> Result<u32, Unfit>
    ensures { Finds result (HasNumberIn (rows_of (found_of matches.now)) name.now low high) }
{
    let Some(text) = value_of(matches, name) else {
        return Err(Unfit::Absent);
    };
    let number = number_in(alloc, name, text, u64::from(low), u64::from(high))?;
    Ok(number as u32)
}

/// The number of an option that may be absent, from `low` to `high`.
fn number_or_none_of(
    alloc: Global,
    matches: &ArgMatches<'_>,
    name: &str,
    low: u64,
    high: u64,
) -> Result<Option<u64>, Unfit>
    ensures { Finds result (HasNumberOrNoneIn (rows_of (found_of matches.now)) name.now low high) }
{
    let Some(text) = value_of(matches, name) else {
        return Ok(None);
    };
    let number = number_in(alloc, name, text, low, high)?;
    Ok(Some(number))
}

/// The text of an argument, if it is there.
fn value_of<'a>(matches: &ArgMatches<'a>, name: &str) -> Option<&'a str>
    ensures found { IfSome result (λ text. HasText (rows_of (found_of matches.now)) name.now text.now) }
    ensures none { IfNone result (first_of name.now (rows_of (found_of matches.now)) ≡ None) }
{
    matches.get_str(name)
}

/// The seed of a run; none where no text spells 32 bytes.
fn seed_of(matches: &ArgMatches<'_>) -> Option<[u8; 32]>
    ensures seed { IfSome result (λ bytes. HasText (rows_of (found_of matches.now)) (codes "seed") (hex bytes)) }
    ensures none { IfNone result (HasNoSeed (rows_of (found_of matches.now))) }
{
    let Some(text) = value_of(matches, "seed") else {
        return None;
    };
    let mut seed = [0; 32];
    match read_hex(text.as_bytes(), seed.as_mut_slice()) {
        Some(32) => Some(seed),
        Some(_) => {
            hex_is_injective();
            None
        }
        None => None,
    }
}

/// What carries the packets of a run.
fn link_of(alloc: Global, matches: &ArgMatches<'_>) -> Result<LinkKind, Unfit>
    ensures { Finds result (λ link. HasText (rows_of (found_of matches.now)) (codes "link") (link_name link)) }
{
    match matches.get_str("link") {
        Some("memory") => Ok(LinkKind::Memory),
        Some("udp") => Ok(LinkKind::Udp),
        Some(_link) => Err(Unfit::Absent),
        None => Err(Unfit::Absent),
    }
}

/// The shell that completions are for.
fn shell_of(alloc: Global, matches: &ArgMatches<'_>) -> Result<Shell, Unfit>
    ensures { Finds result (λ shell. HasText (rows_of (found_of matches.now)) (codes "SHELL") (shell_name shell)) }
{
    match matches.get_str("SHELL") {
        Some("bash") => Ok(Shell::Bash),
        Some("zsh") => Ok(Shell::Zsh),
        Some("fish") => Ok(Shell::Fish),
        Some(_shell) => Err(Unfit::Absent),
        None => Err(Unfit::Absent),
    }
}

/// Whether a flag is there.
fn flag_of(alloc: Global, matches: &ArgMatches<'_>, name: &str) -> Result<bool, Unfit>
    ensures { Finds result (HasFlag (rows_of (found_of matches.now)) name.now) }
{
    match matches.get_one::<bool>(name) {
        Some(flag) => Ok(flag),
        None => Err(Unfit::Absent),
    }
}
