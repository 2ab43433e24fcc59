//! The program's commands, as they are described to `clap`.
ghost use Rattle.std.specs.Prelude.{◌≡◌, IfOk, false};
ghost use Rattle.clap.specs.Words.{App, app_of, new_app, rule_of};
ghost use Rattle.amo_arguments.specs.Commands as described;

use crate::description::Description;
use crate::texts;
use clap::builder::ValueParser;
use clap::{Arg, ArgAction, Command};
use std::alloc::{AllocError, Global};

/// The name that the program goes by in its texts.
pub const NAME: &str = "amo";

/// The greatest numbers of a run: of its streams, of its clients, of its crashes, and of the pumps of each host.
pub(crate) const STREAMS: u32 = 256;

pub(crate) const CLIENTS: u32 = 56;

pub(crate) const CRASHES: u32 = 1000;

pub(crate) const PUMPS: u32 = 4;

/// The greatest numbers of a host: of microseconds in its tick, of those up to which it grows, of seconds that it waits at its end, and of seconds
/// between its figures.
pub(crate) const TICK: u32 = 60_000_000;

pub(crate) const TICK_MOST: u64 = 3_600_000_000;

pub(crate) const WAIT: u64 = 1_000_000;

pub(crate) const STATS: u64 = 1_000_000;

/// How many bytes a piece of a journal has at least, and at most, before another one is begun.
pub(crate) const LEAST_PIECE: u64 = 1024;

pub(crate) const PIECE: u64 = 1_000_000_000_000;

/// What may carry the packets of a run.
static LINKS: [&str; 2] = ["memory", "udp"];

/// The shells that there are completions for.
static SHELLS: [&str; 3] = ["bash", "zsh", "fish"];

/// The whole program.
pub fn command<'a>(alloc: Global) -> Result<Command<'a>, AllocError>
    ensures { IfOk result described.IsAmo }
{
    bare(alloc)
        .subcommand(replay(alloc))
        .subcommand(run(alloc))
        .subcommand(send(alloc))
        .subcommand(receive(alloc))
        .subcommand(stop(alloc))
        .subcommand(serve(alloc))
        .subcommand(call(alloc))
        .subcommand(audit(alloc))
        .subcommand(explain(alloc))
        .subcommand(outcomes(alloc))
        .subcommand(got(alloc))
        .subcommand(manual(alloc))
        .subcommand(completions(alloc))
        .into_command()
}

/// The program without its commands.
fn bare<'a>(alloc: Global) -> Description<'a>
    ensures { IfOk result.command (λ command. app_of command ≡ described.bare) }
{
    let command = Command::new(alloc, NAME)
        .version(texts::VERSION)
        .about(texts::ABOUT)
        .after_help(texts::AFTER_HELP)
        .subcommand_required(true)
        .arg_required_else_help(true)
        .bin_name(NAME);
    Description { command }
}

fn replay<'a>(alloc: Global) -> Description<'a>
    ensures { described.Describes described.replay result.command }
{
    with_texts(
        alloc,
        "replay",
        texts::REPLAY_ABOUT,
        texts::REPLAY_AFTER_HELP,
    )
    .arg(file(alloc, "The schedule"))
}

fn run<'a>(alloc: Global) -> Description<'a>
    ensures { described.IsRun result.command }
{
    with_texts(alloc, "run", texts::RUN_ABOUT, texts::RUN_AFTER_HELP)
        .arg(number(
            alloc,
            "streams",
            1,
            STREAMS,
            "The number of streams, 1 to 256",
        ))
        .arg(number(
            alloc,
            "clients",
            1,
            CLIENTS,
            "The number of clients, 1 to 56",
        ))
        .arg(number(
            alloc,
            "crashes",
            0,
            CRASHES,
            "The number of crashes, 0 to 1000",
        ))
        .text(
            alloc,
            "seed",
            "HEX",
            "What identifiers and losses are drawn from, 64 digits",
        )
        .arg(link(alloc))
        .text(alloc, "journal", "FILE", "Where the journal goes")
        .arg(pumps(alloc))
        .flag(
            alloc,
            "split",
            "Gives each host a book and a journal of its own, FILE.s and FILE.r",
        )
        .flag(
            alloc,
            "batch",
            "Sends the messages that wait on a stream together, up to four",
        )
}

pub(crate) fn send<'a>(alloc: Global) -> Description<'a>
    ensures { described.Describes described.send result.command }
{
    host(alloc, "send", texts::SEND_ABOUT, texts::SEND_AFTER_HELP)
        .flag(
            alloc,
            "each",
            "Puts a stream's next message once the last one's answer came, as without it",
        )
        .flag(
            alloc,
            "many",
            "Puts it while the last ones have no answer yet, and up to 16 wait",
        )
        .flag(
            alloc,
            "batch",
            "The same, and sends those that wait on a stream together, up to four",
        )
        .flag(
            alloc,
            "hex",
            "Reads messages in lower-case hexadecimal, `-` for no bytes",
        )
}

fn receive<'a>(alloc: Global) -> Description<'a>
    ensures { described.Describes described.receive result.command }
{
    host(
        alloc,
        "receive",
        texts::RECEIVE_ABOUT,
        texts::RECEIVE_AFTER_HELP,
    )
    .optional_number(
        alloc,
        "count",
        "N",
        // From 1 on, of which the settings see to it: `clap` would tell of the limits without the greatest.
        0,
        u64::MAX,
        "Ends once it got N messages, and the rest of their batch",
    )
}

fn serve<'a>(alloc: Global) -> Description<'a>
    ensures { described.Describes described.serve result.command }
{
    let asked = placed(
        alloc,
        "serve",
        texts::SERVE_ABOUT,
        texts::SERVE_AFTER_HELP,
        "Where it listens for the other host, as 127.0.0.1:7001",
    )
    .text(
        alloc,
        "side",
        "SIDE",
        "Whether it sends or receives: `send` or `receive`",
    )
    .text(
        alloc,
        "door",
        "ADDR",
        "Where programs ask it over HTTP, as 127.0.0.1:7003",
    )
    .arg(optional_text(
        alloc,
        "token-file",
        "FILE",
        "The token that each request has to bring stands there",
    ));
    let served = timed(alloc, asked)
        .flag(
            alloc,
            "batch",
            "Sends the messages that wait on a stream together, up to four",
        )
        .flag(
            alloc,
            "sync",
            "Puts the journal on its disk before answers and packets leave",
        );
    limited(alloc, served)
}

fn call<'a>(alloc: Global) -> Description<'a>
    ensures { described.Describes described.call result.command }
{
    with_texts(alloc, "call", texts::CALL_ABOUT, texts::CALL_AFTER_HELP)
        .arg(needed(
            alloc,
            "CALL",
            "What is asked: `put`, `get`, `done`, `status` or `watch`",
        ))
        .arg(offered(
            alloc,
            "MESSAGE",
            "The message to put; standard input has it if absent",
        ))
        .text(
            alloc,
            "door",
            "ADDR",
            "Where the host is asked, as 127.0.0.1:7003",
        )
        .arg(stream(alloc))
        .arg(optional_text(
            alloc,
            "state",
            "FILE",
            "Keeps the call, so that it is made once; of `put`, `get` and `done`",
        ))
        .arg(optional_text(
            alloc,
            "token-file",
            "FILE",
            "The token that the door wants stands there",
        ))
        .optional_number(
            alloc,
            "wait",
            "SECONDS",
            0,
            WAIT,
            "How long it is tried again where it does not come about, 0 to 1000000",
        )
        .optional_number(
            alloc,
            "after",
            "LINE",
            0,
            u64::MAX,
            "Watches from behind this line of the journal on",
        )
        .flag(
            alloc,
            "hex",
            "Reads and shows messages in lower-case hexadecimal, `-` for no bytes",
        )
}

/// The command of this name with the options that a host has on either side, and what help says of it.
fn host<'a>(
    alloc: Global,
    name: &'static str,
    about: &'static str,
    after_help: &'static str,
) -> Description<'a>
    ensures { described.Describes (described.host name.entry.now) result.command }
{
    let here = placed(
        alloc,
        name,
        about,
        after_help,
        "Where it listens, as 127.0.0.1:7001",
    );
    let shown = timed(alloc, here)
        .flag(alloc, "json", "Prints each line as a JSON object")
        .flag(
            alloc,
            "sync",
            "Puts the journal on its disk before packets leave",
        );
    limited(alloc, shown).optional_number(
        alloc,
        "stats",
        "SECONDS",
        1,
        STATS,
        "Tells its figures on standard error as often, and at its end, 1 to 1000000",
    )
}

/// The command of this name with what each host of a pair is told: where it listens, of which help says this, where the other one does, how many streams there
/// are, and its journal.
fn placed<'a>(
    alloc: Global,
    name: &'static str,
    about: &'static str,
    after_help: &'static str,
    listen: &'static str,
) -> Description<'a>
    ensures { described.Describes (described.placed name.entry.now) result.command }
{
    with_texts(alloc, name, about, after_help)
        .text(alloc, "listen", "ADDR", listen)
        .text(alloc, "peer", "ADDR", "Where the other host listens")
        .arg(number(
            alloc,
            "streams",
            1,
            STREAMS,
            "The number of streams, 1 to 256",
        ))
        .text(
            alloc,
            "journal",
            "FILE",
            "Its journal, which is begun, or gone on with",
        )
}

/// This command with how long a packet waits for its answer, at first and at most.
fn timed<'a>(alloc: Global, description: Description<'a>) -> Description<'a>
    ensures { (app : App) → described.Describes app description.entry.command → described.Describes (described.timed app) result.command }
{
    description.arg(tick(alloc)).optional_number(
        alloc,
        "tick-most",
        "MICROSECONDS",
        1,
        TICK_MOST,
        "How long it waits at most before it is sent once more, 1 to 3600000000; 64 ticks if absent",
    )
}

/// This command with how long a host waits at its end, and how long a piece of its journal is.
fn limited<'a>(alloc: Global, description: Description<'a>) -> Description<'a>
    ensures { (app : App) → described.Describes app description.entry.command → described.Describes (described.limited app) result.command }
{
    description
        .optional_number(
            alloc,
            "wait",
            "SECONDS",
            0,
            WAIT,
            "How long it waits at its end for what is on its way, 0 to 1000000",
        )
        .optional_number(
            alloc,
            "piece",
            "BYTES",
            LEAST_PIECE,
            PIECE,
            "How long its journal is when it begins a new piece, 1024 to 1000000000000",
        )
}

fn stop<'a>(alloc: Global) -> Description<'a>
    ensures { described.Describes described.stop result.command }
{
    with_texts(alloc, "stop", texts::STOP_ABOUT, texts::STOP_AFTER_HELP).arg(file(
        alloc,
        "The journal of the host",
    ))
}

fn audit<'a>(alloc: Global) -> Description<'a>
    ensures { described.Describes described.audit result.command }
{
    with_texts(alloc, "audit", texts::AUDIT_ABOUT, texts::AUDIT_AFTER_HELP)
        .arg(file(alloc, "The journal"))
        .arg(second_file(alloc))
}

fn explain<'a>(alloc: Global) -> Description<'a>
    ensures { described.Describes described.explain result.command }
{
    with_texts(
        alloc,
        "explain",
        texts::EXPLAIN_ABOUT,
        texts::EXPLAIN_AFTER_HELP,
    )
    .arg(file(alloc, "The journal"))
    .arg(second_file(alloc))
}

fn outcomes<'a>(alloc: Global) -> Description<'a>
    ensures { described.Describes described.outcomes result.command }
{
    with_texts(
        alloc,
        "outcomes",
        texts::OUTCOMES_ABOUT,
        texts::OUTCOMES_AFTER_HELP,
    )
    .arg(file(alloc, "The journal of a sender, or of one side of two"))
    .arg(second_file(alloc))
    .flag(alloc, "open", "Shows the puts that are open")
    .flag(alloc, "gone", "Shows the puts that are gone")
    .flag(alloc, "json", "Prints each line as a JSON object")
}

fn got<'a>(alloc: Global) -> Description<'a>
    ensures { described.Describes described.got result.command }
{
    with_texts(alloc, "got", texts::GOT_ABOUT, texts::GOT_AFTER_HELP)
        .arg(file(alloc, "The receiver's journal"))
        .optional_number(
            alloc,
            "after",
            "N",
            0,
            u64::MAX,
            "Shows lines of greater numbers than N",
        )
        .flag(
            alloc,
            "follow",
            "Goes on with what is got as the journal grows",
        )
        .flag(alloc, "json", "Prints each line as a JSON object")
}

fn manual<'a>(alloc: Global) -> Description<'a>
    ensures { described.Describes described.manual result.command }
{
    with_texts(alloc, "man", texts::MANUAL_ABOUT, texts::MANUAL_AFTER_HELP)
}

fn completions<'a>(alloc: Global) -> Description<'a>
    ensures { described.IsCompletions result.command }
{
    with_texts(
        alloc,
        "completions",
        texts::COMPLETIONS_ABOUT,
        texts::COMPLETIONS_AFTER_HELP,
    )
    .arg(shell(alloc))
}

/// The command of this name, without arguments, and what help says of it.
fn with_texts<'a>(
    alloc: Global,
    name: &'static str,
    about: &'static str,
    after_help: &'static str,
) -> Description<'a>
    ensures { described.Describes (new_app name.entry.now) result.command }
{
    let command = Command::new(alloc, name)
        .about(about)
        .after_help(after_help);
    Description {
        command: Ok(command),
    }
}

impl<'a> Description<'a> {
    /// With an option whose value is any text.
    fn text(
        self,
        alloc: Global,
        name: &'static str,
        value: &'static str,
        help: &'static str,
    ) -> Description<'a>
        ensures { described.IsGivenOne (described.text name.entry.now) self.entry.command result.command }
    {
        self.arg(text(alloc, name, value, help))
    }

    /// With an option that may be absent, whose value is a number from `low` to `high`.
    fn optional_number(
        self,
        alloc: Global,
        name: &'static str,
        value: &'static str,
        low: u64,
        high: u64,
        help: &'static str,
    ) -> Description<'a>
        ensures { described.IsGivenOne (described.optional_number name.entry.now low high) self.entry.command result.command }
    {
        self.arg(optional_number(alloc, name, value, low, high, help))
    }

    /// With a flag.
    fn flag(self, alloc: Global, name: &'static str, help: &'static str) -> Description<'a>
        ensures { described.IsGivenOne (described.flag name.entry.now) self.entry.command result.command }
    {
        self.arg(flag(alloc, name, help))
    }
}

/// The argument that names a command's file.
fn file<'a>(alloc: Global, help: &'static str) -> Arg<'a>
    ensures rule { rule_of result ≡ described.file }
    ensures local { result.global ≡ false }
{
    needed(alloc, "FILE", help)
}

/// The argument that names the file of a second journal.
fn second_file<'a>(alloc: Global) -> Arg<'a>
    ensures rule { rule_of result ≡ described.second_file }
    ensures local { result.global ≡ false }
{
    offered(alloc, "SECOND", "The journal of a second process").value_name("FILE")
}

/// The argument of this name, which is any text, and has to be there.
fn needed<'a>(alloc: Global, name: &'static str, help: &'static str) -> Arg<'a>
    ensures rule { rule_of result ≡ described.needed name.entry.now }
    ensures local { result.global ≡ false }
{
    offered(alloc, name, help).required(true)
}

/// The argument of this name, which is any text, and may be absent.
fn offered<'a>(alloc: Global, name: &'static str, help: &'static str) -> Arg<'a>
    ensures rule { rule_of result ≡ described.offered name.entry.now }
    ensures local { result.global ≡ false }
{
    Arg::new(alloc, name).help(help).action(ArgAction::Set)
}

/// The argument that names a shell.
fn shell<'a>(alloc: Global) -> Arg<'a>
    ensures rule { described.IsShell (rule_of result) }
    ensures local { result.global ≡ false }
{
    needed(alloc, "SHELL", "The shell").value_parser(ValueParser::Names(SHELLS.as_slice()))
}

/// The option of this name, whose value is a number from `low` to `high`.
fn number<'a>(alloc: Global, name: &'static str, low: u32, high: u32, help: &'static str) -> Arg<'a>
    ensures rule { rule_of result ≡ described.number name.entry.now low high }
    ensures local { result.global ≡ false }
{
    text(alloc, name, "N", help).value_parser(ValueParser::unsigned(
        u64::from(low),
        u64::from(high),
    ))
}

/// The option of this name, whose value is any text.
fn text<'a>(alloc: Global, name: &'static str, value: &'static str, help: &'static str) -> Arg<'a>
    ensures rule { rule_of result ≡ described.text name.entry.now }
    ensures local { result.global ≡ false }
{
    optional_text(alloc, name, value, help).required(true)
}

/// The option that names what carries the packets.
fn link<'a>(alloc: Global) -> Arg<'a>
    ensures rule { described.IsLink (rule_of result) }
    ensures local { result.global ≡ false }
{
    text(alloc, "link", "LINK", "What carries the packets").value_parser(ValueParser::Names(
        LINKS.as_slice(),
    ))
}

/// The option that tells how many pumps a host has.
fn pumps<'a>(alloc: Global) -> Arg<'a>
    ensures rule { rule_of result ≡ described.pumps }
    ensures local { result.global ≡ false }
{
    optional_number(
        alloc,
        "pumps",
        "N",
        1,
        u64::from(PUMPS),
        "The number of pumps of each host, 1 to 4",
    )
    .default_value("1")
}

/// The option that tells how long a packet waits for its answer.
fn tick<'a>(alloc: Global) -> Arg<'a>
    ensures rule { rule_of result ≡ described.tick }
    ensures local { result.global ≡ false }
{
    optional_number(
        alloc,
        "tick",
        "MICROSECONDS",
        1,
        u64::from(TICK),
        "How long a packet waits for its answer before it is sent again, 1 to 60000000",
    )
    .default_value("10000")
}

/// The option that names a stream.
fn stream<'a>(alloc: Global) -> Arg<'a>
    ensures rule { rule_of result ≡ described.stream }
    ensures local { result.global ≡ false }
{
    optional_number(
        alloc,
        "stream",
        "N",
        1,
        u64::from(STREAMS),
        "The stream, 1 to 256; of all but `watch`",
    )
}

/// The option of this name that may be absent, whose value is a number from `low` to `high`.
fn optional_number<'a>(
    alloc: Global,
    name: &'static str,
    value: &'static str,
    low: u64,
    high: u64,
    help: &'static str,
) -> Arg<'a>
    ensures rule { rule_of result ≡ described.optional_number name.entry.now low high }
    ensures local { result.global ≡ false }
{
    optional_text(alloc, name, value, help).value_parser(ValueParser::unsigned(low, high))
}

/// The option of this name that may be absent, whose value is any text.
fn optional_text<'a>(
    alloc: Global,
    name: &'static str,
    value: &'static str,
    help: &'static str,
) -> Arg<'a>
    ensures rule { rule_of result ≡ described.optional_text name.entry.now }
    ensures local { result.global ≡ false }
{
    offered(alloc, name, help).long(name).value_name(value)
}

/// The flag of this name.
fn flag<'a>(alloc: Global, name: &'static str, help: &'static str) -> Arg<'a>
    ensures rule { rule_of result ≡ described.flag name.entry.now }
    ensures local { result.global ≡ false }
{
    Arg::new(alloc, name)
        .long(name)
        .help(help)
        .action(ArgAction::SetTrue)
}
