//! What the program is asked to do.
use crate::RunSettings;

/// What the program is to do.
#[derive(Drop)]
pub enum Settings {
    /// Replay the schedule in this file.
    Replay(String),
    /// Run the service so, and write the journal into this file.
    Run(RunSettings, String),
    /// Be a host that sends.
    Send(SendSettings),
    /// Be a host that receives.
    Receive(ReceiveSettings),
    /// Have the host that holds the journal in this file come to its end.
    Stop(String),
    /// Be a host of one of the sides, with a door for programs.
    Serve(ServeSettings),
    /// Make a call of such a door.
    Call(CallSettings),
    /// Audit the journal in this file, or the journals of two processes, in this file and the next.
    Audit(String, Option<String>),
    /// Explain the journal in this file, or the journals of two processes, in this file and the next.
    Explain(String, Option<String>),
    /// Tell what became of each put, by two journals or a sender's alone.
    Outcomes(OutcomesSettings),
    /// Tell which messages a receiver's journal says were got.
    Got(GotSettings),
    /// Show the manual page.
    Manual,
    /// Show the completions for this shell.
    Completions(Shell),
}

/// What a host in a process of its own is told, whichever its side.
#[derive(Drop)]
pub struct HostSettings {
    /// The address that it listens at.
    pub listen: String,
    /// The address of the host of the other side.
    pub peer: String,
    /// The streams are 1 up to this number, which is 1 to 256.
    pub streams: u32,
    /// The file of its journal.
    pub journal: String,
    /// How many microseconds a packet waits for its answer before it is sent again for the first time, 1 to a minute.
    pub tick: u32,
    /// The longest that it waits between two sendings, in microseconds, where it was told: from `tick` up to an hour.
    pub tick_most: Option<u64>,
    /// Whether what is shown is spelt in JSON.
    pub json: bool,
    /// Whether the journal is put on its disk before packets leave.
    pub sync: bool,
    /// How many bytes a piece of its journal has before another one is begun, 1024 to 10^12, where it was told.
    pub piece: Option<u64>,
    /// How many seconds it waits at its end for what is still on its way, at most 1000000, if that has a limit.
    pub wait: Option<u64>,
    /// After how many seconds it tells its figures again and again, 1 to 1000000, if it does.
    pub stats: Option<u64>,
}

/// What a host that sends is told.
#[derive(Drop)]
pub struct SendSettings {
    pub host: HostSettings,
    /// Whether a stream's next message is put only once the last one's answer came: otherwise several wait on it.
    pub each: bool,
    /// Whether the messages that wait on a stream travel together, as a batch, which contradicts `each`.
    pub batch: bool,
    /// Whether messages come in HEX.
    pub hex: bool,
}

/// What a host that receives is told.
#[derive(Drop)]
pub struct ReceiveSettings {
    pub host: HostSettings,
    /// It ends once it got as many messages, 1 at least.
    pub count: Option<u64>,
}

/// The side of a host with a door, with what it is told. Nothing is shown.
#[derive(Drop)]
pub enum ServedSide {
    /// It sends.
    Send(SendSettings),
    /// It receives.
    Receive(ReceiveSettings),
}

/// What a host with a door is told.
#[derive(Drop)]
pub struct ServeSettings {
    pub side: ServedSide,
    /// The address of its door.
    pub door: String,
    /// The file of the token that requests have to bring, if they have to bring one.
    pub token_file: Option<String>,
}

/// What is asked of a door.
#[derive(Drop)]
pub enum DoorCall {
    /// That a message is put on a stream, once. The file of this name keeps the call. Where no message is given, standard input has it.
    Put {
        stream: u32,
        state: String,
        message: Option<String>,
    },
    /// For the next message of a stream, which comes again until it is done. The file of this name keeps the call.
    Get {
        stream: u32,
        state: String,
    },
    /// Nothing: the message that was got by the call in the file of this name is done.
    Done {
        stream: u32,
        state: String,
    },
    /// How a stream is.
    Status {
        stream: u32,
    },
    /// What happens, from behind this line of the journal on, or else from now on.
    Watch {
        after: Option<u64>,
    },
}

/// How a call of a door is made.
#[derive(Drop)]
pub struct CallSettings {
    pub call: DoorCall,
    /// The address of the door.
    pub door: String,
    /// The file of the token that requests have to bring, if they have to bring one.
    pub token_file: Option<String>,
    /// For how many seconds it is tried again where it does not come about, at most 1000000. It is tried once where none are given.
    pub wait: Option<u64>,
    /// Whether messages are read and shown in HEX.
    pub hex: bool,
}

/// Which outcomes are told, and how. Where neither `open` nor `gone` is chosen, all are.
#[derive(Drop)]
pub struct OutcomesSettings {
    /// The file of a journal.
    pub first: String,
    /// That of the other side's, if it is given. Each may come first.
    pub second: Option<String>,
    /// Those of puts that are open.
    pub open: bool,
    /// Those of puts that are gone.
    pub gone: bool,
    /// Whether lines are JSON objects.
    pub json: bool,
}

/// Which messages that were got are told, and how.
#[derive(Drop)]
pub struct GotSettings {
    /// The file of the journal.
    pub file: String,
    /// Only those on lines of greater numbers, if there is one.
    pub after: Option<u64>,
    /// Whether the journal is followed as it grows.
    pub follow: bool,
    /// Whether lines are JSON objects.
    pub json: bool,
}

/// A shell that completes words.
#[derive(Clone, Copy, PartialEq, Eq)]
pub enum Shell {
    Bash,
    Zsh,
    Fish,
}
