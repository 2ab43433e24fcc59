//! What the program says of itself: its version, and the help on it and on its commands.

pub(crate) use crate::version::VERSION;

pub(crate) const ABOUT: &str =
    "An at-most-once message service: commands that must never run twice.";

pub(crate) const AFTER_HELP: &str = "Examples:
  amo replay examples/handshake.schedule
  amo run --streams 8 --clients 16 --crashes 20 --link udp --journal run.journal \\
    --seed 0000000000000000000000000000000000000000000000000000000000000000
  amo receive --listen 127.0.0.1:7002 --peer 127.0.0.1:7001 --streams 8 --journal receive.journal
  amo send --listen 127.0.0.1:7001 --peer 127.0.0.1:7002 --streams 8 --journal send.journal
  amo stop send.journal
  amo audit examples/good_journal.journal
  amo explain examples/good_journal.journal
  amo outcomes send.journal receive.journal
  amo got receive.journal --after 120
  amo man | man -l -

Status:
  0  done; of an audit: yes
  1  an audit found a wrong reply
  2  a malformed schedule or journal, a gap in a journal, two journals of one side, or arguments
     that do not parse
  3  a premise is broken: a packet that nobody emitted, or a word used twice
  4  out of memory, busy, or a file, a socket or standard output that cannot be opened, read or
     written; of a host also an address that is none, or a journal that it cannot go on with
  5  a host waited as long as it was told, and something was still on its way
`amo call` has more.

Faults go to standard error. `amo: device` is a file, a socket or standard output that failed, also
where there is no such file; a second line says what failed and, but for a socket, the cause.";

pub(crate) const REPLAY_ABOUT: &str = "Replays a schedule, and prints a line for each event";

pub(crate) const REPLAY_AFTER_HELP: &str =
    "A schedule is a list of lines, each with one line feed at its end:
  put S HEX       put a message on stream S, in lower-case hexadecimal, `-` for no bytes
  get S           get a message from stream S
  ack S           ask what became of the last put of stream S
  start S WORD    start a handshake on the sender of stream S, under this word
  batch S WORD    the same for up to four messages that wait, which travel together
  resend s S      emit the packet of the sender's mode on stream S again; `r S` for the receiver
  deliver K WORD  deliver the K-th packet emitted, with a word to accept under
  crash s S       crash the sender of stream S; `r S` for the receiver
  recover s S     recover the sender of stream S; `r S` for the receiver

Output, a line for each event:
  N REPLY               the event's number, counted from 0, and its reply
  N REPLY -> K HEX      and the packet that it emitted, numbered from 0 over all streams

Replies are ok, full, down, got HEX, nothing, yes, no, notyet and done.

Limits:
  256 streams, numbered from 1; 1,024 bytes a message; 16 messages waiting on a stream
  K and WORD are from 0 to 18446744073709551615; no number has a leading zero

Status:
  0  every line was replayed
  2  `amo: line L: malformed`: line L, counted from 1, is no line; nothing was replayed
  3  `amo: line L: unsent`: it delivers a packet that was not emitted before
     `amo: line L: repeat`: it uses a word a second time
  4  `amo: out of memory`
     `amo: busy`: another call was at work at a side
     `amo: device`: the file or standard output failed, or there is no such file

Example:
  amo replay examples/handshake.schedule";

pub(crate) const RUN_ABOUT: &str =
    "Runs the service between two hosts that crash, and keeps a journal of what happened";

pub(crate) const RUN_AFTER_HELP: &str =
    "The senders of all streams are one host, their receivers another. Each pump and each client is a
thread. Streams are numbered from 1, all else from 0.

Client I works on stream 1 + (I div 2) mod S, S being the number of streams, and makes 1000 calls.
Where I is even it puts a message and asks what became of it, by turns; else it gets messages.

Crash K hits the senders where K is even, else the receivers, after turn 50 * (K div 2 + 1) of each
pump there. Ten turns later they recover, with nothing known.

With --batch the messages that wait on a stream when a handshake begins travel together, up to four,
and the journals are of version 2.

LINK is one of these:
  memory  a channel that loses, repeats and reorders packets
  udp     sockets on 127.0.0.1, on ports that the system picks

HEX is 64 lower-case hexadecimal digits. Threads take turns as they may, so that two runs with one
seed differ.

Output, a line:
  events E, link faults F  the journals have E events, and faults of the system lost F packets

Status:
  0  the journal is written; `amo audit` of it prints `yes`
  2  `amo: seed`: HEX is not 64 lower-case hexadecimal digits
  4  `amo: out of memory`: memory or a thread was refused
     `amo: device`: a socket, the journal's file or standard output failed

Example:
  amo run --streams 8 --clients 16 --crashes 20 --link udp --journal run.journal \\
    --seed 0000000000000000000000000000000000000000000000000000000000000000
  amo audit run.journal";

pub(crate) const SEND_ABOUT: &str =
    "Sends messages to another host, and tells what became of them; can be killed at any moment";

pub(crate) const SEND_AFTER_HELP: &str = "A line of standard input is a message for a stream:
  STREAM TEXT    TEXT is the rest of the line, 1,024 bytes at most; with --hex it is HEX

A line that is none is told on standard error with its reason, as `amo: line L: stream 5 of 4`, L
counted from 1, and nothing is put. Nor is a last line put that lacks its line feed: who wrote it may
have died in the middle, and `amo: line L has no end` is told. A line waits until its stream's last
message has its answer, and lines of other streams are put meanwhile. With --many it waits only while
16 messages wait on its stream, or four while handshakes go on and messages wait on each. Where
1,024 lines wait no more are read.

With --batch, which implies --many, the messages that wait on a stream when a handshake begins travel
together, up to four. Both hosts have to be of this version, and their journals of version 2, as new
ones then are. A host from before, or with a journal of version 1, drops them. --each says that a line
waits for the last message's answer, as it does without it: it contradicts --many and --batch.

Output, a line for each message as it is put, and one more, in the same order of each stream:
  STREAM ok      it was put
  STREAM yes     it was got
  STREAM no      a host crashed: it may or may not have been got

A start tells first what became of those messages of earlier lives whose answer the journal lacks:
  STREAM gone TEXT       it was not got, and will not be
  STREAM unknown TEXT    it was sent, and may have been got, or be got yet
  STREAM settled         what was unknown on this stream was got by now, or will not be: a message was
                         sent behind it. That is told once that is so, and again by the next start

With --json lines come as objects, in any order of their members, and answers are objects:
  {\"stream\":1,\"id\":\"a\",\"text\":\"TEXT\"}            or \"hex\":\"HEX\" in place of the text
  {\"stream\":1,\"id\":\"a\",\"event\":\"ok\",\"line\":12}   it was put, by that line of the journal; or yes, no
  {\"input\":3,\"id\":\"a\",\"event\":\"refused\",\"reason\":\"..\"}   line 3 was not put
  {\"stream\":1,\"event\":\"unknown\",\"line\":12,\"text\":\"TEXT\"}   of an earlier life; or gone
  {\"stream\":1,\"event\":\"settled\"}
An id may be left out. It has at most 64 bytes, and stands in each answer to its line in this life.

At the end of standard input, and once `amo stop FILE` asks it to, the host takes no more lines, and
goes on until all is answered, or as long as --wait says. With status 0 or 2, a line that had no `ok`
was not put; with 5, ask `amo outcomes` what was.
SIGTERM and SIGINT end it at once, which is a crash like any other.

What has no answer is sent again after --tick, then after twice as long, and so on up to --tick-most.
With --stats the host tells on standard error, as often and at its end, how much it did, what came and
was dropped, and how long handshakes took.

ADDR is HOST:PORT. The other host is `amo receive`, with as many streams and with both addresses the
other way round. What does not come from there is dropped, but nothing is authenticated: use a
network that keeps forgers out.

The journal has a line for each event, which is written before its packet leaves and before its
answer is shown. So the host may be killed, and started again on its journal: a last line that is
torn is cut off, and it is noted that each stream crashed and recovered. What was sent and has no
answer by then may or may not be got. `amo audit` takes the journals of both hosts. A power failure
loses lines that the disk has not: --sync waits for it.

Where FILE is 64 MiB long, or as long as --piece says, it gets the next number, as FILE.000001, and
FILE is begun anew. A start reads the lines of which nothing was told, and FILE.told says which those
are. `amo audit` takes FILE with all its pieces. FILE.lives belongs to it: what new identifiers are made
of stands there.

Status:
  0  all is answered
  2  arguments that do not parse; or all is answered, and the last line had no end
  4  `amo: out of memory`
     `amo: no address: ADDR: CAUSE`, `amo: cannot look up ADDR: CAUSE`
     `amo: cannot listen on ADDR: CAUSE`, `amo: no way to ADDR: CAUSE`: the socket cannot be opened;
     later faults of it lose packets and no more
     `amo: FILE: another process has it in use`
     `amo: FILE: it has no whole line, ..`, `amo: FILE: line L ..`, `amo: FILE: its end ..`: it is no
     journal of a host that sends, and was not changed
     `amo: FILE: it does not go on where the piece before it ends: ..`, `amo: FILE: the piece before it
     is of another version: ..`: its pieces are not those of one journal, and were not changed
     `amo: FILE: it is of version 1, ..`: it has no lines for batches, and was not changed
     `amo: FILE: CAUSE`, `amo: the journal is full`: the file, or the disk; where it is FILE.told, what
     it had to tell was told, and no line was taken
     `amo: standard input failed: ..`, `amo: standard output failed: ..`, or `.. is closed`
  5  --wait is over, and something is still on its way: how much, is told

Example:
  amo send --listen 127.0.0.1:7001 --peer 127.0.0.1:7002 --streams 8 --journal send.journal";

pub(crate) const RECEIVE_ABOUT: &str =
    "Receives messages from another host, each at most once; can be killed at any moment";

pub(crate) const RECEIVE_AFTER_HELP: &str =
    "Output, a line for each message that it got, in the order put of each stream:
  STREAM TEXT    or STREAM 0xHEX where it is no UTF-8 or has a control character other than a tab
With --json: {\"number\":12,\"stream\":1,\"event\":\"got\",\"text\":\"TEXT\"}, or \"hex\":\"HEX\" in place of
the text, with the number of its line in the journal.

The host reads no standard input. It ends once it got as many messages as --count says, and those
that came in one batch with the last of them, and then waits for what is still on its way: as long as
--wait says, or else for a second at most. So it does once `amo stop FILE` asks it to: what has come
is shown, and nothing more is accepted. SIGTERM and SIGINT end it at once, which is a crash like any
other. Where nobody reads its output any more it fails. --tick, --tick-most and --stats are as of
`amo send`.

Messages may come together, from a host with --batch. A new journal is of version 2, which has lines
for that. One of version 1 is gone on with as it is: what comes together is dropped, and told once.

ADDR is HOST:PORT. The other host is `amo send`, with as many streams and with both addresses the
other way round. What does not come from there is dropped, but nothing is authenticated: use a
network that keeps forgers out.

The journal has a line for each event, which is written before its packet leaves and before its
message is shown. So the host may be killed, and started again on its journal: a last line that is
torn is cut off, and it is noted that each stream crashed and recovered. A message whose line was
written and which was not shown by then is lost, and none is shown twice. `amo audit` takes the
journals of both hosts. A power failure loses lines that the disk has not: --sync waits for it.

Where FILE is 64 MiB long, or as long as --piece says, it gets the next number, as FILE.000001, and
FILE is begun anew. A start reads its end alone. `amo audit` takes FILE with all its pieces. FILE.lives
belongs to it: what new identifiers are made of stands there.

Status:
  0  done
  2  arguments that do not parse
  4  as of `amo send`; the journal is one of a host that receives
     `amo: nobody reads standard output any more`
  5  --wait is over, and something is still on its way

Example:
  amo receive --listen 127.0.0.1:7002 --peer 127.0.0.1:7001 --streams 8 --journal receive.journal";

pub(crate) const STOP_ABOUT: &str = "Has a host come to its end, and waits until it has";

pub(crate) const STOP_AFTER_HELP: &str =
    "FILE is the journal of the host, as --journal names it. A host that sends takes no more lines, and goes
on until all that was put is answered. One that receives accepts nothing more, and shows what has
come. One that programs ask, as `amo serve` has it, takes nothing more to put and lets nobody wait; one
that receives lets them take what has come. Each waits for what is on its way as long as its own --wait
says.

The host is asked by the socket FILE.stop, which is there while it is at work, for its owner alone.
Where the name is longer than the system allows for sockets, 107 bytes, the host says so at its start,
and cannot be asked.

Status, which is the host's own:
  0  it ended, and all is answered
  2  it ended, and its last line had no end
  4  it failed
     `amo: FILE: no host has it in use by this name`, or what the system says of FILE.stop, on standard error
  5  its --wait is over, and something is still on its way

Example:
  amo stop send.journal";

pub(crate) const SERVE_ABOUT: &str =
    "Is a host that programs ask over HTTP: it puts or takes their messages, each at most once";

pub(crate) const SERVE_AFTER_HELP: &str =
    "The host sends or receives as `amo send` and `amo receive` do. Its clients are programs that ask at
its door, over HTTP/1.1:
  GET /v1                                         what the host is, and its life
  GET /v1/streams/3?wait=30                       how stream 3 is
  PUT /v1/streams/3/messages/18?life=L&by=B       puts the body as message 18, at a sender
  POST /v1/streams/3/messages                     puts the body without a number
  GET /v1/streams/3/messages/18?life=L            what became of message 18
  POST /v1/streams/3/take?life=L&by=B&number=13&wait=30   takes message 13, at a receiver
  GET /v1/streams/3/got?after=LINE                what was taken, in any life, by the journal
  GET /v1/events, GET /metrics, GET /healthz, GET /       what happens, counts, health, a page
Who asks names the life of the host, a word of its own and the number that is next: so a call whose
answer was lost can be made again, and nothing is put or taken twice. A message that has come stays
where it is until it is taken. docs/DOOR.md tells of each call, and what to do when an answer is lost.

The door's address is told on standard error. It has to be one of this machine alone, as 127.0.0.1:7003,
unless --token-file says where a token stands: then each request has to bring it, as
`Authorization: Bearer TOKEN`. Nothing is encrypted. Port 0 has the system choose, and it is told which.
Give the address by the name or number by which it is asked: a request for another host is refused.

ADDR is HOST:PORT. What comes from elsewhere than from --peer is dropped, but nothing is authenticated:
use a network that keeps forgers out. An answer leaves once the journal has the lines of all that it
tells of; with --sync, once they are on the disk. Journals, pieces, kills, --tick and --tick-most are as
of `amo send`. Its figures are at /metrics.

It goes on until `amo stop FILE` has it come to its end, or until it is ended: SIGTERM and SIGINT do so at
once, which is a crash like any other. At its end it waits as --wait says for what is on its way: without
it as long as that takes, and one that receives for a second.

Status:
  0  it was asked to end, and all is answered
  2  arguments that do not parse
  4  as of `amo send`, and
     `amo: cannot listen on ADDR: CAUSE`: also of the door
     `amo: the door at ADDR is open to other machines: give --token-file`
     `amo: FILE: it has no token: ..`: a token is one line of 16 to 256 letters, digits and -._~+/=
  5  it was asked to end, and something is still on its way, or was not taken

Example:
  amo serve --side send --listen 127.0.0.1:7001 --peer 127.0.0.1:7002 --streams 8 \\
    --journal send.journal --door 127.0.0.1:7003";

pub(crate) const CALL_ABOUT: &str =
    "Asks a host at its door from a shell: puts or takes a message, once over kills and lost answers";

pub(crate) const CALL_AFTER_HELP: &str =
    "CALL is one of these, of a host that `amo serve` is, whose door is at ADDR:
  put     puts MESSAGE on the stream, at a host that sends, and prints what is known of it
  get     takes the stream's next message, at a host that receives, and prints it
  done    says that the message that `get` printed is done: the next `get` takes the next one
  status  prints how the stream is, as JSON; with --wait once its last message has its answer, or
          its next one is there
  watch   prints what happens, until the door is closed: LINE JSON, LINE being the number of the
          event's line in the host's journal, or a dash

Each put has a FILE of its own. It keeps the message with the call, before that is made. So the same
command may be repeated, whatever was killed meanwhile, the host too: the message is put once. Remove
FILE once it is noted elsewhere that the message was put, and not before. It removes FILE itself where
the call came too late and put nothing. A stream is best put to by one program.

The gets of a stream share a FILE, and no other program takes from the stream. What was taken is kept
there before it is printed, and printed again by each `get` until `done`.

MESSAGE is as it stands, 1,024 bytes at most. Behind -- it may begin with a dash. Where it is absent
standard input has it, without a line feed at its end. What `get` prints has a line feed behind it.
With --hex both are hexadecimal. Beside FILE there is FILE.lock while a call is made. Both are their
owner's alone.

A put prints a word:
  put      it was put, once
  got      it was put in a life of the host that is over, and was got
  gone     the same, and it was not got and never will be: it may be put again, with another FILE
  open     the same, and it is on its way
  unknown  it was put, or may have been, and it is not known whether it was got, or may still be
  settled  it was put in a life that is over: it was got or lost, and no more becomes of it

Status:
  0   done; of a put: `put` or `got`
  2   arguments that do not parse, or no message; FILE keeps another call, or none
  4   no answer came: make the same call again; or memory, a file or standard output failed
  5   --wait is over: the door puts it off, and the message was not put yet; or no message came
  6   `gone`
  7   `open`
  8   `unknown`, also where the door refuses to tell; of a get: another program takes from the stream
  9   `settled`
  10  the door refuses it, and nothing was put: `amo: the door refuses it: 401 token`, and so on

Example:
  amo call put --door 127.0.0.1:7003 --stream 3 --state order-17.call 'pay Ann 100'
  amo call get --door 127.0.0.1:7004 --stream 3 --state taken.call --wait 30
  amo call done --door 127.0.0.1:7004 --stream 3 --state taken.call";

pub(crate) const AUDIT_ABOUT: &str =
    "Audits a journal, or those of two processes, and prints a line with the verdict";

pub(crate) const AUDIT_AFTER_HELP: &str =
    "A journal is a list of lines, each with one line feed at its end, numbered from 0 in order:
  NUMBER PASS SIDE STREAM ACT REPLY

PASS is 0 to 63, SIDE is s for a sender and r for a receiver, STREAM is 1 to 256. ACT and REPLY are:
  put HEX           at s:  ok, full or down
  ack               at s:  yes, no, notyet or down
  get               at r:  got HEX, nothing or down
  start WORD        at s:  done
  resend            done
  deliver HEX WORD  done; HEX is a packet of that stream
  crash             done
  recover           done

A journal whose first line is `amo 2` is of version 2. That line has no number. There ACT is also
  batch WORD        at s:  done
and HEX also a packet by which up to four messages travel together.

Verdicts, each a line on standard output, and their status:
  0  `yes`: each reply is the protocol's, each packet delivered was emitted before, no word is
     used twice; so each stream's clients saw what the at-most-once queue allows
  1  `wrong reply at line L`: of the event of line L, counted from 1
  2  `malformed at line L`: line L is no line
     `gap at line L`: its number is not L - 1, or L - 2 in a journal of version 2
     `shared`: both files have events of one side of a stream
  3  `unsent at line L`: it delivers a packet that was not emitted before
     `repeat at line L`: it uses a word a second time
     `stuck`: in no order of both files' events is each packet emitted before it is delivered
The first malformed line is told, else the first gap, else the first event at fault.

Of two files both are read first, and `file 1: ` or `file 2: ` stands before a malformed line or a
gap. Their events are then merged: the first file's go first, wherever what they deliver was
emitted. L is a line of the merged journal, counted from 1; it is of version 2 where either is.

A journal may be in pieces, FILE.000001, FILE.000002 and so on, and FILE last. Where those stand
beside FILE they are read with it as one journal, in the order of their numbers. So are the files of
a list, as a.000001,a.000002,a; `a,` is the file a alone. In version 2 each piece begins with
`amo 2`, which is a line of the journal in the first one alone. Each ends with a line's end.
On standard error stand then, behind the verdict:
  `amo: FILE: line L`: where the line stands that the verdict names, in which piece
  `amo: FILE: it is missing`: the first piece that is missing between two numbers

Faults, on standard error:
  4  `amo: out of memory`
     `amo: device`: the file or standard output failed, or there is no such file

Examples:
  amo audit examples/good_journal.journal
  amo audit examples/split_journal.1.journal examples/split_journal.2.journal
  amo audit a.000001,a.000002,a";

pub(crate) const EXPLAIN_ABOUT: &str =
    "Explains a journal, or those of two processes: what the at-most-once queue did for each stream";

pub(crate) const EXPLAIN_AFTER_HELP: &str =
    "A journal, or two, of which `amo audit` prints `yes` is explained by lines, streams rising:
  STREAM STEP

STEP is what a client of the stream saw the at-most-once queue do, or a loss, which nobody saw:
  put HEX               a message was put
  get HEX               the first message of the queue was got
  ack yes, ack no       the last put, if any, was got; it may or may not have been got
  down s, down r        a call found that side down
  crash s, crash r      that side crashed
  recover s, recover r  that side recovered
  lose I                the message at place I of the queue, counted from 0, was lost
  lose-ack              what became of the last put was lost
Where several runs of the queue explain a stream, one of them is printed, in which no message is lost
that `amo outcomes` tells to be open.

Of any other files the line that `amo audit` prints goes to standard error. Of one side's journal alone
that is `unsent` where something came from the other side: give both. A last line on standard error
says that it is one side's. Journals may be in pieces, as of `amo audit`.

Status:
  0  all is explained
  1 to 3, as of `amo audit`: nothing is explained
  4  `amo: out of memory`
     `amo: device`: a file or standard output failed, or there is no such file

Examples:
  amo explain examples/good_journal.journal
  amo explain examples/split_journal.1.journal examples/split_journal.2.journal";

pub(crate) const OUTCOMES_ABOUT: &str =
    "Tells what became of each message that was put: it was got, is gone, is open, or unknown";

pub(crate) const OUTCOMES_AFTER_HELP: &str =
    "Of a sender's and a receiver's journal, in either order, a line is printed for each message that was
put, in the order of the journal:
  NUMBER STREAM OUTCOME TEXT    NUMBER stands in front of the put's own line in its journal
or 0xHEX in place of TEXT where it is no UTF-8 or has a control character other than a tab.
With --json: {\"number\":12,\"stream\":1,\"outcome\":\"gone\",\"text\":\"TEXT\"}, or \"hex\":\"HEX\" in
place of the text. Equal messages are told apart.

OUTCOME is one of these:
  got   a get answered it; it stays so
  gone  it was not got, and never will be, however both journals go on: it may be put again
  open  it may still be got: ask again later. Once a later message of its stream was got it is none
--open and --gone print only those; both print both.

Of a sender's journal alone the same is printed, as far as that tells it. OUTCOME is then one of these:
  got              an ack said so; it stays so
  gone             a crash forgot it before it was sent: it may be put again
  open             it waits to be sent
  unknown          it was sent, and may have been got, may still be, or never will be
  unknown,settled  the same, but that what became of it is final: it was got, or never will be
With --json `unknown` has a field, \"settled\":true or \"settled\":false, and each line \"by\":\"sender\".
A last line on standard error says that it is one side's journal. Both together tell of each message
whether it was got, is gone or is open. A journal of both sides, as of `amo run`, is told of as two.

Got means that the message is in the receiver's journal and was handed to its standard output. It does
not mean that anybody acted on it.

Hosts may be at work, and one journal may end earlier than the other, or in the middle of a line. Then
what is told is of beginnings of both that explain each other, and got and gone stay so. Standard error
names the first line of the other one of which nothing is told:
  amo: FILE: not told from line L on: it delivers what the other journal has not sent
A loss of power may have taken last lines of a host without --sync, whose packets had left. By FILE.lives,
beside each journal, what would be gone is unknown where the machine started again behind a life of a
host, or behind its last one now. Where that file is missing standard error says so, and then gone may be
said of a message that is got all the same.

Of files with a fault, whatever follows in them, the line that `amo audit` prints goes to standard error,
and nothing is told. Of a sender's journal alone it is not asked whether what came was sent, which both
together tell. Journals may be in pieces, as of `amo audit`.

Status:
  0  all is told
  1 to 3, as of `amo audit`: nothing is told
  2  also arguments that do not parse, or
     `amo: FILE: a receiver's journal: the sender's is needed; amo got tells what was got`
  4  `amo: out of memory`
     `amo: device`: a file or standard output failed, or there is no such file

Examples:
  amo outcomes send.journal receive.journal --open
  amo outcomes send.journal";

pub(crate) const GOT_ABOUT: &str = "Tells which messages a receiver's journal says were got";

pub(crate) const GOT_AFTER_HELP: &str =
    "Output, a line for each message that was got, in the order of the journal:
  NUMBER STREAM TEXT    NUMBER stands in front of the line of the get in the journal
or 0xHEX in place of TEXT where it is no UTF-8 or has a control character other than a tab.
With --json: {\"number\":12,\"stream\":1,\"event\":\"got\",\"text\":\"TEXT\"}, or \"hex\":\"HEX\" in place of
the text.

The numbers rise, and stay the same while the journal goes on. So an application may keep the last
one beside its own work, and ask for what came --after it.

A line says that the message is in the receiver's journal and was handed to its standard output. It
does not say that anybody acted on it.

The host may be at work: a last line that lacks its end is left out. Nothing is judged but that lines
read and are numbered from 0; `amo audit` judges. The journal may be in pieces, as of `amo audit`.

With --follow it goes on as the journal grows, also into new pieces, and looks ten times a second; it
waits for a journal that is not there yet. It ends where it is interrupted, nobody reads its output
any more, or the journal does not go on where it was read. FILE is then a journal's name, and no list.

Status:
  0  all is told
  2  `malformed at line L`, `gap at line L`, as of `amo audit`: what stands before line L was told
     `amo: FILE: a sender's journal: a receiver's is needed`: each line is a sender's
     or arguments that do not parse
  4  `amo: out of memory`
     `amo: device`: the file or standard output failed, or there is no such file

Examples:
  amo got receive.journal --after 120
  amo got receive.journal --after 120 --follow --json";

pub(crate) const MANUAL_ABOUT: &str = "Prints the manual page";

pub(crate) const MANUAL_AFTER_HELP: &str = "The page is in roff, as `man` reads it.

Status:
  0  the page is printed
  4  `amo: out of memory`: nothing is printed
     `amo: device`: standard output failed

Examples:
  amo man | man -l -
  amo man >~/.local/share/man/man1/amo.1";

pub(crate) const COMPLETIONS_ABOUT: &str = "Prints completions for a shell";

pub(crate) const COMPLETIONS_AFTER_HELP: &str =
    "They complete the commands, their options, and of values the names and the files.

Status:
  0  the completions are printed
  4  `amo: out of memory`: nothing is printed
     `amo: device`: standard output failed

Where each shell looks for them:
  amo completions bash >~/.local/share/bash-completion/completions/amo
  amo completions zsh >~/.zfunc/_amo     # with ~/.zfunc in $fpath, before compinit
  amo completions fish >~/.config/fish/completions/amo.fish";
