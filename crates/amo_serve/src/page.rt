//! The page for people: one file, which loads nothing from elsewhere. It shows all streams, and follows what happens; without a script it says where
//! to look.

/// The page.
pub(crate) const PAGE: &str = r##"<!doctype html>
<html lang="en">
<head>
<meta charset="utf-8">
<meta name="viewport" content="width=device-width">
<title>amo</title>
<link rel="icon" href="data:,">
<style>
:root { color-scheme: light dark; --page: #fff; --ink: #1b1f24; --pale: #57606a; --line: #d0d7de; --none: #eef1f4; --open: #ffe8a3; --yes: #b7ebc3; --no: #ffc9c4; --ready: #b9dcff; --taken: #e2d6fa; }
@media (prefers-color-scheme: dark) { :root { --page: #14181d; --ink: #e6edf3; --pale: #9aa4af; --line: #3a424b; --none: #21272e; --open: #6b5310; --yes: #1f5c33; --no: #7a2b27; --ready: #174a7c; --taken: #4b3a78; } }
body { background: var(--page); color: var(--ink); font: 15px/1.45 system-ui, sans-serif; margin: 1.5rem auto; max-width: 64rem; padding: 0 1rem; }
[hidden] { display: none !important; }
h1 { font-size: 1.3rem; margin: 0 0 .3rem; } h2 { font-size: 1.05rem; margin: 1.4rem 0 .4rem; }
p, dl { margin: .3rem 0; } .pale { color: var(--pale); }
#grid { display: grid; gap: 3px; grid-template-columns: repeat(auto-fill, minmax(1.8rem, 1fr)); }
#grid button { background: var(--none); border: 1px solid var(--line); border-radius: 4px; color: var(--ink); cursor: pointer; font: inherit; line-height: 1.15; padding: .15rem 0; }
#grid button small { color: var(--pale); display: block; font-size: .68rem; }
.O small, .Y small, .N small, .R small, .T small { color: inherit !important; }
#grid button[aria-pressed=true] { outline: 2px solid var(--ink); }
.O { background: var(--open) !important; } .Y { background: var(--yes) !important; } .N { background: var(--no) !important; } .R { background: var(--ready) !important; } .T { background: var(--taken) !important; }
#key { color: var(--pale); display: flex; flex-wrap: wrap; gap: .2rem 1rem; list-style: none; margin: .3rem 0 .5rem; padding: 0; }
#key b { background: var(--none); border: 1px solid var(--line); border-radius: 4px; color: var(--ink); display: inline-block; font-weight: normal; line-height: 1.15; margin-right: .35rem; text-align: center; width: 1.4rem; }
dl { display: grid; grid-template-columns: max-content 1fr; gap: .1rem 1rem; } dt { color: var(--pale); } dd { margin: 0; font-variant-numeric: tabular-nums; overflow-wrap: anywhere; }
form { display: flex; flex-wrap: wrap; gap: .5rem; } input { background: var(--page); border: 1px solid var(--line); border-radius: 4px; color: inherit; flex: 1 1 16rem; font: inherit; padding: .25rem .4rem; }
input::placeholder { color: var(--pale); opacity: 1; } input[readonly] { background: var(--none); }
form button { font: inherit; padding: .25rem .8rem; }
#chart { overflow: hidden; } svg { display: block; } svg text { fill: var(--ink); font: 12px system-ui, sans-serif; } svg line { stroke: var(--ink); } svg .rail { stroke: var(--line); }
#told { min-height: 1.4em; }
</style>
</head>
<body>
<h1>amo <span id="side" class="pale"></span></h1>
<p id="about" class="pale">What this host is stands at <a href="/v1">/v1</a>, what it counted at <a href="/metrics">/metrics</a>, and how stream 1 is at <a href="/v1/streams/1">/v1/streams/1</a>. With scripts this page shows all streams, and puts messages.</p>
<section id="all" hidden>
<dl id="facts"></dl>
<h2>Streams, each with a letter and its number</h2>
<ul id="key"></ul>
<div id="grid"></div>
<h2 id="name"></h2>
<dl id="detail"></dl>
<form id="put" hidden><input id="text" required maxlength="1024" aria-label="Message" placeholder="Message, 1,024 bytes at most"><button>Put</button></form>
<form id="take" hidden><button>Take the next message</button></form>
<p id="told" role="status"></p>
<div id="chart"></div>
</section>
<script>
"use strict";
const at = id => document.getElementById(id);
// Who calls: drawn at each load, since a browser hands what it keeps for a tab to the tab's double too.
const by = Array.from(crypto.getRandomValues(new Uint8Array(12)), b => b.toString(16).padStart(2, "0")).join("");
const meaning = { "–": "nothing yet", O: "the last message is on its way", Y: "the last message was got", N: "the last message was got or lost", R: "a message is ready", T: "all that came was taken" };
let host, chosen = 1, events = 0, since = Date.now();
const states = [], news = [];
const kept = kind => JSON.parse(sessionStorage.getItem(kind) || "null");
const count = (many, what) => many.toLocaleString("en") + " " + what + (many === 1 ? "" : "s");
const pause = time => new Promise(done => setTimeout(done, time));
const letter = state => !state ? "–" : "put" in state ? { open: "O", yes: "Y", no: "N" }[state.last] || "–" : state.ready ? "R" : state.taken ? "T" : "–";
const fill = (list, facts) => list.replaceChildren(...facts.flatMap(([name, value]) => { const dt = document.createElement("dt"), dd = document.createElement("dd"); dt.textContent = name; dd.textContent = value; return [dt, dd]; }));

async function ask(path, options) {
  const answer = await fetch(path, options);
  if (answer.status === 204) return null;
  const is_json = (answer.headers.get("content-type") || "").startsWith("application/json");
  const body = is_json ? await answer.json() : await answer.text();
  if (!answer.ok) throw Object.assign(new Error(body.text || "status " + answer.status), { status: answer.status, word: body.error, put: body.put });
  return { body, answer };
}

// Whether a call need not be made again, since a refusal tells what came of it. A call that was made once came to nothing, but of a host that is crowded or
// hears slowly nothing is known, nor by what answers in its place. Of one that was made before, which may have been heard then, only these words tell.
const is_told = (fault, is_again) => is_again ? ["conflict", "ending", "full", "other_life", "too_long"].includes(fault.word)
  : !!fault.word && fault.status !== 408 && (fault.status !== 503 || ["ending", "full"].includes(fault.word));

// A call is kept until the host itself has answered it, also over a reload, so that what is asked again is the same call: that puts and takes nothing twice.
async function once(kind, method, learn) {
  const before = kept(kind), call = before || await learn();
  sessionStorage.setItem(kind, JSON.stringify(call));
  for (let tries = 1; ; tries += 1) {
    try {
      const told = await ask(call.path, { method, body: call.text === undefined ? undefined : new TextEncoder().encode(call.text) });
      sessionStorage.removeItem(kind);
      return { call, told };
    } catch (fault) {
      const is_again = !!before || tries > 1;
      if (is_told(fault, is_again)) sessionStorage.removeItem(kind);
      if (fault.status || tries === 3) throw Object.assign(fault, { call, is_again });
      await pause(500);
    }
  }
}

async function learn(stream) {
  states[stream] = (await ask("/v1/streams/" + stream)).body;
  show(stream);
}

function show(stream) {
  const button = at("grid").children[stream - 1], what = letter(states[stream]);
  button.className = what;
  button.firstChild.textContent = what;
  button.title = "stream " + stream + ": " + meaning[what];
  button.setAttribute("aria-label", button.title);
  button.setAttribute("aria-pressed", stream === chosen);
  if (stream === chosen) detail();
}

function detail() {
  const state = states[chosen];
  at("name").textContent = "Stream " + chosen + ": " + meaning[letter(state)];
  if (!state) return;
  fill(at("detail"), "put" in state
    ? [["put in this life", count(state.put, "message")], ["waiting", count(state.waiting, "message")], ["the last one", state.last || "none"]]
    : [["taken in this life", count(state.taken, "message")], ["the next one", state.ready ? "ready" : "not yet come"]]);
  chart();
}

function chart() {
  const told = news.filter(it => it.stream === chosen).slice(-8), ns = "http://www.w3.org/2000/svg";
  const width = Math.min(520, at("chart").clientWidth || 520), height = 40 + told.length * 26, left = 40, right = width - 40;
  const svg = document.createElementNS(ns, "svg");
  svg.setAttribute("width", width); svg.setAttribute("height", height); svg.setAttribute("role", "img");
  svg.setAttribute("aria-label", "The last events of stream " + chosen + ": " + told.map(it => it.event).join(", "));
  const add = (kind, fields, text) => { const it = document.createElementNS(ns, kind); for (const name in fields) it.setAttribute(name, fields[name]); if (text !== undefined) it.textContent = text; svg.append(it); };
  add("text", { x: 0, y: 14 }, "programs here"); add("text", { x: width, y: 14, "text-anchor": "end" }, "the other host");
  for (const x of [left, right]) add("line", { x1: x, x2: x, y1: 22, y2: height - 4, class: "rail" });
  told.forEach((it, place) => {
    const y = 46 + place * 26, out = it.event === "put", from = out ? left : right, to = out ? right : left, tip = out ? -8 : 8;
    add("line", { x1: from, x2: to, y1: y, y2: y }); add("line", { x1: to, x2: to + tip, y1: y, y2: y - 4 }); add("line", { x1: to, x2: to + tip, y1: y, y2: y + 4 });
    const text = it.text !== undefined ? it.text : it.hex !== undefined ? "0x" + it.hex : "", most = Math.floor((right - left) / 9) - 5;
    add("text", { x: width / 2, y: y - 5, "text-anchor": "middle" }, it.event + " " + (text.length > most ? text.slice(0, most) + "…" : text));
  });
  const nothing = "Nothing was " + (host.side === "send" ? "put" : "taken") + " since this page was opened.";
  at("chart").replaceChildren(told.length ? svg : document.createTextNode(nothing));
}

function facts() {
  const seconds = (Date.now() - since) / 1000;
  fill(at("facts"), [["life", host.life], ["version", host.version], ["the other host", host.peer], ["since", new Date(host.since * 1000).toLocaleString()], ["the host has", count(host.streams, "stream")],
    ["this page saw", count(events, "event") + ", " + (events / Math.max(seconds, 1)).toFixed(1) + " events a second"]]);
}

function tell(event) {
  const it = JSON.parse(event.data);
  events += 1;
  if (it.stream) { news.push(it); if (news.length > 2000) news.splice(0, 1000); learn(it.stream).catch(() => {}); }
}

// What is told of a call that is kept: what it may have done, what tells that, and what asks the same again. That it was refused then is no news of it.
const untold = (done, teller, asker, { is_again, word, message } = {}) => (!word ? "No answer came: " : is_again ? "No answer came, and then a refusal: " + message + ". But " : "It was put off: " + message + ". But ")
  + done + ", which " + teller + " JOURNAL tells. " + asker + " asks the same again" + (is_again && word ? "; a new tab would do it once more." : ".");

// What a call that has no answer may have done is told of; its text stays as it is until the call was answered.
function show_kept(fault) {
  const call = kept("put");
  at("text").readOnly = !!call;
  if (!call) return;
  at("text").value = call.text;
  at("told").textContent = untold("message " + call.number + " of stream " + call.stream + " may have been put", "amo outcomes", "Put", fault);
}

// What became of a message of a life that is over.
async function earlier(call) {
  const { body } = await ask("/v1/streams/" + call.stream + "/messages/" + call.number + "?life=" + call.life).catch(() => ({ body: {} }));
  const fates = { never: "was never put, and may be put again", gone: "is gone, and may be put again", got: "was got", open: "is on its way" };
  const fate = fates[body.outcome] || (body.outcome ? "may have been put and got" : "may have been put, which amo outcomes JOURNAL tells");
  return "The host was started again. Message " + call.number + " of stream " + call.stream + " in its life before, unless another program put it, " + fate + ".";
}

// What became of a put that the host refused. One that was asked for before may have been put then.
async function refused({ call, is_again, word, put, message }) {
  if (is_again && word === "other_life") return earlier(call);
  if (is_again && word === "conflict" && put > call.number) return "Message " + call.number + " of stream " + call.stream + " may have been put, and others behind it: amo outcomes JOURNAL tells.";
  return "Not put: " + message + ".";
}

// One call at a time: who clicks twice asks once.
let is_busy = false;
const alone = work => async event => {
  event.preventDefault();
  if (is_busy) return;
  is_busy = true;
  try { await work(); } finally { is_busy = false; }
};

at("put").addEventListener("submit", alone(async () => {
  const stream = chosen, text = at("text").value;
  try {
    const { told } = await once("put", "PUT", async () => {
      const { life, put } = (await ask("/v1/streams/" + stream)).body, number = put + 1;
      return { stream, number, life, text, path: "/v1/streams/" + stream + "/messages/" + number + "?life=" + life + "&by=" + by };
    });
    at("told").textContent = "Message " + told.body.number + " of stream " + told.body.stream + " was put, by line " + told.body.line + " of the journal.";
    at("text").value = ""; at("text").readOnly = false;
  } catch (fault) {
    if (kept("put")) return show_kept(fault);
    at("text").readOnly = false;
    at("told").textContent = await refused(fault);
  }
}));
at("take").addEventListener("submit", alone(async () => {
  const stream = chosen;
  try {
    const { call, told } = await once("take", "POST", async () => {
      const { life, taken } = (await ask("/v1/streams/" + stream)).body, number = taken + 1;
      return { stream, number, path: "/v1/streams/" + stream + "/take?life=" + life + "&by=" + by + "&number=" + number };
    });
    at("told").textContent = told ? "Message " + call.number + " of stream " + call.stream + ": " + told.body : "No message has come.";
  } catch (fault) {
    at("told").textContent = kept("take") ? untold("a message may have been taken", "amo got", "The button", fault)
      : fault.is_again && ["other_life", "conflict"].includes(fault.word) ? "A message may have been taken before, which amo got JOURNAL tells." : "Not taken: " + fault.message + ".";
  }
}));

const learn_all = async () => { for (let stream = 1; stream <= host.streams; stream += 1) await learn(stream); };

// No event tells that a message has come: where the journal grows, all streams are looked at.
async function watch(lines) {
  let now = lines;
  if (!document.hidden) now = await ask("/metrics").then(({ body }) => /^amo_journal_next_line (.*)$/m.exec(body)[1]).catch(() => lines);
  if (now !== lines) await learn_all().catch(() => {});
  await pause(1000);
  watch(now);
}

(async () => {
  host = (await ask("/v1")).body;
  const sends = host.side === "send";
  at("side").textContent = sends ? "sends" : "receives";
  document.title = "amo " + host.side + " " + location.host;
  at("about").hidden = true; at("all").hidden = false; at(sends ? "put" : "take").hidden = false;
  for (const what of sends ? ["–", "O", "Y", "N"] : ["–", "R", "T"]) {
    const row = document.createElement("li"), sign = document.createElement("b");
    sign.className = sign.textContent = what; row.append(sign, meaning[what]);
    at("key").append(row);
  }
  for (let stream = 1; stream <= host.streams; stream += 1) {
    const button = document.createElement("button"), small = document.createElement("small");
    button.type = "button"; button.append("–", small); small.textContent = stream;
    button.addEventListener("click", () => { const before = chosen; chosen = stream; show(before); show(stream); });
    at("grid").append(button);
  }
  const follow = new EventSource("/v1/events");
  for (const name of ["put", "yes", "no", "got", "crash", "peer", "fault"]) follow.addEventListener(name, tell);
  follow.onerror = () => { at("told").textContent = "The host is not heard; this page asks again."; };
  follow.onopen = async () => {
    const now = (await ask("/v1")).body;
    if (now.life !== host.life) { host = now; states.length = 0; }
    at("told").textContent = ""; facts();
    show_kept();
    await learn_all();
  };
  facts(); setInterval(facts, 1000); addEventListener("resize", chart);
  if (!sends) watch("");
})().catch(fault => { at("about").textContent = "The host is not heard: " + fault.message; });
</script>
</body>
</html>
"##;
