//! A part of the script of a page: `.ci/page --write` writes this file from scripts in `page/`.

/// The page behind its data, its part hands.
pub(crate) const HANDS: &str = r##"
// Choosing events: `current` is the one pointed at, one or two are kept; and the walk through the pairs.
function say(strong, words) {
  const said = make("p", {}, $("info"));
  if (strong.length) write(make("strong", {}, said), strong);
  write(said, words);
}
// What is said while nothing is chosen.
function guideWords() {
  const point = "Point at an event, or tap it, to see what came before it in blue, and after it in orange.";
  if (runs.length) return `Blue is how the end of one run knows of the beginning of another. ${point}`;
  if (moment.length) return `Blue is what led to the moment, orange the conditions that could hold at once. ${point}`;
  return miss ? `The blue chain is that of the nearest miss. ${point}` : point;
}
function tell() {
  const [a, b] = state.kept, isOther = current >= 0 && !state.kept.includes(current);
  const told = !isOther ? state.kept : b === undefined ? [...state.kept, current] : [current];
  $("info").textContent = "";
  if (!told.length) return say([], [guideWords()]);
  if (play.isOn && told.length === 1) return tellPlayed(told[0]);
  for (const i of told) say(where(i), w`: ${{ own: events[i].text }}`);
  if (state.pair >= 0) return;
  if (told.length > 1 || b !== undefined) return say(...orderWords(...inOrder(...(b === undefined ? told : [a, b]))));
  if (!hasClock(told[0]))
    return say([], ["It stands so far back that its clock isn't known, nor all that came before or after it"]);
  tellOne(told[0]);
}
// The clock of an event, and how many events came before and after it.
function tellOne(i) {
  const past = cone.past.reduce((sum, n) => sum + n);
  const future = cone.future.reduce((sum, n, h) => sum + eventsOf[h].length - n, 0);
  const unclear = [...events.keys()].filter(j => !hasClock(j) && !partOf(cone, j)).length;
  say([], w`clock: ${events[i].clock.flatMap(([h, value], k) => w`${k ? ", " : ""}${hostName(h)} ${value}`)}`);
  say([], [`${plural(past, "event")} came before it, ${plural(future, "event")} after it, ` +
    `${plural(N - 1 - past - future - unclear, "event")} in no order with it` +
    (unclear ? `; of ${plural(unclear, "event")} the clock isn't known` : "")]);
}
function walkTo(k) {
  if (k >= 0) endPlay();
  state.pair = k;
  keep(pairs[k] ?? []);
  measureAndDraw();
  if (k >= 0) reveal(state.kept[0]);
}
// Ends the walk, or what is played.
function endWalk() {
  endPlay();
  if (state.pair >= 0) walkTo(-1);
}
function tellPair() {
  const [e, f] = state.kept, isWalk = state.pair >= 0;
  $("walk").hidden = !isWalk;
  $("why").setAttribute("aria-expanded", String(isWalk));
  fill("walk-words", isWalk ? w`Pair ${state.pair + 1} of ${pairs.length}. ${pairWords(e, f)}` : []);
}
// ---- Choosing events: `current` is the one pointed at, one or two are kept
function choose(i) {
  current = i;
  const [a, b] = state.kept, of = a === undefined ? i : b === undefined ? a : -1;
  cone = b !== undefined ? null : of < 0 ? momentCone : cone?.of[0] === of && cone !== momentCone ? cone : coneOf(of);
  const ways = b === undefined ? [] : state.pair < 0 ? [[...inOrder(a, b), "chain"]] : waysOfPair(a, b);
  lit = ways.map(([from, to, kind]) => [from < 0 || to < 0 ? null : chainOf(from, to), kind])
    .filter(([chain]) => chain);
  if (miss && i < 0 && a === undefined) lit = [[miss.chain, "chain"]];
  tell();
  tellPair();
  redraw();
}
function keep(list) {
  state.kept = list;
  showNote();
  choose(state.pair < 0 ? list.at(-1) ?? -1 : -1);
}
function click(i) {
  endWalk();
  const [a, b] = state.kept;
  keep(i < 0 || i === a && b === undefined ? [] : a === undefined || b !== undefined ? [i] : [a, i]);
}
// The field for the note beside the one event that is kept.
function showNote() {
  const [i] = state.kept;
  $("remark").hidden = state.kept.length !== 1;
  $("note").value = notes.get(i) ?? "";
}
// The event that a pointer means, or -1.
function under(event) {
  const [x, y] = placeOf(event), reach = event.pointerType === "touch" ? 22 : 12;
  const h = rows[Math.floor((y - TOP) / rowHeight)];
  if (h === undefined || Math.abs(y - rowY(h)) > reach + 4 || x < gutter) return -1;
  const c = columnAt(x), i = nearest(h, c);
  return i >= 0 && Math.abs(column[i] - c) * state.step <= reach ? i : -1;
}
// The rank of a host's first event that stands at a column or right of it.
const rankFrom = (h, c) => firstPlace(eventsOf[h], i => column[i] >= c);
// The event of a host that stands nearest to a column, or -1.
function nearest(h, c) {
  const k = rankFrom(h, c), left = eventsOf[h][k - 1] ?? -1, right = eventsOf[h][k] ?? -1;
  return left < 0 || right >= 0 && column[right] - c < c - column[left] ? right : left;
}
function reveal(i) {
  const x = xOf(i), y = rowY(hostOf[i]) - view.scrollTop;
  if (x < gutter + 20 || x > width - 20) view.scrollLeft += x - middle();
  if (y < TOP || y > tall - 20) view.scrollTop += y - tall / 2;
}
function stepTo(i) {
  endWalk();
  if (!isShown(i)) return;
  choose(i);
  reveal(i);
}
// From the current event to the nearest one of the next host up or down that has any.
function stepAcross(way) {
  for (let row = rowOf[hostOf[current]] + way; row >= 0 && row < rows.length; row += way)
    if (eventsOf[rows[row]].length) return stepTo(nearest(rows[row], column[current]));
}

// Playing: the events that led to the moment are chosen one after another, each as a click chooses it, and those that
// aren't reached yet are faint. `turn` has the place of each event in the order, or N.
const play = { isOn: false, at: -1, order: null, turn: null, timer: 0 };
const isReached = i => !play.isOn || play.turn[i] <= play.at;
function prepare() {
  if (play.order) return;
  play.order = scheduleOf(members);
  play.turn = new Int32Array(N).fill(N);
  play.order.forEach((i, k) => { play.turn[i] = k; });
}
// The next place in the order, forward or back, whose event is shown, or -1.
function nextPlace(way, from = play.at) {
  let k = from + way;
  while (k >= 0 && k < play.order.length && !isShown(play.order[k])) k += way;
  return k >= 0 && k < play.order.length ? k : -1;
}
const isOver = () => nextPlace(1) < 0;
const isUnderWay = () => play.isOn && !isOver();
function playTo(k) {
  if (state.pair >= 0) walkTo(-1);
  [play.isOn, play.at] = [true, k];
  keep([play.order[k]]);
  reveal(play.order[k]);
}
function pause() {
  clearTimeout(play.timer);
  play.timer = 0;
  $("play").textContent = "Play";
}
function forgetPlay() {
  pause();
  Object.assign(play, { isOn: false, at: -1, order: null, turn: null });
}
function endPlay() {
  pause();
  if (!play.isOn) return;
  play.isOn = false;
  keep(state.kept);
}
function playOn() {
  const k = nextPlace(1);
  if (k >= 0) playTo(k);
  if (isOver()) pause(); else play.timer = setTimeout(playOn, playEvery());
}
// The place of the one event that is kept, if it led to the moment.
const placeOfKept = () => state.kept.length === 1 && play.turn[state.kept[0]] < N ? play.turn[state.kept[0]] : -1;
// Plays on, or from the event that is kept, or from the first one; or pauses.
function playOrPause() {
  if (!members.length) return;
  if (play.timer) return pause();
  prepare();
  if (!play.isOn) play.at = placeOfKept() - 1;
  if (isOver() || play.at < -1) play.at = -1;
  $("play").textContent = "Pause";
  playOn();
}
// One event forward or back; the first step back is to the moment.
function playStep(way) {
  if (!members.length) return;
  pause();
  prepare();
  const from = play.isOn ? play.at : placeOfKept(), k = nextPlace(way, from < 0 && way < 0 ? play.order.length : from);
  if (k >= 0) playTo(k);
}
// ---- What is said of it
function endWords() {
  if (isDefinite) return members.length > 1 ? "All the runs have begun" : "The run has begun";
  return members.length === 1 ? "The moment: the condition holds"
    : `The moment: ${data.asks === "two" ? "two of the" : "all"} conditions hold`;
}
function tellPlayed(i) {
  const from = playedFromWords(members, play.order);
  if (isOver()) say([endWords()], ["."]);
  say(where(i), w`: ${{ own: events[i].text }}`);
  say([], w`Event ${play.at + 1} of the ${play.order.length} that led to ${runs.length ? "the runs" : "the moment"}${
    from.length ? w`, ${from}` : []}.`);
}

// Zoom and place: how the page opens, and what moves it.
function zoomTo(step, x = middle()) {
  const c = columnAt(x);
  state.step = Math.max(Math.min(leastStep(), 4), Math.min(190, step));
  stretch();
  view.scrollLeft = origin() + c * state.step - x;
  redraw();
}
// The page opens on the neighbourhood of the moment: as wide as words beside the events want it, and narrower where the
// conditions last so long that their bars would run out of the view.
function openingStep() {
  const near = miss ? [miss.of, miss.from, miss.to] : members.filter(m => !events[m].far)
    .flatMap(m => [firstOf(m), m, overAt(m)]).filter(i => i >= 0);
  const ends = near.map(i => column[i]), span = near.length ? Math.max(...ends) - Math.min(...ends) + 4 : 1;
  const room = width - origin() - 20, words = width < 600 ? 48 : 72;
  return Math.max(20, Math.min(words, room / span));
}
// Folds the rows of silent events, or unfolds them.
function fold(isFolded) {
  const wasOpen = !isMoved();
  state.fold = isFolded;
  $("fold").setAttribute("aria-pressed", String(isFolded));
  place(isFolded);
  if (wasOpen) openAtMoment();
  else {
    stretch();
    centre(current >= 0 ? column[current] : focus());
    redraw();
  }
}
let opening = { step: 0, left: 0, top: 0 };
function openAtMoment() {
  measure();
  state.step = Math.max(openingStep(), Math.min(leastStep(), 190));
  stretch();
  centre(focus());
  view.scrollTop = 0;
  members.filter(m => isShown(m) && column[m] === focus()).slice(0, 1).forEach(m => reveal(m));
  opening = { step: state.step, left: view.scrollLeft, top: view.scrollTop };
  redraw();
}
function measureAndDraw() {
  const c = columnAt(middle());
  measure();
  centre(c);
  redraw();
}
const isMoved = () => Math.abs(view.scrollLeft - opening.left) > 2 || state.step !== opening.step;
new ResizeObserver(() => {
  if (paper.matches || view.clientWidth === width && view.clientHeight === tall) return;
  if (isMoved() || state.pair >= 0) measureAndDraw(); else openAtMoment();
}).observe(view);

// Search: the events whose texts have the words, or those that `host:`, `line:` or `knew:` in front of them ask for.
const FRONT = /^\s*(host|line|knew):(\S+)\s*/;
// The tests that an event must pass, and the words behind them.
function asksOf(words) {
  const tests = [];
  for (let front = FRONT.exec(words); front; front = FRONT.exec(words)) {
    tests.push(testOf(front[1], front[2]));
    words = words.slice(front[0].length);
  }
  return [tests, words];
}
// `host:ben`, a part of a name; `line:9` and `line:9-20`; `knew:9`, the events behind that of a line.
function testOf(kind, word) {
  if (kind === "host") {
    const those = new Set([...hosts.keys()].filter(h => hosts[h].name.toLowerCase().includes(word.toLowerCase())));
    return i => those.has(hostOf[i]);
  }
  const [from, to = from] = word.split("-").map(Number);
  if (kind === "line") return i => events[i].line >= from && events[i].line <= to;
  const known = events.findIndex(it => it.line === from);
  return i => known >= 0 && i !== known && before(known, i);
}
function search() {
  let matching = null, fault = "";
  const [tests, rest] = state.regex ? [[], state.find] : asksOf(state.find);
  const words = state.regex ? rest : rest.replace(/[.*+?^${}()|[\]\\]/g, "\\$&");
  try { matching = state.find ? new RegExp(words, state.case ? "" : "i") : null; }
  catch (error) { fault = error.message; }
  const isFound = i => tests.every(test => test(i)) && matching.test(events[i].text);
  matches = matching ? [...events.keys()].filter(isFound) : [];
  $("find").setAttribute("aria-invalid", String(Boolean(fault)));
  $("matches").textContent = fault ? `Not a regular expression: ${fault}`
    : state.find ? `${plural(matches.length, "event")} found` : "";
  $("next").disabled = $("previous").disabled = !matches.length;
  redraw();
}
function toMatch(way) {
  endWalk();
  const shown = matches.filter(isShown).sort((a, b) => column[a] - column[b] || hostOf[a] - hostOf[b]);
  if (!shown.length) return;
  const at = shown.indexOf(current), c = columnAt(middle()) - 0.5, right = shown.filter(i => column[i] < c).length;
  const i = shown[((at >= 0 ? at + way : way > 0 ? right : right - 1) + shown.length) % shown.length];
  keep([i]);
  reveal(i);
  $("matches").textContent = `${shown.indexOf(i) + 1} of ${plural(shown.length, "event")} found`;
}

// The hosts: which are shown, and in which order their rows stand.
const boxes = allHosts.map(host => {
  const label = make("label", {}, $("host-list")), box = make("input", { type: "checkbox" }, label);
  make("bdi", {}, label, host.name);
  return box;
});
function show(isWanted) {
  boxes.forEach((box, h) => { box.checked = isWanted(h); });
  readBoxes();
}
function readBoxes() {
  state.hidden = new Set([...hosts.keys()].filter(h => !boxes[h].checked));
  measureAndDraw();
}
$("host-list").addEventListener("change", readBoxes);
$("hosts-asked").addEventListener("click", () => show(h => Boolean(hosts[h].rule)));
$("hosts-all").addEventListener("click", () => show(() => true));
$("hosts-none").addEventListener("click", () => show(() => false));
// Moves a host's row to where another one's stands.
function moveRow(h, row) {
  const to = rows[Math.max(0, Math.min(rows.length - 1, row))];
  if (to === undefined || to === h) return;
  const rest = state.order.filter(it => it !== h), isDown = rowOf[to] > rowOf[h];
  rest.splice(rest.indexOf(to) + (isDown ? 1 : 0), 0, h);
  state.order = rest;
  measureAndDraw();
}
const isMovedRow = () => state.order.some((h, k) => h !== listed[k]);
let draggedRow = -1;
names.addEventListener("pointerdown", event => {
  const name = event.target.closest("[data-host]");
  if (!name || event.button) return;
  event.stopPropagation();
  names.setPointerCapture(event.pointerId); // the names are written anew meanwhile
  draggedRow = Number(name.dataset.host);
});
addEventListener("pointermove", event => {
  if (draggedRow >= 0) moveRow(draggedRow, Math.floor((placeOf(event)[1] - TOP) / rowHeight));
});
for (const kind of ["pointerup", "pointercancel"]) addEventListener(kind, () => { draggedRow = -1; });
// The row of the current event, one up or down.
const moveCurrent = way => { if (isShown(current)) moveRow(hostOf[current], rowOf[hostOf[current]] + way); };

// What leaves the page: the answer as a text, a link, the drawing, and the page itself with the reader's notes.
const told = text => { $("told").textContent = text; };
async function copy(text, what) {
  try { await navigator.clipboard.writeText(text); }
  catch { if (!copyBySelection(text)) return told(`The browser doesn\u2019t let the page copy ${what}.`); }
  told(`Copied ${what}.`);
}
// Where a page may not write to the clipboard, as one of a mail: by a field that is selected.
function copyBySelection(text) {
  const field = document.createElement("textarea");
  field.value = text;
  document.body.append(field);
  field.select();
  const isDone = document.execCommand("copy");
  field.remove();
  return isDone;
}
function save(text, name, type) {
  const link = document.createElement("a"), address = URL.createObjectURL(new Blob([text], { type }));
  Object.assign(link, { href: address, download: name });
  link.click();
  setTimeout(() => URL.revokeObjectURL(address), 10000);
  told(`Saved ${name}.`);
}
const fileName = (ending, of = "") =>
  `${`${data.title || data.program} ${of}`.trim().replace(/[^\w.-]+/g, "_").replace(/^\.+/, "")}.${ending}`;
// The text of the answer, and the notes behind it.
function sharedText() {
  const noted = [...notes].map(([i, text]) => `${plain(where(i))}: ${text}`);
  return answerText() + (noted.length ? ["Notes", ...noted.map(it => `  ${it}`), ""].join("\n") : "");
}
// The drawing as a file of its own: what is in view, with the colours of the page.
function drawingText() {
  const copied = drawing.cloneNode(true), style = document.querySelector("style").textContent;
  for (const path of copied.querySelectorAll("path:not([d]), path[d='']")) path.remove();
  copied.removeAttribute("style");
  make("rect", { width: "100%", height: "100%", fill: "var(--ground)" }, copied);
  copied.prepend(copied.lastChild);
  make("style", {}, copied, style.slice(style.indexOf(":root"), style.indexOf("* {")) +
    style.slice(style.indexOf("/* The drawing. */")));
  copied.prepend(copied.lastChild);
  make("title", {}, copied, plain(headingWords()));
  copied.prepend(copied.lastChild);
  return new XMLSerializer().serializeToString(copied);
}
// ---- Notes, each beside an event
// All of them by host and line, whether or not the question shows their events; and those of the events shown.
const allNotes = new Map(), notes = new Map();
let noteCount = 0; // how often they have changed
const noteKey = i => JSON.stringify([hosts[hostOf[i]].name, events[i].line]);
function readNotes() {
  let kept = [];
  try { kept = JSON.parse($("notes").textContent || "[]"); } catch { /* what stands there is no note of this page */ }
  for (const [name, number, text] of kept) allNotes.set(JSON.stringify([name, number]), String(text));
}
function placeNotes() {
  notes.clear();
  events.forEach((_, i) => {
    const text = allNotes.get(noteKey(i));
    if (text) notes.set(i, text);
  });
}
function note(i, text) {
  const said = text.trim(), put = (map, key) => said ? map.set(key, said) : map.delete(key);
  put(notes, i);
  put(allNotes, noteKey(i));
  noteCount++;
  $("notes").textContent = JSON.stringify([...allNotes].map(([key, told]) => [...JSON.parse(key), told]));
  redraw();
}
// The page as it came, but for the notes and for the question on which it opens.
function pageText() {
  const copied = untouched.cloneNode(true);
  copied.querySelector("#notes").textContent = $("notes").textContent;
  if (links.length) copied.dataset.question = question + 1;
  return `<!DOCTYPE html>\n${copied.outerHTML}`;
}
const SHARES = {
  "copy-text": () => copy(sharedText(), "the answer"),
  "copy-link": () => { remember(); copy(location.href, "the link"); },
  "save-svg": () => save(drawingText(), fileName("svg", data.question), "image/svg+xml"),
  "save-page": () => save(pageText(), fileName("html"), "text/html"),
  print: () => window.print(),
};
for (const id in SHARES) $(id).addEventListener("click", () => SHARES[id]());

// The answer on the page, and the events as a list of words.
function showAnswer() {
  document.title = [data.title, data.question, titleWords()].filter(it => it).join(": ");
  fill("heading", headingWords());
  fill("conditions", conditionWords().flatMap((it, k) => k ? ["  \u00b7  ", ...it] : it));
  const cards = cardsOfAnswer();
  $("cards").replaceChildren();
  cards.forEach(showCard);
  $("cards").classList.toggle("many", cards.length > 4);
  $("words").textContent = data.words.replace(/\n$/, "");
  $("words").classList.toggle("long", data.words.split("\n").length > 6);
  $("said").open = !cards.length;
}
function showCard({ kind, member, title, lines, isList }) {
  const card = make("section", { class: `card ${kind}`, role: "listitem" }, $("cards"));
  const head = write(make("h2", {}, card), title);
  if (member !== undefined) {
    const link = make("a", { href: `#lines=${events[member].line}`, class: "to" }, head, "show");
    link.addEventListener("click", event => {
      event.preventDefault();
      stepTo(member);
    });
  }
  const pieces = isList ? lines : [lines.flatMap((it, k) => k ? [" ", ...it] : it)];
  for (const piece of pieces) write(make("p", {}, card), piece);
}
// ---- The list: each event with those that it follows at once, for who doesn't see the drawing
// Many take a while, so they are listed piece by piece, and what is listed stays.
const LISTING_TIME = 15; // milliseconds that a piece takes
let listedCount = 0, listTimer = 0;
function followsWords(i) {
  const before = [...(rank[i] ? [previousOf(i)] : []), ...into[i]];
  return before.length ? w`, after ${listing(before.map(where), 9)}` : [];
}
function listEvent(i) {
  const is = isMember.has(i) ? isDefinite ? " (begins a run)" : " (in the moment)" : "";
  write(make("li", {}, $("event-list")), w`${where(i)}${is}: ${{ own: events[i].text }}${followsWords(i)}`);
}
function listEvents() {
  const until = performance.now() + LISTING_TIME;
  while (listedCount < N && performance.now() < until) listEvent(listedCount++);
  clearTimeout(listTimer);
  if (listedCount < N && $("list").open) listTimer = setTimeout(listEvents, 0);
}
$("list").addEventListener("toggle", listEvents);
function listAnew() {
  listedCount = 0;
  $("event-list").replaceChildren();
  if ($("list").open) listEvents();
}

// ---- The address: what differs from how the page opens
const FIELDS = { find: "value", regex: "checked", case: "checked" };
// Events are named by their lines, which stay the same where more or less of the log is shown. Where two events share a
// line they are named by their places. A link by places is read too.
let placeOfLine, isNumbered;
function findLines() {
  placeOfLine = new Map(events.map((it, i) => [it.line, i]));
  isNumbered = placeOfLine.size === N;
}
const keptWords = () => state.kept.map(i => isNumbered ? events[i].line : i).join(".");
// What stands in the middle of the view: a column, told by how far it is from that of the event nearest to it.
function middleWords() {
  const c = columnAt(middle());
  if (!isNumbered || !N) return c.toFixed(3);
  const near = column.reduce((best, at, i) => Math.abs(at - c) < Math.abs(column[best] - c) ? i : best, 0);
  return `${events[near].line}_${(c - column[near]).toFixed(3)}`;
}
function columnOf(word) {
  const [, line, off] = /^(\d+)_(-?[\d.]+)$/.exec(word) ?? [], i = placeOfLine.get(Number(line));
  return i === undefined ? Number(word) : column[i] + Number(off);
}
const addressOf = parts => String(new URLSearchParams(Object.entries(parts).filter(([, value]) => value)));
const searchWords = () => ({ find: state.find, regex: Number(state.regex), case: Number(state.case) });
function address() {
  return addressOf({
    question: question !== openingQuestion && question + 1,
    pair: state.pair + 1, [isNumbered ? "lines" : "events"]: state.pair < 0 && keptWords(),
    ...searchWords(),
    hide: [...state.hidden].sort((a, b) => a - b).join("."), fold: Number(state.fold),
    rows: isMovedRow() && state.order.join("."),
    zoom: state.step !== opening.step && Number(state.step.toPrecision(6)),
    at: isMoved() && middleWords(),
    down: Math.abs(view.scrollTop - opening.top) > 2 && view.scrollTop.toFixed(),
  });
}
function remember() {
  try { history.replaceState(null, "", `#${address()}`); } catch { /* where the page has no address of its own */ }
}
function readAddress(hash = location.hash) {
  endPlay();
  const words = Object.fromEntries(new URLSearchParams(hash.slice(1)));
  const asks = replies[words.question - 1] ? words.question - 1 : openingQuestion;
  if (asks !== question) build(asks);
  const numbers = key => [...new Set((words[key] || "").split(".").filter(it => /^\d+$/.test(it)).map(Number))];
  const places = (key, below) => numbers(key).filter(it => it < below), order = places("rows", H);
  const kept = [...numbers("lines").map(it => placeOfLine.get(it)).filter(i => i >= 0), ...places("events", N)];
  const pair = pairs[words.pair - 1] ? words.pair - 1 : -1;
  Object.assign(state, { hidden: new Set(places("hide", H)), find: words.find || "", regex: words.regex === "1",
    case: words.case === "1", pair, order: order.length === H ? order : listed });
  for (const id in FIELDS) $(id)[FIELDS[id]] = state[id];
  boxes.forEach((box, h) => { box.checked = !state.hidden.has(h); });
  if (state.fold !== (words.fold === "1")) fold(words.fold === "1");
  openAtMoment(); // scroll bars may appear, and the words above the view take room from it
  keep(pairs[pair] ?? kept.slice(0, 2));
  openAtMoment();
  if (words.zoom > 0) zoomTo(Number(words.zoom));
  if (words.at && Number.isFinite(columnOf(words.at))) centre(columnOf(words.at));
  if (words.down >= 0) view.scrollTop = words.down;
  search();
  draw();
}

// The list of the questions, where there are several, and what leads from one to another.
const links = replies.length < 2 ? [] : replies.map(listQuestion);
function listQuestion(reply, k) {
  const link = make("a", { href: `#question=${k + 1}` }, make("li", {}, $("question-list")));
  write(make("b", {}, link), [{ own: reply.question }]);
  for (const words of briefWords(reply)) {
    link.append(" ");
    write(make("span", {}, link), words);
  }
  link.title = `${link.textContent} (keys: q and Q)`;
  link.addEventListener("click", event => {
    if (event.ctrlKey || event.metaKey || event.shiftKey) return; // which open it elsewhere
    event.preventDefault();
    toQuestion(k);
  });
  return link;
}
// The question that the page opens on: that on which it was saved, or else the first that has a moment.
function questionAtFirst() {
  const chosen = Number(document.documentElement.dataset.question) - 1;
  return replies[chosen] ? chosen : Math.max(0, replies.findIndex(it => it.moment));
}
const openingQuestion = questionAtFirst();
// Goes to a question, which the address then says. What is searched and folded stays so.
function toQuestion(k) {
  if (k === question) return openAtMoment();
  remember();
  const hash = `#${addressOf({ question: k + 1, ...searchWords(), fold: Number(state.fold) })}`;
  try { history.pushState(null, "", hash); } catch { /* where the page has no address of its own */ }
  readAddress(hash);
}
const stepQuestion = way => { if (links.length) toQuestion((question + way + links.length) % links.length); };
// Marks the question that is chosen, and brings it into sight in the list.
function markQuestion() {
  links.forEach((link, k) => link.setAttribute("aria-current", String(k === question)));
  const chosen = links[question];
  if (chosen) $("question-list").scrollTo(chosen.offsetLeft - 24, chosen.offsetTop - 4);
}

// ---- Hands: pointer, keys, buttons
const placeOf = ({ clientX, clientY }, box = view.getBoundingClientRect()) =>
  [clientX - box.left - view.clientLeft, clientY - box.top - view.clientTop + view.scrollTop];
let grip = null;
view.addEventListener("pointermove", event => {
  if (event.pointerType === "touch") return;
  if (grip) {
    const [dx, dy] = [event.clientX - grip.x, event.clientY - grip.y];
    grip.moved ||= Math.abs(dx) + Math.abs(dy) > 4;
    if (grip.moved) [view.scrollLeft, view.scrollTop] = [grip.left - dx, grip.top - dy];
  } else {
    const i = under(event);
    if (i >= 0 && i !== current) choose(i);
  }
});
view.addEventListener("pointerleave", () => { if (state.kept.length) keep(state.kept); });
sheet.addEventListener("pointerdown", event => { // not on a scroll bar
  if (!event.button) grip = { x: event.clientX, y: event.clientY, left: view.scrollLeft, top: view.scrollTop };
});
for (const kind of ["pointerup", "pointercancel"]) addEventListener(kind, event => {
  if (kind === "pointerup" && grip && !grip.moved && view.contains(event.target)) click(under(event));
  grip = null;
});
view.addEventListener("wheel", event => {
  if (!event.ctrlKey && !event.metaKey) return;
  event.preventDefault();
  zoomTo(state.step * Math.exp(-event.deltaY / 300), placeOf(event)[0]);
}, { passive: false });
view.addEventListener("scroll", redraw, { passive: true });
const ACTS = {
  "to-moment": openAtMoment, why: () => { if (pairs.length) walkTo(state.pair < 0 ? 0 : -1); },
  "walk-on": () => walkTo((state.pair + 1) % pairs.length), "walk-end": endWalk,
  "walk-back": () => walkTo((state.pair + pairs.length - 1) % pairs.length),
  "zoom-in": () => zoomTo(state.step * 1.4), "zoom-out": () => zoomTo(state.step / 1.4),
  "zoom-all": () => zoomTo(leastStep()), fold: () => fold(!state.fold),
  next: () => toMatch(1), previous: () => toMatch(-1), play: playOrPause,
};
for (const id in ACTS) $(id).addEventListener("click", () => ACTS[id]());
for (const id in FIELDS) $(id).addEventListener("input", () => { state[id] = $(id)[FIELDS[id]]; search(); });
// Without a current event each of these goes to the moment.
const KEYS_OF_VIEW = {
  ArrowRight: () => stepTo(nextOf(current)), ArrowLeft: () => stepTo(previousOf(current)),
  ArrowUp: () => stepAcross(-1), ArrowDown: () => stepAcross(1),
  Home: () => stepTo(eventsOf[hostOf[current]][0]), End: () => stepTo(eventsOf[hostOf[current]].at(-1)),
  Enter: () => click(current), " ": () => click(current),
};
const begin = () => stepTo([...members, ...events.keys()].find(isShown) ?? -1);
const KEYS = {
  "/": () => $("find").focus(), "+": ACTS["zoom-in"], "=": ACTS["zoom-in"], "-": ACTS["zoom-out"], 0: ACTS["zoom-all"],
  "<": () => moveCurrent(-1), ">": () => moveCurrent(1), m: openAtMoment, w: ACTS.why, f: ACTS.fold,
  p: playOrPause, ".": () => playStep(1), ",": () => playStep(-1),
  n: ACTS.next, N: ACTS.previous, Escape: () => { endWalk(); keep([]); },
  q: () => stepQuestion(1), Q: () => stepQuestion(-1),
};
const KEYS_OF_FIND = { Enter: event => toMatch(event.shiftKey ? -1 : 1), Escape: () => view.focus() };
addEventListener("keydown", event => {
  if (event.target === $("note")) return;
  const inFind = event.target === $("find"), step = view.contains(event.target) && KEYS_OF_VIEW[event.key];
  const act = inFind ? KEYS_OF_FIND[event.key] : step && current < 0 ? begin : step || KEYS[event.key];
  if (!act || event.ctrlKey || event.altKey || event.metaKey) return;
  if (!inFind) event.preventDefault();
  act(event);
});
$("note").addEventListener("input", () => { if (state.kept.length === 1) note(state.kept[0], $("note").value); });
// The address itself may be the page's own again: `remember` may have written it since.
addEventListener("hashchange", event => readAddress(new URL(event.newURL).hash));

// The start: what is built of a question, and what the address asks for.
function showExtent() {
  const lines = events.filter(it => !it.far).map(it => it.line);
  $("extent").textContent = `Shown: ${plural(N, "event")} of ${plural(H, "host")}` +
    (lines.length && (leftOut.before || leftOut.more) ? `, ${data.unit}s ${lines[0]} to ${lines.at(-1)}` : "") +
    (leftOut.before ? `. Left out: ${plural(unseen, "event")} before them` : "") +
    (far ? `; left of the gap: ${plural(far, "event")} of the ${runs.length ? "runs" : "moment"} from further back`
      : "") + (leftOut.more ? ". More may follow behind what is shown." : ".");
}
function showTools() {
  [$("to-moment").hidden, $("play").hidden, $("why").hidden] = [!members.length, !members.length, !pairs.length];
  [$("to-moment").textContent, $("why").title, $("overlap-key").textContent] = runs.length
    ? ["Runs", "Why the runs overlap. Key: w", "held at once"]
    : ["Moment", "Why nothing orders its events. Key: w", "could hold at once"];
  $("fold").disabled = !foldLength.some(n => n > 1);
  $("hosts-asked").disabled = !asked.length;
  const isDrawn = { moment: moment.length, runs: runs.length, bar: events.some(it => it.holds),
    overlap: members.length };
  for (const key of document.querySelectorAll("#legend [data-of]")) key.hidden = !isDrawn[key.dataset.of];
  drawing.setAttribute("aria-label",
    `Space-time diagram: ${plural(H, "host")}, ${plural(N, "event")}, ${plural(messages.length, "message")}`);
}
// Nothing is chosen, drawn or played of this question yet.
function forget() {
  [current, cone, lit, matches] = [-1, null, [], []];
  Object.assign(state, { kept: [], pair: -1, fold: false });
  $("fold").setAttribute("aria-pressed", "false");
  forgetDrawn();
  forgetPlay();
}
function build(k) {
  ask(k);
  forget();
  findLines();
  placeNotes();
  markQuestion();
  showAnswer();
  showExtent();
  showTools();
  listAnew();
}
for (const id of ["questions", "question-keys"]) $(id).hidden = !links.length;
readNotes();
readAddress();
</script></body></html>
"##;
