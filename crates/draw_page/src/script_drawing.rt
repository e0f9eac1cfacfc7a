//! A part of the script of a page: `.ci/page --write` writes this file from scripts in `page/`.

/// The page behind its data, its part drawing.
pub(crate) const DRAWING: &str = r##"
// Elements of the page and texts in them.
const $ = id => document.getElementById(id);
const view = $("view"), sheet = $("sheet"), drawing = $("drawing");
// What is shown: one or two events are `kept`, `pair` is that of the walk, `step` the width of a column, `order` that
// of the rows, and `fold` says whether rows of silent events are folded.
const state = { hidden: new Set(), kept: [], find: "", regex: false, case: false, pair: -1, step: 16, fold: false,
  order: [] };
for (const it of document.querySelectorAll("[data-made]")) it.replaceChildren(); // of a page that was saved as it stood
const untouched = document.documentElement.cloneNode(true); // the page as it came
let current = -1, cone = null, lit = [], matches = []; // the event pointed at; what is lit; what is found
function make(name, attributes, parent, text = "") {
  const made = document.createElementNS(parent.namespaceURI, name);
  for (const key in attributes) made.setAttribute(key, attributes[key]);
  made.textContent = text;
  return parent.appendChild(made);
}
const pen = document.createElement("canvas").getContext("2d");
function textWidth(text, size, weight = 400) {
  pen.font = `${weight} ${size}px "DejaVu Sans", "Segoe UI", system-ui, sans-serif`;
  return pen.measureText(text).width;
}
// As much of a text as there is room for, with dots for the rest.
function shortened(text, room, size, weight = 400) {
  const signs = [...text.slice(0, 400).replace(/[\p{Cc}\u2028\u2029]+/gu, " ")], all = signs.length;
  const cut = n => signs.slice(0, n).join("") + (n < all || text.length > 400 ? "\u2026" : "");
  const fits = n => textWidth(cut(n), size, weight) <= room;
  return cut(fits(all) ? all : Math.max(0, firstPlace([...signs.keys()], n => !fits(n)) - 1));
}
// Writes words into an element; what others wrote stands in elements of its own.
function write(parent, words) {
  for (const it of words)
    if (it.own === undefined) parent.append(it); else make("bdi", {}, parent, it.own);
  return parent;
}
const fill = (id, words) => { $(id).replaceChildren(); return write($(id), words); };

// Sizes and places, in pixels: where columns and rows stand in the view.
const TOP = 34, FOOT = 16, PAD = 26;
let gutter = 80, rowHeight = 40, rows = [], rowOf = [], height = 0, width = 0, tall = 0, scrolled = 0;
const origin = () => gutter + PAD, spare = () => width < 600 ? 40 : 100; // spare: what stands right of the last column
const sheetWidth = () => origin() + (columns - 1) * state.step + spare();
const leastStep = () => Math.max(0.01, (width - origin() - spare()) / Math.max(1, columns - 1));
const rowY = h => TOP + (rowOf[h] + 0.5) * rowHeight;
const middle = () => (gutter + width) / 2;
const columnAt = x => (x + view.scrollLeft - origin()) / state.step;
const xOf = i => origin() + column[i] * state.step - view.scrollLeft;
const centre = c => { view.scrollLeft = origin() + c * state.step - middle(); };
const stretch = () => { sheet.style.width = `${Math.max(sheetWidth(), width)}px`; };
// How many milliseconds pass from one event that is played to the next.
const playEvery = () => Number(document.documentElement.dataset.playEvery) || 600;
const weightOf = host => host.rule ? 700 : 400; // names of hosts that are asked about are bold
function measure() {
  [width, tall] = [view.clientWidth, view.clientHeight];
  rows = state.order.filter(h => !state.hidden.has(h));
  $("host-count").textContent = state.hidden.size ? `Hosts (${state.hidden.size} hidden)` : "Hosts";
  rowOf = hosts.map((_, h) => rows.indexOf(h));
  rowHeight = Math.max(22, Math.min(110, (tall - TOP - FOOT) / Math.max(1, rows.length)));
  height = Math.max(TOP + rows.length * rowHeight + FOOT, tall - 2);
  const widest = hosts.reduce((most, it) => Math.max(most, textWidth(it.name.slice(0, 99), 13, weightOf(it))), 20);
  gutter = Math.ceil(Math.min(widest + 18, Math.max(60, Math.min(200, width * 0.27))));
  stretch();
  sheet.style.height = `${height}px`;
  for (const [name, value] of Object.entries({ width, height, viewBox: `0 0 ${width} ${height}` }))
    drawing.setAttribute(name, value);
}

// The drawing: a path for each kind of mark, from back to front, written anew for what is in view.
const KINDS = ("overlap hosts gaps faint-bars bars both past-piece future-piece faint-crowd crowd faint-arrows " +
  "arrows unseen past-arrows future-arrows chain chain-back faint-dots dots hearts past-dots future-dots moment reach " +
  "members match kept current").split(" ");
const paths = Object.fromEntries(KINDS.map(kind => [kind, make("path", { class: kind }, drawing)]));
const labels = make("g", {}, drawing), names = make("g", {}, drawing);
const round = x => Math.round(x * 10) / 10;
const circle = (x, y, r) => `M${round(x - r)} ${round(y)}a${r} ${r} 0 1 0 ${2 * r} 0a${r} ${r} 0 1 0 ${-2 * r} 0`;
const atColumn = c => round(origin() + c * state.step - scrolled);
const X = i => atColumn(column[i]), Y = i => round(rowY(hostOf[i]));
const isShown = i => rowOf[hostOf[i]] >= 0;
const out = {}, drawn = {};
let crowded = false, frame = 0, waiting = 0;
// Whether a part of the drawing is to be made anew, as it is made of something else than before.
const isNew = (part, content) => drawn[part] !== (drawn[part] = content);
const forgetDrawn = () => { for (const part in drawn) delete drawn[part]; };
const paper = matchMedia("print"); // on paper stands what was in view
function draw() {
  if (paper.matches) return;
  scrolled = view.scrollLeft;
  for (const kind of KINDS) out[kind] = "";
  drawing.classList.toggle("under-way", isUnderWay());
  keepWays();
  const first = columnAt(gutter) - 2, last = columnAt(width) + 2;
  const spans = rows.map(h => [h, rankFrom(h, first), rankFrom(h, last)]);
  const count = spans.reduce((sum, [, from, to]) => sum + to - from, 0);
  crowded = count > 4000 || count > width / 2 && state.step < 7; // dots would cover each other
  for (const span of spans) drawHost(...span);
  const near = firstPlace(arrows, it => it.left >= first - longest), end = firstPlace(arrows, it => it.left > last);
  for (const it of arrows.slice(near, end)) if (it.right >= first) drawArrow(it);
  if (!crowded) halves.forEach(drawHalf);
  drawOverlap();
  drawMarks(first, last);
  out.hearts = out.dots;
  for (const kind of KINDS) if (isNew(kind, out[kind])) paths[kind].setAttribute("d", out[kind]);
  const sizes = [width, height, gutter, rows].join(" ");
  if (isNew("names", sizes)) writeNames();
  const written = [sizes, scrolled, state.step, state.fold, noteCount, play.isOn, play.at].join(" ");
  if (isNew("labels", written)) writeLabels(spans, count);
  drawStrip();
  showChips();
}
function redraw() {
  frame ||= requestAnimationFrame(() => { frame = 0; draw(); });
  clearTimeout(waiting);
  waiting = setTimeout(remember, 200);
}
// The conditions that could hold at once: a bar for each, and a box about the piece that they share.
function drawOverlap() {
  const shown = members.filter(isShown), bars = shown.map(m => isAt(hostOf[m]) ? [X(m) - 6, X(m) + 6]
    : [X(firstOf(m)), overAt(m) >= 0 ? X(overAt(m)) : runFrom(m) ? endOfRun(runFrom(m)) : endOfBar(m, width + 9)]);
  shown.forEach((m, k) => drawPiece("both", hostOf[m], ...bars[k], 16));
  const left = Math.max(gutter, ...bars.map(it => it[0])), right = Math.min(width + 9, ...bars.map(it => it[1]));
  const places = shown.map(m => rowOf[hostOf[m]]), y = row => round(TOP + (row + 0.5) * rowHeight);
  if (shown.length > 1 && left < right) out.overlap = `M${round(left)} ${y(Math.min(...places)) - 14}H${round(right)}` +
    `V${y(Math.max(...places)) + 14}H${round(left)}z`;
}
// The chains, the moment, and the marks of single events.
function drawMarks(first, last) {
  const marks = (list, mark) => [...new Set(list.filter(isShown).map(mark))].join("");
  for (const [chain, kind] of lit) chain.forEach((i, k) => {
    if (isShown(i)) out[kind] += k && isShown(chain[k - 1]) ? linkOf(chain[k - 1], i) : `M${X(i)} ${Y(i)}`;
  });
  const line = atColumn(momentColumn);
  if (moment.length) out.moment = `M${line} ${TOP - 14}V${round(TOP + rows.length * rowHeight)}`;
  out.members = marks(members, i => circle(X(i), Y(i), 8));
  for (const run of runs.filter(it => isShown(it.first)))
    drawPiece("members", hostOf[run.first], X(run.first), endOfRun(run), 22);
  out.reach = marks(moment.filter(i => column[i] < momentColumn), i => `M${X(i) + 8} ${Y(i)}H${line}m0 -7v14`);
  const grid = crowded ? 3 : 0.1; // where it is crowded, one mark for each three pixels
  out.match = marks(matches.filter(i => column[i] >= first && column[i] <= last),
    i => `M${round(Math.round(X(i) / grid) * grid)} ${Y(i) - 7}l-5 -8h10z`);
  out.kept = marks(state.kept, i => circle(X(i), Y(i), 7));
  out.current = marks([current], i => circle(X(i), Y(i), state.kept.includes(i) ? 4.5 : 6));
}
// A piece of a chain: along a host, or the way of a message.
const linkOf = (from, to) => hostOf[from] === hostOf[to] ? `L${X(to)} ${Y(to)}` : lineOf(wayBetween(from, to));
// A piece of a host's line, or a box of this breadth about it, as far as it is in view.
function drawPiece(kind, h, left, right, breadth = 0) {
  const from = round(Math.max(left, gutter - 9)), to = round(Math.min(right, width + 9)), y = round(rowY(h));
  if (from < to) out[kind] += `M${from} ${round(y - breadth / 2)}H${to}${breadth ? `v${breadth}H${from}z` : ""}`;
}
// Pieces from left to right, those in one that are at most `gap` apart.
function joined(pieces, gap) {
  const runs = [];
  for (const [left, right] of pieces)
    if (runs.length && left - runs.at(-1)[1] <= gap) runs.at(-1)[1] = right; else runs.push([left, right]);
  return runs;
}

// The lines of the hosts with their bars and events, and the arrows between them.
// The line of a host, its bars, and its events from rank `from` to before rank `to`.
function drawHost(h, from, to) {
  const them = eventsOf[h], end = Math.min(width, round(sheetWidth() - scrolled));
  const [begin, broken, whole] = startsOf(h, end);
  const stop = Math.max(gutter, whole, leftOut.more ? Math.min(end, atColumn(columns - 1) + 20) : end);
  drawPiece("gaps", h, gutter, Math.min(begin, end));
  drawPiece("hosts", h, Math.max(gutter, begin), broken);
  drawPiece("gaps", h, broken, Math.min(whole, end));
  drawPiece("hosts", h, Math.max(gutter, whole), stop);
  drawPiece("gaps", h, stop, end);
  for (const [kind, isIn] of [["bars", isReached], ["faint-bars", i => !isReached(i)]])
    for (const piece of joined(barsOf(h, from, to, end, isIn), crowded ? 1.9 : 0.1)) drawPiece(kind, h, ...piece, 16);
  for (const [a, b] of cone ? pastPieces(cone, h) : []) drawPiece("past-piece", h, X(them[a]), X(them[b - 1]) + 0.1);
  if (cone?.future[h] < them.length && cone !== momentCone && !play.isOn)
    drawPiece("future-piece", h, X(them[cone.future[h]]), X(them.at(-1)) + 0.1);
  const crowds = { crowd: [], "faint-crowd": [] };
  for (const i of them.slice(from, to)) {
    const part = shownPart(i);
    if (!crowded) out[part ? `${part}-dots` : "dots"] += `M${X(i)} ${Y(i)}h0`;
    else crowds[part ? `${part}-crowd` : "crowd"]?.push([X(i), X(i) + 1]);
  }
  for (const kind in crowds) for (const piece of joined(crowds[kind], 2)) drawPiece(kind, h, ...piece);
}
// What came after the moment isn't lit.
function shownPart(i) {
  if (!isReached(i)) return "faint";
  const part = cone ? partOf(cone, i) : "";
  return part === "future" && cone === momentCone ? "" : part;
}
// Where a host's line begins, where it breaks off behind a far event, and where it goes on. What is left of the
// beginning, and what is between, is left out.
function startsOf(h, end) {
  const [first] = eventsOf[h], isWhole = !leftOut.before || first >= 0 && hasClock(first) && own(first) === 1;
  const begin = isWhole ? gutter : first >= 0 && events[first].far ? X(first) : atColumn(afterFar) - 14;
  if (!(first >= 0 && isGapBehind(first))) return [begin, begin, begin];
  return [begin, X(first), nextOf(first) < 0 ? end : X(nextOf(first))];
}
// From where to where a host's condition holds, at these events.
function barsOf(h, from, to, end, isIn) {
  const isLasting = hosts[h].rule !== "at", them = eventsOf[h].slice(Math.max(0, from - 1), to);
  return them.filter(i => events[i].holds && isIn(i))
    .map(i => isLasting ? [X(i), endOfBar(i, end)] : [X(i) - 6, X(i) + 6]);
}
// It holds until the host's next event. Where that may be left out, it holds up to the moment at least.
function endOfBar(i, end) {
  if (isGapBehind(i)) return Math.max(X(i) + 6, atColumn(momentColumn + 0.5));
  return nextOf(i) < 0 ? end : X(nextOf(i));
}
// A run lasts to the event at which it is over, or on to the end. Where that event isn't shown, it is in the gap.
const endOfRun = ({ over, line }) => over >= 0 ? X(over) : line === null ? width + 9 : atColumn(afterFar - 1);
// The ways of arrows, and the arrows as they are drawn, by their events. Ways are kept until columns or rows change,
// arrows until the view moves too.
const ways = new Map(), drawnArrows = new Map();
let grid = { step: 0, height: 0, columns: [] };
function keepWays() {
  const sizes = [state.step, rowHeight, rows, state.fold].join(" ");
  if (isNew("arrows", `${sizes} ${scrolled} ${gutter}`)) drawnArrows.clear();
  if (!isNew("ways", sizes)) return;
  ways.clear();
  grid = { step: state.step, height: rowHeight, columns: rows.map(h => eventsOf[h].map(i => column[i])) };
}
const keyOf = (from, to) => from * N + to;
// The way of the arrow between two events, in the drawing's places.
function wayBetween(from, to) {
  const key = keyOf(from, to), placeIn = i => [column[i] * state.step, rowOf[hostOf[i]] * rowHeight];
  if (!ways.has(key)) ways.set(key, wayOf(grid, placeIn(from), placeIn(to)));
  return ways.get(key).map(([x, y]) => [origin() - scrolled + x, TOP + rowHeight / 2 + y]);
}
function arrowBetween(from, to) {
  const key = keyOf(from, to);
  if (!drawnArrows.has(key)) drawnArrows.set(key, arrow(...wayBetween(from, to)));
  return drawnArrows.get(key);
}
// A line through places, rounded where it is bent.
function lineOf(way) {
  const at = ([x, y]) => `${round(x)} ${round(y)}`, near = (k, other) => at(onTheWay(way[k], way[other], 5));
  return way.map((place, k) => k === 0 ? `M${at(place)}` : k === way.length - 1 ? `L${at(place)}`
    : `L${near(k, k - 1)}Q${at(place)} ${near(k, k + 1)}`).join("");
}
function arrow(...way) {
  const line = lineOf(way), [[x0, y0], [x1, y1]] = way.slice(-2);
  if (state.step < 6) return line;
  const long = Math.hypot(x1 - x0, y1 - y0) || 1, ux = (x1 - x0) / long, uy = (y1 - y0) / long;
  const back = (by, side) => `${round(x1 - by * ux + side * uy)} ${round(y1 - by * uy - side * ux)}`;
  return `${line}M${back(12, 3.5)}L${back(5, 0)}L${back(12, -3.5)}`;
}
function drawArrow({ from, to, unseen }) {
  const [begins, ends] = [from, to].map(i => Boolean(cone?.of.includes(i)));
  if (!isShown(from) || !isShown(to) || crowded && !begins && !ends) return;
  const isOnRoad = !cone?.roads || cone.roads.some(it => isOn(it, from) && isOn(it, to));
  const kind = !isReached(to) ? "faint-arrows" : cone && (ends || isPast(cone, to) && isOnRoad) ? "past-arrows"
    : cone && cone !== momentCone && (begins || partOf(cone, from) === "future") ? "future-arrows"
    : unseen ? "unseen" : "arrows";
  out[kind] += arrowBetween(from, to);
}
// A message of which one end is unknown or not shown: a short piece toward the other host, with a cross at a lost end.
function drawHalf({ from, to, from_host: source, to_host: target }) {
  const i = from ?? to, other = rowOf[source ?? target ?? -1] ?? -1;
  if (!isShown(i)) return;
  const x = X(i) + (from === null ? -1 : 1) * Math.min(14, state.step * 0.6), high = Math.min(20, rowHeight / 2);
  const y = Y(i) + (other >= 0 && other < rowOf[hostOf[i]] ? -high : high);
  out.unseen += from === null ? arrow([x, y], [X(i), Y(i)]) : `M${X(i)} ${Y(i)}L${x} ${y}`;
  if (to === null) out.arrows += `M${x - 3} ${y - 3}l6 6m-6 0l6 -6`;
}

// The texts of the drawing: what is left out, the events' own texts where there is room, and the hosts' names.
function writeLabels(spans, count) {
  labels.textContent = "";
  writeNotes();
  const isTight = crowded || count > 200 || rowHeight < 38 || state.step < 40;
  const taken = members.filter(m => isShown(m) && X(m) > gutter - 9 && X(m) < width).map(writeMember);
  if (!isTight) for (const [h, from, to] of spans) eventsOf[h].slice(from, to).forEach(i => writeEvent(i, taken));
  if (state.fold && !crowded) for (const [h, from, to] of spans) for (const i of eventsOf[h].slice(from, to))
    if (foldOf[i] === i && foldLength[i] > 1)
      writeText(X(i), Y(i) - 9, "middle", "label", `\u00d7${foldLength[i].toLocaleString("en")}`);
  for (const [i, text] of notes) if (isShown(i) && X(i) > gutter - 9 && X(i) < width)
    writeText(X(i) + 4, Y(i) - 12, "start", "label remark", `\u270e ${shortened(text, 240, 12)}`);
}
function writeText(x, y, anchor, kind, text) {
  return make("text", { x: round(x), y: round(y), "text-anchor": anchor, class: kind }, labels, text);
}
const faintness = i => isReached(i) ? "" : " faint";
// The moment's name, and what is left out before and behind.
function writeNotes() {
  const line = atColumn(momentColumn), half = textWidth("the moment", 13) / 2 + 4;
  if (moment.length && line > gutter && line < width)
    writeText(Math.max(gutter + half, Math.min(width - half, line)), TOP - 19, "middle", "", "the moment");
  if (leftOut.before)
    writeText(atColumn(far && 1) - 12, 12, "start", "note", `\u22ef ${plural(unseen, "event")} before`);
  if (leftOut.more) writeText(atColumn(columns - 1) + 30, 12, "end", "note", "more may follow \u22ef");
}
// The text of a member, whatever room there is. It says which piece of which row it takes.
function writeMember(m) {
  const text = shortened(events[m].text, 230, 12, 700), long = textWidth(text, 12, 700);
  const left = Math.max(gutter + 4, Math.min(X(m) - 3, width - long - 6));
  writeText(left, rowHeight < 38 ? Y(m) - 9 : Y(m) + 22, "start", `label member${faintness(m)}`, text);
  return { h: hostOf[m], left, right: left + long + 6 };
}
// The text of another event, in the room up to the next one, or up to the text of a member.
function writeEvent(i, taken) {
  if (isMember.has(i) || X(i) >= width || state.fold && foldOf[i] !== i) return;
  const left = X(i) - 3, beside = taken.filter(it => it.h === hostOf[i] && it.right > left), [near] = beside;
  if (near && near.left <= left + 30) return;
  const next = eventsOf[hostOf[i]][rank[i] + (state.fold ? foldLength[i] : 1)] ?? -1;
  const room = Math.min(next < 0 ? 174 : X(next) - X(i) - 6, 260, near ? near.left - left - 6 : 260);
  if (room > 30) writeText(left, Y(i) + 21, "start", `label${faintness(i)}`, shortened(events[i].text, room, 11));
}
const MOST_HANDLE = 32; // pixels of a row's height that are for dragging it
function writeNames() {
  names.textContent = "";
  make("rect", { class: "gutter", x: 0, y: 0, width: gutter, height }, names);
  make("line", { class: "rule", x1: gutter - 0.5, x2: gutter - 0.5, y1: 0, y2: height }, names);
  const high = Math.min(rowHeight, MOST_HANDLE);
  for (const h of rows) {
    make("rect", { class: "handle", x: 0, y: round(rowY(h) - high / 2), width: gutter - 1, height: high,
      "data-host": h }, names);
    const place = { x: 8, y: round(rowY(h) + 4.5), "data-host": h, class: hosts[h].rule ? "watched" : "other" };
    const text = make("text", place, names,
      shortened(hosts[h].name, gutter - 16, 13, weightOf(hosts[h])));
    make("title", {}, text, `${hosts[h].name} (drag it to move the row)`);
  }
}

// The overview of the whole log above the view, with a window that shows what of it is in view; and the chips that lead
// to members out of sight.
const STRIP_HIGH = 22;
const strip = $("strip"), stripPaths = Object.fromEntries(["events", "both", "moment", "window"]
  .map(kind => [kind, make("path", { class: `strip-${kind}` }, strip)]));
let stripWide = 0;
const stripX = c => round(2 + (c + 0.5) / columns * (stripWide - 4));
function drawStrip() {
  if (isNew("strip", [width, columns, momentColumn].join(" "))) drawWhole();
  const [left, right] = [stripX(Math.max(-0.5, columnAt(gutter))), stripX(Math.min(columns - 0.5, columnAt(width)))];
  stripPaths.window.setAttribute("d", `M${left} 1H${Math.max(left + 3, right)}V${STRIP_HIGH - 1}H${left}z`);
  const most = Math.max(1, sheetWidth() - width);
  strip.setAttribute("aria-valuenow", Math.round(100 * Math.min(1, scrolled / most)));
}
// How many events each place has, in steps of a pixel, the conditions that overlap, and the moment's line.
function drawWhole() {
  stripWide = width;
  strip.setAttribute("viewBox", `0 0 ${stripWide} ${STRIP_HIGH}`);
  const counts = new Float64Array(stripWide + 1);
  for (const c of column) counts[Math.round(stripX(c))]++;
  const most = counts.reduce((a, b) => Math.max(a, b), 1), base = STRIP_HIGH - 2;
  let path = "";
  const high = n => round(2 + (base - 6) * Math.log1p(n) / Math.log1p(most));
  counts.forEach((n, x) => { if (n) path += `M${x} ${base}v${-high(n)}`; });
  stripPaths.events.setAttribute("d", path);
  stripPaths.both.setAttribute("d", members.map(m => `M${stripX(column[firstOf(m)])} 3H` +
    `${overAt(m) >= 0 ? Math.max(stripX(column[overAt(m)]), stripX(column[m]) + 2) : stripX(columns - 0.5)}`).join(""));
  stripPaths.moment.setAttribute("d", moment.length ? `M${stripX(momentColumn)} 0V${STRIP_HIGH}` : "");
}
function moveByStrip(event) {
  const box = strip.getBoundingClientRect();
  centre((event.clientX - box.left - 2) / (box.width - 4) * columns - 0.5);
}
strip.addEventListener("pointerdown", event => {
  if (event.button) return;
  strip.setPointerCapture(event.pointerId);
  moveByStrip(event);
});
strip.addEventListener("pointermove", event => { if (strip.hasPointerCapture(event.pointerId)) moveByStrip(event); });
strip.addEventListener("keydown", event => {
  const way = { ArrowLeft: -1, ArrowRight: 1 }[event.key];
  if (!way || event.ctrlKey || event.altKey || event.metaKey) return;
  event.preventDefault();
  view.scrollLeft += way * (width - gutter) / 2;
});
// ---- Chips
// Where a member stands that is out of sight: an arrow, or nothing where it is in sight.
function directionOf(m) {
  const x = X(m), y = Y(m) - view.scrollTop, across = x < gutter ? "\u2190" : x > width ? "\u2192" : "";
  return !isShown(m) ? "" : across || (y < TOP ? "\u2191" : y > tall ? "\u2193" : "");
}
const MOST_CHIPS = 6;
function showChips() {
  const out = members.map(m => [m, directionOf(m)]).filter(([, arrow]) => arrow).slice(0, MOST_CHIPS);
  if (!isNew("chips", out.join(" "))) return;
  $("chips").replaceChildren();
  $("chips").style.left = `${gutter + 8}px`;
  for (const [m, arrow] of out) {
    const chip = document.createElement("button");
    chip.type = "button";
    write(chip, w`${arrow} ${where(m)}`);
    chip.addEventListener("click", () => { stepTo(m); view.focus(); });
    $("chips").append(chip);
  }
}
"##;
