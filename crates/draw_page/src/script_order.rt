//! A part of the script of a page: `.ci/page --write` writes this file from scripts in `page/`.

/// The page behind its data, its part order.
pub(crate) const ORDER: &str = r##"</script><script>
"use strict";
// What the page shows of the question that is chosen. An event is named by its place in the data, a host likewise.
let data, events, hosts, leftOut, N, H;
// The members of the moment; or, where the conditions must have held at once, the first events of the runs; each two of
// them.
let members, isDefinite, moment, isMember, pairs;
// The hosts as they are listed: those of the answer, in its order, then those that are asked about, then all others.
let asked, listed;
let lastLine; // of the events
function take(those) {
  data = those;
  ({ events, hosts, left_out: leftOut } = data);
  [N, H] = [events.length, hosts.length];
  members = data.moment || [];
  isDefinite = data.answer === "definite";
  moment = isDefinite ? [] : members;
  isMember = new Set(members);
  pairs = members.flatMap((f, j) => members.slice(0, j).map(e => [e, f]));
  asked = [...hosts.keys()].filter(h => hosts[h].rule);
  listed = [...new Set([...members.map(m => events[m].host), ...asked, ...hosts.keys()])];
  lastLine = events.reduce((most, it) => Math.max(most, it.line), 0);
}

// What came before what: the order of the events from their clocks, the messages, and the chains of messages. An
// event's rank is its place among its host's events.
let eventsOf, hostOf, rank, clocks;
function findOrder() {
  eventsOf = hosts.map(() => []);
  [hostOf, rank, clocks] = [new Int32Array(N), new Int32Array(N), new Uint32Array(N * H)];
  events.forEach((event, i) => {
    hostOf[i] = event.host;
    rank[i] = eventsOf[event.host].push(i) - 1;
    for (const [h, value] of event.clock) clocks[i * H + h] = value;
  });
  eventsOf.forEach(([i, next], h) => {
    if (i >= 0 && !hasClock(i)) clocks[i * H + h] = next >= 0 ? own(next) - 1 : 2 ** 32 - 1;
  });
}
const known = (i, h) => clocks[i * H + h]; // the number up to which event i knows host h
const own = i => known(i, hostOf[i]);
// A far event, its host's first one, may have no clock: its number is then taken to be the greatest that it can be.
const hasClock = i => events[i].clock.length > 0;
const before = (a, b) => hostOf[a] === hostOf[b] ? rank[a] < rank[b] : known(b, hostOf[a]) >= own(a);
const previousOf = i => eventsOf[hostOf[i]][rank[i] - 1] ?? -1;
const nextOf = i => eventsOf[hostOf[i]][rank[i] + 1] ?? -1;
// The place of a list's first item for which `test` holds, as it does for all behind it; or the list's length.
function firstPlace(list, test) {
  let low = 0, high = list.length;
  while (low < high) {
    const middle = (low + high) >> 1;
    if (test(list[middle])) high = middle; else low = middle + 1;
  }
  return low;
}
// Whether events may be left out between a far event, if this is one, and the host's next one here. By their numbers
// none is between two that follow each other; the number of one without a clock is only known where it is 1.
function isGapBehind(i) {
  const next = nextOf(i), isSure = hasClock(i) || next >= 0 && own(next) === 2;
  return Boolean(events[i].far) && !(next >= 0 && isSure && own(next) === own(i) + 1);
}
// How many events of host h have a number up to `value`, and the last one of them that event i knows, or -1.
const countUpTo = (h, value) => value ? firstPlace(eventsOf[h], j => own(j) > value) : 0;
const lastKnown = (i, h) => eventsOf[h][countUpTo(h, known(i, h)) - 1] ?? -1;
// ---- Messages: those of the data; else an event's news, the events it is the first of its host to know of, without
// those that another of its news knows
// Whether events of the host right before this one may be left out of the page.
const afterGap = i => leftOut.before > 0 && own(i) > 1 && (previousOf(i) < 0 || isGapBehind(previousOf(i)));
// Whether event i may know more of a host than its far event.
const isBehindFar = (i, from) => Boolean(events[from].far) && (!hasClock(from) || own(from) < known(i, hostOf[from]));
const derivedMessages = () => [...events.keys()].flatMap(i => {
  const isKnown = from => rank[i] > 0 && before(from, previousOf(i));
  const news = events[i].clock.map(([h]) => h === hostOf[i] ? -1 : lastKnown(i, h)).filter(j => j >= 0 && !isKnown(j));
  return news.filter(from => !news.some(other => other !== from && before(from, other))).map(from => (
    { from, to: i, unseen: afterGap(i) || isBehindFar(i, from) }));
});
const isWhole = message => message.from !== null && message.to !== null;
let messages, halves, into;
function findMessages() {
  messages = (data.messages || derivedMessages()).filter(isWhole);
  halves = (data.messages || []).filter(it => !isWhole(it));
  into = events.map(() => []);
  for (const { from, to } of messages) into[to].push(from);
}
// The events on a way from a to b of fewest messages, each the next of its host or what a message from the one before
// it reached; null where there is none. It goes back from b, by one message more in each round.
function chainOf(a, b) {
  const next = new Int32Array(N).fill(-1), seen = new Uint8Array(N), starts = [b]; // starts grows meanwhile
  for (const start of starts) for (let i = start, last = -1; i >= 0 && !seen[i]; last = i, i = previousOf(i)) {
    seen[i] = 1;
    if (last >= 0) next[i] = last;
    if (i === a) {
      const chain = [a];
      while (chain.at(-1) !== b) chain.push(next[chain.at(-1)]);
      return chain;
    }
    for (const from of into[i]) if (!seen[from] && (from === a || before(a, from))) {
      if (next[from] < 0) next[from] = i;
      starts.push(from);
    }
  }
  return null;
}

// How long conditions hold: the runs of events from which they do, and, where there is no moment, the two runs that
// came nearest to one.
// The events between which the condition of member m's host holds: the first one of its run, and the one at which it
// has ceased, or -1 where there is none, or none that is known.
function runOf(m) {
  let first = m, end = isGapBehind(m) ? -1 : nextOf(m);
  while (rank[first] && events[previousOf(first)].holds && !isGapBehind(previousOf(first))) first = previousOf(first);
  while (end >= 0 && events[end].holds) end = nextOf(end);
  return [first, end];
}
// The runs: of each its first event, the one at which it is over, or -1 where none is shown, and its line, where the
// answer says it. Where it doesn't, the run may be over behind the event at which the answer became known.
let runs;
function findRuns() {
  runs = moment.length ? [] : members.map((first, k) => {
    const line = (data.over || [])[k] ?? null, over = eventsOf[hostOf[first]].find(i => events[i].line === line);
    return { first, over: over ?? runOf(first)[1], line };
  });
}
// ---- What a member's condition lasts from and until
const isAt = h => hosts[h].rule === "at";
// The event at which what holds at m is over, or -1. A condition that is asked for at an event is over with it.
const overAt = m => isAt(hostOf[m]) ? m : runs.find(it => it.first === m)?.over ?? runOf(m)[1];
const firstOf = m => isAt(hostOf[m]) ? m : runOf(m)[0];
// Whether the condition may have begun at an event that is left out.
const mayBeginBefore = m => leftOut.before > 0 && !rank[firstOf(m)] && own(firstOf(m)) > 1;
// ---- The nearest miss: the two runs of different hosts, one over where the other begins, between which there are the
// fewest messages, and then the fewest events
const MOST_TRIED = 40; // chains are costly where there are many events
// The runs of a host: of each the first event and the one at which it is over, or -1.
function runsOf(h) {
  const found = [];
  for (const i of eventsOf[h]) if (events[i].holds && (isAt(h) || !rank[i] || !events[previousOf(i)].holds))
    found.push({ first: i, over: isAt(h) ? i : runOf(i)[1] });
  return found;
}
// Of each run of one host the first of another's that begins behind its end, where no other end lies between them.
function closest(ends, begins) {
  const found = ends.filter(it => it.over >= 0).map(({ first, over }) => {
    const k = firstPlace(begins, it => before(over, it.first));
    return k < begins.length ? { of: first, from: over, to: begins[k].first } : null;
  });
  return found.filter((it, k) => it && it.to !== found[k + 1]?.to);
}
function nearestMiss() {
  const each = asked.map(runsOf), between = it => it.to - it.from;
  const pairs = each.flatMap(ends => each.flatMap(begins => ends === begins ? [] : closest(ends, begins)));
  const near = pairs.sort((a, b) => between(a) - between(b)).slice(0, MOST_TRIED);
  const tried = near.map(it => ({ ...it, chain: chainOf(it.from, it.to) })).filter(it => it.chain);
  const hops = ({ chain }) => chain.filter((i, k) => k && hostOf[i] !== hostOf[chain[k - 1]]).length;
  return tried.sort((a, b) => hops(a) - hops(b))[0] ?? null;
}
let miss;
const findMiss = () => { miss = data.answer === "none" ? nearestMiss() : null; };

// What comes before an event, before the moment, or between the runs, and what comes after.
// The past of an event is a prefix of each host's events, given by its length; its future a suffix, by its start.
function coneOf(i) {
  const past = hosts.map((_, h) => h === hostOf[i] ? rank[i] : countUpTo(h, known(i, h)));
  return { of: [i], past, future: eventsOf.map(them => firstPlace(them, j => before(i, j))) };
}
// The same of the moment: what came before any of its events, and else after any.
function coneOfMoment() {
  const cones = moment.map(coneOf), each = (part, pick) => hosts.map((_, h) => pick(...cones.map(it => it[part][h])));
  return cones.length ? { of: moment, past: each("past", Math.max), future: each("future", Math.min) } : null;
}
// Of the runs it is what the end of one has between it and the beginning of another, which it knows: the events on the
// ways from the one to the other. Each way has a piece of each host, given by two ranks.
const isOn = ([a, b], i) => (i === a || before(a, i)) && (i === b || before(i, b));
function coneOfRuns() {
  const over = runs.filter(it => it.over >= 0);
  const roads = runs.flatMap(it => over.filter(other => other !== it).map(other => [it.first, other.over]));
  const pieceOf = ([a, b], them) => [firstPlace(them, j => j === a || before(a, j)),
    firstPlace(them, j => j !== b && !before(j, b))];
  const pieces = eventsOf.map(them => roads.map(it => pieceOf(it, them)).filter(([from, to]) => from < to));
  return { of: [], roads, pieces, future: eventsOf.map(them => them.length) };
}
const isPast = (cone, j) => cone.roads ? cone.roads.some(it => isOn(it, j)) : rank[j] < cone.past[hostOf[j]];
const partOf = (cone, j) => isPast(cone, j) ? "past" : rank[j] >= cone.future[hostOf[j]] ? "future" : "";
// The pieces of a host's line that came before, from a rank to before another.
const pastPieces = (cone, h) => cone.pieces?.[h] ?? (cone.past[h] ? [[0, cone.past[h]]] : []);
// What is lit while nothing is chosen.
let momentCone;
const findMomentCone = () => { momentCone = runs.length ? coneOfRuns() : coneOfMoment(); };

// Columns: by longest path; all that is before the moment stands left of it. Where rows of silent events are folded,
// the events of such a row stand in one column.
// From the last events back; those whose clocks contradict each other stand at the front.
function topologicalOrder() {
  const all = [...events.keys()], wait = all.map(i => nextOf(i) < 0 ? 0 : 1);
  for (const { from } of messages) wait[from]++;
  const back = all.filter(i => !wait[i]);
  for (const i of back) // which grows meanwhile
    for (const j of rank[i] ? [...into[i], previousOf(i)] : into[i]) if (!--wait[j]) back.push(j);
  return [...all.filter(i => wait[i] > 0), ...back.reverse()];
}
let sorted, far, unseen, column, momentColumn, columns, arrows, longest;
let afterFar; // the first column right of the gap
// A member stands on the line, unless it came before another, or stands beyond the gap and nothing shown leads to it.
// Where it doesn't, its state lasts up to the line.
const onLine = m => !moment.some(other => before(m, other)) &&
  !(events[m].far && hosts[hostOf[m]].rule !== "at" && !into[m].length);
// How many events of each host are members of the moment or came before it.
const knownOf = (m, h) => h === hostOf[m] ? rank[m] + 1 : countUpTo(h, known(m, h));
let leftCount;
const isLeft = i => rank[i] < leftCount[hostOf[i]];
// ---- Rows of silent events: at least three of a host, of which none sends or receives or belongs to the moment, and
// at which its condition holds, or doesn't, alike. `foldOf` has the first event of each one's row.
const LEAST_FOLD = 3;
let foldOf, foldLength;
function findFolds() {
  [foldOf, foldLength] = [new Int32Array(N), new Int32Array(N)];
  const loud = new Uint8Array(N);
  for (const { from, to } of [...messages, ...halves]) for (const i of [from, to]) if (i !== null) loud[i] = 1;
  const isSilent = i => !loud[i] && !isMember.has(i) && !events[i].far;
  const alike = (i, j) => isSilent(i) && isSilent(j) && isLeft(i) === isLeft(j) &&
    !events[i].holds === !events[j].holds;
  for (const them of eventsOf) for (let k = 0, end = 0; k < them.length; k = end) {
    for (end = k + 1; end < them.length && alike(them[k], them[end]);) end++;
    const count = end - k >= LEAST_FOLD ? end - k : 1;
    for (let at = k; at < end; at++) {
      foldOf[them[at]] = count > 1 ? them[k] : them[at];
      foldLength[them[at]] = count;
    }
  }
}
function place(isFolded) {
  const standing = new Set(moment.filter(onLine));
  const step = i => isFolded && foldOf[i] === foldOf[previousOf(i)] ? 0 : 1;
  const put = (i, least) => column[i] = Math.max(least, rank[i] ? column[previousOf(i)] + step(i) : 0,
    ...into[i].map(from => column[from] + 1));
  let right = afterFar;
  for (const i of sorted) if (isLeft(i) && !standing.has(i))
    right = Math.max(right, put(i, events[i].far ? 0 : afterFar) + 1);
  momentColumn = moment.length ? right : -1;
  for (const m of standing) column[m] = momentColumn;
  for (const i of sorted) if (!isLeft(i)) put(i, moment.length ? momentColumn + 1 : events[i].far ? 0 : afterFar);
  columns = column.reduce((most, c) => Math.max(most, c), Math.max(momentColumn, 0)) + 1;
  arrows = messages.map(it => ({ ...it, left: Math.min(column[it.from], column[it.to]),
    right: Math.max(column[it.from], column[it.to]) })).sort((a, b) => a.left - b.left);
  longest = arrows.reduce((most, it) => Math.max(most, it.right - it.left), 0);
}
function findColumns() {
  sorted = topologicalOrder();
  far = events.filter(event => event.far).length;
  [unseen, afterFar] = [Math.max(0, leftOut.before - far), far ? far + 2 : 0];
  leftCount = hosts.map((_, h) => Math.max(0, ...moment.map(m => knownOf(m, h))));
  column = new Float64Array(N);
  findFolds();
  place(false);
}
// The column that the page opens at: that of the moment's line; or, in the runs, where the last one begins; or, where
// there is no moment, where the run begins that came too late for the other one.
const focus = () => moment.length ? momentColumn : Math.max(0, ...(miss ? [miss.to] : members).map(m => column[m]));

// What is played: the events that led to some, and these themselves, in an order that fits. None stands before one that
// came before it. Of those that may come next it takes the one of the first line, but one of `those` only where all
// others wait for such.
function scheduleOf(those) {
  const counts = hosts.map((_, h) => Math.max(0, ...those.map(m => knownOf(m, h)))), isLate = new Set(those);
  const done = hosts.map(() => 0), waitsFor = hosts.map(() => 0), order = [];
  const next = h => eventsOf[h][done[h]];
  // Whether all that came before the next event of host h is done. A host that it doesn't wait for isn't asked again.
  function isReady(h) {
    const waits = g => g !== h && done[g] < knownOf(next(h), g);
    while (waitsFor[h] < H && !waits(waitsFor[h])) waitsFor[h]++;
    return waitsFor[h] === H;
  }
  const isFirst = (a, b) => isLate.has(a) === isLate.has(b) ? events[a].line < events[b].line : isLate.has(b);
  for (let left = [...hosts.keys()]; (left = left.filter(h => done[h] < counts[h])).length;) {
    const ready = left.filter(isReady), heads = ready.length ? ready : left; // clocks may contradict each other
    const h = heads.reduce((best, it) => isFirst(next(it), next(best)) ? it : best);
    order.push(next(h));
    done[h]++;
    waitsFor[h] = 0;
  }
  return order;
}
// What is said where events that led to these may be left out of the page.
function playedFromWords(those, order) {
  const lacks = m => hosts.some((_, h) => known(m, h) > 0 && !knownOf(m, h));
  if (!leftOut.before || !order.some(afterGap) && !those.some(lacks)) return [];
  const first = order.find(i => !events[i].far);
  return first === undefined ? ["earlier events are left out"] : w`from ${line(first)} on; earlier events are left out`;
}

// The ways of arrows: straight, or bent beside each event that a straight one would run through. A place is a pair of
// pixels, counted from the first column and the first row. A grid says how far apart columns are (`step`) and rows
// (`height`), and the columns of the events of each row, from left to right (`columns`).
const CLEAR = 7; // an arrow stays so far from each event that is neither of its ends
const BESIDE = 14; // where it is bent, it passes so far beside a column, where there is room
const LEAST_STEP = 2 * CLEAR; // columns that are nearer together leave no room for an arrow between two events

// The way from one place to another, as a list of places. Where it would meet an event of a row it is bent there.
function wayOf(grid, from, to) {
  const bent = new Set();
  if (grid.step < LEAST_STEP || to[0] - from[0] < LEAST_STEP) return [from, to];
  for (;;) {
    const way = bentWay(grid, from, to, bent), before = bent.size;
    for (let k = 1; k < way.length; k++) bendRowsMet(grid, way, k, bent);
    if (bent.size === before) return way;
  }
}
// The way that is bent at these rows: there it goes straight down or up, beside a column; at the rows of its ends it
// leaves or arrives steeply.
function bentWay({ step, height }, from, to, bent) {
  const [first, last] = [from, to].map(([, y]) => Math.round(y / height)), down = Math.sign(last - first);
  const beside = Math.min(BESIDE, step / 2), high = down * Math.min(BESIDE, height / 2), way = [from];
  for (let row = first; row !== last + down; row += down) {
    if (!bent.has(row)) continue;
    const y = row * height, straight = from[0] + (to[0] - from[0]) * (row - first) / (last - first);
    const x = Math.max(from[0] + beside, Math.min(to[0] - beside, besideColumn(straight, step, beside)));
    if (row !== first) way.push([x, y - high]);
    if (row !== last) way.push([x, y + high]);
  }
  return [...way, to];
}
// The nearest place across that is as far as `beside` from each column.
function besideColumn(x, step, beside) {
  const column = Math.round(x / step) * step, off = x - column;
  return Math.abs(off) >= beside ? x : off < 0 ? column - beside : column + beside;
}
// Adds the rows that have an event too near to the piece of a way that ends with its place k, and neither of its ends.
function bendRowsMet({ step, height, columns }, way, k, bent) {
  const [x0, y0] = way[k - 1], [x1, y1] = way[k], high = Math.min(y0, y1) - CLEAR, low = Math.max(y0, y1) + CLEAR;
  const last = Math.min(columns.length - 1, Math.floor(low / height));
  for (let row = Math.max(0, Math.ceil(high / height)); row <= last; row++) {
    if (bent.has(row)) continue;
    const y = row * height, [left, right] = reachAt(x0, y0, x1, y1, y), them = columns[row];
    for (let at = firstPlace(them, c => c * step >= left); them[at] * step <= right; at++)
      if (isNear(them[at] * step, y, x0, y0, x1, y1) && !isEnd(them[at] * step, y, way)) bent.add(row);
  }
}
const isEnd = (x, y, way) => [way[0], way.at(-1)].some(end => Math.abs(end[0] - x) + Math.abs(end[1] - y) < 1);
// From where to where across a piece of a way may be near to a row.
function reachAt(x0, y0, x1, y1, y) {
  const left = Math.min(x0, x1) - CLEAR, right = Math.max(x0, x1) + CLEAR;
  if (y0 === y1) return [left, right];
  const x = x0 + (x1 - x0) * (y - y0) / (y1 - y0), near = CLEAR * Math.hypot(x1 - x0, y1 - y0) / Math.abs(y1 - y0);
  return [Math.max(left, x - near), Math.min(right, x + near)];
}
// Whether a place is too near to a piece of a way.
function isNear(x, y, x0, y0, x1, y1) {
  const dx = x1 - x0, dy = y1 - y0, long = dx * dx + dy * dy || 1;
  const along = Math.max(0, Math.min(1, ((x - x0) * dx + (y - y0) * dy) / long));
  return Math.hypot(x - x0 - along * dx, y - y0 - along * dy) < CLEAR;
}
// The place so far from one on the way to another, and at most in the middle.
function onTheWay([x0, y0], [x1, y1], far) {
  const long = Math.hypot(x1 - x0, y1 - y0) || 1, part = Math.min(0.5, far / long);
  return [x0 + (x1 - x0) * part, y0 + (y1 - y0) * part];
}

// Words about events: lists of the page's own texts and of those that others wrote, `{ own }`. These may run from right
// to left, and so stand apart from the words around them.
const w = (texts, ...values) =>
  texts.flatMap((text, k) => [text, ...[values[k] ?? []].flat()]).filter(it => it !== "")
    .map(it => it.own === undefined ? String(it) : it);
const plain = words => words.map(it => it.own ?? it).join("");
const plural = (n, word) => `${n.toLocaleString("en")} ${word}${n === 1 ? "" : "s"}`;
const hostName = h => ({ own: hosts[h].name });
const nameOf = i => hostName(hostOf[i]);
const line = i => `${data.unit} ${events[i].line}`;
const where = i => w`${nameOf(i)} ${line(i)}`;
const quoted = i => events[i].text ? w` \u201c${{ own: events[i].text }}\u201d` : [];
// A list of words in words: "a, b and c"; of more than `most` the first ones, and how many others there are.
function listing(list, most = 6) {
  const shown = list.length > most ? list.slice(0, most - 1) : list, rest = list.length - shown.length;
  const all = rest ? [...shown, [`${rest} others`]] : shown;
  return all.flatMap((it, k) => [...(k === 0 ? [] : [k === all.length - 1 ? " and " : ", "]), ...[it].flat()]);
}
// ---- Two events
const inOrder = (a, b) => before(b, a) ? [b, a] : [a, b];
const isHop = (chain, k) => k > 0 && hostOf[chain[k]] !== hostOf[chain[k - 1]];
function hopWords(chain) {
  const hops = chain.flatMap((i, k) => isHop(chain, k) ? [w`${where(chain[k - 1])} \u2192 ${where(i)}`] : []);
  return w`${plural(hops.length, "message")}: ${hops.flatMap((hop, k) => k ? ["; ", ...hop] : hop)}`;
}
// Which of two came first, and how that is known.
function orderWords(a, b) {
  const unclear = [a, b].find(i => !hasClock(i));
  if (!before(a, b) && unclear !== undefined)
    return [w`It isn't known what orders ${where(a)} and ${where(b)}`, w`: ${where(unclear)} stands too far back`];
  if (!before(a, b))
    return [w`Nothing orders ${where(a)} and ${where(b)}`, [": no messages lead from one to the other"]];
  const chain = chainOf(a, b), said = w`${where(a)} came before ${where(b)}`;
  if (hostOf[a] === hostOf[b]) return [said, [", on the same host"]];
  if (!chain) return [said, [", as the clocks say; the messages between them aren't shown"]];
  return [said, w`, by ${hopWords(chain)}`];
}
// ---- Why the members of the moment go together, or the runs: pair by pair, in each direction
// What event f knows of the host of e.
function knowledge(e, f) {
  const g = nameOf(e), last = lastKnown(f, hostOf[e]), number = known(f, hostOf[e]);
  if (!hasClock(f)) return w`What ${where(f)} knows of ${g} isn't known`;
  if (!number) return w`${where(f)} knows nothing of ${g}`;
  if (last >= 0 && !isBehindFar(f, last)) return w`${where(f)} knows ${g} up to ${line(last)}`;
  return leftOut.before ? w`${where(f)} knows ${g} up to its number ${number}, which is left out`
    : w`${where(f)} knows no ${data.unit} of ${g}`;
}
function reason(e, f) {
  if (isAt(hostOf[e])) return w`${knowledge(e, f)}, and so not of ${line(e)}.`;
  const [, end] = runOf(e), from = `${line(firstOf(e))}${mayBeginBefore(e) ? " or before" : ""}`;
  const over = end >= 0 ? `until ${line(end)}` : isGapBehind(e) ? "until an event that isn't shown, if there is one"
    : "on";
  return w`${knowledge(e, f)}; the condition of ${nameOf(e)} holds from ${from} ${over}.`;
}
const runFrom = first => runs.find(it => it.first === first);
// Why the run that begins with f wasn't over when that which begins with e began.
function overlap(e, f) {
  const { over, line: number } = runFrom(f), host = nameOf(f);
  if (over >= 0)
    return w`${where(over)}, at which its run is over, knows ${where(e)}, with which the other one begins.`;
  return number === null ? w`The run of ${host} isn't over in what is shown, so nothing is asked of it.`
    : w`The run of ${host} is over at ${data.unit} ${number}, which isn't shown.`;
}
function pairWords(e, f) {
  if (!runs.length)
    return w`${reason(e, f)} ${reason(f, e)} So neither was over when the other began: both could hold at once.`;
  return w`${overlap(e, f)} ${overlap(f, e)} So each began before the other was over, ${"in every order of the events: "
    }both held at once.`;
}
// The two ways by which the members of a pair know of each other, from an event to another.
function waysOfPair(a, b) {
  if (!runs.length) return [[lastKnown(b, hostOf[a]), b, "chain"], [lastKnown(a, hostOf[b]), a, "chain-back"]];
  return [[a, runFrom(b).over, "chain"], [b, runFrom(a).over, "chain-back"]];
}

// The answer in words: who and when as the heading, a card for each member, what is missing, and why there is none.
const namesOf = those => listing(those.map(hostName));
const placed = m => w`${nameOf(m)} (${line(m)})`;
function headingWords() {
  const all = listing(members.map(placed)), alone = members.length === 1;
  if (data.answer === "definite") return alone ? w`${all} held` : w`${all} held at once, in every order of the events`;
  if (members.length) {
    const said = data.asks === "two" ? w`Two could hold at once: ${all}`
      : w`${all} could hold${alone ? "" : " at once"}`;
    return data.answer === "possible" ? w`${said}, though not in every order of the events` : said;
  }
  if (data.answer === "none") return noneWords();
  return asked.length > 1 ? w`Undecided: no moment so far at which ${namesOf(asked)} could hold at once`
    : ["Undecided: no moment so far"];
}
function noneWords() {
  if (asked.length < 2) return asked.length ? w`None: ${namesOf(asked)} never holds` : ["None: no moment was found"];
  return data.asks === "two" ? w`None: no two of ${namesOf(asked)} could hold at once`
    : w`None: ${namesOf(asked)} could not hold at once`;
}
// The title of the document: who, without the lines.
function titleWords() {
  const who = listing(members.map(nameOf));
  if (!members.length) return plain(headingWords());
  return plain(w`${who} ${data.answer === "definite" ? "held" : "could hold"}${members.length > 1 ? " at once" : ""}`);
}
// ---- The cards
// From when until when the condition of a member holds.
function spanWords(m) {
  if (isAt(hostOf[m])) return w`Holds at ${line(m)} alone.`;
  const from = `${line(firstOf(m))}${mayBeginBefore(m) ? " or before" : ""}`, over = overAt(m);
  if (over >= 0) return w`Holds from ${from} until ${line(over)}${quoted(over)}.`;
  const run = runFrom(m);
  if (run?.line) return w`Holds from ${from} until ${data.unit} ${run.line}, which isn't shown.`;
  if (!run && isGapBehind(m)) return w`Holds from ${from} until an event that isn't shown, if there is one.`;
  return leftOut.more ? w`Holds from ${from} on, up to the last event shown at least.`
    : w`Holds from ${from} on, and still at the end of the log.`;
}
// What a member knew of the others: first of whom it knew, then of whom it knew nothing.
function knewWords(m) {
  const others = members.filter(it => it !== m), nothing = others.filter(e => !known(m, hostOf[e]));
  if (!hasClock(m)) return others.length ? [w`What it knew of the others isn't known.`] : [];
  const told = others.filter(e => !nothing.includes(e)).map(e => {
    const last = lastKnown(m, hostOf[e]), isSeen = last >= 0 && !isBehindFar(m, last);
    return w`${nameOf(e)} up to ${isSeen ? line(last) : "an event that isn't shown"}${
      isSeen && others.length < 3 ? quoted(last) : []}`;
  });
  return [...(told.length ? [w`Knew ${listing(told, 99)}.`] : []),
    ...(nothing.length ? [w`Knew nothing of ${listing(nothing.map(nameOf), 9)}.`] : [])];
}
// What the end of a run knew of the other beginnings.
function endKnewWords(m) {
  const over = overAt(m), others = members.filter(it => it !== m);
  return over < 0 || !others.length ? []
    : [w`At its end, ${line(over)}, it knew ${listing(others.map(e => w`${nameOf(e)}\u2019s begin, ${line(e)}`), 9)}.`];
}
const memberCard = m => ({ kind: "member", member: m, title: w`${nameOf(m)}, ${line(m)}${quoted(m)}`,
  lines: [spanWords(m), ...(isDefinite ? endKnewWords(m) : knewWords(m))] });
// "from ben's end, line 20, to dan's begin, line 9", or nothing where ben's condition has no end that is shown.
function wayWords(e, f) {
  const over = overAt(e), end = isAt(hostOf[e]) ? "" : "end, ", to = isAt(hostOf[f]) || mayBeginBefore(f);
  const begin = to ? "" : "begin, ";
  return over < 0 ? null
    : w`from ${nameOf(e)}\u2019s ${end}${line(over)}, to ${nameOf(f)}\u2019s ${begin}${line(firstOf(f))}`;
}
// Between which lines of two members no messages lead, in either direction; nothing where neither has an end.
function missingWords([e, f]) {
  const ways = [wayWords(e, f), wayWords(f, e)].filter(it => it);
  return ways.length ? w`No messages lead ${ways.flatMap((it, k) => k ? [", nor ", ...it] : it)}.` : [];
}
// For how many lines two conditions hold at once, as the lines stand; what has no end lasts to the last line.
function sharedLines(pair) {
  const ends = pair.map(m => overAt(m) < 0 ? lastLine : events[overAt(m)].line);
  return Math.min(...ends) - Math.max(...pair.map(m => events[firstOf(m)].line));
}
const MOST_PAIRS = 3;
function missingCard() {
  const lacking = pairs.filter(pair => missingWords(pair).length).map(pair => ({ pair, shared: sharedLines(pair) }));
  const first = lacking.sort((a, b) => b.shared - a.shared).slice(0, MOST_PAIRS), rest = lacking.length - first.length;
  const endless = members.filter(m => overAt(m) < 0), lines = first.map(({ pair }) => missingWords(pair));
  if (rest) lines.push([`And ${plural(rest, "more pair")}: Why? goes through each two.`]);
  if (endless.length) lines.push(w`No end of ${listing(endless.map(nameOf), 9)} is shown.`);
  lines.push(["An order by other means, such as a lock that isn\u2019t in the log, isn\u2019t seen."]);
  return { kind: "why", title: ["What is missing"], lines };
}
const certainCard = () => ({ kind: "why", title: ["Why in every order"],
  lines: [["Each end knew of the others\u2019 begins: in whichever order the events came, none was over before."],
    ...(members.some(m => overAt(m) < 0) ? [["Of one whose end isn\u2019t shown nothing is asked."]] : [])] });
// ---- Where there is no moment
// The sentences of --explain, where they stand behind the program's words.
function explainedLines() {
  const [, said] = data.words.split(/^why: ?/m);
  return said === undefined ? [] : said.trim().split("\n").filter(it => it);
}
const MOST_REASONS = 5;
function reasonCard() {
  const said = explainedLines(), never = asked.filter(h => !eventsOf[h].some(i => events[i].holds));
  const lines = said.slice(0, MOST_REASONS).map(it => [{ own: it }]);
  if (said.length > MOST_REASONS) lines.push([`${said.length - MOST_REASONS} more stand in the program\u2019s words.`]);
  if (!said.length && never.length)
    lines.push(w`In what is shown ${namesOf(never)} ${never.length === 1 ? "holds" : "hold"} at no event.`);
  return lines.length ? [{ kind: "why", title: ["Why there is none"], lines, isList: true }] : [];
}
function missCard() {
  const { of, from, to, chain } = miss, how = i => isAt(hostOf[i]) ? "at" : "from";
  const until = isAt(hostOf[from]) ? [] : w` until ${line(from)}${quoted(from)}`;
  return { kind: "member", member: to, title: ["The nearest miss"], lines: [
    w`${nameOf(of)} holds ${how(of)} ${line(of)}${isAt(hostOf[of]) ? quoted(of) : []}${until}.`,
    w`${nameOf(to)} holds ${how(to)} ${line(to)}${quoted(to)}, after that: by ${hopWords(chain)}.`] };
}
function cardsOfAnswer() {
  if (isDefinite) return [...members.map(memberCard), ...(members.length > 1 ? [certainCard()] : [])];
  if (members.length) return [...members.map(memberCard), ...(members.length > 1 ? [missingCard()] : [])];
  return data.answer === "none" ? [...reasonCard(), ...(miss ? [missCard()] : [])] : [];
}
// The answer as a text of its own.
function answerText() {
  const cards = cardsOfAnswer().flatMap(({ title, lines }) => [plain(title), ...lines.map(it => `  ${plain(it)}`)]);
  const source = [data.title, data.question].filter(it => it).join(": ");
  const front = [plain(headingWords()), ...(source ? [source] : []), ...conditionWords().map(plain)];
  return [...front, "", ...cards, ""].join("\n");
}
// A condition that lasts from an expression until another says so itself.
const ruleOf = ({ rule, condition }) => rule === "while" && /^from [^]* until /.test(condition) ? "" : `${rule} `;
// The conditions, each with the hosts that share it.
function conditionWords() {
  const those = new Map(), keyOf = h => `${hosts[h].rule} ${hosts[h].condition}`;
  for (const h of listed.filter(it => hosts[it].rule)) those.set(keyOf(h), [...those.get(keyOf(h)) ?? [], h]);
  return [...those.values()].map(all =>
    w`${listing(all.map(hostName), 9)}: ${ruleOf(hosts[all[0]])}${{ own: hosts[all[0]].condition }}`);
}

// The questions: each in the form of a page that has this question alone, and in a few words.
const { events: allEvents, hosts: allHosts, others = [], ...page } =
  JSON.parse(document.getElementById("data").textContent);
const replies = [{ ...page, watches: allHosts.map(({ name, ...watch }) => watch),
  holds: [...allEvents.keys()].filter(i => allEvents[i].holds) }, ...others];
let question = -1; // the place of the one that is chosen
// The places of a question's events: of those from further back that are in a moment it has those of its own alone.
function placesOf(reply) {
  const own = new Set(reply.moment), all = new Set(replies.flatMap(it => it.moment ?? []));
  return [...allEvents.keys()].filter(i => !allEvents[i].far || own.has(i) || !all.has(i));
}
// Messages are those of a workload, which is asked one question.
function dataOf({ watches, holds, ...reply }) {
  const places = placesOf(reply), placeIn = new Map(places.map((i, k) => [i, k])), holding = new Set(holds);
  const eventOf = ({ holds: _, ...event }, isHeld) => isHeld ? { ...event, holds: true } : event;
  return { ...page, ...reply, moment: reply.moment && reply.moment.map(i => placeIn.get(i)),
    hosts: allHosts.map(({ name }, h) => ({ name, ...watches[h] })),
    events: places.map(i => eventOf(allEvents[i], holding.has(i))) };
}
// Chooses question k, and finds all that doesn't depend on how the page is seen.
function ask(k) {
  question = k;
  take(dataOf(replies[k]));
  findOrder();
  findMessages();
  findRuns();
  findMiss();
  findMomentCone();
  findColumns();
}
// The answer to a question, and where its moment is, in a few words.
const ANSWERS = { found: "found", none: "none", undecided: "undecided", definite: "definitely", possible: "possibly" };
const MOST_PLACES = 3;
function briefWords({ answer, moment }) {
  const places = (moment ?? []).map(i => allEvents[i]);
  const told = places.slice(0, MOST_PLACES).map(it => w`${{ own: allHosts[it.host].name }} ${page.unit} ${it.line}`);
  const rest = places.length > told.length ? [" \u2026"] : [];
  return [[ANSWERS[answer]], ...(told.length ? [[...told.flatMap((it, k) => k ? [", ", ...it] : it), ...rest]] : [])];
}
"##;
