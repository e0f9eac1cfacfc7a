//! The text of a page before its data: `.ci/page --write` writes this file from `page.html` and `page.css` in `page/`.

/// The page before its words.
pub(crate) const HEAD: &str = r##"<!DOCTYPE html>
<html lang="en">
<head>
<meta charset="utf-8">
<meta name="viewport" content="width=device-width,initial-scale=1">
<meta name="referrer" content="no-referrer">
<meta http-equiv="Content-Security-Policy"
 content="default-src 'none'; style-src 'unsafe-inline'; script-src 'sha256-86RDKrjM8pyg+rmYKZH3n6BkkLVx8JIXqjjYm4dFP/k='; base-uri 'none'">
<title>The answer</title>
<style>
:root {
  color-scheme: light dark;
  --ground: #ffffff; --ink: #1a1a1a; --plain: #707070; --line: #8a8a8a; --edge: #d0d0d0;
  --past: #0062b0; --future: #b35000; --moment: #000000; --bar: #e4e4e4; --rim: #7d7d7d;
  --both: #ffd9a8; --wash: #fff4e6;
}
@media screen and (prefers-color-scheme: dark) {
  :root {
    --ground: #15171a; --ink: #eeeeee; --plain: #a0a0a0; --line: #7c7c7c; --edge: #44474c;
    --past: #5ab0ff; --future: #ffa640; --moment: #ffffff; --bar: #383b40; --rim: #8c8c8c;
    --both: #5a350b; --wash: #231c14;
  }
}
* { box-sizing: border-box; }
html, body { margin: 0; height: 100%; }
body {
  display: flex; flex-direction: column; min-height: 100%; background: var(--ground); color: var(--ink);
  font: 14px/1.4 "DejaVu Sans", "Segoe UI", system-ui, sans-serif;
}
#questions { flex: none; padding: 6px 12px 0; }
#question-list {
  list-style: none; margin: 0; padding: 0; display: flex; flex-wrap: wrap; gap: 4px 6px; position: relative;
  max-height: 70px; overflow: auto;
}
#question-list li { max-width: min(30em, 100%); }
#question-list a {
  display: flex; gap: 7px; align-items: center; min-height: 30px; padding: 2px 9px; font-size: 13px; color: var(--ink);
  text-decoration: none; white-space: nowrap; border: 1px solid var(--rim); border-radius: 4px;
}
#question-list a[aria-current=true] {
  background: var(--bar); border-color: var(--ink); border-bottom: 3px solid var(--future);
}
#question-list :is(b, span) { overflow: hidden; text-overflow: ellipsis; }
#question-list b + span { flex: none; }
#question-list span + span { flex-shrink: 3; }
#question-list a:focus-visible { outline-offset: -3px; }
header { padding: 8px 12px 0; }
h1 { font-size: 19px; line-height: 1.3; margin: 0; overflow-wrap: anywhere; max-height: 3.9em; overflow: auto; }
header p, noscript p { margin: 2px 0; font-size: 13px; overflow-wrap: anywhere; }
#words {
  margin: 4px 0; font: 12.5px/1.4 "DejaVu Sans Mono", Consolas, monospace; white-space: pre-wrap;
  overflow-wrap: anywhere; max-height: 8.6em; overflow: auto; border-left: 3px solid var(--moment); padding-left: 8px;
}
#words.long { columns: 24em; }
#conditions { max-height: 2.9em; overflow: auto; }
#cards { display: flex; flex-wrap: wrap; gap: 6px 10px; margin: 6px 0 2px; }
#cards:empty { display: none; }
#cards.many { flex-wrap: nowrap; overflow-x: auto; }
.card {
  flex: 1 1 250px; border: 1px solid var(--edge); border-left: 4px solid var(--future); border-radius: 5px;
  padding: 5px 10px; font-size: 13px; overflow-wrap: anywhere; max-height: 9.5em; overflow: auto;
}
.many .card { flex: 1 0 250px; max-height: 7.6em; }
.card.why { border-left-color: var(--past); }
.card h2 { font-size: 13px; margin: 0; }
.card p { margin: 0; }
.card .to { font-weight: 400; margin-left: 8px; color: var(--past); }
#front { display: flex; flex-wrap: wrap; gap: 0 14px; align-items: baseline; }
#said[open] { flex: 1 0 100%; }
#said summary { min-height: 0; border: 0; padding: 0; display: inline; text-decoration: underline; }
.narrow { display: none; }
#tools, #walk { display: flex; flex-wrap: wrap; gap: 6px 12px; align-items: center; padding: 4px 12px; }
.group { display: inline-flex; flex-wrap: wrap; gap: 4px 6px; align-items: center; }
button, input[type=search], summary {
  font: inherit; font-size: 13px; color: var(--ink); background: var(--ground); border: 1px solid var(--rim);
  border-radius: 4px; padding: 2px 9px; min-height: 28px;
}
button, summary { cursor: pointer; }
button:disabled { color: var(--plain); cursor: default; }
summary { display: list-item; padding-top: 3px; }
input[type=search] { width: 11em; padding: 2px 6px; }
label { font-size: 13px; white-space: nowrap; }
label input { margin: 0 4px 0 0; vertical-align: -1px; }
:focus-visible { outline: 2px solid var(--past); outline-offset: 1px; }
#matches { font-size: 13px; }
#hosts, #share { position: relative; }
.menu {
  position: absolute; right: 0; z-index: 5; background: var(--ground); border: 1px solid var(--rim); padding: 6px 10px;
  max-height: 50vh; width: max-content; max-width: min(80vw, 380px); overflow: auto; border-radius: 4px;
}
.menu p { margin: 0 0 4px; }
.menu button { margin: 2px 0; }
button[aria-pressed=true] { background: var(--bar); border-color: var(--ink); }
#strip {
  display: block; flex: none; height: 22px; margin: 2px 12px 4px; width: calc(100% - 24px); cursor: ew-resize;
  touch-action: none; border: 1px solid var(--edge); border-radius: 3px;
}
.strip-events { stroke: var(--plain); stroke-width: 1; }
.strip-both { stroke: var(--future); stroke-width: 4; }
.strip-moment { stroke: var(--moment); stroke-width: 2; }
.strip-window { fill: var(--past); fill-opacity: 0.15; stroke: var(--past); stroke-width: 2; }
#stage { position: relative; flex: 1 1 auto; min-height: 240px; display: flex; flex-direction: column; }
#chips { position: absolute; bottom: 20px; left: 90px; display: flex; flex-wrap: wrap; gap: 4px; z-index: 2; }
#chips button { border: 2px solid var(--future); background: var(--wash); max-width: 60vw; overflow: hidden;
  text-overflow: ellipsis; white-space: nowrap; }
#host-list label { display: block; padding: 3px 0; overflow: hidden; text-overflow: ellipsis; }
#walk { flex-wrap: nowrap; align-items: flex-start; border-top: 1px solid var(--edge); font-size: 13px; gap: 6px; }
#walk[hidden] { display: none; }
#info {
  padding: 3px 12px; height: 5.9em; overflow: auto; font-size: 13px; overflow-wrap: anywhere; flex: 1 1 auto;
}
#told-of { display: flex; flex: none; border-bottom: 1px solid var(--edge); }
#remark { margin: 4px 12px; font-size: 13px; flex: none; }
#remark[hidden] { display: none; }
#note { font: inherit; color: var(--ink); background: var(--ground); border: 1px solid var(--rim); border-radius: 4px;
  width: 18em; max-width: 40vw; padding: 2px 6px; display: block; }
#info p { margin: 0; }
#info bdi { white-space: pre-wrap; }
#view {
  flex: 1 1 auto; min-height: 240px; overflow: auto; position: relative; border-top: 1px solid var(--edge);
  border-bottom: 1px solid var(--edge); cursor: grab; touch-action: pan-x pan-y pinch-zoom;
}
#view:active { cursor: grabbing; user-select: none; }
#view:focus-visible { outline-offset: -2px; }
#sheet { position: relative; user-select: none; }
#drawing { display: block; position: sticky; left: 0; }
footer { padding: 3px 12px 6px; font-size: 12px; }
#event-list { max-height: 40vh; overflow: auto; margin: 4px 0; }
#list summary { border: 0; padding: 0; min-height: 0; text-decoration: underline; font-size: 12px; }
#legend { list-style: none; margin: 0; padding: 0; display: flex; flex-wrap: wrap; gap: 1px 16px; }
#legend li { display: inline-flex; align-items: center; gap: 5px; }
#legend li[hidden] { display: none; }
#legend svg { flex: none; }
#keys { margin: 2px 0 0; }
@media (max-width: 700px) {
  header { padding: 6px 8px 0; }
  #tools, #walk, #info, footer { padding-left: 8px; padding-right: 8px; }
  #words { max-height: 5.8em; }
  #info { height: 4.4em; }
  .wide { position: absolute; width: 1px; height: 1px; overflow: hidden; clip-path: inset(50%); }
  .narrow { display: inline; }
  input[type=search] { width: 8em; }
  button, summary { padding: 2px 8px; }
  .group { flex-wrap: nowrap; }
  h1 { font-size: 15px; max-height: 2.6em; }
  #legend { gap: 0 10px; }
  #keys { display: none; }
}
@media (max-height: 800px) {
  #question-list { flex-wrap: nowrap; scrollbar-width: thin; }
  #question-list li { flex: none; }
  #keys { display: none; }
  #info { height: 4.4em; }
}
/* Where there is little height, what stands above the view takes a quarter of it at most. */
@media (max-width: 700px), (max-height: 500px) {
  #questions { padding: 4px 8px 0; }
  #question-list { flex-wrap: nowrap; scrollbar-width: none; }
  #question-list li { flex: none; max-width: 80vw; }
  header { max-height: max(70px, calc(25vh - 64px)); overflow: auto; flex: none; }
  #tools, #cards { scrollbar-width: none; }
  #cards { flex-wrap: nowrap; overflow-x: auto; margin: 3px 0; }
  .card, .many .card { flex: 0 0 min(260px, 80vw); max-height: none; padding: 3px 8px; font-size: 12px; }
  .card h2 { font-size: 12px; }
  #tools { position: relative; flex: none; flex-wrap: nowrap; overflow-x: auto; gap: 4px 8px; }
  #tools { padding-top: 2px; padding-bottom: 2px; }
  #tools > *, .group { flex: none; flex-wrap: nowrap; }
  .menu { position: fixed; right: 8px; left: auto; top: 25vh; }
  #stage, #view { min-height: 180px; }
}
@media (max-height: 500px) {
  #strip, #keys { display: none; }
  header { max-height: calc(25vh - 40px); }
  #conditions { display: none; }
  #info { height: 2.9em; }
}
@media print {
  html, body { height: auto; }
  body { display: block; print-color-adjust: exact; -webkit-print-color-adjust: exact; }
  #tools, #keys, #walk button, #strip, #chips, #list, #remark, .to { display: none; }
  #question-list li:not(:has([aria-current=true])) { display: none; }
  #question-list { max-height: none; }
  header, h1, .card, #cards, #words, #info, #conditions { max-height: none !important; }
  header, h1, .card, #cards, #words, #info, #conditions { height: auto; overflow: visible; }
  #cards { flex-wrap: wrap; }
  #view { overflow: visible; height: auto; }
  #sheet { width: auto !important; height: auto !important; }
  #drawing { position: static; width: 100%; height: auto; }
}
/* The drawing. */
#drawing text { fill: var(--ink); font: 13px "DejaVu Sans", "Segoe UI", system-ui, sans-serif; }
#drawing .gutter { fill: var(--ground); }
#drawing .rule { stroke: var(--edge); }
#drawing text.label { font-size: 11px; stroke: var(--ground); stroke-width: 3px; paint-order: stroke; }
#drawing text.note { font-size: 11px; }
#drawing text.member { font-size: 12px; font-weight: 700; }
#drawing text.remark { font-style: italic; font-size: 12px; }
#drawing text.watched { font-weight: 700; }
#drawing text.other { fill: var(--plain); }
#drawing [data-host] { cursor: ns-resize; touch-action: none; }
#drawing .handle { fill: transparent; }
#drawing .overlap { fill: var(--wash); stroke: var(--future); stroke-dasharray: 5 3; }
#drawing .both, .key .both { fill: var(--both); stroke: var(--future); stroke-width: 1.5; }
#drawing path, .key path { fill: none; stroke-width: 1; stroke: var(--plain); }
#drawing .hosts { stroke: var(--line); }
#drawing .gaps, .key .gaps { stroke: var(--line); stroke-dasharray: 2 4; }
#drawing .bars, .key .bars { fill: var(--bar); stroke: var(--rim); }
#drawing .unseen { stroke-dasharray: 4 3; }
#drawing .past-arrows { stroke: var(--past); stroke-width: 1.6; }
#drawing .future-arrows { stroke: var(--future); stroke-width: 1.6; }
#drawing .past-piece, .key .past-piece { stroke: var(--past); stroke-width: 4; }
#drawing .future-piece, .key .future-piece { stroke: var(--future); stroke-width: 4; }
#drawing .crowd { stroke-width: 5; }
#drawing .faint-dots { stroke: var(--edge); stroke-width: 7; stroke-linecap: round; }
#drawing .faint-arrows, #drawing .faint-bars { stroke: var(--edge); }
#drawing .faint-crowd { stroke: var(--edge); stroke-width: 5; }
#drawing text.faint { fill: var(--edge); }
#drawing.under-way :is(.overlap, .both, .moment, .reach, .members) { opacity: 0.25; }
#drawing .dots, .key .dots { stroke-width: 8; stroke-linecap: round; }
#drawing .hearts, .key .hearts { stroke: var(--ground); stroke-width: 4; stroke-linecap: round; }
#drawing .past-dots, .key .past-dots { stroke: var(--past); stroke-width: 9; stroke-linecap: round; }
#drawing .future-dots, .key .future-dots { stroke: var(--future); stroke-width: 8; stroke-linecap: square; }
#drawing .chain, .key .chain { stroke: var(--past); stroke-width: 4; stroke-linejoin: round; stroke-linecap: round; }
#drawing .chain-back { stroke: var(--future); stroke-width: 4; stroke-linejoin: round; stroke-linecap: square; }
#drawing .moment, .key .moment { stroke: var(--moment); stroke-width: 2; }
#drawing .reach { stroke: var(--moment); stroke-width: 3; }
#drawing .members, .key .members { stroke: var(--moment); stroke-width: 2.5; }
#drawing .match, .key .match { fill: var(--ink); stroke: var(--ground); }
#drawing .kept { stroke: var(--ink); stroke-width: 2.5; fill: var(--ground); }
#drawing .current { fill: var(--ink); stroke: var(--ground); stroke-width: 1.5; }
</style>
<noscript><style>.drawn { display: none !important; } #words { max-height: none; }</style></noscript>
</head>
<body>
<nav id="questions" class="drawn" aria-label="Questions" hidden><ol id="question-list" data-made></ol></nav>
<header>
<h1 id="heading" data-made>The answer</h1>
<p id="conditions" tabindex="0" aria-label="The conditions" data-made></p>
<div id="cards" class="drawn" role="list" aria-label="The answer in sentences" tabindex="0" data-made></div>
<div id="front"><p id="extent" data-made></p>
<details id="said" open><summary>The program&#8217;s words</summary>
<pre id="words" tabindex="0" aria-label="The answer">"##;

/// The page between its words and its data.
pub(crate) const MIDDLE: &str = r##"</pre></details></div>
</header>
<noscript><p>The diagram of the events is drawn by a script, and scripts are switched off.</p></noscript>
<div id="tools" class="drawn" role="toolbar" aria-label="View" aria-controls="view">
<button type="button" id="to-moment" title="Key: m">Moment</button>
<button type="button" id="why" aria-expanded="false" title="Why nothing orders its events. Key: w">Why?</button>
<button type="button" id="play" title="Go through what led to it, event by event. Keys: p, and . and , for steps"
>Play</button>
<span class="group">
<button type="button" id="zoom-out" aria-label="Zoom out" title="Zoom out. Key: -">&#8722;</button>
<button type="button" id="zoom-in" aria-label="Zoom in" title="Zoom in. Key: +">+</button>
<button type="button" id="zoom-all" title="Key: 0">All</button>
<button type="button" id="fold" aria-pressed="false"
 title="Put rows of events that neither send nor receive into one mark. Key: f">Fold</button>
</span>
<span class="group" role="search">
<input type="search" id="find" placeholder="Find in texts" aria-label="Find in texts" spellcheck="false"
 title="Key: /. In front of the words may stand host:NAME, line:9, line:9-20, or knew:9, what knew of line 9"
 autocomplete="off">
<label title="Read the words as a regular expression"><input type="checkbox" id="regex"><span class="wide">regular
expression</span><span class="narrow" aria-hidden="true">.*</span></label>
<label title="Tell capital and small letters apart"><input type="checkbox" id="case"><span class="wide">match
case</span><span class="narrow" aria-hidden="true">Aa</span></label>
<button type="button" id="previous" aria-label="Previous match">&#9664;</button>
<button type="button" id="next" aria-label="Next match">&#9654;</button>
<span id="matches" role="status" data-made></span>
</span>
<details id="hosts"><summary id="host-count">Hosts</summary><div class="menu">
<p><button type="button" id="hosts-asked">Of the question</button> <button type="button" id="hosts-all">All</button>
<button type="button" id="hosts-none">None</button></p><div id="host-list" data-made></div></div></details>
<details id="share"><summary>Share</summary><div class="menu">
<button type="button" id="copy-text">Copy as text</button> <button type="button" id="copy-link">Copy link</button>
<button type="button" id="save-svg">Save as SVG</button>
<button type="button" id="save-page" title="The page with your notes">Save page</button>
<button type="button" id="print">Print</button> <span id="told" role="status" data-made></span></div></details>
</div>
<svg id="strip" class="drawn" role="scrollbar" aria-orientation="horizontal" aria-controls="view" aria-valuemin="0"
 aria-valuemax="100" aria-label="The whole log" tabindex="0" preserveAspectRatio="none" data-made></svg>
<div id="walk" class="drawn" hidden>
<button type="button" id="walk-back" aria-label="Previous pair">&#9664;</button>
<button type="button" id="walk-on" aria-label="Next pair">&#9654;</button>
<button type="button" id="walk-end" aria-label="Close">&#10005;</button>
<span id="walk-words" aria-live="polite" data-made></span>
</div>
<div id="stage" class="drawn">
<div id="view" tabindex="0" role="application" aria-label="Diagram of the events" aria-describedby="keys">
<div id="sheet"><svg id="drawing" role="img" data-made></svg></div>
</div>
<div id="chips" data-made></div>
</div>
<div id="told-of" class="drawn"><div id="info" aria-live="polite" data-made></div>
<p id="remark" hidden><label>Your note <input type="text" id="note" autocomplete="off"></label></p></div>
<footer class="drawn">
<ul id="legend" aria-label="Legend">
<li><svg class="key" width="14" height="16"><path class="dots" d="M7 8h0"/><path class="hearts"
 d="M7 8h0"/></svg>event</li>
<li><svg class="key" width="26" height="16"><path class="arrows" d="M1 13L21 4M14 3.5L21 4L17 9"/></svg>message</li>
<li data-of="bar"><svg class="key" width="26" height="16"><path class="bars" d="M2 2h22v12h-22z"/></svg>condition
holds</li>
<li data-of="moment"><svg class="key" width="18" height="16"><path class="moment" d="M9 0v16"/><path class="members"
 d="M2 8a7 7 0 1 0 14 0a7 7 0 1 0 -14 0"/></svg>the moment and its events</li>
<li data-of="overlap"><svg class="key" width="26" height="16"><path class="both" d="M2 2h22v12h-22z"/></svg><span
 id="overlap-key">could hold at once</span></li>
<li data-of="runs"><svg class="key" width="26" height="16"><path class="members" d="M2 2h22v12h-22z"/></svg>run that
overlaps the others</li>
<li><svg class="key" width="26" height="16"><path class="past-piece" d="M1 8h24"/><path class="past-dots"
 d="M13 8h0"/></svg>came before</li>
<li><svg class="key" width="26" height="16"><path class="future-piece" d="M1 8h24"/><path class="future-dots"
 d="M13 8h0"/></svg>came after</li>
<li><svg class="key" width="26" height="16"><path class="chain" d="M2 13H9L16 3H24"/></svg>chain of messages</li>
<li><svg class="key" width="14" height="16"><path class="match" d="M7 13l-5 -8h10z"/></svg>found text</li>
</ul>
<p id="keys">Tap or click an event to keep it, a second one to compare them. Arrow keys step from event to event, Enter
keeps, Escape lets go; p plays what led to the moment, full stop and comma step through it; drag to move, Ctrl and the
wheel zoom; drag a host&#8217;s name, or press &lt; and &gt;, to move its row<span id="question-keys" hidden>; q and Q
go to the next and the previous question</span>.</p>
<details id="list"><summary>Events in words</summary><ol id="event-list" data-made></ol></details>
</footer>
<pre id="notes" hidden></pre>
<script type="application/json" id="data">"##;
