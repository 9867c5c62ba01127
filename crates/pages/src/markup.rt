//! What stands around the facts, and how it looks.

/// From the beginning of the page: how it looks everywhere.
pub(crate) const STYLE: [u8; 2846] = *b"<!DOCTYPE html>
<html lang='en'>
<head>
<meta charset='utf-8'>
<meta name='viewport' content='width=device-width, initial-scale=1'>
<title>A run, statement by statement</title>
<style>
* { box-sizing: border-box; }
body { font: 15px/1.35 sans-serif; margin: 0.5em 0.8em; color: #000; background: #fff; }
h1 { font-size: 1.2em; margin: 0; }
h2 { font-size: 1em; margin: 0 0 0.2em; }
p { margin: 0.15em 0; }
pre, td, th, .cell { font-family: ui-monospace, 'DejaVu Sans Mono', Consolas, monospace; font-variant-numeric: tabular-nums; }
button, select { font: inherit; padding: 0.2em 0.6em; }
#controls { display: flex; flex-wrap: wrap; align-items: center; gap: 0.3em; margin: 0.3em 0; background: #fff; }
#slider { flex: 1 1 8em; min-width: 6em; }
#now { font-weight: bold; }
#fault-text { font-weight: bold; border: 3px solid #000; padding: 0.2em 0.4em; }
#cut { border: 1px solid #000; padding: 0.2em 0.4em; }
#text { border: 1px solid #888; overflow: auto; padding: 0.2em 0; margin: 0; position: relative; }
.line { display: flex; }
.line > span { flex: 1; min-width: 0; white-space: pre-wrap; overflow-wrap: anywhere; }
.line i { font-style: normal; color: #555; text-align: right; flex: none; width: 4.4em; padding-right: 0.8em; user-select: none; }
.line.running { background: #cfe4f5; }
.line.running i { color: #000; font-weight: bold; }
.line.running i::before { content: '\\25b6'; float: left; padding-left: 0.3em; }
.line mark { background: #0b4f80; color: #fff; font-weight: bold; }
.entry { margin-bottom: 0.4em; }
.row { display: flex; flex-wrap: wrap; gap: 4px; margin: 2px; }
.cell { border: 2px solid #888; width: calc(var(--wide) + 0.8em); padding: 0.1em 0.2em; text-align: center; line-height: 1.2; }
.cell span, .cell b, .cell small { display: block; white-space: nowrap; overflow: hidden; text-overflow: ellipsis; min-height: 1.2em; }
.cell span { color: #444; font-size: 0.9em; }
.cell b { font-size: 1.05em; }
.cell small { font-size: 0.8em; }
.cell.read { border-color: #0072b2; border-style: dashed; }
.cell.written { border-color: #b35900; border-style: solid; box-shadow: 0 0 0 2px #b35900; }
.cell.conflict, .cell.conflict span { background: #000; color: #fff; }
.cell.conflict small { white-space: normal; }
#side section { margin-bottom: 0.6em; }
#output:empty::before { content: 'nothing yet'; color: #555; }
.fold { font-size: 0.9em; }
table { border-collapse: collapse; }
th, td { border: 1px solid #888; padding: 0.05em 0.5em; text-align: left; vertical-align: top; }
th { background: #f2f2f2; }
td.changed { background: #fbe6d0; font-weight: bold; }
tr.met th { background: #000; color: #fff; }
h2 span { font-weight: normal; }
#acts-title { font-weight: bold; }
#output { margin: 0; white-space: pre-wrap; overflow-wrap: anywhere; }
.hint { color: #444; font-size: 0.9em; }
[hidden] { display: none !important; }
";

/// How it looks on wide and on narrow screens and in print, and the end of the styles.
pub(crate) const NARROW: [u8; 1477] = *b"@media screen and (min-width: 60em) {
main { display: grid; grid-template-columns: minmax(22em, 2fr) 3fr; grid-template-rows: auto minmax(0, 1fr); gap: 0.5em 1em; }
main { height: calc(100vh - 1em); }
main > header { grid-column: 1 / 3; }
#program-part { display: flex; flex-direction: column; min-height: 0; }
#text { flex: 0 1 auto; }
#state { display: grid; grid-template-rows: minmax(0, auto) minmax(35%, 1fr); gap: 0.5em; min-height: 0; }
#memory-part { overflow: auto; }
#below { display: flex; gap: 1.2em; min-height: 0; }
#acts-part { flex: 1; min-width: 0; overflow: auto; }
#side { flex: none; max-width: 14em; overflow: auto; }
}
@media screen and (max-width: 59.99em) {
body { margin: 0.4em; }
#controls { position: sticky; top: 0; z-index: 1; padding: 0.2em 0; border-bottom: 1px solid #888; }
#controls button, #controls select { padding: 0.35em 0.45em; font-size: 0.9em; }
h1 { font-size: 1.05em; }
#slider { flex: 1 1 100%; }
#text { max-height: 12em; }
#state { display: flex; flex-direction: column; gap: 0.6em; margin-top: 0.5em; }
#acts-part, #memory-part { overflow-x: auto; }
#below { display: contents; }
#acts-part { order: -1; }
#keys { display: none; }
}
@media print {
body { margin: 0; font-size: 10pt; }
#controls, #keys, #link, .fold button { display: none; }
#text { border: 0; overflow: visible; }
section { margin-top: 0.6em; }
.line.running, td.changed { outline: 1px solid #000; }
.cell, tr, .line { break-inside: avoid; }
}
</style>
</head>
";

/// What is seen, and the beginning of the facts.
pub(crate) const BODY: [u8; 2226] = *b"<body>
<main>
<header>
<h1 id='title'>A run, statement by statement</h1>
<p id='about'></p>
<p id='cut' hidden></p>
<noscript><p>This page steps through the run by a script, and scripts are off.</p></noscript>
<div id='controls' role='group' aria-label='Steps of the run'>
<button id='first' type='button'>Start</button>
<button id='pardo-back' type='button' aria-label='Previous pardo'>&laquo; pardo</button>
<button id='back' type='button'>Back</button>
<button id='play' type='button'>Play</button>
<button id='forward' type='button'>Forward</button>
<button id='pardo-forward' type='button' aria-label='Next pardo'>pardo &raquo;</button>
<button id='last' type='button'>End</button>
<select id='pace' aria-label='Pace'>
<option value='2000'>2 s a step</option>
<option value='1000' selected>1 s a step</option>
<option value='500'>0.5 s a step</option>
<option value='100'>0.1 s a step</option>
</select>
<input id='slider' type='range' min='0' max='0' value='0' aria-label='Statements that have run'>
</div>
<p><span id='now' aria-live='polite'></span> <a id='link' href='#0'>Link to this moment</a></p>
<p id='fault-text' role='alert' hidden></p>
</header>
<section id='program-part' aria-labelledby='text-title'><h2 id='text-title'>Program</h2><pre id='text' tabindex='0'></pre>
<p id='keys' class='hint'>Keys: the arrows go forward and back, Home and End to the start and the end, N and P to the next and
the previous pardo; the space bar plays.</p></section>
<div id='state'>
<section id='memory-part' aria-labelledby='memory-title'><h2 id='memory-title'>Shared memory</h2>
<p class='hint'>r: read by (dashed), w: written by (heavy), was: the value before</p><div id='memory'></div></section>
<div id='below'>
<section id='acts-part' aria-labelledby='acts-title'><h2><span id='acts-title'>Active processors</span>: <span id='active'></span></h2>
<table id='acts'></table></section>
<div id='side'>
<section aria-labelledby='variables-title'><h2 id='variables-title'>Uniform variables</h2><table id='variables'></table></section>
<section aria-labelledby='output-title'><h2 id='output-title'>Output so far</h2><pre id='output'></pre></section>
</div>
</div>
</div>
</main>
<script type='application/json' id='facts'>
[";

/// Behind the script.
pub(crate) const CLOSING: [u8; 26] = *b"</script>
</body>
</html>
";
