//! The script's first part: the facts, and the values at a moment.

/// The facts are read, and the moments and the cells counted.
pub(crate) const READING: [u8; 2522] = *b"</script>
<script>
'use strict';
(function () {
// The facts: what is known before the run, its statements, and its outcome.
var facts = JSON.parse(document.getElementById('facts').textContent);
function such(name) { return facts.filter(function (f) { return f[name] !== undefined; }); }
var opening = such('program')[0], outcome = such('outcome')[0], ran = such('step');
var nothing = { file: '', program: '', rule: '', cells: [], variables: [], pardos: [], input: [] };
var known = opening || nothing, total = known.statements;
if (total === undefined) { total = ran.length ? ran[ran.length - 1].step : 0; }
// The moments: one behind each statement, and one behind those of a gap.
var steps = [], next = 1;
function leave(to) { if (to >= next) { steps.push({ gap: true, from: next, to: to }); } }
ran.forEach(function (s) { leave(s.step - 1); steps.push(s); next = s.step + 1; });
leave(total);
var last = steps.length, at = 0, gaps = steps.filter(function (s) { return s.gap; });
var faulting = ran.filter(function (s) { return s.met !== undefined; })[0];
var faulted = faulting || (outcome && outcome.kind !== undefined ? outcome : null);
function part(id) { return document.getElementById(id); }
function put(parent, name, text) {
  var e = document.createElement(name);
  if (text !== undefined) { e.textContent = text; }
  parent.appendChild(e);
  return e;
}
function grouped(n) { return String(n).replace(/\\B(?=([0-9]{3})+$)/g, ','); }
function ranged(from, to) { return from === to ? grouped(from) : grouped(from) + ' to ' + grouped(to); }
function listed(all, most) {
  return all.length > most ? all.slice(0, most).join(' ') + ' and ' + grouped(all.length - most) + ' more' : all.join(' ');
}
// The arrays and single cells, and the place of a cell in its array.
var entries = Object.create(null), count = 0;
known.cells.forEach(function (c, number) {
  var one = c.low === undefined, low = one ? 0n : BigInt(c.low), size = one ? 1 : Number(BigInt(c.high) - low) + 1;
  entries[c.name] = { name: c.name, one: one, low: low, size: size, base: count, number: number, rows: [], all: false };
  count += size;
});
function place(name) {
  var m = /^([A-Za-z0-9_]+)\\[(-?[0-9]+)\\]$/.exec(name), entry = entries[m ? m[1] : name];
  if (!entry || entry.one !== !m) { return null; }
  var i = m ? Number(BigInt(m[2]) - entry.low) : 0;
  return i >= 0 && i < entry.size ? { entry: entry, at: i } : null;
}
function name_of(entry, i) { return entry.one ? entry.name : entry.name + '[' + (entry.low + BigInt(i)) + ']'; }
";

/// The values of cells, variables and locals at a moment, and what was printed.
pub(crate) const MOVING: [u8; 4233] =
    *b"// The values at a moment: those that changed, by name, and of all others what they were at first.
function listed_at(values, name) {
  var p = place(name), i = p ? p.entry.base + p.at : values.length;
  return i < values.length ? values[i] : '0';
}
function at_first(name) { return listed_at(known.input, name); }
function at_last(name) {
  var p = place(name), m = p && outcome && outcome.memory && outcome.memory[p.entry.number];
  return m ? m.values[p.at] : '?';
}
function unknown() { return '?'; }
var state = { cells: Object.create(null), base: at_first, variables: known.variables.map(function () { return '0'; }) };
function value(name) { return name in state.cells ? state.cells[name] : state.base(name); }
// The state behind a gap, if the facts have it.
var states = such('state');
function state_of(s) { return states.filter(function (f) { return f.state === s.to; })[0]; }
function given(f) {
  return {
    cells: Object.create(null),
    base: function (name) { return listed_at(f.cells, name); },
    variables: known.variables.map(function (x, i) { return i < f.variables.length ? f.variables[i] : '0'; })
  };
}
// What is known else: a cell that changes later has the value that it has before that, and one that doesn't its last.
function behind(s, from) {
  if (state_of(s)) { return given(state_of(s)); }
  var found = { cells: Object.create(null), base: unknown, variables: known.variables.map(unknown) }, i;
  for (i = from; i < last && !steps[i].gap; i += 1) {
    (steps[i].changes || []).forEach(function (c) { if (!(c.cell in found.cells)) { found.cells[c.cell] = c.before; } });
    (steps[i].variables || []).forEach(function (v) {
      if (found.variables[v.variable] === '?') { found.variables[v.variable] = v.before; }
    });
  }
  if (i === last) { found.base = at_last; }
  return found;
}
function move(i, side) {
  var s = steps[i];
  if (s.gap) {
    if (side === 'after') { s.before = state; state = behind(s, i + 1); } else { state = s.before; }
    return;
  }
  (s.changes || []).forEach(function (c) { state.cells[c.cell] = c[side]; });
  (s.variables || []).forEach(function (v) { state.variables[v.variable] = v[side]; });
}
// How many values were printed up to each moment, as far as that is known: counted from the start, from a state, or from the end.
var printed = [0];
function prints(s) { return (s.printed || []).length; }
function printed_by(s, before) {
  if (s.gap) { return state_of(s) ? state_of(s).printed : null; }
  return before === null ? null : before + prints(s);
}
steps.forEach(function (s, i) { printed.push(printed_by(s, printed[i])); });
if (outcome) {
  printed[last] = outcome.output.length;
  for (var j = last; j > 0 && !steps[j - 1].gap; j -= 1) { printed[j - 1] = printed[j] - prints(steps[j - 1]); }
}
function output_at(moment) {
  var n = printed[moment], out = [], i;
  if (n !== null && outcome) { return outcome.output.slice(0, n); }
  for (i = moment; i > 0 && !steps[i - 1].gap; i -= 1) { out = (steps[i - 1].printed || []).concat(out); }
  return i > 0 ? ['(what was printed before is not on this page)'].concat(out) : out;
}
// The pardos: where each begins, and the one in which a statement stands.
known.pardos.forEach(function (p) { p.column = p.offset - known.program.lastIndexOf('\\n', p.offset - 1); });
function pardo_of(s) {
  return known.pardos.filter(function (p) {
    return p.line < s.line || (p.line === s.line && (s.column === undefined || p.column <= s.column));
  }).pop();
}
function is_outside(s) { return s.acts.length === 1 && s.acts[0].processor === null; }
function enters(s) {
  var p = s.gap || !is_outside(s) ? undefined : pardo_of(s);
  return p !== undefined && p.line === s.line && (s.column === undefined || p.column === s.column);
}
// The locals at a moment, by processor and name, since the pardo was entered.
function locals_at(moment) {
  var found = { base: '?', values: Object.create(null) }, i = moment;
  while (i > 0 && !steps[i - 1].gap && !enters(steps[i - 1])) { i -= 1; }
  if (i > 0 && !steps[i - 1].gap) { found.base = '0'; }
  for (; i < moment; i += 1) {
    (steps[i].locals || []).forEach(function (l) { found.values[l.processor + ' ' + l.local] = l.after || l.value; });
  }
  return found;
}
";
