//! The script's second part: the program and the cells.

/// The program's lines, and the part that runs.
pub(crate) const PLACING: [u8; 1983] =
    *b"// The program, line by line; where several statements stand on a line, their columns.
var columns = Object.create(null);
ran.forEach(function (s) {
  var here = columns[s.line] = columns[s.line] || [];
  if (s.column !== undefined && here.indexOf(s.column) < 0) { here.push(s.column); }
});
var source = known.program.split('\\n');
if (source[source.length - 1] === '') { source.pop(); }
var lines = source.map(function (text, i) {
  var line = put(part('text'), 'span');
  line.className = 'line';
  put(line, 'i', i + 1);
  return { line: line, code: put(line, 'span', text), text: text };
});
// The part of a line that runs: from its column to that of the next statement on the line.
function show_part(it, s) {
  it.code.textContent = '';
  var from = s.column === undefined ? 0 : s.column - 1, later = (columns[s.line] || []).filter(function (c) { return c - 1 > from; });
  var to = later.length ? Math.min.apply(null, later) - 1 : it.text.length, piece = it.text.slice(from, to);
  if (s.column === undefined || (from === it.text.search(/\\S/) && !later.length)) { it.code.textContent = it.text; return; }
  put(it.code, 'span', it.text.slice(0, from));
  put(it.code, 'mark', piece.replace(/\\s+$/, ''));
  put(it.code, 'span', piece.slice(piece.replace(/\\s+$/, '').length) + it.text.slice(to));
}
function show_line(s) {
  var box = part('text'), here = s && !s.gap ? lines[s.line - 1] : undefined;
  lines.forEach(function (it) {
    if (it === here || it.line.className === 'line') { return; }
    it.line.className = 'line';
    it.line.removeAttribute('aria-current');
    it.code.textContent = it.text;
  });
  if (!here) { return; }
  here.line.className = 'line running';
  here.line.setAttribute('aria-current', 'step');
  show_part(here, s);
  var top = here.line.offsetTop, high = here.line.offsetHeight, seen = box.clientHeight;
  if (top < box.scrollTop || top + high > box.scrollTop + seen) { box.scrollTop = Math.max(0, top - Math.max(0, seen - high) / 2); }
}
";

/// The boxes of the cells, and which rows of them are seen.
pub(crate) const DRAWING: [u8; 4045] =
    *b"// Shared memory: a box for each cell. Of a large array only the rows that a statement touches, unless all are asked for.
var ROW = 16, FOLDED = 64, MOST_ROWS = 64, boxes = Object.create(null);
function widen(name, text) {
  var p = place(name);
  if (p) { p.entry.wide = Math.max(p.entry.wide || 4, text.length); }
}
ran.forEach(function (s) {
  (s.changes || []).forEach(function (c) { widen(c.cell, c.before); widen(c.cell, c.after); });
});
known.cells.forEach(function (c) {
  var entry = entries[c.name], given = known.input.slice(entry.base, entry.base + entry.size);
  if (outcome && outcome.memory) { given = given.concat(outcome.memory[entry.number].values); }
  given.forEach(function (v) { entry.wide = Math.max(entry.wide || 4, v.length); });
  entry.wide = Math.max(entry.wide || 4, Math.ceil(((entry.wide || 4) + 4) * 0.75));
  entry.wide = Math.max(entry.wide, name_of(entry, 0).length, name_of(entry, entry.size - 1).length);
  var holder = put(part('memory'), 'div');
  holder.className = 'entry';
  holder.style.setProperty('--wide', entry.wide + 'ch');
  holder.setAttribute('role', 'group');
  holder.setAttribute('aria-label', c.name);
  entry.holder = holder;
  if (entry.size <= FOLDED) { return; }
  entry.head = put(holder, 'p');
  entry.head.className = 'fold';
  entry.told = put(entry.head, 'span');
  entry.button = put(entry.head, 'button', 'Show rows');
  entry.button.type = 'button';
  entry.button.onclick = function () { entry.all = !entry.all; show(); };
});
function row_of(entry, number) {
  var width = entry.size <= FOLDED ? entry.size : ROW, row = put(entry.holder, 'div'), i;
  row.className = 'row';
  for (i = number * width; i < Math.min(entry.size, (number + 1) * width); i += 1) {
    var name = name_of(entry, i), box = put(row, 'div');
    box.className = 'cell';
    put(box, 'span', name);
    boxes[name] = { name: name, box: box, row: row, value: put(box, 'b') };
    ['was', 'r', 'w'].forEach(function (k) { boxes[name][k] = put(box, 'small'); });
  }
  return row;
}
// The rows that these cells stand in, by array.
function touched_by(marks) {
  var rows = Object.create(null), name, p;
  for (name in marks) {
    p = place(name);
    if (p) { rows[p.entry.name] = rows[p.entry.name] || Object.create(null); rows[p.entry.name][Math.floor(p.at / ROW)] = true; }
  }
  return rows;
}
function show_row(entry, i, on) {
  if (on && !entry.rows[i]) {
    entry.rows[i] = row_of(entry, i);
    entry.holder.insertBefore(entry.rows[i], entry.rows.slice(i + 1).filter(Boolean)[0] || null);
  }
  if (entry.rows[i]) { entry.rows[i].hidden = !on; }
}
// Which rows are seen: of so many that are wanted, and the row of a fault, where it has one.
function told_rows(entry, s, touched, seen, fault) {
  var first = grouped(Math.min(entry.size, MOST_ROWS * ROW)) + (fault < MOST_ROWS ? '' : ' and the row of the fault');
  if (entry.all) { return 'the first ' + first + ' are shown. '; }
  if (!s || s.gap) { return 'no row is shown. '; }
  if (touched === 0) { return 'this statement touches none. '; }
  return seen < touched ? 'of the ' + grouped(touched) + ' rows that this statement touches ' + seen + ' are shown. '
    : 'the rows that this statement touches are shown. ';
}
function show_rows(marks, s) {
  var all = touched_by(marks), met = s && s.met !== undefined ? place(s.place) : null;
  known.cells.forEach(function (c) {
    var entry = entries[c.name], touched = all[c.name] || {}, fault = met && met.entry === entry ? Math.floor(met.at / ROW) : -1;
    var seen = 0, i, on;
    if (entry.size <= FOLDED) { show_row(entry, 0, true); return; }
    for (i = 0; i * ROW < entry.size; i += 1) {
      on = i === fault || (seen < MOST_ROWS && (entry.all || touched[i] === true));
      show_row(entry, i, on);
      seen += on ? 1 : 0;
    }
    entry.told.textContent = c.name + ' has ' + grouped(entry.size) + ' cells; '
      + told_rows(entry, s, Object.keys(touched).length, seen, fault);
    entry.button.textContent = entry.all ? 'Only rows that are touched' : 'Show rows';
  });
}
";
