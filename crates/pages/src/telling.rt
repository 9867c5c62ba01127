//! The script's third part: what is told of a statement.

/// The table of the active processors and their locals.
pub(crate) const TELLING: [u8; 3001] = *b"// What each active processor did, and its locals.
var MOST = 32;
function wrote(s, a, writers) {
  var mine = (s.writers || []).filter(function (w) { return w.processor === a.processor; })[0];
  if (mine) { return s.place + ' := ' + mine.value + ', refused'; }
  if (a.write === null) { return ''; }
  return a.write + (writers[a.write] > 1 ? ' together, now ' : ' := ') + value(a.write);
}
function before(s, name) {
  var changed = (s.changes || []).filter(function (c) { return c.cell === name; })[0];
  return changed ? changed.before : value(name);
}
// Those that are shown of many: who met, and the first others.
function chosen(s) {
  var met = s.met || [], room = MOST - Math.min(met.length, MOST), kept = 0, all = 0;
  if (s.acts.length <= MOST) { return s.acts; }
  return s.acts.filter(function (a) {
    if (met.indexOf(a.processor) >= 0) { all += 1; return all <= MOST; }
    kept += 1;
    return kept <= room;
  });
}
function local(locals, key) { return key in locals.values ? locals.values[key] : locals.base; }
function show_act(s, a, names, now, old, writers) {
  var row = put(part('acts'), 'tr'), reads = a.reads.map(function (c) { return c + ' = ' + before(s, c); });
  var met = (s.met || []).indexOf(a.processor) >= 0;
  if (met || s.place === 'processor ' + a.processor) { row.className = 'met'; }
  if (met && !s.writers) { reads.push(s.place + ', refused'); }
  put(row, 'th', a.processor === null ? 'outside pardo' : a.processor).scope = 'row';
  put(row, 'td', reads.length > 8 ? reads.slice(0, 8).join(', ') + ' and ' + (reads.length - 8) + ' more' : reads.join(', '));
  put(row, 'td', wrote(s, a, writers));
  names.forEach(function (x) {
    var key = a.processor + ' ' + x, is = local(now, key), was = local(old, key);
    put(row, 'td', is === was ? is : was + ' \\u2192 ' + is).className = is === was ? '' : 'changed';
  });
}
function told_active(s, shown) {
  if (!s || s.gap) { return 'none'; }
  if (is_outside(s)) { return 'one, outside pardo'; }
  return (s.acts.length === 1 ? 'one' : grouped(s.acts.length)) + (shown < s.acts.length ? ', of which ' + shown + ' are shown' : '');
}
function show_acts(s) {
  var table = part('acts'), acts = s && !s.gap ? chosen(s) : [], writers = Object.create(null);
  var inside = acts.length > 0 && !is_outside(s), pardo = inside ? pardo_of(s) : undefined;
  var names = pardo ? pardo.locals : [], now = inside ? locals_at(at) : null, old = !inside || s.met ? now : locals_at(at - 1);
  table.textContent = '';
  part('active').textContent = told_active(s, acts.length);
  if (acts.length === 0) { return; }
  s.acts.forEach(function (a) { if (a.write !== null) { writers[a.write] = (writers[a.write] || 0) + 1; } });
  var head = put(table, 'tr');
  ['processor' + (pardo ? ' ' + pardo.index : ''), 'reads', 'writes'].concat(names.map(function (x) { return 'local ' + x; }))
    .forEach(function (t) { put(head, 'th', t).scope = 'col'; });
  acts.forEach(function (a) { show_act(s, a, names, now, old, writers); });
}
";

/// The cells that were read and written, the uniform variables, and the fault.
pub(crate) const MARKING: [u8; 3228] =
    *b"// The cells that were read and written, with who did, and the values before.
function marks_of(s) {
  var marks = Object.create(null);
  function note(name, did, who) {
    marks[name] = marks[name] || { read: [], written: [] };
    if (did) { marks[name][did].push(who === null ? 'the program' : who); }
  }
  (s && s.acts || []).forEach(function (a) {
    a.reads.forEach(function (c) { note(c, 'read', a.processor); });
    if (a.write !== null) { note(a.write, 'written', a.processor); }
  });
  if (s && s.met !== undefined && place(s.place)) { note(s.place); }
  return marks;
}
function say(e, text, all) {
  e.textContent = text;
  if (all) { e.title = all; } else { e.removeAttribute('title'); }
}
function once(all) { return all.filter(function (x, i) { return all.indexOf(x) === i; }); }
function show_cell(b, s, m) {
  var met = s && s.met !== undefined && s.place === b.name, was = m && s.changes ? before(s, b.name) : undefined, now = value(b.name);
  b.box.className = 'cell' + (m && m.read.length ? ' read' : '') + (m && m.written.length ? ' written' : '') + (met ? ' conflict' : '');
  if (b.value.textContent !== now) { b.value.textContent = now; }
  say(b.was, was !== undefined && was !== now ? 'was ' + was : '');
  var r = m ? once(m.read) : [], w = m ? once(m.written) : [];
  say(b.r, r.length ? 'r ' + listed(r, 16) : '', r.length ? 'read by ' + listed(r, 64) : '');
  say(b.w, w.length ? 'w ' + listed(w, 16) : '', w.length ? 'written by ' + listed(w, 64) : '');
  if (met) { say(b.w, s.met.length ? 'met ' + listed(s.met, 16) : 'fault', s.met.length ? 'here met ' + listed(s.met, 64) : ''); }
}
function show_memory(s) {
  var marks = marks_of(s), name;
  show_rows(marks, s);
  for (name in boxes) { if (!boxes[name].row.hidden) { show_cell(boxes[name], s, marks[name]); } }
}
var variables = known.variables.map(function (name) {
  var row = put(part('variables'), 'tr');
  put(row, 'th', name).scope = 'row';
  return put(row, 'td');
});
function show_variables(s) {
  variables.forEach(function (e, i) {
    var changed = (s && s.variables || []).filter(function (v) { return v.variable === i; })[0];
    e.textContent = changed ? changed.before + ' \\u2192 ' + changed.after : state.variables[i];
    e.className = changed ? 'changed' : '';
  });
}
// Why a statement faulted.
function cause_of(f) {
  if (f.met && f.met.length) { return ' Processors ' + listed(f.met, 64) + ' met there.'; }
  if (f.subscript !== undefined) {
    return ' ' + f.array + ' has no cell ' + f.subscript + ': it goes from ' + f.low + ' to ' + f.high + '.';
  }
  if (f.operands) { return ' It computes ' + f.operands.slice(0, -1).concat(f.operator, f.operands.slice(-1)).join(' ') + '.'; }
  if (f.procs !== undefined) { return ' From ' + f.low + ' to ' + f.high + ' are more indices than the ' + f.procs + ' processors.'; }
  return '';
}
function place_of(f) { return place(f.place) ? ' at ' + f.place : f.place === 'all' ? ' outside pardo' : ' of ' + f.place; }
function show_fault(s) {
  var f = s && s.met !== undefined ? s : at === last ? faulted : null;
  part('fault-text').hidden = !f;
  part('fault-text').textContent = f ? 'Fault: ' + f.kind + place_of(f) + ', line ' + f.line + '.' + cause_of(f) : '';
}
";
