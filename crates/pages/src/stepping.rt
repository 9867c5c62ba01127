//! The script's last part: one moment, and the way to others.

/// One moment is shown, and the page goes from one to another.
pub(crate) const STEPPING: [u8; 2383] = *b"// One moment.
function told(s) {
  if (!s) { return 'Nothing has run yet.'; }
  if (s.gap) { return 'Statements ' + ranged(s.from, s.to) + ' of ' + grouped(total) + ' are not on this page.'; }
  return 'Statement ' + grouped(s.step) + ' of ' + grouped(total) + ', line ' + s.line + (enters(s) ? ', enters a pardo.' : '.');
}
function ending() {
  if (!outcome) { return ''; }
  if (outcome.kind !== undefined) { return ' The run has faulted.'; }
  return outcome.memory ? ' The run has ended.' : ' The run goes on: it was stopped at its bound.';
}
function show_output() {
  var all = output_at(at);
  var front = all.length > 200 ? grouped(all.length - 200) + ' values before these\\n' : '';
  part('output').textContent = front + all.slice(-200).join('\\n');
}
function number_at(moment) { return moment === 0 ? 0 : steps[moment - 1].gap ? steps[moment - 1].from : steps[moment - 1].step; }
function show() {
  var s = at > 0 ? steps[at - 1] : null;
  show_line(s);
  part('now').textContent = told(s) + (at === last ? ending() : '');
  part('slider').value = at;
  part('slider').setAttribute('aria-valuetext', told(s));
  part('link').href = '#' + number_at(at);
  part('first').disabled = part('back').disabled = at === 0;
  part('last').disabled = part('forward').disabled = at === last;
  part('pardo-forward').disabled = pardo_from(1) === at;
  part('pardo-back').disabled = pardo_from(-1) === at;
  show_acts(s);
  show_memory(s);
  show_variables(s);
  show_output();
  show_fault(s);
}
function pardo_from(way) {
  for (var i = at + way; i > 0 && i <= last; i += way) { if (enters(steps[i - 1])) { return i; } }
  return at;
}
function reach(to) {
  to = Math.max(0, Math.min(last, to));
  while (at < to) { move(at, 'after'); at += 1; }
  while (at > to) { at -= 1; move(at, 'before'); }
  show();
}
function go(to) {
  reach(to);
  // Some browsers let no page change its address, or not so often.
  try { history.replaceState(null, '', '#' + number_at(at)); } catch (e) { return; }
}
// The moment that the address names: that behind the statement of this number.
function moment_of(number) {
  for (var i = 0; i < last; i += 1) { if ((steps[i].gap ? steps[i].to : steps[i].step) >= number) { return i + 1; } }
  return last;
}
function follow() {
  var m = /^#([0-9]{1,15})$/.exec(location.hash);
  if (m) { reach(Number(m[1]) === 0 ? 0 : moment_of(Number(m[1]))); }
}
";

/// What stands above the run, and the buttons and keys.
pub(crate) const GUIDING: [u8; 3141] = *b"// What stands above the run, and the buttons and keys.
function about() {
  var seen = [], i, from;
  for (i = 0; i < last; i = Math.max(i, from + 1)) {
    for (from = i; i < last && !steps[i].gap; i += 1) { }
    if (i > from) { seen.push(ranged(steps[from].step, steps[i - 1].step)); }
  }
  var whole = grouped(total) + (total === 1 ? ' statement' : ' statements');
  var text = !gaps.length ? '' : seen.length ? 'This page has statements ' + seen.join(' and ') + ' of ' + grouped(total) + '.'
    : 'This page has no statement of the run, which has ' + whole + '.';
  if (seen.length && gaps.some(function (s) { return !state_of(s); })) { text += ' Behind what it leaves out, a value is a ? where it is not known.'; }
  if (gaps.length && such('left_out')[0].left_out > 0) { text += ' The whole run has no room on one page.'; }
  if (!opening) { text += ' The program has no room on this page.'; }
  if (!outcome) { text += ' The outcome has no room on this page.'; }
  part('cut').hidden = text === '';
  part('cut').textContent = text;
  if (known.file) {
    document.title = known.file.replace(/^.*\\//, '') + ': a run, statement by statement';
    part('title').textContent = document.title;
  }
  part('about').textContent = 'Rule ' + known.rule + ', ' + whole + (outcome ? ', outcome: ' + outcome.outcome + '.' : '.');
}
var playing = null;
function pause() {
  if (playing !== null) { clearTimeout(playing); }
  playing = null;
  part('play').textContent = 'Play';
  part('now').setAttribute('aria-live', 'polite');
}
function tick() {
  if (at === last) { pause(); return; }
  go(at + 1);
  playing = setTimeout(tick, Number(part('pace').value));
}
function play() {
  if (playing !== null) { pause(); return; }
  if (at === last) { go(0); }
  part('play').textContent = 'Pause';
  part('now').setAttribute('aria-live', 'off');
  playing = setTimeout(tick, Number(part('pace').value));
}
function by_hand(to) { pause(); go(to); }
about();
part('slider').max = last;
if (faulted) { part('last').textContent = 'To the fault'; }
part('first').onclick = function () { by_hand(0); };
part('back').onclick = function () { by_hand(at - 1); };
part('forward').onclick = function () { by_hand(at + 1); };
part('last').onclick = function () { by_hand(last); };
part('pardo-forward').onclick = function () { by_hand(pardo_from(1)); };
part('pardo-back').onclick = function () { by_hand(pardo_from(-1)); };
part('play').onclick = play;
part('slider').oninput = function () { by_hand(Number(part('slider').value)); };
window.addEventListener('hashchange', function () { pause(); follow(); });
document.addEventListener('keydown', function (e) {
  var on = e.target.tagName;
  if (e.altKey || e.ctrlKey || e.metaKey || on === 'INPUT' || on === 'SELECT') { return; }
  if (e.key === ' ' && on !== 'BUTTON' && on !== 'A') { e.preventDefault(); play(); return; }
  var name = e.key.length === 1 ? e.key.toLowerCase() : e.key;
  var to = { ArrowRight: at + 1, ArrowLeft: at - 1, Home: 0, End: last, n: pardo_from(1), p: pardo_from(-1) }[name];
  if (to === undefined) { return; }
  e.preventDefault();
  by_hand(to);
});
show();
follow();
}());
";
