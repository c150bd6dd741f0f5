//! The pieces of a page that are the same for each campaign, made by tools/page.

/// The text before the data: the style, and the page without its script.
pub const HEAD: &str = "<!doctype html>
<html lang=\"en\"><head><meta charset=\"utf-8\"><meta name=\"viewport\" content=\"width=device-width,initial-scale=1\">
<title>LIN campaign</title>
<style>
:root{color-scheme:light dark;--back:#fff;--text:#1c2126;--soft:#66707a;--line:#dce0e4;--box:#f6f7f8;
--good:#2f8f62;--calm:#d3ebde;--none:#c3c9cf;--silent:#eceef0;--damaged:#d1242f;--collided:#b5591c;
--warn:#9a6700;--warnback:#fff3cd;--sel:#0969da;--late:#f0f2f4;
--h1:#fbd7c4;--h2:#f6a685;--h3:#e5683f;--h4:#b8351a;--h5:#7a1708;--ht:#fff;--hl:#3a1a10}
@media(prefers-color-scheme:dark){:root{--back:#14171a;--text:#e4e7ea;--soft:#98a1aa;--line:#30363c;--box:#1d2125;
--good:#57b487;--calm:#203b2f;--none:#4d555d;--silent:#23282c;--damaged:#ff6b6b;--collided:#f0883e;
--warn:#f0b13c;--warnback:#3a2f12;--sel:#6cb2ff;--late:#1b1f23;
--h1:#4a2417;--h2:#7d3419;--h3:#b8502a;--h4:#e5794b;--h5:#ffb592;--ht:#1a0d08;--hl:#ffd9c7}}
*{box-sizing:border-box}
body{margin:0;padding:18px 22px 40px;background:var(--back);color:var(--text);font:14px/1.45 system-ui,\"Segoe UI\",Helvetica,Arial,sans-serif}
h1{font-size:20px;margin:0;font-weight:600}
.sub{color:var(--soft);margin:2px 0 12px}
.tiles{display:flex;flex-wrap:wrap;gap:8px;margin:0 0 14px}
.tile{border:1px solid var(--line);border-radius:7px;background:var(--box);padding:7px 13px;min-width:112px}
.tile b{font-size:20px;font-weight:600;display:block;line-height:1.15;font-variant-numeric:tabular-nums}
.tile span{color:var(--soft);font-size:12.5px}
.tile.warn{border-color:var(--warn)}.tile.warn b{color:var(--warn)}
.kinds{display:flex;gap:4px;align-items:center;margin:0 0 8px;flex-wrap:wrap;color:var(--soft);font-size:13px}
.kinds button{font:inherit;color:var(--text);background:var(--box);border:1px solid var(--line);border-radius:14px;padding:2px 11px;cursor:pointer}
.kinds button[aria-pressed=true]{border-color:var(--sel);box-shadow:inset 0 0 0 1px var(--sel)}
.legend{margin-left:auto;display:flex;gap:12px;align-items:center;flex-wrap:wrap}
.legend i{display:inline-block;width:13px;height:13px;border-radius:2px;margin-right:5px;vertical-align:-2px}
.map{display:flex;border:1px solid var(--line);border-radius:8px;overflow:hidden;background:var(--back)}
.map .scroll{overflow-x:auto;flex:1}
canvas{display:block}
#detail{border:1px solid var(--line);border-radius:8px;background:var(--box);padding:12px 16px;margin-top:12px;min-height:150px}
#detail h2{font-size:16px;margin:0 0 4px;font-weight:600}
#detail .where{color:var(--soft);font-weight:400}
.pill{display:inline-block;border-radius:10px;padding:0 9px;font-size:12.5px;margin-left:8px;font-weight:500;vertical-align:1px}
.pill.t{background:var(--calm);color:var(--good)}.pill.b{background:var(--h1);color:var(--hl)}
table.unmet{border-collapse:collapse;margin:8px 0;font-size:13.5px}
table.unmet td{padding:1px 14px 1px 0;vertical-align:top}
table.unmet td.n{color:var(--soft);text-align:right;white-space:nowrap;font-variant-numeric:tabular-nums}
code,.mono{font:12.5px/1.5 ui-monospace,SFMono-Regular,Menlo,Consolas,monospace}
.cmd{display:flex;gap:8px;align-items:center;margin-top:8px;white-space:nowrap}
.cmd code{background:var(--back);border:1px solid var(--line);border-radius:5px;padding:3px 9px;overflow-x:auto}
.cmd button{font:inherit;font-size:12.5px;border:1px solid var(--line);background:var(--back);color:var(--text);border-radius:5px;padding:2px 9px;cursor:pointer}
.strip{display:block;overflow-x:auto}
details{margin-top:14px}summary{cursor:pointer;color:var(--soft)}
details table{border-collapse:collapse;font-size:13px;margin-top:6px}
details td,details th{padding:2px 14px 2px 0;text-align:left;border-bottom:1px solid var(--line);font-weight:400}
details th{color:var(--soft)}
#tip{position:fixed;pointer-events:none;background:var(--text);color:var(--back);padding:4px 9px;border-radius:5px;font-size:12.5px;display:none;max-width:420px;z-index:9}
.keys{color:var(--soft);font-size:12.5px;margin-top:6px}
</style>
<noscript><style>#title,#sub,.kinds,.map,.keys,#detail,details{display:none}#data{display:block;white-space:pre;overflow-x:auto;font:12.5px/1.5 ui-monospace,monospace}</style></noscript>
</head><body>
<h1 id=\"title\"></h1><div class=\"sub\" id=\"sub\"></div>
<div class=\"tiles\" id=\"tiles\"></div>
<div class=\"kinds\" id=\"kinds\"></div>
<div class=\"map\"><canvas id=\"left\"></canvas><div class=\"scroll\"><canvas id=\"map\" tabindex=\"0\" aria-label=\"Faults by slot; the rows are listed below as text\"></canvas></div></div>
<div class=\"keys\">Expectations: the stronger the color, the more of the slot's faults break it. After the mark, it has been checked. Keys: left and right go from fault to fault, n and p to those that break an expectation.</div>
<div id=\"detail\" aria-live=\"polite\"></div>
<details><summary>All rows as text</summary><table id=\"rows\"></table></details>
<div id=\"tip\"></div>
<script type=\"text/plain\" id=\"data\">
";

/// The text after the data: the script.
pub const TAIL: &str = "</script>
<script>
'use strict';
const text = t => decodeURIComponent(t.slice(1).replace(/%(?![0-9A-F]{2})/g, '%25'));
const D = {lines: [], slots: [], rows: []};
for (const l of document.getElementById('data').textContent.split('\\n')) {
  const [w, ...f] = l.split(' ');
  if (w === 'file') D.file = text(f[0]);
  else if (w === 'line') D.lines.push(text(f[0]));
  else if (w === 'slot') D.slots.push({table: f[0], entry: f[1], frame: f[2], seen: f[3]});
  else if (w[0] === '{') { const o = JSON.parse(l); if (o.type === 'row') D.rows.push(o); else D.head = o; }
}
const $ = id => document.getElementById(id), N = D.slots.length, rows = D.rows.filter(r => r.row), calm = D.rows[0];
const exp = D.head.lines.map(e => Object.assign({broken: 0}, e)), byLine = new Map(exp.map(e => [e.line, e]));
const linesOf = r => r.verdict === 'limit' ? [r.limit] : [...new Set(r.unmet.map(u => u.line))];
for (const r of rows) {
  r.lines = linesOf(r); r.name = r.faults.join('+') || '-';
  for (const n of r.lines) {
    if (!byLine.has(n)) { const e = {line: n, what: 'done', slot: null, broken: 0}; byLine.set(n, e); exp.push(e); }
    byLine.get(n).broken++;
  }
  if (r.faults.length === 1) {
    const m = /^(\\d+)(\\.\\.)?(\\d+)?:(damage|absent)(?::(.*))?$/.exec(r.faults[0]);
    r.slot = +m[1]; r.kind = m[4] === 'damage' ? 'damage' : (m[2] ? 'gone ' : 'absent ') + m[5];
  }
}
exp.sort((a, b) => a.line - b.line);
const single = rows.filter(r => r.faults.length === 1);
const order = k => (k === 'damage' ? 0 : k.startsWith('absent') ? 1 : 2);
const kinds = [...new Set(single.map(r => r.kind))].sort((a, b) => order(a) - order(b));
const groups = [...new Set(kinds.map(k => k.split(' ')[0]))];
let shown = new Set(groups), sel = null, hot = null;
const most = rows.reduce((m, r) => Math.max(m, r.lines.length), 1);
const at = new Map(single.map(r => [r.kind + '@' + r.slot, r])), inSlot = D.slots.map(() => []);
for (const r of single) if (inSlot[r.slot]) inSlot[r.slot].push(r);
const isShown = r => shown.has(r.kind.split(' ')[0]);

$('title').textContent = D.head.script + ' under ' + rows.length + (single.length < rows.length ? ' faults and sets of faults' : ' faults');
document.title = $('title').textContent;
$('sub').textContent = D.file + ' · ' + N + ' slots, ' + calm.time_us / 1000 + ' ms · ' + exp.length + ' expectations, which all hold in the undisturbed run';
const tile = (n, t, warn) => { const d = document.createElement('div'); d.className = 'tile' + (warn ? ' warn' : ''); d.innerHTML = '<b></b><span></span>'; d.firstChild.textContent = n; d.lastChild.textContent = t; $('tiles').append(d); };
const tolerated = rows.filter(r => r.verdict === 'tolerated').length, never = exp.filter(e => !e.broken), always = exp.filter(e => e.broken === rows.length);
tile(tolerated + ' of ' + rows.length, 'faults tolerated');
tile(rows.length - tolerated, 'break an expectation');
tile(never.length + ' of ' + exp.length, 'expectations no fault breaks', never.length);
if (always.length) tile(always.length, 'that each fault breaks', true);
const worst = rows.reduce((a, b) => b.lines.length > a.lines.length ? b : a, rows[0]);
if (worst && worst.lines.length) tile(worst.name, 'worst: ' + worst.lines.length + ' of ' + exp.length + ' failed');

const words = {damage: 'The response in the slot is corrupted', absent: 'The node omits its response in the slot', gone: 'The node omits its responses from the slot on'};
$('kinds').append('Faults: ');
for (const g of groups) {
  const b = document.createElement('button'); b.textContent = g; b.title = words[g]; b.setAttribute('aria-pressed', true);
  b.onclick = () => { shown.has(g) ? shown.delete(g) : shown.add(g); b.setAttribute('aria-pressed', shown.has(g)); draw(); };
  $('kinds').append(b);
}
const legend = document.createElement('span'); legend.className = 'legend';
for (const [c, t] of [['--calm', 'tolerated'], ['--h1', '1'], ['--h3', ''], ['--h5', most + ' failed'], ['--late', 'checked before']])
  legend.insertAdjacentHTML('beforeend', `<span><i style=\"background:var(${c})\"></i>${t}</span>`);
$('kinds').append(legend);

const R = 21, GAP = 20;
let w, leftW, parts, H, TOP;
let colors = {};
const css = n => colors[n] || (colors[n] = getComputedStyle(document.documentElement).getPropertyValue(n).trim());
const heat = (k, max) => k ? css('--h' + Math.max(1, Math.min(5, Math.ceil(5 * k / max)))) : css('--calm');
const seenColor = s => css({good: '--good', damaged: '--damaged', collided: '--collided', none: '--none', silent: '--silent', g: '--good', d: '--damaged', c: '--collided', n: '--none', s: '--silent'}[s] || '--none');
function canvas(c, width, height) {
  const k = devicePixelRatio || 1;
  c.width = width * k; c.height = height * k; c.style.width = width + 'px'; c.style.height = height + 'px';
  const g = c.getContext('2d'); g.scale(k, k); g.clearRect(0, 0, width, height); g.font = '12.5px system-ui,\"Segoe UI\",Helvetica,Arial,sans-serif'; g.textBaseline = 'middle';
  return g;
}
function elide(g, t, width) { if (g.measureText(t).width <= width) return t; while (t && g.measureText(t + '…').width > width) t = t.slice(0, -1); return t + '…'; }
function draw() {
  colors = {};
  const width = document.body.clientWidth - 46;
  leftW = Math.min(400, Math.round(width * .4));
  w = Math.max(N <= 400 ? 8 : 3, Math.min(26, Math.floor((width - leftW) / N)));
  TOP = w >= 12 ? 92 : 24; // (with the names of the slots or without)
  const ks = kinds.filter(k => shown.has(k.split(' ')[0])), live = inSlot.map(rs => rs.filter(isShown));
  let y = TOP + R + 5;
  parts = [{y: TOP, kind: 'run'}];
  y += GAP; const yk = y;
  for (const k of ks) { parts.push({y, kind: 'fault', fault: k}); y += R; }
  y += GAP + 4; const ye = y;
  for (const e of exp) { parts.push({y, kind: 'line', e}); y += R; }
  H = y + 8;
  const g = canvas($('map'), Math.max(N * w + 8, width - leftW), H), l = canvas($('left'), leftW, H);
  const soft = css('--soft'), ink = css('--text'), rule = css('--line');
  l.textAlign = 'right';
  // the run
  let from = 0;
  for (let k = 1; k <= N; k++) if (k === N || D.slots[k].table !== D.slots[from].table) {
    g.fillStyle = soft; g.textAlign = 'left'; if ((k - from) * w > 30) g.fillText(elide(g, D.slots[from].table, (k - from) * w - 4), from * w + 3, 9);
    g.fillStyle = rule; g.fillRect(from * w, 0, 1, H); from = k;
  }
  D.slots.forEach((s, k) => {
    g.fillStyle = seenColor(s.seen); g.fillRect(k * w + 1, TOP, w - 2, R - 3);
    if (w >= 12) { g.save(); g.translate(k * w + w / 2, TOP - 5); g.rotate(-Math.PI / 2); g.textAlign = 'left'; g.fillStyle = s.seen === 'good' ? ink : soft; g.font = '11px system-ui,sans-serif'; g.fillText(s.frame === '-' ? '' : elide(g, s.frame, TOP - 24), 0, 0); g.restore(); }
  });
  l.fillStyle = soft; l.fillText('schedule table', leftW - 10, 9); l.fillStyle = ink; l.fillText('undisturbed run', leftW - 10, TOP + 9);
  // faults
  l.fillStyle = soft; l.textAlign = 'left'; l.font = '600 12px system-ui,sans-serif'; for (const [t, short, at] of [['FAULT, AND HOW MANY LINES IT BREAKS', 'FAULT', yk], ['EXPECTATION, AND HOW MANY FAULTS BREAK IT', 'EXPECTATION', ye]]) l.fillText(l.measureText(t).width < leftW - 20 ? t : short, 12, at - 10); l.font = g.font; l.textAlign = 'right';
  for (const p of parts) if (p.kind === 'fault') {
    const [a, b] = p.fault.split(' ');
    l.fillStyle = ink; l.fillText(a === 'damage' ? 'damage' : b + ' ' + a, leftW - 10, p.y + R / 2);
    for (let k = 0; k < N; k++) {
      const r = at.get(p.fault + '@' + k); if (!r) continue;
      g.fillStyle = heat(r.lines.length, most); g.fillRect(k * w + 1, p.y + 1, w - 2, R - 2);
      if (w >= 15 && r.lines.length) { g.textAlign = 'center'; g.fillStyle = r.lines.length * 5 / most > 2 ? css('--ht') : css('--hl'); g.fillText(r.lines.length, k * w + w / 2, p.y + R / 2 + .5); }
    }
  } else if (p.kind === 'line') {
    const e = p.e, mine = sel && sel.lines.includes(e.line);
    if (mine) { l.fillStyle = css('--h1'); l.fillRect(0, p.y, leftW, R); }
    l.textAlign = 'right'; l.fillStyle = e.broken ? ink : css('--warn');
    l.fillText(e.broken ? e.broken : 'never', leftW - 10, p.y + R / 2);
    l.fillStyle = soft; l.fillText(e.line, 34, p.y + R / 2);
    l.textAlign = 'left'; l.fillStyle = mine ? css('--hl') : e.broken ? ink : css('--warn'); l.fillText(elide(l, e.what, leftW - 100), 44, p.y + R / 2);
    const end = e.slot === null ? 0 : e.slot + 1;
    g.fillStyle = css('--late'); g.fillRect(end * w, p.y + 1, (N - end) * w, R - 2);
    for (let k = 0; k < N; k++) {
      const here = live[k], hit = here.filter(r => r.lines.includes(e.line)).length;
      if (hit) { g.fillStyle = heat(hit, here.length); g.fillRect(k * w + 1, p.y + 1, w - 2, R - 2); }
    }
    g.fillStyle = ink; g.fillRect(end * w - 1, p.y + 2, 2, R - 4);
  }
  if (sel && sel.slot !== undefined) {
    g.strokeStyle = css('--sel'); g.lineWidth = 1.5; g.strokeRect(sel.slot * w + .25, TOP - 2, w - .5, H - TOP - 4);
    const p = parts.find(p => p.fault === sel.kind); if (p) { g.lineWidth = 3; g.strokeRect(sel.slot * w + .5, p.y, w - 1, R); }
  }
}
function strip(seen, other) {
  seen = seen.slice(0, N + 20);
  const c = document.createElement('canvas'), k = Math.max(3, Math.min(14, Math.floor((document.body.clientWidth - 290) / (N + 20))));
  const g = canvas(c, Math.max(seen.length, N) * k + 2, 16);
  [...seen].forEach((s, i) => { g.fillStyle = seenColor(s); g.fillRect(i * k, 1, k - 1, 14); if (other && i < other.length && s !== other[i]) { g.strokeStyle = css('--sel'); g.lineWidth = 2; g.strokeRect(i * k, 1, k - 1, 14); } });
  return c;
}
// (a word of a shell)
const word = t => /^[\\w./+:,@%=-]+$/.test(t) ? t : \"'\" + t.replace(/'/g, \"'\\\\''\") + \"'\";
function show(r, quiet) {
  sel = r; draw();
  const d = $('detail'); d.textContent = '';
  const add = (tag, t, cls, to = d) => { const e = document.createElement(tag); if (t !== undefined) e.textContent = t; if (cls) e.className = cls; to.append(e); return e; };
  if (!r) { add('p', 'Choose a fault: click a cell above. Its row shows what the script comes to under this fault.', 'sub'); return; }
  const box = $('map').parentNode, x = r.slot * w;
  if (x < box.scrollLeft || x + w > box.scrollLeft + box.clientWidth) box.scrollLeft = x - box.clientWidth / 2;
  const h = add('h2', r.name); if (r.table) add('span', '  ' + r.table + ' ' + r.entry + ' ' + r.frame, 'where', h);
  add('span', r.verdict === 'tolerated' ? 'tolerated' : r.verdict === 'limit' ? 'slot limit in line ' + r.limit : r.lines.length + ' of ' + exp.length + ' failed', 'pill ' + (r.verdict === 'tolerated' ? 't' : 'b'), h);
  if (r.verdict !== 'limit') {
    const t = add('table', undefined, 'unmet');
    for (const u of r.unmet) { const tr = add('tr', undefined, '', t); add('td', 'line ' + u.line, 'n', tr); add('td', u.what, 'mono', tr); add('td', u.got, 'mono', tr); }
    const more = [];
    const has = (a, o) => a.some(x => JSON.stringify(x) === JSON.stringify(o));
    const lost = r.lost.filter(x => !has(calm.lost, x)), refused = r.refused.filter(x => !has(calm.refused, x));
    if (lost.length) more.push('lost: ' + lost.map(x => `message ${x.number} of ${x.host}, ${x.cause}`).join('; '));
    if (refused.length) more.push('refused: ' + refused.map(x => `${x.name} in line ${x.line}`).join('; '));
    if (r.missed) more.push('faults that changed nothing: ' + r.missed);
    if (more.length) add('div', more.join('  ·  '));
    const s = add('table', undefined, 'unmet strip');
    for (const [n, seen, count, other] of [['undisturbed', calm.seen, N], ['under the fault', r.seen, r.slots, calm.seen]]) { const tr = add('tr', undefined, '', s); add('td', n, 'n', tr); add('td', undefined, '', tr).append(strip(seen, other)); add('td', count + ' slots', 'n', tr); }
  }
  const c = add('div', undefined, 'cmd'), cmd = `linsim play ${word(D.file)} ${word(D.head.script)} ${r.faults.length ? '--fault ' + r.name + ' ' : ''}--to html > run.html`;
  add('span', 'The whole run:', '', c); add('code', cmd, '', c); const b = add('button', 'Copy', '', c); b.onclick = () => navigator.clipboard && navigator.clipboard.writeText(cmd);
  if (!quiet) history.replaceState(null, '', '#' + r.name);
}
function hit(e) {
  const b = $('map').getBoundingClientRect(), k = Math.floor((e.clientX - b.left) / w), y = e.clientY - b.top;
  if (k < 0 || k >= N) return null;
  const p = parts.find(p => y >= p.y && y < p.y + R);
  if (!p) return null;
  if (p.kind === 'fault') return {r: at.get(p.fault + '@' + k), k, p};
  if (p.kind === 'line') return {r: inSlot[k].find(r => isShown(r) && r.lines.includes(p.e.line)), k, p};
  return {k, p};
}
$('map').onclick = e => { const h = hit(e); if (h && h.r) show(h.r); };
$('map').onmousemove = e => {
  const h = hit(e), t = $('tip'); t.style.display = h ? 'block' : 'none'; if (!h) return;
  const s = D.slots[h.k];
  t.textContent = h.p.kind === 'run' ? `slot ${h.k}: ${s.table} ${s.entry} ${s.frame}, ${s.seen}` : h.p.kind === 'line' ? `line ${h.p.e.line}: ${D.lines[h.p.e.line - 1].trim()}` + (h.r ? ` — broken by ${h.r.name}` : h.p.e.slot === null || h.k > h.p.e.slot ? ' — checked before slot ' + h.k : ' — not broken from slot ' + h.k) : h.r ? `${h.r.name}: ` + (h.r.lines.length ? 'lines ' + h.r.lines.join(' ') + ' failed' : 'tolerated') : `no such fault in slot ${h.k}`;
  t.style.left = Math.min(e.clientX + 14, innerWidth - 430) + 'px'; t.style.top = e.clientY + 16 + 'px';
};
$('map').onmouseleave = () => $('tip').style.display = 'none';
addEventListener('keydown', e => {
  const list = e.key === 'n' || e.key === 'p' ? rows.filter(r => r.verdict !== 'tolerated') : rows, step = {ArrowRight: 1, ArrowLeft: -1, n: 1, p: -1}[e.key];
  if (!step || e.ctrlKey || e.metaKey || e.altKey) return;
  e.preventDefault();
  const i = sel ? step > 0 ? list.findIndex(r => r.row > sel.row) : list.findLastIndex(r => r.row < sel.row) : 0;
  if (i >= 0) show(list[i]);
});
// (the table of a long campaign is filled in parts, so that the page is there before)
const t = $('rows'); t.innerHTML = '<tr><th>fault<th>slot<th>verdict<th>failed lines<th>lost<th>refused';
function fill(from) {
  for (const r of D.rows.slice(from, from + 1000)) { const tr = t.insertRow(); for (const x of [r.faults.join('+') || 'undisturbed', r.table ? r.table + ' ' + r.entry + ' ' + r.frame : '', r.verdict, linesOf(r).join(' '), (r.lost || []).map(x => `${x.host} ${x.number} ${x.cause}`).join(', '), (r.refused || []).map(x => `${x.line} ${x.name}`).join(', ')]) tr.insertCell().textContent = x; }
  if (from + 1000 < D.rows.length) setTimeout(fill, 0, from + 1000);
}
fill(0);
addEventListener('resize', draw); matchMedia('(prefers-color-scheme:dark)').addEventListener('change', () => show(sel, true));
show(rows.find(r => '#' + r.name === decodeURIComponent(location.hash)) || null, true);
</script></body></html>
";
