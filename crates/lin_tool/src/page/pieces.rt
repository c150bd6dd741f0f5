//! The pieces of a page that are the same for each run, made by tools/page.

/// The text before the data: the style, and the page without its script.
pub const HEAD: &str = "<!DOCTYPE html>
<html lang=\"en\"><head><meta charset=\"utf-8\">
<meta name=\"viewport\" content=\"width=device-width\">
<title>LIN run</title>
<style>
:root{color-scheme:light dark;--back:#fff;--text:#1c2126;--soft:#66707a;--line:#dce0e4;--box:#f6f7f8;--head:#5b6b78;
--good:#2f8f62;--quiet:#b5d8c5;--none:#c3c9cf;--silent:#eceef0;--damaged:#d1242f;--missed:#d98a00;--collided:#b5591c;
--lost:#d1242f;--refused:#8250df;--unmet:#bf3989;--waits:#0b7285;--msg:#4a86c8;--soon:#cfdff0;--plot:#22577a;--sel:#0969da;--asleep:#1c2126}
@media(prefers-color-scheme:dark){:root:not(.paper){--back:#14171a;--text:#e4e7ea;--soft:#98a1aa;--line:#30363c;
--box:#1d2125;--head:#8b9aa7;--good:#57b487;--quiet:#2d5a45;--none:#4d555d;--silent:#23282c;--damaged:#ff6b6b;
--missed:#f0b13c;--collided:#f0883e;--lost:#ff6b6b;--refused:#b492ff;--unmet:#f778ba;--waits:#4cc3d4;--msg:#5b97d6;
--soon:#22384f;--plot:#8cc4ea;--sel:#6cb2ff;--asleep:#e4e7ea}}
.paper{color-scheme:light}
*{box-sizing:border-box}
body{margin:0 auto;padding:14px 18px 24px;font:13px/1.4 system-ui,sans-serif;background:var(--back);color:var(--text)}
h1{font-size:19px;margin:0}
h2{font-size:13px;margin:0 0 4px}
small,.l,.k,#sum,#by,#found,#rest{color:var(--soft)}
#by{display:none}
header{display:flex;flex-wrap:wrap;gap:4px 12px;align-items:baseline;margin-bottom:8px}
#zoom{margin-left:auto}
button,input{font:inherit;color:inherit;background:var(--box);border:1px solid var(--line);border-radius:5px;padding:2px 8px}
button{cursor:pointer}
:focus-visible{outline:2px solid var(--sel);outline-offset:1px}
#bar{display:flex;flex-wrap:wrap;gap:6px;margin:0 0 10px;align-items:center}
#find{flex:1 1 210px;max-width:430px}
#kinds{display:contents}
#kinds i,#probs i{display:inline-block;width:9px;height:9px;border-radius:2px;margin-right:5px}
#kinds .on{border-color:var(--sel);box-shadow:0 0 0 1px var(--sel)}
#time{position:relative;border:solid var(--line);border-width:1px 0;overflow:hidden}
#time canvas{display:block;touch-action:pan-y}
#over{cursor:crosshair}#bus,#plot{cursor:grab}
#lanes{max-height:42vh;overflow:hidden auto;scrollbar-gutter:stable;border-top:1px solid var(--line)}
#plot{position:sticky;top:0}
#hair{position:absolute;top:0;bottom:0;width:1px;background:var(--sel);opacity:.5;pointer-events:none;display:none}
#tip{position:fixed;z-index:2;max-width:340px;padding:5px 8px;white-space:pre-line;pointer-events:none;display:none;overflow-wrap:anywhere;
background:var(--back);border:1px solid var(--line);border-radius:5px;box-shadow:0 3px 12px #0003;font-size:12px}
#line{margin:6px 0;min-height:20px;font-size:12px;overflow-wrap:anywhere}
#rest{font-size:12px;margin:0 0 10px}
main{display:grid;grid-template-columns:250px minmax(0,1fr);gap:22px}
#probs ol{list-style:none;margin:0;padding:0;max-height:70vh;overflow-y:auto;font-size:12px}
#probs button{display:block;width:100%;text-align:left;background:none;border:0;border-radius:3px;padding:2px 4px}
#probs ol ol{max-height:none;padding-left:14px}
#probs button:hover,.on>button{background:var(--box)!important}
.r{display:grid;grid-template-columns:104px minmax(0,1fr);padding:5px 0 7px;border-top:1px solid var(--line);break-inside:avoid}
.x{border-left:3px solid var(--collided);padding-left:8px}
.g{display:grid;grid-template-columns:repeat(auto-fill,minmax(200px,1fr));column-gap:6px}
.s{display:grid;grid-row:span 3;grid-template-rows:subgrid;min-width:0;max-width:230px}
.a{align-self:end;color:var(--soft)}
.s div{overflow:hidden;text-overflow:ellipsis;white-space:nowrap;min-width:0}
.s .c{white-space:normal;overflow-wrap:anywhere}
.l,.c{font-size:11px}
.e{color:var(--damaged);font-weight:600}
.b{background:var(--box);border:1px solid var(--line);border-radius:4px;padding:2px 5px 0;margin-top:3px;cursor:pointer}
.b:hover,.on .b{border-color:var(--sel)}.on .b{box-shadow:0 0 0 1px var(--sel)}
.b small{float:right}
.m{font:12px ui-monospace,monospace}
.p{display:flex;height:5px;margin:2px -5px 0}
.h{background:var(--head)}
.good .d{background:var(--good)}.damaged .d{background:var(--damaged)}.collided .d{background:var(--collided)}
.damaged .w,.damaged .m{color:var(--damaged)}.collided .w,.collided .m{color:var(--collided)}.missed .w,.missed .m{color:var(--missed)}
.none .w,.none .m,.silent .w,.silent .m{color:var(--soft)}
.f{padding:3px 0;border-top:1px solid var(--line);color:var(--soft)}
td,th{text-align:left;padding:0 10px 0 0;font-size:12px}
@media(max-width:760px){body{padding:10px}main{grid-template-columns:1fr}.r{grid-template-columns:1fr}#probs ol{max-height:150px}
.t br{display:none}.g{grid-template-columns:repeat(auto-fill,minmax(156px,1fr))}}
@page{size:A4 landscape;margin:10mm}
@media print{body{width:1040px;padding:0}#by{display:inline}#find,#zoom,#hair,#tip,.keys,[data-k=more]{display:none!important}
h2{break-after:avoid}
#lanes,#probs ol{max-height:none}main{display:block}#probs ol{columns:3}}
</style></head><body>
<p id=\"ask\" hidden><span></span> <button>Draw</button></p>
<div id=\"page\" hidden>
<header><h1 id=\"name\"></h1><span id=\"sum\"></span><span id=\"by\"><span id=\"shown\"></span>linsim 0.2.0</span><span id=\"zoom\"><button data-k=\"0\">whole run</button> <button data-k=\"-\" aria-label=\"zoom out\">−</button> <button data-k=\"+\" aria-label=\"zoom in\">+</button> <button data-k=\"p\" aria-label=\"problem before\">‹ problem</button> <button data-k=\"n\" aria-label=\"next problem\">problem ›</button> <button data-k=\"?\" aria-label=\"keys\">?</button></span></header>
<div id=\"bar\"><input id=\"find\" type=\"search\" placeholder=\"Filter: frame, signal, node, 0x10, 22F190, Temp = 27, 9.5 s, #slot\" aria-label=\"Filter\">
<span id=\"found\" role=\"status\"></span><span id=\"kinds\"></span></div>
<div id=\"time\" tabindex=\"0\" role=\"application\" aria-label=\"The run over time: arrow keys go from slot to slot\" aria-describedby=\"line\">
<canvas id=\"over\"></canvas><canvas id=\"bus\"></canvas><div id=\"lanes\"><canvas id=\"plot\"></canvas><div id=\"tall\"></div></div><div id=\"hair\"></div></div>
<p id=\"line\" role=\"status\"><span class=\"keys\">← → slot · shift ← → move · PageUp PageDown window · Home End · + − zoom · 0 whole run · n p problem · m marks a slot, to measure from it (or shift and click) · / filter, Enter next, Esc clears · drag moves, wheel zooms; in the strip on top drag selects · ? keys</span></p><p id=\"rest\"></p>
<main><aside id=\"probs\"></aside><section id=\"rows\" aria-label=\"Slots\"></section></main>
<div id=\"tip\"></div>
</div>
<script type=\"text/plain\" id=\"run\">
";

/// The text between the data and what is shown without a script.
pub const MIDDLE: &str = "</script>
<noscript>
";

/// The text after that: the scripts.
pub const TAIL: &str = "</noscript>
<script>
'use strict';
const KINDS = ['silent', 'none', 'good', 'damaged', 'collided', 'missed'], PLAIN = /^\\S+ (open|answer|finish)/;
const REFUSALS = 'NoSuchNode NoSuchSignal NoSuchTable NotPublisher BadValue NoAddress BadLength Closed QueueFull Asleep Awake SlotOpen NoSlot NotYours Decided NothingOnWire PassesCheck NoTransfer'.split(' ');
// The run of a data block: what the cluster has, then the log.
function readRun(text) {
\tconst nodes = [], signals = [], tables = [], frames = [], slots = [], msgs = [], probs = [], rows = [], places = [], wait = [];
\tconst named = () => Object.create(null), sig = named(), frm = named(), group = named(), run = {nodes, signals, tables, slots, msgs, probs, rows, group};
\tconst un = s => { s = s.slice(1); try { return decodeURIComponent(s); } catch { return unescape(s); } };
\tconst num = s => s[0] === 'x' ? s : +s, at = text.indexOf('\\nlog\\n');
\tfor (const line of text.slice(0, at).split('\\n')) {
\t\tconst [w, n, a, b, c, d, ...e] = line.split(' ');
\t\t({
\t\t\tfile() { run.file = un(n); },
\t\t\tspeed() { run.speed = +n; },
\t\t\tnode() { nodes[n] = {name: a, nad: b}; },
\t\t\tsignal() { signals[n] = sig[a] = {name: a, at: [], val: [], maps: [], in: 0}; },
\t\t\ttable() { tables[n] = {name: a, lines: []}; },
\t\t\tframe() { frames[n] = frm[a] = {name: a, id: b, pid: c, node: e[0], places: []}; },
\t\t\tplace() { const s = sig[c]; s.init = s.now = num(d); s.in++; frames[n].places.push([s, +a, +b]); },
\t\t\talone() { signals[n].init = num(a); },
\t\t\tsporadic() { group[a] = {frames: [b, c, d, ...e]}; },
\t\t\tevent() { group[a] = {id: b, table: d, frames: e}; },
\t\t\tslot() { tables[n].lines[a] = {name: b, kind: c, delay: +e[0]}; },
\t\t\tphysical() { signals[n].maps.push({lo: a, hi: b, k: c, o: +d, unit: un(e[0])}); },
\t\t\tlogical() { signals[n].maps.push({lo: a, hi: a, text: un(b) || a}); },
\t\t}[w] || (() => 0))();
\t}
\tlet s, old, step, time = 0, i = 0;
\tconst fresh = () => { s = {i, t: time, steps: [], puts: [], told: [], tags: [], due: 0, news: 0}; };
\tconst problem = (kind, s, why, line) => { probs.push({kind, i: s.i, why, line}); s.tags.push(kind); s.news |= 2; };
\tconst hear = (hex, f) => {
\t\tif (f.last === hex && f.places.every(q => q[0].in < 2)) return;
\t\tf.last = hex;
\t\tfor (const [g, off, size] of f.places) {
\t\t\tlet v = 0;
\t\t\tif (g.init[0]) v = 'x' + hex.substr(off / 4, size / 4);
\t\t\telse for (let b = off + size - 1 >> 3; b >= off >> 3; b--) v = v << 8 | parseInt(hex.substr(2 * b, 2), 16);
\t\t\tif (v >= 0) v = (v >> off % 8) % 2 ** size;
\t\t\tif (v !== g.now) { g.at.push(i); g.val.push(g.now = v); s.news |= 1; }
\t\t}
\t};
\tfresh();
\tfor (const line of text.slice(at + 5).split('\\n')) {
\t\tif (line[0] !== '>' && line[0] !== 'u') {
\t\t\tplaces.push(i);
\t\t\tstep = {line};
\t\t\tif (!PLAIN.test(line) && line) s.steps.push(step), s.news |= 2;
\t\t\tcontinue;
\t\t}
\t\tif (line[0] === 'u') {
\t\t\tconst [, entries, why] = line.split(' ');
\t\t\tproblem('unmet', slots[places[entries - 1] || 0] || s, un(why));
\t\t\tcontinue;
\t\t}
\t\tconst f = line[2] === 'd' ? ['>', 'due'] : line.split(' '), [, w, x, y, z] = f;
\t\tswitch (w) {
\t\tcase 'slot':
\t\t\ts.table = tables[x];
\t\t\ts.entry = +y;
\t\t\ts.pid = z;
\t\t\tbreak;
\t\tcase 'service': s.service = 1; break;
\t\tcase 'due': s.due = 1; break;
\t\tcase 'put': s.puts.push([x, y]); break;
\t\tcase 'refused':
\t\t\tif (PLAIN.test(step.line)) s.steps.push(step);
\t\t\tproblem(w, s, step.why = REFUSALS[x - 1], step.line);
\t\t\tbreak;
\t\tcase 'accepted': {
\t\t\tconst [, , , to, hex] = step.line.split(' '), m = {host: x, n: y, to, hex, i, frames: [], fate: 'waits'};
\t\t\twait.push(m);
\t\t\tmsgs.push(m);
\t\t\tbreak;
\t\t}
\t\tcase 'seen': {
\t\t\tconst {kind, name, delay} = s.line = s.table.lines[s.entry], g = group[name], [from, put] = s.puts[0] || ['', ''];
\t\t\ts.kind = x === 'none' && s.due ? 5 : KINDS.indexOf(x);
\t\t\ts.good = y || '';
\t\t\ts.d = delay;
\t\t\ts.frame = kind === 'unconditional' ? frm[name] : g && g.frames.map(m => frm[m]).find(f => f && (g.id
\t\t\t\t? y && nodes[from].name === f.node : f.pid === s.pid));
\t\t\ts.name = s.frame ? s.frame.name : name;
\t\t\ts.id = (s.frame || g || {}).id || {request: '0x3C', response: '0x3D', configuration: s.service && '0x3C'}[kind] || '';
\t\t\tif (y && s.frame) hear(y, s.frame);
\t\t\tif (s.kind === 3 || s.kind === 5) problem(KINDS[s.kind], s, s.name);
\t\t\telse s.tags.push(KINDS[s.kind]);
\t\t\tif (s.kind === 4) s.news |= 2;
\t\t\tconst nad = parseInt(put.slice(0, 2), 16), m = /^re/.test(kind) && !s.service && nad && wait.find(m => m.host === from
\t\t\t\t&& (from > 0 || (nodes[m.to] || {nad: 126}).nad == nad));
\t\t\tif (m) m.frames.push(s), s.news |= 4;
\t\t\tslots.push(old = s);
\t\t\ttime += delay;
\t\t\ti++;
\t\t\tfresh();
\t\t\tbreak;
\t\t}
\t\tdefault: {
\t\t\tconst o = step.line === 'bus finish' ? old : s, k = wait.findIndex(m => m.host === x && m.n === y);
\t\t\to.told.push(line);
\t\t\to.news |= 4;
\t\t\tif (w === 'asleep') o.tags.push(w);
\t\t\tif (w !== 'sent' && w !== 'lost') break;
\t\t\tconst m = wait.splice(k, 1)[0];
\t\t\tm.end = i - 1;
\t\t\tm.fate = z || w;
\t\t\tif (z) problem(w, o, m.hex, line);
\t\t}
\t\t}
\t}
\tfor (const m of wait) problem('waits', old || s, m.hex, `> lost ${m.host} ${m.n}`);
\tfor (const q of probs) q.i = Math.min(q.i, i - 1);
\tprobs.sort((a, b) => a.i - b.i);
\trun.rest = s;
\trun.end = time;
\t// rounds, of which those without news are one row
\tfor (const s of slots) {
\t\tconst o = slots[s.i - 1], row = rows[rows.length - 1];
\t\tif (o && o.table === s.table && s.entry) row.b++, row.news |= s.news;
\t\telse rows.push({a: s.i, b: s.i + 1, n: 1, news: s.news});
\t}
\trun.rows = rows.reduce((all, r) => {
\t\tconst o = all[all.length - 1];
\t\tif (o && !o.news && !r.news && slots[o.a].table === slots[r.a].table) o.b = r.b, o.n++;
\t\telse all.push(r);
\t\treturn all;
\t}, []);
\treturn run;
}
</script>
<script type=\"module\">
const $ = id => document.getElementById(id), text = $('run').textContent;
// the slot that the address names, or that the page around this one asks for before the run is drawn
let wanted = location.hash.slice(1);
onmessage = e => { if (e.source === parent) wanted = e.data; };
// a run of many slots says how long drawing takes, by its first slots; one of very many is drawn when it is asked for (the page
// around a frame keeps what it shows until the frame is loaded)
let many = 0, few;
for (let at = 0; (at = text.indexOf('\\n> seen ', at) + 1);) if (++many === 5e3) few = at;
if (many > (parent === window ? 2e4 : 2e5)) {
\tconst [time, button] = $('ask').children, start = performance.now();
\treadRun(text.slice(0, few));
\ttime.textContent = `Drawing ${many} slots takes about ${Math.ceil((performance.now() - start) * many / 5e6)} s.`;
\tbutton.hidden = many <= 2e5;
\t$('ask').hidden = false;
\tif (!button.hidden) await new Promise(asked => { button.onclick = asked; });
\tbutton.remove();
\tawait new Promise(shown => setTimeout(shown, 50));
}
const run = readRun(text), {nodes, signals, tables, slots, probs, rows, msgs} = run;
const N = slots.length, END = run.end || 1e3, LABEL = {silent: 'no header', none: 'no answer', missed: 'answer missing'}, BOLD = '600 12px';
let t0 = 0, t1 = END, sel = -1, mark = -1, mask, W, G, C, paper, frame, timer, most = 40, strip, lanes, drag, groups;
const bisect = (n, ok) => { let a = 0; while (a < n) { const m = a + n >> 1; if (ok(m)) n = m; else a = m + 1; } return a; };
// texts
const esc = s => String(s).replace(/[&<\"]/g, c => `&#${c.charCodeAt()};`);
const h = (text, ...v) => [text.reduce((a, t, k) => a + (Array.isArray(v[k - 1]) ? v[k - 1].join('') : esc(v[k - 1])) + t)];
const ms = t => END < 1e7 ? +(t / 1e3).toFixed(3) + ' ms' : +(t / 1e6).toFixed(4) + ' s';
const bytes = s => (s.length > 48 ? s.slice(0, 48) + '…' : s).replace(/\\w\\w(?=\\w)/g, '$& ');
const OF = {send: [nodes, nodes], message: [nodes, nodes], write: [nodes, signals], switch: [tables], hurt: [], close: [nodes]};
const say = (line = '') => line.split(' ').slice(1).map((v, k, [of, , g]) => k === 3 && of === 'write' && signals[g] && map(signals[g], v) ? '= ' + shown(signals[g], v)
\t: k && (OF[of] || OF.close)[k - 1]?.[v]?.name || v).join(' ');
const did = q => [q.why, say(q.line)].filter(v => v).join(': ');
const map = (s, v) => s.maps.find(m => v >= +m.lo && v <= +m.hi);
const named = (s, v) => s.init[0] || map(s, v)?.text;
const digits = x => { const s = String(+x.toPrecision(9)), e = /e-(\\d+)$/.exec(s); return e ? (+s).toFixed(+e[1] + 8).replace(/0+$/, '') : s; };
const shown = (s, v) => { const m = map(s, v); return m ? m.text || digits(v * m.k + m.o) + (m.unit && ' ' + m.unit) : String(v); };
const heard = (s, i) => s.val[bisect(s.at.length, k => s.at[k] > i) - 1] ?? s.init;
const news = s => s.news & 1 ? signals.filter(g => g.at[bisect(g.at.length, k => g.at[k] >= s.i)] === s.i).map(g => `${g.name} = ${shown(g, heard(g, s.i))}`) : [];
const look = s => s.good ? bytes(s.good) : LABEL[KINDS[s.kind]] || KINDS[s.kind];
const times = s => [s.pid === '-' ? 0 : 34e6 / run.speed | 0, s.puts[0] ? s.puts[0][1].length * 5e6 / run.speed | 0 : 0];
const short = s => s.length > 160 ? s.slice(0, 160) + '…' : s;
const brief = (all, end = '\\n') => [...all.slice(0, 16).map(short), ...all.length > 16 ? [`… ${all.length} lines in all`] : []].join(end);
const about = s => [`#${s.i}  ${ms(s.t)}  ${s.table.name} ${s.entry}`, `${s.name} ${s.id} (${s.pid})  ${look(s)}`, ...s.puts.map(q => `${nodes[q[0]].name} put ${bytes(q[1])}`),
\t...s.steps.map(did), ...news(s), ...s.told.map(say)];
const count = (n, what) => `${n} ${what}${n === 1 ? '' : 's'}`;
// How far a slot is from the marked one.
const away = i => mark < 0 ? [] : [i === mark ? 'marked' : `${ms(Math.abs(T[i] - T[mark]))} and ${count(Math.abs(i - mark), 'slot')} ${i < mark ? 'before' : 'after'} #${mark}`];
// pictures
const x = t => G + (t - t0) / (t1 - t0) * (W - G), slotAt = t => Math.max(0, bisect(N, i => T[i] > t) - 1);
const fit = (c, high) => {
\tconst r = paper ? 3 : devicePixelRatio, g = c.getContext('2d');
\tc.width = W * r; c.height = high * r; c.style.width = W + 'px'; c.style.height = high + 'px';
\tg.scale(r, r);
\tg.textBaseline = 'middle';
\treturn g;
};
const box = (g, c, x, y, w, h) => { g.fillStyle = C[c]; g.fillRect(x, y, w, h); };
// A text in so much room, cut where it is longer, if something is left then; or only whole.
const put = (g, s, x, y, w, c, font = '11px', whole) => {
\tif (w < 14) return;
\tg.font = font + (font === '12px' ? ' ui-monospace,monospace' : ' system-ui,sans-serif');
\tconst need = g.measureText(s).width;
\tconst some = s.length * w / need - 1 | 0;
\tif (need > w && (whole || some < 3)) return;
\tg.fillStyle = C[c];
\tg.fillText(need > w ? s.slice(0, some) + '…' : s, x, y);
};
const cursors = (g, X, y, high) => { for (const [i, c] of [[mark, 'unmet'], [sel, 'sel']]) if (i >= 0 && X(T[i]) >= G) box(g, c, X(T[i]), y, 1.5, high); };
// Slots as columns, or as shares of columns, with what is wrong from above.
const HUES = [...KINDS, 'quiet', 'box'], T = Float64Array.from(slots, s => s.t), hue = new Uint8Array(N);
const colour = () => slots.forEach((s, i) => { hue[i] = mask && !mask[i] ? 7 : s.kind === 2 && !(s.news & 5) ? 6 : s.kind; });
const drawStrip = (g, a, b, y, high) => {
\tconst k = (W - G) / (b - a), last = slotAt(b - 1), bad = [];
\tlet i = slotAt(a);
\tconst d = (W - G) / (last - i + 1), wide = Math.ceil(4 * d);
\tif (d > 3) for (const s of slots.slice(i, last + 1)) box(g, HUES[hue[s.i]], Math.max(G, G + (s.t - a) * k), y, Math.min(s.d, s.t + s.d - a) * k - (d > 6 ? 1 : .4), high);
\telse for (let c = G; c < W; c += wide) {
\t\tconst part = new Uint32Array(8), from = i, to = a + (c + wide - G) / k;
\t\twhile (i <= last && T[i] < to) part[hue[i++]]++;
\t\tlet low = y + high, top = y;
\t\tfor (const q of [0, 1, 7, 6, 2]) if (part[q]) { const s = part[q] / (i - from) * high; box(g, HUES[q], c, low -= s, wide, s); }
\t\tfor (const q of [3, 5, 4]) if (part[q]) { const s = Math.max(7, part[q] / (i - from) * high); bad.push([HUES[q], c, top, Math.max(1.5, wide), s]); top += s; }
\t}
\tbad.forEach(q => box(g, ...q));
};
const drawOver = () => {
\tconst g = fit($('over'), 66), X = t => G + t / END * (W - G), a = X(t0), b = X(t1);
\tif (!strip) {
\t\tconst g = fit(strip = document.createElement('canvas'), 66), last = {};
\t\tdrawStrip(g, 0, END, 16, 32);
\t\tfor (const r of rows) { const s = slots[r.a]; box(g, ['soon', 'msg', 'waits', 'none'][tables.indexOf(s.table) % 4], X(s.t), 49, X(slots[r.b - 1].t) - X(s.t) + 1, 3); }
\t\tfor (const s of [...slots, run.rest]) for (const q of s.tags) {
\t\t\tconst at = Math.min(W - 4, X(s.t) | 0);
\t\t\tif (last[q] > at - 3 || KINDS.includes(q)) continue;
\t\t\tlast[q] = at;
\t\t\tif (q === 'asleep') put(g, '☾', at - 5, 8, 20, 'asleep', '13px');
\t\t\telse { g.fillStyle = C[q]; g.beginPath(); g.moveTo(at - 4, 4); g.lineTo(at + 4, 4); g.lineTo(at, 13); g.fill(); }
\t\t}
\t\tput(g, 'whole run', 0, 32, G, 'soft');
\t\tput(g, '0', G, 60, 99, 'soft', '10px');
\t\tg.textAlign = 'right';
\t\tput(g, ms(run.end), W, 60, 99, 'soft', '10px');
\t}
\tg.drawImage(strip, 0, 0, W, 66);
\tg.globalAlpha = .6;
\tbox(g, 'back', G, 0, a - G, 53); box(g, 'back', b, 0, W - b, 53);
\tg.globalAlpha = 1;
\tg.strokeStyle = C.sel; g.lineWidth = 1.5; g.strokeRect(Math.min(a, W - 3) + 1, 14.5, Math.max(2, b - a - 2), 38);
\tcursors(g, X, 0, 53);
};
const ticks = (g, high, text) => {
\tlet d = 10 ** Math.ceil(Math.log10((t1 - t0) / (W - G) * 85));
\td /= [5, 2, 1].find(k => x(t0 + d / k) - G > 84) || 1;
\tfor (let t = Math.ceil(t0 / d) * d; t <= t1; t += d) { box(g, 'line', x(t), 0, 1, high); if (text) put(g, ms(t), x(t) + 3, 7, 80, 'soft'); }
};
const drawBus = () => {
\tconst g = fit($('bus'), 98), first = slotAt(t0), last = slotAt(t1 - 1), w = (W - G) / (last - first + 1);
\tticks(g, 98, 1);
\tif (w < 22) drawStrip(g, t0, t1, 38, 54);
\t// (from the right: what is above a box may go on to the next that has something there)
\telse for (let i = last, free = W; i >= first && slots[i]; i--) {
\t\tconst s = slots[i], a = x(s.t), d = x(s.t + s.d) - a - 3, l = Math.max(a, G) + (w < 60 ? 3 : 5), room = a + d - l - 2, k = KINDS[s.kind], c = s.kind < 2 ? 'soft' : s.kind === 2 ? 'text' : k;
\t\tconst [head, tail] = times(s).map(t => t / s.d * (d + 3));
\t\tg.globalAlpha = mask && !mask[s.i] ? .3 : 1;
\t\tbox(g, s.i === sel ? 'sel' : 'line', a, 37, d, 56); box(g, 'box', a + 1, 38, d - 2, 54);
\t\tbox(g, 'head', a, 88, head, 5); box(g, k, a + head, 88, tail, 5);
\t\tg.font = BOLD + ' system-ui,sans-serif';
\t\tconst names = w < 60 ? [s.id.slice(2)] : [`${s.name}  ${s.id}  #${s.i}`, `${s.name}  ${s.id}`, s.name];
\t\tput(g, names.find(n => g.measureText(n).width <= room + 2) || names.pop(), l, 47, room + 2, c, BOLD);
\t\tif (w >= 60) {
\t\t\tput(g, look(s), l, 63, room, c, s.good ? '12px' : '11px');
\t\t\tput(g, [...s.told.map(say), ...news(s)].join(', '), l, 78, room, s.tags.includes('lost') ? 'lost' : 'soft');
\t\t}
\t\tif (s.steps[0]) {
\t\t\tput(g, free - l < 50 ? '▾' : '▾ ' + s.steps.map(did).join(', '), l - 4, 27, free - l, s.tags.includes('refused') ? 'refused' : 'soft');
\t\t\tfree = l - 4;
\t\t}
\t}
\tg.globalAlpha = 1;
\tcursors(g, x, 14, 84);
\tg.clearRect(0, 0, G - 1, 98);
\tput(g, N ? slots[first].table.name : '', 0, 7, G - 8, 'text', BOLD);
\tput(g, 'steps', 0, 27, G, 'soft'); put(g, 'bus', 0, 58, G, 'text', BOLD); put(g, run.speed / 1e3 + ' kbit/s', 0, 75, G, 'soft');
};
const drawSignal = (g, {s, y, high, lo, hi}) => {
\tconst Y = v => y + high - 6 - (v - lo) / (hi - lo || 1) * (high - 20), last = slotAt(t1 - 1);
\tlet k = bisect(s.at.length, k => s.at[k] >= slotAt(t0)), v = s.val[k - 1] ?? s.init, l = G, min = 1e9, max = -1;
\tconst near = q => { if (q >= 0 && !(s.texts && named(s, q))) { if (q < min) min = q; if (q > max) max = q; } };
\tfor (let more = 1; more; k++) {
\t\tmore = s.at[k] <= last;
\t\tconst to = more ? x(T[s.at[k] + 1] ?? END) : W, w = to - l;
\t\tif (w > 1 || !more) {
\t\t\tif (min < max) box(g, 'plot', l - .8, Y(max), 1.6, Y(min) - Y(max));
\t\t\tif (named(s, v)) { box(g, 'soon', l, y + 13, w - 1, high - 18); put(g, shown(s, v), l + 4, y + high / 2 + 4, w - 6, 'text'); }
\t\t\telse { box(g, 'plot', l, Y(v) - .8, w + .8, 1.6); put(g, shown(s, v), l + 4, Y(v) - 7, w - 6, 'soft', '11px', 1); }
\t\t\tl = to;
\t\t\tmin = 1e9;
\t\t\tmax = -1;
\t\t}
\t\tnear(v);
\t\tnear(v = s.val[k]);
\t}
};
const drawHost = (g, {all, y}) => {
\tfor (const m of all) {
\t\tconst a = Math.max(G, x(slots[m.i]?.t ?? END)), b = Math.min(W, x(slots[m.end + 1]?.t ?? END)), yy = y + 4 + m.row * 18, c = m.fate === 'sent' ? 'msg' : m.fate === 'waits' ? 'waits' : 'lost';
\t\tif (b < G || a > W) continue;
\t\tbox(g, 'soon', a, yy, Math.max(2, b - a), 15);
\t\tfor (const s of m.frames) if (s.t + s.d > t0 && s.t < t1) box(g, c, Math.max(G, x(s.t)), yy + 11, x(s.t + s.d) - x(s.t) - 1, 4);
\t\tbox(g, c, a, yy, 2, 15);
\t\tif (c !== 'msg') box(g, c, b - 3, yy, 3, 15);
\t\tput(g, `${m.n} to ${nodes[m.to]?.name || 'all'}: ${bytes(m.hex)}  ${m.fate}`, a + 6, yy + 6, Math.min(W, x(slots[m.next?.i]?.t ?? END)) - a - 12, c === 'msg' ? 'text' : c);
\t}
};
const drawLanes = () => {
\tconst top = $('lanes').scrollTop, high = Math.min(lanes.high, paper ? 9e3 : innerHeight * .42 | 0), g = fit($('plot'), high);
\t$('tall').style.height = lanes.high - high + 'px';
\tticks(g, high);
\tfor (const l of lanes) {
\t\tconst y = l.y - top;
\t\tif (y > high || y + l.high < 0) continue;
\t\t(l.s ? drawSignal : drawHost)(g, {...l, y});
\t\tg.clearRect(0, y, G - 1, l.high);
\t\tbox(g, 'line', 0, y + l.high - 1, W, 1);
\t\tput(g, l.s ? l.s.name : nodes[l.host].name, 0, y + 12, G - 8, 'text', BOLD);
\t\tput(g, l.s ? shown(l.s, heard(l.s, sel < 0 ? slotAt(t1 - 1) : sel)) : 'messages: ' + l.all.length, 0, y + 27, G - 8, l.s ? 'plot' : 'soft');
\t}
\tcursors(g, x, 0, high);
};
const pickLanes = () => {
\tconst all = terms(), some = signals.filter(s => all.some(q => q.name && low(s.name).includes(q.name))), rest = signals.filter(s => !s.at.length);
\tconst add = (high, l) => { lanes.push({...l, high, y: lanes.high}); lanes.high += high; };
\tlanes = [];
\tlanes.high = 0;
\tif (!some.length) nodes.forEach((q, host) => {
\t\tconst all = msgs.filter(m => m.host == host), ends = [];
\t\tfor (const m of all) {
\t\t\tm.row = Math.max(0, [0, 1, 2].findIndex(r => !ends[r] || (ends[r].end ?? N) < m.i));
\t\t\tif (ends[m.row]) ends[m.row].next = m;
\t\t\tends[m.row] = m;
\t\t}
\t\tif (all.length) add(20 + ends.length * 18, {host, all});
\t});
\tfor (const s of some.length ? some : signals) if (s.at.length || some.length) {
\t\tconst v = [s.init, ...s.val].filter(v => !named(s, v));
\t\ts.texts = s.maps.some(m => m.text);
\t\tadd(v.length ? 44 : 36, {s, lo: v.reduce((a, b) => Math.min(a, b), 1e9), hi: v.reduce((a, b) => Math.max(a, b), 0)});
\t}
\t$('rest').textContent = rest.length ? 'Constant: ' + rest.map(s => `${s.name} ${shown(s, s.init)}`).join(', ') : '';
};
// lists
const cut = all => all.map(([s, bad, always], k) => k < 8 || always ? h`<div class=\"${bad ? 'c e' : 'c'}\" title=\"${s}\">${short(s)}</div>` : '').concat(all.length > 8 ? h`<div class=\"l\">${all.length} in all</div>` : '');
const steps = s => cut(s.steps.map(q => [did(q), q.why]));
const slotBox = s => {
\tconst [head, tail] = times(s);
\treturn h`<div class=\"s${s.i === sel ? ' on' : ''}\"><div class=\"a\">${steps(s)}</div><div class=\"b ${KINDS[s.kind]}\" data-i=\"${s.i}\" title=\"${brief(about(s))}\"><div class=\"w\"><small>#${s.i}</small><b>${s.name}</b> <span class=\"k\">${s.id}</span></div><div class=\"m\">${look(s)}</div><div class=\"p\"><i class=\"h\" style=\"flex:${head}\"></i><i class=\"d\" style=\"flex:${tail}\"></i><i style=\"flex:${Math.max(0, s.d - head - tail)}\"></i></div></div><div>${cut([...news(s).map(q => [q]), ...s.told.map(q => [say(q), /^> lost/.test(q), /^> lost/.test(q)])])}</div></div>`;
};
const showRows = () => {
\tlet out = '', left = most, b = slotAt(t1 - 1), k = bisect(rows.length, k => rows[k].b > slotAt(t0));
\tfor (; rows[k]?.a <= b; k++) {
\t\tconst r = rows[k], s = slots[r.a], before = slots[r.a - 1], cause = before?.kind > 2 && run.group[before.name]?.table === s.table.name;
\t\tconst some = slots.slice(r.a, r.n > 1 ? Math.min(r.b, r.a + 200) : r.b).filter(s => !mask || mask[s.i]);
\t\tif (!some.length) continue;
\t\tif (!left--) { out += '<button data-k=\"more\">more</button>'; break; }
\t\tout += r.n > 1 && !mask && !r.open ? h`<p class=\"f\">${r.n} rounds of ${s.table.name} without news, #${r.a} to #${r.b - 1}, from ${ms(s.t)} <button data-r=\"${k}\">unfold</button></p>`
\t\t\t: h`<div class=\"r${cause ? ' x' : ''}\"><div class=\"t\"><b>${s.table.name}</b><br><small> ${ms(s.t)}${cause ? ' resolves ' + before.name : ''}</small></div><div class=\"g\">${some.map(slotBox)}</div></div>`;
\t}
\tif (t1 === END && run.rest.steps[0]) out += h`<div class=\"f\">at the end${steps(run.rest)}</div>`;
\t$('rows').innerHTML = `<h2>${mask ? 'Slots that the filter takes' : 'Slots of the window'}</h2>` + out;
};
const dot = w => `<i style=\"background:var(--${w})\"></i>`;
// Problems are one group if they differ only in the slot and in a value, the bytes or the number of a message, or in what an
// expectation found.
const alike = ({kind, why, line = ''}) => {
\tconst f = line.split(' ');
\treturn [kind, ...kind === 'unmet' ? /^script \\d+|^.*?:\\d+:|^.*/.exec(why) : /lost|waits/.test(kind) ? [f[2], f[4]] : [why, ...f.slice(0, Math.max(2, f.length - 1))]].join(' ');
};
const pickProbs = () => {
\tconst all = new Map();
\tfor (const q of probs) if (!mask || mask[q.i]) {
\t\tconst k = q.alike ||= alike(q), same = all.get(k);
\t\tif (same) { same.push(q); same.differ ||= q.why !== same[0].why || q.line !== same[0].line; } else all.set(k, [q]);
\t}
\tgroups = [...all.values()];
};
const problem = q => h`${LABEL[q.kind] || q.kind}: ${/lost|waits/.test(q.kind) ? say(q.line).slice(5) + ' ' + q.why : did(q)}`;
const showProb = q => h`<li class=\"${q.i === sel ? 'on' : ''}\"><button data-i=\"${q.i}\">${[dot(q.kind)]}${q.i < 0 ? '' : `#${q.i} `}${problem(q)}</button>`[0];
const showGroup = (all, k) => {
\tconst [q] = all;
\treturn all.length < 2 ? showProb(q) : h`<li class=\"${!all.open && all.some(q => q.i === sel) ? 'on' : ''}\"><button data-i=\"${q.i}\" data-g=\"${k}\" aria-expanded=\"${!!all.open}\">${[dot(q.kind)]}<b>${all.length} ×</b> ${problem(q)}${all.differ ? ' …' : ''}</button>`
\t\t+ (all.open ? '<ol>' + all.slice(0, 300).map(showProb).join('') + '</ol>' : '');
};
const showProbs = () => {
\tconst all = groups.reduce((n, q) => n + q.length, 0), cut = groups.length > 300 || groups.some(q => q.open && q.length > 300);
\t$('probs').innerHTML = `<h2>Problems: ${all}</h2><ol>` + groups.slice(0, 300).map(showGroup).join('') + '</ol>' + (cut ? '<p class=\"l\">the others by n and p' : '');
};
// (a frame that isn't shown has no width)
const paint = () => { if (W > G) { drawOver(); drawBus(); drawLanes(); } };
const draw = now => {
\tframe ||= requestAnimationFrame(() => { frame = 0; paint(); });
\tclearTimeout(timer);
\ttimer = setTimeout(showRows, now ? 0 : 150);
};
// moving
const view = (a, b) => {
\tconst d = Math.min(END, Math.max(b - a, 2e3));
\tt0 = Math.max(0, Math.min(END - d, a));
\tt1 = t0 + d;
\tmost = 40;
\tdraw();
};
const zoom = (k, t) => view(t - (t - t0) * k, t + (t1 - t) * k);
const go = i => {
\tconst s = slots[i];
\tif (!s) return;
\tsel = i;
\tif (N > 60 && (t1 - t0) / s.d > 60) view(s.t - 6 * s.d, s.t + 7 * s.d);
\telse if (s.t < t0 || s.t + s.d > t1) view(s.t - (t1 - t0) / 2, s.t + (t1 - t0) / 2);
\tshowLine();
\ttry { history.replaceState(0, '', '#' + i); } catch { /* a frame has no address of its own */ }
\tshowProbs();
\tdraw(1);
};
const showLine = () => {
\tif (sel < 0) return;
\tconst [place, ...rest] = about(slots[sel]);
\t$('line').textContent = brief([place, ...away(sel), ...rest], ' · ');
};
const measure = i => { mark = i === mark ? -1 : i; showLine(); draw(); };
// The terms of the filter: SIGNAL = VALUE up to a comma, a time, #SLOT, \"TEXT\" or a word. Each has `ok`, whether it takes a
// slot, and either a text of names or, of a time or #SLOT, the slot.
const TERM = /([^\\s,=<>\"]+)\\s*([=<>])\\s*([^,]*)|([\\d.]+)\\s*(s|ms|us)(?![^\\s,])|#(\\d+)|\"([^\"]*)\"?|[^\\s,]+/g, low = s => s.toLowerCase();
const holds = (g, v, op, to) => {
\tconst m = map(g, v), n = m && !m.text ? v * m.k + m.o : v;
\treturn !to || (op === '=' ? low(shown(g, v)) === to || Math.abs(n - to) <= 1e-9 * Math.abs(n) : op === '<' ? n < parseFloat(to) : n > parseFloat(to));
};
const terms = () => [...low($('find').value).matchAll(TERM)].map(([word, name, op, to, time, unit, slot, text = word]) => {
\tif (op) {
\t\tconst same = signals.filter(g => low(g.name) === name), some = same[0] ? same : signals.filter(g => low(g.name).includes(name));
\t\tconst known = new Map(some.map(g => [g, {}])), is = (g, v) => known.get(g)[v] ??= holds(g, v, op, to.trim());
\t\treturn {name, ok: s => s.good && s.frame?.places.some(([g]) => known.has(g) && is(g, heard(g, s.i)))};
\t}
\tconst t = time * {s: 1e6, ms: 1e3, us: 1}[unit], at = slot ? +slot : time ? t < END ? slotAt(t) : -1 : undefined;
\treturn at === undefined ? {name: text, ok: s => key(s).includes(text)} : {at, ok: s => s.i === at};
});
const frameKey = f => f.key ||= [f.name, f.node, ...f.places.map(q => q[0].name)].join(' ');
const key = s => s.key ||= [s.table.name, s.line.name, s.id, s.pid, ...s.tags, ...s.tags.map(q => LABEL[q] || ''), ...s.puts.map(q => nodes[q[0]].name + ' ' + q[1]), s.frame ? frameKey(s.frame) : '',
\t...s.steps.map(did), ...s.told.map(say)].join(' ').toLowerCase();
const filter = () => {
\tconst all = terms();
\tmask = all.length ? Uint8Array.from(slots, s => all.every(q => q.ok(s))) : 0;
\t$('found').textContent = mask ? count(mask.reduce((a, b) => a + b, 0), 'slot') : '';
\tfor (const b of $('kinds').children) b.className = all.some(q => q.name === b.dataset.w) ? 'on' : '';
\tstrip = 0;
\tcolour(); pickLanes(); pickProbs(); showProbs(); draw(1);
};
const next = (d, ok) => { for (let i = (sel < 0 ? slotAt(t0) - 1 : sel) + d; slots[i]; i += d) if ((!mask || mask[i]) && ok(slots[i])) return go(i); };
const bad = s => s.tags.some(q => !/silent|none|good|coll|asleep/.test(q));
const keys = $('line').innerHTML;
const act = k => {
\tconst t = slots[sel]?.t, mid = t >= t0 && t <= t1 ? t : (t0 + t1) / 2, d = (t1 - t0) / 4;
\t({'+': () => zoom(.5, mid), '-': () => zoom(2, mid), 0: () => view(0, END), ArrowRight: () => next(1, s => s), ArrowLeft: () => next(-1, s => s),
\t\tRight: () => view(t0 + d, t1 + d), Left: () => view(t0 - d, t1 - d), PageDown: () => view(t1, 2 * t1 - t0), PageUp: () => view(2 * t0 - t1, t0),
\t\tHome: () => go(0), End: () => go(N - 1), n: () => next(1, bad), p: () => next(-1, bad), m: () => sel < 0 || measure(sel),
\t\t'?': () => { $('line').innerHTML = keys; }, '/': () => $('find').focus(), Escape: () => { $('find').value = ''; filter(); $('time').focus(); }, more: () => { most += 80; showRows(); }}[k] || (() => 0))();
};
onkeydown = e => {
\tif (e.ctrlKey || e.metaKey || e.altKey) return;
\tif (e.target.id === 'find') {
\t\tconst at = terms().find(q => q.at >= 0)?.at;
\t\tif (e.key === 'Enter') if (at >= 0) go(at); else act(e.shiftKey ? 'ArrowLeft' : 'ArrowRight');
\t\tif (e.key !== 'Escape') return;
\t}
\tif (/^(ArrowL|ArrowR|Home|End|\\/)/.test(e.key) || /^Page/.test(e.key) && t1 - t0 < END) e.preventDefault();
\tact(e.shiftKey ? e.key.replace('Arrow', '') : e.key);
};
onclick = e => {
\tconst {i, k, r, w, g} = e.target.closest('[data-i],[data-k],[data-r],[data-w]')?.dataset || {};
\tif (g) { groups[g].open ^= 1; showProbs(); }
\tif (i) go(+i);
\tif (k) act(k);
\tif (r) { rows[r].open = 1; showRows(); }
\tif (w) {
\t\tconst all = $('find').value.split(' ').filter(q => q);
\t\t$('find').value = [...all.includes(w) ? [] : [w], ...all.filter(q => !Object.hasOwn(tags, q))].join(' ');
\t\tfilter();
\t}
};
$('find').oninput = filter;
$('lanes').onscroll = () => drawLanes();
const fingers = new Map();
for (const c of [$('over'), $('bus'), $('plot')]) {
\tconst whole = c.id === 'over', X = e => e.clientX - c.getBoundingClientRect().left, time = x => whole ? (x - G) / (W - G) * END : t0 + (x - G) / (W - G) * (t1 - t0);
\tc.onpointerdown = e => { drag = {x: X(e), t0, t1}; fingers.set(e.pointerId, X(e)); c.setPointerCapture(e.pointerId); };
\tc.onpointermove = e => {
\t\tconst at = X(e), tip = $('tip'), on = at > G && e.pointerType === 'mouse' && !e.buttons ? 'block' : '';
\t\t$('hair').style.cssText = `left:${at}px;display:${on}`;
\t\ttip.style.cssText = `display:${on};left:${Math.min(e.clientX + 14, innerWidth - 350)}px;top:${Math.min(e.clientY + 16, innerHeight - 160)}px`;
\t\tif (on && N) tip.textContent = brief(about(slots[slotAt(time(at))]));
\t\tif (!fingers.has(e.pointerId)) return;
\t\tconst [a, b] = fingers.values(), s = (drag.t1 - drag.t0) / (W - G) * (at - drag.x);
\t\tfingers.set(e.pointerId, at);
\t\tconst [p, q] = fingers.values();
\t\tdrag.far ||= Math.abs(at - drag.x) > 4;
\t\tif (q) zoom(Math.abs(a - b) / Math.abs(p - q) || 1, time((p + q) / 2));
\t\telse if (drag.far && whole) view(Math.min(time(drag.x), time(at)), Math.max(time(drag.x), time(at)));
\t\telse if (drag.far) view(drag.t0 - s, drag.t1 - s);
\t};
\tc.onpointerup = c.onpointercancel = e => {
\t\tconst t = time(X(e)), d = (t1 - t0) / 2;
\t\tfingers.delete(e.pointerId);
\t\tif (!drag.far && e.type === 'pointerup' && X(e) > G) if (whole) view(t - d, t + d); else (e.shiftKey ? measure : go)(slotAt(t));
\t};
\tc.onpointerleave = () => { $('hair').style.display = $('tip').style.display = ''; };
\tc.addEventListener('wheel', e => {
\t\tconst side = e.shiftKey || Math.abs(e.deltaX) > Math.abs(e.deltaY), d = (e.deltaX || e.deltaY) * (t1 - t0) / (W - G);
\t\tif (c.id === 'plot' && !e.ctrlKey && !side) return;
\t\te.preventDefault();
\t\tif (side) view(t0 + d, t1 + d); else zoom(1.0015 ** e.deltaY, time(X(e)));
\t}, {passive: false});
}
const layout = () => {
\tconst style = getComputedStyle(document.documentElement);
\tC = new Proxy({}, {get: (o, k) => o[k] ||= style.getPropertyValue('--' + k)});
\tW = paper ? 1040 : $('lanes').clientWidth;
\tG = W < 600 ? 84 : 124;
\tstrip = 0;
\tpaint(); showRows();
};
const print = on => () => {
\tpaper = on;
\tdocument.documentElement.className = on ? 'paper' : '';
\t$('shown').textContent = [`${ms(t0)} to ${ms(t1)}`, ...mask ? ['filter: ' + $('find').value] : [], ''].join(' · ');
\tlayout();
};
onresize = matchMedia('(prefers-color-scheme:dark)').onchange = layout;
onbeforeprint = print(1);
onafterprint = print(0);
const tags = {damaged: 0, lost: 0};
for (const s of [...slots, run.rest]) for (const q of s.tags) tags[q] = (tags[q] || 0) + 1;
$('kinds').innerHTML = [...KINDS, 'lost', 'refused', 'unmet', 'waits', 'asleep'].map(w => w in tags ? `<button data-w=\"${w}\">${dot(w)}${LABEL[w] || w} ${tags[w]}</button>` : '').join(' ');
$('name').textContent = run.file;
document.title = run.file + ', LIN run';
$('sum').textContent = `${N} slots · ${ms(run.end)} · ${run.speed / 1e3} kbit/s · ${nodes.length} nodes · ${msgs.length} messages`;
$('ask').remove();
$('page').hidden = false;
colour(); pickLanes(); pickProbs(); layout(); showProbs();
onmessage = e => { if (e.source === parent) go(+e.data); };
if (wanted !== '') go(+wanted);
</script>
</body></html>
";
