//! A page of HTML round a picture: it has all that it needs, and takes nothing from elsewhere.
ghost use Rattle.std.specs.Prelude.{◌≡◌, IfErr, IfOk, string_bytes, true};
ghost use Rattle.route_picture.specs.Page.{printed_as};
ghost use Rattle.route_picture.specs.declared.stop.Stop.TheVariants.{Memory};

use crate::stop::Stop;
use std::alloc::{AllocError, Global};

/// What is printed of a picture: itself, or a page round it.
pub(crate) fn printed(alloc: Global, page: bool, picture: String) -> Result<String, Stop>
    ensures text { IfOk result
        (λ text. string_bytes text ≡ printed_as page (string_bytes picture)) }
    ensures stop { IfErr result (λ stop. stop ≡ Memory) }
{
    if !page {
        return Ok(picture);
    }
    let Ok(text) = page_of(alloc, picture.as_str()) else {
        return Err(Stop::Memory);
    };
    Ok(text)
}

fn page_of(alloc: Global, picture: &str) -> Result<String, AllocError>
    ensures { IfOk result (λ text. string_bytes text ≡ printed_as true picture.now) }
{
    let mut out = String::new(alloc);
    out.push_str(HEAD)?;
    out.push_str(picture)?;
    out.push_str(TAIL)?;
    Ok(out)
}

/// What stands before the picture.
pub(crate) const HEAD: &str = "<!DOCTYPE html>
<html lang='en'><head><meta charset='utf-8'><title>A routing, by Gafkelam</title>
<meta http-equiv='Content-Security-Policy' content='default-src &apos;none&apos;;
style-src &apos;unsafe-inline&apos;; script-src &apos;unsafe-inline&apos;'>
<style>
html,body{height:100%;margin:0;font:15px sans-serif;color:#222}
body{display:flex;flex-direction:column}
header{display:flex;flex-wrap:wrap;gap:8px;align-items:center;padding:8px;background:#eef1f5}
button,input{font:inherit;padding:4px 10px}
#view{flex:1;min-height:0;overflow:hidden;touch-action:none;cursor:grab}
#view svg{display:block;width:100%;height:100%}
#tip{position:fixed;display:none;padding:3px 8px;background:#222;color:#fff;pointer-events:none}
#tip{border-radius:4px;max-width:60vw;overflow-wrap:anywhere;z-index:1}
.seek .n,.seek .g,.seek .l,.seek .i,.seek .o{opacity:.1}
.seek .hit{opacity:1}
svg .hit.n path{stroke-width:60}
svg .hit:not(.n):not(.g)>path{stroke:#d000d0;stroke-width:60}
#shades{display:none}
.shade #shades{display:inline}
.shade .n,.shade .g{opacity:.12}
.shade .hit{opacity:1}
</style></head><body>
<header>
<button id='in' title='Nearer'>+</button><button id='out' title='Farther'>&minus;</button>
<button id='all'>Whole picture</button>
<label>Net or block <input id='find' type='search' placeholder='a part of its name'></label>
<span id='found'></span>
<label><input id='shade' type='checkbox'> Shades by use of cells</label>
</header>
<div id='view'>
";

/// What stands behind it: how it is enlarged, searched and shaded, by the text of the picture
/// alone.
pub(crate) const TAIL: &str = "</div><div id='tip'></div>
<script>
'use strict';
const at = id => document.getElementById(id), view = at('view'), tip = at('tip');
const svg = view.querySelector('svg'), frame = svg.querySelector('g[transform]');
const box = svg.getAttribute('viewBox').split(' ').map(Number);
let now = box.slice();
const show = () => svg.setAttribute('viewBox', now.join(' '));
const point = (x, y) => new DOMPoint(x, y).matrixTransform(svg.getScreenCTM().inverse());
function zoom(factor, p) {
  if (now[2] * factor > 4 * box[2] || now[2] * factor < 200) return;
  now = [p.x + (now[0] - p.x) * factor, p.y + (now[1] - p.y) * factor,
    now[2] * factor, now[3] * factor];
  show();
}
function middle() {
  const r = view.getBoundingClientRect();
  return point(r.left + r.width / 2, r.top + r.height / 2);
}
at('in').onclick = () => zoom(0.7, middle());
at('out').onclick = () => zoom(1 / 0.7, middle());
at('all').onclick = () => { now = box.slice(); show(); };
view.addEventListener('wheel', e => {
  e.preventDefault();
  const lines = e.deltaMode === 1 ? 30 : 1;
  zoom(Math.exp(e.deltaY * lines / 600), point(e.clientX, e.clientY));
}, { passive: false });
let held = null;
const title = part => {
  const first = part.firstElementChild;
  return first && first.tagName === 'title' ? first.textContent : '';
};
view.addEventListener('pointerdown', e => {
  if (e.button !== 0) return;
  held = point(e.clientX, e.clientY);
  view.setPointerCapture(e.pointerId);
});
view.addEventListener('pointerup', () => { held = null; });
view.addEventListener('pointermove', e => {
  if (held) {
    const p = point(e.clientX, e.clientY);
    now[0] += held.x - p.x;
    now[1] += held.y - p.y;
    return show();
  }
  let part = e.target;
  while (view.contains(part) && !title(part)) part = part.parentElement;
  const is_named = view.contains(part);
  tip.style.display = is_named ? 'block' : 'none';
  if (!is_named) return;
  tip.textContent = title(part);
  tip.style.left = Math.min(e.clientX + 14, innerWidth - tip.offsetWidth - 8) + 'px';
  tip.style.top = Math.min(e.clientY + 14, innerHeight - tip.offsetHeight - 8) + 'px';
});
view.addEventListener('pointerleave', () => { tip.style.display = 'none'; });
const named = Array.from(frame.children).filter(g => g.tagName === 'g' && title(g))
  .map(g => ({ g: g, name: title(g) }));
let hits = [], turn = 0;
function search() {
  const word = at('find').value.toLowerCase();
  hits = word ? named.filter(part => part.name.toLowerCase().includes(word)) : [];
  hits.sort((a, b) => a.name.length - b.name.length);
  turn = 0;
  named.forEach(part => part.g.classList.remove('hit'));
  hits.forEach(part => part.g.classList.add('hit'));
  svg.classList.toggle('seek', word !== '');
  const ways = hits.length ? ', Enter goes to each' : '';
  at('found').textContent = word ? hits.length + ' found' + ways : '';
}
function visit() {
  if (!hits.length) return;
  const part = hits[turn % hits.length], r = part.g.getBoundingClientRect();
  turn += 1;
  const a = point(r.left, r.top), b = point(r.right, r.bottom);
  const side = 1.3 * Math.max(b.x - a.x, b.y - a.y, 2000);
  now = [(a.x + b.x - side) / 2, (a.y + b.y - side) / 2, side, side];
  show();
  const number = (turn - 1) % hits.length + 1;
  at('found').textContent = number + ' of ' + hits.length + ': ' + part.name;
}
at('find').oninput = search;
at('find').onkeydown = e => { if (e.key === 'Enter') visit(); };
function shades() {
  const uses = new Map(), place = text => Math.floor(text / 1000);
  for (const wires of svg.querySelectorAll('.n > path:first-of-type')) {
    for (const w of wires.getAttribute('d').matchAll(/M([0-9]+) ([0-9]+)([hv])480/g)) {
      const kind = w[3] === 'h' ? 'CHANX' : 'CHANY';
      const cell = kind + ' (' + place(w[1]) + ',' + place(w[2]) + ')';
      uses.set(cell, (uses.get(cell) || 0) + 1);
    }
  }
  const width = Number(/tracks in each channel: ([0-9]+)/.exec(svg.textContent)[1]);
  const make = name => document.createElementNS(svg.namespaceURI, name), all = make('g');
  all.id = 'shades';
  for (const [cell, used] of uses) {
    const [, kind, x, y] = /(CHAN.) .([0-9]+),([0-9]+)/.exec(cell);
    const path = make('path'), name = make('title');
    path.setAttribute('d', kind === 'CHANX'
      ? 'M' + x * 1000 + ' ' + (y * 1000 + 480) + 'h480v520h-480z'
      : 'M' + (x * 1000 + 480) + ' ' + y * 1000 + 'h520v480h-520z');
    const light = 92 - 62 * used / width;
    path.setAttribute('fill', used > width ? '#d00000' : 'hsl(215,85%,' + light + '%)');
    name.textContent = cell + ': wires ' + used + ', tracks ' + width;
    path.append(name);
    all.append(path);
  }
  frame.insertBefore(all, frame.querySelector('g'));
}
at('shade').onchange = e => {
  if (!at('shades')) shades();
  svg.classList.toggle('shade', e.target.checked);
};
</script></body></html>
";
