//! A page that plays a run, in HTML: its picture, the lines of its turns, and what steps through them. It asks for nothing from outside.
ghost use Rattle.std.specs.Prelude.{IfErr};
ghost use Rattle.lwkt_show.specs.Shown.{MayBeRefused};

use crate::marked::show_marked;
use crate::options::Options;
use crate::pictures::{drawn, sketch_of};
use crate::reels::Reel;
use crate::replays::Replay;
use crate::sketches::TurnBox;
use lwkt_base::{Fault, OutOfMemory};
use lwkt_refusals::Page;
use lwkt_text::Names;
use std::alloc::Global;

// What stands before the picture: the page's look, and the buttons.
const BEFORE: &str = "<!DOCTYPE html>
<html lang=\"en\">
<head>
<meta charset=\"utf-8\">
<meta name=\"viewport\" content=\"width=device-width\">
<title>a run of a script, turn by turn</title>
<style>
body{margin:0 auto;max-width:1280px;font:16px sans-serif;color:#000;background:#fff}
#bar{display:flex;flex-wrap:wrap;gap:8px;align-items:center;margin:8px 0}
#bar input{flex:1;min-width:120px}
button,select{font:inherit;min-width:44px;min-height:36px}
#picture{max-height:65vh;overflow:auto}
#picture svg{display:block}
#picture g[data-turn]{cursor:pointer}
#line{font-family:monospace;min-height:3em;margin:8px 0;overflow-wrap:anywhere}
#turns{font-family:monospace;max-height:25vh;overflow:auto;margin:0;padding-left:5em}
#turns li{cursor:pointer;overflow-wrap:anywhere}
#turns .now{background:#dbe9f6}
.chosen{fill:none;stroke:#0072b2;stroke-width:3}
.veil{fill:#fff;opacity:.75;pointer-events:none}
</style>
</head>
<body>
<p id=\"bar\">
<button id=\"first\" title=\"first turn\">|&lt;</button>
<button id=\"back\" title=\"a turn back\">&lt;</button>
<button id=\"play\">Play</button>
<button id=\"forth\" title=\"a turn forth\">&gt;</button>
<button id=\"last\" title=\"last turn\">&gt;|</button>
<input id=\"turn\" type=\"range\" aria-label=\"turn\">
<label>turns a second <select id=\"speed\"><option>1<option selected>2<option>4<option>8<option>16</select></label>
</p>
<div id=\"picture\">
";

// What stands between the picture and the lines of turns.
const BETWEEN: &str = "</div>
<p id=\"line\" aria-live=\"polite\"></p>
<ol id=\"turns\">
";

// What stands behind the lines: how the page plays.
const BEHIND: &str = "</ol>
<script>
'use strict';
(() => {
  const at = (id) => document.getElementById(id);
  const svg = document.querySelector('#picture svg');
  const boxes = [...svg.querySelectorAll('g[data-turn]')];
  const bands = [...svg.querySelectorAll('rect.band')];
  const lines = [...at('turns').children];
  const number = (element, name) => Number(element.getAttribute(name));
  const turnOf = (element) => Number(element.dataset.turn ?? element.value);
  let chosen = 0;
  let timer = 0;

  const shape = (name, box) => {
    const it = document.createElementNS('http://www.w3.org/2000/svg', 'rect');
    it.setAttribute('class', name);
    for (const key of Object.keys(box)) it.setAttribute(key, Math.max(0, box[key]));
    svg.append(it);
  };

  // The box of a turn: its own, or that of rounds which share a column.
  const boxOf = (turn) => {
    const has = (box) => turn >= turnOf(box) && turn <= Number(box.dataset.until ?? box.dataset.turn);
    const found = boxes.filter(has);
    const every = Number(found[0]?.dataset.every ?? 1);
    return found.find((box) => (turn - turnOf(box)) % every === 0) ?? found[0];
  };

  // What comes behind the turn is pale.
  const veil = (box) => {
    const own = bands.findIndex((band) => number(box, 'y') >= number(band, 'y') && number(box, 'y') < number(band, 'y') + number(band, 'height'));
    bands.forEach((band, place) => {
      const left = number(band, 'x');
      const right = left + number(band, 'width');
      const from = place < own ? right : place > own ? left : number(box, 'x') + number(box, 'width') + 2;
      shape('veil', { x: from, y: number(band, 'y'), width: right - from, height: number(band, 'height') });
    });
  };

  const choose = (place) => {
    if (!lines.length) return;
    chosen = Math.max(0, Math.min(lines.length - 1, place));
    svg.querySelectorAll('.chosen,.veil').forEach((old) => old.remove());
    const box = boxOf(turnOf(lines[chosen]))?.querySelector('rect');
    if (box) {
      veil(box);
      shape('chosen', { x: number(box, 'x') - 3, y: number(box, 'y') - 3, width: number(box, 'width') + 6, height: number(box, 'height') + 6 });
      const area = at('picture');
      area.scrollTo(number(box, 'x') - area.clientWidth / 2, number(box, 'y') - area.clientHeight / 2);
    }
    lines.forEach((line, i) => line.classList.toggle('now', i === chosen));
    const list = at('turns');
    list.scrollTop = lines[chosen].offsetTop - list.offsetTop - list.clientHeight / 2;
    at('line').textContent = lines[chosen].textContent;
    at('turn').value = chosen;
  };

  const play = (is) => {
    clearTimeout(timer);
    timer = is ? setTimeout(() => { choose(chosen + 1); play(chosen < lines.length - 1); }, 1000 / Number(at('speed').value)) : 0;
    at('play').textContent = is ? 'Pause' : 'Play';
  };

  const go = (place) => { play(false); choose(place); };
  const toggle = () => {
    if (timer) return play(false);
    if (chosen === lines.length - 1) choose(0);
    play(true);
  };

  at('turn').max = Math.max(0, lines.length - 1);
  at('turn').addEventListener('input', () => go(Number(at('turn').value)));
  at('first').addEventListener('click', () => go(0));
  at('back').addEventListener('click', () => go(chosen - 1));
  at('play').addEventListener('click', toggle);
  at('forth').addEventListener('click', () => go(chosen + 1));
  at('last').addEventListener('click', () => go(lines.length - 1));
  lines.forEach((line, place) => line.addEventListener('click', () => go(place)));
  for (const box of boxes) box.addEventListener('click', () => go(lines.findIndex((line) => turnOf(line) === turnOf(box))));
  document.addEventListener('keydown', (event) => {
    if (event.target.matches('button,select,input')) return;
    if (event.key === 'ArrowRight') go(chosen + 1);
    else if (event.key === 'ArrowLeft') go(chosen - 1);
    else if (event.key === ' ') toggle();
    else return;
    event.preventDefault();
  });
  choose(0);
})();
</script>
</body>
</html>
";

// Appends the line of a turn, with its number.
fn show_line(out: &mut Page, turn: &TurnBox) {
    out.size("<li value=\"", turn.turn);
    out.add("\">");
    show_marked(out, turn.line.as_str().trim_end());
    out.add("</li>\n");
}

// Appends the lines of turns.
fn show_lines(out: &mut Page, boxes: &[TurnBox]) {
    for turn in boxes {
        show_line(out, turn);
    }
}

// The page of a run that is made again.
fn player(
    alloc: Global,
    names: Option<&Names>,
    run: &Reel,
    replay: &mut Replay,
    chosen: Options,
) -> Result<String, OutOfMemory> {
    let sketch = sketch_of(alloc, names, run, replay, chosen)?;
    let picture = drawn(alloc, names, run, replay, &sketch)?;
    let mut out = Page::new(alloc);
    out.add(BEFORE);
    out.add(picture.as_str());
    out.add(BETWEEN);
    show_lines(&mut out, &sketch.boxes);
    out.add(BEHIND);
    out.whole()
}

/// A page that plays a run, in HTML, in names if some are given: of the turns that are chosen, but of at most the first 2000 of them.
///
/// Refused with `Memory` if memory is refused, and with `Limits` or `LawBroken` as `State::open` is for the script's opening.
pub(crate) fn player_of(
    alloc: Global,
    names: Option<&Names>,
    run: &Reel,
    chosen: Options,
) -> Result<String, Fault>
    ensures refused { IfErr result (MayBeRefused run.now.script.now) }
{
    let mut replay = Replay::open(alloc, run.script, &run.closing.threads, true)?;
    Ok(player(alloc, names, run, &mut replay, chosen)?)
}
