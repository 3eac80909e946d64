//! The page, with its style and its script: written by `tools/page` from web/index.html.

/// The page.
pub const PAGE: &str = "<!doctype html>\n\
<html lang=\"en\">\n\
<head>\n\
<meta charset=\"utf-8\">\n\
<meta name=\"viewport\" content=\"width=device-width, initial-scale=1\">\n\
<title>Endgame tables</title>\n\
<style>\n\
:root { color-scheme: light dark; --light: #eedfc3; --dark: #b08a62; --on: #2a6fb8; --win: #1d7a3a; --loss: #b3261e; --draw: #6b6b6b; --line: #8884; }\n\
@media (prefers-color-scheme: dark) { :root { --light: #c9b48f; --dark: #7a5c3e; --on: #6cb0ff; --win: #6fd08c; --loss: #ff8a80; --draw: #b5b5b5; } }\n\
* { box-sizing: border-box; }\n\
body { font: 16px/1.45 system-ui, sans-serif; margin: 1rem auto; max-width: 62rem; padding: 0 1rem; }\n\
h1 { font-size: 1.1rem; margin: 0 0 .8rem; }\n\
svg { width: 100%; height: 100%; display: block; pointer-events: none; }\n\
.white { fill: #fff; stroke: #222; stroke-width: 1.4; stroke-linejoin: round; }\n\
.black { fill: #222; stroke: #eee; stroke-width: 1.1; stroke-linejoin: round; }\n\
button { font: inherit; padding: .25rem .7rem; }\n\
button[aria-pressed=true] { outline: 2px solid var(--on); }\n\
.win { color: var(--win); } .loss { color: var(--loss); } .draw { color: var(--draw); }\n\
main { display: flex; flex-wrap: wrap; gap: 1.5rem; align-items: flex-start; }\n\
section { flex: 1 1 20rem; min-width: 0; }\n\
#board { display: grid; grid-template: repeat(8, 1fr) / repeat(8, 1fr); max-width: 30rem; aspect-ratio: 1; border: 1px solid var(--line); }\n\
#board button { border: 0; padding: 0; margin: 0; background: var(--light); cursor: pointer; position: relative; min-width: 0; min-height: 0; overflow: hidden; border-radius: 0; }\n\
#board button.dark { background: var(--dark); }\n\
#board button:focus-visible, #box button:focus-visible { outline: 3px solid var(--on); outline-offset: -3px; z-index: 1; }\n\
#board button.held, #box button.held { box-shadow: inset 0 0 0 4px var(--on); }\n\
#board button.target::after { content: \"\"; position: absolute; inset: 38%; border-radius: 50%; background: var(--on); }\n\
#box { display: none; flex-wrap: wrap; max-width: 30rem; margin-top: .5rem; }\n\
#box.open { display: flex; }\n\
#box button { width: 2.6rem; height: 2.6rem; padding: 2px; }\n\
.row { display: flex; flex-wrap: wrap; gap: .5rem; margin: .7rem 0; align-items: center; max-width: 30rem; }\n\
input[type=text] { flex: 1 1 14rem; font: 14px monospace; padding: .35rem; min-width: 0; }\n\
#verdict { font-size: 1.25rem; min-height: 1.8rem; margin: 0 0 .2rem; font-weight: 600; }\n\
#detail { margin: 0 0 .8rem; min-height: 1.4rem; }\n\
table { border-collapse: collapse; width: 100%; }\n\
th, td { text-align: left; padding: .2rem .5rem; border-bottom: 1px solid var(--line); }\n\
td button { border: 0; background: none; padding: 0; cursor: pointer; text-decoration: underline; color: inherit; }\n\
</style>\n\
</head>\n\
<body>\n\
<h1>Endgame tables</h1>\n\
<main>\n\
<section aria-label=\"Board\">\n\
<div id=\"board\" role=\"group\" aria-label=\"Chess board; arrow keys move, Enter takes a man and puts it\"></div>\n\
<div id=\"box\" role=\"toolbar\" aria-label=\"Men to put on the board\"></div>\n\
<div class=\"row\">\n\
<button id=\"back\" type=\"button\">Back</button>\n\
<button id=\"forth\" type=\"button\">Forth</button>\n\
<button id=\"turn\" type=\"button\">Turn board</button>\n\
<button id=\"setup\" type=\"button\" aria-pressed=\"false\">Set up</button>\n\
<button id=\"clear\" type=\"button\">Clear</button>\n\
<label>to move <select id=\"side\"><option value=\"w\">White</option><option value=\"b\">Black</option></select></label>\n\
</div>\n\
<form class=\"row\" id=\"form\"><input type=\"text\" id=\"fen\" aria-label=\"Position in FEN\" spellcheck=\"false\" autocomplete=\"off\"><button>Show</button></form>\n\
</section>\n\
<section aria-label=\"Values\">\n\
<p id=\"verdict\" role=\"status\" aria-live=\"polite\"></p>\n\
<p id=\"detail\"></p>\n\
<table><thead><tr><th scope=\"col\">Move</th><th scope=\"col\">Value</th><th scope=\"col\">DTZ</th><th scope=\"col\"></th></tr></thead><tbody id=\"moves\"></tbody></table>\n\
</section>\n\
</main>\n\
<script>\n\
\"use strict\";\n\
const SHAPES = {\n\
  p: '<circle cx=\"20\" cy=\"13\" r=\"5.2\"/><path d=\"M12 34h16l-3.4-8.6c-1-2.9-.7-5 .7-6.6H14.700c1.400 1.600 1.700 3.700.7 6.600z\"/>',\n\
  r: '<path d=\"M10 34h20v-4h-3V18h3V9h-4.500v3.200H22V9h-4v3.200h-3.500V9H10v9h3v12h-3z\"/>',\n\
  n: '<path d=\"M12 34h18c.4-10-.6-20-11-23.500L17.400 7l-1.600 4.600c-3.800 2.200-6 7.600-8 11.800l3.400 4.200 6.200-3.800c-.8 4.200-4.400 5.200-5.400 10.200z\"/>',\n\
  b: '<circle cx=\"20\" cy=\"7.500\" r=\"2.300\"/><path d=\"M11 34h18v-3c-3-.8-4.300-1.800-4.400-3.200 4.600-4 5.400-9.300-4.600-17.800-10 8.500-9.200 13.800-4.600 17.800-.1 1.400-1.400 2.400-4.400 3.200z\"/>',\n\
  q: '<path d=\"M10 34h20l-1-5c2.400-5.600 4.200-10.800 5-16l-6 6-2.200-9.500L20 18l-5.800-8.500L12 19l-6-6c.8 5.200 2.600 10.400 5 16z\"/>',\n\
  k: '<path d=\"M18.500 4.500h3v2.800h2.800v3h-2.800v3.200c8.600-.4 11.300 6 6.800 13.500l.9 7H10.800l.9-7C7.200 19.500 9.900 13.100 18.500 13.500v-3.200h-2.800v-3h2.800z\"/>'\n\
};\n\
const NAMES = { p: \"pawn\", n: \"knight\", b: \"bishop\", r: \"rook\", q: \"queen\", k: \"king\" };\n\
const WORDS = { win: \"wins\", loss: \"loses\", draw: \"draw\", \"cursed-win\": \"wins, but for the fifty-move rule\", \"blessed-loss\": \"loses, but for the fifty-move rule\", \"maybe-win\": \"wins, perhaps too late\", \"maybe-loss\": \"loses, perhaps too late\", unknown: \"not in the tables\" };\n\
const KIND = c => /win$/.test(c) && c !== \"cursed-win\" ? \"win\" : /loss$/.test(c) && c !== \"blessed-loss\" ? \"loss\" : \"draw\";\n\
const by = id => document.getElementById(id);\n\
const cells = f => [...f.split(\" \")[0].replace(/\\d/g, n => \".\".repeat(n)).replace(/\\//g, \"\").replace(/[^pnbrqkPNBRQK.]/g, \".\")].concat(Array(64).fill(\".\")).slice(0, 64);\n\
const square = i => \"abcdefgh\"[i % 8] + (8 - (i >> 3));\n\
const drawn = man => man === \".\" ? \"\" : `<svg viewBox=\"0 0 40 40\" class=\"${man < \"a\" ? \"white\" : \"black\"}\" aria-hidden=\"true\">${SHAPES[man.toLowerCase()]}</svg>`;\n\
const named = man => man === \".\" ? \"empty\" : (man < \"a\" ? \"white \" : \"black \") + NAMES[man.toLowerCase()];\n\
const START = \"8/8/8/4k3/8/8/8/KQ6 w - - 0 1\";\n\
const FLIP = { win: \"loss\", loss: \"win\", \"cursed-win\": \"blessed-loss\", \"blessed-loss\": \"cursed-win\", \"maybe-win\": \"maybe-loss\", \"maybe-loss\": \"maybe-win\" };\n\
const linked = () => {\n\
  const text = location.hash.slice(1);\n\
  try { return decodeURIComponent(text).replace(/_/g, \" \"); } catch (e) { return text; }\n\
};\n\
let line = [linked() || START], at = 0, held = null, moves = [], turned = false, focus = 60;\n\
\n\
const fen = () => line[at];\n\
const placed = c => Array.from({ length: 8 }, (_, r) => c.slice(8 * r, 8 * r + 8).join(\"\").replace(/\\.+/g, e => e.length)).join(\"/\");\n\
const isSetup = () => by(\"setup\").getAttribute(\"aria-pressed\") === \"true\";\n\
\n\
function go(to) { line = line.slice(0, at + 1).concat(to); at++; show(); }\n\
function edit(change) { const c = cells(fen()); change(c); go(placed(c) + \" \" + (fen().split(\" \")[1] || \"w\") + \" - - 0 1\"); }\n\
\n\
function pick(i) {\n\
  focus = i;\n\
  const man = cells(fen())[i];\n\
  if (isSetup()) {\n\
    const had = held;\n\
    if (had) {\n\
      edit(c => { if (had.from !== undefined) c[had.from] = \".\"; c[i] = had.man; });\n\
      /* (a man of the box stays in the hand) */\n\
      held = had.from === undefined ? had : null;\n\
    } else if (man !== \".\") held = { man, from: i };\n\
    draw();\n\
    return;\n\
  }\n\
  if (held && held.from !== undefined) {\n\
    const wanted = moves.filter(m => m.uci.startsWith(square(held.from) + square(i)));\n\
    held = null;\n\
    if (wanted.length) { play(wanted.find(m => m.uci.endsWith(\"q\")) || wanted[0], wanted); return; }\n\
  }\n\
  held = moves.some(m => m.uci.startsWith(square(i))) ? { from: i } : null;\n\
  draw();\n\
}\n\
function play(move, all) {\n\
  let m = move;\n\
  if (all && all.length > 1) {\n\
    const letter = prompt(\"Promote to q, r, b or n\", \"q\");\n\
    if (letter === null) { draw(); return; }\n\
    m = all.find(x => x.uci[4] === letter.toLowerCase()) || move;\n\
  }\n\
  go(after(fen(), m));\n\
}\n\
function after(f, m) {\n\
  const w = f.split(\" \"), c = cells(f), place = s => \"abcdefgh\".indexOf(s[0]) + 8 * (8 - s[1]);\n\
  const a = place(m.uci), b = place(m.uci.slice(2)), man = c[a], white = man < \"a\", isPawn = man.toLowerCase() === \"p\";\n\
  if (isPawn && a % 8 !== b % 8 && c[b] === \".\") c[b + (white ? 8 : -8)] = \".\";\n\
  c[b] = m.uci[4] ? (white ? m.uci[4].toUpperCase() : m.uci[4]) : man;\n\
  c[a] = \".\";\n\
  if (man.toLowerCase() === \"k\" && Math.abs(a - b) === 2) { const rook = b > a ? b + 1 : b - 2; c[(a + b) / 2] = c[rook]; c[rook] = \".\"; }\n\
  const homes = { K: [60, \"K\", 63, \"R\"], Q: [60, \"K\", 56, \"R\"], k: [4, \"k\", 7, \"r\"], q: [4, \"k\", 0, \"r\"] };\n\
  const rights = [...(w[2] || \"-\")].filter(x => homes[x] && c[homes[x][0]] === homes[x][1] && c[homes[x][2]] === homes[x][3]).join(\"\") || \"-\";\n\
  const ep = isPawn && Math.abs(a - b) === 16 && [b - 1, b + 1].some(n => n >> 3 === b >> 3 && c[n] === (white ? \"p\" : \"P\")) ? square((a + b) / 2) : \"-\";\n\
  return [placed(c), white ? \"b\" : \"w\", rights, ep, m.zeroing ? 0 : (+w[4] || 0) + 1, (+w[5] || 1) + (white ? 0 : 1)].join(\" \");\n\
}\n\
function draw() {\n\
  const c = cells(fen()), order = [...Array(64).keys()];\n\
  if (turned) order.reverse();\n\
  const targets = held && held.from !== undefined && !isSetup() ? moves.filter(m => m.uci.startsWith(square(held.from))).map(m => m.uci.slice(2, 4)) : [];\n\
  by(\"board\").replaceChildren(...order.map(i => {\n\
    const b = document.createElement(\"button\");\n\
    b.type = \"button\"; b.tabIndex = i === focus ? 0 : -1; b.dataset.at = i;\n\
    b.className = ((i + (i >> 3)) % 2 ? \"dark\" : \"\") + (held && held.from === i ? \" held\" : \"\") + (targets.includes(square(i)) ? \" target\" : \"\");\n\
    b.setAttribute(\"aria-label\", square(i) + \", \" + named(c[i]) + (targets.includes(square(i)) ? \", can be reached\" : \"\"));\n\
    b.innerHTML = drawn(c[i]);\n\
    b.onclick = () => pick(i);\n\
    return b;\n\
  }));\n\
  by(\"box\").className = isSetup() ? \"open\" : \"\";\n\
  by(\"box\").replaceChildren(...[...\"KQRBNPkqrbnp.\"].map(man => {\n\
    const b = document.createElement(\"button\");\n\
    b.type = \"button\"; b.innerHTML = man === \".\" ? \"&#10005;\" : drawn(man);\n\
    b.setAttribute(\"aria-label\", man === \".\" ? \"take off the board\" : named(man));\n\
    b.className = held && held.man === man && held.from === undefined ? \"held\" : \"\";\n\
    b.onclick = () => { held = held && held.man === man && held.from === undefined ? null : { man }; draw(); };\n\
    return b;\n\
  }));\n\
  by(\"back\").disabled = at === 0;\n\
  by(\"forth\").disabled = at === line.length - 1;\n\
}\n\
function row(m) {\n\
  const kind = FLIP[m.category] || m.category, tr = document.createElement(\"tr\"), cell = () => tr.appendChild(document.createElement(\"td\"));\n\
  const b = document.createElement(\"button\");\n\
  b.type = \"button\"; b.textContent = m.san; b.onclick = () => go(after(fen(), m));\n\
  cell().append(b);\n\
  const value = cell();\n\
  value.className = KIND(kind);\n\
  value.textContent = m.checkmate ? \"mates\" : m.stalemate ? \"stalemate\" : WORDS[kind] || kind;\n\
  cell().textContent = m.dtz === null ? \"\" : -m.dtz;\n\
  cell().textContent = m.zeroing ? \"zeroing\" : \"\";\n\
  return tr;\n\
}\n\
async function show() {\n\
  held = null; moves = [];\n\
  const asked = fen();\n\
  by(\"fen\").value = asked;\n\
  by(\"side\").value = asked.split(\" \")[1] === \"b\" ? \"b\" : \"w\";\n\
  history.replaceState(null, \"\", \"#\" + asked.replace(/ /g, \"_\"));\n\
  draw();\n\
  let told;\n\
  try { told = await (await fetch(\"standard?fen=\" + encodeURIComponent(asked))).json(); } catch (e) { told = { error: \"no answer\" }; }\n\
  if (asked !== fen()) return;\n\
  moves = told.moves || [];\n\
  const side = asked.split(\" \")[1] === \"b\" ? \"Black\" : \"White\";\n\
  const head = by(\"verdict\");\n\
  head.className = told.category ? KIND(told.category) : \"\";\n\
  head.textContent = !told.category ? \"\" : told.checkmate ? side + \" is mated\" : told.stalemate ? \"Stalemate\" : told.category === \"draw\" ? \"Draw\" : side + \" to move: \" + (WORDS[told.category] || told.category);\n\
  by(\"detail\").textContent = [told.error ? \"refused: \" + told.error : \"\", told.dtz ? \"DTZ \" + told.dtz : \"\", told.verdict ? \"verdict \" + told.verdict : \"\"].filter(x => x).join(\", \");\n\
  by(\"moves\").replaceChildren(...moves.map(row));\n\
  draw();\n\
}\n\
by(\"board\").onkeydown = e => {\n\
  const step = { ArrowLeft: -1, ArrowRight: 1, ArrowUp: -8, ArrowDown: 8 }[e.key];\n\
  if (!step) return;\n\
  e.preventDefault();\n\
  const to = focus + (turned ? -step : step);\n\
  if (to < 0 || to > 63 || (Math.abs(step) === 1 && to >> 3 !== focus >> 3)) return;\n\
  focus = to; draw();\n\
  by(\"board\").querySelector('[data-at=\"' + to + '\"]').focus();\n\
};\n\
by(\"form\").onsubmit = e => { e.preventDefault(); go(by(\"fen\").value.trim().replace(/_/g, \" \")); };\n\
by(\"back\").onclick = () => { if (at) { at--; show(); } };\n\
by(\"forth\").onclick = () => { if (at < line.length - 1) { at++; show(); } };\n\
by(\"turn\").onclick = () => { turned = !turned; draw(); };\n\
by(\"setup\").onclick = () => { by(\"setup\").setAttribute(\"aria-pressed\", String(!isSetup())); held = null; draw(); };\n\
window.onhashchange = () => { if (linked() && linked() !== fen()) go(linked()); };\n\
by(\"clear\").onclick = () => go(\"8/8/8/8/8/8/8/8 w - - 0 1\");\n\
by(\"side\").onchange = () => { const w = fen().split(\" \"); go([w[0], by(\"side\").value, w[2] || \"-\", \"-\", 0, 1].join(\" \")); };\n\
show();\n\
</script>\n\
</body>\n\
</html>\n\
";
