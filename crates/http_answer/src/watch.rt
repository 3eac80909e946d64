//! The page that follows games, with its style and its script: written by `tools/page` from web/watch.html.

/// The page that follows games.
pub const WATCH: &str = "<!doctype html>\n\
<html lang=\"en\">\n\
<head>\n\
<meta charset=\"utf-8\">\n\
<meta name=\"viewport\" content=\"width=device-width, initial-scale=1\">\n\
<title>Games</title>\n\
<style>\n\
:root { color-scheme: light dark; --light: #eedfc3; --dark: #b08a62; --on: #2a6fb8; --win: #1d7a3a; --loss: #b3261e; --draw: #6b6b6b; --line: #8884; }\n\
@media (prefers-color-scheme: dark) { :root { --light: #c9b48f; --dark: #7a5c3e; --on: #6cb0ff; --win: #6fd08c; --loss: #ff8a80; --draw: #b5b5b5; } }\n\
* { box-sizing: border-box; }\n\
body { font: 16px/1.45 system-ui, sans-serif; margin: 1rem auto; max-width: 62rem; padding: 0 1rem; }\n\
h1 { font-size: 1.1rem; margin: 0 0 .8rem; }\n\
svg { width: 100%; height: 100%; display: block; pointer-events: none; }\n\
.white { fill: #fff; stroke: #222; stroke-width: 1.4; stroke-linejoin: round; }\n\
.black { fill: #222; stroke: #eee; stroke-width: 1.1; stroke-linejoin: round; }\n\
button { font: inherit; padding: .25rem .7rem; }\n\
button[aria-pressed=true] { outline: 2px solid var(--on); }\n\
.win { color: var(--win); } .loss { color: var(--loss); } .draw { color: var(--draw); }\n\
a { color: var(--on); }\n\
nav, .row { display: flex; flex-wrap: wrap; gap: .5rem; margin: .7rem 0; align-items: center; }\n\
.hidden { display: none !important; }\n\
#sums { min-height: 1.5rem; margin: 0; }\n\
#games { list-style: none; padding: 0; display: grid; grid-template-columns: repeat(auto-fill, minmax(15rem, 1fr)); gap: 1rem; }\n\
#games > li { border: 1px solid var(--line); border-radius: 4px; padding: .6rem; min-width: 0; overflow-wrap: anywhere; }\n\
#games h2 { font-size: 1rem; margin: 0 0 .3rem; }\n\
#games p { margin: .3rem 0 0; }\n\
.board { display: grid; grid-template: repeat(8, 1fr) / repeat(8, 1fr); aspect-ratio: 1; border: 1px solid var(--line); max-width: 30rem; }\n\
.board i { display: block; min-width: 0; min-height: 0; overflow: hidden; background: var(--light); }\n\
.board i.dark { background: var(--dark); }\n\
.board i.from, .board i.to { box-shadow: inset 0 0 0 3px var(--on); }\n\
#game { display: flex; flex-wrap: wrap; gap: 1.5rem; align-items: flex-start; }\n\
#game > section { flex: 1 1 20rem; min-width: 0; }\n\
#value { font-size: 1.25rem; font-weight: 600; margin: .2rem 0; min-height: 1.8rem; }\n\
#plies { max-height: 22rem; overflow: auto; display: flex; flex-wrap: wrap; gap: .15rem .3rem; padding: .2rem; border: 1px solid var(--line); }\n\
#plies button { border: 0; background: none; color: inherit; padding: .05rem .3rem; border-radius: 3px; cursor: pointer; }\n\
#plies button[aria-current] { background: var(--on); color: #fff; }\n\
#plies button.end { outline: 2px solid var(--win); }\n\
#plies span { opacity: .7; align-self: center; }\n\
dl { display: grid; grid-template-columns: max-content 1fr; gap: .2rem .8rem; overflow-wrap: anywhere; }\n\
dd { margin: 0; }\n\
button:focus-visible, a:focus-visible { outline: 3px solid var(--on); outline-offset: 1px; }\n\
</style>\n\
</head>\n\
<body>\n\
<h1 id=\"title\">Games</h1>\n\
<main>\n\
<div id=\"all\">\n\
<p id=\"sums\" role=\"status\" aria-live=\"polite\"></p>\n\
<nav id=\"filters\" aria-label=\"Which games\"></nav>\n\
<ul id=\"games\"></ul>\n\
</div>\n\
<div id=\"game\" class=\"hidden\">\n\
<section aria-label=\"Board\">\n\
<div id=\"board\" class=\"board\" role=\"img\" tabindex=\"0\" aria-describedby=\"keys\"></div>\n\
<div class=\"row\">\n\
<button id=\"first\" type=\"button\">Start</button>\n\
<button id=\"back\" type=\"button\">Back</button>\n\
<button id=\"forth\" type=\"button\">Forth</button>\n\
<button id=\"last\" type=\"button\">Last</button>\n\
<button id=\"turn\" type=\"button\">Turn board</button>\n\
</div>\n\
<p id=\"keys\">Arrow keys go back and forth, Home and End to the start and the last move.</p>\n\
</section>\n\
<section aria-label=\"Game\">\n\
<p id=\"value\" role=\"status\" aria-live=\"polite\"></p>\n\
<p id=\"detail\"></p>\n\
<dl id=\"facts\"></dl>\n\
<div id=\"plies\" role=\"group\" aria-label=\"Moves\"></div>\n\
<p><a id=\"analyse\">This position on the board of the tables</a> · <a href=\"../watch\">All games</a></p>\n\
</section>\n\
</div>\n\
</main>\n\
<script>\n\
\"use strict\";\n\
const SHAPES = {\n\
  p: '<circle cx=\"20\" cy=\"13\" r=\"5.2\"/><path d=\"M12 34h16l-3.4-8.6c-1-2.9-.7-5 .7-6.6H14.700c1.400 1.600 1.700 3.700.7 6.600z\"/>',\n\
  r: '<path d=\"M10 34h20v-4h-3V18h3V9h-4.500v3.200H22V9h-4v3.200h-3.500V9H10v9h3v12h-3z\"/>',\n\
  n: '<path d=\"M12 34h18c.4-10-.6-20-11-23.500L17.400 7l-1.600 4.600c-3.800 2.200-6 7.600-8 11.800l3.400 4.200 6.200-3.800c-.8 4.200-4.400 5.200-5.400 10.200z\"/>',\n\
  b: '<circle cx=\"20\" cy=\"7.500\" r=\"2.300\"/><path d=\"M11 34h18v-3c-3-.8-4.300-1.800-4.400-3.200 4.600-4 5.400-9.300-4.600-17.800-10 8.500-9.200 13.800-4.600 17.800-.1 1.400-1.400 2.400-4.400 3.200z\"/>',\n\
  q: '<path d=\"M10 34h20l-1-5c2.400-5.600 4.200-10.800 5-16l-6 6-2.200-9.500L20 18l-5.800-8.500L12 19l-6-6c.8 5.200 2.600 10.400 5 16z\"/>',\n\
  k: '<path d=\"M18.500 4.500h3v2.800h2.800v3h-2.800v3.200c8.600-.4 11.300 6 6.800 13.500l.9 7H10.800l.9-7C7.200 19.500 9.900 13.100 18.500 13.500v-3.200h-2.800v-3h2.800z\"/>'\n\
};\n\
const NAMES = { p: \"pawn\", n: \"knight\", b: \"bishop\", r: \"rook\", q: \"queen\", k: \"king\" };\n\
const WORDS = { win: \"wins\", loss: \"loses\", draw: \"draw\", \"cursed-win\": \"wins, but for the fifty-move rule\", \"blessed-loss\": \"loses, but for the fifty-move rule\", \"maybe-win\": \"wins, perhaps too late\", \"maybe-loss\": \"loses, perhaps too late\", unknown: \"not in the tables\" };\n\
const KIND = c => /win$/.test(c) && c !== \"cursed-win\" ? \"win\" : /loss$/.test(c) && c !== \"blessed-loss\" ? \"loss\" : \"draw\";\n\
const by = id => document.getElementById(id);\n\
const cells = f => [...f.split(\" \")[0].replace(/\\d/g, n => \".\".repeat(n)).replace(/\\//g, \"\").replace(/[^pnbrqkPNBRQK.]/g, \".\")].concat(Array(64).fill(\".\")).slice(0, 64);\n\
const square = i => \"abcdefgh\"[i % 8] + (8 - (i >> 3));\n\
const drawn = man => man === \".\" ? \"\" : `<svg viewBox=\"0 0 40 40\" class=\"${man < \"a\" ? \"white\" : \"black\"}\" aria-hidden=\"true\">${SHAPES[man.toLowerCase()]}</svg>`;\n\
const named = man => man === \".\" ? \"empty\" : (man < \"a\" ? \"white \" : \"black \") + NAMES[man.toLowerCase()];\n\
const stamp = (/\\/watch\\/([0-9a-f]{32})$/.exec(location.pathname) || [])[1];\n\
const base = location.pathname.split(\"/\").at(-2) === \"watch\" ? \"../\" : \"\";\n\
const make = (name, text, kind) => {\n\
  const it = document.createElement(name);\n\
  if (text !== undefined) it.textContent = text;\n\
  if (kind) it.className = kind;\n\
  return it;\n\
};\n\
const ask = async path => {\n\
  const answer = await fetch(base + path, { cache: \"no-store\" });\n\
  const told = await answer.json();\n\
  if (!answer.ok) throw new Error(told.error || answer.status);\n\
  return told;\n\
};\n\
\n\
function setBoard(board, fen, uci, turned) {\n\
  const c = cells(fen), order = [...c.keys()];\n\
  if (turned) order.reverse();\n\
  board.replaceChildren(...order.map(i => {\n\
    const it = make(\"i\", undefined, (i + (i >> 3)) % 2 ? \"dark\" : \"\");\n\
    if (uci && square(i) === uci.slice(0, 2)) it.classList.add(\"from\");\n\
    if (uci && square(i) === uci.slice(2, 4)) it.classList.add(\"to\");\n\
    it.innerHTML = drawn(c[i]);\n\
    return it;\n\
  }));\n\
  const side = white => order.filter(i => c[i] !== \".\" && c[i] < \"a\" === white).map(i => NAMES[c[i].toLowerCase()] + \" \" + square(i)).join(\", \");\n\
  board.setAttribute(\"aria-label\", \"White: \" + side(true) + \". Black: \" + side(false) + \". \" + (fen.split(\" \")[1] === \"b\" ? \"Black\" : \"White\") + \" to move.\");\n\
}\n\
\n\
/* What is found of a game, in words, each with its kind. */\n\
const count = side => side.fault ? \"fault: \" + side.fault : side.name === null ? \"not compared\" : side.moves === null ? \"nothing kept\" : side.moves + (side.moves === 1 ? \" move\" : \" moves\");\n\
const compared = g => g.agree === undefined ? [] : g.agree ? [[\"both agree\", \"win\"]]\n\
  : g.differ !== null ? [[\"the records differ at ply \" + g.differ, \"loss\"]]\n\
  : g.behind !== null ? [[\"arbiter \" + (g.moves < g.other.moves ? 1 : 2) + \" is behind by \" + g.behind, \"draw\"]]\n\
  : g.agree === false ? [[\"arbiter \" + (g.moves === null ? 1 : 2) + \" has kept nothing yet\", \"draw\"]] : [];\n\
const isFault = g => Boolean(g.fault || (g.other && g.other.fault));\n\
const isBehind = g => g.agree === false && g.differ === null;\n\
const KINDS = {\n\
  all: [\"All\", g => true],\n\
  running: [\"Running\", g => !g.verdict && !isFault(g) && (g.differ === null || g.differ === undefined)],\n\
  behind: [\"Behind\", g => isBehind(g)],\n\
  verdict: [\"Verdict\", g => Boolean(g.verdict)],\n\
  differ: [\"Differ\", g => g.differ !== null && g.differ !== undefined],\n\
  fault: [\"At fault\", g => isFault(g)]\n\
};\n\
\n\
/* ---- all games */\n\
let shown = location.hash.slice(1) in KINDS ? location.hash.slice(1) : \"all\", found = [];\n\
const cards = new Map(), visible = new Set();\n\
const watcher = stamp ? null : new IntersectionObserver(entries => {\n\
  for (const e of entries) e.isIntersecting ? visible.add(e.target.dataset.stamp) : visible.delete(e.target.dataset.stamp);\n\
  showBoards();\n\
});\n\
\n\
function card(g) {\n\
  if (cards.has(g.stamp)) return cards.get(g.stamp);\n\
  const li = make(\"li\"), link = make(\"a\"), head = make(\"h2\");\n\
  li.dataset.stamp = g.stamp;\n\
  link.href = base + \"watch/\" + g.stamp;\n\
  head.append(link);\n\
  const board = make(\"div\", undefined, \"board\");\n\
  board.setAttribute(\"role\", \"img\");\n\
  board.setAttribute(\"aria-label\", \"not shown yet\");\n\
  const it = { li, link, board, one: make(\"p\"), two: make(\"p\"), text: make(\"p\"), of: null };\n\
  li.append(head, board, it.one, it.two, it.text);\n\
  cards.set(g.stamp, it);\n\
  watcher.observe(li);\n\
  return it;\n\
}\n\
function showAll() {\n\
  const kinds = Object.entries(KINDS);\n\
  by(\"filters\").replaceChildren(...kinds.map(([kind, [name, holds]]) => {\n\
    const b = make(\"button\", name + \" (\" + found.filter(holds).length + \")\");\n\
    b.type = \"button\";\n\
    b.dataset.kind = kind;\n\
    b.setAttribute(\"aria-pressed\", String(kind === shown));\n\
    b.onclick = () => { shown = kind; history.replaceState(null, \"\", \"#\" + kind); showAll(); by(\"filters\").querySelector(\"[data-kind=\" + kind + \"]\").focus(); };\n\
    return b;\n\
  }));\n\
  const wanted = found.filter(KINDS[shown][1]).map(g => {\n\
    const it = card(g);\n\
    it.link.textContent = g.name || g.stamp;\n\
    it.one.textContent = (g.other === undefined ? \"\" : \"Arbiter 1: \") + count(g) + (g.verdict ? \", \" + g.verdict : \"\");\n\
    it.two.textContent = g.other ? \"Arbiter 2: \" + count(g.other) + (g.other.verdict ? \", \" + g.other.verdict : \"\") : \"\";\n\
    it.text.replaceChildren(...compared(g).map(([text, kind]) => make(\"span\", text, kind)));\n\
    return it.li;\n\
  });\n\
  const list = by(\"games\");\n\
  if (wanted.length !== list.children.length || wanted.some((li, i) => list.children[i] !== li)) list.replaceChildren(...wanted);\n\
}\n\
let drawing = false;\n\
async function showBoards() {\n\
  if (drawing) return;\n\
  drawing = true;\n\
  for (const g of found) {\n\
    const it = cards.get(g.stamp), now = g.moves + \" \" + g.verdict + \" \" + g.fault;\n\
    if (!it || !visible.has(g.stamp) || it.of === now) continue;\n\
    try {\n\
      const plies = (await ask(\"games/\" + g.stamp)).plies, at = plies[plies.length - 1];\n\
      if (at) setBoard(it.board, at.fen, at.uci, false);\n\
      it.of = now;\n\
    } catch (e) { break; }\n\
  }\n\
  drawing = false;\n\
}\n\
const put = (it, text) => { if (it.textContent !== text) it.textContent = text; };\n\
async function readAll() {\n\
  try {\n\
    const told = await ask(\"games\"), s = told.sums;\n\
    found = told.games;\n\
    put(by(\"sums\"), s.games + (s.games === 1 ? \" game: \" : \" games: \") + [s.open + \" running\", s.with_verdict + \" with a verdict\", s.at_fault + \" at fault\"]\n\
      .concat(s.differ === undefined ? [] : [s.differ + \" differ\", s.behind + \" behind\"]).join(\", \"));\n\
    showAll();\n\
    showBoards();\n\
  } catch (e) { put(by(\"sums\"), \"No answer: \" + e.message); }\n\
}\n\
\n\
/* ---- one game */\n\
let game = null, at = 0, turned = false;\n\
const lastPly = () => game.plies.length - 1;\n\
\n\
function showPly() {\n\
  const ply = game.plies[at], told = ply.tables, mover = ply.fen.split(\" \")[1] === \"b\" ? \"Black\" : \"White\";\n\
  setBoard(by(\"board\"), ply.fen, ply.uci, turned);\n\
  by(\"value\").className = told.category ? KIND(told.category) : \"\";\n\
  put(by(\"value\"), !told.category || told.category === \"unknown\" ? \"Not in the tables\" : told.checkmate ? mover + \" is mated\" : told.stalemate ? \"Stalemate\" : told.category === \"draw\" ? \"Draw\" : mover + \" to move: \" + WORDS[told.category]);\n\
  put(by(\"detail\"), [\"ply \" + at, ply.san, told.dtz === null || told.dtz === undefined ? \"\" : \"DTZ \" + told.dtz, told.verdict ? \"verdict \" + told.verdict : \"\", told.error ? \"refused: \" + told.error : \"\"].filter(x => x).join(\", \"));\n\
  by(\"analyse\").href = base === \"\" ? \"#\" : \"../#\" + ply.fen.replace(/ /g, \"_\");\n\
  [...by(\"plies\").querySelectorAll(\"button\")].forEach(b => +b.dataset.at === at ? b.setAttribute(\"aria-current\", \"step\") : b.removeAttribute(\"aria-current\"));\n\
  for (const [id, is] of [[\"first\", at === 0], [\"back\", at === 0], [\"forth\", at === lastPly()], [\"last\", at === lastPly()]]) by(id).disabled = is;\n\
}\n\
function go(to) {\n\
  if (!game || !game.plies.length) return;\n\
  at = Math.max(0, Math.min(to, lastPly()));\n\
  showPly();\n\
  const now = by(\"plies\").querySelector(\"[aria-current]\"), box = by(\"plies\");\n\
  if (now) box.scrollTop = now.offsetTop - box.offsetTop - box.clientHeight / 2;\n\
}\n\
function showGame() {\n\
  const end = game.plies.findIndex(p => p.tables.verdict), name = game.name || stamp;\n\
  by(\"title\").textContent = document.title = name;\n\
  const facts = [[\"Arbiter 1\", count(game) + (game.verdict ? \", \" + game.verdict : \"\")]];\n\
  if (game.other) facts.push([\"Arbiter 2\", count(game.other) + (game.other.verdict ? \", \" + game.other.verdict : \"\")]);\n\
  for (const [text, kind] of compared(game)) facts.push([\"Compared\", text, kind]);\n\
  facts.push([\"Tables\", end < 0 ? \"no verdict so far\" : \"first verdict at ply \" + end + \": \" + game.plies[end].tables.verdict]);\n\
  if (game.delay !== null) facts.push([\"Delay\", game.delay + (game.delay === 1 ? \" ply\" : \" plies\")]);\n\
  facts.push([\"Stamp\", stamp]);\n\
  by(\"facts\").replaceChildren(...facts.flatMap(([name, text, kind]) => [make(\"dt\", name), make(\"dd\", text, kind)]));\n\
  by(\"plies\").replaceChildren(...game.plies.flatMap((p, i) => {\n\
    const b = make(\"button\", i ? p.san : \"start\", i === end ? \"end\" : \"\"), f = game.plies[Math.max(0, i - 1)].fen.split(\" \");\n\
    b.type = \"button\";\n\
    b.dataset.at = i;\n\
    b.onclick = () => go(i);\n\
    if (i === end) b.setAttribute(\"aria-label\", (i ? p.san : \"start\") + \", first verdict\");\n\
    return i && (f[1] === \"w\" || i === 1) ? [make(\"span\", f[5] + (f[1] === \"w\" ? \".\" : \"…\")), b] : [b];\n\
  }));\n\
}\n\
async function readGame() {\n\
  try {\n\
    const told = await ask(\"games/\" + stamp), is = JSON.stringify(told);\n\
    if (game && is === game.text) return;\n\
    const follows = !game || at === lastPly();\n\
    game = told;\n\
    game.text = is;\n\
    showGame();\n\
    go(follows ? lastPly() : at);\n\
  } catch (e) { put(by(\"value\"), \"No answer: \" + e.message); if (game) game.text = \"\"; }\n\
}\n\
\n\
if (stamp) {\n\
  by(\"all\").className = \"hidden\";\n\
  by(\"game\").className = \"\";\n\
  const steps = { first: () => 0, back: () => at - 1, forth: () => at + 1, last: () => lastPly() };\n\
  for (const id in steps) by(id).onclick = () => go(steps[id]());\n\
  by(\"turn\").onclick = () => { turned = !turned; go(at); };\n\
  document.onkeydown = e => {\n\
    const id = { Home: \"first\", ArrowLeft: \"back\", ArrowRight: \"forth\", End: \"last\" }[e.key];\n\
    if (id && game && !e.altKey && !e.ctrlKey && !e.metaKey) { e.preventDefault(); go(steps[id]()); }\n\
  };\n\
}\n\
/* (one question at a time, however long its answer takes) */\n\
let reading = false;\n\
async function read() {\n\
  if (reading) return;\n\
  reading = true;\n\
  await (stamp ? readGame() : readAll());\n\
  reading = false;\n\
}\n\
read();\n\
setInterval(() => { if (!document.hidden) read(); }, 1000);\n\
document.onvisibilitychange = () => { if (!document.hidden) read(); };\n\
</script>\n\
</body>\n\
</html>\n\
";
