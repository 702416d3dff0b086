//! The parts of every page: its style, and the script that follows a byte.

/// The beginning of a page. It may load nothing.
pub const BEGINNING: &[u8] = br#"<!DOCTYPE html>
<html lang="en">
<head>
<meta charset="utf-8">
<meta name="viewport" content="width=device-width, initial-scale=1">
<meta http-equiv="Content-Security-Policy" content="default-src 'none'; style-src 'unsafe-inline'; script-src 'unsafe-inline'; img-src data:">
<meta name="color-scheme" content="light dark">
<link rel="icon" href="data:,">
<title>What happened to each beat: tlexplain</title>
"#;

/// The style: light, dark, and on paper.
pub const STYLE: &[u8] = br#"<style>
:root {
  --paper: #fbfbf9; --card: #fff; --ink: #1d1f23; --faint: #5d626b; --line: #dcdde0;
  --light: 93%; --strength: .055; --edge: 62%;
  --bad: #b3261e; --slow: #8a5a00; --focus: #1f5fd0;
}
@media (prefers-color-scheme: dark) {
  :root {
    --paper: #16181c; --card: #1e2126; --ink: #e6e7ea; --faint: #a2a8b2; --line: #363a41;
    --light: 34%; --strength: .06; --edge: 68%;
    --bad: #ff8a80; --slow: #f0b849; --focus: #8ab4ff;
  }
}
* { box-sizing: border-box; margin: 0; }
body { font: 14px/1.45 system-ui, sans-serif; color: var(--ink); background: var(--paper); padding: 1.5rem; }
h1 { font-size: 1.35rem; font-weight: 600; }
header { display: grid; grid-template: auto 1fr / 1fr auto; gap: .5rem 2rem; margin-bottom: .75rem; }
.overview { font-size: 1rem; max-width: 60rem; } .answer { grid-area: 1 / 2 / 3; margin: 0; }
small, figcaption, .legend { color: var(--faint); font-weight: 400; }
code, pre, td { font-family: ui-monospace, monospace; }
pre { margin: .75rem 0 1.25rem; font-size: 13px; overflow-x: auto; }
.fault { color: var(--bad); }
a { color: inherit; text-decoration-color: var(--faint); text-underline-offset: .15em; }
main { --cell: 1.45rem; --column: 13.5rem; width: max(100%, calc(var(--count) * (var(--column) + .75rem))); }
.row { display: grid; grid-template-columns: repeat(var(--count), minmax(var(--column), 34rem)); gap: .4rem .75rem; align-items: start; margin-bottom: .4rem; content-visibility: auto; contain-intrinsic-size: auto 4rem; }
.heads { position: sticky; top: 0; z-index: 1; background: var(--paper); border-bottom: 1px solid var(--line); content-visibility: visible; padding: .4rem 0; }
h2 { font-size: 1.1rem; font-weight: 600; }
h2 small { font-size: .85rem; margin-left: .4rem; }
.A { grid-column: var(--A); } .B { grid-column: var(--B); } .C { grid-column: var(--C); } .D { grid-column: var(--D); } .E { grid-column: var(--E); }
.problems { margin: .75rem 0 1.25rem; } .problems h2 { font-size: 1rem; } .problems ul { padding-left: 1.2rem; max-height: 12rem; overflow-y: auto; }
.fold { margin-bottom: .75rem; }
button { font: inherit; color: inherit; background: var(--card); border: 1px solid var(--line); border-radius: 6px; padding: .1rem .6rem; }
.message { container-type: inline-size; --tint: oklch(var(--light) var(--strength) calc(var(--hue) * 150)); --rim: oklch(var(--edge) .13 calc(var(--hue) * 150)); background: var(--card); border: 1px solid var(--line); border-left: 4px solid var(--rim, var(--line)); border-radius: 6px; padding: 0 .75rem; transition: opacity .15s; }
.message:not([data-exchange]) { border-left-color: var(--line); --tint: var(--line); }
summary { margin: 0 -.75rem; padding: .3rem .75rem; cursor: pointer; }
.beat { padding-bottom: .65rem; scroll-margin-top: 7rem; }
.beat + .beat { border-top: 1px solid var(--line); padding-top: .4rem; }
h3 { font-size: .95rem; font-weight: 600; display: inline; }
h3 small { float: right; margin-left: .5rem; }
.fields { color: var(--faint); font-size: 13px; }
.refused { border-color: var(--bad); } .refused .came { color: var(--bad); }
.waits { border-color: var(--slow); } .waits .came, .remark, .cut { color: var(--slow); }
.message.refused:not([data-exchange]) { border-left-color: var(--bad); } .message.waits:not([data-exchange]) { border-left-color: var(--slow); }
.not-offered, .run { color: var(--faint); }
.run { grid-column: 1 / -1; border: 1px dashed var(--line); border-radius: 6px; padding: .55rem .75rem; }
.remark { border-top: 1px solid var(--line); margin-top: .5rem; padding-top: .4rem; }
.cut { margin-top: .75rem; }
figure { margin-top: .45rem; }
figcaption { display: flex; gap: .5rem; align-items: baseline; font-size: 12px; }
figcaption code { overflow: hidden; white-space: nowrap; text-overflow: ellipsis; font-size: 11px; }
.message:focus-within figcaption code { white-space: normal; overflow-wrap: anywhere; }
em { color: var(--bad); font-style: normal; font-weight: 600; }
table, tr { display: contents; }
tbody { display: grid; grid-template-columns: repeat(var(--row), calc(var(--cell) - 2px)); justify-content: end; gap: 2px; margin-top: .15rem; counter-reset: lane var(--width); }
@container (min-width: 26rem) { tbody { grid-template-columns: repeat(var(--wide), calc(var(--cell) - 2px)); } }
td { counter-increment: lane -1; text-align: center; font-size: 12px; line-height: 1.2; padding: 1px 0 2px; border-radius: 3px; border: 1px solid transparent; background: var(--tint); }
td::before { content: counter(lane); display: block; font-size: 9px; color: var(--faint); }
.empty::after { content: "\2022"; } .idle::after { content: "\00b7"; color: var(--faint); }
.idle, .masked, .wrong { background: none; border-color: var(--line); }
.masked { color: var(--faint); border-style: dashed; } .wrong { color: var(--bad); border-color: var(--bad); }
.following .message:not(.lit) { opacity: .45; }
.here { outline: 2px solid var(--ink); font-weight: 700; }
:focus-visible, :target { outline: 2px solid var(--focus); outline-offset: 2px; }
output { position: fixed; right: 1.5rem; bottom: 1.5rem; background: var(--ink); color: var(--paper); padding: .35rem .7rem; border-radius: 6px; }
output:empty { display: none; }
.legend { margin-top: 1.5rem; max-width: 60rem; }
.mark { font: 12px ui-monospace, monospace; color: var(--ink); border: 1px solid var(--line); border-radius: 3px; padding: 0 .35em; margin-left: .3em; }
.sample { background: oklch(var(--light) var(--strength) 150); }
@media print {
  @page { size: landscape; margin: 10mm; }
  body { font-size: 10px; padding: 0; } main { --cell: 1.3rem; zoom: .8; }
  .row { content-visibility: visible; break-inside: avoid; } .heads { position: static; }
  * { print-color-adjust: exact; } output { display: none; }
  figcaption code { white-space: normal; overflow-wrap: anywhere; } .problems ul { max-height: none; } .fold { display: none; }
  .message::details-content { content-visibility: visible; }
}
@media (prefers-reduced-motion: reduce) { * { transition: none; } }
</style>
</head>
<body>
"#;

/// The control that opens or closes all messages. The script shows it.
pub const FOLD: &[u8] =
    br#"<p class="fold" hidden><button type="button">Open all</button> <button type="button">Close all</button></p>
"#;

/// The legend of the marks on lanes, and help for navigation.
pub const LEGEND: &[u8] = br#"</main>
<footer class="legend"><p>Lanes are highest first, each byte below its number. Beats count from 0. A message and its response have the same colour.
<span class="mark sample">7f</span> a byte <span class="mark sample">&bull;</span> active, without data <span class="mark">&middot;</span> not active <span class="mark">--</span> left out by the mask <span class="mark">!!</span> in the mask, but not active</p>
<p>Click a message, or press Enter on it, to open or close it. Point at a byte, or press Left and Right on an open message, to follow the byte across the bridge; Up and Down go along a channel. Click a byte to keep the highlight, and press Escape to clear it.</p></footer>
<output aria-live="polite"></output>
"#;

/// The script that follows a byte to the other side, and a message to its response, and that opens
/// or closes all messages. Links and single messages work without it.
pub const SCRIPT: &[u8] = br#"<script>
(() => {
  const all = (of, what) => [...of.querySelectorAll(what)];
  const groups = (elements, key) => {
    const found = new Map();
    for (const element of elements) {
      const name = element.dataset[key];
      if (name && !found.get(name)?.push(element)) found.set(name, [element]);
    }
    return found;
  };
  const messages = all(document, ".message");
  const exchanges = groups(messages, "exchange");
  const tables = groups(all(document, "table"), "message");
  const output = document.querySelector("output");
  let lit = [], pinned = null, at = null;

  const light = (element, name) => { element.classList.add(name); lit.push(element); };
  const clear = () => {
    for (const element of lit) element.classList.remove("lit", "here");
    lit = [];
    document.body.classList.remove("following");
    output.textContent = "";
  };
  // The cells of a table by lane, and where the bytes of its message stand on them.
  const place = table => {
    const cells = all(table, "td").reverse(), { byte: first, lane, count } = table.dataset;
    return {
      cells, first: +first, count: +count,
      on: byte => cells[(+lane + byte - first) % cells.length],
      of: cell => (cells.indexOf(cell) - lane + cells.length) % cells.length,
    };
  };
  const follow = cell => {
    const table = cell.closest("table");
    if (!table.dataset.message) return;
    const here = place(table), offset = here.of(cell), byte = here.first + offset;
    if (offset >= here.count) return;
    const lanes = [];
    for (const other of tables.get(table.dataset.message)) {
      const there = place(other);
      if (byte < there.first || byte >= there.first + there.count) continue;
      const found = there.on(byte);
      light(found, "here");
      lanes.push((other.closest(".far") ? "far" : "near") + " lane " + there.cells.indexOf(found));
    }
    output.textContent = `byte ${byte} of the message: ${lanes.join(", ")}`;
  };
  const show = element => {
    clear();
    const message = element?.closest?.(".message");
    if (!message) return;
    for (const other of exchanges.get(message.dataset.exchange) ?? [message]) light(other, "lit");
    document.body.classList.toggle("following", exchanges.has(message.dataset.exchange));
    const cell = element.closest("td");
    if (cell) follow(cell);
  };
  const pin = element => { pinned = element?.closest?.(".beat") ? element : null; show(pinned); };

  document.addEventListener("pointerover", event => { if (!pinned) show(event.target); });
  document.addEventListener("focusin", event => { at = null; if (!pinned) show(event.target); });
  document.addEventListener("click", event => { if (!event.target.closest("a, summary")) pin(pinned ? null : event.target); });
  document.addEventListener("keydown", event => {
    const message = document.activeElement?.closest(".message");
    if (event.key === "Escape") pin(null);
    if (!message || event.target.closest("a")) return;
    const step = { ArrowLeft: -1, ArrowUp: -1, ArrowRight: 1, ArrowDown: 1 }[event.key];
    if (!step) return;
    event.preventDefault();
    if (event.key === "ArrowLeft" || event.key === "ArrowRight") {
      const cells = message.open ? all(message, "td") : [];
      at = cells[Math.max(0, Math.min(cells.length - 1, cells.indexOf(at) + step))];
      pinned = null;
      show(at ?? message);
    } else {
      const same = messages.filter(other => "ABCDE".split("").some(name => other.classList.contains(name) && message.classList.contains(name)));
      same[same.indexOf(message) + step]?.querySelector("summary").focus();
    }
  });

  document.querySelector(".fold").hidden = false;
  all(document, ".fold button").forEach((button, at) => button.addEventListener("click", () => {
    for (const message of messages) message.open = at === 0;
  }));
})();
</script>
"#;

/// The end of a page.
pub const END: &[u8] = b"</body>\n</html>\n";
