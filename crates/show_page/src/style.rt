//! The style of the page.
//!
//! Light and dark by the reader's own setting, in one column up to 1,000 pixels, and on paper in black on white.

/// The style of the page: ASCII, with nothing that ends a style element.
pub const STYLE: &str = r#"
:root {
  color-scheme: light dark;
  --page: #f4f5f7; --card: #ffffff; --text: #181b20; --muted: #59626e; --line: #d7dbe1; --track: #eceef2;
  --accent: #1f5fae; --call: #4a7fc1; --wrong: #b91c26; --wrong-card: #fdeced; --right: #17744a; --right-card: #e7f5ed;
  --open: #b36b00; --over: #8f5500; --must: #7a2fa3; --found: #7a2fa3;
}
@media (prefers-color-scheme: dark) {
  :root:not(.paper) {
    --page: #111316; --card: #1b1e22; --text: #e8ebef; --muted: #a3acb8; --line: #383e46; --track: #272b31;
    --accent: #82b6f4; --call: #6f9fd8; --wrong: #ff8080; --wrong-card: #3b1e21; --right: #66cf9a; --right-card: #173121;
    --open: #eba640; --over: #e2a950; --must: #d094f2; --found: #d094f2;
  }
}
* { box-sizing: border-box; }
[hidden] { display: none !important; }
html {
  font: 15px/1.45 system-ui, -apple-system, "Segoe UI", Roboto, "DejaVu Sans", Arial, sans-serif;
  background: var(--page); color: var(--text); -webkit-text-size-adjust: 100%;
}
body { margin: 0 auto; max-width: 1320px; padding: 10px 24px 36px; overflow-wrap: anywhere; }
h1, h2, p, ul, ol { margin: 0; padding: 0; }
ul, ol { list-style: none; }
h2 { font-size: 18px; line-height: 1.3; }
code, kbd, .mono { font-family: ui-monospace, "SF Mono", Menlo, Consolas, "DejaVu Sans Mono", monospace; font-size: .93em; }
bdi { overflow-wrap: anywhere; }
button, select, input {
  font: inherit; color: inherit; background: var(--card); border: 1px solid var(--line); border-radius: 6px;
  min-height: 34px; padding: 4px 10px;
}
button { cursor: pointer; }
button:hover { border-color: var(--muted); }
:focus-visible { outline: 3px solid var(--accent); outline-offset: 2px; }
.link {
  border: 0; background: none; min-height: 0; padding: 0; color: var(--accent); text-align: left;
  text-decoration: underline; text-underline-offset: 2px;
}
.soft { color: var(--muted); font-size: 13px; }
.panel {
  background: var(--card); border: 1px solid var(--line); border-radius: 10px; padding: 14px 20px 16px; margin-top: 14px; min-width: 0;
}
.row { display: flex; flex-wrap: wrap; gap: 6px 16px; align-items: center; justify-content: space-between; }
.buttons { display: flex; gap: 6px; }
.skip { position: absolute; left: -9999px; }
.skip:focus { position: static; }

.maker { color: var(--muted); font-size: 13px; }
#verdict { background: var(--card); border-left: 8px solid var(--open); border-radius: 10px; padding: 12px 20px; margin-top: 6px; }
#verdict.no { border-color: var(--wrong); }
#verdict.yes { border-color: var(--right); }
#headline { font-size: 28px; line-height: 1.2; }
.no > .says, #headline .no { color: var(--wrong); }
.yes > .says, #headline .yes { color: var(--right); }
.unknown > .says, #headline .unknown { color: var(--open); }
#lead { font-size: 18px; margin-top: 4px; max-width: 96ch; }
#lead bdi, #fault-words bdi { font-weight: 600; }
#facts { display: flex; flex-wrap: wrap; gap: 2px 18px; margin-top: 6px; color: var(--muted); font-size: 13px; }
#cards { display: grid; grid-template-columns: repeat(auto-fit, minmax(250px, 1fr)); gap: 12px; margin-top: 12px; }
#cards li { background: var(--card); border: 1px solid var(--line); border-radius: 10px; padding: 10px 14px; min-width: 0; }
#cards h2 { font-size: 15px; display: flex; flex-wrap: wrap; gap: 0 8px; align-items: center; overflow-wrap: normal; }
#cards p { font-size: 13px; margin-top: 3px; }
#cards code { color: var(--muted); }
#cards .line { display: flex; gap: 12px; align-items: baseline; }
.sign {
  flex: none; width: 22px; height: 22px; border-radius: 50%; text-align: center; line-height: 22px; color: var(--card);
  background: var(--open);
}
.no .sign { background: var(--wrong); }
.yes .sign { background: var(--right); }

#evidence { display: grid; grid-template-columns: minmax(0, 1fr) 340px; gap: 0 14px; }
#evidence.alone { grid-template-columns: minmax(0, 1fr); }
#fault-words { margin: 3px 0 10px; max-width: 96ch; }
.tag {
  display: inline-block; border: 1px solid var(--wrong); color: var(--wrong); border-radius: 10px; padding: 0 8px; font-size: 12px;
  white-space: nowrap;
}
#fault-shown { display: flex; flex-wrap: wrap; gap: 0 32px; }
#fault-shown > div { min-width: 0; max-width: 100%; }
#fault-shown > details { flex: 1 1 240px; margin-top: 12px; }
#picture { overflow: hidden; overflow-anchor: none; max-width: 100%; touch-action: pan-x pan-y; }
#picture.sideways, #picture.free { cursor: grab; touch-action: pan-y; -webkit-user-select: none; user-select: none; }
#picture.free { touch-action: none; }
#picture.sideways:active, #picture.free:active { cursor: grabbing; }
#picture svg { display: block; }
#picture.free svg { outline: 1px solid var(--line); outline-offset: -1px; }
#picture text {
  font: 13px system-ui, -apple-system, "Segoe UI", Roboto, "DejaVu Sans", Arial, sans-serif; fill: var(--text);
  direction: ltr; unicode-bidi: isolate;
}
#picture .lane { font-weight: 700; font-size: 14px; }
#picture .small { font-size: 11.5px; fill: var(--muted); }
#picture .op { font-weight: 600; }
#picture .value { font: 12px ui-monospace, "SF Mono", Menlo, Consolas, "DejaVu Sans Mono", monospace; }
#picture text.wrong { fill: var(--wrong); font-weight: 700; stroke: none; }
#picture text.right { fill: var(--right); font-weight: 600; }
.box { fill: var(--card); stroke: var(--muted); stroke-width: 1.5; }
.box.wrong { fill: var(--wrong-card); stroke: var(--wrong); stroke-width: 3; }
.box.missed { fill: var(--right-card); stroke: var(--right); stroke-width: 2.5; }
.box.open { stroke-dasharray: 5 4; }
.fold { fill: var(--page); stroke: var(--line); }
.rail { fill: none; stroke: var(--line); stroke-width: 2; stroke-dasharray: 2 5; }
.link-line { fill: none; stroke-width: 2; }
.link-line.next { stroke: var(--muted); } .tip.next { fill: var(--muted); }
.link-line.reads { stroke: var(--call); } .tip.reads { fill: var(--call); }
.link-line.wrong { stroke: var(--wrong); stroke-width: 2.5; } .tip.wrong { fill: var(--wrong); }
.link-line.over { stroke: var(--over); stroke-dasharray: 7 4; } .tip.over { fill: var(--over); }
.link-line.must { stroke: var(--must); stroke-dasharray: 2 4; stroke-width: 2.5; } .tip.must { fill: var(--must); }
.legend { display: flex; flex-wrap: wrap; gap: 3px 16px; font-size: 13px; color: var(--muted); }
#legend { margin-top: 10px; }
.legend li { display: flex; gap: 6px; align-items: center; }
.pill { border: 1px solid var(--line); background: var(--page); border-radius: 9px; padding: 0 8px; font-size: 11px; }
.swatch { width: 12px; height: 12px; border-radius: 2px; background: var(--call); }
.swatch.wrong { background: var(--wrong); width: 4px; }
.swatch.open { background: var(--open); width: 3px; }
.swatch.found { background: var(--found); width: 3px; }
summary { cursor: pointer; color: var(--accent); font-size: 13px; }
#word-lines { margin: 6px 0 0 18px; list-style: disc; font-size: 13px; }
#word-lines .end { font-weight: 600; }

#faults { height: 0; min-height: max(calc(100% - 14px), 320px); display: flex; flex-direction: column; }
.filters { display: flex; flex-wrap: wrap; gap: 6px; margin: 8px 0; }
.filters select { flex: 1 1 90px; width: 90px; min-width: 0; padding: 4px 6px; }
#fault-list { flex: 1; min-height: 0; overflow-y: auto; margin: 0 -8px; padding: 3px 8px; }
#fault-list button {
  display: grid; grid-template-columns: auto 1fr; gap: 0 10px; width: 100%; text-align: left; background: none; padding: 6px 8px;
  border: 0; border-left: 4px solid transparent; border-bottom: 1px solid var(--line); border-radius: 0;
}
#fault-list button:hover { background: var(--page); }
#fault-list [aria-current] { background: var(--wrong-card); border-left-color: var(--wrong); }
.where, .more { font-size: 12px; color: var(--muted); }
.where { min-width: 40px; align-self: center; }
.more { grid-column: 1 / -1; display: flex; gap: 8px; justify-content: space-between; }
.more i { font-style: normal; white-space: nowrap; }

#lanes { overflow: hidden auto; max-height: 560px; margin-top: 8px; }
#map { display: block; width: 100%; height: auto; cursor: crosshair; touch-action: pan-y; }
#under { min-height: 1.5em; font-size: 13px; margin-top: 4px; }
.bad { color: var(--wrong); }
#search { flex: 1 1 260px; max-width: 420px; min-width: 0; }
.scrolled { overflow: auto; max-height: 460px; margin-top: 8px; }
table { border-collapse: collapse; width: 100%; font-size: 13px; }
th { position: sticky; top: 0; background: var(--card); color: var(--muted); text-align: left; font-weight: 600; }
th, td { padding: 4px 10px 4px 6px; border-bottom: 1px solid var(--line); vertical-align: top; overflow-wrap: normal; }
th { white-space: nowrap; }
td { min-width: 64px; }
td:first-child { white-space: nowrap; font-variant-numeric: tabular-nums; }
tr.bad { background: var(--wrong-card); color: inherit; }
tr.here td { background: color-mix(in srgb, var(--accent) 16%, transparent); }
#more { margin-top: 6px; }
#said h1 { font-size: 18px; line-height: 1.3; }
#said pre { margin: 6px 0 0; white-space: pre-wrap; font-size: 13px; }
#said .drawn { margin-top: 6px; }
#said svg { display: block; max-width: 100%; height: auto; }
#said > .soft { margin-top: 14px; }
footer { margin-top: 14px; }
.keys { display: grid; grid-template-columns: repeat(auto-fit, minmax(280px, 1fr)); gap: 4px 24px; margin-top: 6px; }
kbd { border: 1px solid var(--line); border-bottom-width: 2px; border-radius: 4px; padding: 0 5px; background: var(--card); }

@media (max-width: 1000px) {
  #evidence { grid-template-columns: minmax(0, 1fr); }
  #faults { height: auto; min-height: 0; }
  #fault-list { max-height: 340px; }
}
@media (max-width: 600px) {
  body { padding: 8px 10px 28px; }
  .panel, #verdict { padding: 11px 12px; }
  #headline { font-size: 23px; }
  #lead { font-size: 16px; }
  #cards { gap: 8px; }
  #cards .soft { display: none; }
  #search { max-width: none; flex-basis: 100%; }
  td, th { padding: 4px 6px 4px 0; }
}
@media print {
  html { background: #fff; font-size: 12px; }
  body { max-width: none; padding: 0; }
  .panel, #verdict, #cards li { break-inside: avoid; }
  #faults, #operations { break-inside: auto; }
  #evidence { display: block; }
  #cards { grid-template-columns: repeat(3, 1fr); }
  .sign, .swatch, tr.bad, .box { print-color-adjust: exact; -webkit-print-color-adjust: exact; }
  #faults { height: auto; min-height: 0; }
  #fault-list { columns: 2; }
  #fault-list button { padding: 1px 4px; min-height: 0; font-size: 10px; }
  #fault-list, .scrolled, #lanes { max-height: none; overflow: visible; }
  #picture { overflow: visible; }
  #picture svg { max-width: 100%; height: auto; max-height: 125mm; outline: none; }
  .buttons, #search, .filters, #under, #more, #fault-rest button, #facts button, #cards button, footer details { display: none !important; }
  #fault-shown > details:not([open]) { display: none !important; }
}
"#;
