//! The static markup of the page, in pieces.
//!
//! A page is, in this order: `OPENING`, `STYLE`, `BODY`, the history, `BEFORE_REPORT`, the report, `BEFORE_NAMES`, the names,
//! `BEFORE_LINES`, the lines, `BEFORE_NOTES`, the notes, `BEFORE_WORDS`, the words, `BEFORE_MORE`, how many more reads there are,
//! `BEFORE_LIST`, the list, `BEFORE_PICTURE`, the picture, `BEFORE_SCRIPT`, `SCRIPT`, `ZOOMING`, `DRAWING`, `ENDING`. The first five
//! texts between them are JSON in which each `<` is written as `\u003c`. The words and the list are text in which each `<` and each `&` is
//! written as its entity. The picture is an SVG element as it is.
//!
//! The elements of `BODY` are hidden, and have no text of an input: the script shows them, and makes all further elements. The element
//! `said` has the words, the list and the picture. The script removes it as it begins to draw, so it is seen wherever no script runs. The
//! policy in `OPENING` lets in the one style and the one script, by the hashes of `hashes.rt`, and nothing else.

/// The beginning of a page, up to the style.
pub const OPENING: &str = r#"<!DOCTYPE html>
<html lang="en" dir="ltr">
<head>
<meta charset="utf-8">
<meta http-equiv="Content-Security-Policy" content="default-src 'none'; base-uri 'none'; form-action 'none';
script-src 'sha256-bGKjQAizgU4VDTx9pfxzhsNpv8bHNHVrUUs6/h4/tEk=';
style-src 'sha256-W+adrpk4AgFw85phCFghPqkK0vN5PCysVzyjCRaoJng='">
<meta name="viewport" content="width=device-width, initial-scale=1">
<meta name="referrer" content="no-referrer">
<meta name="generator" content="causal_judge">
<title>causal_judge</title>
<style>"#;

/// What follows the style: the empty elements that the script fills and shows, up to the history.
pub const BODY: &str = r#"</style>
</head>
<body>
<div id="live" hidden>
<a class="skip" href='#run'>Skip to the whole run</a>
<a class="skip" href='#operations'>Skip to the operations</a>
<header>
<p class="maker"><code id="mono">causal_judge explain</code></p>
<div id="verdict"><h1 id="headline">Reading the history</h1><p id="lead"></p><ul id="facts"></ul></div>
<ul id="cards" aria-label="The three criteria"></ul>
</header>
<main>
<div id="evidence">
<section class="panel" id="fault" aria-labelledby="fault-title" hidden>
<div class="row"><h2 id="fault-title" tabindex="-1" aria-live="polite"></h2>
<span class="buttons" id="picture-buttons"><button type="button" id="picture-closer" aria-label="Zoom into the picture">+</button>
<button type="button" id="picture-wider" aria-label="Zoom out of the picture">&#8722;</button>
<button type="button" id="picture-all" aria-label="All of the picture">All</button></span></div>
<p id="fault-words"></p>
<div id="fault-shown"><div id="shape"><div id="picture" tabindex="0" role="group" aria-label="The picture of the fault. Plus and minus
zoom, arrow keys move it, Home shows all of it."></div><ul class="legend" id="legend"></ul></div>
<details id="words"><summary id="words-head">The same in words</summary><ul id="word-lines"></ul></details></div>
</section>
<section class="panel" id="faults" aria-labelledby="faults-title" hidden>
<div class="row"><h2 id="faults-title" aria-live="polite"></h2>
<span class="buttons"><button type="button" id="earlier" aria-label="Previous fault">&#8593;</button>
<button type="button" id="later" aria-label="Next fault">&#8595;</button></span></div>
<div class="filters"><select id="of-client" aria-label="Show the faults of one client"></select>
<select id="of-key" aria-label="Show the faults of one key"></select>
<select id="of-kind" aria-label="Show the faults of one kind"></select></div>
<ol id="fault-list"></ol><p id="fault-rest"></p>
</section>
</div>
<section class="panel" id="run" aria-labelledby="run-title">
<div class="row"><h2 id="run-title">The whole run</h2>
<span class="buttons"><button type="button" id="run-closer" aria-label="Zoom into the run">+</button>
<button type="button" id="run-wider" aria-label="Zoom out of the run">&#8722;</button>
<button type="button" id="run-all" aria-label="All of the run">All</button></span></div>
<div id="lanes"><canvas id="map" tabindex="0" role="application" aria-describedby="under" aria-label="A row for each session,
its operations from left to right. Arrow keys go to the next operation, plus and minus zoom, Enter lists what is there."></canvas></div>
<div class="row soft"><span id="range"></span><ul class="legend" id="map-legend"></ul></div>
<p id="under" aria-live="polite"></p>
</section>
<section class="panel" id="operations" aria-labelledby="operations-title">
<div class="row"><h2 id="operations-title" aria-live="polite">Operations</h2>
<input id="search" type="search" autocomplete="off" spellcheck="false" aria-label="Search operations"></div>
<div class="scrolled" id="table"><table><thead><tr id="columns"></tr></thead><tbody id="rows"></tbody></table></div>
<p id="more"></p>
</section>
</main>
<footer class="soft">
<p id="caution"></p>
<details><summary>Keys</summary><ul class="keys">
<li><kbd>n</kbd> <kbd>p</kbd> next and previous fault</li><li><kbd>&#8593;</kbd> <kbd>&#8595;</kbd> in the list: another fault</li>
<li><kbd>/</kbd> search, <kbd>Esc</kbd> ends it</li>
<li>in the picture and the run: arrows move, <kbd>+</kbd> <kbd>-</kbd> zoom, <kbd>Home</kbd> shows all</li>
<li>in the run: <kbd>Enter</kbd> lists what is around an operation</li>
<li>by mouse: a drag moves, <kbd>Ctrl</kbd> with the wheel zooms, and a double click zooms in</li></ul></details>
</footer>
</div>
<script type="application/json" id="history">"#;

/// Between the history and the report.
pub const BEFORE_REPORT: &str = r#"</script>
<script type="application/json" id="report">"#;

/// Between the report and the names.
pub const BEFORE_NAMES: &str = r#"</script>
<script type="application/json" id="names">"#;

/// Between the names and the lines.
pub const BEFORE_LINES: &str = r#"</script>
<script type="application/json" id="lines">"#;

/// Between the lines and the notes.
pub const BEFORE_NOTES: &str = r#"</script>
<script type="application/json" id="notes">"#;

/// Between the notes and the words.
pub const BEFORE_WORDS: &str = r#"</script>
<div id="said">
<p class="maker"><code>causal_judge explain</code></p>
<section class="panel"><h1>What was found</h1>
<pre>"#;

/// The most reads that the list names.
pub const MOST_SAID: u32 = 300;

/// Between the words and how many more reads there are. It says how many reads the list names at most.
pub const BEFORE_MORE: &str = r#"</pre></section>
<section class="panel"><h2>Reads that show a fault</h2>
<p class="soft">At most 300 of them are listed here"#;

/// Between that and the list.
pub const BEFORE_LIST: &str = r#". The counts before the list are those of all.</p>
<pre>"#;

/// Between the list and the picture.
pub const BEFORE_PICTURE: &str = r#"</pre></section>
<section class="panel"><h2>The picture</h2>
<div class="drawn">"#;

/// Between the picture and the script.
pub const BEFORE_SCRIPT: &str = r#"</div></section>
<p class="soft">No script has run here. Where the script of this page runs, the page shows each fault with its picture, the whole run, and a
search.</p>
</div>
<script>"#;

/// The end of a page.
pub const ENDING: &str = r#"</script>
</body>
</html>
"#;
