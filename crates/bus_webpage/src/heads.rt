//! What a web page begins with, what stands between its parts, and what it ends with.

/// The head of a page, before its title.
pub const HEAD: &str = r#"<!doctype html>
<html lang="en">
<head>
<meta charset="utf-8">
<meta name="viewport" content="width=device-width, initial-scale=1">
<meta name="color-scheme" content="light dark">
<meta http-equiv="Content-Security-Policy"
content="default-src 'none'; img-src data:; style-src 'unsafe-inline'; script-src 'unsafe-inline'">
<link rel="icon" href="data:,">
"#;

/// The title of a page that steps.
pub const TITLE: &str = r#"<title>Kioskbasil: steps of a bus</title>
"#;

/// What stands between the styles and the ways to go through the steps.
pub const BODY: &str = r#"</style>
</head>
<body>
<div id="top">
<h1>Kioskbasil: the steps of a bus</h1>
<p id="watch"></p>
<p class="faint">A <dfn>tenure</dfn> is one turn at appending to the log, whose owner the senders
elect. A <dfn>row</dfn> is the words over which they elect it. A step is on one word.</p>
</div>
<header>
<div class="bar" id="go" role="toolbar" aria-label="Go through the steps">
<button id="first" aria-label="First" title="First: Home">|&#9664;</button>
<button id="back" aria-label="Back" title="Left arrow">&#9664;<span> Back</span></button>
<button id="forward" aria-label="Forward" title="Right arrow"><span>Forward </span>&#9654;</button>
<button id="last" aria-label="Last" title="Last: End">&#9654;|</button>
<button id="play" title="Space" aria-pressed="false">Play</button>
<span id="place"></span>
</div>
<div class="bar" id="settings" role="group" aria-label="Speed, place and looks">
<select id="speed" aria-label="Speed">
<option value="2000">0.5 a second</option>
<option value="1000" selected>1 a second</option>
<option value="500">2 a second</option>
<option value="200">5 a second</option>
<option value="50">20 a second</option>
</select>
<input id="slider" type="range" min="0" step="1" value="0" aria-label="Step">
<label>step <input id="jump" type="number" min="0" step="1"></label>
<button id="smaller" aria-label="Smaller text" title="-">A-</button>
<button id="larger" aria-label="Larger text" title="+">A+</button>
<button id="theme" aria-label="Light or dark" title="D">Dark</button>
</div>
"#;

/// The end of the header, and where the columns begin.
pub const MAIN: &str = r#"</header>
<main>
<div class="column">
"#;

/// The columns of a page, up to the bytes of the script.
pub const COLUMNS: &str = r#"<section class="grows" aria-labelledby="script-title">
<h2 id="script-title">Script</h2>
<div id="script" class="scroll mono" tabindex="0" role="list"
aria-labelledby="script-title"></div>
</section>
<section class="grows" aria-labelledby="steps-title">
<h2 id="steps-title">Steps</h2>
<div id="steps" class="scroll mono" tabindex="0" role="listbox"
aria-labelledby="steps-title"></div>
</section>
</div>
<div class="column scroll" id="middle">
<section id="step" aria-labelledby="where">
<h2 id="where"></h2>
<div aria-live="polite" aria-atomic="true">
<p id="told"></p>
<p id="means"></p>
</div>
<p id="from"></p>
<p id="why" class="faint"></p>
<p id="answer"></p>
<p id="numbers" class="faint mono"></p>
<p id="refused"></p>
</section>
<section aria-labelledby="processes-title">
<h2 id="processes-title">Processes</h2>
<div id="processes"></div>
</section>
<section aria-labelledby="elections-title">
<h2 id="elections-title">Words of the elections</h2>
<div id="elections"></div>
</section>
</div>
<div class="column">
<section aria-labelledby="shared-title">
<h2 id="shared-title">Words of the bus</h2>
<div id="shared" class="pair"></div>
</section>
<section class="grows" aria-labelledby="log-title">
<h2 id="log-title">Log</h2>
<div id="log" class="scroll" tabindex="0" role="list" aria-labelledby="log-title"></div>
</section>
<section id="help" class="faint" aria-label="Keys">
Left and right arrow, Home, End: steps. Page Up, Page Down: ten steps. Space: play. W: who stored
what was found. G: to a number. Plus, minus: size. D: dark or light.
</section>
</div>
</main>
<svg id="thread" aria-hidden="true"></svg>
<noscript>This page shows its steps by a script, and scripts are off.</noscript>
<script type="text/plain" id="script-bytes">"#;

/// What stands between the bytes of the script and the rows.
pub const BETWEEN: &str = r#"</script>
<script type="text/plain" id="rows">"#;

/// What stands between the rows and the page's own script.
pub const BEHIND: &str = r#"</script>
<script>
"#;

/// The end of a page, and of its script, which begins there.
pub const END: &str = r#"
begin();
</script>
</body>
</html>
"#;
