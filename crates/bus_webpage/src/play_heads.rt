//! What a page on which one plays has besides: its title, its styles, and the parts with which one
//! plays.

/// The title of a page on which one plays.
pub const PLAY_TITLE: &str = r#"<title>Kioskbasil: play a bus</title>
"#;

/// The styles of these parts. Where there is little room, one row of buttons stays in sight at the
/// lower edge, and the page goes on so far that it hides nothing.
pub const PLAY_STYLES: &str = r#"#playing {
    flex: 1 1 100%; display: flex; flex-wrap: wrap; gap: .3em .5em; align-items: center;
}
#next { flex: 1 1 30em; }
#turns {
    display: flex; flex-wrap: wrap; gap: .3em; flex: 1 1 16em; max-height: 6.4em; overflow: auto;
    padding: .15em;
}
#turns .both { display: flex; gap: .1em; width: 13em; height: 2.75em; contain: strict; }
#turns button {
    flex: 1 1 0; min-width: 0; text-align: left; line-height: 1.25; padding: .1em .4em;
    overflow: hidden; white-space: nowrap; text-overflow: ellipsis;
}
#turns button[aria-disabled=true] { opacity: .55; border-style: dotted; }
#turns .on {
    display: block; font-size: .82em; color: var(--faint); overflow: hidden;
    text-overflow: ellipsis;
}
#times, .small { width: 5.2em; }
#says { min-height: 1.35em; flex: 1 1 100%; }
#game > * + * { margin-top: .35em; }
#game input[type=text] { flex: 1 1 5em; min-width: 4em; width: 5em; }
#game label { min-width: 0; }
#opening { min-width: 0; width: 100%; }
#question { font-weight: 600; }
#text { font: inherit; width: 100%; color: inherit; background: var(--back); }
#agrees.bad { color: var(--bad); font-weight: bold; }
@media (min-width: 62em) {
    main > .column:first-child { overflow: auto; }
    #game { flex: none; }
}
@media (max-width: 61.99em) {
    html { scroll-padding-bottom: 7em; }
    body { gap: .5em; padding-bottom: 7em; }
    main, main > .column, #playing { display: contents; }
    section, #says, #votes-due { margin: 0 .7em; }
    #top, #go { order: -6; }
    #middle > #step { order: -5; }
    #says { order: -4; flex: none; min-height: 0; }
    #votes-due { order: -3; }
    #game { order: -2; }
    #middle > section { order: -1; }
    #next {
        position: fixed; left: 0; right: 0; bottom: 0; z-index: 3; background: var(--back);
        border-top: 1px solid var(--edge); padding: .3em .6em;
    }
    #turns { flex-basis: 100%; flex-wrap: nowrap; max-height: none; }
    #turns .both { flex: none; width: calc((100% - .6em) / 3); height: 3.4em; }
    #turns button { font-size: .85em; padding: .1em .3em; }
    #turns .on { white-space: normal; line-height: 1.1; }
    #turns [data-vote] .badge { display: none; }
    #thread { display: none; }
}
"#;

/// Whose step is next, at the end of the header.
pub const TURNS: &str = r#"<div id="playing">
<div class="bar" id="next">
<strong id="turns-title">Whose step is next?</strong>
<div id="turns" role="group" aria-labelledby="turns-title"></div>
</div>
<div class="bar" id="votes-due">
<label>turns a click <input id="times" type="number" min="1" max="10000" value="1"></label>
<label>votes in these turns <select id="votes"><option value="0">tails</option>
<option value="1">heads</option></select></label>
</div>
<p id="says" role="status"></p>
</div>
"#;

/// The first part of the left column: openings, calls, another bus, and the script as text.
pub const GAME: &str = r#"<section id="game" aria-labelledby="game-title">
<h2 id="game-title">You are the adversary</h2>
<div class="bar"><label>Opening <select id="opening"></select></label>
<button id="anew">Begin it anew</button></div>
<p id="question"></p>
<details id="answer-fold"><summary>Can it be done?</summary><p id="can"></p></details>
<div class="bar" role="group" aria-label="Calls">
<label>Sender <select id="whom"></select></label>
<input id="message" type="text" value="hello" aria-label="Message" title="P">
<button id="put">Put</button>
<button id="close">Close</button>
<button id="leave">Leave</button>
<button id="stop">Stop</button>
<label>Receiver <select id="which"></select></label>
<button id="gone">Leave for good</button>
<button id="fork">Fork</button>
<label>to seat <select id="free"></select></label>
</div>
<details id="new-fold"><summary>A new bus</summary>
<div class="bar">
<select id="rows-kind" aria-label="Kind of bus"><option value="shape">a row for each tenure</option>
<option value="cycle">rows used again</option>
<option value="ring">a ring: log words too</option></select>
<label>senders <input id="size-0" class="small" type="number" min="1" max="64" value="2"></label>
<label>receivers <input id="size-1" class="small" type="number" min="1" max="64" value="1"></label>
<label>rounds <input id="size-2" class="small" type="number" min="1" max="8" value="2"></label>
<label>rows <input id="size-3" class="small" type="number" min="1" max="256" value="4"></label>
<label>log words <input id="size-4" class="small" type="number" min="16" max="65536"
value="64"></label>
<label>seats of a ring <input id="size-5" class="small" type="number" min="1" max="64"></label>
<label>messages of a batch of a ring
<input id="size-6" class="small" type="number" min="1" max="64"></label>
<button id="new">Begin</button>
</div>
</details>
<details id="text-fold"><summary>The script, to copy or to paste</summary>
<textarea id="text" rows="5" spellcheck="false" class="mono" aria-label="Script"></textarea>
<div class="bar">
<button id="copy">Copy the script</button>
<button id="read">Play this text</button>
<button id="link">Copy a link to this</button>
</div>
<p class="faint">The proved program plays the same script: <code>bus replay</code>,
<code>bus trace</code>.</p>
</details>
<details id="about"><summary>What plays here, and its keys</summary>
<p>An interpreter in JavaScript, written from <code>docs/PROTOCOL.md</code>. It is not proved. The
program <code>bus</code> is, and both were given the same scripts: <code>bench/pages</code> plays
10,000 random ones by both, and wants the same lines of each.</p>
<p id="agrees"></p>
<p class="faint">0 to 9: a turn of that sender, with Shift its votes are heads. R: a turn of
receiver 0. P: to the message. Tab goes to all the rest. The arrow keys go back and on; a turn from
an earlier step is another way from there, and the browser's back finds the one before.</p>
</details>
</section>
"#;

/// What stands between the rows and the first script.
pub const FIRST_HEAD: &str = r#"</script>
<script type="text/plain" id="first-script">"#;

/// What stands between the first script and the interpreter.
pub const INTERPRETER_HEAD: &str = r#"</script>
<script id="interpreter">
"#;
