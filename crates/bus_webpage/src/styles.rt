//! How a page looks.

/// The styles of a page, light and dark.
pub const STYLES: &str = r#"<style>
:root {
    --back: #fff; --panel: #f4f5f7; --text: #16181b; --faint: #5a626c; --edge: #c3c9d0;
    --mark: #ffe27a; --mark-edge: #8a6300; --link: #0a52a8; --now: #0b6bcb; --bad: #b00020;
    --badge-back: 88%; --badge-text: 20%; --set: #dcecff;
    font-size: calc(var(--scale, 1) * clamp(15px, 8px + .6vw, 28px));
}
@media (prefers-color-scheme: dark) {
    :root:not([data-theme=light]) {
        --back: #101214; --panel: #1b1e22; --text: #eef0f2; --faint: #a9b1ba; --edge: #454c54;
        --mark: #5c4700; --mark-edge: #ffd24a; --link: #8ec3ff; --now: #6db3ff; --bad: #ff8a95;
        --badge-back: 24%; --badge-text: 88%; --set: #17324f;
    }
}
:root[data-theme=dark] {
    --back: #101214; --panel: #1b1e22; --text: #eef0f2; --faint: #a9b1ba; --edge: #454c54;
    --mark: #5c4700; --mark-edge: #ffd24a; --link: #8ec3ff; --now: #6db3ff; --bad: #ff8a95;
    --badge-back: 24%; --badge-text: 88%; --set: #17324f;
    color-scheme: dark;
}
:root[data-theme=light] { color-scheme: light; }
* { box-sizing: border-box; }
body {
    margin: 0; background: var(--back); color: var(--text);
    font-family: system-ui, "Segoe UI", Roboto, Helvetica, Arial, sans-serif; line-height: 1.35;
}
h1, h2, h3, p { margin: 0; font-size: 1em; }
h2 { font-size: 1.05em; margin-bottom: .3em; }
h3 { font-size: 1em; }
code, .mono { font-family: ui-monospace, "DejaVu Sans Mono", Consolas, Menlo, monospace; }
button, select, input {
    font: inherit; color: inherit; background: var(--back); border: 1px solid var(--edge);
    border-radius: .3em; padding: .15em .5em;
}
button { cursor: pointer; }
button:disabled { opacity: .45; cursor: default; }
:focus-visible { outline: .18em solid var(--now); outline-offset: .1em; }
.faint { color: var(--faint); }
.link {
    border: 0; padding: 0; background: none; color: var(--link); text-decoration: underline;
}
#top {
    display: flex; flex-wrap: wrap; gap: 0 1em; align-items: baseline; padding: .4em .7em 0;
}
#top h1 { font-size: 1.15em; }
#watch { font-weight: 600; }
#top .faint { font-size: .9em; }
dfn { font-style: normal; font-weight: 600; }
a { color: var(--link); }
header {
    display: flex; flex-wrap: wrap; gap: .3em .5em; background: var(--back);
    border-bottom: 1px solid var(--edge); padding: .4em .7em;
}
#settings { flex: 1 1 28em; }
.bar { display: flex; flex-wrap: wrap; gap: .3em .5em; align-items: center; }
.bar label { display: flex; gap: .3em; align-items: center; }
#slider { flex: 1 1 12em; min-width: 8em; padding: 0; }
#jump { width: 6em; }
#place { font-variant-numeric: tabular-nums; font-weight: bold; }
section {
    contain: layout style; background: var(--panel); border-radius: .4em; padding: .45em .6em;
    min-width: 0;
}
main { display: grid; gap: .5em; padding: .5em .7em; }
.column { display: flex; flex-direction: column; gap: .5em; min-width: 0; min-height: 0; }
.scroll { overflow: auto; position: relative; }
#script, #steps, #log { height: 22em; contain: strict; }
@media (max-width: 61.99em) {
    html { scroll-padding-top: 3.2em; }
    body { display: flex; flex-direction: column; }
    header { display: contents; }
    #go {
        position: sticky; top: 0; z-index: 2; background: var(--back); padding: .3em .7em;
        border-bottom: 1px solid var(--edge);
    }
    #go button > span { display: none; }
    #settings { order: 1; flex: none; padding: .4em .7em; }
    #middle { order: -1; }
}
@media (min-width: 62em) {
    body { height: 100vh; display: grid; grid-template-rows: auto auto minmax(0, 1fr); }
    #place { min-width: 8.5em; }
    main {
        grid-template-columns: minmax(14em, 22%) minmax(0, 1fr) minmax(14em, 23%); min-height: 0;
    }
    .column { contain: strict; }
    #middle > section { flex: none; }
    #middle > #step { position: sticky; top: 0; z-index: 1; }
    .grows { flex: 1 1 0; min-height: 5em; display: flex; flex-direction: column; }
    .grows > .scroll { flex: 1 1 0; min-height: 0; }
    #script, #steps, #log { height: auto; }
}
#told { font-size: 1.25em; font-weight: 600; margin: .1em 0; }
#step p { margin-top: .2em; }
#step { min-height: 12em; }
#refused { color: var(--bad); font-weight: bold; }
.badge {
    display: inline-block; border-radius: .3em; padding: 0 .35em; font-weight: bold;
    background: hsl(var(--hue, 0) var(--much, 70%) var(--badge-back));
    color: hsl(var(--hue, 0) var(--much, 70%) var(--badge-text));
    box-shadow: inset 0 0 0 1px hsl(var(--hue, 0) var(--much, 70%) 50%);
}
#processes {
    display: grid; gap: .4em; grid-template-columns: repeat(auto-fill, minmax(10.5em, 1fr));
}
#processes.many { grid-template-columns: repeat(auto-fill, minmax(10.4em, 1fr)); font-size: .9em; }
.card {
    border: .14em solid var(--edge); border-radius: .4em; padding: .3em .45em; min-width: 0;
    background: var(--back); overflow-wrap: anywhere;
}
.card.acts { border-color: var(--mark-edge); background: var(--mark); }
.card.gone { opacity: .75; border-style: dotted; }
.card .top { display: flex; gap: .35em; align-items: center; }
.card .top h3 { flex: 1; overflow-wrap: normal; white-space: nowrap; }
.card .top button { padding: 0 .35em; line-height: 1.2; }
.card .kind { font-weight: bold; }
.card .line-of { display: flex; flex-wrap: wrap; gap: 0 .6em; }
.card .line-of :empty { display: none; }
.many ol { display: none; }
.many .more { white-space: nowrap; overflow: hidden; text-overflow: ellipsis; }
.card .answer { font-family: ui-monospace, "DejaVu Sans Mono", Consolas, Menlo, monospace; }
.card ol { margin: .1em 0 0; padding: 0; list-style: none; }
.card li {
    border-top: 1px dotted var(--edge); white-space: nowrap; overflow: hidden;
    text-overflow: ellipsis;
}
.pair { display: flex; flex-wrap: wrap; gap: .3em .5em; }
.word {
    border: .14em solid var(--edge); border-radius: .3em; padding: .02em .35em;
    background: var(--back); min-width: 0; line-height: 1.3;
}
.word.set { background: var(--set); }
.word.now { background: var(--mark); border-color: var(--mark-edge); }
.word .name { color: var(--faint); font-size: .85em; }
.word .value { color: var(--faint); }
.word.set .value, .word.now .value { color: var(--text); font-weight: 600; }
.acts .faint, .current .faint, .now .faint, .now .name { color: inherit; }
.word .by { font-size: .8em; }
.by .badge { padding: 0 .2em; }
details { border-top: 1px solid var(--edge); padding: .25em 0; }
summary { cursor: pointer; font-weight: bold; }
.wide { overflow-x: auto; }
table { border-collapse: separate; border-spacing: .15em; }
th { text-align: left; font-weight: normal; color: var(--faint); font-size: .85em; }
td.word { height: 1.9em; padding: 0 .3em; white-space: nowrap; }
caption { text-align: left; font-weight: bold; }
#script > div {
    padding: 0 .3em 0 3em; text-indent: -2.7em; white-space: pre-wrap; overflow-wrap: anywhere;
    min-height: 1.35em;
}
#script div[data-line] { cursor: pointer; }
#script .comment { color: var(--faint); }
#script .count {
    color: var(--faint); display: inline-block; text-indent: 0; min-width: 2.4em; font-size: .85em;
}
#script > .fixed { white-space: pre; overflow: hidden; text-overflow: ellipsis; }
.current {
    background: var(--mark); box-shadow: inset .25em 0 var(--mark-edge); color: var(--text);
}
.slip { position: absolute; left: 0; right: 0; }
.line {
    white-space: nowrap; overflow: hidden; text-overflow: ellipsis; padding: 0 .3em; height: 1.6em;
}
.line span { margin-right: .55em; }
#steps .line { cursor: pointer; }
#steps .number { display: inline-block; min-width: 2.6em; text-align: right; }
#log .line {
    font-size: .92em; height: 3.1em; line-height: 1.4; border-bottom: 1px dotted var(--edge);
}
#log .unpublished { border-left: .3em dotted var(--mark-edge); }
#log .line div { overflow: hidden; text-overflow: ellipsis; }
#log .now { background: var(--mark); }
.card.source { border-color: var(--now); border-style: dashed; }
#steps .source { box-shadow: inset .25em 0 var(--now); }
#thread {
    position: fixed; inset: 0; width: 100vw; height: 100vh; pointer-events: none; z-index: 1;
}
#thread path { fill: none; stroke: var(--now); stroke-width: 2.5; opacity: .75; }
#thread circle { fill: var(--now); }
#help { font-size: .85em; }
.hidden { position: absolute; width: 1px; height: 1px; overflow: hidden; clip-path: inset(50%); }
"#;
