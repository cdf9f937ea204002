//! How one goes through a page: the script's last part.

/// Goes from step to step, by keys, buttons, slider, links and fragment.
pub const MOVING: &str = r#"// ---- Going from step to step.

let parts = null;
const [NAME, KIND] = document.title.split(': ');

// What to watch in a page is the comment that its script begins with; where one plays the script
// changes, and the page says what one does.
function watched() {
    const comment = !extra.isGrowing && /^#+ *(.*[^ ])/.exec(page.lines[0] || '');
    return comment ? comment[1] : extra.watched;
}

// A page is named by the first sentence of that.
function pageName() {
    const text = watched();
    return text === extra.watched ? KIND : text.split('. ')[0].replace(/[.:]$/, '');
}

function show() {
    view.marked = null;
    showStep();
    parts.cards.forEach(showCard);
    cells.forEach(showCell);
    openElections();
    parts.elections.forEach(showElection);
    parts.lists.forEach((list) => list.show());
    showControls();
    extra.shows();
    revealMarked();
    drawThread();
}

// The row of words of this step is open, and the one that was opened for an earlier step shuts.
function openElections() {
    const row = view.step ? placeOf(rowAt(view.step).word).row : undefined;
    for (const part of parts.elections) {
        if (part.isFew || row === undefined) continue;
        if (part.row === row && !part.node.open) {
            part.node.open = true;
            part.isOpened = true;
        } else if (part.row !== row && part.isOpened) {
            part.node.open = false;
            part.isOpened = false;
        }
    }
}

function revealMarked() {
    const middle = at('middle');
    if (middle.scrollTop) middle.scrollTop = 0;
    if (!view.marked || !middle.contains(view.marked)) return;
    const top = view.marked.getBoundingClientRect().top - middle.getBoundingClientRect().top;
    if (middle.scrollHeight > middle.clientHeight) {
        const cover = at('step').offsetHeight;
        reveal(middle, top + middle.scrollTop, view.marked.offsetHeight, cover);
    }
}

// The line from whoever stored what was found to the word, where that is another process.
function drawThread() {
    const box = at('thread');
    box.replaceChildren();
    const source = parts.cards.find((one) => one.isSource);
    if (!source || !view.marked) return;
    const from = source.node.getBoundingClientRect();
    const to = view.marked.getBoundingClientRect();
    const limits = at('middle').getBoundingClientRect();
    const top = at('step').getBoundingClientRect().bottom;
    if (from.bottom < top || to.bottom < limits.top || to.top > innerHeight) return;
    const [start, end, bend] = to.top > from.bottom && limits.right > to.left ?
        below(from, to) : beside(from, to);
    const path = drawn('path', {d: `M${start}C${bend} ${end}`});
    box.append(path, drawn('circle', {cx: end[0], cy: end[1], r: 5}));
}

// Where such a line begins and ends, and how it bends: to a word below, and to one beside.
function below(from, to) {
    const start = [from.left + 30, from.bottom];
    const end = [Math.min(to.left + 20, to.right), to.top];
    return [start, end, [start[0], start[1] + 50, end[0], end[1] - 50]];
}

function beside(from, to) {
    const start = [from.right - 20, from.top];
    const end = [to.left, to.top + to.height / 2];
    return [start, end, [start[0], start[1] - 50, end[0] - 60, end[1]]];
}

function drawn(tag, marks) {
    const node = document.createElementNS('http://www.w3.org/2000/svg', tag);
    for (const name of Object.keys(marks)) node.setAttribute(name, marks[name]);
    return node;
}

function showControls() {
    const slider = at('slider');
    slider.max = at('jump').max = total;
    slider.value = view.step;
    slider.setAttribute('aria-valuetext', 'step ' + view.step + ' of ' + total);
    write(at('place'), view.step + ' of ' + total);
    at('first').disabled = at('back').disabled = view.step === 0;
    at('forward').disabled = at('last').disabled = view.step === total;
    document.title = 'Step ' + view.step + ' of ' + total + ', ' + pageName() + ', ' + NAME;
}

// Goes to a step. A link leaves the step behind it in the browser's history.
function go(step, isLink) {
    const wanted = Math.min(total, Math.max(0, Math.floor(step) || 0));
    if (isLink) keepPlace();
    view.step = wanted;
    show();
    if (isLink) history.pushState(history.state, '', '#' + wanted);
    if (!isLink || extra.isGrowing) noteFragment();
}

function fragment() {
    return '#' + view.step + extra.carried();
}

// The fragment holds the step; browsers want it written a few times a second at most. One that has
// a script too is written once there is a pause.
function noteFragment() {
    if (extra.isGrowing) clearTimeout(view.due);
    else if (view.due) return;
    const wait = Math.max(0, 400 - (Date.now() - view.written));
    view.due = setTimeout(keepPlace, extra.isGrowing ? 700 : wait);
}

function keepPlace() {
    clearTimeout(view.due);
    view.due = 0;
    view.written = Date.now();
    if (location.hash !== fragment()) history.replaceState(history.state, '', fragment());
}

function fromFragment() {
    const asked = /^#(\d+)(,|$)/.exec(location.hash);
    return asked ? Math.min(total, +asked[1]) : extra.start();
}

// ---- Playing.
function play(isOn) {
    clearTimeout(view.playing);
    view.playing = 0;
    if (isOn) {
        if (view.step === total) go(0);
        view.playing = setTimeout(playOn, +at('speed').value);
    }
    write(at('play'), isOn ? 'Pause' : 'Play');
    at('play').setAttribute('aria-pressed', String(isOn));
}

function playOn() {
    go(view.step + 1);
    if (view.step < total) view.playing = setTimeout(playOn, +at('speed').value);
    else play(false);
}

// A step by hand ends the play.
function move(step, isLink) {
    if (view.playing) play(false);
    go(step, isLink);
}

// ---- Keys and buttons.
const KEYS = {
    ArrowRight: () => move(view.step + 1),
    ArrowLeft: () => move(view.step - 1),
    Home: () => move(0),
    End: () => move(total),
    PageDown: () => move(view.step + 10),
    PageUp: () => move(view.step - 10),
    ' ': () => play(!view.playing),
    w: () => { if (view.step && view.from) move(view.from, true); },
    g: () => at('jump').select(),
    '+': () => resize(1.1),
    '=': () => resize(1.1),
    '-': () => resize(1 / 1.1),
    d: () => changeTheme(),
};

// In the list of steps also these.
const IN_LIST = {ArrowDown: 'ArrowRight', ArrowUp: 'ArrowLeft'};

function onKey(event) {
    const {target} = event;
    const isTyping = ['SELECT', 'TEXTAREA'].includes(target.tagName) ||
        (target.tagName === 'INPUT' && target.type !== 'range');
    const isPressed = event.key === ' ' && ['BUTTON', 'SUMMARY'].includes(target.tagName);
    if (target.id === 'jump' && event.key === 'Enter') {
        jump();
        target.blur();
    }
    if (isTyping || isPressed || event.ctrlKey || event.metaKey || event.altKey) return;
    const inList = target.id === 'steps' && IN_LIST[event.key];
    const key = inList || (event.key.length === 1 ? event.key.toLowerCase() : event.key);
    const act = KEYS[key];
    if (!act) return;
    event.preventDefault();
    act();
}

function jump() {
    const asked = at('jump').value;
    if (asked !== '' && +asked !== view.step) move(+asked, true);
}

function onClick(event) {
    const link = event.target.closest('[data-step]');
    if (link && link.dataset.step !== '') {
        move(+link.dataset.step, true);
        return;
    }
    const line = event.target.closest('#script [data-line]');
    if (line) move(page.firstOfLine.get(+line.dataset.line), true);
}

function resize(by) {
    view.scale = Math.min(3, Math.max(.5, view.scale * by));
    document.documentElement.style.setProperty('--scale', view.scale);
    measure();
}

function measure() {
    parts.lists.forEach((list) => list.measure());
    show();
}

function isDark() {
    const theme = document.documentElement.dataset.theme;
    return theme ? theme === 'dark' : matchMedia('(prefers-color-scheme: dark)').matches;
}

function changeTheme() {
    document.documentElement.dataset.theme = isDark() ? 'light' : 'dark';
    nameTheme();
}

function nameTheme() {
    write(at('theme'), isDark() ? 'Light' : 'Dark');
}

function follow() {
    extra.follows();
    move(fromFragment());
}

function listen() {
    const on = (id, act) => at(id).addEventListener('click', act);
    on('first', () => move(0));
    on('back', () => move(view.step - 1));
    on('forward', () => move(view.step + 1));
    on('last', () => move(total));
    on('play', () => play(!view.playing));
    on('larger', () => resize(1.1));
    on('smaller', () => resize(1 / 1.1));
    on('theme', changeTheme);
    at('slider').addEventListener('input', () => move(+at('slider').value));
    at('jump').addEventListener('change', jump);
    document.addEventListener('keydown', onKey);
    document.addEventListener('click', onClick);
    window.addEventListener('hashchange', follow);
    window.addEventListener('popstate', follow);
    window.addEventListener('resize', measure);
    document.addEventListener('scroll', drawThread, true);
    matchMedia('(prefers-color-scheme: dark)').addEventListener('change', nameTheme);
}

// Builds anew all that shows the page.
function build() {
    for (const id of ['script', 'steps', 'processes', 'elections', 'shared', 'log']) {
        at(id).replaceChildren();
    }
    cells.length = 0;
    sharedWords();
    const cards = [...page.processes.values()].map(card);
    cards.forEach((one) => at('processes').append(one.node));
    at('processes').classList.toggle('many', cards.length > 4);
    const lists = [scriptList(), stepsList(), logList()];
    parts = {cards, elections: growElections([]), lists};
}

function begin() {
    extra.opens();
    view.step = fromFragment();
    listen();
    nameTheme();
    write(at('watch'), watched());
    show();
}
"#;
