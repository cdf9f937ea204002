//! How one plays: the last part of the script of a page on which one plays.

/// Lets the script grow by a line for each click, and plays it by the interpreter.
pub const PLAYING: &str =
    r#"// ---- Playing: the script grows by a line for each click, and the interpreter plays it.

// How many bytes a script has at most, and how many characters of it an address carries.
const MOST_BYTES = 1048576;
const MOST_CARRIED = 60000;
const printed = {lines: page.lines, text: page.lines.join('\n'), rows: textOf('rows')};
const playing = {game: null, past: null, turns: [], ways: new Map(), way: ''};

// Why something cannot be done, by what is promised (docs/PROOF.md or CLAIMS.md has each).
const FORBIDS = {
    Gone: 'Nobody has that seat: its receiver has left for good, or none has taken it yet.',
    NotAbove: 'A receiver forks to a seat above its own. Owners load passed places upwards, so ' +
        'one that joins below might be missed.',
    Stopped: 'A stop is for good. No later event of that sender is answered, and nobody takes ' +
        'its steps (stops_are_for_good).',
    Closed: 'It has closed or left, or the order has ended. Nothing follows the end (silent), ' +
        'and nothing of a sender follows its leave mark (gone).',
    Busy: 'It is in a tenure with a batch, which is its frame. The order has the first messages ' +
        'that it put, none skipped (faithful), so it takes another once that tenure has ended ' +
        'for it.',
    Pending: 'Messages wait at it. Whoever has left has all in the order that it put (whole), ' +
        'and the frame of the end has no message (framed).',
    TooLong: 'A message has at most 56 bytes.',
    BatchFull: 'A batch has at most as many messages as its bus says, which are one frame.',
    NoSuchSender: 'There is no such sender.',
    NoSuchReceiver: 'There is no such receiver.',
    Senders: 'A bus has 1 to 64 senders.',
    Receivers: 'A bus has 1 to 64 receivers.',
    Rounds: 'A bus has 1 to 8 rounds for each bit.',
    Rows: 'A bus has 1 to 256 rows, or 2 to 8 that are used again.',
    LogWords: 'A log has 16 to 65,536 words.',
    Seats: 'A ring has no fewer seats than receivers, and at most 64.',
    Batch: 'A batch of a ring has 1 to 64 messages.',
    BadLine: 'That is no line of a script; docs/FORMATS.md has their forms.',
};

// What an answer means for what can still be done.
const FOLLOWS = {
    lost: 'It cannot own this tenure: each has at most one owner, and all see its election end ' +
        'alike (one_owner).',
    waiting: 'It cannot enter a tenure now: the page is out, or the open tenure is over for it.',
    behind: 'It cannot open the next tenure: somebody is shown in the one whose row it would ' +
        'clear, and no row is cleared under a sender (rows_are_safe).',
    full: 'Its frame does not fit in the log. Its batch is kept, and nothing of it is in the ' +
        'order. In a ring it fits once all receivers have passed what it would overwrite.',
    gone: 'Nobody waits for it any more: what it has not heard may be overwritten.',
    forked: 'The new receiver is given from here on what its maker will be given.',
    no: 'A receiver joins at a seat that nobody has.',
    spent: 'No tenure is left for it.',
    idle: 'Nothing waits to be sent: put it a message.',
    empty: 'Nothing more is published.',
    closed: 'It sends nothing more: it has closed or left, or the order has ended (silent).',
    left: 'It has left, and all that it put is in the order (whole).',
    own: 'No other sender can own this tenure (one_owner), and its page is taken once ' +
        '(took_once).',
    delivered: 'Its messages are in the order, as it put them (faithful).',
    end: 'After the end a receiver is answered the end alone (silent).',
};

function say(text) {
    write(at('says'), text);
}

function saysWhy(refusal) {
    const name = refusal.split(': ')[1];
    say(name + '. ' + (FORBIDS[name] || ''));
}

// ---- The script, and the game that it makes.
function load(lines) {
    playing.game = gameOf(lines);
    readGame(lines.slice());
    build();
    buildTurns();
    say(playing.game.refusal ? playing.game.refusal : '');
    if (playing.game.refusal) saysWhy(playing.game.refusal);
}

// The page of the game as it stands.
function readGame(lines) {
    const {game} = playing;
    page = pageOf(lines, game.bus !== null, game.refusal);
    game.rows.forEach((row) => noteRow(page, row));
    total = page.rows.length;
    Object.assign(view, {step: Math.min(view.step, total), from: 0});
    playing.past = null;
}

function loadText(text) {
    load(linesOf(text.replace(/[\ud800-\udfff]/g, '\ufffd')));
    go(total);
}

// The script up to the step that is shown: a line of many turns is cut among them.
function linesUpTo(step) {
    if (step >= total) {
        const refused = /^line (\d+): /.exec(page.refusal);
        return refused ? page.lines.slice(0, +refused[1] - 1) : page.lines.slice();
    }
    const number = step ? +rowAt(step).line : +rowAt(1).line - 1;
    const lines = page.lines.slice(0, number);
    const [word, ...rest] = step ? lines[number - 1].split(' ') : [''];
    if (word === 'turn' || word === 'recv') {
        rest[rest.length - 1] = step - page.firstOfLine.get(number) + 1;
        lines[number - 1] = [word, ...rest].join(' ');
    }
    return lines;
}

// The game at the step that is shown.
function gameNow() {
    if (view.step >= total && !page.refusal) return playing.game;
    if (!playing.past || playing.past.step !== view.step) {
        playing.past = {step: view.step, game: gameOf(linesUpTo(view.step))};
    }
    return playing.past.game;
}

// The script ends at the step that is shown. What was behind it goes, and the browser's back
// finds it.
function cutBack() {
    if (view.step >= total && !page.refusal) return false;
    const lines = linesUpTo(view.step);
    leaveWay();
    playing.game = gameNow();
    readGame(lines);
    const all = [...cells, ...parts.elections.flatMap((part) => part.cells)];
    all.forEach((one) => { one.step = -1; });
    parts.cards.forEach((one) => { one.count = undefined; });
    parts.lists.forEach((list) => list.forget());
    return true;
}

// Plays a line behind the step that is shown.
function take(line) {
    const isCut = cutBack();
    const {game} = playing;
    const before = game.rows.length;
    playLine(game, line);
    page.lines.push(line);
    game.rows.slice(before).forEach((row) => noteRow(page, row));
    total = page.rows.length;
    growElections(parts.elections);
    say(FOLLOWS[rowAt(total).answer.split(' ')[0]] || '');
    if (isCut) beginWay();
    move(total);
}

// A call is played only where it is not refused.
function call(line) {
    const {refusal} = gameOf([...linesUpTo(view.step), line]);
    if (refusal) saysWhy(refusal); else take(line);
}

// ---- Whose step is next: a button for each process, and two where a coin is asked.
function buildTurns() {
    at('turns').replaceChildren();
    const {bus} = playing.game;
    playing.turns = bus ? [...bus.senders, ...bus.receivers].map(turnOf) : [];
    const choices = bus ? bus.senders.map((s) => made('option', '', s.number)) : [];
    const asked = at('whom').value;
    at('whom').replaceChildren(...choices);
    if (choices.some((one) => one.value === asked)) at('whom').value = asked;
    const receivers = bus ? bus.receivers : [];
    for (const name of ['which', 'free']) {
        at(name).replaceChildren(...receivers.map((r) => made('option', '', r.number)));
    }
    at('free').selectedIndex = Math.max(0, receivers.findIndex((r) => r.isGone));
}

function turnOf({seat, number}) {
    const who = seat + ' ' + number;
    const group = at('turns').appendChild(made('span', 'both'));
    const part = {seat, number, buttons: [turnButton(who), turnButton(who)]};
    part.buttons.forEach((button, vote) => {
        group.append(button.node);
        button.node.addEventListener('click', () => turn(part, vote));
    });
    part.buttons[1].node.dataset.vote = 1;
    return part;
}

function turnButton(who) {
    const node = made('button');
    node.dataset.who = who;
    node.append(badge(who), ' ');
    return {node, kind: node.appendChild(made('span')), on: node.appendChild(made('span', 'on'))};
}

function processAt({seat, number}) {
    const {bus} = gameNow();
    return seat === 'sender' ? bus.senders[number] : bus.receivers[number];
}

// So many turns of a process. Where a vote is due the button says which one.
function turn(part, vote) {
    const process = processAt(part);
    if (process.isStopped || process.isGone) {
        saysWhy(process.isGone ? ': Gone' : ': Stopped');
        return;
    }
    const times = Math.min(10000, Math.max(1, Math.floor(at('times').value) || 1));
    const isVote = kindDue(gameNow().bus, process) === 'Vote';
    const random = isVote || vote ? vote : at('votes').value;
    take(part.seat === 'sender' ? 'turn ' + part.number + ' ' + random + ' ' + times :
        'recv ' + part.number + ' ' + times);
}

function showTurns() {
    for (const part of playing.turns) {
        const process = processAt(part);
        const due = stepDue(gameNow().bus, process, 0);
        const isOver = Boolean(process.isStopped || process.isGone);
        const isVote = due.kind === 'Vote' && !isOver;
        const [first, second] = part.buttons;
        first.node.setAttribute('aria-disabled', String(isOver));
        const over = process.isGone ? 'nobody' : 'stopped';
        write(first.kind, isOver ? over : isVote ? 'tails' : saidKind(due));
        write(first.on, saidDue(process, due));
        if (second.node.hidden !== !isVote) second.node.hidden = !isVote;
        write(second.kind, 'heads');
        write(second.on, saidDue(process, due));
        for (const {node, on} of part.buttons) node.title = saidKind(due) + ': ' + on.textContent;
    }
}

// The word that a step is on; of a turn without a step the answer.
function saidDue(process, due) {
    if (process.isGone) return 'a free seat';
    if (process.isStopped) return 'for good';
    if (due.word !== '-') return named(page, placeOf(due.word));
    return process.hasEnded ? 'end' : answerAtRest(gameNow().bus, process);
}

// ---- The address: behind the step it has the script, where that is not the one of this page.
function carried() {
    const script = page.lines.join('\n');
    if (script === printed.text) return '';
    try {
        const text = encodeURIComponent(script).replace(/\./g, '%2E')
            .replace(/~/g, '%7E').replace(/%20/g, '.').replace(/%0A/g, '~');
        return text.length > MOST_CARRIED ? '' : ',' + text;
    } catch (error) {
        return '';
    }
}

// The lines that the address carries; those of this page where it carries none.
function addressed() {
    const asked = /^#\d+,(.*)$/.exec(location.hash);
    if (!asked) return printed.lines;
    try {
        return linesOf(decodeURIComponent(asked[1].replace(/~/g, '%0A').replace(/\./g, '%20')));
    } catch (error) {
        return printed.lines;
    }
}

// Scripts that were left: the browser's history has their names, which are of this visit alone.
function leaveWay() {
    playing.ways.set(playing.way, page.lines);
    history.replaceState({way: playing.way}, '', '#' + view.step);
}

function newWay() {
    playing.way = performance.timeOrigin + ' ' + playing.ways.size;
}

function beginWay() {
    newWay();
    history.pushState({way: playing.way}, '', '#' + total);
}

function followAddress() {
    const asked = history.state ? history.state.way : '';
    const lines = playing.ways.get(asked) || addressed();
    if (asked === playing.way || lines.join('\n') === page.lines.join('\n')) return;
    playing.ways.set(playing.way, page.lines);
    if (playing.ways.has(asked)) playing.way = asked; else newWay();
    findOpening(lines);
    load(lines);
}

// ---- Openings, calls, another bus, and the script as text.
function showOpening() {
    const opening = OPENINGS[at('opening').value];
    at('question').hidden = at('answer-fold').hidden = !opening;
    at('answer-fold').open = false;
    write(at('question'), opening ? opening.question : '');
    write(at('can'), opening ? opening.can : '');
    if (opening) return linesOf(opening.script);
    return at('opening').value ? printed.lines : linesUpTo(0);
}

// What one has made oneself is no opening, and has no question.
function leaveOpening() {
    at('opening').selectedIndex = -1;
    showOpening();
}

function beginAnew() {
    at('times').value = 1;
    leaveWay();
    load(showOpening());
    beginWay();
    move(total);
}

// The openings, and the script of this page where it is none of them.
function listOpenings(lines) {
    const text = lines.join('\n');
    const place = OPENINGS.findIndex((one) => linesOf(one.script).join('\n') === text);
    OPENINGS.forEach((one, number) => {
        at('opening').append(new Option(one.name, number));
    });
    if (place < 0) at('opening').prepend(new Option('the script of this page', -1));
    at('opening').value = place;
    showOpening();
}

// The opening that a script went on from: none where it is of one's own.
function findOpening(lines) {
    const begins = (script) => script.every((line, number) => lines[number] === line);
    const place = OPENINGS.findIndex((one) => begins(linesOf(one.script)));
    at('opening').value = place < 0 && !begins(printed.lines) ? '' : place;
    showOpening();
}

function hexOf(text) {
    const bytes = [...new TextEncoder().encode(text)];
    return bytes.map((byte) => byte.toString(16).padStart(2, '0')).join('') || '-';
}

function callOf(name, of, message) {
    if (!playing.game.bus) say('There is no bus: begin another, or play another script.');
    else call(name + ' ' + at(of).value + (message === undefined ? '' : ' ' + message));
}

function newBusOf() {
    const kind = at('rows-kind').value;
    const sizes = [0, 1, 2, 3, 4].map((place) => at('size-' + place).value);
    const [seats, most] = [at('size-5').value, at('size-6').value];
    if (kind === 'ring' && (seats || most)) sizes.push(seats || sizes[1]);
    if (kind === 'ring' && most) sizes.push(most);
    const line = kind + ' ' + sizes.join(' ');
    const {refusal} = gameOf([line]);
    if (refusal) {
        saysWhy(refusal);
        return;
    }
    leaveWay();
    leaveOpening();
    load([line]);
    beginWay();
    move(0);
}

function readText() {
    const {value} = at('text');
    if (new TextEncoder().encode(value).length > MOST_BYTES) {
        say('input too long: a script has at most 1,048,576 bytes');
        return;
    }
    leaveWay();
    leaveOpening();
    loadText(value);
    beginWay();
}

// To the clipboard, where the browser lets it; it stands in the field in any case.
function copy(text) {
    at('text').value = text;
    at('text').select();
    const kept = navigator.clipboard && navigator.clipboard.writeText(text);
    if (kept) kept.then(() => say('Copied.'), () => say('It stands in the field, to be copied.'));
    else say('It stands in the field, to be copied.');
}

function copyLink() {
    const way = carried();
    if (!way && page.lines.join('\n') !== printed.text) {
        say('The script is too long for a link: copy it as text.');
        return;
    }
    copy(location.href.replace(/#.*$/s, '') + '#' + view.step + way);
}

// ---- Keys of their own: a digit is a turn of that sender, with Shift for heads.
function onPlayKey(event) {
    const {target} = event;
    const puts = target.id === 'message' && event.key === 'Enter';
    if (puts) callOf('put', 'whom', hexOf(target.value));
    const isField = ['INPUT', 'SELECT', 'TEXTAREA'].includes(target.tagName);
    const isTyping = isField && target.type !== 'range';
    if (isTyping || event.ctrlKey || event.metaKey || event.altKey) return;
    // With Shift a digit has another key, but the same place on the keyboard.
    const digit = /^[0-9]$/.test(event.key) ? event.key : (/^Digit(\d)$/.exec(event.code) || [])[1];
    const key = event.key.toLowerCase();
    const who = digit ? 'sender ' + digit : key === 'r' ? 'receiver 0' : '';
    const part = playing.turns.find((one) => one.seat + ' ' + one.number === who);
    if (part) turn(part, event.shiftKey && digit ? 1 : 0);
    if (key !== 'p') return;
    event.preventDefault();
    at('message').select();
}

function listenToPlay() {
    const on = (id, act) => at(id).addEventListener('click', act);
    on('put', () => callOf('put', 'whom', hexOf(at('message').value)));
    for (const name of ['close', 'leave', 'stop']) on(name, () => callOf(name, 'whom'));
    on('gone', () => callOf('gone', 'which'));
    on('fork', () => callOf('fork', 'which', at('free').value));
    on('anew', beginAnew);
    on('new', newBusOf);
    on('read', readText);
    on('copy', () => copy(page.lines.join('\n') + '\n'));
    on('link', copyLink);
    at('opening').addEventListener('change', beginAnew);
    document.addEventListener('keydown', onPlayKey);
}

// The lines of the program stand in this page for its own script; the interpreter gives its own.
function compareRows() {
    const isSame = traceOf(printed.lines.join('\n') + '\n') === printed.rows;
    write(at('agrees'), isSame ? 'For the script of this page the lines of the program stand in ' +
        'it, and the interpreter has given the same.' : 'The interpreter does not give the lines ' +
        'that the program gives for the script of this page.');
    at('agrees').classList.toggle('bad', !isSame);
}

function openPlay() {
    listOpenings(printed.lines);
    listenToPlay();
    compareRows();
    newWay();
    const lines = addressed();
    if (lines !== printed.lines) findOpening(lines);
    load(lines);
}

Object.assign(extra, {
    isGrowing: true, carried, follows: followAddress, opens: openPlay, start: () => total,
    shows: showTurns,
    watched: 'You are the adversary: choose whose step is next, and try to make two owners of ' +
        'one tenure.',
});
"#;
