//! What a page makes of its rows: the script's first part.

/// Reads the rows and the script, and finds what stands in a word after any step.
pub const READING: &str = r#"'use strict';
// ---- What was embedded: the lines of the trace, and the script in hexadecimal digits.

const COLUMNS = ['number', 'line', 'who', 'tenure', 'kind', 'word', 'found', 'after', 'answer'];

function textOf(id) {
    return document.getElementById(id).textContent;
}

// The lines of the script; bytes that are no text show as a replacement sign.
function scriptLines() {
    const digits = textOf('script-bytes');
    const bytes = new Uint8Array(digits.length / 2);
    for (let at = 0; at < bytes.length; at += 1) {
        bytes[at] = parseInt(digits.substr(2 * at, 2), 16);
    }
    const lines = new TextDecoder().decode(bytes).split('\n');
    if (lines[lines.length - 1] === '') lines.pop();
    return lines;
}

// The rows of the trace. A line that is no row is the refusal, which ends a trace.
function readRows() {
    const read = {rows: [], refusal: ''};
    for (const line of textOf('rows').split('\n').slice(1)) {
        const part = line.split('\t');
        if (part.length === COLUMNS.length) {
            const row = {};
            COLUMNS.forEach((name, at) => { row[name] = part[at]; });
            read.rows.push(row);
        } else if (line !== '') {
            read.refusal = line;
        }
    }
    return read;
}

// The bus that the script asks for: its first line that is neither empty nor a comment.
function readShape(lines) {
    const first = lines.find((line) => line !== '' && !line.startsWith('#')) || '';
    const part = first.split(' ');
    const [cyclic, ring] = [part[0] !== 'shape', part[0] === 'ring'];
    if (part.length < 6 || part.length > (ring ? 8 : 6)) return null;
    if (!['shape', 'cycle', 'ring'].includes(part[0])) return null;
    const [senders, receivers, rounds, rows, log, seats = receivers] = part.slice(1).map(Number);
    const bits = Math.ceil(Math.log2(senders));
    return {cyclic, ring, senders, receivers, seats, rounds, rows, log, bits};
}

// Which word a name of the trace means.
function placeOf(name) {
    const part = name.split(' ');
    if (part[0] === 'presence' || part[0] === 'passed') return {is: part[0], of: +part[1]};
    if (part[0] === 'log') return {is: 'log', at: +part[1]};
    if (part[0] !== 'row') return {is: part[0]};
    const row = +part[1];
    if (part[2] === 'announcement') return {is: 'announcement', row, of: +part[3]};
    const bit = +part[3];
    if (part[4] === 'fallback') return {is: 'fallback', row, bit};
    const place = {is: part[6], row, bit, round: +part[5]};
    if (part.length > 7) place.of = +part[7];
    return place;
}

// Whether the step of a row put a value into its word.
function stores(row) {
    if (row.word === '-') return false;
    const {does} = KINDS[row.kind] || UNKNOWN;
    return does === 'exchange' ? row.found !== row.after : does !== 'load';
}

// How many of these rising numbers are at most this one.
function countUpTo(list, most) {
    let low = 0;
    let high = list.length;
    while (low < high) {
        const middle = (low + high) >> 1;
        if (list[middle] <= most) low = middle + 1; else high = middle;
    }
    return low;
}

// All that is looked up while stepping. Steps count from 1, and step 0 is before the first. Each
// word has the steps that stored in it, so what stands there after any step is found at once.
function readPage() {
    const {rows, refusal} = readRows();
    const page = pageOf(scriptLines(), rows.length > 0, refusal);
    rows.forEach((row) => noteRow(page, row));
    return page;
}

// A page without a row.
function pageOf(lines, hasBus, refusal) {
    const shape = readShape(lines);
    const page = {
        rows: [], refusal, lines, shape, words: new Map(), processes: new Map(), takes: new Map(),
        firstOfLine: new Map(), log: [], logStores: [], placed: [], touched: new Set(),
        roles: null,
    };
    if (shape && hasBus) {
        for (let s = 0; s < shape.senders; s += 1) processOf(page, 'sender ' + s);
        for (let r = 0; r < shape.seats; r += 1) processOf(page, 'receiver ' + r);
    }
    return page;
}

function processOf(page, who) {
    if (!page.processes.has(who)) {
        const [seat, number] = who.split(' ');
        const isFree = page.shape && number >= page.shape.receivers;
        page.processes.set(who, {
            who, seat, number: +number, steps: [], puts: [], delivered: [], stops: [], left: [],
            lives: seat === 'sender' || isFree ? [] : [lifeFrom(0, [])],
        });
    }
    return page.processes.get(who);
}

// A receiver of a seat, which may have several, one after another: the step in which it came, those
// in which it was given a message, or its maker before that, and the one in which it left.
function lifeFrom(from, given) {
    return {from, given, until: Infinity};
}

// The last receiver of a seat up to a step, if it had one by then.
function lifeAt(process, step) {
    return process.lives.filter((life) => life.from <= step).pop();
}

// Whether nobody takes steps there after a step: a sender has stopped, or a seat is free.
function isVacant(process, step) {
    if (process.seat === 'sender') return countUpTo(process.stops, step) > 0;
    const life = lifeAt(process, step);
    return !life || life.until <= step;
}

// The number that a receiver forks to, by the script's line.
function forksTo(page, row) {
    return +(page.lines[+row.line - 1] || '').split(' ')[2];
}

// What becomes of the receivers of a seat, and of another to which one forks.
function noteLives(page, process, row, step) {
    const life = lifeAt(process, step);
    if (row.answer.startsWith('item ')) life.given.push(step);
    if (row.answer === 'gone') life.until = step;
    if (row.answer !== 'forked') return;
    const other = processOf(page, 'receiver ' + forksTo(page, row));
    other.lives.push(lifeFrom(step, life.given.slice()));
}

function wordOf(page, name) {
    if (!page.words.has(name)) {
        page.words.set(name, {name, place: placeOf(name), stores: []});
    }
    return page.words.get(name);
}

// A page with one row more.
function noteRow(page, row) {
    const step = page.rows.push(row);
    const process = processOf(page, row.who);
    process.steps.push(step);
    if (row.kind === 'put') process.puts.push(step);
    if (row.kind === 'stop') process.stops.push(step);
    if (row.kind === 'StoreLogWord') page.placed.push(step);
    if (process.seat === 'receiver') noteLives(page, process, row, step);
    if (row.answer.startsWith('delivered ')) process.delivered.push(step);
    if (row.answer.startsWith('left ')) process.left.push(step);
    if (row.kind === 'TakePage') page.takes.set(row.tenure, step);
    if (!page.firstOfLine.has(+row.line)) page.firstOfLine.set(+row.line, step);
    if (row.word === '-') return;
    const word = wordOf(page, row.word);
    if (word.place.row !== undefined) page.touched.add(word.place.row);
    if (word.place.is === 'log') {
        page.log[word.place.at] = word;
        page.roles = null;
    }
    if (!stores(row)) return;
    word.stores.push(step);
    if (word.place.is === 'log' || word.place.is === 'length') page.logStores.push(step);
}

// The step that stored what stands in a word after this step, or 0 where nobody has.
function storedBy(word, step) {
    const count = countUpTo(word.stores, step);
    return count ? word.stores[count - 1] : 0;
}

// What stands in a word after this step.
function valueAt(page, word, step) {
    const by = storedBy(word, step);
    return by ? page.rows[by - 1].after : firstValue(page, word.place);
}

// How a word begins: at 0, but for the passed places of seats that nobody has at first.
function firstValue({shape}, place) {
    return place.is === 'passed' && shape && place.of >= shape.receivers ? ALL : '0';
}

// ---- The log: words that begin frames tell what the words behind them are. The word of position p
// is the p-th that was stored, and it lives in cell p mod L: of a ring another one may live there
// later. Which position lives in a cell after a step, or -1 where none does yet.
function positionAt(page, at, step) {
    const stored = countUpTo(page.placed, step);
    const size = page.shape ? page.shape.log : stored;
    return at < stored ? at + size * Math.floor((stored - 1 - at) / size) : -1;
}

// The word of a position.
function placedAt(page, position) {
    return BigInt(page.rows[page.placed[position] - 1].after);
}

const SIXTY_TWO = BigInt(62);

function bitsOf(word, from, count) {
    return Number((word >> BigInt(from)) & ((BigInt(1) << BigInt(count)) - BigInt(1)));
}

function headOf(word) {
    if (Number(word >> SIXTY_TWO) !== 1) return null;
    const count = bitsOf(word, 48, 6) * 256 + bitsOf(word, 40, 8);
    return {owner: bitsOf(word, 54, 8), count, tenure: bitsOf(word, 0, 40)};
}

function messageOf(word) {
    if (Number(word >> SIXTY_TWO) !== 2) return null;
    const number = bitsOf(word, 40, 8) * 2 ** 40 + bitsOf(word, 0, 40);
    return {bytes: bitsOf(word, 54, 8), number};
}

// What the log word of a position is, by all that were stored up to the end of the trace.
function roleOf(page, position) {
    if (!page.roles) page.roles = rolesOf(page);
    return page.roles[position] || {is: 'other'};
}

function rolesOf(page) {
    const roles = [];
    let at = 0;
    while (at < page.placed.length) {
        const head = headOf(placedAt(page, at));
        roles[at] = {is: head ? 'head' : 'other'};
        at += 1;
        if (head) at = framed(page, roles, at, at + head.count, head.owner);
    }
    return roles;
}

// Of the words of a frame behind its head, up to where it ends.
function framed(page, roles, from, end, owner) {
    let at = from;
    while (at < end && at < page.placed.length) {
        const message = messageOf(placedAt(page, at));
        const mark = bitsOf(placedAt(page, at), 0, 1) ? 'leave' : 'end';
        roles[at] = {is: message ? 'message' : mark, owner};
        const first = at;
        at += 1;
        const data = message ? Math.ceil(message.bytes / 8) : 0;
        for (let place = 0; place < data; place += 1) {
            roles[at] = {is: 'bytes', of: first, place};
            at += 1;
        }
    }
    return end;
}

// The bytes of the message at a position after a step, where all of them were stored by then.
function bytesAt(page, position, step) {
    const message = page.placed[position] <= step && messageOf(placedAt(page, position));
    const bytes = [];
    for (let place = 0; message && place < message.bytes; place += 1) {
        const data = position + 1 + (place >> 3);
        if (!(page.placed[data] <= step)) return null;
        bytes.push(bitsOf(placedAt(page, data), 56 - 8 * (place & 7), 8));
    }
    return message ? bytes : null;
}
"#;
