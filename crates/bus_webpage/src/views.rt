//! What a page shows of a step: the script's third part.

/// Shows the processes, the words, the log, the script and the steps.
pub const VIEWS: &str = r#"// ---- What is shown.

let page = readPage();
let total = page.rows.length;
const view = {step: 0, from: 0, playing: 0, due: 0, written: 0, scale: 1, marked: null};
// What a page on which one plays does besides: what its address has behind the step, what it does
// before it follows another address, how it opens and at which step, and what it shows besides.
// Its script grows. What to watch, where no comment of the script says it.
const extra = {
    isGrowing: false, carried: () => '', follows() {}, opens: build, start: () => 0, shows() {},
    watched: 'Watch which word each step is on, what it finds there, and what it leaves.',
};
const HUES = [210, 28, 135, 290, 52, 180, 340, 95];

function at(id) {
    return document.getElementById(id);
}

// A new element with a class and a text.
function made(tag, kind, text) {
    const node = document.createElement(tag);
    if (kind) node.className = kind;
    if (text !== undefined) node.textContent = text;
    return node;
}

// Writes a text only where it differs, so that nothing is laid out again for nothing.
function write(node, text) {
    if (node.textContent !== text) node.textContent = text;
}

function rowAt(step) {
    return page.rows[step - 1];
}

function saidKind(row) {
    return row.kind === '-' ? 'no step' : row.kind;
}

// The name of a process in its colour, short where no other text is given.
function badge(who, text) {
    const [seat, number] = who.split(' ');
    const node = made('span', 'badge', text || (seat === 'sender' ? 'S' : 'R') + number);
    node.style.setProperty('--hue', HUES[number % HUES.length]);
    node.style.setProperty('--much', seat === 'sender' ? '70%' : '6%');
    node.title = who;
    return node;
}

// A link to a step.
function stepLink(step, text) {
    const node = made('button', 'link', text === undefined ? 'step ' + step : text);
    node.dataset.step = step;
    return node;
}

// ---- Lists of which only the lines in sight are there. They grow with what `countOf` counts. What
// a browser would lay out anew to say, a list remembers: how far it is scrolled, and its room.
function longList(box, countOf, draw) {
    const list = {box, count: 0, height: 0, top: 0, room: 0, drawn: new Map()};
    list.spacer = box.appendChild(made('div'));
    list.measure = () => {
        list.line = list.state = undefined;
        list.count = list.height = 0;
        list.room = box.clientHeight;
        list.show(true);
    };
    list.forget = () => {
        list.line = list.state = undefined;
        list.drawn.forEach((node) => node.remove());
        list.drawn.clear();
    };
    list.grow = () => {
        if (list.count !== countOf()) growList(list, countOf(), draw);
    };
    list.show = (again) => {
        list.grow();
        const from = Math.max(0, Math.floor(list.top / list.height) - 5);
        const to = Math.min(list.count, from + Math.ceil(list.room / list.height) + 11);
        for (const [line, node] of list.drawn) {
            if (again || line < from || !(line < to)) {
                node.remove();
                list.drawn.delete(line);
            }
        }
        for (let line = from; line < to; line += 1) {
            if (!list.drawn.has(line)) list.drawn.set(line, placed(box, list, draw(line), line));
        }
    };
    list.reveal = (line) => {
        list.grow();
        scrollList(list, revealed(list.top, list.room, line * list.height, list.height));
    };
    box.onscroll = () => {
        list.top = box.scrollTop;
        list.show();
    };
    watch(list);
    list.measure();
    return list;
}

// A list with another count. Its first line says how high each of them is.
function growList(list, count, draw) {
    list.count = count;
    if (count && !list.height) {
        const probe = list.box.appendChild(draw(0));
        list.height = probe.getBoundingClientRect().height || 1;
        probe.remove();
    }
    list.spacer.style.height = list.height * count + 'px';
}

function scrollList(list, top) {
    if (top === list.top) return;
    list.box.scrollTop = top;
    list.top = list.box.scrollTop;
}

// Parts around a list open and shut, and so its room changes.
function watch(list) {
    new ResizeObserver(() => {
        if (!list.spacer.isConnected) return;
        list.room = list.box.clientHeight;
        list.show();
    }).observe(list.box);
}

function placed(box, list, node, line) {
    node.classList.add('slip');
    node.style.top = line * list.height + 'px';
    node.setAttribute('aria-setsize', list.count);
    node.setAttribute('aria-posinset', line + 1);
    return box.appendChild(node);
}

// Scrolls a box, and nothing around it, so that this part of it is in sight, and not below what
// covers the upper end of the box.
function reveal(box, top, height, cover = 0) {
    const wanted = revealed(box.scrollTop, box.clientHeight, top, height, cover);
    if (wanted !== box.scrollTop) box.scrollTop = wanted;
}

// How far a box is to be scrolled for that.
function revealed(scrolled, room, top, height, cover = 0) {
    const margin = Math.min(2 * height, room / 4);
    if (top - margin - cover < scrolled) return Math.max(0, top - margin - cover);
    return Math.max(scrolled, top + height + margin - room);
}

// ---- The list of all steps.
function drawStep(index) {
    const step = index + 1;
    const row = rowAt(step);
    const node = made('div', 'line');
    node.dataset.step = step;
    node.setAttribute('role', 'option');
    node.id = 'step-' + step;
    node.append(made('span', 'number', step), badge(row.who), ' ');
    node.append(made('span', '', saidKind(row)));
    if (row.answer !== 'going') node.append(made('span', 'faint', row.answer));
    node.title = COLUMNS.map((name) => name + ' ' + row[name]).join(', ');
    markLine(node, step);
    return node;
}

function markLine(node, step) {
    const isCurrent = step === view.step;
    node.classList.toggle('current', isCurrent);
    node.classList.toggle('source', step === view.from);
    node.setAttribute('aria-selected', String(isCurrent));
}

function stepsList() {
    const box = at('steps');
    const list = longList(box, () => total, drawStep);
    return {
        measure: list.measure,
        forget: list.forget,
        show() {
            if (view.step) list.reveal(view.step - 1); else scrollList(list, 0);
            list.show();
            list.drawn.forEach((node) => markLine(node, +node.dataset.step));
            if (view.step) box.setAttribute('aria-activedescendant', 'step-' + view.step);
            else box.removeAttribute('aria-activedescendant');
        },
    };
}

// ---- The script. Long ones are a list of which only what is in sight is there, as are those that
// grow.
function drawLine(index) {
    const text = page.lines[index];
    const node = made('div', text === '' || text.startsWith('#') ? 'comment' : '');
    node.setAttribute('role', 'listitem');
    node.append(made('span', 'count', index + 1), ' ' + text);
    if (page.firstOfLine.has(index + 1)) node.dataset.line = index + 1;
    return node;
}

function scriptList() {
    const box = at('script');
    const isLong = extra.isGrowing || page.lines.length > 2000;
    const draw = (index) => {
        const node = drawLine(index);
        if (isLong) node.classList.add('fixed');
        if (isLong) node.title = page.lines[index];
        node.classList.toggle('current', index + 1 === lineNow());
        return node;
    };
    if (isLong) return longScript(longList(box, () => page.lines.length, draw));
    const nodes = page.lines.map((line, index) => box.appendChild(draw(index)));
    let marked = null;
    return {
        measure() {},
        show() {
            if (marked) marked.classList.remove('current');
            marked = nodes[lineNow() - 1] || null;
            if (!marked) { box.scrollTop = 0; return; }
            marked.classList.add('current');
            markCurrent(nodes, marked);
            reveal(box, marked.offsetTop, marked.offsetHeight);
        },
    };
}

function markCurrent(nodes, marked) {
    nodes.forEach((node) => {
        if (node.hasAttribute('aria-current')) node.removeAttribute('aria-current');
    });
    marked.setAttribute('aria-current', 'true');
}

function longScript(list) {
    return {
        measure: list.measure,
        forget: list.forget,
        show() {
            list.grow();
            if (list.line === lineNow()) return;
            list.line = lineNow();
            if (list.line) list.reveal(list.line - 1);
            list.show(true);
        },
    };
}

function lineNow() {
    return view.step ? +rowAt(view.step).line : 0;
}

// ---- The step.
function showStep() {
    const row = view.step ? rowAt(view.step) : null;
    write(at('where'), row ? 'Step ' + view.step + ' of ' + total + ', line ' + row.line +
        ' of the script' : 'Before the first of ' + total + ' steps');
    write(at('told'), row ? told(page, row) : 'Nothing has happened yet: all words are 0' +
        (hasFreeSeats() ? ', but for those of free seats.' : '.'));
    write(at('means'), row ? follows(page, row) || spelled(row) : '');
    const first = total ? 'Forward, or the right arrow, takes the first step.' : '';
    write(at('why'), !row ? first :
        saidKind(row) + ': ' + (KINDS[row.kind] || UNKNOWN).why);
    write(at('answer'), row ? 'Answer: ' + row.answer + ' \u2013 ' + saidAnswer(row.answer) : '');
    write(at('refused'), page.refusal && view.step === total ?
        'Here the script was refused: ' + page.refusal : '');
    write(at('numbers'), row && row.word !== '-' ?
        row.word + ': found ' + row.found + ', after ' + row.after : '');
    showFrom(row);
}

function hasFreeSeats() {
    return page.shape && page.shape.seats > page.shape.receivers;
}

// What a word of the log is.
function spelled(row) {
    const place = placeOf(row.word);
    if (place.is !== 'log') return '';
    const position = positionAt(page, place.at, view.step);
    return 'It spells: ' + saidWord(position, BigInt(row.after)) + '.';
}

// Who stored what the step found.
function showFrom(row) {
    const from = at('from');
    from.replaceChildren();
    view.from = 0;
    if (!row || row.word === '-') return;
    const by = storedBy(page.words.get(row.word), view.step - 1);
    view.from = by;
    if (!by) {
        from.append('It found ' + row.found + ', as it began: nobody had stored there.');
        return;
    }
    const who = rowAt(by).who;
    from.append('It found what ' + (who === row.who ? who + ' itself' : who) + ' stored in ');
    from.append(stepLink(by), ' (' + rowAt(by).kind + ').');
}

// ---- The processes.
function card(process) {
    const node = made('article', 'card');
    const name = (process.seat === 'sender' ? 'Sender ' : 'Receiver ') + process.number;
    const parts = {node, who: process.who, list: made('ol')};
    const top = made('div', 'top');
    parts.before = stepLink(0, '\u25c0');
    parts.behind = stepLink(0, '\u25b6');
    for (const [button, which] of [[parts.before, 'Last'], [parts.behind, 'Next']]) {
        button.className = '';
        button.setAttribute('aria-label', which + ' step of ' + process.who);
    }
    const title = made('h3');
    title.append(badge(process.who, name));
    top.append(title, parts.before, parts.behind);
    node.append(top);
    parts.kind = node.appendChild(made('div', 'kind'));
    parts.word = node.appendChild(made('div', 'faint'));
    const line = node.appendChild(made('div', 'line-of'));
    parts.tenure = line.appendChild(made('span'));
    parts.answer = line.appendChild(made('span', 'answer'));
    parts.more = node.appendChild(made('div', 'more'));
    if (process.seat === 'receiver') node.append(parts.list);
    parts.list.setAttribute('aria-label', 'Messages given to ' + process.who);
    return parts;
}

function showCard(parts) {
    const process = page.processes.get(parts.who);
    const count = countUpTo(process.steps, view.step);
    const step = count ? process.steps[count - 1] : 0;
    const row = step ? rowAt(step) : null;
    const isNow = step !== 0 && step === view.step;
    parts.node.classList.toggle('acts', isNow);
    parts.isSource = !isNow && view.from > 0 && rowAt(view.from).who === process.who;
    parts.node.classList.toggle('source', parts.isSource);
    parts.node.classList.toggle('gone', isVacant(process, view.step));
    write(parts.kind, row ? saidKind(row) : 'no step yet');
    write(parts.word, row && row.word !== '-' ? named(page, placeOf(row.word)) : '');
    write(parts.tenure, row && row.tenure !== '-' ? 'tenure ' + row.tenure : '');
    write(parts.answer, row ? row.answer : '');
    if (process.seat === 'sender') write(parts.more, senderNotes(process));
    linkTo(parts.before, process.steps[count - (isNow ? 2 : 1)]);
    linkTo(parts.behind, process.steps[count]);
    if (process.seat === 'receiver') showGiven(parts, process);
}

function linkTo(button, step) {
    button.disabled = step === undefined;
    button.dataset.step = step === undefined ? '' : step;
}

// What a sender has beside its step: the page, and the messages that no answer says are sent.
function senderNotes(process) {
    const notes = [];
    if (holder() === process.who) notes.push('has the page');
    if (countUpTo(process.left, view.step)) notes.push('has left');
    if (countUpTo(process.stops, view.step)) notes.push('stopped for good');
    const sent = countUpTo(process.delivered, view.step);
    const last = sent ? +rowAt(process.delivered[sent - 1]).answer.split(' ')[3] : -1;
    const puts = process.puts.slice(last + 1, countUpTo(process.puts, view.step));
    if (puts.length > 3) {
        notes.push('in its batch: ' + puts.length + ' messages');
    } else if (puts.length) {
        const texts = puts.map((step) => messageOfPut(page, rowAt(step)));
        notes.push('in its batch: ' + texts.join(', '));
    }
    return notes.join('; ');
}

// Who has the page: who stored the stage last, where that is odd.
function holder() {
    const stage = page.words.get('stage');
    const by = stage ? storedBy(stage, view.step) : 0;
    return by && rowAt(by).after % 2 ? rowAt(by).who : '';
}

// What the last receiver of a seat was given: the latest four, and how many. What its maker was
// given before it forked counts too.
function showGiven(parts, process) {
    const life = lifeAt(process, view.step);
    const given = life ? life.given : [];
    const count = countUpTo(given, view.step);
    const left = isVacant(process, view.step) ? '; has left for good' : '';
    write(parts.more, life ? 'given ' + counted(count, 'message') + left : 'a free seat');
    if (parts.count === count && parts.life === life) return;
    Object.assign(parts, {count, life});
    parts.list.replaceChildren();
    for (const step of given.slice(Math.max(0, count - 4), count)) {
        const part = rowAt(step).answer.split(' ');
        const line = parts.list.appendChild(made('li'));
        line.append(badge('sender ' + part[1]), ' ' + part[2] + ': ' + saidBytes(part[3]));
    }
}

// ---- The words.
const cells = [];

// A cell that shows a word: its name (where it is not in a table), value and who stored it.
function cell(node, name, label) {
    const part = {node, name, place: placeOf(name), by: made('span', 'by'), step: -1};
    node.classList.add('word');
    node.dataset.word = name;
    if (label) node.append(made('span', 'name', label), ' ');
    part.value = node.appendChild(made('span', 'value'));
    node.append(' ', part.by);
    cells.push(part);
    return node;
}

function showCell(part) {
    const word = page.words.get(part.name);
    const by = word ? storedBy(word, view.step) : 0;
    const isNow = view.step > 0 && rowAt(view.step).word === part.name;
    part.node.classList.toggle('now', isNow);
    if (isNow) view.marked = part.node;
    if (part.step === by) return;
    part.step = by;
    const value = by ? rowAt(by).after : firstValue(page, part.place);
    part.node.dataset.value = value;
    part.node.classList.toggle('set', value !== '0');
    write(part.value, said(part.place, value));
    part.by.replaceChildren();
    if (by && value !== '0') part.by.append(badge(rowAt(by).who));
    part.node.title = part.name + ' is ' + value +
        (by ? ', stored by ' + rowAt(by).who + ' in step ' + by : ', as it began');
}

function sharedWords() {
    const box = at('shared');
    const {shape} = page;
    if (!shape || !page.processes.size) { box.append('There is no bus.'); return; }
    box.append(cell(made('div'), 'stage', 'stage'), cell(made('div'), 'length', 'length'));
    for (let s = 0; shape.cyclic && s < shape.senders; s += 1) {
        box.append(cell(made('div'), 'presence ' + s, 'presence of S' + s));
    }
    for (let r = 0; shape.ring && r < shape.seats; r += 1) {
        box.append(cell(made('div'), 'passed ' + r, 'passed by R' + r));
    }
}

// The rows of words that the trace touches, each in a part that opens and shuts. One or two are
// open.
function growElections(elections) {
    const rows = [...page.touched].sort((one, two) => one - two);
    for (const row of rows.filter((each) => !elections.some((part) => part.row === each))) {
        const part = election(row);
        const behind = elections.findIndex((other) => other.row > row);
        at('elections').insertBefore(part.node, behind < 0 ? null : elections[behind].node);
        elections.splice(behind < 0 ? elections.length : behind, 0, part);
        part.isFew = part.node.open = rows.length <= 2;
    }
    for (const part of elections.filter((each) => each.isFew && rows.length > 2)) {
        part.isFew = false;
        part.isOpened = true;
    }
    return elections;
}

function election(row) {
    const [node, head] = [made('details'), made('summary')];
    const part = {row, node, head, cells: [], isBuilt: false};
    node.append(head);
    node.dataset.row = row;
    node.addEventListener('toggle', () => { if (node.open) showElection(part); });
    return part;
}

// Which tenure uses a row, of those up to that of the stage; or undefined.
function tenureOf(row) {
    const stage = page.words.get('stage');
    const now = Math.floor(Number(stage ? valueAt(page, stage, view.step) : 0) / 2);
    if (!page.shape || !page.shape.cyclic) return row;
    const {rows} = page.shape;
    const tenure = now - ((now - row) % rows + rows) % rows;
    return tenure < 0 ? undefined : tenure;
}

function showElection(part) {
    const tenure = tenureOf(part.row);
    const taken = page.takes.get(String(tenure));
    const owner = taken && taken <= view.step ? ', owner ' + rowAt(taken).who : '';
    const name = page.shape && page.shape.cyclic ? 'row ' + part.row + ': ' : '';
    write(part.head, name + (tenure === undefined ? 'not used yet' : 'tenure ' + tenure) + owner);
    if (!part.node.open) return;
    if (!part.isBuilt) {
        part.isBuilt = true;
        const from = cells.length;
        buildElection(part);
        part.cells = cells.splice(from);
    }
    part.cells.forEach(showCell);
}

function buildElection(part) {
    const {shape} = page;
    const row = 'row ' + part.row;
    const said = part.node.appendChild(made('div', 'pair'));
    for (let s = 0; s < shape.senders; s += 1) {
        said.append(cell(made('div'), row + ' announcement ' + s, 'announcement of S' + s));
    }
    for (let bit = shape.bits - 1; bit >= 0; bit -= 1) {
        part.node.appendChild(made('div', 'wide')).append(bitTable(row, bit));
    }
}

// The words of the decision of one bit: a line for each round, and the fallback word.
function bitTable(row, bit) {
    const {rounds, bits} = page.shape;
    const table = made('table');
    const names = ['mark 0', 'mark 1', 'counter', 'input 0', 'input 1', 'proposal'];
    const used = rounds > 1 ? names : names.slice(3);
    table.append(made('caption', '', bits > 1 ? 'bit ' + bit + ' of the owner' : 'the one bit'));
    const head = table.insertRow();
    for (const name of ['', ...used]) headCell(head, name === 'counter' ? 'coin' : name, 'col');
    for (let round = 1; round <= rounds; round += 1) {
        const line = table.insertRow();
        headCell(line, 'round ' + round, 'row');
        for (const name of used) {
            const place = line.insertCell();
            const is = round === 1 && names.indexOf(name) < 3;
            if (!is) cell(place, row + ' bit ' + bit + ' round ' + round + ' ' + name);
        }
    }
    const last = table.insertRow();
    headCell(last, 'fallback', 'row');
    cell(last.insertCell(), row + ' bit ' + bit + ' fallback').colSpan = 2;
    return table;
}

function headCell(line, text, scope) {
    const node = line.appendChild(made('th', '', text));
    node.scope = scope;
}

// ---- The log.
function drawWord(index) {
    const word = page.log[index];
    const value = word ? valueAt(page, word, view.step) : '0';
    const by = word ? storedBy(word, view.step) : 0;
    const node = made('div', 'line');
    node.setAttribute('role', 'listitem');
    node.dataset.word = 'log ' + index;
    node.dataset.value = value;
    const digits = made('div', 'mono');
    digits.append(made('span', 'faint', index));
    digits.append(made('span', '', by ? inHex(value) : 'not stored yet'));
    if (by) digits.append(badge(rowAt(by).who));
    const position = positionAt(page, index, view.step);
    if (position > index) digits.append(made('span', 'faint', 'position ' + position));
    node.append(digits, made('div', '', by ? saidWord(position, BigInt(value)) : ''));
    const isOut = position >= 0 && position < lengthNow();
    node.classList.toggle('unpublished', !isOut);
    if (by && !isOut) node.lastChild.append(made('span', 'faint', ' (not published)'));
    const isNow = view.step > 0 && rowAt(view.step).word === 'log ' + index;
    node.classList.toggle('now', isNow);
    if (isNow) view.marked = node;
    return node;
}

function lengthNow() {
    const word = page.words.get('length');
    return word ? +valueAt(page, word, view.step) : 0;
}

function saidWord(position, value) {
    const role = roleOf(page, position);
    const head = role.is === 'head' && headOf(value);
    if (head) {
        return 'head, tenure ' + head.tenure + ', sender ' + head.owner + ', ' +
            counted(head.count, 'word');
    }
    const message = role.is === 'message' && messageOf(value);
    if (message) return saidMessage(position, role.owner, message);
    if (role.is === 'bytes') return 'bytes of that message';
    if (role.is === 'leave') return 'sender ' + role.owner + ' has left';
    return role.is === 'end' ? 'end of the order' : 'no word of a frame';
}

function saidMessage(position, owner, message) {
    const bytes = bytesAt(page, position, view.step);
    const digits = bytes && bytes.map((byte) => byte.toString(16).padStart(2, '0')).join('');
    return 'message ' + message.number + ' of sender ' + owner + ', ' +
        (bytes ? saidBytes(digits || '-') : counted(message.bytes, 'byte'));
}

// The cell of the last word that is published, or the first one.
function lastCell() {
    return Math.max(0, lengthNow() - 1) % (page.shape ? page.shape.log : 1);
}

function logTitle(length) {
    const title = page.log.length ? 'Log, ' + counted(length, 'word') + ' published' : 'Log';
    const isRing = page.shape && page.shape.ring;
    return title + (isRing ? ': position p lives in cell p mod ' + page.shape.log : '');
}

function logList() {
    const box = at('log');
    const none = box.appendChild(made('p', 'faint', 'No step is on a word of the log.'));
    const list = longList(box, () => page.log.length, drawWord);
    return {
        measure: list.measure,
        forget: list.forget,
        show() {
            none.hidden = page.log.length > 0;
            const now = view.step ? placeOf(rowAt(view.step).word) : {};
            const state = countUpTo(page.logStores, view.step);
            if (now.is === 'log') list.reveal(now.at);
            else if (list.length !== lengthNow()) list.reveal(lastCell());
            list.length = lengthNow();
            write(at('log-title'), logTitle(list.length));
            if (list.state !== state || now.is === 'log' || list.wasNow) list.show(true);
            else list.show();
            list.state = state;
            list.wasNow = now.is === 'log';
        },
    };
}
"#;
