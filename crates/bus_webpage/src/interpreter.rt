//! An interpreter of scripts, in plain JavaScript, for the page on which one plays a bus.

/// Plays a script line by line, and gives the rows of its trace. It stands alone: a page has it
/// as a script of its own, and any JavaScript engine runs it.
pub const INTERPRETER: &str = r#"'use strict';
// An interpreter of the scripts of `bus replay`, which gives the rows of `bus trace`. It is written
// from docs/PROTOCOL.md and docs/FORMATS.md, and is not proved.

// ---- A bus. Its words stand by their names, and those that nobody has stored are 0. The words of
// the log are BigInt, since they have 64 bits, and what stands in the passed place of a seat of a
// ring that nobody has; all others are plain numbers.
const PASSED_ALL = BigInt('18446744073709551615');

function newBus(kind, [senders, receivers, rounds, rows, log, seats = receivers, most = 16]) {
    const isCyclic = kind !== 'shape';
    let bits = 0;
    while (2 ** bits < senders) bits += 1;
    return {
        isCyclic, isRing: kind === 'ring', rounds, rows, log, most, bits,
        end: isCyclic ? 2 ** 40 : rows, words: new Map(freePlaces(receivers, seats)),
        page: {words: 0, hasEnded: false, floor: 0},
        senders: Array.from({length: senders}, (none, number) => newSender(number)),
        receivers: Array.from({length: seats}, (none, r) => newReceiver(r, r >= receivers)),
    };
}

// The passed places of the seats that nobody has at first, as they begin.
function freePlaces(receivers, seats) {
    const free = Array.from({length: seats - receivers}, (none, place) => receivers + place);
    return free.map((seat) => ['passed ' + seat, PASSED_ALL]);
}

// A sender. While it is in a tenure, `due` is the kind of its next step; else it is empty.
function newSender(number) {
    return {
        seat: 'sender', number, batch: [], first: 0, mark: '', isClosed: false, isStopped: false,
        least: 0, tenure: null, due: '', isPinned: false, hasLost: false,
        // in the election: the candidate, the bits that are decided, the bit and the round that it
        // is in, the bit that it brings or prefers there, its own votes, and whom it looks at
        candidate: 0, spelled: 0, bit: 0, round: 1, value: 0, votes: 0, looksAt: 0,
        // with the page
        page: null, frame: [], stored: 0, isPublished: false, asks: 0, cleared: 0,
        // of a ring: how many passed places it has loaded, and the least of them and of the words
        loaded: 0, lowest: 0,
    };
}

// A receiver: its place, the length that it knows, and of the frame in which it reads the words
// that are left, the owner, and the message of which bytes are missing; what it has passed, of a
// ring; the number to which it forks; and whether nobody has its seat, since it has left for good,
// or since none has taken that yet.
function newReceiver(number, isGone) {
    return {
        seat: 'receiver', number, place: 0, known: 0, hasEnded: false, left: 0, owner: 0,
        message: null, passed: 0, forksTo: 0, isGone,
    };
}

function nameOf(process) {
    return process.seat + ' ' + process.number;
}

// ---- The names of words.
function rowOf(bus, s) {
    return 'row ' + s.tenure % bus.rows;
}

function bitWordOf(bus, s) {
    return rowOf(bus, s) + ' bit ' + s.bit;
}

function roundOf(bus, s) {
    return bitWordOf(bus, s) + ' round ' + s.round;
}

// How many words a decision has, and a row.
function widthOf(bus) {
    return 6 * bus.rounds - 2;
}

function rowWidth(bus) {
    return bus.senders.length + bus.bits * widthOf(bus);
}

// A word of a row by its place: the announcements, and then each bit, from the lowest. The first
// round has no conciliator, so three words less.
function wordOfRow(bus, place) {
    const behind = place - bus.senders.length;
    if (behind < 0) return 'announcement ' + place;
    const inBit = behind % widthOf(bus) + 3;
    const round = Math.floor(inBit / 6);
    const name = ['mark 0', 'mark 1', 'counter', 'input 0', 'input 1', 'proposal'][inBit % 6];
    const word = round === bus.rounds ? 'fallback' : 'round ' + (round + 1) + ' ' + name;
    return 'bit ' + Math.floor(behind / widthOf(bus)) + ' ' + word;
}

// ---- The kinds of step. Each has the word that it is on, what it leaves there (a load leaves what
// it found), and what then becomes of the process, which gives the answer of its turn.
const STEPS = {
    LoadStage: {word: () => 'stage', then: beginTenure},
    Announce: {
        word: (bus, s) => rowOf(bus, s) + ' announcement ' + s.number,
        leaves: () => 1,
        then: beginElection,
    },
    WriteFirst: {
        word: (bus, s) => roundOf(bus, s) + ' input ' + s.value,
        leaves: () => 1,
        then: (bus, s) => goOn(s, 'ReadFirst'),
    },
    ReadFirst: {
        word: (bus, s) => roundOf(bus, s) + ' proposal',
        then: (bus, s, found) => {
            if (found) s.value = found - 1;
            return goOn(s, found ? 'ReadSecond' : 'WriteSecond');
        },
    },
    WriteSecond: {
        word: (bus, s) => roundOf(bus, s) + ' proposal',
        leaves: (bus, s) => 1 + s.value,
        then: (bus, s) => goOn(s, 'ReadSecond'),
    },
    ReadSecond: {
        word: (bus, s) => roundOf(bus, s) + ' input ' + (1 - s.value),
        then: (bus, s, found) => (found ? adopt(bus, s) : decide(bus, s, s.value)),
    },
    SetMark: {
        word: (bus, s) => roundOf(bus, s) + ' mark ' + s.value,
        leaves: () => 1,
        then: (bus, s) => goOn(s, 'ReadOtherMark'),
    },
    ReadOtherMark: {
        word: (bus, s) => roundOf(bus, s) + ' mark ' + (1 - s.value),
        then: (bus, s, found) => {
            s.votes = 0;
            return goOn(s, found ? 'Vote' : 'WriteFirst');
        },
    },
    Vote: {
        word: (bus, s) => roundOf(bus, s) + ' counter',
        leaves: (bus, s, found, random) => found + (random % 2 ? 2 ** 32 : 1),
        then: (bus, s) => {
            s.votes += 1;
            return goOn(s, 'ReadVotes');
        },
    },
    ReadVotes: {word: (bus, s) => roundOf(bus, s) + ' counter', then: countVotes},
    Fallback: {
        word: (bus, s) => bitWordOf(bus, s) + ' fallback',
        leaves: (bus, s, found) => found || 1 + s.value,
        then: (bus, s, found) => decide(bus, s, (found || 1 + s.value) - 1),
    },
    ReadAnnouncement: {
        word: (bus, s) => rowOf(bus, s) + ' announcement ' + s.looksAt,
        then: (bus, s, found) => {
            if (!found) return lookFor(bus, s, s.looksAt + 1);
            s.candidate = s.looksAt;
            return beginBit(s);
        },
    },
    TakePage: {word: () => 'stage', leaves: (bus, s) => 2 * s.tenure + 1, then: takePage},
    StoreLogWord: {
        word: (bus, s) => 'log ' + (s.page.words + s.stored) % bus.log,
        leaves: (bus, s) => s.frame[s.stored],
        then: (bus, s) => {
            s.stored += 1;
            return holdOn(bus, s);
        },
    },
    StoreLength: {
        word: () => 'length',
        leaves: (bus, s) => s.page.words + s.frame.length,
        then: (bus, s) => {
            s.isPublished = true;
            return holdOn(bus, s);
        },
    },
    GivePageBack: {word: () => 'stage', leaves: (bus, s) => 2 * s.tenure + 2, then: givePageBack},
    LoadLength: {
        word: () => 'length',
        then: (bus, r, found) => {
            if (found === r.known) return 'empty';
            r.known = found;
            return 'going';
        },
    },
    LoadLogWord: {word: (bus, r) => 'log ' + r.place % bus.log, then: readWord},
    // These are of a bus whose rows are used again.
    Enter: {
        word: (bus, s) => 'presence ' + s.number,
        leaves: (bus, s) => 1 + s.tenure,
        then: (bus, s) => {
            s.isPinned = true;
            return goOn(s, 'LoadStageAgain');
        },
    },
    LoadStageAgain: {
        word: () => 'stage',
        then: (bus, s, found) =>
            goOn(s, Math.floor(found / 2) === s.tenure ? 'Announce' : 'Withdraw'),
    },
    Withdraw: {word: (bus, s) => 'presence ' + s.number, leaves: () => 0, then: withdraw},
    ReadPresence: {
        word: (bus, s) => 'presence ' + s.asks,
        then: (bus, s, found) => {
            const before = s.tenure + 1 - bus.rows;
            if (found === 1 + before) return 'behind ' + before + ' ' + s.asks;
            s.asks += 1;
            return holdOn(bus, s);
        },
    },
    ClearRow: {
        word: (bus, s) => 'row ' + (s.tenure + 1) % bus.rows + ' ' + wordOfRow(bus, s.cleared),
        leaves: () => 0,
        then: (bus, s) => {
            s.cleared += 1;
            return holdOn(bus, s);
        },
    },
    // These are of a ring.
    ReadPassed: {
        word: (bus, s) => 'passed ' + s.loaded,
        then: (bus, s, found) => {
            s.lowest = Math.min(s.lowest, Number(found));
            s.loaded += 1;
            if (s.loaded === bus.receivers.length) s.page.floor = s.lowest;
            return holdOn(bus, s);
        },
    },
    StorePassed: {
        word: (bus, r) => 'passed ' + r.number,
        leaves: (bus, r) => (r.isGone ? PASSED_ALL : r.place),
        then: (bus, r) => {
            r.passed = r.place;
            return r.isGone ? 'gone' : 'going';
        },
    },
    Fork: {
        word: (bus, r) => 'passed ' + r.forksTo,
        leaves: (bus, r, found) => (found === PASSED_ALL ? r.passed : found),
        then: (bus, r, found) => joinAt(bus, r, found === PASSED_ALL),
    },
};

function goOn(s, kind) {
    s.due = kind;
    return 'going';
}

// ---- A tenure, from the look at the stage on.
function beginTenure(bus, s, stage) {
    const tenure = Math.floor(stage / 2);
    if (stage % 2 || tenure < s.least) return 'waiting';
    if (tenure >= bus.end) {
        s.least = tenure;
        return 'spent';
    }
    Object.assign(s, {tenure, candidate: s.number, spelled: 0, hasLost: false});
    return goOn(s, bus.isCyclic ? 'Enter' : 'Announce');
}

function endTenure(s, answer) {
    Object.assign(s, {tenure: null, due: '', page: null, frame: []});
    return answer;
}

// ---- The election.
function beginElection(bus, s) {
    s.bit = bus.bits - 1;
    return bus.bits ? beginBit(s) : goOn(s, 'TakePage');
}

function bitOf(number, bit) {
    return (number >> bit) & 1;
}

function beginBit(s) {
    s.round = 1;
    s.value = bitOf(s.candidate, s.bit);
    return goOn(s, 'WriteFirst');
}

// A ratifier without a commit: the next round, or the fallback word.
function adopt(bus, s) {
    if (s.round === bus.rounds) return goOn(s, 'Fallback');
    s.round += 1;
    return goOn(s, 'SetMark');
}

function countVotes(bus, s, found) {
    const heads = Math.floor(found / 2 ** 32);
    const total = heads - (found - heads * 2 ** 32);
    if (Math.abs(total) < 2 * bus.senders.length && s.votes < 64) return goOn(s, 'Vote');
    s.value = total > 0 ? 1 : 0;
    return goOn(s, 'WriteFirst');
}

// A bit is decided. Behind the last one the bits spell the owner.
function decide(bus, s, value) {
    const fits = bitOf(s.candidate, s.bit) === value;
    s.spelled = 2 * s.spelled + value;
    if (s.bit === 0) return s.spelled === s.number ? goOn(s, 'TakePage') : lose(bus, s);
    s.bit -= 1;
    return fits ? beginBit(s) : lookFor(bus, s, 0);
}

// Looks for a candidate among the senders that fit the bits, from this one on.
function lookFor(bus, s, from) {
    s.looksAt = from;
    while (s.looksAt < bus.senders.length && s.looksAt >> (s.bit + 1) !== s.spelled) s.looksAt += 1;
    return goOn(s, 'ReadAnnouncement');
}

function lose(bus, s) {
    s.least = s.tenure + 1;
    s.hasLost = true;
    return bus.isCyclic ? goOn(s, 'Withdraw') : endTenure(s, lostBy(s));
}

function lostBy(s) {
    return 'lost ' + s.tenure + ' ' + s.spelled;
}

// It is just behind TakePage, or has lost, or its tenure was past when it looked again.
function withdraw(bus, s) {
    s.isPinned = false;
    if (s.page) return holdOn(bus, s);
    return endTenure(s, s.hasLost ? lostBy(s) : 'waiting');
}

// ---- The holder of the page.
function takePage(bus, s) {
    Object.assign(s, {page: bus.page, stored: 0, isPublished: false, asks: 0, cleared: 0});
    Object.assign(s, {loaded: 0, lowest: bus.page.words});
    bus.page = null;
    s.frame = frameOf(s);
    holdOn(bus, s);
    return 'own ' + s.tenure;
}

// What is next for the holder, by docs/PROTOCOL.md.
function holdOn(bus, s) {
    return goOn(s, dueOfHolder(bus, s));
}

function dueOfHolder(bus, s) {
    if (s.isPinned) return 'Withdraw';
    if (fitsLog(bus, s) && !s.isPublished) {
        return s.stored < s.frame.length ? 'StoreLogWord' : 'StoreLength';
    }
    if (seeksRoom(bus, s)) return 'ReadPassed';
    if (bus.isCyclic && s.tenure + 1 >= bus.rows) {
        if (s.asks < bus.senders.length) return 'ReadPresence';
        if (s.cleared < rowWidth(bus)) return 'ClearRow';
    }
    return 'GivePageBack';
}

function fitsLog(bus, s) {
    return !s.page.hasEnded && s.page.words + s.frame.length <= bus.log + s.page.floor;
}

// Its frame does not fit, and a passed place is left to load.
function seeksRoom(bus, s) {
    const isOpen = bus.isRing && !s.page.hasEnded && !s.isPublished;
    return isOpen && s.loaded < bus.receivers.length;
}

function givePageBack(bus, s) {
    const {tenure, page, batch} = s;
    if (s.isPublished) page.words += s.frame.length;
    bus.page = page;
    s.least = tenure + 1;
    if (!s.isPublished && !page.hasEnded) return endTenure(s, 'full');
    if (!s.isPublished || s.mark) {
        s.isClosed = true;
        if (s.isPublished && s.mark === 'close') page.hasEnded = true;
        const hasLeft = s.isPublished && s.mark === 'leave';
        return endTenure(s, hasLeft ? 'left ' + tenure : 'closed');
    }
    const from = s.first;
    s.first += batch.length;
    s.batch = [];
    return endTenure(s, 'delivered ' + tenure + ' ' + from + ' ' + (s.first - 1));
}

// ---- Frames: a head, and behind it a mark or messages with their bytes.
function shifted(number, by) {
    return BigInt(number) << BigInt(by);
}

function frameOf(s) {
    const words = [];
    if (s.mark) words.push(shifted(3, 62) + BigInt(s.mark === 'leave' ? 1 : 0));
    s.batch.forEach((digits, place) => {
        words.push(shifted(2, 62) + shifted(digits.length / 2, 54) + BigInt(s.first + place));
        for (const word of digits.match(/.{1,16}/g) || []) {
            words.push(BigInt('0x' + word.padEnd(16, '0')));
        }
    });
    const count = words.length;
    words.unshift(shifted(1, 62) + shifted(s.number, 54) + shifted(count, 40) + BigInt(s.tenure));
    return words;
}

function fieldOf(word, from, count) {
    return Number(BigInt.asUintN(count, word >> BigInt(from)));
}

// ---- The receiver.
function readWord(bus, r, found) {
    const word = BigInt(found);
    r.place += 1;
    if (!r.left) {
        r.left = fieldOf(word, 40, 14);
        r.owner = fieldOf(word, 54, 8);
        return 'head ' + fieldOf(word, 0, 40) + ' ' + r.owner;
    }
    r.left -= 1;
    if (r.message) {
        r.message.digits += word.toString(16).padStart(16, '0');
        return itemOf(r);
    }
    if (fieldOf(word, 62, 2) === 3) return readMark(r, word);
    r.message = {number: fieldOf(word, 0, 48), size: fieldOf(word, 54, 8), digits: ''};
    return itemOf(r);
}

function readMark(r, word) {
    if (fieldOf(word, 0, 1)) return 'leave ' + r.owner;
    r.hasEnded = true;
    return 'end';
}

// An item is told once all of its bytes are read.
function itemOf(r) {
    const {number, size, digits} = r.message;
    if (digits.length < 2 * size) return 'going';
    r.message = null;
    return 'item ' + r.owner + ' ' + number + ' ' + (digits.slice(0, 2 * size) || '-');
}

// A receiver joins where its maker forks to: it is what that is at this moment.
function joinAt(bus, r, isFree) {
    if (!isFree) return 'no seat';
    const number = r.forksTo;
    Object.assign(bus.receivers[number], r, {number, message: r.message && {...r.message}});
    return 'forked';
}

// ---- A turn: the step that is due, without taking it, and then the turn itself.
function kindDue(bus, process) {
    if (process.seat === 'receiver') {
        if (process.hasEnded) return '-';
        if (bus.isRing && !process.left && process.place > process.passed) return 'StorePassed';
        return process.place === process.known ? 'LoadLength' : 'LoadLogWord';
    }
    return process.due || (answerAtRest(bus, process) ? '-' : 'LoadStage');
}

// The answer of a turn that takes no step.
function answerAtRest(bus, s) {
    if (s.isClosed) return 'closed';
    if (!s.batch.length && !s.mark) return 'idle';
    return s.least >= bus.end ? 'spent' : '';
}

function stepDue(bus, process, random) {
    return stepOf(bus, process, kindDue(bus, process), random);
}

function stepOf(bus, process, kind, random) {
    if (kind === '-') return {kind, word: '-', found: '-', after: '-'};
    const step = STEPS[kind];
    const word = step.word(bus, process);
    const found = bus.words.get(word) || 0;
    const after = step.leaves ? step.leaves(bus, process, found, random) : found;
    return {kind, word, found, after};
}

function takeTurn(bus, process, random) {
    return takeStep(bus, process, kindDue(bus, process), random);
}

// The step of a kind.
function takeStep(bus, process, kind, random) {
    const row = stepOf(bus, process, kind, random);
    row.tenure = process.seat === 'sender' && process.tenure !== null ? process.tenure : '-';
    if (row.kind === '-') {
        row.answer = process.hasEnded ? 'end' : answerAtRest(bus, process);
    } else {
        if (STEPS[row.kind].leaves) bus.words.set(row.word, row.after);
        row.answer = STEPS[row.kind].then(bus, process, row.found);
    }
    return row;
}

// ---- Calls. Each gives its answer, or the name of its refusal with a capital. A batch of the bus
// has so many messages at most.
const CALLS = {
    put(s, digits, most) {
        const message = digits === '-' ? '' : digits;
        if (s.mark || s.isClosed) return 'Closed';
        if (s.tenure !== null) return 'Busy';
        if (message.length > 2 * 56) return 'TooLong';
        if (s.batch.length === most) return 'BatchFull';
        s.batch.push(message);
        return 'number ' + (s.first + s.batch.length - 1);
    },
    close: (s) => mark(s, 'close', 'closing'),
    leave: (s) => mark(s, 'leave', 'leaving'),
    stop(s) {
        s.isStopped = true;
        return 'stopped';
    },
    gone(r) {
        r.isGone = true;
        return 'gone';
    },
};

function mark(s, name, answer) {
    if (s.mark || s.isClosed) return 'Closed';
    if (s.tenure !== null) return 'Busy';
    if (s.batch.length) return 'Pending';
    s.mark = name;
    return answer;
}

// ---- The lines of a script.
function isNumber(word, least = 0, most = 2 ** 64) {
    if (!/^(0|[1-9][0-9]*)$/.test(word) || BigInt.asUintN(64, word) !== BigInt(word)) return false;
    return Number(word) >= least && Number(word) <= most;
}

const isTimes = (word) => isNumber(word, 1, 10000);
const isRandom = (word) => isNumber(word, 0, 2 ** 32 - 1);
const isMessage = (word) => /^(-|([0-9a-f]{2})+)$/.test(word);

// What the words behind the first of a line have to be.
const FORMS = {
    put: [isNumber, isMessage], close: [isNumber], leave: [isNumber], stop: [isNumber],
    turn: [isNumber, isRandom, isTimes], recv: [isNumber, isTimes], gone: [isNumber],
    fork: [isNumber, isNumber],
    shape: [isNumber, isNumber, isNumber, isNumber, isNumber],
    cycle: [isNumber, isNumber, isNumber, isNumber, isNumber],
    ring: [isNumber, isNumber, isNumber, isNumber, isNumber, isNumber, isNumber],
};

// A ring may leave out its last number, or its last two.
function hasForm(word, rest) {
    const form = Object.hasOwn(FORMS, word) && FORMS[word];
    const least = form && (word === 'ring' ? 5 : form.length);
    const isFull = form && rest.length >= least && rest.length <= form.length;
    return isFull && rest.every((one, place) => form[place](one));
}

// Which size of a bus is refused, or the empty text.
function sizeRefused(isCyclic, sizes) {
    const limits = [
        ['Senders', 1, 64], ['Receivers', 1, 64], ['Rounds', 1, 8],
        isCyclic ? ['Rows', 2, 8] : ['Rows', 1, 256], ['LogWords', 16, 65536],
        ['Seats', sizes[1], 64], ['Batch', 1, 64],
    ];
    const bad = limits.find(([, least, most], at) => sizes[at] < least || sizes[at] > most);
    return bad ? bad[0] : '';
}

// A script that is played: its bus, once it has one, the rows up to now, and the refusal.
function newGame() {
    return {bus: null, line: 0, rows: [], refusal: ''};
}

// Plays the next line.
function playLine(game, text) {
    game.line += 1;
    if (text === '' || text.startsWith('#')) return;
    const [word, ...rest] = text.split(' ');
    const isFirst = ['shape', 'cycle', 'ring'].includes(word);
    const why = !hasForm(word, rest) || isFirst !== (game.bus === null) ? 'BadLine' :
        isFirst ? playFirst(game, word, rest.map(Number)) : playEvent(game, word, rest);
    if (why) game.refusal = 'line ' + game.line + ': ' + why;
}

function playFirst(game, word, sizes) {
    const why = sizeRefused(word !== 'shape', sizes);
    if (!why) game.bus = newBus(word, sizes);
    return why;
}

// Gives the name of the refusal, or nothing.
function playEvent(game, word, rest) {
    const {bus} = game;
    const isOfReceiver = ['recv', 'gone', 'fork'].includes(word);
    const process = (isOfReceiver ? bus.receivers : bus.senders)[Number(rest[0])];
    if (!process) return isOfReceiver ? 'NoSuchReceiver' : 'NoSuchSender';
    if (word === 'fork') return playFork(game, process, Number(rest[1]));
    if (process.isStopped) return 'Stopped';
    if (process.isGone) return 'Gone';
    if (word === 'recv') playTurns(game, process, 0, Number(rest[1]));
    else if (word === 'turn') playTurns(game, process, Number(rest[1]), Number(rest[2]));
    else return playCall(game, process, word, rest[1]);
    return '';
}

function playCall(game, s, word, message) {
    const answer = CALLS[word](s, message, game.bus.most);
    if (/^[A-Z]/.test(answer)) return answer;
    const stores = word === 'gone' && game.bus.isRing;
    if (stores) addRow(game, s, takeStep(game.bus, s, 'StorePassed', 0));
    else addRow(game, s, {tenure: '-', kind: word, word: '-', found: '-', after: '-', answer});
    return '';
}

// A fork is one step of a ring, and of another bus it takes none.
function playFork(game, r, number) {
    const {bus} = game;
    if (!bus.receivers[number]) return 'NoSuchReceiver';
    if (number <= r.number) return 'NotAbove';
    if (r.isGone) return 'Gone';
    r.forksTo = number;
    if (bus.isRing) {
        addRow(game, r, takeStep(bus, r, 'Fork', 0));
    } else {
        const answer = joinAt(bus, r, bus.receivers[number].isGone);
        addRow(game, r, {tenure: '-', kind: 'fork', word: '-', found: '-', after: '-', answer});
    }
    return '';
}

// Takes turns up to an answer that ends a line: of a receiver these are two alone.
function playTurns(game, process, random, times) {
    const isOver = (answer) => (process.seat === 'sender' ? answer !== 'going' :
        answer === 'empty' || answer === 'end');
    for (let turn = 0; turn < times; turn += 1) {
        const row = takeTurn(game.bus, process, random);
        addRow(game, process, row);
        if (isOver(row.answer)) return;
    }
}

// A row of the trace, with its columns in their order, as texts.
function addRow(game, process, {tenure, kind, word, found, after, answer}) {
    game.rows.push({
        number: String(game.rows.length + 1), line: String(game.line), who: nameOf(process),
        tenure: String(tenure), kind, word, found: String(found), after: String(after), answer,
    });
}

// ---- A whole script, up to its first refusal.
function linesOf(script) {
    const lines = script.split('\n');
    if (lines[lines.length - 1] === '') lines.pop();
    return lines;
}

function gameOf(lines) {
    const game = newGame();
    for (const line of lines) {
        if (game.refusal) break;
        playLine(game, line);
    }
    if (!game.bus && !game.refusal) game.refusal = 'end: BadLine';
    return game;
}

// What `bus trace` writes of a script.
function traceOf(script) {
    return traceText(gameOf(linesOf(script)));
}

function traceText({rows, refusal}) {
    const first = 'number\tline\twho\ttenure\tkind\tword\tfound\tafter\tanswer';
    const lines = [first, ...rows.map((row) => Object.values(row).join('\t'))];
    return [...lines, ...(refusal ? [refusal] : []), ''].join('\n');
}
"#;
