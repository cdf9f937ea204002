//! What a page says of its rows: the script's second part.

/// Says in words what a row means, and what a step of each kind is for.
pub const MEANING: &str = r#"// ---- What rows mean, in words.

// What a step of each kind does to its word, and what it is for.
const KINDS = {
    put: {
        does: 'call',
        why: 'A message is handed to the sender. It waits there until the sender has won a ' +
            'tenure.',
    },
    close: {
        does: 'call',
        why: 'The sender is asked to end the order. It has to win a tenure for its end mark, ' +
            'as for any other frame.',
    },
    leave: {
        does: 'call',
        why: 'The sender is asked to leave for good. It has to win a tenure for its leave ' +
            'mark, as for any other frame.',
    },
    stop: {
        does: 'call',
        why: 'The sender takes no step from here on. Its words stay as they are.',
    },
    gone: {
        does: 'call',
        why: 'The receiver takes no step from here on. No log word is used again, so nobody ' +
            'waits for it.',
    },
    fork: {
        does: 'call',
        why: 'A receiver joins, and goes on from where its maker stands. No log word is used ' +
            'again, so it has no passed place to store.',
    },
    LoadStage: {
        does: 'load',
        why: 'Looks which tenure is open. The stage is 2t while tenure t is open, and 2t + 1 ' +
            'while its owner has the page.',
    },
    Announce: {
        does: 'store',
        why: 'Stands for election in this tenure. Only a sender that has announced itself ' +
            'can become the owner.',
    },
    WriteFirst: {
        does: 'store',
        why: 'First step of a ratifier: it says that somebody brings this bit.',
    },
    ReadFirst: {
        does: 'load',
        why: 'Looks whether a bit is proposed already. Whoever finds one prefers it from ' +
            'here on to its own.',
    },
    WriteSecond: {
        does: 'store',
        why: 'It found nothing proposed, so it proposes the bit that it brings. Two may do ' +
            'so; then the later store stays.',
    },
    ReadSecond: {
        does: 'load',
        why: 'Looks whether anybody brings the bit that it does not prefer. If nobody does, ' +
            'it commits, and the bit is decided for it. Else it adopts.',
    },
    SetMark: {
        does: 'store',
        why: 'First step of a conciliator, which is there to bring the bits together: it ' +
            'says that somebody comes with this bit.',
    },
    ReadOtherMark: {
        does: 'load',
        why: 'Looks whether somebody came with the other bit. If so, it asks the coin.',
    },
    Vote: {
        does: 'add',
        why: 'One vote in the coin that all share: a head where the random word is odd, else ' +
            'a tail.',
    },
    ReadVotes: {
        does: 'load',
        why: 'Counts all votes in the coin. It has an answer once heads and tails are twice ' +
            'as far apart as there are senders, or after 64 own votes.',
    },
    Fallback: {
        does: 'exchange',
        why: 'All rounds have gone by without a commit. One compare_exchange decides: the ' +
            'bit of whoever comes first stays for all.',
    },
    ReadAnnouncement: {
        does: 'load',
        why: 'The bit that was decided is not that of its candidate. It looks for a sender ' +
            'that has announced itself and fits all bits so far.',
    },
    TakePage: {
        does: 'store',
        why: 'The bits spell this sender. It takes the page, which is the lock: the tenure ' +
            'is held.',
    },
    StoreLogWord: {
        does: 'store',
        why: 'The next word of its frame, behind the published words. Nobody reads it yet.',
    },
    StoreLength: {
        does: 'store',
        why: 'Publishes the whole frame at once: this one store brings its messages into the ' +
            'order.',
    },
    GivePageBack: {
        does: 'store',
        why: 'The page goes back, and the next tenure is open.',
    },
    LoadLength: {
        does: 'load',
        why: 'Looks how many words of the log are published.',
    },
    LoadLogWord: {
        does: 'load',
        why: 'Takes the next published word of the log.',
    },
    Enter: {
        does: 'store',
        why: 'Shows which tenure it enters, so that nobody clears the words of that tenure ' +
            'while it is there.',
    },
    LoadStageAgain: {
        does: 'load',
        why: 'Whoever looked for its presence before it stood there did not see it. So it ' +
            'looks whether its tenure is still the one.',
    },
    Withdraw: {
        does: 'store',
        why: 'It is done with the words of this tenure: they may be cleared.',
    },
    ReadPresence: {
        does: 'load',
        why: 'It is about to clear the words of the next tenure, which an earlier one has ' +
            'used, and asks of each sender whether it is still there.',
    },
    ClearRow: {
        does: 'store',
        why: 'Clears a word for the next tenure, which uses these words again.',
    },
    ReadPassed: {
        does: 'load',
        why: 'Its frame does not fit in the log. It looks up to where a receiver has heard, so ' +
            'as to learn which words may be overwritten.',
    },
    StorePassed: {
        does: 'store',
        why: 'It has heard a whole frame, or leaves for good, and says so: it needs the words ' +
            'before that place no more.',
    },
    Fork: {
        does: 'exchange',
        why: 'A receiver joins at a free seat, and goes on from where its maker stands. The seat ' +
            'is above its own, and owners load upwards: who has loaded the new one had loaded ' +
            'that of its maker before.',
    },
    '-': {
        does: 'call',
        why: 'A turn without a step: no word is touched.',
    },
};

const UNKNOWN = {does: 'exchange', why: 'a kind that this page does not know'};

const PLAIN = {
    going: 'there is more to do', idle: 'nothing waits to be sent',
    waiting: 'it cannot enter a tenure now', full: 'the frame does not fit in the log',
    closed: 'this sender sends nothing more', spent: 'no tenure is left',
    empty: 'nothing more is published', end: 'the order has ended', closing: 'an end mark waits',
    leaving: 'a leave mark waits',
    stopped: 'for good', gone: 'for good', forked: 'another receiver goes on from here',
    no: 'somebody has that seat',
};

// What stands in the passed place of a seat that nobody has.
const ALL = '18446744073709551615';

// The text of an answer, beside the answer itself.
function saidAnswer(answer) {
    const [word, first, second, third] = answer.split(' ');
    if (PLAIN[word]) return PLAIN[word];
    switch (word) {
    case 'number': return 'the message waits as number ' + first;
    case 'lost': return 'sender ' + second + ' is the owner of tenure ' + first;
    case 'own': return 'it is the owner of tenure ' + first + ' and has the page';
    case 'delivered':
        return 'in tenure ' + first + ' its messages ' + second + ' to ' + third + ' were sent';
    case 'left': return 'in tenure ' + first + ' its leave mark was sent';
    case 'leave': return 'sender ' + first + ' has left';
    case 'behind': return 'sender ' + second + ' may still be in tenure ' + first;
    case 'head': return 'a frame of tenure ' + first + ' by sender ' + second;
    case 'item': return 'message ' + second + ' of sender ' + first + ': ' + saidBytes(third);
    default: return '';
    }
}

// The bytes of a message as text, where they are plain ASCII, and in digits.
function saidBytes(digits) {
    if (digits === '-') return 'empty';
    const codes = (digits.match(/../g) || []).map((pair) => parseInt(pair, 16));
    const plain = codes.every((code) => code >= 32 && code < 127);
    return plain ? '\u201c' + String.fromCharCode(...codes) + '\u201d' : digits;
}

function saidStage(value) {
    const stage = Number(value);
    return 'tenure ' + Math.floor(stage / 2) + (stage % 2 ? ', held' : ', open');
}

function saidVotes(value) {
    const votes = Number(value);
    if (!votes) return 'no votes';
    const heads = Math.floor(votes / 2 ** 32);
    return counted(heads, 'head') + ', ' + counted(votes - heads * 2 ** 32, 'tail');
}

function counted(number, name) {
    return number + ' ' + name + (number === 1 ? '' : 's');
}

// What a value says in its word.
function said(place, value) {
    switch (place.is) {
    case 'stage': return saidStage(value);
    case 'length': return counted(+value, 'word');
    case 'presence': return value === '0' ? 'nowhere' : 'in tenure ' + (+value - 1);
    case 'passed': return value === ALL ? 'nobody there' : 'up to position ' + value;
    case 'proposal':
    case 'fallback': return value === '0' ? 'empty' : 'bit ' + (+value - 1);
    case 'counter': return saidVotes(value);
    case 'log': return value === '0' ? '0' : inHex(value);
    default: return value === '0' ? 'unset' : 'set';
    }
}

function inHex(value) {
    return BigInt(value).toString(16).padStart(16, '0');
}

// A word's name in a sentence. With a single bit the bit is not named, nor a single round.
function named(page, place) {
    const {shape} = page;
    const where = [];
    if (place.round && (!shape || shape.rounds > 1)) where.push('round ' + place.round);
    if (place.bit !== undefined && (!shape || shape.bits > 1)) where.push('bit ' + place.bit);
    if (place.row !== undefined && (!shape || shape.rows > 1)) {
        where.push(rowName(page, place.row));
    }
    const behind = where.length ? ' (' + where.join(', ') + ')' : '';
    switch (place.is) {
    case 'presence': return 'the presence of sender ' + place.of;
    case 'passed': return 'the passed place of receiver ' + place.of;
    case 'log': return 'log word ' + place.at;
    case 'announcement': return 'the announcement of sender ' + place.of + behind;
    case 'counter': return 'the coin' + behind;
    case 'fallback': return 'the fallback word' + behind;
    case 'input':
    case 'mark': return place.is + ' ' + place.of + behind;
    default: return 'the ' + place.is + behind;
    }
}

// A row of words that serves one tenure alone is named by it.
function rowName(page, row) {
    return (page.shape && !page.shape.cyclic ? 'tenure ' : 'row ') + row;
}

function actor(row) {
    return row.who.replace(/^./, (letter) => letter.toUpperCase());
}

// One sentence: what happened in a row.
function told(page, row) {
    const kind = KINDS[row.kind] || UNKNOWN;
    if (row.kind === 'put') {
        return actor(row) + ' is given a message: ' + messageOfPut(page, row) + '.';
    }
    if (row.kind === 'close') return actor(row) + ' is asked to close the order.';
    if (row.kind === 'leave') return actor(row) + ' is asked to leave for good.';
    if (row.kind === 'stop') return actor(row) + ' stops for good.';
    if (row.kind === 'gone') return actor(row) + ' leaves for good.';
    if (row.kind === 'fork') return actor(row) + ' forks to seat ' + forksTo(page, row) + '.';
    if (row.word === '-') return actor(row) + ' has a turn and takes no step.';
    const place = placeOf(row.word);
    const found = said(place, row.found);
    const after = said(place, row.after);
    const word = named(page, place);
    switch (kind.does) {
    case 'load': return actor(row) + ' loads ' + word + ' and finds: ' + found + '.';
    case 'add': return actor(row) + ' adds ' + vote(row) + ' to ' + word + ': ' + after + '.';
    case 'exchange':
        return actor(row) + ' does a compare_exchange on ' + word + (row.found === row.after ?
            ', which is not ' + wanted(row) + ': ' + found + ' stays.' :
            ', which is ' + wanted(row) + ': now ' + after + '.');
    default:
        if (row.after === '0') return actor(row) + ' clears ' + word + '; it was: ' + found + '.';
        return actor(row) + ' stores in ' + word + ': ' + after + '.';
    }
}

// What a word is where a compare_exchange stores in it.
function wanted(row) {
    return row.kind === 'Fork' ? 'free' : 'empty';
}

function vote(row) {
    return BigInt(row.after) - BigInt(row.found) === BigInt(1) ? 'a tail' : 'a head';
}

// The message of a put, by the script's line.
function messageOfPut(page, row) {
    const part = (page.lines[+row.line - 1] || '').split(' ');
    return saidBytes(part[2] || '-');
}

// What follows for the process from what it found. Nothing where that is plain.
function follows(page, row) {
    const place = placeOf(row.word);
    const other = 1 - place.of;
    const empty = row.found === '0';
    switch (row.kind) {
    case 'LoadStage': return followsStage(row);
    case 'LoadStageAgain':
        return Math.floor(row.found / 2) === +row.tenure ?
            'It stands in tenure ' + row.tenure + '.' : 'Its tenure is past, so it withdraws.';
    case 'ReadFirst':
        return empty ? 'Nothing is proposed: it prefers its own bit, and will propose it.' :
            'So it prefers bit ' + (row.found - 1) + '.';
    case 'ReadSecond':
        return empty ? 'Nobody brings bit ' + place.of + ': it commits bit ' + other + '.' :
            'Bit ' + place.of + ' is brought too: it adopts bit ' + other + ', and no more.';
    case 'ReadOtherMark':
        return empty ? 'Nobody came with bit ' + place.of + ': it keeps bit ' + other + '.' :
            'Both bits are there, so it asks the coin.';
    case 'ReadVotes': return followsVotes(page, row);
    case 'Fallback':
        return empty ? 'It is the first here: the bit is ' + (row.after - 1) + '.' :
            'It is not the first: the bit is ' + (row.found - 1) + '.';
    case 'ReadPassed':
        return row.found === ALL ? 'Nobody is at seat ' + place.of + ': it waits for nothing.' :
            'Receiver ' + place.of + ' may still need the words from position ' + row.found +
            ' on.';
    case 'Fork':
        return row.found === ALL ? 'Receiver ' + place.of + ' is there from now on, and is given ' +
            'what its maker will be given.' : 'Somebody is there, so nothing changes.';
    case 'ReadAnnouncement':
        return empty ? 'Sender ' + place.of + ' does not stand for election: it looks further.' :
            'Sender ' + place.of + ' is its candidate from here on.';
    default: return '';
    }
}

function followsStage(row) {
    const tenure = Math.floor(row.found / 2);
    if (row.found % 2) return 'Tenure ' + tenure + ' is held, so it waits.';
    return row.answer === 'going' ? 'It begins tenure ' + tenure + '.' :
        'It may not enter tenure ' + tenure + '.';
}

function followsVotes(page, row) {
    const heads = Math.floor(row.found / 2 ** 32);
    const total = heads - (row.found - heads * 2 ** 32);
    const barrier = page.shape ? 2 * page.shape.senders : 0;
    const sum = 'Heads less tails are ' + total + ', and the barrier is ' + barrier;
    if (total >= barrier) return sum + ': the coin says 1.';
    if (-total >= barrier) return sum + ': the coin says 0.';
    return sum + ': it votes again, unless these were 64 votes of its own.';
}
"#;
