//! How one may begin to play, with a question each.

/// The script of a page that was given none.
pub const FIRST_SCRIPT: &str = r#"# Two senders, and neither has found anything proposed.
shape 2 1 1 4 64
put 0 68656c6c6f
put 1 776f726c64
turn 0 0 4
turn 1 0 4
"#;

/// The openings. The script of the first stands in the page by itself.
pub const OPENINGS: &str = r#"// ---- Openings: a script, a question, and what can be done.
const OPENINGS = [
    {
        name: 'two who meet at once',
        script: textOf('first-script'),
        question: 'Make two owners: let both senders be answered own 0.',
        can: 'No. Both found nothing proposed, so each finds the input of the other, and ' +
            'adopts. Both come to the fallback word, and the first there decides for both. Each ' +
            'tenure has at most one owner: that is the promise one_owner.',
    },
    {
        name: 'two marks, and a coin',
        script: 'shape 2 1 2 4 64\nput 0 68656c6c6f\nput 1 776f726c64\nturn 0 0 4\nturn 1 0 4\n' +
            'turn 0 0 3\nturn 1 0 3\n',
        question: 'Make the coins differ: let the coin say 1 to one sender, and 0 to the other.',
        can: 'Yes. Sender 0 votes four heads, and the coin says 1. Then sender 1 votes eight ' +
            'tails, and it says 0. Nothing is promised of how often coins agree. There is one ' +
            'owner all the same: one_owner rests on no coin.',
    },
    {
        name: 'a busy sender and a patient one',
        script: 'shape 2 1 1 64 1024\nput 0 61\nput 1 62\nturn 1 0 1\n',
        question: 'Starve sender 1: give it turns again and again, and never a tenure.',
        can: 'Yes. Let sender 1 begin each tenure, let sender 0 propose first and send, and put ' +
            'sender 0 another message. Nothing is promised of progress or fairness. What is ' +
            'promised holds: what stands in the order of each sender are the first messages that ' +
            'it put (faithful).',
    },
    {
        name: 'one stop',
        script: 'shape 2 1 1 4 64\nput 0 68656c6c6f\nput 1 776f726c64\nturn 0 0 1\nturn 1 0 1\n',
        question: 'Stop everybody with one stop: from then on nobody sends.',
        can: 'Yes. Let a sender take the page, and stop it. The tenure is held for good, and ' +
            'the others are answered waiting. The same happens where all agree on an owner that ' +
            'has stopped. Nobody takes its steps (stops_are_for_good). Receivers go on.',
    },
    {
        name: 'a sleeper with an old stage',
        script: 'shape 2 1 1 4 64\nput 0 61\nput 1 62\nturn 1 0 1\nturn 0 0 99\nturn 0 0 99\n' +
            'put 0 63\nturn 0 0 99\n',
        question: 'Overtake a sleeper: sender 1 saw tenure 0 open, and sleeps. Let sender 0 ' +
            'send in two tenures, and then wake sender 1. Can it still own tenure 0?',
        can: 'It is overtaken, and cannot. It goes on in the words of tenure 0, finds what is ' +
            'proposed there, and is answered lost 0 0. All see the election of a tenure end ' +
            'alike (one_owner), and its page is taken once (took_once).',
    },
    {
        name: 'a pin in the way',
        script: 'cycle 2 1 1 2 64\nput 0 61\nput 1 62\nturn 1 0 3\nturn 0 0 99\nturn 0 0 99\n' +
            'put 0 63\nturn 0 0 99\n',
        question: 'Open tenure 2 while sender 1 sleeps in tenure 0. Two rows are used again, ' +
            'and tenure 2 is to use the row of tenure 0.',
        can: 'No. Whoever opens tenure 2 clears that row first. It finds the presence of sender ' +
            '1, and answers behind. No row is cleared under a sender: that is rows_are_safe. ' +
            'Wake sender 1, and sender 0 can go on.',
    },
    {
        name: 'a slow receiver of a ring',
        script: 'ring 1 2 1 2 16\nput 0 ' + '61'.repeat(56) + '\nturn 0 0 99\nturn 0 0 99\n' +
            'recv 0 99\nput 0 ' + '62'.repeat(56) + '\nturn 0 0 99\n',
        question: 'Overwrite words that receiver 1 has not heard, while it has not left. Sender ' +
            '0 has the page, and its frame of nine words has no room in a log of sixteen.',
        can: 'No. The sender loads what each receiver has passed, and is answered full while ' +
            'receiver 1 has not passed the first frame. Who has not left finds at its place the ' +
            'word that was published there (history_stands). Let receiver 1 hear, and it fits.',
    },
];
"#;
