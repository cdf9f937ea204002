//! What `--help` says behind the options: an example of each command, and where formats stand.
//! `examples/names` sees that the manual page and the completions name the same commands, options
//! and version.

/// The version of the program.
pub const VERSION: &str = "0.1.0";

/// The program and its version, which open the help of `bus`.
pub const NAME_AND_VERSION: &str = "bus 0.1.0";

/// Behind the options of `bus`.
pub const BUS: &str = "Examples:
  bus ratify < examples/tour/1_adopt_commit.script
  bus replay < examples/tour/3_late_sender.script
  bus trace < examples/tour/3_late_sender.script
  bus run --senders 3 --receivers 2 --messages 100 --seed 7
  bus run --log | bus log --senders 3

'bus COMMAND --help' says more of a command. Formats, refusals and exit statuses stand in
docs/FORMATS.md, and examples/tour has nine commented scripts.";

/// How `ratify` is called. It and the four below it read standard input.
pub const RATIFY_USAGE: &str = "bus ratify < FILE";

/// How `replay` is called.
pub const REPLAY_USAGE: &str = "bus replay < FILE";

/// How `trace` is called.
pub const TRACE_USAGE: &str = "bus trace [OPTIONS] < FILE";

/// How `log` is called.
pub const LOG_USAGE: &str = "bus log [OPTIONS] < FILE";

/// How `journal` is called.
pub const JOURNAL_USAGE: &str = "bus journal [OPTIONS] < FILE";

/// Behind the options of `ratify`.
pub const RATIFY: &str =
    "A script says the input of each process, 0 or 1, and then who takes a step.

Example:
  printf 'inputs 0 1\\nsteps 0 0 0 0 0 0 1 1 1 1 1 1\\n' | bus ratify

The format stands in docs/FORMATS.md, under 'ratify'.";

/// Behind the options of `replay`.
pub const REPLAY: &str =
    "The first line of a script is 'shape N M R T L': N senders (1 to 64), M receivers (1 to 64),
R rounds for each bit (1 to 8), T tenures (1 to 256) and L log words (16 to 65536).
With 'cycle' in the place of 'shape' there are T rows (2 to 8), which are used again, for up to
2^40 tenures. With 'ring' the L log words are used again too, and two more numbers may stand
behind L: 'ring N M R T L [S [B]]' has S seats (M to 64; M where left out), of which the first
M have a receiver, and batches of at most B messages (1 to 64; 16 where left out).
The lines behind it are 'put S HEX', 'close S', 'turn S W K', 'recv M K', 'stop S', 'leave S',
'gone M' and 'fork I J'.
Sender S takes at most K turns (1 to 10000), and votes by the word W; receiver M takes at most K.
Receiver I forks to the seat J above its own, if nobody has that.
HEX are the bytes of a message, two digits for each, at most 56.

Examples:
  printf 'shape 1 1 1 4 16\\nput 0 6869\\nturn 0 0 99\\nturn 0 0 99\\nrecv 0 99\\n' | bus replay
  bus replay < examples/tour/3_late_sender.script

All lines and answers stand in docs/FORMATS.md, under 'replay'.";

/// Behind the options of `trace`.
pub const TRACE: &str =
    "It takes the scripts of 'replay', and shows each step as a line of columns under one header:
number, script line, who, tenure, kind, word, found, after, and the answer.

Examples:
  bus trace < examples/tour/3_late_sender.script
  bus trace --svg < examples/tour/3_late_sender.script > steps.svg
  bus trace --html < examples/tour/3_late_sender.script > steps.html
  bus trace --play < /dev/null > play.html

The columns, the picture and the web pages stand in docs/FORMATS.md, under 'trace'.";

/// Behind the options of `run`.
pub const RUN: &str = "It reads nothing. The order of the messages may differ from run to run.

Examples:
  bus run --senders 3 --receivers 2 --messages 100 --seed 7
  bus run --senders 1 --receivers 1 --messages 2 --log
  bus run --messages 20 --journal > run.journal

What is printed stands in docs/FORMATS.md, under 'run'.";

/// Behind the options of `log`.
pub const LOG: &str =
    "A line is one word, in 16 hexadecimal digits; 'bus run --log' prints such lines.

Examples:
  bus run --senders 2 --log | bus log --senders 2
  printf '4000010000000000\\nc000000000000000\\n' | bus log --senders 1

The format stands in docs/FORMATS.md, under 'Words of a log'.";

/// Behind the options of `journal`.
pub const JOURNAL: &str =
    "The last line is 'whole', 'torn' or 'damaged', and how many bytes the header and the whole
records have.
The status is 0 where the journal is whole, and with --repair also where a torn tail was cut off.
Where whole records stand behind a damaged head, nothing is cut off.

Examples:
  bus journal < run.journal
  bus journal --repair < run.journal > whole.journal

The format stands in docs/FORMATS.md, under 'Journals'.";
