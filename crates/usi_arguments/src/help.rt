//! The texts of help.

pub(crate) const ABOUT: &str =
    "Analyses shogi positions to an exact depth, for front ends that speak USI";

pub(crate) const AFTER_HELP: &str =
    "Without arguments it runs `stdio`, as front ends start an engine.
`usi_host COMMAND --help` shows the options of a command, with their ranges.";

pub(crate) const AFTER_LONG_HELP: &str =
    "Without arguments it runs `stdio`, as front ends start an engine.
`usi_host COMMAND --help` shows the options of a command, with their ranges.

Exit statuses:
  0  the input ended, the session is over, the script was replayed, the last turn was taken,
     moves were listed or counted, mates were sought, or help or the version was asked for
  1  out of memory, a failed read or write, or a socket that could not be made or waited for;
     standard error says which
  2  the arguments are not accepted; standard error says why; or a line for `mate` has no position
  3  a script has a bad line; standard error gives its number

Examples:
  usi_host
  usi_host stdio --entries 100000
  usi_host stdio --eval exchange --depth 6
  printf 'position startpos\\ngo depth 3\\nquit\\n' | usi_host
  printf '+A\\n+B\\nA go depth 1\\nB usi\\n' | usi_host replay --slots 2
  usi_host serve --socket /tmp/shogi.socket
  usi_host perft --depth 4
  usi_host mate --plies 7 --line --sfen '4k4/9/4P4/9/9/9/9/9/9 b G'";

pub(crate) const MATE_HELP: &str =
    "Each move of the side to move gives check. Every interposition counts as a move.";

pub(crate) const MATE_LONG_HELP: &str =
    "It tells the length of the shortest mate by checks, as `mate 7`, or `no mate in 9 plies by checks`.
Each move of the side to move gives check and is legal, so no pawn is dropped to mate; the side that
is mated is in check and has no legal move. Every interposition counts as a move. With --keys, a line
follows for each position of the side to move on the main line, with all moves that mate as quickly,
and then `unique`, or in how many of them there is more than one.

Without --sfen, each line of standard input is a position, answered before the next is read. A line
that has none is answered by `error: line 3: ` and why, and the others are answered all the same.
No time is promised: a search of 15 plies may take minutes, and Ctrl-C ends it.

Exit statuses:
  0  all positions were answered, whether there is a mate or not
  1  out of memory, or a failed read or write; standard error says which
  2  the arguments are not accepted, or the SFEN has a fault, as standard error says; or a line has no
     position, as its answer says

Examples:
  usi_host mate --sfen '4k4/9/4P4/9/9/9/9/9/9 b G'
  usi_host mate --plies 5 --line --keys <problems.sfen";

pub(crate) const PERFT_HELP: &str =
    "The count is the last line; with --divide, a line for each first move comes before it.";

pub(crate) const PERFT_LONG_HELP: &str =
    "The count is the last line; with --divide, a line for each first move comes before it, as
`7g7f: 30`, in the order of their codes. A sequence ends with its last move: one that mates sooner
does not count. Nothing is written before all is counted, and Ctrl-C ends it.

Exit statuses:
  0  the sequences were counted
  1  out of memory, or a failed write; standard error says which
  2  the arguments are not accepted, the SFEN has a fault, or there are more sequences than
     18446744073709551615; standard error says which

Examples:
  usi_host perft --depth 4
  usi_host perft --depth 2 --divide --sfen '4k4/9/9/9/9/9/9/9/4K4 b P'";

pub(crate) const MOVES_HELP: &str = "Each move is a line, as USI writes it.";

pub(crate) const MOVES_LONG_HELP: &str =
    "Each move is a line, as USI writes it, in the order of codes: moves of pieces by their squares, then
drops. Where the side to move is mated, nothing is written.

Exit statuses:
  0  the moves were listed
  1  out of memory, or a failed write; standard error says which
  2  the arguments are not accepted, or the SFEN has a fault; standard error says which

Example:
  usi_host moves --sfen '4k4/9/9/9/9/9/9/9/4K4 b P'";

pub(crate) const STDIO_HELP: &str = "It ends with `quit`, or when its input ends.";

pub(crate) const STDIO_LONG_HELP: &str = "It ends with `quit`, or when its input ends.

Exit statuses:
  0  the session is over
  1  out of memory, or a failed read or write; standard error says which

Examples:
  usi_host stdio --entries 100000
  usi_host stdio --eval exchange --depth 6";

pub(crate) const REPLAY_HELP: &str = "`usi_host replay --help` describes the lines of a script.";

pub(crate) const REPLAY_LONG_HELP: &str = "Lines of a script:
  +A      opens a session under the name A, a letter from A to Z
  A TEXT  sends the line TEXT to the session A
  -A      closes the session A once it has answered, and frees the name
Blank lines are skipped. Any other line is bad, and so is a name that is opened twice, or used
while it is not open: nothing is written then, and the status is 3.

The output has for each + line, in order, the line `== A` and all replies of that session, or
`refused 1` where all slots were taken. The size of the table and of a slice does not change it.

Exit statuses:
  0  the script was replayed
  1  out of memory, or a failed read or write; standard error says which
  3  the script has a bad line; standard error gives its number

Example:
  printf '+A\\n+B\\nA go depth 1\\nB usi\\n' | usi_host replay --slots 2";

pub(crate) const SERVE_HELP: &str = "Each connection is a session of its own.";

pub(crate) const SERVE_LONG_HELP: &str =
    "Each connection is a session of its own. It ends when the client sends `quit`, or when the
client closes its side and has its answers. A client that finds all slots taken is sent
`info string host full`. The file of a socket stays when the program ends.
Whoever connects to the socket of --status is sent one line of JSON, with what the host counts, and
is closed.
A search is not cut short: where strangers may connect, --max-depth says how deep one goes at most.
An idle host does not end by --turns: each turn is followed by a wait, which may last until a
client comes.

Exit statuses:
  0  the last turn was taken
  1  out of memory, no random seed could be read, or the socket could not be made or waited
     for; standard error says which

Example:
  usi_host serve --socket /tmp/shogi.socket --status /tmp/shogi.status --slots 256";

pub(crate) const STDIO_ABOUT: &str = "Answers one front end over standard input and output";

pub(crate) const REPLAY_ABOUT: &str = "Runs many sessions from one script on standard input";

pub(crate) const SERVE_ABOUT: &str =
    "Serves many front ends on a Unix socket, each with a session of its own";

pub(crate) const PERFT_ABOUT: &str = "Counts the sequences of legal moves from a position";

pub(crate) const MOVES_ABOUT: &str = "Lists the legal moves of a position";

pub(crate) const MATE_ABOUT: &str = "Finds the shortest mate by checks (tsume)";

pub(crate) const MATE_PLIES: &str = "The most plies of a mate, an odd number from 1 to 15";

pub(crate) const LINE: &str = "Tells the main line, too";

pub(crate) const KEYS: &str = "Tells the moves that mate as quickly, too";

pub(crate) const SFEN_OR_LINES: &str =
    "The position, and after it `moves` and moves [default: the lines of standard input]";

pub(crate) const SFEN: &str =
    "The position, and after it `moves` and moves [default: the opening position]";

pub(crate) const PLIES: &str = "How many moves long the sequences are, from 1 to 16";

pub(crate) const DIVIDE: &str = "Tells the count of each first move, too";

pub(crate) const SOCKET: &str =
    "Where the socket is made: a path of 1 to 107 bytes, which must not exist";

pub(crate) const STATUS: &str =
    "Where a second socket is made, which tells the status: a path like that of --socket";

pub(crate) const TURNS: &str =
    "After how many turns it ends, from 1 to 18446744073709551615 [default: no end]";

pub(crate) const SLOTS: &str = "How many sessions may be open at a time, from 1 to 1024";

pub(crate) const ENTRIES: &str =
    "How many positions the transposition table keeps, from 1 to 1000000";

pub(crate) const SLICE: &str =
    "How many steps a session searches before the others' turn, from 1 to 1000000000";

pub(crate) const DEPTH: &str =
    "The option Depth as a session begins, from 1 to 16 [default: 3, or --max-depth if less]";

pub(crate) const MAX_DEPTH: &str =
    "The greatest depth of a search, from 1 to 16: Depth and `go depth` are held to it";

pub(crate) const LINES: &str = "The option MultiPV as a session begins, from 1 to 8";

pub(crate) const EVAL: &str =
    "The option Eval as a session begins: plain, hand or exchange; Exchange is offered only so";
