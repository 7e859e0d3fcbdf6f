//! The help texts. Their lines are broken by hand, so that printed lines have at most 79 columns. Beside the options of
//! `batch`, `repl` and `serve` there are 44 columns, and beside those of the commands of `keep` 66.

pub(crate) const ABOUT: &str = "NESL sessions for many users, every reply of which is proved";

pub(crate) const BATCH: &str = "Answers the lines of standard input on standard output";

pub(crate) const USERS: &str = "\
A user's name: 1 to 16 small letters and digits, a letter
first; 1 to 64 users, each named once";

pub(crate) const HEAP: &str = "\
Evaluates in a heap of this size: 16 to
1073741824 bytes";

pub(crate) const CSV: &str = "\
Writes n, work and depth of the last line
for each of these values of n, as 1,2,4,8;
the lines of standard input are run again
for each";

pub(crate) const HINTS: &str = "\
Writes below a fault what is wrong and
where, in one line that begins with `hint: `";

pub(crate) const SERVE: &str = "\
Answers the lines of connections to 127.0.0.1, each of one user;
the first line of each is `user NAME`";

pub(crate) const PORT: &str = "\
The port to listen on: 0 to 65535, where 0
is any that is free";

pub(crate) const WORKERS: &str = "\
How many threads may help those that serve,
all together: 0 to 64";

pub(crate) const CONNECTIONS: &str = "\
Ends after this number of connections:
1 to 1000000";

pub(crate) const WEB: &str = "\
Shows a page to browsers on this port, too,
and serves users there: 0 to 65535, where 0
is any that is free";

pub(crate) const WEB_HOST: &str = "\
A name by which browsers may ask for the
page, beside localhost, 127.0.0.1 and [::1]";

pub(crate) const LESSONS: &str = "\
Shows the lessons of this folder in the page
in place of ours: a file `.md` for each";

pub(crate) const IDLE: &str = "\
Ends a connection whose line isn't complete
after this number of seconds, or that reads
nothing of an answer for as long: 1 to 86400";

pub(crate) const FIRST_LINE: &str = "\
Ends a connection whose first line isn't
complete after this number of seconds: 1 to
86400, 10 without it";

pub(crate) const LOG: &str = "\
Logs each connection's begin, user and end,
and why it ended, on standard error";

pub(crate) const STATS: &str = "\
Writes how the service is doing into this
file, as one line of JSON, every ten seconds
and at the end";

pub(crate) const KEEP: &str = "\
Keeps the sessions in files of this folder,
one for each user: a line is on the disk
before its answer is written";

pub(crate) const KEYS_FILE: &str = "\
Lets users in by their keys, which are
listed in this file: a first line is then
`user NAME KEY`";

pub(crate) const USER_HEADER: &str = "\
Takes the user of a browser from this header
of its request alone, which a proxy sets;
the port for lines then needs --keys, or is
not listened to";

pub(crate) const BIND: &str = "\
Listens at this IP address, and not at
127.0.0.1: needs --keys, which travel in the
clear unless a proxy adds TLS";

pub(crate) const LINE_WORK: &str = "\
Lets a line take this much work: 1 to
1000000000, 1000000 without it";

pub(crate) const SESSION_WORK: &str = "\
Lets all lines of a session together take
this much work: 100000000 to
1000000000000000, 100000000 without it";

pub(crate) const ELEMENTS: &str = "\
Lets the names of a session hold this number
of elements: 1 to 1000000000, 100000 without
it";

pub(crate) const TRANSCRIPT_LINES: &str = "\
Records this number of lines of a session:
1 to 1000000, 10000 without it";

pub(crate) const TRANSCRIPT_BYTES: &str = "\
Records this number of bytes of a session's
lines: 1 to 1073741824, 1048576 without it";

pub(crate) const USERS_FILE: &str = "\
Serves the users whom this file lists, too:
one on each line, except empty lines and
those that begin with #";

pub(crate) const CHECK: &str = "\
Reads the words, the users and the keys, and
locks the folder of --keep; then it ends,
and nothing is served";

pub(crate) const CONTROL_PATH: &str = "\
Lets an operator steer the service by the
socket of this path, by `pazkindu control`;
its folder must be closed to all others";

pub(crate) const METRICS: &str = "\
Answers a monitor on this port of 127.0.0.1:
0 to 65535, where 0 is any that is free";

pub(crate) const LOG_FILE: &str = "\
Logs as --log does, but into this file, to
which lines are added";

pub(crate) const CONTROL: &str = "Asks a running service, by the socket of `serve --control`";

pub(crate) const PATH: &str = "The socket of `serve --control PATH`";

pub(crate) const REQUEST: &str = "What is asked, as `seats` or `renew ann`";

pub(crate) const REPL: &str = "\
Opens a session of one's own, with a prompt, help, and hints below
faults";

pub(crate) const REPL_HINTS: &str = "\
Shows hints even if standard output is no
terminal";

pub(crate) const REPL_FILES: &str = "\
Lets :load and :save open files also if
standard input is no terminal";

pub(crate) const KEPT: &str = "Looks at the sessions that `serve --keep` keeps";

pub(crate) const KEPT_CHECK: &str = "Says which sessions come back, and why others don't";

pub(crate) const KEPT_SHOW: &str = "Shows the lines of a user, each with its answer below it";

pub(crate) const KEPT_RENEW: &str =
    "Begins the session of a user anew, and puts the old file aside";

pub(crate) const KEPT_CSV: &str = "Writes the lines of all users, or of one, as CSV";

pub(crate) const KEPT_FOLDER: &str = "The folder of `serve --keep FOLDER`";

pub(crate) const KEPT_USER: &str =
    "A user's name: 1 to 16 small letters and digits, a letter first";

pub(crate) const KEYS: &str = "\
Makes keys, with which a first line is `user NAME KEY`";

pub(crate) const OUT: &str = "\
Writes salts and digests of the keys into this new file,
which only its owner may read";

pub(crate) const RENEW: &str = "\
Gives these users new keys in the file, which is there
already; all other lines of it stay";

pub(crate) const PAGE: &str = "\
The address of the page, with which links begin:
http://127.0.0.1/ without it";

pub(crate) const BATCH_EXAMPLE: &str = "For example: pazkindu batch ann bob < lines";

pub(crate) const SERVE_EXAMPLE: &str =
    "For example: pazkindu serve --port 7000 --workers 4 ann bob";

pub(crate) const REPL_EXAMPLE: &str = "For example: pazkindu repl";

pub(crate) const KEPT_EXAMPLE: &str = "For example: pazkindu keep check sessions ann";

pub(crate) const KEYS_EXAMPLE: &str = "For example: pazkindu keys --out class.keys ann bob";

pub(crate) const CONTROL_EXAMPLE: &str = "For example: pazkindu control run/socket seats";

pub(crate) const CONTROL_AFTER: &str = "\
The words are one of these:

    seats           a row for each user: who is here, what is left, how it goes
    end USER        ends the user's connections
    renew USER      ends the session of a user who has no connection, and begins
                    another one, with all work and nothing bound
    stop [SECONDS]  lets nobody in any more, and ends the service once all users
                    have left, but no later than after SECONDS
    reopen          opens the file of --log-file anew
    keys            reads the file of --keys again, for those who sign in later
    check           how many threads have a connection, and whether the disk of
                    --keep can be written

The last line of the answer is `ok`, or `error` and the reason. A `check` waits
up to ten seconds for a service that is being started.

Exit status: 0 after `ok`, 1 after `error` or if the service isn't reached, 2 if
the words are wrong.";

pub(crate) const BATCH_AFTER: &str = "\
A line `user NAME` selects the user that the lines after it are for. Each
other line goes to that user's own session and is answered by one line: a value
with its type, work and depth, what else was defined, or a fault. So

    user ann
    {a * a : a in [1, 2]};

is answered by

    user ann
    it = [1, 4] : [int] (work 12, depth 7)

A line that ends in a backslash goes on in the user's next one. :names, :budget
and :type show what the session has, and :reset clears it.

Exit status: 0 at the end of input, 1 if a device or memory failed, 2 if the
words or the users' names are wrong.";

pub(crate) const SERVE_AFTER: &str = "\
It prints `listening on 127.0.0.1:7000` once it listens on that port. The first
line of a connection names its user and is sent back; each line after it is
answered by one line, as in

    rlwrap nc -N 127.0.0.1 7000
    user ann
    user ann
    2 * 3 + 1;
    it = 7 : int (work 5, depth 5)

With --web it prints `page at http://127.0.0.1:8080/` below that: open this in
a browser.

A user has one connection at a time, and the session waits for the next. With
--keep it also waits for the next service on that folder. With --keys each user
has a key, which `pazkindu keys` makes, and the newest connection of a user
ends an older one. It listens to this machine only, unless --bind is given;
docs/OPERATING.md says how to let others in, and what that costs.

Exit status: 0 after the last of the connections, 1 if a socket or memory
failed, or a line could not be kept, 2 if the words or the users' names are
wrong.";

pub(crate) const REPL_AFTER: &str = "\
A form may go on over several lines, until its `;`. At a terminal two blank
lines end it too. It is answered by one line, as in a batch, and below a fault
is what is wrong, and where:

    > sum 3;
    fault syntax (work 0)
      sum 3;
      --- ^
      hint: an argument belongs in parentheses: `sum(..)`; between two values
            there is an operator

:help lists what there is, and :help take explains take and what it costs.
:type NAME shows a type, and :list the forms that bound a name. :save FILE
writes these into a file, :load FILE runs the lines of one, and :quit ends.

There is no line editor: `rlwrap pazkindu repl` has one, and keeps a history.
If standard input or standard output is no terminal, there are no prompts. If
standard input is none, :load and :save are refused, but with --files.

Exit status: 0 at :quit and at the end of input, 1 if a device or memory
failed, 2 if the words are wrong.";

pub(crate) const KEPT_AFTER: &str = "\
`pazkindu serve --keep sessions` keeps the session of each user in a file of
the folder `sessions`: a head, and the lines since the last :reset. Then

    pazkindu keep check sessions
    pazkindu keep show sessions ann
    pazkindu keep csv sessions > class.csv

may be called at any time, also while the folder is served. They write nothing
into it. Each answers the lines anew, which takes up to some seconds for a
session that has used up its work.

    pazkindu keep renew sessions ann

begins a session anew. It is refused while the folder is served.

Exit status: 0 if all went well, 1 if a session can't be had or a device or
memory failed, 2 if the words or the user's name are wrong.";

pub(crate) const KEPT_CHECK_AFTER: &str = "\
Without USER it looks at all files of the folder, in the order of their names,
and prints a line for each, as

    ann comes back: 12 lines, 345 bytes
    bob comes back: 3 lines, 90 bytes, of which 17 after the last line don't count
    eve can't be read: it is a link
    zed doesn't come back: line 3 isn't stored by this version

A session comes back if the first line of its file is a head, and if the session
that this head names stores each of the other lines again. The lines are counted
without the head, but in `line 3` the head is line 1. What a crash left after
the last line doesn't count, and is dropped when the user comes.

Exit status: 0 if all sessions come back, 1 if one doesn't or can't be read, or
if a device or memory failed, 2 if the words or the user's name are wrong.";

pub(crate) const KEPT_SHOW_AFTER: &str = "\
It prints each line of the user since the last :reset after a `>`, and below it
the answer, as

    > x = 3;
    x = 3 : int (work 1, depth 1)
    > x + 1;
    it = 4 : int (work 3, depth 3)

If a line is no UTF-8 or has control characters, its bytes are shown as \\x1b,
apart from the printable ones of ASCII.

Exit status: 0 if the session comes back, 1 if it doesn't or can't be read, or
if a device or memory failed, 2 if the words or the user's name are wrong.";

pub(crate) const KEPT_RENEW_AFTER: &str = "\
The file of the user gets another name in the folder: the user's with the time
in UTC, as ann.2026-11-30T12-00-00Z. No other file is replaced. Nobody is in the
way of this name, since a user's has no dot. The next connection of the user
begins with an empty session. To take the old one up again, give the file its
name back while the folder isn't served.

Exit status: 0 if the file was put aside, 1 if the folder is served, if there is
no such file, or if a device or memory failed, 2 if the words or the user's name
are wrong.";

pub(crate) const KEPT_CSV_AFTER: &str = "\
The first row has the names of the columns, and after it there is one for each
line since its user's last :reset, as

    user,line,answer,value,type,work,depth,fault
    ann,x = 3;,\"x = 3 : int (work 1, depth 1)\",3,int,1,1,
    ann,1 / 0;,fault division at 0..5 (work 3),,,,,division

A cell that isn't in the answer is empty. If a line is no UTF-8 or has control
characters, its bytes are written as \\x1b, apart from the printable ones of
ASCII. If a session doesn't come back, its lines up to there have rows, and
standard error has the reason.

Exit status: 0 if all sessions come back, 1 if one doesn't or can't be read, or
if a device or memory failed, 2 if the words or the user's name are wrong.";

pub(crate) const KEYS_AFTER: &str = "\
It prints a line `NAME KEY LINK` for each user. That is the only copy of a key:
the file has salts and digests, and no key can be found from these. A service
asks for keys with --keys FILE. The link opens its page, whose address --page
gives with its port, and signs in.

Exit status: 0 if the file was written, 1 if that or a device failed, 2 if the
words or the users' names are wrong.";

pub(crate) const GRADE: &str = "Grades submissions by an exercise";

pub(crate) const GRADE_CSV: &str = "Writes CSV: a row for each test of each submission";

pub(crate) const GRADE_JSON: &str = "Writes JSON: an object for each submission";

pub(crate) const GRADE_JUNIT: &str = "Writes XML as JUnit does: a suite for each submission";

pub(crate) const GRADE_HTML: &str = "\
Writes a page for each submission into this new folder,
and index.html";

pub(crate) const GRADE_KEPT: &str = "\
Grades the kept sessions of this folder, too, as
serve --keep leaves them";

pub(crate) const GRADE_JOBS: &str = "The number of threads, 1 to 64 (1 if not given)";

pub(crate) const GRADE_TRY: &str = "Grades the exercise's own solution, too";

pub(crate) const GRADE_EXERCISE: &str = "The exercise: a Markdown file with tests";

pub(crate) const GRADE_SUBMISSIONS: &str = "Files with definitions, or folders of such files";

pub(crate) const GRADE_EXAMPLE: &str =
    "For example: pazkindu grade lessons/exercises/quicksort.md submissions";

pub(crate) const GRADE_AFTER: &str = "\
It prints the points of each submission, and the first test that isn't passed,
as

    ann.nesl  13 of 13
    bob.nesl  9 of 13  line 14: n = 128: 102282 is above 61500

Each test of a submission has a session of its own. It gets what the exercise
gives, then the submission, then the test. With --kept a submission is the lines
of a user since the last :reset. docs/GRADING.md describes how exercises are
written, and goes from an empty folder to the report of a class.

For example: pazkindu grade lessons/exercises/quicksort.md submissions

Exit status: 0 if all submissions were graded, whatever their points, 1 if a
file can't be read, the exercise is wrong, or a device or memory failed, 2 if
the words are wrong or there is no submission.";

pub(crate) const PROGRAM_AFTER: &str = "\
`pazkindu repl` opens a session to try things in. For others, with one user
whose name is ann,

    printf 'user ann\\n2 * 3 + 1;\\n' | pazkindu batch ann

prints `user ann` and `it = 7 : int (work 5, depth 5)`. `pazkindu repl --help`,
and so for batch, serve, keys, control and keep, says more; README.md is where
the guide begins, and docs/LANGUAGE.md has the language.";
