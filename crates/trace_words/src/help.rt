//! What the program says of itself.

/// Calls for the questions that are asked most.
pub const EXAMPLES: &str = "\
Examples:
  wcptrace --while 'ada=holds|writes' --while 'ben=holds|writes' lease.log
      Did Ada and Ben hold the lease at the same time?
  wcptrace --from n1=leader --until n1=steps --from n2=leader --until n2=steps two_leaders.log
      Were n1 and n2 leaders at the same time, each over several events?
  tail -n +1 -f all.log | wcptrace --form lines --progress --at 'a=^writes' --at 'b=^writes'
      Do a and b write at the same time? It is answered as soon as the log tells.";

/// What the program does.
pub const ABOUT: &str =
    "Finds the first moment in a log with vector clocks at which the conditions of all watched hosts held.";

/// The program's name and version, and the toolchain that it is proved with.
pub const VERSION: &str = "wcptrace 0.3.0\nrattle-kit-13f logic dac8208d650f15bf\n";

/// What `--while` says.
pub const WHILE: &str =
    "The host's condition holds from an event whose text has a match until the host's next event";

/// What `--from` says.
pub const FROM: &str = "The host's condition holds from an event whose text has a match";

/// What `--until` says.
pub const UNTIL: &str = "The end of --from: an event of the same host whose text has a match";

/// What `--at` says.
pub const AT: &str = "The host's condition holds at an event whose text has a match, and no longer";

/// What `--any-two` says.
pub const ANY_TWO: &str =
    "Do any two hosts whose names match HOSTS hold it at once? The state is that of --while";

/// What `--any-two-from` says.
pub const ANY_TWO_FROM: &str = "The same of a state that begins with a match";

/// What `--any-two-until` says.
pub const ANY_TWO_UNTIL: &str = "The end of --any-two-from: an event whose text has a match";

/// What `--questions` says.
pub const QUESTIONS: &str =
    "A TOML file of several questions about one log, in the place of conditions: each is answered behind its name";

/// What `--question` says.
pub const QUESTION: &str = "Asks only this one of the questions of the file";

/// What `--all` says.
pub const ALL: &str =
    "Goes on behind each moment, and writes them all; each begins, at every host, behind the one before";

/// What `--definitely` says.
pub const DEFINITELY: &str =
    "Asks whether the conditions must have held at once, in whichever order the events came";

/// What `--form` says.
pub const FORM: &str =
    "The form of the log: lines, shiviz, shiviz-reversed or messages; shiviz where none is given";

/// What `--strict` says.
pub const STRICT: &str =
    "With --form messages: lines that wait at the end of the log are a fault, and not the answer unknown";

/// What `--assume-sent` says.
pub const ASSUME_SENT: &str =
    "With --form messages: a line that waits for a message that no line sends waits no longer at the end of the log";

/// What `--check` says.
pub const CHECK: &str =
    "An event that knows an event of another host, but not all that this knew, is a fault";

/// What `--parser` says.
pub const PARSER: &str =
    "The spelling of an event, with the groups host, clock and event: '(?<host>\\S*) (?<clock>\\{.*\\})\\n(?<event>.*)'";

/// What `--event-lines` says.
pub const EVENT_LINES: &str =
    "How many lines an event has; else as many as --parser has \\n, and one more";

/// What `--skip-unmatched` says.
pub const SKIP_UNMATCHED: &str =
    "Passes over lines that are no event, and says at the end how many they were";

/// What `--host-field` says.
pub const HOST_FIELD: &str =
    "The member of a JSON line that is the host, with dots for depth: service.name";

/// What `--clock-field` says.
pub const CLOCK_FIELD: &str = "The member that is the clock: an object, or a text that holds one";

/// What `--event-field` says.
pub const EVENT_FIELD: &str = "The member that is the text of the event";

/// What `--explain` says.
pub const EXPLAIN: &str =
    "Says behind the answer why it stands: how long each state lasts, and what one host knew of the other";

/// What `--order` says.
pub const ORDER: &str =
    "Writes in place of the moment all events that lead to it, each behind those that happened before it";

/// What `--json` says.
pub const JSON: &str = "Writes each answer as a JSON object in a line of its own";

/// What `--progress` says.
pub const PROGRESS: &str =
    "Says on standard error, once a minute, how many events were read and which hosts logged none";

/// What `--page` says.
pub const PAGE: &str =
    "Writes a page in the place of the answer: one HTML file, with the events before the moment and some behind it";

/// What `--events` says.
pub const EVENTS: &str =
    "How many events until the moment is known the page shows, besides those behind it; 2000 where it isn't given";

/// What `--svg` says.
pub const SVG: &str =
    "Draws a picture in the place of the answer: an SVG document, with the events about the moment";

/// What `--columns` says.
pub const COLUMNS: &str =
    "The most columns of the picture, from 10 to 1000; 80 where it isn't given";

/// What `--from-line` says.
pub const FROM_LINE: &str = "The first line of the log that is read; 1 where it isn't given";

/// What `--to-line` says.
pub const TO_LINE: &str = "The last line of the log that is read: the log ends behind it";

/// What the word FILE says.
pub const FILE: &str =
    "The log; several are read one behind the other; standard input where none is given, or `-`";

/// The forms, the answer, the exit statuses and the fault lines.
pub const MORE: &str = "\
The log is read line by line as it comes in. Each host that is named by an option is watched,
each by one condition; other hosts may stand in the log. HOST ends at the first `=`. REGEX is a
regular expression, which may match anywhere in the text.

  lines            a line for each event: {\"host\":\"alice\",\"clock\":{\"alice\":2},\"event\":\"holds\"}
  shiviz           two lines for each event: alice {\"alice\":2}, and then its text
  shiviz-reversed  the text first
  messages         a line for each event, without clocks: {\"host\":\"alice\",\"event\":\"asks\",\"send\":\"m1\"}

The answer is written as soon as it is known:

  found                                none
  alice line 8 holds the lock          alice events 12 matched 3
  bob line 18 holds the lock           bob events 9 matched 2

Exit status: 0 found, 1 none, 2 unknown, where lines of a log without clocks wait at its end for a message that
no line sends; and 2 where no answer can be given, with one line on standard error:
  line L: KIND: WHY     line L has a fault: long, text, clock, own, order, falls or many
  usage: WHY            the words ask for nothing that the program knows
  FILE: WHY             the file can't be opened
  expression HOST: WHY  the expression of this host is none
  nohost HOST           this host logs nothing
  read, write           the input or the output failed
  memory                memory ran out
Where the other end of the output's pipe is closed, the exit status is 141, without a line.
";
