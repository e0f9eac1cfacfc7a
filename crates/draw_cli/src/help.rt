//! What the program says of itself.

/// Calls for the pictures that are asked for most.
pub const EXAMPLES: &str = "\
Examples:
  wcpdraw --names Dora,Rick,Rita replica_pool.txt > replica_pool.svg
      Draws the workload in a file.
  wcpdraw --page replica_pool.txt > replica_pool.html
      Writes a page to be opened in a browser.
  wcpwatch ring --procs 3 --rounds 2 | wcpdraw > ring.svg
      Draws what another program writes.";

/// What the program does.
pub const ABOUT: &str =
    "Draws a computation, and the first moment at which the conditions of all its processes could have held.";

/// The program's name and version, and the toolchain that it is proved with.
pub const VERSION: &str = "wcpdraw 0.3.0\nrattle-kit-13f logic dac8208d650f15bf\n";

/// What `--svg` says.
pub const SVG: &str = "Draws an SVG document, as it does where no form is given";

/// What `--page` says.
pub const PAGE: &str =
    "Writes a page in the place of a picture: one HTML file, in which the causes and effects of each event show";

/// What `--events` says.
pub const EVENTS: &str =
    "How many events the page shows at most, those about the moment; all where none is given";

/// What `--names` says.
pub const NAMES: &str =
    "The names of the processes, in their order, with a comma between each two: ann,ben,cid";

/// What `--columns` says.
pub const COLUMNS: &str =
    "The most columns that are drawn, from 10 to 1000; 80 where it isn't given";

/// What the word FILE says.
pub const FILE: &str = "The workload; standard input where none is given, or `-`";

/// What is read and drawn, the exit statuses and the fault lines.
pub const MORE: &str = "\
A workload is read to its end: what each process does, in order, as for `wcpwatch single`. Its
picture is written in one piece. Each process has a line, on which time goes to the right; a bar is
an interval in which its condition was true, a dot a send or a receive, and an arrow a message. The
dashed line is the first moment at which all conditions could have held, with the interval of each
process. Where more sends and receives stand side by side than columns are drawn, those about this
moment are drawn, and how many are left out is told.

Where no names are given, the processes are named `process 0`, `process 1` and so on. A name is not
empty, and there are as many as processes.

Exit status: 0 there is such a moment, 1 there is none and the picture shows no line, 2 where there
is no picture, with one line on standard error:
  usage: WHY            the words ask for nothing that the program knows
  FILE: WHY             the file can't be opened
  read, write           the input or the output failed
  toolarge              the input is longer than a text may be
  line L: KIND          line L of the text has a fault, of the kinds that `wcpwatch --help` names
  names                 a name is empty, or there are not as many names as processes
  memory                memory ran out
Where the other end of the output's pipe is closed, the exit status is 141, without a line.
";
