//! What the program says of itself.

/// What the program decides.
pub const ABOUT: &str =
    "Decides whether the conditions of all processes of a computation could have held at the same time.";

/// The program's name and version, and the toolchain that it is proved with.
pub const VERSION: &str = "wcpwatch 0.3.0\nrattle-kit-13f logic dac8208d650f15bf\n";

/// What `single` does.
pub const SINGLE: &str = "Reads a workload and prints its outcome; done where no word is given";

/// What `run` does.
pub const RUN: &str = "Reads a workload, runs it in threads and prints its outcome";

/// What `replay` does.
pub const REPLAY: &str =
    "Reads a schedule and prints the reply to each of its steps, and then the outcome";

/// What `ring` does.
pub const RING: &str =
    "Reads nothing and prints a workload in which a message goes round all processes";

/// What `--procs` says.
pub const PROCS: &str = "How many processes there are, from 2 to 16";

/// What `--rounds` says.
pub const ROUNDS: &str = "How often each process has its turn, from 1 to 1000";

/// What `--fault` says.
pub const FAULT: &str =
    "Adds a moment, at the very beginning, at which all conditions could have held";

/// An example of each word, the head of a text, the exit statuses and the fault lines.
pub const MORE: &str = "\
single
  A workload says what each process does, in order. It is read from standard input,
  to its end. For example

      wcp 1
      procs 2
      p 0 true
      p 0 send 1
      p 0 true
      p 1 recv 0
      p 1 true

  Process 0 finds its condition true, sends a message to process 1, and finds its
  condition true again. Process 1 receives the message from process 0, and then finds
  its condition true. A condition that is found false is told by `p 0 false`. The
  answer is

      found 1 1
      process 0 emitted 2 taken 2
      process 1 emitted 1 taken 1
      total emitted 3 taken 3

  Both conditions could have held at once, at the earliest when each process had made
  one send or receive. Where they never could, the first line is `none`. The other
  lines count the snapshots of each process: one is emitted where its condition is
  true for the first time since its last send or receive, and in the end all of them
  are taken.

run
  Reads a workload as `single` does, and prints the same outcome. The workload is run:
  a thread plays each process, sends its messages and emits its snapshots, a thread
  runs each relay, and one takes the snapshots that come out of the relays. In whatever
  order the threads get on, the outcome is the same.

replay
  A schedule says step by step how the snapshots go from the processes through links
  and relays to the checker, which takes them. It is read from standard input, to its
  end. For example

      wcp 1
      procs 2
      observe 0 true
      put 0
      observe 1 true
      put 1
      admit 0 0
      pass 0
      admit 0 1
      pass 0
      check
      check

  Each of the two processes finds its condition true and puts its snapshot into its
  link. Relay 0 admits the snapshot of process 0 and passes it on, and then that of
  process 1. The checker takes both. There is one reply to each step, and then the
  outcome so far:

      done
      done
      done
      done
      done
      done
      done
      done
      took 0 snap 0 0 0
      took 1 snap 0 0 0
      found 0 0
      process 0 emitted 1 taken 1
      process 1 emitted 1 taken 1
      total emitted 2 taken 2

  `took 1 snap 0 0 0` names the process, the number of its snapshot, and the clock of
  the snapshot; `took 1 close 1` is the close mark of a process, with the number of its
  snapshots; `took 1 lost 1` is the mark of a process that was lost, with the number of
  snapshots that it had put. `found` names the earliest moment of all that happened, and
  it stays so whatever steps follow. Where no moment is found, the first line of the
  outcome is `none` once the close mark of every process was taken, and then there was
  none; until then it is `undecided`. A process that is lost has no close mark, so after
  a `drop` it is never `none`. A step that can't be done changes nothing, and its reply
  is `refused` with the reason. The steps are

      observe P true    process P finds its condition true (or `false`)
      send P Q          P sends a message to Q; the messages sent are numbered 0, 1, 2, ..
      recv P M          P receives message number M
      close P           P ends; this makes a close mark, which goes the way of a snapshot
      drop P            P vanishes without a close; a mark of its loss enters its link
      put P             P puts the snapshot that waits there into its link
      admit R P         relay R takes the first snapshot in the link of P
      pull R            relay R takes the first snapshot in its inbox
      pass R            relay R passes on the first snapshot that it holds
      check             the checker takes the first snapshot in its inbox

  and the reasons

      nosuch    there is no such process, relay or message
      closed    the process has ended
      backlog   a snapshot of the process waits to be put
      gone      the message was received before
      clockend  the process can make no more sends and receives
      empty     there is nothing to put, take or pass on
      full      there is no room where it would go

ring
  Prints a workload for `single`, in which the processes take turns and each turn ends
  with a message to the next process. `ring --procs 2 --rounds 1` prints

      wcp 1
      procs 2
      p 0 true
      p 0 false
      p 0 send 1
      p 1 recv 0
      p 1 true
      p 1 false

  and the outcome of such a workload is `none`. With `--fault` the lines `p 1 true`
  and `p 1 false` stand before the others, and the outcome is `found 0 0`.

The head of a text
  Each text begins with the lines `wcp 1` and `procs N`, N from 1 to 16. Then there
  may be, in this order,

      cap C           how much each link and each inbox has room for, 1 to 1024, else 8
      hold H          how much each relay may hold, 1 to 64, else 4
      relay R root    relay R = 0, 1, 2, .. up to 14 passes on to the checker; or
                      `relay R S`: it passes on to relay S, and S is below R
      attach P R      relay R takes from process P; P = 0, 1, 2, .. up to N - 1
      watch P Q ..    only the processes P, Q, .. have a condition, in rising order;
                      without this line all of them do
      flag send       a process emits again only once it has sent, and not once it has
                      received: fewer snapshots, the same answer

  With no relay lines one relay takes from all processes and passes on to the checker.
  A relay takes from processes alone or from relays alone, and each from one at least;
  there are at most 8 relays on the way to the checker. A process without a condition
  only passes messages on: it emits nothing, and stands as `-` in the line `found`. Each
  line ends in a line feed, and its words are separated by one space.

  Mistakes that are easily made: a last line without its line feed, a tab in place of a
  space, and a misspelled word are `line L: line`. A byte order mark before the text, or
  lines that end in CR LF, are `line 1: header`. A text in a file is read by
  `single < FILE`; the words `single FILE` are `usage`.

Exit status:
  0  found, or a ring, the version or this help was printed
  1  none or undecided
  2  there is no answer, and one line on standard error says why:
       wcpwatch: usage         the words are none of those above
       wcpwatch: read          standard input could not be read
       wcpwatch: toolarge      the text has more than 2,097,152 bytes
       wcpwatch: line L: KIND  line L of the text is wrong, and KIND says how:
           header   the text begins with the lines `wcp 1` and `procs N`
           line     the line has not the form of any line here, or no line feed
           number   a number is decimal, without leading zeros
           plan     a number of the head is out of its range, or the relays don't fit
           process  the number of a process is below N, and not its partner's
           stuck    no order of the steps has a send before this receive
           toolong  a text has at most 65,536 steps
       wcpwatch: memory        memory ran out
       wcpwatch: run KIND      the threads came to no outcome, and KIND says why:
           memory      memory ran out
           spawn       a thread could not be made
           held P      process P was held back
           lost P      process P ended without a close, which no process of a text does
           cut         a thread ended that another had still to send to or take from
           unfinished  not all that was put was taken
       wcpwatch: write         the output could not be written
";
