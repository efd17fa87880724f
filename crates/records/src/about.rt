//! What the program says of itself.
use crate::USAGE;
use help::About;

/// What `--help` and `--version` print.
pub const ABOUT: About = About {
    name: "records",
    text: "a log of lines of text; a line whose number was printed survives a crash

  append   appends each line of standard input to FILE, and prints its number
  show     prints each record: its number and its text
  check    prints what is damaged, which numbers are missing, and how many records there are
  repair   reads a log from standard input, and writes its records to standard output as a new log
  follow   as show, and then what is appended to FILE, until it is interrupted

  from=N   the records numbered N and above     last=K   the last K of these        json   as JSON

Without FILE the log is standard input. A line may have 992 bytes, and a few more while the numbers
are small. Status: 0 if all is sound, 1 at damage or a line that is
too long, 2 for wrong arguments, 3 if a file failed or is in use, 4 out of memory.
",
    usage: USAGE,
};
