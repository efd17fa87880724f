//! The text of `--help`.
use crate::USAGE;
use help::About;

/// What `--help` and `--version` print.
pub const ABOUT: About = About {
    name: "wire",
    text: "a device's messages as lines of JSON, by their declarations in Rust

  read    prints a line of JSON for each frame on standard input
  write   writes a frame for each line of JSON on standard input
  watch   shows on a terminal the last message of each variant of TYPE, their number and rate, and the
          last damage with its bytes; elsewhere prints a line for each, and the table at the end
  check   lists the types with their maximum sizes; `json` prints them as JSON, for other tools

  hex           frames are hexadecimal digits        strict     takes only frames as sending makes them
  sentinel=HH   the delimiter, by default 00         from=N     skips N bytes of the input
  bytes=hex     shows bytes as hexadecimal           depth=N    maximum nesting of a value, by default 60
  only=VARIANT  shows only values of this variant    empty=N    maximum of empty elements in a list
  raw           messages without frames              crc32      a CRC-32 follows each message
  time          each line has the seconds since the program began

FILES is a file, several separated by commas, or a folder. `watch` cuts lines at the width in COLUMNS,
or 80, and shows as many kinds as fit into LINES, or 24. Damage is red on a terminal, unless NO_COLOR
is set. Status: 0 if all were messages, 1 if some were damaged or not of the type, 2 for wrong
arguments or declarations, 3 if a file or device failed, 4 out of memory.
",
    usage: USAGE,
};
