//! What the program says of itself.
use help::About;

/// What `--help` and `--version` print.
pub const PUMP: About = About {
    name: "pump",
    text: "a device to call over a line, and a console that calls it

`pump device --help` and `pump console --help` say more about each.
",
    usage: "usage: pump device|console ..",
};

/// The same of the device.
pub const DEVICE: About = About {
    name: "pump device",
    text: "executes the commands that it receives on standard input, and replies on standard output

Status: 0 at the end of its input, 2 for wrong arguments, 3 if reading or a reply failed.
",
    usage: "usage: pump device < LINE > LINE",
};

/// The same of the console.
pub const CONSOLE: About = About {
    name: "pump console",
    text: "one call to the device: the command is sent on standard output

The reply is received on standard input, and printed on standard error. FILE keeps the number of the
next call; --again is how often a call is sent again if reading ends after a while without a reply.
Status: 0 if it replied, 1 if it didn't or passed the call over, 2 for wrong arguments or if no
number is left, 3 if a file, sending or reading failed.
",
    usage: "usage: pump console --numbers FILE|--number NUMBER [--again TIMES] \
        show|on|off|reset|limit MILLILITRES|dose MILLILITRES",
};
