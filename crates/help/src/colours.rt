//! Whether standard output is a terminal that shows colours.
use std::env;
use std::io::IsTerminal;

// Whether a variable of the environment is missing or empty.
fn is_unset(rt: &HostRuntime, name: &str) -> bool {
    match env::var(rt, name) {
        Ok(value) => value.is_empty(),
        Err(env::VarError::NotPresent) => true,
        Err(_) => false,
    }
}

// Whether the terminal says that it can't move its cursor or set colours.
fn is_dumb(rt: &HostRuntime) -> bool {
    match env::var(rt, "TERM") {
        Ok(value) => value.as_str() == "dumb",
        Err(_) => false,
    }
}

/// Whether standard output is a terminal that can move its cursor: its `TERM` isn't `dumb`.
pub fn moves_cursor(rt: &HostRuntime) -> bool {
    rt.stdout().is_terminal() && !is_dumb(rt)
}

/// Whether what goes to standard output may have colours: it is a terminal, `TERM` isn't `dumb`, and `NO_COLOR` is missing or empty.
pub fn wants_colour(rt: &HostRuntime) -> bool {
    moves_cursor(rt) && is_unset(rt, "NO_COLOR")
}
