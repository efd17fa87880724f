//! `link_codec`, polled by hand over memory: lines that come in chunks of any length, with polls in between that wait, readers and
//! writers that fail once, memory that isn't found, and connections that carry both ways.

mod both_ways;
mod checks;
mod lines;
mod reading;
mod refused_growths;
mod writing;
