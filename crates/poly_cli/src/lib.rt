//! The session: it reads lines, hands their commands to an engine and writes the replies. The engine keeps a design that is
//! edited, and finds all tilings of the design.
#![tactic(auto)]

mod answering;
mod arguments;
mod engine;
mod explaining;
mod kept;
mod lines;
mod pacing;
mod printing;
mod questions;
mod serving;
mod sessions;
mod solo;
mod team;
mod teamwork;
mod watching;
mod writing;

// A whole session over a reader, a writer and an engine.
pub use sessions::{End, session};
pub use writing::Fault;

// What a session runs on.
pub use engine::{Engine, Limited};
pub use solo::Solo;
pub use team::Team;

// What a verbose session adds: it explains refusals and reports how far a search is.
pub use explaining::{Explained, explain};
pub use watching::Watched;

// The limits on a line and on an input.
pub use lines::{INPUT_LIMIT, LINE_LIMIT};
pub use sessions::LINE_COUNT;

// The arguments of the program, and the limits on their numbers.
pub use arguments::{DEFAULT_TURNS, Options, read_arguments};
pub use poly_crew::{MOST_TURNS, MOST_WORKERS};
