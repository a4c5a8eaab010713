//! Shows a run of a script: turn by turn as lines, as a trace for `lwkt_check`, as a picture, as a page that plays it, as a timeline, or as
//! the written sections of each token; and says why its threads haven't ended.
//!
//! Words: the *options* say which turns are *chosen* and in which form they are shown; a run goes in rounds or *along* an order of
//! its processors; a run that made none of the chosen turns ended *before* them. A *reel* is what was kept of a run, and a *scene* one turn
//! of it; a *replay* makes it again, event by event; a *story* is what happened to one thread so far, and a *way* what it computed between
//! two asks; a *picture* has a *column* for each turn, bars for held tokens and arrows for messages, and a *sketch* is what it has before it
//! is known where that stands; a *deed* is what a thread does in a turn, in few letters.
#![tactic(auto)]

mod boxes;
mod chains;
mod circles;
mod columns;
mod conditions;
mod deeds;
mod drawings;
mod ends;
mod events;
mod labels;
mod laws;
mod layouts;
mod legends;
mod lines;
mod marked;
mod marks;
mod options;
mod pictures;
mod players;
mod records;
mod reels;
mod replays;
mod shapes;
mod shows;
mod sketches;
mod stories;
mod timelines;
mod tokens;
mod tries;
mod turns;
mod verdicts;
mod walks;
mod ways;
mod whys;
mod words;

pub use laws::{lines_decide_turns, texts_decide_asks};
pub use options::{Counted, Options, Rendering};
pub use shows::{Shown, show_script, show_threads};
pub use whys::whys_of;
