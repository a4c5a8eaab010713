//! What no clause says of the layers, of machines, runs and streams: the worked rows of words, checkers, book and lanes, those of bank,
//! holds, ports and processors that look at token words or go on where memory was refused, a lane between two threads, and that each call
//! which takes memory succeeds with ample memory; processors that run at once on threads, few threads, slow ones and stopped ones; readers
//! and writers that fail. What the program writes of whole scripts and traces stands in `examples`.
//!
//! Where a call for memory is refused a row is played once more, so each has to go as it is written with any one call refused, too:
//! `bench/refused` tries this.
#![tactic(auto)]

#[cfg(test)]
mod bank;
#[cfg(test)]
mod boards;
#[cfg(test)]
mod book;
#[cfg(test)]
mod cautious;
#[cfg(test)]
mod checks;
#[cfg(test)]
mod cpu;
#[cfg(test)]
mod fixtures;
#[cfg(test)]
mod gates;
#[cfg(test)]
mod hold;
#[cfg(test)]
mod lane;
#[cfg(test)]
mod listed;
#[cfg(test)]
mod machines;
#[cfg(test)]
mod port;
#[cfg(test)]
mod script_machines;
#[cfg(test)]
mod stops;
#[cfg(test)]
mod streams;
#[cfg(test)]
mod threads;
#[cfg(test)]
mod traders;
#[cfg(test)]
mod words;
