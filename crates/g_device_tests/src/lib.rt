//! Tests of devices on memory and on real files, of copies on a disc, and of streams: what they store, and what a failing call leaves.
#![tactic(auto)]

#[cfg(test)]
mod caches;
#[cfg(test)]
mod copies;
#[cfg(test)]
mod demonstrations;
#[cfg(test)]
mod devices;
#[cfg(test)]
mod discs;
#[cfg(test)]
mod files;
#[cfg(test)]
mod pools;
#[cfg(test)]
mod reels;
#[cfg(test)]
mod streams;
#[cfg(test)]
mod tapes;
