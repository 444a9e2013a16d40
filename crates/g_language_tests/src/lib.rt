//! Tests of lines, levels, verbs, scripts and printed texts, derived manually from the language's rules.
#![tactic(auto)]

#[cfg(test)]
mod lang;
#[cfg(test)]
mod levels;
#[cfg(test)]
mod lines;
#[cfg(test)]
mod monitor;
#[cfg(test)]
mod refusals;
#[cfg(test)]
mod replies;
#[cfg(test)]
mod scripts;
#[cfg(test)]
mod sources;
#[cfg(test)]
mod verbs;
