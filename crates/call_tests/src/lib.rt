//! Tests of the readers of words and configurations, and of the stages of a call, through their public calls.
#![tactic(auto)]

#[cfg(test)]
mod calls;
#[cfg(test)]
mod configurations;
#[cfg(test)]
mod words;
