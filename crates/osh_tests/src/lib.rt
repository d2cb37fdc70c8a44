//! Tests of the readers and printers of flows and of the values of options, through their public calls.
#![tactic(auto)]

#[cfg(test)]
mod option_values;
#[cfg(test)]
mod printing;
#[cfg(test)]
mod reading;
#[cfg(test)]
mod reading_back;
