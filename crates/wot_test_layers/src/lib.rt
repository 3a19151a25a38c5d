//! Tests of what is read and written, the certificate directory, the generated script, and how much a search does. No
//! part of the product. One file for each crate that is tested. What a script can show is a row (`tests/suites/rows`).
//! Expected values come from other programs or are worked out by hand.
#![tactic(auto)]

#[cfg(test)]
mod assertion;
#[cfg(test)]
mod certd;
#[cfg(test)]
mod generated;
#[cfg(test)]
mod io;
#[cfg(test)]
mod search;
#[cfg(test)]
mod types;
