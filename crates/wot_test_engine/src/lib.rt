//! Tests of the keyring, the engine, the machine and whole runs, for what neither a contract says nor a script shows:
//! devices that fail, counts of questions, edges and writes. No part of the product.
#![tactic(auto)]

#[cfg(test)]
mod assertion;
#[cfg(test)]
mod engine;
#[cfg(test)]
mod failing;
#[cfg(test)]
mod generated;
#[cfg(test)]
mod keyring;
#[cfg(test)]
mod made;
#[cfg(test)]
mod roads;
#[cfg(test)]
mod together;
