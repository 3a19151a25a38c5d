//! Tests of certificates: what neither a contract nor a script shows of keys, of what signatures say, of the policy and
//! how often it is asked, and of spans of time. No part of the product. Certificates are written down with wot_sample's
//! names; expected values come from the standard, or are worked out by hand.
#![tactic(auto)]

#[cfg(test)]
mod assertion;
#[cfg(test)]
mod cert;
#[cfg(test)]
mod key;
#[cfg(test)]
mod policy;
#[cfg(test)]
mod signature;
