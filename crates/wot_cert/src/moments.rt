//! A span of times. `spans` computes one for a certificate, and `wot_network` keeps edges for as long as a view's time
//! stays in it.
/// A span of times throughout which nothing about a certificate changes. Both ends are inside.
#[derive(Clone, Copy, Debug, PartialEq, Eq)]
pub struct Span {
    pub from: u32,
    pub to: u32,
}
