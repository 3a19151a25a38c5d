//! The tally of a run: the sum of the amounts and the digest of the replies, so that no transcript is kept in memory.
//! wot_engine adds each reply, and `summary` prints the result.
ghost use Rattle.std.specs.Prelude.{◌≡◌, ◌+◌, ◌<◌, ◌≤◌, ◌++◌, ◌∷◌, ◌^◌, [], List, OnOk};
ghost use Rattle.wot_gen.specs.Summary.{Tallies, amount_in as amount_of, transcript_digest};
ghost use Rattle.wot_script.specs.Replies.{HasWords};
ghost use Rattle.wot_script.specs.declared.reply.Reply.{Reply as TheReply};

use sha2::{Digest, Sha256};
use std::alloc::Global;
use wot_script::{Reply, print_reply};
use wot_types::Memory;

/// The tally of a run of the generated script so far. Only the digest of the transcript is kept.
#[derive(Drop)]
pub struct Tally {
    /// The sum of the amounts in the replies to questions.
    pub amounts: u64,
    transcript: Sha256,
    octets: Vec<u8>,
}

impl Tally {
    /// The tally of no replies.
    pub fn new(alloc: Global) -> Tally
        ensures none { Tallies result [] }
        ensures amounts { result.amounts ≡ 0 }
    {
        Tally {
            amounts: 0,
            transcript: Sha256::new(),
            octets: Vec::new(alloc),
        }
    }

    /// Adds a reply.
    pub fn add(&mut self, reply: &Reply) -> Result<(), Memory>
        requires words { HasWords reply.now }
        requires room { self.old.amounts < 2 ^ 63 }
        ensures added { (replies : List TheReply) → Tallies self.old replies →
            OnOk result (Tallies self.new (replies ++ reply.now ∷ [])) }
        ensures amounts { self.new.amounts < self.old.amounts + 2 ^ 32 }
        ensures within { self.new.amounts ≤ self.old.amounts + amount_of reply.now }
    {
        self.octets.clear();
        print_reply(reply, &mut self.octets)?;
        self.transcript.update(&self.octets);
        self.amounts += amount_in(reply);
        Ok(())
    }

    /// SHA-256 of the octets of all replies.
    pub fn digest(self) -> [u8; 32]
        ensures { (replies : List TheReply) → Tallies self replies → result ≡ transcript_digest replies }
    {
        self.transcript.finalize()
    }
}

/// The amount in the reply to a question. Other replies have none.
fn amount_in(reply: &Reply) -> u64
    ensures reported { result ≡ amount_of reply.now }
    ensures small { result < 2 ^ 32 }
{
    match reply {
        Reply::Amount(sum, _, _) => u64::from(*sum),
        _ => 0,
    }
}
