//! How many octets a packet takes in its shortest spelling. It uses `specs/Sizes.antt`. `measure` and `adds` add
//! these up.
ghost use Rattle.std.specs.Prelude.{◌≡◌, ◌<◌, ◌^◌, length};
ghost use Rattle.std.specs.List.{AllByRecursion};
ghost use Rattle.wot_packet.specs.Writing.{written};
ghost use Rattle.wot_component.specs.Counts.{sum_of};
ghost use Rattle.wot_component.specs.Fitting.{SigFits, PartFits};
ghost use Rattle.wot_component.specs.Sizes.{sig_size, part_size};

use crate::{Part, Sig};

/// How many octets the shortest spelling of a packet with this body has.
pub(crate) fn packet_octets(body: &[u8]) -> u64
    requires { length body.now < 2 ^ 32 }
    ensures octets { result ≡ length (written 2 body.now) }
    ensures few { result < 2 ^ 33 }
{
    let size = body.len() as u64;
    if size < 192 {
        size + 2
    } else if size < 8384 {
        size + 3
    } else {
        size + 6
    }
}

pub(crate) fn sigs_octets(sigs: &[Sig]) -> u64
    requires fit { AllByRecursion SigFits sigs.now }
    requires few { sum_of sig_size sigs.now < 2 ^ 63 }
    ensures { result ≡ sum_of sig_size sigs.now }
{
    let mut octets = 0u64;
    let mut rest = sigs;
    'rest: while let Some((sig, others)) = rest.split_first() {
        octets += packet_octets(sig.body());
        rest = others;
    }
    octets
}

pub(crate) fn part_octets(part: &Part) -> u64
    requires fits { PartFits part.now }
    requires few { part_size part.now < 2 ^ 63 }
    ensures { result ≡ part_size part.now }
{
    packet_octets(part.body()) + sigs_octets(part.sigs())
}
