//! Removes the signatures of a certificate from the index, before the certificate itself is removed. It uses
//! wot_verdict, and visits the places that `noting` visits: change both together. The verdicts stay. Nothing here
//! allocates.
ghost use Rattle.wot_index.specs.Index.{Forgets, SaysSame};
ghost use Rattle.wot_keyring_spec.specs.Verdict.{is_among, is_on, has_number};
ghost use Rattle.wot_verdict.specs.Verdicts.{is_number};

use wot_cert::{Cert, Part, Sig};
use wot_types::SigNumber;
use wot_verdict::Verdicts;

/// Removes a number from the index.
pub(crate) fn forget(verdicts: &mut Verdicts, number: &SigNumber)
    ensures forgotten { Forgets verdicts.old verdicts.new (λ n. is_number n number.now) }
    ensures verdicts { SaysSame verdicts.old verdicts.new }
{
    verdicts.let_go(number);
}

fn forget_sigs(verdicts: &mut Verdicts, sigs: &[Sig])
    ensures forgotten { Forgets verdicts.old verdicts.new (λ n. is_among n sigs.now) }
    ensures verdicts { SaysSame verdicts.old verdicts.new }
{
    let mut left = sigs;
    'sigs: while let Some((sig, rest)) = left.split_first() {
        forget(verdicts, &sig.number());
        left = rest;
    }
}

fn forget_parts(verdicts: &mut Verdicts, parts: &[Part])
    ensures forgotten { Forgets verdicts.old verdicts.new (λ n. is_on n parts.now) }
    ensures verdicts { SaysSame verdicts.old verdicts.new }
{
    let mut left = parts;
    'parts: while let Some((part, rest)) = left.split_first() {
        forget_sigs(verdicts, part.sigs());
        left = rest;
    }
}

/// Removes the signatures of a certificate from the index.
pub fn forget_cert(verdicts: &mut Verdicts, cert: &Cert)
    ensures forgotten { Forgets verdicts.old verdicts.new (λ n. has_number n cert.now) }
    ensures verdicts { SaysSame verdicts.old verdicts.new }
{
    forget_sigs(verdicts, cert.direct());
    forget_parts(verdicts, cert.user_ids());
    forget_parts(verdicts, cert.attributes());
    forget_parts(verdicts, cert.subkeys());
}
