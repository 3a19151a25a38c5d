//! The reply to `pending`: a line for each well-formed signature without a verdict. The verifier reads these lines.
ghost use Rattle.std.specs.Prelude.{◌≡◌, map, IfOk};
ghost use Rattle.wot_cache.specs.State.{state_of};
ghost use Rattle.wot_plain.specs.Classes.{reading};
ghost use Rattle.wot_plain.specs.Listing.{hint_of, pending_line as pending_line_of};
ghost use Rattle.wot_plain.specs.declared.class.Read.TheVariants as reads;

use std::alloc::Global;
use wot_cache::Engine;
use wot_keyring::Pending;
use wot_script::{Hint, PendingLine, PendingLines, Reply};
use wot_types::{Fpr, Memory};

/// The reply to `pending`: a line for each well-formed signature without a verdict.
pub fn pending(alloc: Global, engine: &Engine) -> Result<Reply, Memory>
    ensures pending { IfOk result (λ reply. reply ≡ reading (state_of engine.now) reads.Pending) }
{
    let found = engine.keyring().pending(alloc)?;
    let lines = pending_lines(alloc, found.as_slice())?;
    Ok(Reply::Pending(lines.items().len() as u64, lines))
}

fn hint(issuer: Option<Fpr>, id: Option<[u8; 8]>) -> Hint
    ensures hint { result ≡ hint_of issuer id }
{
    match issuer {
        Some(fpr) => Hint::Full(fpr),
        None => match id {
            Some(id) => Hint::Short(id),
            None => Hint::Nothing,
        },
    }
}

fn pending_line(sig: &Pending) -> PendingLine
    ensures line { result ≡ pending_line_of sig.now }
{
    PendingLine(sig.number, sig.fpr, hint(sig.issuer, sig.hint))
}

/// A line for each of these signatures.
fn pending_lines(alloc: Global, sigs: &[Pending]) -> Result<PendingLines, Memory>
    ensures lines { IfOk result (λ lines. lines ≡ map pending_line_of sigs.now) }
{
    let mut lines = PendingLines::new(alloc);
    let mut left = sigs;
    'sigs: while let Some((sig, others)) = left.split_first() {
        lines.push(pending_line(sig))?;
        left = others;
    }
    Ok(lines)
}
