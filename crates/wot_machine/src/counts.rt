//! Whether the amounts that were reported before a line are known to be current after it, by the engine's counts and
//! the reply. A command whose success closes a view, removes a certificate or begins a watch needs a case of `goes_on`.
ghost use Rattle.std.specs.Prelude.{◌≡◌, ◌≤◌, length, Some, true, IfSome};
ghost use Rattle.wot_script.specs.declared.reply.Reply.TheVariants as replies;
ghost use Rattle.wot_watch_commands.specs.Settled.{CountsDiffer, IsNoAmount};

use wot_cache::{Basis, Engine};
use wot_script::Reply;

/// The engine's counts, which show whether a line may have closed a view or removed a certificate.
#[derive(Clone, Copy)]
pub(crate) struct Counts {
    pub(crate) certificates: usize,
    pub(crate) changes: u64,
    pub(crate) revisions: u64,
}

impl Counts {
    pub(crate) fn of(engine: &Engine) -> Counts
        ensures certificates { result.certificates ≡ length engine.now.keyring.certs }
        ensures changes { result.changes ≡ engine.now.keyring.changes }
        ensures revisions { result.revisions ≡ engine.now.revisions.count }
    {
        Counts {
            certificates: engine.keyring().len(),
            changes: engine.keyring().changes(),
            revisions: engine.revisions(),
        }
    }
}

/// The basis, if what was up to date before a line still is.
pub(crate) fn kept_on(
    basis: Option<Basis>,
    engine: &Engine,
    before: Counts,
    reply: &Reply,
) -> Option<Basis>
    ensures same { IfSome result (λ kept. basis ≡ Some kept) }
    ensures more { IfSome result (λ _. before.certificates ≤ length engine.now.keyring.certs) }
    ensures none { IfSome result (λ _. IsNoAmount reply.now) }
    ensures counted { IfSome result (λ _. reply.now ≡ replies.Done →
        CountsDiffer engine.now before.changes before.revisions) }
{
    if goes_on(engine, before, reply) {
        return basis;
    }
    None
}

/// Whether what was up to date before a line still is, by its reply: no certificate was removed, no watch began, and no
/// view was closed. A line that closes a view has the reply `ok` and raises no count.
fn goes_on(engine: &Engine, before: Counts, reply: &Reply) -> bool
    ensures more { result ≡ true → before.certificates ≤ length engine.now.keyring.certs }
    ensures none { result ≡ true → IsNoAmount reply.now }
    ensures counted { result ≡ true → reply.now ≡ replies.Done →
        CountsDiffer engine.now before.changes before.revisions }
{
    let now = Counts::of(engine);
    if now.certificates < before.certificates {
        return false;
    }
    match reply {
        Reply::WatchAmount(_, _) => false,
        Reply::Done => now.changes != before.changes || now.revisions != before.revisions,
        _ => true,
    }
}
