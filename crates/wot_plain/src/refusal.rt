//! The errors of the layers below, joined into one type, and the reply to each. Out of memory has no reply: it ends the
//! run. A further refusal gets its reply here.
ghost use Rattle.std.specs.Prelude.{◌≡◌, true, IfOk, OnErr};
ghost use Rattle.wot_script.specs.Replies.{is_short};
ghost use Rattle.wot_plain.specs.Outcome.{cert_refusal};
ghost use Rattle.wot_plain.specs.Refused.{IsReplyTo, IsMemory, asking, beginning, explaining, putting, using_};
ghost use Rattle.wot_plain.specs.Refused.{missing_reply};

use thiserror::Error;
use wot_cache::{AskFault, ViewFault};
use wot_cert::CertFault;
use wot_certd::ShelfFault;
use wot_cursor::BeginFault;
use wot_explain::ExplainFault;
use wot_keyring::Refusal;
use wot_script::Reply;
use wot_types::Memory;
use wot_watch::PutFault;

/// What a command names, if there is none of it. The reply to it takes no memory.
#[derive(Debug, Clone, Copy, PartialEq, Eq, Error)]
pub enum Missing {
    /// No certificate, no verdict, or no entry of the directory.
    #[error("absent")]
    Named,
    /// The view isn't open.
    #[error("view")]
    View,
    /// No cursor.
    #[error("cursor")]
    Cursor,
    /// No watch.
    #[error("watch")]
    Watch,
}

/// Why a layer below doesn't do what a command asks for. The text of an error is the word that is printed for it, or
/// the words of which one is.
#[derive(Debug, Drop, Error)]
pub enum Refused {
    /// The keyring is unchanged.
    #[error("packet, compressed, secret, kind, order, empty, misfiled, clash, or full and a limit")]
    Keyring(Refusal),
    /// The views are unchanged.
    #[error("view, absent, or full and a limit")]
    View(ViewFault),
    /// There is none of what is named.
    #[error("{0}")]
    Missing(Missing),
    /// There are as many cursors as there may be.
    #[error("full cursors")]
    FullCursors,
    /// There are as many watches as there may be.
    #[error("full watches")]
    FullWatches,
    /// The certificate directory failed.
    #[error("fault shelf")]
    Shelf,
    /// Out of memory, which isn't printed.
    #[error("out of memory")]
    Memory,
}

impl From<AskFault> for Refused {
    ghost from_gives = { λ fault e. e ≡ asking fault };

    fn from(fault: AskFault) -> Refused {
        match fault {
            AskFault::View => Refused::Missing(Missing::View),
            AskFault::Memory => Refused::Memory,
        }
    }
}

impl From<ExplainFault> for Refused {
    ghost from_gives = { λ fault e. e ≡ explaining fault };

    fn from(fault: ExplainFault) -> Refused {
        match fault {
            ExplainFault::Absent => Refused::Missing(Missing::Named),
            ExplainFault::Memory => Refused::Memory,
        }
    }
}

impl From<BeginFault> for Refused {
    ghost from_gives = { λ fault e. e ≡ beginning fault };

    fn from(fault: BeginFault) -> Refused {
        match fault {
            BeginFault::Full => Refused::FullCursors,
            BeginFault::Memory => Refused::Memory,
        }
    }
}

impl From<PutFault> for Refused {
    ghost from_gives = { λ fault e. e ≡ putting fault };

    fn from(fault: PutFault) -> Refused {
        match fault {
            PutFault::Full => Refused::FullWatches,
            PutFault::Memory => Refused::Memory,
        }
    }
}

impl From<ShelfFault> for Refused {
    ghost from_gives = { λ fault e. e ≡ using_ fault };

    fn from(fault: ShelfFault) -> Refused {
        match fault {
            ShelfFault::Failed => Refused::Shelf,
            ShelfFault::Memory => Refused::Memory,
        }
    }
}

fn cert_fault(fault: CertFault) -> Reply
    ensures reply { result ≡ cert_refusal fault }
    ensures short { is_short result ≡ true }
{
    match fault {
        CertFault::Compressed => Reply::Compressed,
        CertFault::Secret => Reply::Secret,
        CertFault::Kind(kind, offset) => Reply::Kind(kind, offset),
        CertFault::Order(offset) => Reply::Order(offset),
        CertFault::Empty | CertFault::Memory => Reply::Empty,
    }
}

/// The reply to a command that names something of which there is none.
pub fn reply_to_missing(missing: Missing) -> Reply
    ensures reply { result ≡ missing_reply missing }
    ensures short { is_short result ≡ true }
{
    match missing {
        Missing::Named => Reply::Absent,
        Missing::View => Reply::View,
        Missing::Cursor => Reply::NoCursor,
        Missing::Watch => Reply::NoWatch,
    }
}

/// The reply to a refused command.
pub fn reply_to(refused: Refused) -> Result<Reply, Memory>
    ensures reply { IfOk result (IsReplyTo refused) }
    ensures short { IfOk result (λ reply. is_short reply ≡ true) }
    ensures memory { OnErr result (IsMemory refused) }
{
    match refused {
        Refused::Keyring(Refusal::Packet(fault)) => Ok(Reply::Packet(fault.why.number(), fault.at)),
        Refused::Keyring(Refusal::Cert(fault)) => Ok(cert_fault(fault)),
        Refused::Keyring(Refusal::Misfiled) => Ok(Reply::Misfiled),
        Refused::Keyring(Refusal::Clash) => Ok(Reply::Clash),
        Refused::Keyring(Refusal::Full(limit)) => Ok(Reply::Full(limit)),
        Refused::View(ViewFault::View) => Ok(Reply::View),
        Refused::View(ViewFault::Absent) => Ok(Reply::Absent),
        Refused::View(ViewFault::Full(limit)) => Ok(Reply::Full(limit)),
        Refused::Missing(missing) => Ok(reply_to_missing(missing)),
        Refused::FullCursors => Ok(Reply::FullCursors),
        Refused::FullWatches => Ok(Reply::FullWatches),
        Refused::Shelf => Ok(Reply::Shelf),
        Refused::Keyring(Refusal::Memory) | Refused::View(ViewFault::Memory) | Refused::Memory => {
            Err(Memory)
        }
    }
}
