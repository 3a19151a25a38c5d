//! The commands.
//!
//! `specs/Grammar.antt` says which line is which command, and `wot_machine` what each does. A new command touches
//! `read`, `spell` and the machine; `docs/CHANGING.md` has the steps.
use crate::{ClaimLines, LabelLines, Octets};
use wot_types::{Fpr, Name, SigNumber, UserId, ViewName};

/// What a line asks for.
#[derive(Drop)]
pub enum Command {
    /// `import HEX`: merges the certificates in these octets into the keyring.
    Import(Octets),
    /// `load NAME`: merges the certificate in this entry of the certificate directory into the keyring.
    Load(Name),
    /// `store FPR`: merges the certificate into its entry of the certificate directory.
    Store(Fpr),
    /// `drop FPR`: removes the certificate.
    Remove(Fpr),
    /// `verdict NUM good FPR`: the signature verifies with this key.
    Good(SigNumber, Fpr),
    /// `verdict NUM bad`: the signature verifies with no key.
    Bad(SigNumber),
    /// `verdict NUM none`: removes the verdict.
    Unjudge(SigNumber),
    /// `view V time T`: opens the view, or changes its time.
    Time(ViewName, u32),
    /// `view V root FPR A`: sets a root's amount; 0 removes the root.
    Root(ViewName, Fpr, u8),
    /// `view V close`: closes the view.
    Close(ViewName),
    /// `ask V FPR N UID`: asks for an answer for this binding, with N, at least 1, wanted.
    Ask(ViewName, Fpr, u32, UserId),
    /// `list V N`: lists the bindings that are authenticated to the amount N, at least 1.
    List(ViewName, u32),
    /// `explain V FPR UID`: explains why certifications on this binding count or don't.
    Explain(ViewName, Fpr, UserId),
    /// `absence V FPR N UID`: proves that the answer doesn't reach the amount N, at least 1.
    Absence(ViewName, Fpr, u32, UserId),
    /// `check V FPR PATHS TABLE UID`: checks whether these paths and this table show that no further path is left.
    Check(ViewName, Fpr, ClaimLines, LabelLines, UserId),
    /// `pending`: lists the signatures without a verdict.
    Pending,
    /// `keys`: lists the certificates.
    Keys,
    /// `export FPR`: prints one certificate as octets.
    Export(Fpr),
    /// `dump`: prints the state as a script.
    Dump,
    /// `cursor C over V N`: starts or restarts a cursor over the bindings authenticated to the amount N, at least 1.
    CursorOver(ViewName, ViewName, u32),
    /// `cursor C next K`: lists the cursor's next K bindings, at least 1.
    CursorNext(ViewName, u32),
    /// `cursor C close`: removes the cursor.
    CursorClose(ViewName),
    /// `watch W on V FPR N UID`: starts or restarts a watch on the answer for this binding, with N, at least 1, wanted.
    WatchOn(ViewName, ViewName, Fpr, u32, UserId),
    /// `watch W off`: removes the watch.
    WatchOff(ViewName),
}
