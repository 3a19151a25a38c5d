//! What is held: the definitions of a keyring and of each change, certificates as they are kept, their iterators, the
//! errors of the keyring's calls, and the certificates in octets. It uses wot_cert and wot_verdict. All rooms of
//! the keyring use it, and the crates above name its definitions: a changed one is proved anew up to the engine.
#![tactic(auto)]

mod certs;
mod imported;
mod kept;
mod pending;
mod reading;
mod refusal;

pub use certs::{CertsIter, certs_of, listed_from};
pub use imported::Imported;
pub use kept::{Kept, find, take_out};
pub use pending::{Pending, waiting};
pub use reading::{is_entry, read_certs, read_entry};
pub use refusal::{Absent, ExportFault, Refusal};
