//! The network as the search sees it: `Roads` of wot_edge, over a network and the keyring that it was made of. Edges
//! come from the lines; scopes and user IDs are read from the certificates, and only when the search asks. Its contract
//! is the record that all answers are proved about.
ghost use Rattle.wot_network.specs.Net.{IsRight};

use crate::laws::record_is_lawful;
use crate::network::Network;
use crate::refreshing::ordered;
use crate::user_ids::{holds_for, is_in_order, place_of};
use wot_edge::{Edge, Roads};
use wot_keyring::Keyring;
use wot_standing::is_usable;
use wot_types::{Fpr, Memory};

/// The roads of a keyring at one time, over the network that is up to date with it.
#[derive(Drop)]
pub struct NetRoads<'a> {
    pub(crate) network: &'a Network,
    pub(crate) keyring: &'a Keyring,
    ghost right: { IsRight network.now keyring.now network.now.time },
}

impl<'a> Roads for NetRoads<'a> {
    ghost use Rattle.wot_network.specs.Net.{network_for};
    ghost use Rattle.wot_network.specs.Roads.{present_of};

    ghost network = { λ roads uid. network_for (present_of roads) uid };

    fn rows(&self, target: &Fpr) -> &[Edge] {
        record_is_lawful();
        ordered(self.keyring);
        match self.network.line(target) {
            Some(line) => line.edges(),
            None => &[],
        }
    }

    fn usable(&self, edge: &Edge) -> bool {
        let facts = edge.facts();
        match self.network.line(&facts.issuer) {
            Some(line) => is_usable(line.standing(), facts.made),
            None => false,
        }
    }

    fn scope(&self, edge: &Edge, uid: &[u8]) -> Result<bool, Memory> {
        let facts = edge.facts();
        // Most edges have no scope: then nothing is looked up.
        if !facts.scoped {
            return Ok(true);
        }
        match self.keyring.get(&facts.target) {
            Some(cert) => holds_for(self.network.allocator(), cert.user_ids(), &facts, uid),
            None => Ok(false),
        }
    }

    fn in_order(&self, target: &Fpr, uid: &[u8]) -> bool {
        record_is_lawful();
        ordered(self.keyring);
        match self.network.line(target) {
            Some(line) => match self.keyring.get(target) {
                Some(cert) => {
                    let t = self.network.time();
                    is_in_order(cert.user_ids(), line.standing(), line.revoked(), t, uid)
                }
                None => false,
            },
            None => false,
        }
    }

    fn place(&self, target: &Fpr, uid: &[u8]) -> Option<u32> {
        match self.keyring.get(target) {
            Some(cert) => place_of(cert.user_ids(), uid),
            None => None,
        }
    }
}
