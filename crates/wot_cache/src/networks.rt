//! The networks that an engine keeps for its views, by name, so that nothing is made again when nothing changed.
//! `present` refreshes them; closing a view forgets its network.
ghost use Rattle.std.specs.Prelude.{◌≡◌, Some, OnOk, OnErr, IsSomeAnd};
ghost use Rattle.std.specs.Option.{option_copied};
ghost use Rattle.std.specs.BTreeMap.{insert_entry};
ghost use Rattle.std.specs.Map.{lookup, remove_entry};
ghost use Rattle.wot_types.specs.ViewName.{view_name_cmp};
ghost use Rattle.wot_network.specs.Net.{IsRight};
ghost use Rattle.wot_cache.specs.Views.{is_name};
ghost use Rattle.wot_cache.specs.Inside.{AllFit};
ghost use Rattle.wot_cache.specs.Marks.{AreRenewed, IsForgotten, OthersStay};

use std::alloc::Global;
use std::collections::BTreeMap;
use wot_keyring::Keyring;
use wot_network::Network;
use wot_types::{Memory, Steps, ViewName};

pub type Networks = BTreeMap<ViewName, Network, Global>;

/// The network of a view.
pub fn find<'a>(networks: &'a Networks, view: &ViewName) -> Option<&'a Network>
    ensures found { option_copied result ≡ lookup (is_name view.now) networks.now.entries }
{
    networks.get(view)
}

/// Forgets the network of a view.
pub fn forget(networks: &mut Networks, view: &ViewName)
    ensures forgotten { networks.new.entries ≡ remove_entry (is_name view.now) networks.old.entries }
    ensures gone { IsForgotten view.now networks.old.entries networks.new.entries }
{
    let _ = networks.remove(view);
}

/// Keeps the network of a view.
fn keep(networks: &mut Networks, view: ViewName, network: Network) -> Result<(), Memory>
    ensures put { OnOk result (networks.new.entries ≡ insert_entry view_name_cmp networks.old.entries view network) }
    ensures found { OnOk result (lookup (is_name view) networks.new.entries ≡ Some network) }
    ensures kept { OnErr result (networks.new.entries ≡ networks.old.entries) }
    ensures others { OthersStay view networks.old.entries networks.new.entries }
{
    networks.insert(view, network)?;
    Ok(())
}

/// Brings the network of a view up to date with this keyring at `t`, or makes its first one.
pub fn refresh(
    alloc: Global,
    networks: &mut Networks,
    view: &ViewName,
    keyring: &Keyring,
    t: u32,
    steps: &mut Steps,
) -> Result<(), Memory>
    requires fit { AllFit networks.old.entries keyring.now }
    ensures fit { AllFit networks.new.entries keyring.now }
    ensures right { OnOk result (IsSomeAnd (lookup (is_name view.now) networks.new.entries)
        (λ network. IsRight network keyring.now t)) }
    ensures made { AreRenewed result view.now keyring.now t (networks.old.entries, steps.old.made)
        (networks.new.entries, steps.new.made) }
    ensures others { OthersStay view.now networks.old.entries networks.new.entries }
{
    match networks.get_mut(view) {
        Some(network) => network.refresh(keyring, t, steps),
        None => {
            let mut network = Network::new(alloc, t);
            network.refresh(keyring, t, steps)?;
            let name = view.duplicate(alloc)?;
            keep(networks, name, network)
        }
    }
}
