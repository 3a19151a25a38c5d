//! The commands of the script, in order: certificates with their verdicts, two views, questions, and changes of
//! verdicts with questions. A change here changes the script, and with it the definition in specs/Script.antt.
ghost use Rattle.std.specs.Prelude.{◌≡◌, ◌+◌, ◌-◌, ◌*◌, ◌/◌, ◌<◌, ◌≤◌, ◌++◌, [], ◌∷◌, length, IfOk};
ghost use Rattle.std.specs.Prelude.{OnOk};
ghost use Rattle.std.specs.List.{flat_map};
ghost use Rattle.wot_gen.specs.Script.{PutsFor, PutsForAll, PutsForTwo, all_certificates, all_changes, all_questions};
ghost use Rattle.wot_gen.specs.Script.{certificate_with, change_commands, commands_of, drawn_before_changes};
ghost use Rattle.wot_gen.specs.Script.{opening, questions, verdicts_on, view_commands, view_text};
ghost use Rattle.wot_random.specs.Certifications.{drawn_before};
ghost use Rattle.wot_random.specs.Identities.{AreIdentities};
ghost use Rattle.wot_random.specs.declared.certification.Certification.{Certification};
ghost use Rattle.wot_script.specs.declared.command.Command.TheVariants.{Ask};

use std::alloc::Global;
use wot_random::{Certification, Identity, Words, certifications, identities};
use wot_script::{Command, Octets};
use wot_types::{Fpr, Memory, UserId, ViewName};

/// The time of both views.
const MOMENT: u32 = 1_200_000_000;

/// The name of a view.
#[derive(Clone, Copy)]
enum View {
    A,
    B,
}

impl View {
    fn name(self, alloc: Global) -> Result<ViewName, Memory>
        ensures { IfOk result (λ name. name ≡ view_text self) }
    {
        let text: &[u8] = match self {
            View::A => b"a",
            View::B => b"b",
        };
        match ViewName::read(alloc, text)? {
            Some(name) => Ok(name),
            None => unreachable!(),
        }
    }
}

/// The packets of a certificate.
fn packets(
    alloc: Global,
    identity: &Identity,
    certifications: &[Certification],
) -> Result<Octets, Memory>
    ensures { IfOk result (λ packets. packets
        ≡ identity.now.packets ++ flat_map (λ (made : Certification). made.packet) certifications.now) }
{
    let mut text = Vec::from_slice(alloc, identity.packets.items())?;
    for made in certifications {
        text.extend_from_slice(made.packet.items())?;
    }
    Ok(Octets::from_vec(text))
}

/// Appends the verdicts on certifications, each good by its issuer.
fn put_verdicts(certifications: &[Certification], commands: &mut Vec<Command>) -> Result<(), Memory>
    ensures put { OnOk result (commands.new.items ≡ commands.old.items ++ verdicts_on certifications.now) }
{
    for made in certifications {
        commands.push(Command::Good(made.number, made.issuer))?;
    }
    Ok(())
}

/// Appends a certificate and the verdicts on its signatures.
fn put_certificate(
    alloc: Global,
    identity: &Identity,
    certifications: &[Certification],
    commands: &mut Vec<Command>,
) -> Result<(), Memory>
    ensures put { PutsFor identity.now result commands.old.items commands.new.items
        (certificate_with certifications.now) }
{
    let packets = packets(alloc, identity, certifications)?;
    commands.push(Command::Import(packets))?;
    commands.push(Command::Good(identity.direct, identity.fpr))?;
    put_verdicts(certifications, commands)
}

/// Appends the certificates of all indices, with their verdicts.
fn put_certificates(
    alloc: Global,
    words: &mut Words,
    identities: &[Identity],
    commands: &mut Vec<Command>,
) -> Result<(), Memory>
    requires few { length identities.now ≤ 2000 }
    requires identities { AreIdentities words.old.start (length identities.now) identities.now }
    requires drawn { words.old.drawn ≡ drawn_before (length identities.now) 0 }
    ensures put { OnOk result
        (commands.new.items ≡ commands.old.items ++ all_certificates words.old.start (length identities.now)) }
    ensures start { words.new.start ≡ words.old.start }
    ensures drawn { OnOk result (words.new.drawn ≡ drawn_before (length identities.now) (length identities.now)) }
{
    for index in 0..identities.len() {
        let made = certifications(alloc, words, identities, index as u32)?;
        put_certificate(alloc, &identities[index], &made, commands)?;
    }
    Ok(())
}

/// Appends the lines that open a view.
fn put_view(
    alloc: Global,
    view: View,
    fpr: &Fpr,
    amount: u8,
    commands: &mut Vec<Command>,
) -> Result<(), Memory>
    ensures put { OnOk result (commands.new.items ≡ commands.old.items ++ opening view fpr.now amount) }
{
    commands.push(Command::Time(view.name(alloc)?, MOMENT))?;
    commands.push(Command::Root(view.name(alloc)?, *fpr, amount))?;
    Ok(())
}

/// Appends the lines that open both views.
fn put_views(
    alloc: Global,
    identities: &[Identity],
    commands: &mut Vec<Command>,
) -> Result<(), Memory>
    requires some { 0 < length identities.now }
    ensures put { PutsForAll identities.now result commands.old.items commands.new.items view_commands }
{
    let first = &identities[0].fpr;
    put_view(alloc, View::A, first, 120, commands)?;
    put_view(alloc, View::B, first, 60, commands)?;
    let middle = identities[identities.len() / 2].fpr;
    commands.push(Command::Root(View::B.name(alloc)?, middle, 60))?;
    Ok(())
}

/// Appends the question of a view on a key's user ID.
fn put_question(
    alloc: Global,
    view: View,
    wanted: u32,
    subject: &Identity,
    commands: &mut Vec<Command>,
) -> Result<(), Memory>
    ensures put { OnOk result (commands.new.items
        ≡ commands.old.items ++ Ask (view_text view) subject.now.fpr wanted subject.now.uid ∷ []) }
{
    let name = view.name(alloc)?;
    let uid = UserId::new(alloc, subject.uid.octets())?;
    commands.push(Command::Ask(name, subject.fpr, wanted, uid))?;
    Ok(())
}

/// Appends the questions of both views on a key's user ID.
fn put_both(alloc: Global, subject: &Identity, commands: &mut Vec<Command>) -> Result<(), Memory>
    ensures put { PutsFor subject.now result commands.old.items commands.new.items questions }
{
    put_question(alloc, View::A, 120, subject, commands)?;
    put_question(alloc, View::B, 60, subject, commands)?;
    Ok(())
}

/// Appends the questions of both views on all user IDs.
fn put_questions(
    alloc: Global,
    identities: &[Identity],
    commands: &mut Vec<Command>,
) -> Result<(), Memory>
    ensures put { PutsForAll identities.now result commands.old.items commands.new.items all_questions }
{
    for index in 0..identities.len() {
        put_both(alloc, &identities[index], commands)?;
    }
    Ok(())
}

/// Appends a round of changes: a verdict that is set to bad and back, with a question after each.
fn put_change(
    alloc: Global,
    changed: &Identity,
    subject: &Identity,
    commands: &mut Vec<Command>,
) -> Result<(), Memory>
    ensures put { PutsForTwo changed.now subject.now result commands.old.items commands.new.items change_commands }
{
    commands.push(Command::Bad(changed.direct))?;
    put_question(alloc, View::A, 120, subject, commands)?;
    commands.push(Command::Good(changed.direct, changed.fpr))?;
    put_question(alloc, View::A, 120, subject, commands)?;
    Ok(())
}

/// Appends all rounds of changes.
fn put_changes(
    alloc: Global,
    words: &mut Words,
    identities: &[Identity],
    commands: &mut Vec<Command>,
) -> Result<(), Memory>
    requires some { 0 < length identities.now }
    requires few { length identities.now ≤ 2000 }
    requires identities { AreIdentities words.old.start (length identities.now) identities.now }
    requires drawn { words.old.drawn ≡ drawn_before_changes (length identities.now) }
    ensures put { OnOk result
        (commands.new.items ≡ commands.old.items ++ all_changes words.old.start (length identities.now)) }
{
    let count = identities.len();
    for round in 0..(count - 1) / 10 {
        let changed = (words.draw() % count as u64) as usize;
        put_change(
            alloc,
            &identities[changed],
            &identities[10 * (round + 1)],
            commands,
        )?;
    }
    Ok(())
}

/// The commands of the script.
#[tactic(auto, unfolding(crate::specs::Script::commands_of))]
pub fn commands(alloc: Global, start: u64, count: u32) -> Result<Vec<Command>, Memory>
    requires some { 1 ≤ count }
    requires few { count ≤ 2000 }
    ensures made { IfOk result (λ made. made.items ≡ commands_of start count) }
{
    let mut words = Words::new(start);
    let identities = identities(alloc, &mut words, count)?;
    let mut commands = Vec::new(alloc);
    put_certificates(alloc, &mut words, &identities, &mut commands)?;
    put_views(alloc, &identities, &mut commands)?;
    put_questions(alloc, &identities, &mut commands)?;
    put_changes(alloc, &mut words, &identities, &mut commands)?;
    Ok(commands)
}
