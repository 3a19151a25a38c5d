//! A step of a merge in place: what was inserted into a list of components, and where. `growing` logs steps,
//! `shrinking` undoes them, and `wot_cert` keeps them in its log.
/// One step on a list of components: a component was inserted, or signatures were added to one, at these places.
#[derive(Drop)]
pub enum PartStep {
    New(usize),
    Grown(usize, Vec<usize>),
}
