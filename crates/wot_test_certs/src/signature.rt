//! Tests of wot_signature, one file for each part: facts and types of subpackets. `bodies` has the certifications that
//! they share.

mod bodies;
mod facts;
mod table;
