//! `write_packet`: a packet in the OpenPGP format, with the shortest length.
//!
//! It uses `specs/Writing.antt`. Exports, dumps and the directory's entries are written by it.
ghost use Rattle.std.specs.Prelude.{◌≡◌, ◌<◌, ◌≤◌, ◌^◌, ◌++◌, length, OnOk, OnErr};
ghost use Rattle.wot_packet.specs.Writing.{shortest_header, written};

use wot_types::Memory;

/// Appends the header of a packet, with the shortest length.
fn write_header(kind: u8, length: usize, out: &mut Vec<u8>) -> Result<(), Memory>
    requires kind { kind ≤ 63 }
    requires length { length < 2 ^ 32 }
    ensures written { OnOk result (out.new.items ≡ out.old.items ++ shortest_header kind length) }
    ensures kept { OnErr result (out.new.items ≡ out.old.items) }
{
    let tag = 192 + kind;
    if length < 192 {
        out.extend_from_slice(&[tag, length as u8])?;
    } else if length < 8384 {
        let over = length - 192;
        out.extend_from_slice(&[tag, (192 + over / 256) as u8, (over % 256) as u8])?;
    } else {
        let [a, b, c, d] = (length as u32).to_be_bytes();
        out.extend_from_slice(&[tag, 255, a, b, c, d])?;
    }
    Ok(())
}

/// Appends a packet in the OpenPGP format, with the shortest length. After `Memory`, `out` is unchanged.
pub fn write_packet(kind: u8, body: &[u8], out: &mut Vec<u8>) -> Result<(), Memory>
    requires kind { kind ≤ 63 }
    requires size { length body.now < 2 ^ 32 }
    ensures written { OnOk result (out.new.items ≡ out.old.items ++ written kind body.now) }
    ensures kept { OnErr result (out.new.items ≡ out.old.items) }
{
    let before = out.len();
    write_header(kind, body.len(), out)?;
    if out.extend_from_slice(body).is_err() {
        out.truncate(before);
        return Err(Memory);
    }
    Ok(())
}
