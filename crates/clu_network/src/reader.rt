//! The reader of edge lists: one pass over the lines gives the names their numbers and leaves joints,
//! whose weights are then brought to the largest number of decimal places. A line is cut at ASCII
//! blanks, so its names are texts where it is one, and a known name is looked up once.

ghost use Rattle.std.specs.Prelude.{◌≡◌, ◌↔◌, [], ◌<◌, ◌≤◌, ◌*◌, ◌^◌, ℕ, All, map, pos, unsigned_abs, IfOk, IfErr, IfSome, IsTrue, OnOk, length};
ghost use Rattle.std.specs.Str.{IsUtf8};
ghost use Rattle.std.specs.List.{enumerate_from};
ghost use Rattle.clu_text.specs.Lines.{fields_of, lines_of};
ghost use Rattle.clu_network.specs.Reading.{is_kept_in_network as kept, FailsNetwork, ReadsNetwork, RefusesName, AnswersLine};
ghost use Rattle.clu_network.specs.Scaling.{most_places as most_of, scaled_to, IsNetwork};
ghost use Rattle.clu_network.specs.Telling.{all_names_in, numbers_in, IsLineOf};
ghost use Rattle.clu_network.specs.Network.{Net};
ghost use Rattle.clu_network.specs.declared.error.NetError.TheVariants.{Memory};
ghost use Rattle.clu_network.specs.NameList.{with_name, with_names, number_of};

use crate::entry::{Entry, Fault, read_entry};
use crate::names::NameTable;
use crate::{NetError, NetLine, Network};
use clu_partition::{Seq, Vertex};
use clu_text::{Decimal, fields, lines};
use std::alloc::{AllocError, Global};
use std::str::from_utf8;

/// The largest number of vertices.
const MAX_VERTICES: u32 = 1_000;

/// The largest number of lines.
const MAX_LINES: u64 = 1_000_000;

/// The network of an edge list: `u v weight` for each line of the network, `u v` for one of weight 1,
/// a name alone for a vertex. Lines without fields and lines that begin with `#` or `%` are skipped.
/// Names are numbered as they first appear, and weights are whole numbers of units, of which ten to
/// the power of the largest number of decimal places make one. With `places`, at most 9, only so many
/// decimal places of each weight are kept. An error other than want of memory names the first line
/// that is refused, and of its causes the first in this order: a line past 1,000,000, no UTF-8, more
/// than three fields, a weight that is no decimal number, a 1,001st name.
pub fn read_network(alloc: Global, bytes: &[u8], places: Option<u8>) -> Result<Network, NetError>
    requires { IfSome places (λ k. k ≤ 9) }
    ensures network { IfOk result (λ net. IsNetwork places bytes.now net) }
    ensures names { IfOk result (λ net. net.names ≡ with_names [] (all_names_in bytes.now)) }
    ensures numbers { IfOk result (λ net. map (λ line. line.line) net.lines ≡ numbers_in bytes.now) }
    ensures told { IfOk result (λ net. All (λ line. IsLineOf places bytes.now net line) net.lines) }
    ensures one { IfOk result (λ net. (other : Net) → IsNetwork places bytes.now other
        → (other.names ≡ net.names) × (other.places ≡ net.places) × (other.lines ≡ net.lines)) }
    ensures refused { IfErr result (λ e. FailsNetwork places (enumerate_from 1 (lines_of bytes.now)) [] e) }
    ensures only { IfErr result (λ e. (net : Net) → IsNetwork places bytes.now net
        → length net.names ≤ 1000 → e ≡ Memory) }
{
    let Lines { names, joints } = match read_lines(alloc, bytes, places) {
        Ok(read) => read,
        Err(error) => return Err(error),
    };
    let most = most_places(joints.as_slice());
    let Ok(lines) = scale_all(alloc, joints.as_slice(), most) else {
        return Err(NetError::Memory);
    };
    Ok(Network::new(names, most, lines))
}

/// Whether bytes are UTF-8.
fn is_text(bytes: &[u8]) -> bool
    ensures { IsTrue result ↔ IsUtf8 bytes.now }
{
    from_utf8(bytes).is_ok()
}

/// A field as text.
fn text(field: &[u8]) -> &str
    requires { IsUtf8 field.now }
    ensures { result.now ≡ field.now }
{
    match from_utf8(field) {
        Ok(text) => text,
        Err(_) => unreachable!(),
    }
}

/// The vertex of a name that stands in this line.
fn read_name(
    names: &mut NameTable,
    alloc: Global,
    field: &[u8],
    line: u64,
) -> Result<Vertex, NetError>
    requires { IsUtf8 field.now }
    ensures names { OnOk result (names.new ≡ with_name names.old field.now) }
    ensures number { IfOk result (λ v. v ≡ number_of names.old field.now) }
    ensures few { OnOk result (length names.new ≤ 1000) }
    ensures refused { IfErr result (λ e. RefusesName line (1000 < length (with_name names.old field.now)) e) }
{
    if let Some(number) = names.find(field) {
        return Ok(Vertex(number));
    }
    let number = names.len();
    if number == MAX_VERTICES {
        return Err(NetError::TooManyVertices { line });
    }
    names.add(alloc, text(field))?;
    Ok(Vertex(number))
}

/// Two vertices that a line joins, with the weight as it stands there.
#[derive(Clone, Copy, Debug)]
struct Joint {
    line: u64,
    u: Vertex,
    v: Vertex,
    weight: Decimal,
}

/// Whether a line has fields and is no comment.
fn is_kept(line: &[u8]) -> bool
    ensures { result ≡ kept (fields_of line.now) }
{
    match fields(line).next() {
        None => false,
        Some(first) => match first {
            [] => true,
            [byte, ..] => *byte != b'#' && *byte != b'%',
        },
    }
}

/// Reads one line, and gives its names their numbers.
fn read_line(
    names: &mut NameTable,
    alloc: Global,
    number: u64,
    bytes: &[u8],
    cut: Option<u8>,
) -> Result<Option<Joint>, NetError>
    requires { IfSome cut (λ k. k ≤ 9) }
    ensures { AnswersLine cut names.old number bytes.now names.new result }
{
    if !is_kept(bytes) {
        return Ok(None);
    }
    if !is_text(bytes) {
        return Err(NetError::NotText { line: number });
    }
    match read_entry(bytes, cut) {
        Ok(Entry::Lone(u)) => {
            if let Err(error) = read_name(names, alloc, u, number) {
                return Err(error);
            }
            Ok(None)
        }
        Ok(Entry::Joined(u, v, weight)) => {
            let u = match read_name(names, alloc, u, number) {
                Ok(u) => u,
                Err(error) => return Err(error),
            };
            let v = match read_name(names, alloc, v, number) {
                Ok(v) => v,
                Err(error) => return Err(error),
            };
            Ok(Some(Joint {
                line: number,
                u,
                v,
                weight,
            }))
        }
        Err(Fault::Fields) => Err(NetError::TooManyFields { line: number }),
        Err(Fault::Weight) => Err(NetError::BadWeight { line: number }),
    }
}

/// What the lines of a text leave: names and joints.
#[derive(Drop)]
struct Lines {
    names: NameTable,
    joints: Seq<Joint>,
}

/// Reads all lines of a text.
fn read_lines(alloc: Global, bytes: &[u8], cut: Option<u8>) -> Result<Lines, NetError>
    requires { IfSome cut (λ k. k ≤ 9) }
    ensures ok { IfOk result (λ r. ReadsNetwork cut (enumerate_from 1 (lines_of bytes.now)) [] r.names r.joints) }
    ensures err { IfErr result (λ e. FailsNetwork cut (enumerate_from 1 (lines_of bytes.now)) [] e) }
{
    let mut names = NameTable::new(alloc);
    let mut joints = Seq::new(alloc);
    let mut rest = lines(bytes);
    while let Some(line) = rest.next() {
        if line.number > MAX_LINES {
            return Err(NetError::TooManyLines);
        }
        let read = match read_line(&mut names, alloc, line.number, line.bytes, cut) {
            Ok(read) => read,
            Err(error) => return Err(error),
        };
        if let Some(joint) = read {
            joints.push(joint)?;
        }
    }
    Ok(Lines { names, joints })
}

/// The largest number of decimal places.
fn most_places(joints: &[Joint]) -> u8
    requires { All (λ j. j.weight.places ≤ 9) joints.now }
    ensures { result ≡ most_of joints.now }
{
    let mut most = 0;
    for joint in joints {
        most = most.max(joint.weight.places);
    }
    most
}

/// Ten to so many places.
fn power_of_ten(places: u8) -> i128
    requires { places ≤ 9 }
    ensures { result ≡ pos (10 ^ places) }
{
    10i128.pow(places as u32)
}

/// The line of a joint, in units of so many places.
fn scaled(joint: &Joint, places: u8) -> NetLine
    requires few { (joint.now.weight.places ≤ places) × (places ≤ 9) }
    requires small { unsigned_abs joint.now.weight.units ≤ 10 ^ 18 * 10 ^ joint.now.weight.places }
    ensures line { result ≡ scaled_to places joint.now }
    ensures light { unsigned_abs result.weight ≤ 10 ^ 27 }
{
    NetLine {
        line: joint.line,
        u: joint.u,
        v: joint.v,
        weight: joint.weight.units * power_of_ten(places - joint.weight.places),
    }
}

/// The lines of all joints, in units of so many places.
fn scale_all(alloc: Global, joints: &[Joint], places: u8) -> Result<Vec<NetLine>, AllocError>
    requires few { places ≤ 9 }
    requires small { All (λ j. (j.weight.places ≤ places)
        × (unsigned_abs j.weight.units ≤ 10 ^ 18 * 10 ^ j.weight.places)) joints.now }
    ensures lines { IfOk result (λ lines. lines.items ≡ map (scaled_to places) joints.now) }
    ensures light { IfOk result (λ lines. All (λ l. unsigned_abs l.weight ≤ 10 ^ 27) lines.items) }
{
    let mut lines = Vec::with_capacity(alloc, joints.len())?;
    for joint in joints {
        lines.push(scaled(joint, places))?;
    }
    Ok(lines)
}
