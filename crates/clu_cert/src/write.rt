//! The text of a certificate, line by line, appended to one vector. A number has one spelling, so a certificate has one
//! text, from which `read_cert` gives it back.

ghost use Rattle.std.specs.Prelude.{◌≡◌, ◌+◌, ◌++◌, [], ◌∷◌, map, codes, OnOk, IfOk};
ghost use Rattle.std.specs.List.{flat_map};
ghost use Rattle.clu_cert.specs.Text.{from_one, kind_word, step_line, row_line, item_lines, proof_lines, objective_line, leaf_line, branch_line, count_line, whole_line, numbers_line, text_of, cert_text};
ghost use Rattle.clu_cert.specs.Fits.{Fits};
ghost use Rattle.clu_cert.specs.Numbers.{numbers_text};

use crate::certificate::{Certificate, Item, Proof};
use clu_objective::Objective;
use clu_partition::Vertex;
use clu_reduce::{Kind, Step};
use clu_rows::{Row, Rows};
use clu_text::{push_number, push_u128};
use std::alloc::{AllocError, Global};

fn push_kind(out: &mut Vec<u8>, kind: Kind) -> Result<(), AllocError>
    ensures { OnOk result (out.new.items ≡ out.old.items ++ kind_word kind) }
{
    match kind {
        Kind::Twin => out.extend_from_slice(b"twin"),
        Kind::Pair => out.extend_from_slice(b"pair"),
        Kind::Heavy => out.extend_from_slice(b"heavy"),
        Kind::Light => out.extend_from_slice(b"light"),
    }
}

fn push_place(out: &mut Vec<u8>, place: u32) -> Result<(), AllocError>
    ensures { OnOk result (out.new.items ≡ out.old.items ++ (32 ∷ from_one place)) }
{
    out.push(b' ')?;
    push_u128(out, u128::from(place) + 1)
}

fn push_pair(out: &mut Vec<u8>, u: Vertex, v: Vertex) -> Result<(), AllocError>
    ensures { OnOk result (out.new.items
        ≡ out.old.items ++ ((32 ∷ from_one u) ++ ((32 ∷ from_one v) ++ (10 ∷ [])))) }
{
    push_place(out, u.0)?;
    push_place(out, v.0)?;
    out.push(b'\n')?;
    Ok(())
}

fn push_step(out: &mut Vec<u8>, step: &Step) -> Result<(), AllocError>
    ensures { OnOk result (out.new.items ≡ out.old.items ++ text_of (step_line step.now ∷ [])) }
{
    push_kind(out, step.kind)?;
    push_pair(out, step.u, step.v)
}

fn push_count(out: &mut Vec<u8>, word: &[u8], count: u128) -> Result<(), AllocError>
    ensures { OnOk result (out.new.items ≡ out.old.items ++ text_of (count_line word.now count ∷ [])) }
{
    out.extend_from_slice(word)?;
    out.push(b' ')?;
    push_u128(out, count)?;
    out.push(b'\n')?;
    Ok(())
}

fn push_value(out: &mut Vec<u8>, word: &[u8], value: i128) -> Result<(), AllocError>
    ensures { OnOk result (out.new.items ≡ out.old.items ++ text_of (whole_line word.now value ∷ [])) }
{
    out.extend_from_slice(word)?;
    out.push(b' ')?;
    push_number(out, value)?;
    out.push(b'\n')?;
    Ok(())
}

fn push_labels(out: &mut Vec<u8>, labels: &[u32]) -> Result<(), AllocError>
    ensures { OnOk result (out.new.items ≡ out.old.items ++ numbers_text labels.now) }
{
    for label in labels {
        push_place(out, *label)?;
    }
    Ok(())
}

fn push_vertices(out: &mut Vec<u8>, vertices: &[Vertex]) -> Result<(), AllocError>
    ensures { OnOk result (out.new.items ≡ out.old.items ++ numbers_text vertices.now) }
{
    for v in vertices {
        push_place(out, v.0)?;
    }
    Ok(())
}

fn push_steps(out: &mut Vec<u8>, steps: &[Step]) -> Result<(), AllocError>
    ensures { OnOk result (out.new.items ≡ out.old.items ++ text_of (map step_line steps.now)) }
{
    for step in steps {
        push_step(out, step)?;
    }
    Ok(())
}

fn push_blocks(out: &mut Vec<u8>, labels: &[u32]) -> Result<(), AllocError>
    ensures { OnOk result (out.new.items
        ≡ out.old.items ++ text_of (numbers_line (codes "blocks") labels.now ∷ [])) }
{
    out.extend_from_slice(b"blocks")?;
    push_labels(out, labels)?;
    out.push(b'\n')?;
    Ok(())
}

fn push_part(out: &mut Vec<u8>, part: &[Vertex]) -> Result<(), AllocError>
    ensures { OnOk result (out.new.items
        ≡ out.old.items ++ text_of (numbers_line (codes "part") part.now ∷ [])) }
{
    out.extend_from_slice(b"part")?;
    push_vertices(out, part)?;
    out.push(b'\n')?;
    Ok(())
}

fn push_row(out: &mut Vec<u8>, row: &Row) -> Result<(), AllocError>
    ensures { OnOk result (out.new.items ≡ out.old.items ++ text_of (row_line row.now ∷ [])) }
{
    out.extend_from_slice(b"row ")?;
    push_u128(out, row.y)?;
    push_vertices(out, row.s)?;
    out.extend_from_slice(b" /")?;
    push_vertices(out, row.t)?;
    out.push(b'\n')?;
    Ok(())
}

fn push_rows(out: &mut Vec<u8>, rows: &Rows) -> Result<(), AllocError>
    ensures { OnOk result (out.new.items ≡ out.old.items ++ text_of (map row_line rows.now)) }
{
    for i in 0..rows.len() {
        push_row(out, &rows.row(i))?;
    }
    Ok(())
}

fn push_leaf_line(out: &mut Vec<u8>, den: u64, rows: u64) -> Result<(), AllocError>
    ensures { OnOk result (out.new.items ≡ out.old.items ++ text_of (leaf_line den rows ∷ [])) }
{
    out.extend_from_slice(b"leaf ")?;
    push_u128(out, u128::from(den))?;
    out.push(b' ')?;
    push_u128(out, u128::from(rows))?;
    out.push(b'\n')?;
    Ok(())
}

fn push_branch(out: &mut Vec<u8>, u: Vertex, v: Vertex) -> Result<(), AllocError>
    ensures { OnOk result (out.new.items ≡ out.old.items ++ text_of (branch_line u v ∷ [])) }
{
    out.extend_from_slice(b"branch")?;
    push_pair(out, u, v)
}

fn push_item(out: &mut Vec<u8>, item: &Item) -> Result<(), AllocError>
    ensures { OnOk result (out.new.items ≡ out.old.items ++ text_of (item_lines item.now)) }
{
    match item {
        Item::Branch(u, v) => push_branch(out, *u, *v),
        Item::Reduce(step) => push_step(out, step),
        Item::Leaf(leaf) => {
            push_leaf_line(out, leaf.den, leaf.rows.len() as u64)?;
            push_rows(out, &leaf.rows)
        }
    }
}

fn push_items(out: &mut Vec<u8>, items: &[Item]) -> Result<(), AllocError>
    ensures { OnOk result (out.new.items ≡ out.old.items ++ text_of (flat_map item_lines items.now)) }
{
    for item in items {
        push_item(out, item)?;
    }
    Ok(())
}

fn push_proof(out: &mut Vec<u8>, proof: &Proof) -> Result<(), AllocError>
    ensures { OnOk result (out.new.items ≡ out.old.items ++ text_of (proof_lines proof.now)) }
{
    push_part(out, proof.part.as_slice())?;
    push_count(out, b"items", proof.items.len() as u128)?;
    push_items(out, proof.items.as_slice())
}

fn push_proofs(out: &mut Vec<u8>, proofs: &[Proof]) -> Result<(), AllocError>
    ensures { OnOk result (out.new.items ≡ out.old.items ++ text_of (flat_map proof_lines proofs.now)) }
{
    for proof in proofs {
        push_proof(out, proof)?;
    }
    Ok(())
}

fn push_objective(out: &mut Vec<u8>, objective: Objective) -> Result<(), AllocError>
    ensures { OnOk result (out.new.items ≡ out.old.items ++ text_of (objective_line objective ∷ [])) }
{
    out.extend_from_slice(b"objective ")?;
    match objective {
        Objective::Edits => out.extend_from_slice(b"edits\n"),
        Objective::Agreement => out.extend_from_slice(b"agreement\n"),
        Objective::Modularity => out.extend_from_slice(b"modularity\n"),
    }
}

/// The one text of the certificate.
pub fn write_cert(alloc: Global, c: &Certificate) -> Result<Vec<u8>, AllocError>
    requires { Fits c.now }
    ensures { IfOk result (λ v. v.items ≡ cert_text c.now) }
{
    let mut out = Vec::new(alloc);
    out.extend_from_slice(b"clucert 1\n")?;
    push_objective(&mut out, c.objective)?;
    push_count(&mut out, b"vertices", c.labels.len() as u128)?;
    push_value(&mut out, b"value", c.value)?;
    push_value(&mut out, b"bound", c.bound)?;
    push_blocks(&mut out, c.labels.as_slice())?;
    push_count(&mut out, b"steps", c.root_steps.len() as u128)?;
    push_steps(&mut out, c.root_steps.as_slice())?;
    push_count(&mut out, b"parts", c.proofs.len() as u128)?;
    push_proofs(&mut out, c.proofs.as_slice())?;
    out.extend_from_slice(b"end\n")?;
    Ok(out)
}
