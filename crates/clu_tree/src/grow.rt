//! Two new leaves in the place of one, in the arena and in the queue. Best-first branch and bound (Land and
//! Doig, 1960) takes the leaf with the greatest bound next; entries of split nodes stay in the queue until
//! they are its best, so a split moves no entry but its own two.

ghost use Rattle.std.specs.Prelude.{◌≡◌, ℕ, ℤ, Contains, IfOk, OnErr};
ghost use Rattle.slab.specs.Slab.{ContainsKey};
ghost use Rattle.clu_tree.specs.Queue.{IsBest, queue_entry};
ghost use Rattle.clu_tree.specs.Links.{IsUnsplit, Attached, SameNodes, Requeued};

use crate::node::{Fresh, Node, Origin, Standing};
use crate::queue::Queue;
use clu_partition::Vertex;
use clu_state::Decision;
use slab::Slab;
use std::alloc::AllocError;

/// Splits the node at the key, and brings the queue up to date.
pub(crate) fn grow(
    nodes: &mut Slab<Node>,
    queue: &mut Queue,
    key: usize,
    u: Vertex,
    v: Vertex,
    together: Fresh,
    apart: Fresh,
) -> Result<(usize, usize), AllocError>
    requires key { ContainsKey nodes.old key }
    requires known { (bound : ℤ) (key : ℕ) → Contains queue.old.entries (queue_entry bound key)
        → ContainsKey nodes.old key }
    ensures ok { IfOk result (λ keys. Attached nodes.old nodes.new key (u, v) together apart keys) }
    ensures queued { IfOk result (λ keys. Requeued nodes.new queue.old.entries queue.new.entries
        together.bound.bound apart.bound.bound keys) }
    ensures err { OnErr result (SameNodes nodes.old nodes.new) }
    ensures err_queue { OnErr result (queue.new.entries ≡ queue.old.entries) }
{
    queue.reserve(2)?;
    let together_bound = bound_of(&together);
    let apart_bound = bound_of(&apart);
    let keys = attach(nodes, key, u, v, together, apart)?;
    queue.push(together_bound, keys.0);
    queue.push(apart_bound, keys.1);
    clear_split(queue, nodes);
    Ok(keys)
}

/// Two new nodes stand between the node at the key and what came next.
fn attach(
    nodes: &mut Slab<Node>,
    key: usize,
    u: Vertex,
    v: Vertex,
    together: Fresh,
    apart: Fresh,
) -> Result<(usize, usize), AllocError>
    requires { ContainsKey nodes.old key }
    ensures ok { IfOk result (λ keys. Attached nodes.old nodes.new key (u, v) together apart keys) }
    ensures err { OnErr result (SameNodes nodes.old nodes.new) }
{
    nodes.reserve(2)?;
    let later = nodes[key].next;
    // of leaves with one bound the least key is taken first, and the pair together is nearer a partition
    let first = nodes.insert_reserved(Node {
        steps: together.steps,
        standing: Standing::Unsplit(together.bound),
        next: later,
        origin: Some(Origin {
            parent: key,
            decision: Decision::Together(u, v),
        }),
    });
    let second = nodes.insert_reserved(Node {
        steps: apart.steps,
        standing: Standing::Unsplit(apart.bound),
        next: later,
        origin: Some(Origin {
            parent: key,
            decision: Decision::Apart(u, v),
        }),
    });
    nodes[first].next = second;
    let node = &mut nodes[key];
    node.standing = node.standing.split_on(u, v);
    node.next = first;
    Ok((first, second))
}

/// Entries of split nodes leave the queue, until its best entry is a leaf's.
fn clear_split(queue: &mut Queue, nodes: &Slab<Node>)
    requires { (bound : ℤ) (key : ℕ) → Contains queue.old.entries (queue_entry bound key) → ContainsKey nodes.now key }
    ensures less { (bound : ℤ) (key : ℕ) → Contains queue.new.entries (queue_entry bound key)
        → Contains queue.old.entries (queue_entry bound key) }
    ensures leaves { (bound : ℤ) (key : ℕ) → Contains queue.old.entries (queue_entry bound key)
        → IsUnsplit nodes.now key → Contains queue.new.entries (queue_entry bound key) }
    ensures best { (bound : ℤ) (key : ℕ) → IsBest queue.new.entries bound key → IsUnsplit nodes.now key }
{
    while let Some(top) = queue.top() {
        if !nodes[top.1].standing.is_split() {
            break;
        }
        queue.pop();
    }
}

/// The bound of a new leaf.
pub(crate) fn bound_of(fresh: &Fresh) -> i128
    ensures { result ≡ fresh.now.bound.bound }
{
    fresh.bound.bound
}
