//! Worked tables of pairs, partitions, rules and names over a few vertices.

ghost use Rattle.std.specs.Prelude.{◌≡◌};

use clu_partition::{Name, PairTable, Partition, Seq, Start, TieError, Vertex};
use std::test::Fail;

fn has_both_orders(table: &mut PairTable) -> bool {
    if table.n() != 3 {
        return false;
    }
    table.set(Vertex(2), Vertex(0), -5);
    table.set(Vertex(0), Vertex(1), 3);
    table.get(Vertex(0), Vertex(2)) == -5
        && table.get(Vertex(2), Vertex(0)) == -5
        && table.get(Vertex(1), Vertex(0)) == 3
        && table.get(Vertex(1), Vertex(2)) == 0
        && table.total_abs() == 8
}

#[test]
fn both_orders_of_a_pair_have_one_weight(rt: HostRuntime) -> Result<(), Fail> {
    let mut table = PairTable::new(rt.alloc(), 3)?;
    assert!(rt; has_both_orders(&mut table));
    Ok(())
}

fn are_numbered(partition: &Partition) -> bool {
    partition.labels() == [0, 0, 1, 0].as_slice() && partition.block_count() == 2
}

fn are_listed(blocks: &[Seq<Vertex>]) -> bool {
    blocks.len() == 2
        && blocks[0].as_slice() == [Vertex(0), Vertex(1), Vertex(3)].as_slice()
        && blocks[1].as_slice() == [Vertex(2)].as_slice()
}

#[test]
fn labels_are_numbered_by_first_appearance(rt: HostRuntime) -> Result<(), Fail> {
    let partition = Partition::from_labels(rt.alloc(), &[7, 7, 3, 7])?;
    assert!(rt; are_numbered(&partition));
    assert!(rt; are_listed(&partition.blocks(rt.alloc())?));
    Ok(())
}

fn weigh(pairs: &mut PairTable)
    requires { pairs.old.n ≡ 4 }
    ensures { pairs.new.n ≡ 4 }
{
    pairs.set(Vertex(0), Vertex(1), 3);
    pairs.set(Vertex(0), Vertex(2), -5);
    pairs.set(Vertex(0), Vertex(3), 2);
    pairs.set(Vertex(1), Vertex(2), 70);
    pairs.set(Vertex(1), Vertex(3), -9);
}

#[test]
fn pairs_inside_blocks_make_the_value(rt: HostRuntime) -> Result<(), Fail> {
    let mut pairs = PairTable::new(rt.alloc(), 4)?;
    weigh(&mut pairs);
    let partition = Partition::from_labels(rt.alloc(), &[0, 0, 1, 0])?;
    assert!(rt; partition.value(&pairs) == -4);
    let halves = Partition::from_labels(rt.alloc(), &[0, 1, 1])?;
    assert!(rt; halves.value_on(&[Vertex(3), Vertex(1), Vertex(2)], &pairs) == 70);
    Ok(())
}

fn bind_nothing(start: &Start) -> bool {
    start.n() == 3
        && start.group(Vertex(2)) == Vertex(2)
        && start.forbidden().is_empty()
        && !start.apart(Vertex(0), Vertex(1))
}

#[test]
fn rules_that_bind_nothing_permit_all(rt: HostRuntime) -> Result<(), Fail> {
    let start = Start::none(rt.alloc(), 3)?;
    assert!(rt; bind_nothing(&start));
    let partition = Partition::from_labels(rt.alloc(), &[0, 1, 0])?;
    assert!(rt; start.permits(&partition));
    Ok(())
}

fn are_grouped(start: &Start) -> bool {
    start.n() == 6
        && start.group(Vertex(4)) == Vertex(2)
        && start.group(Vertex(5)) == Vertex(5)
        && start.forbidden().len() == 2
        && start.apart(Vertex(1), Vertex(2))
        && !start.apart(Vertex(0), Vertex(2))
}

#[test]
fn pairs_make_groups(rt: HostRuntime) {
    let required = [
        (Vertex(4), Vertex(2)),
        (Vertex(2), Vertex(3)),
        (Vertex(5), Vertex(5)),
    ];
    let forbidden = [
        (Vertex(3), Vertex(1)),
        (Vertex(1), Vertex(4)),
        (Vertex(0), Vertex(1)),
    ];
    let start = Start::tied(rt.alloc(), 6, &required, &forbidden);
    assert!(rt; start.is_ok_and(|start| are_grouped(&start)));
}

#[test]
fn the_least_contradiction_is_named(rt: HostRuntime) {
    let required = [(Vertex(4), Vertex(2)), (Vertex(2), Vertex(3))];
    let forbidden = [
        (Vertex(4), Vertex(3)),
        (Vertex(0), Vertex(1)),
        (Vertex(4), Vertex(2)),
    ];
    let refused = Start::tied(rt.alloc(), 6, &required, &forbidden).err();
    let (u, v) = (Vertex(2), Vertex(4));
    assert!(rt; refused == Some(TieError::Contradiction { u, v }));
}

#[test]
fn names_have_their_bytes(rt: HostRuntime) {
    let number = Name::Number {
        digits: *b"4200000000",
        len: 2,
    };
    assert!(rt; number.as_bytes() == b"42".as_slice());
    let text = Name::Text("ab");
    assert!(rt; text.as_bytes() == b"ab".as_slice());
}
