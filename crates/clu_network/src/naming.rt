//! A network's vertices are named by the texts of its file: bytes name the vertex whose name they are,
//! byte for byte, by one look-up in the table of names.

use crate::Network;
use clu_partition::{Name, Names, Vertex};

/// The vertices are named by their fields, byte for byte.
impl Names for Network {
    ghost use Rattle.clu_network.specs.Naming.{net_names, IsNameOf};
    ghost use Rattle.clu_network.specs.NamingLaws.{one_name, named_within, own_name};

    ghost names = { net_names };

    ghost is_named = { IsNameOf };

    ghost one = { one_name };

    ghost within = { named_within };

    ghost own = { own_name };

    fn count(&self) -> u32 {
        self.n()
    }

    fn find(&self, name: &[u8]) -> Option<Vertex> {
        match self.table().find(name) {
            Some(number) => Some(Vertex(number)),
            None => None,
        }
    }

    fn name(&self, v: Vertex) -> Name<'_> {
        Name::Text(self.table().name(v.0))
    }
}
