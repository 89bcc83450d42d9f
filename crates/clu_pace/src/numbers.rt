//! The names of a graph's vertices: the decimal numbers from 1, so none is kept anywhere. A name is
//! read as a number, and written from its four digits.

ghost use Rattle.std.specs.Prelude.{◌≡◌, ◌≤◌, ◌<◌, take};
ghost use Rattle.std.specs.Fmt.{decimal};

use crate::Graph;
use clu_partition::{Name, Names, Vertex};
use clu_text::read_u32;

/// The decimal digits of a number, at the front of ten places.
#[tactic(auto, using(std::proofs::lemmas::Fmt::decimal_step, std::proofs::lemmas::Fmt::decimal_digit))]
fn digits_of(number: u32) -> ([u8; 10], u8)
    requires { number ≤ 1000 }
    ensures digits { take result.1 result.0 ≡ decimal number }
    ensures within { result.1 ≤ 10 }
{
    let ones = b'0' + (number % 10) as u8;
    let tens = b'0' + (number / 10 % 10) as u8;
    let hundreds = b'0' + (number / 100 % 10) as u8;
    if number < 10 {
        ([ones, 0, 0, 0, 0, 0, 0, 0, 0, 0], 1)
    } else if number < 100 {
        ([tens, ones, 0, 0, 0, 0, 0, 0, 0, 0], 2)
    } else if number < 1000 {
        ([hundreds, tens, ones, 0, 0, 0, 0, 0, 0, 0], 3)
    } else {
        ([b'1', hundreds, tens, ones, 0, 0, 0, 0, 0, 0], 4)
    }
}

/// The vertices are named by the decimal numbers from 1; `find` accepts leading zeros.
impl Names for Graph {
    ghost use Rattle.clu_pace.specs.Numbers.{graph_names, IsNumeralOf};
    ghost use Rattle.clu_pace.specs.NumberLaws.{one_name, named_within, own_name};

    ghost names = { graph_names };

    ghost is_named = { IsNumeralOf };

    ghost one = { one_name };

    ghost within = { named_within };

    ghost own = { own_name };

    #[tactic(auto, using(crate::specs::NumberLaws::names_count))]
    fn count(&self) -> u32 {
        self.n()
    }

    fn find(&self, name: &[u8]) -> Option<Vertex> {
        let n = self.n();
        match read_u32(name) {
            Some(number) => {
                if number == 0 || number > n {
                    None
                } else {
                    Some(Vertex(number - 1))
                }
            }
            None => None,
        }
    }

    #[tactic(auto, using(crate::specs::NumberLaws::names_count, crate::specs::NumberLaws::name_at, crate::specs::NumberLaws::digits_alone))]
    fn name(&self, v: Vertex) -> Name<'_> {
        let n = self.n();
        prove!(v.0 < n);
        let (digits, len) = digits_of(v.0 + 1);
        Name::Number { digits, len }
    }
}
