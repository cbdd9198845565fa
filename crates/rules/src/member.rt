// A member of the cooperative.
ghost use Rattle.rules.specs.Members.{by_name};
ghost use Rattle.rules.specs.NameOrder.{bytes_order};

use crate::name::Name;
use ranked::rank::Rank;
use std::cmp::Ordering;

// The contribution is in whole euros.
#[derive(Clone, Copy, PartialEq, Eq, Debug)]
pub struct Member {
    pub name: Name,
    pub contribution: u64,
}

// Members stand in the order of their names.
impl Rank for Member {
    ghost ranks = { by_name };

    ghost ordered = { record {
      turned = λ x y. bytes_order.turned x.name.bytes y.name.bytes;
      before = λ x y z. bytes_order.before x.name.bytes y.name.bytes z.name.bytes;
      level = λ x y z. bytes_order.level x.name.bytes y.name.bytes z.name.bytes;
    } };

    fn rank(&self, other: &Member) -> Ordering {
        self.name.rank(&other.name)
    }
}
