// A schema: how many relations there are, and how many columns each has.
ghost use Rattle.std.specs.Prelude.{◌≡◌, true};
ghost use Rattle.query.specs.Rule.{good_relations};

use crate::relations_good;

// 1 to 8 relations, relation r having widths[r] columns, 1 to 8 of them; the widths that are not in use are 0.
#[derive(Clone, Copy)]
pub struct Schema {
    pub relations: u8,
    pub widths: [u8; 8],
    pub ghost good: { good_relations relations widths ≡ true },
}

impl Schema {
    ghost use Rattle.std.specs.Prelude.{is_some, IfSome};

    // The schema of some relations, if they are good.
    pub fn new(relations: u8, widths: [u8; 8]) -> Option<Schema>
        ensures some { is_some result ≡ good_relations relations widths }
        ensures fields { IfSome result (λ s. (s.relations ≡ relations) × (s.widths ≡ widths)) }
    {
        if relations_good(relations, widths) {
            Some(Schema { relations, widths })
        } else {
            None
        }
    }
}
