// The walk through fields: depth first, fields in order, each object once. The objects met are numbered as they are first met.
// A table is lent as a slice, and each contract says `8192 ≤ length` (kept: crate table says why).
#![tactic(auto)]

ghost use Rattle.std.specs.Prelude.{[], ◌∷◌, ◌+◌, ◌≡◌, ◌≤◌, length};
ghost use Rattle.table.specs.StateTable.{InTable};
ghost use Rattle.walk.specs.Walking.{tally, unmet, Grows, Walks, Of};

use rules::Value;

// The objects met: the first `count` words of `order` are they, and `places` has one more than the place of each, 0 for an object not met.
#[derive(Drop)]
pub struct Met<'a> {
    pub places: &'a mut [u16],
    pub order: &'a mut [u16],
    pub count: usize,
    pub ghost places_long: { 256 ≤ length places.now },
    pub ghost order_long: { 256 ≤ length order.now },
    pub ghost room: { count + unmet 256 places.now ≤ 256 },
}

impl<'a> Met<'a> {
    ghost use Rattle.walk.specs.Walked.{tally_of, SameLists};

    // No object met: `places` is to be all 0.
    pub fn new(places: &'a mut [u16], order: &'a mut [u16]) -> Self
        requires { (256 ≤ length places.old) × (256 ≤ length order.old) }
        ensures none { tally_of result ≡ tally places.old order.old 0 }
        ensures same_places { result.places.ghost_name ≡ places.entry.ghost_name }
        ensures same_order { result.order.ghost_name ≡ order.entry.ghost_name }
    {
        Met {
            places,
            order,
            count: 0, // none yet
        }
    }

    // Walks a value: an object that is not met yet is met, and its fields are walked, in order. The objects not yet met fall.
    pub fn walk(&mut self, s: &[u16], v: Value)
        requires { (8192 ≤ length s.now) × InTable v }
        ensures walks { Walks s.now (tally_of self.old) (Of v) (λ S. v ∷ []) (tally_of self.new) }
        ensures grows { Grows (tally_of self.old) (tally_of self.new) }
        ensures same_lists { SameLists self.old self.new }
    {
        if let Value::Obj(o) = v {
            if self.places[o as usize] == 0 {
                self.places[o as usize] = self.count as u16 + 1;
                self.order[self.count] = o;
                self.count += 1;
                for j in 0..4 {
                    self.walk(s, table::field(s, o, j));
                }
            }
        }
    }
}

// The same on lists that are the caller's own and are read again after it (kept for copies: crate turn says why), of which the first n words of `order` are the objects met; answers how many are met then.
pub fn walk(s: &[u16], places: &mut [u16], order: &mut [u16], n: usize, v: Value) -> usize
    requires { (8192 ≤ length s.now) × (256 ≤ length places.old) × (256 ≤ length order.old) × InTable v × (n + unmet 256 places.old ≤ 256) }
    ensures walks { Walks s.now (tally places.old order.old n) (Of v) (λ S. v ∷ []) (tally places.new order.new result) }
    ensures grows { Grows (tally places.old order.old n) (tally places.new order.new result) }
{
    let mut met = Met {
        places,
        order,
        count: n,
    };
    met.walk(s, v);
    met.count
}
