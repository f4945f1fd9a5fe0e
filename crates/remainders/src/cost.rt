//! What marked links cost.
ghost use Rattle.std.specs.Prelude.{◌≡◌, ℕ, ◌<◌, true, [], map, length, if◌then◌else◌, slice_index_or};
ghost use Rattle.amount.specs.Parts.{nothing as no_amount, within as lies_within};
ghost use Rattle.digraph.specs.Entering.{marked};
ghost use Rattle.duality.specs.Costs.{summed};

use amount::kind::Amount;
use digraph::table::LINKS;

/// The sum of the prices of the marked links.
pub fn cost_of_marked<T: Amount>(prices: &[T], marks: &[u8; LINKS]) -> T
    requires sized { length prices.now ≡ 200 }
    requires small { (k : ℕ) → marked marks.now k ≡ true → lies_within 100000 (slice_index_or (map T.parts prices.now) k []) ≡ true }
    ensures { T.parts result ≡ summed T.width (λ k. (if marked marks.now k then slice_index_or (map T.parts prices.now) k [] else no_amount T.width)) 200 }
{
    let mut total = T::nothing();
    for (mark, price) in marks.iter().zip(prices) {
        if *mark != 0 {
            total = total.plus(*price);
        }
    }
    total
}
