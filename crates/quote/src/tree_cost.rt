//! What the installed tree costs.
ghost use Rattle.std.specs.Prelude.{◌≡◌, ℕ, ◌<◌, ◌≤◌, true, [], map, length, slice_index};
ghost use Rattle.amount.specs.Parts.{within as lies_within};
ghost use Rattle.duality.specs.Trees.{cost_of_list};
ghost use Rattle.quote.specs.Trees.{shown};

use amount::kind::Amount;

/// The sum of the prices of listed links.
pub fn cost_of_listed<T: Amount>(prices: &[T], list: &[u16]) -> T
    requires few { length list.now ≤ 39 }
    requires placed { (i : ℕ) → i < length list.now → slice_index list.now i < length prices.now }
    requires small { (i : ℕ) → i < length list.now → lies_within 100000 (shown (map T.parts prices.now) (slice_index list.now i)) ≡ true }
    ensures { T.parts result ≡ cost_of_list T.width (shown (map T.parts prices.now)) list.now }
{
    let mut total = T::nothing();
    // No `fold`: its proof needs a function that the closure computes at every total, and `plus` says what
    // it gives only for a sum that fits.
    for k in list {
        total = total.plus(prices[*k as usize]);
    }
    total
}
