//! The column of what is left of each link.
//!
//! Columns are slices, and that they have 200 places is required: a proof keeps the length of a slice that
//! a call writes, and forgets that of an array, so each array would ask for a clause on its length again.
ghost use Rattle.std.specs.Prelude.{◌≡◌, ℕ, ◌<◌, true, false, [], ◌∷◌, ◌++◌, map, length, take, set, if◌then◌else◌, filter, ◌≢◌, slice_index, slice_index_or};
ghost use Rattle.std.specs.List.{range_with_len};
ghost use Rattle.amount.specs.Parts.{minus, Fitting};
ghost use Rattle.digraph.specs.Entering.{enters_at};
ghost use Rattle.duality.specs.Trees.{is_link};
ghost use Rattle.stages.specs.Asked.{for_each};
ghost use Rattle.remainders.specs.Column.{spent, spent_link, gone};

use crate::links::link_enters;
use crate::used_up::UsedUp;
use amount::kind::Amount;
use digraph::table::LINKS;
use sheet::Sheet;

/// Whether nothing is left of an amount that is not below nothing.
fn is_spent<T: Amount>(left: T) -> bool
    ensures { result ≡ spent T.width (T.parts left) }
{
    !T::nothing().is_below(left)
}

/// Puts the price of each link of the sheet into the column; every other place stays.
pub fn copy_prices<T: Amount>(sheet: &Sheet, prices: &[T], left: &mut [T])
    requires prices { length prices.now ≡ 200 }
    requires left { length left.old ≡ 200 }
    ensures { (k : ℕ) (d : T) → slice_index_or left.new k d ≡ (if is_link sheet.now.links.slots k then slice_index_or prices.now k d else slice_index_or left.old k d) }
{
    // By index: a proof knows nothing of the places that `iter_mut` writes.
    for k in 0..LINKS {
        if sheet.link(k as u16).is_some() {
            left[k] = prices[k];
        }
    }
}

/// The links that have nothing left at first.
pub fn used_up_at_first<T: Amount>(sheet: &Sheet, left: &[T]) -> UsedUp
    requires { length left.now ≡ 200 }
    ensures marks { result.marks ≡ for_each (λ k. (if spent_link T.width sheet.now.links.slots (map T.parts left.now) k then 1 else 0)) }
    ensures order { take result.count result.order ≡ filter (spent_link T.width sheet.now.links.slots (map T.parts left.now)) (range_with_len 0 200) }
{
    let mut used = UsedUp::none();
    for k in 0..LINKS as u16 {
        if sheet.link(k).is_some() && is_spent(left[k as usize]) {
            used.note(k);
        }
    }
    used
}

/// Takes `amount` from every link that enters `set`, none of which is used up, and notes those that come
/// to nothing.
pub fn lower<T: Amount>(sheet: &Sheet, left: &mut [T], used: &mut UsedUp, set: u64, amount: T)
    requires sized { length left.old ≡ 200 }
    requires unused { (k : ℕ) → enters_at sheet.now.links.slots k set ≡ true → slice_index used.old.marks k ≡ 0 }
    requires fits { (k : ℕ) → enters_at sheet.now.links.slots k set ≡ true → Fitting (minus (slice_index_or (map T.parts left.old) k []) (T.parts amount)) }
    ensures lowered { (k : ℕ) → k < 200 → enters_at sheet.now.links.slots k set ≡ true → slice_index_or (map T.parts left.new) k [] ≡ minus (slice_index_or (map T.parts left.old) k []) (T.parts amount) }
    ensures others { (k : ℕ) (d : T) → enters_at sheet.now.links.slots k set ≡ false → slice_index_or left.new k d ≡ slice_index_or left.old k d }
    ensures marks { used.new.marks ≡ for_each (λ k. (if gone T.width sheet.now.links.slots (map T.parts left.old) set (T.parts amount) k then 1 else slice_index used.old.marks k)) }
    ensures order { take used.new.count used.new.order ≡ take used.old.count used.old.order ++ filter (gone T.width sheet.now.links.slots (map T.parts left.old) set (T.parts amount)) (range_with_len 0 200) }
{
    for k in 0..LINKS as u16 {
        if link_enters(sheet, k, set) {
            lower_link(left, used, k, amount);
        }
    }
}

/// Takes `amount` from link `k`, and notes it if it comes to nothing.
fn lower_link<T: Amount>(left: &mut [T], used: &mut UsedUp, k: u16, amount: T)
    requires sized { length left.old ≡ 200 }
    requires within { k < 200 }
    requires unused { slice_index used.old.marks k ≡ 0 }
    requires fits { Fitting (minus (slice_index_or (map T.parts left.old) k []) (T.parts amount)) }
    ensures lowered { map T.parts left.new ≡ set (map T.parts left.old) k (minus (slice_index_or (map T.parts left.old) k []) (T.parts amount)) }
    ensures others { (j : ℕ) (d : T) → (j ≢ k) → slice_index_or left.new j d ≡ slice_index_or left.old j d }
    ensures marks { used.new.marks ≡ (if spent T.width (minus (slice_index_or (map T.parts left.old) k []) (T.parts amount)) then set used.old.marks k 1 else used.old.marks) }
    ensures order { take used.new.count used.new.order ≡ take used.old.count used.old.order ++ (if spent T.width (minus (slice_index_or (map T.parts left.old) k []) (T.parts amount)) then k ∷ [] else []) }
{
    let rest = left[k as usize].minus(amount);
    left[k as usize] = rest;
    if is_spent(rest) {
        used.note(k);
    }
}
