//! Revised prices.
ghost use Rattle.std.specs.Prelude.{◌≡◌, ℕ, ◌<◌, true, false, [], map, length, slice_index, slice_index_or, if◌then◌else◌};
ghost use Rattle.amount.specs.Parts.{minus, Fitting};
ghost use Rattle.cuts.specs.Families.{listed};
ghost use Rattle.duality.specs.Trees.{is_link};
ghost use Rattle.sheet.specs.Held.{held};
ghost use Rattle.tree_shape.specs.Trees.{tree_of};
ghost use Rattle.quote.specs.Trees.{shown};

use amount::kind::Amount;
use cover::memory::CoverMemory;
use remainders::column::copy_prices;
use sheet::Sheet;

/// Puts the revised price of each link of the sheet: of a tree link its price less what the cover left of
/// it, of any other its price. Every other place stays.
pub(crate) fn revise<T: Amount>(
    sheet: &Sheet,
    prices: &[T],
    cover: &CoverMemory<'_, T>,
    revised: &mut [T],
)
    requires prices { length prices.now ≡ 200 }
    requires left { length cover.now.left.now ≡ 200 }
    requires revised { length revised.old ≡ 200 }
    requires placed { (i : ℕ) → i < length (tree_of (held sheet.now)) → slice_index (tree_of (held sheet.now)) i < 200 }
    requires fits { (i : ℕ) → i < length (tree_of (held sheet.now)) → Fitting (minus (shown (map T.parts prices.now) (slice_index (tree_of (held sheet.now)) i)) (shown (map T.parts cover.now.left.now) (slice_index (tree_of (held sheet.now)) i))) }
    ensures lowered { (k : ℕ) → listed (tree_of (held sheet.now)) k ≡ true → shown (map T.parts revised.new) k ≡ minus (shown (map T.parts prices.now) k) (shown (map T.parts cover.now.left.now) k) }
    ensures others { (k : ℕ) (d : T) → listed (tree_of (held sheet.now)) k ≡ false → slice_index_or revised.new k d ≡ (if is_link sheet.now.links.slots k then slice_index_or prices.now k d else slice_index_or revised.old k d) }
{
    copy_prices(sheet, prices, revised);
    lower_listed(prices, cover.left, sheet.tree_links(), revised);
}

/// Puts for each listed link its price less what is left of it; every other place stays.
pub fn lower_listed<T: Amount>(prices: &[T], left: &[T], list: &[u16], revised: &mut [T])
    requires prices { length prices.now ≡ 200 }
    requires left { length left.now ≡ 200 }
    requires revised { length revised.old ≡ 200 }
    requires placed { (i : ℕ) → i < length list.now → slice_index list.now i < 200 }
    requires fits { (i : ℕ) → i < length list.now → Fitting (minus (shown (map T.parts prices.now) (slice_index list.now i)) (shown (map T.parts left.now) (slice_index list.now i))) }
    ensures lowered { (k : ℕ) → listed list.now k ≡ true → shown (map T.parts revised.new) k ≡ minus (shown (map T.parts prices.now) k) (shown (map T.parts left.now) k) }
    ensures others { (k : ℕ) (d : T) → listed list.now k ≡ false → slice_index_or revised.new k d ≡ slice_index_or revised.old k d }
{
    // By index: a proof knows nothing of the places that `iter_mut` writes.
    for k in list {
        revised[*k as usize] = prices[*k as usize].minus(left[*k as usize]);
    }
}
