//! What a cover is sought for.
ghost use Rattle.std.specs.Prelude.{map};
ghost use Rattle.sheet.specs.Held.{held};
ghost use Rattle.stages.specs.Asked.{asked_of};
ghost use Rattle.cover.specs.Ready.{Ready};

use amount::kind::Amount;
use family::interface::Family;
use sheet::Sheet;

/// What a cover is sought for, once nothing turned it back: a sheet with a legal price for each of its
/// links, and a family for its stations of which links of the sheet enter every member.
#[derive(Drop)]
pub struct Question<'a, T: Amount, F: Family> {
    pub sheet: &'a Sheet,
    pub prices: &'a [T],
    pub family: &'a F,
    ghost ready: { Ready (held sheet.now) (asked_of T.width (held sheet.now) (map T.parts prices.now) (F.small family.now) (F.large family.now)) (F.size family.now) },
}
