ghost use Rattle.std.specs.Prelude.{◌≡◌};
ghost use Rattle.measures.specs.Sizes.{UsableStore, sizes_of};
ghost use Rattle.building.specs.Finish.{BuildDue, Replaced};
ghost use Rattle.promises.specs.Effect.{effect};
ghost use Rattle.promises.specs.Calls.{Fills};
ghost use Rattle.answers.specs.Answer.{answer};

use crate::codes::{all_on_panel, ascend};
use answers::Refusal;
use building::codes::build_with;
use measures::sizes::Sizes;
use measures::slots::wide;
use packing::empty_stack;
use packing::plan::Plan;

// The register of these codes, which ascend strictly; only words 0 to 3 are relied on.
pub fn fill_codes(store: &mut [u32], sizes: Sizes, codes: &[u32])
    requires { BuildDue store.old sizes codes.now }
    ensures { Replaced store.old store.new codes.now }
{
    let mut stack = empty_stack();
    build_with(
        store,
        Plan::of(sizes),
        &mut stack,
        codes.iter().copied(),
        codes.len() as u32,
    );
}

// 02's fill, where refusal 3 does not apply. The codes are judged before a word is written; a damaged store is mended.
pub fn fill(store: &mut [u32], sizes: Sizes, codes: &[u32]) -> Result<(), Refusal>
    requires { UsableStore store.old × (sizes ≡ sizes_of store.old) }
    ensures { Fills store.old codes.now (effect (answer result) store.old store.new) }
{
    if !all_on_panel(codes, sizes.order) {
        return Err(Refusal::OffPanel);
    }
    if wide(sizes.most) < codes.len() {
        return Err(Refusal::Full);
    }
    if !ascend(codes) {
        return Err(Refusal::NotAscending);
    }
    fill_codes(store, sizes, codes);
    Ok(())
}
