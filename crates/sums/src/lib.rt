// How many pixels elements stand for: each pixel for itself, each block for the number that its slot says.
#![tactic(auto)]

ghost use Rattle.std.specs.Prelude.{◌*◌, ◌≤◌, ◌≡◌, length};
ghost use Rattle.measures.specs.Layout.{LayoutFits, most_elements};
ghost use Rattle.measures.specs.Sizes.{largest_most};
ghost use Rattle.sums.specs.Sum.{number_named, number_of_elements};

use elements::TAG_SLOTS;
use measures::sizes::{LARGEST_MOST, Layout};
use measures::slots::{NUMBER, offset, wide};

// How many pixels an element stands for, by its second word. A number that no register has counts nothing, so that no sum overflows.
fn number_named(store: &[u32], layout: Layout, tag: u32) -> u32
    requires { LayoutFits layout store.now }
    ensures { (result ≡ number_named layout store.now tag) × (result ≤ largest_most) }
{
    if tag == 0 {
        return 1;
    }
    let slot = wide((tag - 1) % TAG_SLOTS);
    if layout.slots <= slot {
        return 0;
    }
    let at = offset(layout, slot);
    let number = store[at + NUMBER];
    if LARGEST_MOST < number {
        return 0;
    }
    number
}

// How many pixels the first elements of these words stand for.
pub fn number_of_elements(store: &[u32], layout: Layout, elements: &[u32], count: usize) -> u32
    requires { LayoutFits layout store.now × ((2 * count ≤ length elements.now) × (count ≤ most_elements)) }
    ensures { result ≡ number_of_elements layout store.now count elements.now }
{
    let mut sum = 0u32;
    for i in 0..count {
        sum += number_named(store, layout, elements[2 * i + 1]);
    }
    sum
}
