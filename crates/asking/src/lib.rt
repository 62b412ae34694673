// Asking: one descent finds the smallest block that contains a pixel; it and the blocks passed on the way are those opened.
#![tactic(auto)]

ghost use Rattle.pktree.specs.Panel.{OnPanel};
ghost use Rattle.measures.specs.Sizes.{panel_of};
ghost use Rattle.promises.specs.Effect.{effect};
ghost use Rattle.promises.specs.Calls.{Asks};
ghost use Rattle.answers.specs.Answer.{ask_answer};

use answers::{Place, Refusal};
use descent::{locate, no_path};
use measures::lent::Register;

// 01's ask, where refusals 3 and 4 do not apply; 02, P8: with the block that the descent ends in.
pub fn ask(register: &Register, code: u32) -> Result<Place, Refusal>
    requires { OnPanel (panel_of register.now.sizes) code }
    ensures { Asks register.now.words.now code (effect (ask_answer result) register.now.words.now register.now.words.now) }
{
    let mut path = no_path();
    let located = locate(&register.slots(), register.sizes.order, code, &mut path)?;
    Ok(Place {
        marked: located.marked,
        opened: located.depth + 1,
        level: located.block.level,
        code: located.block.code,
    })
}
