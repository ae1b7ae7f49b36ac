// The fix-ups of a removal from the map's tree, over any memory and any order. Each runs its row of steps, from whatever its memory means;
// where it answers, it tells whether the tree under register d is one black node short. Register d holds the root of the subtree at
// depth d, and register 35 is nil. The register and the side change apart, one level down or on the other side: a struct of both would be made
// anew at each call.
#![tactic(auto)]

ghost use Rattle.working.specs.Works.{Works};
ghost use Rattle.map_steps.specs.Remove.{tilt_of, spin_of, pass_up_of, sibling_fix_of, regraft_of, red_sibling_of, short_fix_of, step_up_of};
ghost use Rattle.map_fixes.specs.Fixes.{lift_of, colours_of};

use map_insert::is_red;
use memory::pointer::PointerMemory;
use order::VersionOrder;
use refusals::kinds::MemoryRefusal;
use tree_calls::{relink, rotate, set_mark};
use working::Working;

// The red near child of the sibling, in register 28, is rotated above it, into register 26; the far child is then in register 27.
#[tactic(auto, unfolding(map_steps::specs::Remove::tilt_of))]
fn tilt<M: PointerMemory, O: VersionOrder>(
    work: &mut Working<'_, M, O>,
    d: usize,
    right: bool,
) -> Result<(), MemoryRefusal>
    ensures { Works M.means O.items work.old work.new result (tilt_of d right) }
{
    set_mark(work, 28, 0)?;
    set_mark(work, 26, 1)?;
    rotate(work, 26, right)?;
    relink(work, d, !right, 26)?;
    work.follow(26, usize::from(!right), 27)
}

// The sibling, whose far child in register 27 is red, is rotated above its parent, and gets the parent's colour.
#[tactic(auto, unfolding(map_steps::specs::Remove::spin_of))]
fn spin<M: PointerMemory, O: VersionOrder>(
    work: &mut Working<'_, M, O>,
    d: usize,
    right: bool,
    red: bool,
) -> Result<bool, MemoryRefusal>
    ensures { Works M.means O.items work.old work.new result (spin_of d right red) }
{
    set_mark(work, 27, 0)?;
    set_mark(work, d, 0)?;
    rotate(work, d, !right)?;
    set_mark(work, d, u32::from(red))?;
    Ok(false)
}

// The sibling becomes red, its parent black: short now is the whole, unless the parent was red.
#[tactic(auto, unfolding(map_steps::specs::Remove::pass_up_of))]
fn pass_up<M: PointerMemory, O: VersionOrder>(
    work: &mut Working<'_, M, O>,
    d: usize,
    red: bool,
) -> Result<bool, MemoryRefusal>
    ensures { Works M.means O.items work.old work.new result (pass_up_of d red) }
{
    set_mark(work, 26, 1)?;
    set_mark(work, d, 0)?;
    Ok(!red)
}

// A black sibling with a red child is rotated above its parent. `far` is a colour that was read, and no choice of the caller.
#[tactic(auto, unfolding(crate::specs::Fixes::lift_of))]
fn lift_sibling<M: PointerMemory, O: VersionOrder>(
    work: &mut Working<'_, M, O>,
    d: usize,
    right: bool,
    red: bool,
    far: bool,
) -> Result<bool, MemoryRefusal>
    ensures { Works M.means O.items work.old work.new result (lift_of d right red far) }
{
    if far {
        return spin(work, d, right, red);
    }
    tilt(work, d, right)?;
    spin(work, d, right, red)
}

// Puts a short side right beside a black sibling, whose children are in registers 27 and 28.
#[tactic(auto, unfolding(crate::specs::Fixes::colours_of))]
fn fix_by_colours<M: PointerMemory, O: VersionOrder>(
    work: &mut Working<'_, M, O>,
    d: usize,
    right: bool,
) -> Result<bool, MemoryRefusal>
    ensures { Works M.means O.items work.old work.new result (colours_of d right) }
{
    let top = is_red(work, d)?;
    let far = is_red(work, 27)?;
    let near = is_red(work, 28)?;
    if far || near {
        lift_sibling(work, d, right, top, far)
    } else {
        pass_up(work, d, top)
    }
}

// Puts a short side right beside a black sibling.
#[tactic(auto, unfolding(map_steps::specs::Remove::sibling_fix_of))]
fn sibling_fix<M: PointerMemory, O: VersionOrder>(
    work: &mut Working<'_, M, O>,
    d: usize,
    right: bool,
) -> Result<bool, MemoryRefusal>
    ensures { Works M.means O.items work.old work.new result (sibling_fix_of d right) }
{
    let near = usize::from(right);
    let far = usize::from(!right);
    work.follow(d, far, 26)?;
    work.follow(26, far, 27)?;
    work.follow(26, near, 28)?;
    fix_by_colours(work, d, right)
}

// The child on a side is cut off, put right where it is short on the same side, and linked again.
#[tactic(auto, unfolding(map_steps::specs::Remove::regraft_of))]
fn regraft<M: PointerMemory, O: VersionOrder>(
    work: &mut Working<'_, M, O>,
    d: usize,
    right: bool,
) -> Result<bool, MemoryRefusal>
    ensures { Works M.means O.items work.old work.new result (regraft_of d right) }
{
    if d >= 40 {
        return Err(MemoryRefusal::OutOfRange);
    }
    let side = usize::from(right);
    work.follow(d, side, d + 1)?;
    work.link(d, side, 35)?;
    let _ = sibling_fix(work, d + 1, right)?;
    work.link(d, side, d + 1)?;
    Ok(false)
}

// A red sibling, in register 26, is rotated above its parent; the short side's new sibling is black.
#[tactic(auto, unfolding(map_steps::specs::Remove::red_sibling_of))]
fn red_sibling<M: PointerMemory, O: VersionOrder>(
    work: &mut Working<'_, M, O>,
    d: usize,
    right: bool,
) -> Result<bool, MemoryRefusal>
    ensures { Works M.means O.items work.old work.new result (red_sibling_of d right) }
{
    set_mark(work, 26, 0)?;
    set_mark(work, d, 1)?;
    rotate(work, d, !right)?;
    regraft(work, d, right)
}

// Puts a short side right.
#[tactic(auto, unfolding(map_steps::specs::Remove::short_fix_of))]
pub fn short_fix<M: PointerMemory, O: VersionOrder>(
    work: &mut Working<'_, M, O>,
    d: usize,
    right: bool,
) -> Result<bool, MemoryRefusal>
    ensures { Works M.means O.items work.old work.new result (short_fix_of d right) }
{
    work.follow(d, usize::from(!right), 26)?;
    if is_red(work, 26)? {
        return red_sibling(work, d, right);
    }
    sibling_fix(work, d, right)
}

// One level of a removal: the child is linked again, and its side put right where it is short, as the level below has answered.
#[tactic(auto, unfolding(map_steps::specs::Remove::step_up_of))]
pub fn step_up<M: PointerMemory, O: VersionOrder>(
    work: &mut Working<'_, M, O>,
    d: usize,
    right: bool,
    short: bool,
) -> Result<bool, MemoryRefusal>
    ensures { Works M.means O.items work.old work.new result (step_up_of d right short) }
{
    if d >= 40 {
        return Err(MemoryRefusal::OutOfRange);
    }
    relink(work, d, right, d + 1)?;
    if short {
        return short_fix(work, d, right);
    }
    Ok(false)
}
