//! Versions that pieces make of a base.
ghost use Rattle.std.specs.Prelude.{◌≡◌, ◌≤◌, ◌^◌, length};
ghost use Rattle.ed_buffer.specs.Planning.{AreInside, put_in};
ghost use Rattle.ed_callbacks.specs.HookLists.{hook_table};
ghost use Rattle.ed_version.specs.Chain.{text_now};
ghost use Rattle.ed_held.specs.Landing.{CanLand, HasLanded, Lands};

use crate::held::Held;
use ed_buffer::{Base, BaseFault, BaseStep, Piece};
use ed_callbacks::Hooks;
use std::alloc::Global;

/// Plans the version of a base to which these pieces lead.
fn base_landing(
    alloc: Global,
    hooks: &Hooks,
    base: &mut Base,
    pieces: &[Piece],
) -> Result<BaseStep, BaseFault>
    requires inside { AreInside (length (text_now base.old.chain.versions)) pieces.now }
    requires put_in { put_in pieces.now ≤ 2 ^ 27 }
    ensures { Lands (hook_table hooks.now) base.old base.new pieces.now result }
{
    if base.chain().is_full() {
        return Err(BaseFault::OutOfMemory);
    }
    base.plan(alloc, hooks, pieces, None)
}

/// Plans the version of a base that is held to which these pieces lead.
///
/// # Errors
///
/// A region denies a change, or else the text would have more than 2^22 units, or memory was refused.
pub fn landing(
    alloc: Global,
    hooks: &Hooks,
    held: &mut Held,
    pieces: &[Piece],
) -> Result<BaseStep, BaseFault>
    requires can { CanLand held.old pieces.now }
    requires put_in { put_in pieces.now ≤ 2 ^ 27 }
    ensures { HasLanded (hook_table hooks.now) held.old held.new pieces.now result }
{
    match held {
        Held::Base(base) => base_landing(alloc, hooks, base, pieces),
        Held::Projection { .. } | Held::Elision { .. } => unreachable!(),
    }
}
