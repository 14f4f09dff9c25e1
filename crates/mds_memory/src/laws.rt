//! A law that says what the ghosts of a keeper in memory are.

ghost use Rattle.std.specs.Prelude.{◌≡◌, ◌↔◌};
ghost use Rattle.mds_world.specs.World.{World};

use crate::memory::MemoryKeeper;
use mds_keeper::Keeper;

/// A keeper in memory takes nothing on trust. The World that it keeps is its value, and it is honest and sound at all
/// times. What it may leave is the World that it keeps, and no other.
pub fn a_memory_keeper_is_sound(_keeper: &MemoryKeeper)
    ensures world { (⟦<MemoryKeeper as Keeper>⟧.kept _keeper.now).world ≡ _keeper.now }
    ensures honest { (⟦<MemoryKeeper as Keeper>⟧.kept _keeper.now).honest }
    ensures sound { (⟦<MemoryKeeper as Keeper>⟧.kept _keeper.now).sound }
    ensures may_leave { (left : World) → (⟦<MemoryKeeper as Keeper>⟧.kept _keeper.now).may_leave left ↔ (left ≡ _keeper.now) }
{}
