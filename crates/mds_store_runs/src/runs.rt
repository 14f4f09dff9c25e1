//! What a run over a store of packed days promises, in the words of the library.

ghost use Rattle.std.specs.Prelude.{◌≡◌, ◌<◌, IfOk, IsTrue, OnErr, length};
ghost use Rattle.sqlite.specs.Held.{state};
ghost use Rattle.sqlite.specs.State.{HasCleanDisk};
ghost use Rattle.sqlite_trees.specs.Tree.{Trees};
ghost use Rattle.mds_world.specs.World.{IsLawful, World};
ghost use Rattle.mds_tables.specs.Stores.{world_kept};
ghost use Rattle.mds_pack_rows.specs.Current.{current_layout, current_world};
ghost use Rattle.mds_store.specs.CurrentStore.{HoldsCurrent};
ghost use Rattle.mds_service.specs.Crashes.{MayLeave};
ghost use Rattle.mds_service.specs.Machine.{Run};

use mds_service::{Answer, Request, run};
use mds_store::PackKeeper;
use sqlite::Alter;
use std::alloc::{AllocError, Global};

/// Answers requests in their order over a store of packed days, with one answer for each.
pub fn run_packs<S: Alter>(
    alloc: Global,
    keeper: &mut PackKeeper<S>,
    requests: &[Request],
) -> Result<Vec<Answer>, AllocError>
    // While the disk gives back what was written, all answers are those of a run of the machine. The run goes from the
    // World that the tables named to a lawful one. The tables name the latter if the connection is still open. An open
    // after a crash may find tables that name it, or it with one more whole request whose answer was Unavailable. After
    // that request nothing was changed.
    ensures run { IfOk result (λ answers. HasCleanDisk (state S.Store keeper.new.conn)
        → IsTrue (state S.Store keeper.old.conn).is_open → IsLawful (world_kept current_layout (state S.Store keeper.old.conn))
        → (w : World) × IsLawful w
        × Run (world_kept current_layout (state S.Store keeper.old.conn)) requests.now answers.items w
        × (IsTrue (state S.Store keeper.new.conn).is_open → world_kept current_layout (state S.Store keeper.new.conn) ≡ w)
        × ((trees : Trees) → (state S.Store keeper.new.conn).may_leave trees
        → MayLeave w requests.now answers.items (current_world trees))) }

    // The tables are those of a store, which can be opened again.
    ensures store { HoldsCurrent (state S.Store keeper.new.conn) }

    // Each request has its answer. Nothing is changed if there is no room for the list of answers, and an empty list needs
    // none.
    ensures count { IfOk result (λ answers. length answers.items ≡ length requests.now) }
    ensures err { OnErr result (keeper.new ≡ keeper.old) }
    ensures memory { OnErr result (0 < length requests.now) }
{
    run(alloc, keeper, requests)
}
