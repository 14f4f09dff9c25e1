//! A law that says what a keeper over tables of packed days is, in the library's words. The function does nothing.

ghost use Rattle.std.specs.Prelude.{◌≡◌, ◌↔◌, IsTrue};
ghost use Rattle.sqlite.specs.Held.{state};
ghost use Rattle.sqlite.specs.State.{HasCleanDisk};
ghost use Rattle.sqlite_catalog.specs.Listing.{IsSound};
ghost use Rattle.sqlite_trees.specs.Tree.{Trees};
ghost use Rattle.mds_tables.specs.Stores.{world_kept};
ghost use Rattle.mds_pack_rows.specs.Current.{current_layout, current_schema, current_world};
ghost use Rattle.mds_store.specs.CurrentStore.{AreCurrent, IsCurrentStore};
ghost use Rattle.mds_world.specs.World.{World};

use crate::pack_keeper::PackKeeper;
use mds_keeper::Keeper;
use sqlite::Alter;

/// It keeps the World that the rows of its tables name. It is honest while its disk is, and sound while its connection is open too. A
/// crash may leave any World named by tables that the library's store may leave. While it is sound, what is committed is a store that
/// `adopt` takes. While it is honest, any tables that a crash may leave are one too, even if a fault shut the connection. They obey
/// the current schema, say its number, and have no row that goes unseen.
pub fn a_keeper_is_its_tables<S: Alter>(_keeper: &PackKeeper<S>)
    ensures world { (⟦<PackKeeper<S> as Keeper>⟧.kept _keeper.now).world ≡ world_kept current_layout (state S.Store _keeper.now.conn) }
    ensures honest { (⟦<PackKeeper<S> as Keeper>⟧.kept _keeper.now).honest ↔ HasCleanDisk (state S.Store _keeper.now.conn) }
    ensures sound { (⟦<PackKeeper<S> as Keeper>⟧.kept _keeper.now).sound
        ↔ (HasCleanDisk (state S.Store _keeper.now.conn) × IsTrue (state S.Store _keeper.now.conn).is_open) }
    ensures may_leave { (left : World) → (⟦<PackKeeper<S> as Keeper>⟧.kept _keeper.now).may_leave left
        ↔ ((trees : Trees) × (state S.Store _keeper.now.conn).may_leave trees × (current_world trees ≡ left)) }
    ensures store { HasCleanDisk (state S.Store _keeper.now.conn) → IsTrue (state S.Store _keeper.now.conn).is_open
        → IsCurrentStore (state S.Store _keeper.now.conn).committed }
    ensures left { HasCleanDisk (state S.Store _keeper.now.conn) → (trees : Trees) → (state S.Store _keeper.now.conn).may_leave trees
        → AreCurrent trees × ∥ IsSound current_schema trees ∥₁ }
{}
