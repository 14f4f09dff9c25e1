//! Details of days, each a row of mds_daydetail, whatever tables follow it.

ghost use Rattle.std.specs.Prelude.{◌≡◌, OnOk};
ghost use Rattle.sqlite.specs.Held.{state};
ghost use Rattle.sqlite.specs.State.{HasCleanDisk, KeepsCommit, Survives};
ghost use Rattle.mds_keeper.specs.Content.{details_of};
ghost use Rattle.mds_pack_rows.specs.DailyPutting.{PutsDetails};
ghost use Rattle.mds_pack_rows.specs.DetailTabling.{detail_is, detail_tabling};

use mds_keeper::{DetailDays, Unavailable};
use mds_tables::{Tabled, detail_cells, or_unavailable, put_all};
use mds_terms::Day;
use sqlite::types::ValueRef;
use sqlite::{Alter, Transaction};
use std::alloc::{AllocError, Global};

/// mds_daydetail: a row for a day, which has its head. All days that are put at once have the same details, whatever days these are
/// of. The tables refuse a second row of a day with the same details.
pub struct DetailTable;

impl Tabled<DetailDays, Day> for DetailTable {
    ghost tabling = { detail_tabling };

    fn one() -> &'static str {
        "INSERT INTO mds_daydetail (nmi, suffix, day, moment, configuration, register, datastream, meter, next) VALUES (?1, ?2, ?3, ?4, ?5, ?6, ?7, ?8, ?9)"
    }

    fn many() -> &'static str {
        "INSERT INTO mds_daydetail (nmi, suffix, day, moment, configuration, register, datastream, meter, next) VALUES (?1, ?2, ?3, ?4, ?5, ?6, ?7, ?8, ?9), (?10, ?11, ?12, ?13, ?14, ?15, ?16, ?17, ?18), (?19, ?20, ?21, ?22, ?23, ?24, ?25, ?26, ?27), (?28, ?29, ?30, ?31, ?32, ?33, ?34, ?35, ?36), (?37, ?38, ?39, ?40, ?41, ?42, ?43, ?44, ?45), (?46, ?47, ?48, ?49, ?50, ?51, ?52, ?53, ?54), (?55, ?56, ?57, ?58, ?59, ?60, ?61, ?62, ?63), (?64, ?65, ?66, ?67, ?68, ?69, ?70, ?71, ?72), (?73, ?74, ?75, ?76, ?77, ?78, ?79, ?80, ?81), (?82, ?83, ?84, ?85, ?86, ?87, ?88, ?89, ?90), (?91, ?92, ?93, ?94, ?95, ?96, ?97, ?98, ?99), (?100, ?101, ?102, ?103, ?104, ?105, ?106, ?107, ?108), (?109, ?110, ?111, ?112, ?113, ?114, ?115, ?116, ?117), (?118, ?119, ?120, ?121, ?122, ?123, ?124, ?125, ?126), (?127, ?128, ?129, ?130, ?131, ?132, ?133, ?134, ?135), (?136, ?137, ?138, ?139, ?140, ?141, ?142, ?143, ?144)"
    }

    fn add_cells<'a>(
        day: &'a Day,
        with: &'a DetailDays,
        cells: &mut Vec<ValueRef<'a>>,
    ) -> Result<(), AllocError> {
        cells.extend_from_slice(&detail_cells(with, *day))
    }

    ghost is = { detail_is };
}

/// Puts the details of days, each of which has its head. Unavailable if they are kept already.
pub fn put_details<S: Alter>(
    alloc: Global,
    tx: &mut Transaction<'_, S>,
    details: &[DetailDays],
) -> Result<(), Unavailable>
    ensures same_reference { tx.new.conn.ghost_name ≡ tx.old.conn.ghost_name }
    ensures ok { OnOk result (PutsDetails (state S.Store tx.old.conn.now) (state S.Store tx.new.conn.now) (details_of details.now)) }
    ensures kept { HasCleanDisk (state S.Store tx.new.conn.now) → KeepsCommit (state S.Store tx.old.conn.now) (state S.Store tx.new.conn.now) }
    ensures survives { Survives (state S.Store tx.old.conn.now) (state S.Store tx.new.conn.now) (λ _. ⊥) }
{
    for group in details {
        or_unavailable(put_all::<DetailDays, Day, DetailTable, S>(alloc, tx, group, &group.days))?;
    }
    Ok(())
}
