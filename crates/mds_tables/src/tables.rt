//! The tables that every schema has and whose rows are put, as data. The table of events isn't among them.

ghost use Rattle.std.specs.Prelude.{◌≡◌};
ghost use Rattle.sqlite.specs.Values.{bound};
ghost use Rattle.mds_tables.specs.HeadTabling.{head_is, head_tabling};
ghost use Rattle.mds_tables.specs.HolidayTabling.{holiday_is, holiday_tabling};
ghost use Rattle.mds_tables.specs.JobTabling.{job_is, job_tabling};
ghost use Rattle.mds_tables.specs.Parts.{job_part, period_part};
ghost use Rattle.mds_tables.specs.PeriodTabling.{period_is, period_tabling};

use crate::cells::{holiday_cells, job_cells, period_cells, unit_cells};
use crate::jobs::JobRow;
use crate::periods::PeriodRow;
use crate::rows::Tabled;
use mds_terms::Day;
use mds_world::Head;
use sqlite::types::ValueRef;
use std::alloc::AllocError;

/// mds_head: a row for a new day, by one of its heads.
pub struct HeadTable;

impl Tabled<(), Head> for HeadTable {
    ghost tabling = { λ _. head_tabling };

    fn one() -> &'static str {
        "INSERT INTO mds_head (nmi, suffix, day, length, unit) VALUES (?1, ?2, ?3, ?4, ?5)"
    }

    fn many() -> &'static str {
        "INSERT INTO mds_head (nmi, suffix, day, length, unit) VALUES (?1, ?2, ?3, ?4, ?5), (?6, ?7, ?8, ?9, ?10), (?11, ?12, ?13, ?14, ?15), (?16, ?17, ?18, ?19, ?20), (?21, ?22, ?23, ?24, ?25), (?26, ?27, ?28, ?29, ?30), (?31, ?32, ?33, ?34, ?35), (?36, ?37, ?38, ?39, ?40), (?41, ?42, ?43, ?44, ?45), (?46, ?47, ?48, ?49, ?50), (?51, ?52, ?53, ?54, ?55), (?56, ?57, ?58, ?59, ?60), (?61, ?62, ?63, ?64, ?65), (?66, ?67, ?68, ?69, ?70), (?71, ?72, ?73, ?74, ?75), (?76, ?77, ?78, ?79, ?80)"
    }

    fn add_cells<'a>(
        head: &'a Head,
        _with: &'a (),
        cells: &mut Vec<ValueRef<'a>>,
    ) -> Result<(), AllocError> {
        cells.extend_from_slice(&unit_cells(head))
    }

    ghost is = { λ _ rest. head_is rest };
}

/// mds_period: a row for an accumulation.
pub struct PeriodTable;

impl Tabled<(), PeriodRow> for PeriodTable {
    ghost tabling = { λ _. period_tabling };

    fn one() -> &'static str {
        "INSERT INTO mds_period (nmi, suffix, register, start, finish, moment, body) VALUES (?1, ?2, ?3, ?4, ?5, ?6, ?7)"
    }

    fn many() -> &'static str {
        "INSERT INTO mds_period (nmi, suffix, register, start, finish, moment, body) VALUES (?1, ?2, ?3, ?4, ?5, ?6, ?7), (?8, ?9, ?10, ?11, ?12, ?13, ?14), (?15, ?16, ?17, ?18, ?19, ?20, ?21), (?22, ?23, ?24, ?25, ?26, ?27, ?28), (?29, ?30, ?31, ?32, ?33, ?34, ?35), (?36, ?37, ?38, ?39, ?40, ?41, ?42), (?43, ?44, ?45, ?46, ?47, ?48, ?49), (?50, ?51, ?52, ?53, ?54, ?55, ?56), (?57, ?58, ?59, ?60, ?61, ?62, ?63), (?64, ?65, ?66, ?67, ?68, ?69, ?70), (?71, ?72, ?73, ?74, ?75, ?76, ?77), (?78, ?79, ?80, ?81, ?82, ?83, ?84), (?85, ?86, ?87, ?88, ?89, ?90, ?91), (?92, ?93, ?94, ?95, ?96, ?97, ?98), (?99, ?100, ?101, ?102, ?103, ?104, ?105), (?106, ?107, ?108, ?109, ?110, ?111, ?112)"
    }

    fn add_cells<'a>(
        row: &'a PeriodRow,
        _with: &'a (),
        cells: &mut Vec<ValueRef<'a>>,
    ) -> Result<(), AllocError> {
        cells.extend_from_slice(&period_row_cells(row))
    }

    ghost is = { λ _ rest. period_is rest };
}

/// The columns of an accumulation.
fn period_row_cells<'a>(row: &'a PeriodRow) -> [ValueRef<'a>; 7]
    ensures { bound result ≡ period_part.cells row.now }
{
    period_cells(&row.key, row.body.as_bytes())
}

/// mds_holiday: a row for a day.
pub struct HolidayTable;

impl Tabled<(), Day> for HolidayTable {
    ghost tabling = { λ _. holiday_tabling };

    fn one() -> &'static str {
        "INSERT INTO mds_holiday (day) VALUES (?1)"
    }

    fn many() -> &'static str {
        "INSERT INTO mds_holiday (day) VALUES (?1), (?2), (?3), (?4), (?5), (?6), (?7), (?8), (?9), (?10), (?11), (?12), (?13), (?14), (?15), (?16)"
    }

    fn add_cells<'a>(
        day: &'a Day,
        _with: &'a (),
        cells: &mut Vec<ValueRef<'a>>,
    ) -> Result<(), AllocError> {
        cells.extend_from_slice(&holiday_cells(*day))
    }

    ghost is = { λ _ rest. holiday_is rest };
}

/// mds_job: a row for a job.
pub struct JobTable;

impl Tabled<(), JobRow> for JobTable {
    ghost tabling = { λ _. job_tabling };

    fn one() -> &'static str {
        "INSERT INTO mds_job (id, body, total) VALUES (?1, ?2, ?3)"
    }

    fn many() -> &'static str {
        "INSERT INTO mds_job (id, body, total) VALUES (?1, ?2, ?3), (?4, ?5, ?6), (?7, ?8, ?9), (?10, ?11, ?12), (?13, ?14, ?15), (?16, ?17, ?18), (?19, ?20, ?21), (?22, ?23, ?24), (?25, ?26, ?27), (?28, ?29, ?30), (?31, ?32, ?33), (?34, ?35, ?36), (?37, ?38, ?39), (?40, ?41, ?42), (?43, ?44, ?45), (?46, ?47, ?48)"
    }

    fn add_cells<'a>(
        row: &'a JobRow,
        _with: &'a (),
        cells: &mut Vec<ValueRef<'a>>,
    ) -> Result<(), AllocError> {
        cells.extend_from_slice(&job_row_cells(row))
    }

    ghost is = { λ _ rest. job_is rest };
}

/// The columns of a job.
fn job_row_cells<'a>(row: &'a JobRow) -> [ValueRef<'a>; 3]
    ensures { bound result ≡ job_part.cells row.now }
{
    job_cells(&row.id, row.body.as_bytes(), row.count)
}
