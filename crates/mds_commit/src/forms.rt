//! Heads of days, each a row of mds_form.

ghost use Rattle.mds_commit.specs.FormTabling.{form_is, form_tabling};

use mds_tables::{Tabled, form_cells};
use mds_world::Head;
use sqlite::types::ValueRef;
use std::alloc::AllocError;

/// mds_form: a row for a head, which has its versions in mds_pack. The tables refuse a second row for an update of a day.
pub struct FormTable;

impl Tabled<(), Head> for FormTable {
    ghost tabling = { λ _. form_tabling };

    fn one() -> &'static str {
        "INSERT INTO mds_form (nmi, suffix, day, moment, length) VALUES (?1, ?2, ?3, ?4, ?5)"
    }

    fn many() -> &'static str {
        "INSERT INTO mds_form (nmi, suffix, day, moment, length) VALUES (?1, ?2, ?3, ?4, ?5), (?6, ?7, ?8, ?9, ?10), (?11, ?12, ?13, ?14, ?15), (?16, ?17, ?18, ?19, ?20), (?21, ?22, ?23, ?24, ?25), (?26, ?27, ?28, ?29, ?30), (?31, ?32, ?33, ?34, ?35), (?36, ?37, ?38, ?39, ?40), (?41, ?42, ?43, ?44, ?45), (?46, ?47, ?48, ?49, ?50), (?51, ?52, ?53, ?54, ?55), (?56, ?57, ?58, ?59, ?60), (?61, ?62, ?63, ?64, ?65), (?66, ?67, ?68, ?69, ?70), (?71, ?72, ?73, ?74, ?75), (?76, ?77, ?78, ?79, ?80)"
    }

    fn add_cells<'a>(
        head: &'a Head,
        _with: &'a (),
        cells: &mut Vec<ValueRef<'a>>,
    ) -> Result<(), AllocError> {
        cells.extend_from_slice(&form_cells(head))
    }

    ghost is = { λ _ rest. form_is rest };
}
