//! Laws of the machine, over every World and every run of requests.
//!
//! They say what any list of requests keeps, that its answers are determined, and where the order of requests doesn't matter. The
//! statements are in `specs`, over `Step` and `Run`, by which `mds_service::run` answers. The functions do nothing, except
//! `a_file_comes_in_pieces`, which reads and imports its pieces.
//! Callers: `mds_trials` calls that one. The other laws are there to be read.
//! Must not change: the names of the laws, which the table of promises in README names.
#![tactic(auto)]

mod laws;
mod pieces;

pub use laws::{
    a_job_and_a_file_change_places, a_world_is_its_facts, an_answer_is_determined,
    an_export_comes_back, files_come_in_any_order, nothing_is_lost,
    one_length_a_day_agrees_as_before, registers_agree,
};
pub use pieces::a_file_comes_in_pieces;
