//! The laws. The functions do nothing.

ghost use Rattle.mds_world.specs.World.{Agrees, World};
ghost use Rattle.mds_laws.specs.AnyOrder.{AgreeByDay, EachIsTakenIn, PartsEndAsTheWhole, PartsStateTheWhole, SameFactsEndAlike};
ghost use Rattle.mds_laws.specs.Answered.{AnsweredAreAll, UnansweredStandAside};
ghost use Rattle.mds_laws.specs.Determined.{AnswersAreDetermined, RunsAreDetermined};
ghost use Rattle.mds_laws.specs.Exchange.{ChangePlaces, MayChangePlaces};
ghost use Rattle.mds_laws.specs.Returns.{ReturnsToAnEmptyStore, ReturnsToItsStore};
ghost use Rattle.mds_laws.specs.Kept.{AnswersTellHowMany, EachCameByOne, EachPeriodCameByFile, LawStays, NothingIsAltered, NothingIsMissing};
ghost use Rattle.mds_laws.specs.Registers.{MissingShowsGaps, ReadingsShowDays, ReadingsShowExports};
ghost use Rattle.mds_laws.specs.Worlds.{EachFactCountsOnce, ListsAreTheirFacts, UnionsHaveBoth, WorldsAreTheirFacts};

/// A World is the facts that are in it. Two Worlds with the same facts are one, and a union has the facts of both. So how facts are
/// coded and ordered has no meaning.
pub fn a_world_is_its_facts()
    ensures equal { WorldsAreTheirFacts }
    ensures both { UnionsHaveBoth }
    ensures listed { ListsAreTheirFacts }
    ensures count { EachFactCountsOnce }
{}

/// What was imported stays, and stays as it is. The answers say how many versions and accumulations were added. Each version was added
/// by one file or one job, and each accumulation by a NEM13 file that states it.
pub fn nothing_is_lost()
    ensures lawful { LawStays }
    ensures missing { NothingIsMissing }
    ensures altered { NothingIsAltered }
    ensures count { AnswersTellHowMany }
    ensures origin { EachCameByOne }
    ensures periods { EachPeriodCameByFile }
{}

/// A request, and what is kept before it, decide its answer and what is kept after it. The answer may also be Unavailable, and then
/// nothing changes. Take two runs in which the answered requests ask the same. They have the same answers, and end in the same state.
pub fn an_answer_is_determined()
    ensures answers { AnswersAreDetermined }
    ensures runs { RunsAreDetermined }
    ensures aside { UnansweredStandAside }
    ensures all { AnsweredAreAll }
{}

/// Files that were answered and agree are imported, whatever their order. What they state together decides what is kept in the end,
/// and how much was added. The parts of a file together state what the file does, and end in the same state.
pub fn files_come_in_any_order()
    ensures each { EachIsTakenIn }
    ensures alike { SameFactsEndAlike }
    ensures parts { PartsStateTheWhole }
    ensures split { PartsEndAsTheWhole }
{}

/// Files that agreed when a day had one length agree now. A day may have another length under another update. So more files agree, and
/// no file is excluded.
pub fn one_length_a_day_agrees_as_before()
    ensures { (w : World) → AgreeByDay w → Agrees w }
{}

/// A job, and a file that states nothing of the days that the job may look at, may change places. If both are answered, both answers
/// are the same in either order, and so is what is kept in the end. Any answers in one order are possible in the other.
pub fn a_job_and_a_file_change_places()
    ensures both { ChangePlaces }
    ensures either { MayChangePlaces }
{}

/// The text of an export is a file that an empty store imports. It then has what was selected. The store that the export came from
/// imports it, too, and nothing current changes.
pub fn an_export_comes_back()
    ensures empty { ReturnsToAnEmptyStore }
    ensures home { ReturnsToItsStore }
{}

/// The gaps of all streams have, for each stream that is asked for, the rows of its own register. A stream with a gap has rows. The
/// register of readings has, for each day, the readings that the day's own query and an export have.
pub fn registers_agree()
    ensures missing { MissingShowsGaps }
    ensures days { ReadingsShowDays }
    ensures exports { ReadingsShowExports }
{}
