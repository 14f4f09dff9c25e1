//! Laws of the World. The functions do nothing.

ghost use Rattle.std.specs.Prelude.{◌≡◌, ◌↔◌, ◌⊎◌, ◌+◌, ◌++◌, ℕ, List};
ghost use Rattle.mds_names.specs.declared.stream.Stream.{Stream};
ghost use Rattle.mds_marks.specs.Reading.{ReadingValue};
ghost use Rattle.mds_terms.specs.Details.{DetailsValue};
ghost use Rattle.mds_statements.specs.Statements.{Statement};
ghost use Rattle.mds_world.specs.Current.{DetailsComeFrom, HasSameDetails, IsCurrentDetails, IsDayReading, IsForm, IsLatest, IsNearestDetails};
ghost use Rattle.mds_world.specs.declared.facts.Detail.{Detail as DetailValue};
ghost use Rattle.mds_world.specs.declared.facts.Head.{Head as HeadValue};
ghost use Rattle.mds_world.specs.Facts.{Fact};
ghost use Rattle.mds_world.specs.Facts.Fact.{DetailIs};
ghost use Rattle.mds_world.specs.Sets.{◌∈◌};
ghost use Rattle.mds_world.specs.World.{World, Agrees, IsCurrent, IsKnownDay, IsLawful, union};
ghost use Rattle.mds_world.specs.Counts.{counted, added_by, known_by};
ghost use Rattle.mds_world.specs.Stated.{stated};

/// What a World counts grows by exactly what is added.
pub fn counts_grow()
    ensures { (w s : World) → counted (union w s) ≡ counted w + added_by w s }
{}

/// Each of the facts that come and count is known or added.
pub fn known_or_added()
    ensures { (w s : World) → counted s ≡ known_by w s + added_by w s }
{}

/// Facts that come once more add nothing and change nothing.
pub fn repeated_facts_add_nothing()
    ensures added { (w s : World) → added_by (union w s) s ≡ 0 }
    ensures world { (w s : World) → union (union w s) s ≡ union w s }
{}

/// In any order of facts, and any split of the statements, the World is the same.
pub fn any_order()
    ensures worlds { (w a b : World) → union (union w a) b ≡ union (union w b) a }
    ensures split { (xs ys : List Statement) → stated (xs ++ ys) ≡ union (stated xs) (stated ys) }
{}

/// In a World that agrees an interval of a length has at most one current reading, of one update.
pub fn one_current()
    ensures { (w : World) (stream : Stream) (day length interval update other : ℕ)
        (reading another : ReadingValue) → Agrees w
        → IsCurrent w stream day length interval update reading
        → IsCurrent w stream day length interval other another → (update ≡ other) × (reading ≡ another) }
{}

/// A known day has one head that decides its form, and its update is the greatest among the day's current readings. The day shows
/// one reading of each interval.
pub fn one_form()
    ensures some { (w : World) (stream : Stream) (day : ℕ)
        → ((head : HeadValue) × IsForm w stream day head) ⊎ (IsKnownDay w stream day → ⊥) }
    ensures one { (w : World) (stream : Stream) (day : ℕ) (a b : HeadValue) → Agrees w → IsForm w stream day a
        → IsForm w stream day b → a ≡ b }
    ensures latest { (w : World) (stream : Stream) (day : ℕ) (head : HeadValue) → IsLawful w → IsForm w stream day head
        → IsLatest w stream day head.length head.update }
    ensures read { (w : World) (stream : Stream) (day interval : ℕ)
        → (r : ReadingValue) × IsDayReading w stream day interval r }
    ensures once { (w : World) (stream : Stream) (day interval : ℕ) (r q : ReadingValue) → Agrees w
        → IsDayReading w stream day interval r → IsDayReading w stream day interval q → r ≡ q }
{}

/// A part of a World that agrees agrees too.
pub fn parts_agree()
    ensures { (w part : World) → ((fact : Fact) → fact ∈ part → fact ∈ w) → Agrees w → Agrees part }
{}

/// Each day of a stream has current details, and no others.
pub fn one_details()
    ensures some { (w : World) (stream : Stream) (day : ℕ) → (d : DetailsValue) × IsCurrentDetails w stream day d }
    ensures one { (w : World) (stream : Stream) (day : ℕ) (d e : DetailsValue) → IsCurrentDetails w stream day d
        → IsCurrentDetails w stream day e → d ≡ e }
{}

/// The current details of a day are the greatest pair of the nearest day that has some.
pub fn nearest_details()
    ensures { (w : World) (stream : Stream) (day : ℕ) (d : DetailsValue)
        → IsCurrentDetails w stream day d ↔ IsNearestDetails w stream day d }
{}

/// Details that come back change the current details of no day. Alone they are those of their days.
pub fn details_come_back()
    ensures beside { (w back : World) → DetailsComeFrom w back → (stream : Stream) (day : ℕ)
        → HasSameDetails w (union w back) stream day }
    ensures alone { (w back : World) → DetailsComeFrom w back → (detail : DetailValue) → DetailIs detail ∈ back
        → HasSameDetails w back detail.stream detail.day }
{}
