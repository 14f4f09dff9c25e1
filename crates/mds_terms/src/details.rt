//! The details of a meter.

ghost use Rattle.std.specs.Prelude.{◌≡◌, ◌<◌, ◌+◌, ◌↔◌, ℕ, List, [], ◌∷◌, length, IsTrue, true, IfOk, IsSome, OnOk, OnErr, Some, string_bytes, string_capacity, string_len, refl};
ghost use Rattle.std.specs.Cmp.{eq_by_cmp_equiv, partial_equiv_from_equiv, partial_order_from_total};
ghost use Rattle.std.specs.List.{slice_split, list_all};
ghost use Rattle.std.specs.Ordering.{as_partial_cmp, eq_by_cmp};
ghost use Rattle.mds_quantity.specs.Append.{Appends, AppendsPart};
ghost use Rattle.mds_names.specs.Names.{is_comma};
ghost use Rattle.mds_terms.specs.Printable.{is_printable};
ghost use Rattle.mds_terms.specs.Details.{DetailsValue, is_details, details_cmp, details_of, IsDetailsText};
ghost use Rattle.mds_terms.specs.TermOrder.{details_total};

use crate::details_ref::DetailsRef;
use crate::parts::{day_digits, day_text, own_text, write_joined};
use mds_calendar::{Day, one_day_text};
use std::alloc::{AllocError, Global};
use std::cmp::Ordering;
use std::marker::Model;

/// The details of a meter: four printable texts, each empty if absent, and the next scheduled read date. Details are
/// ordered field by field, texts by their bytes, and an absent date comes first.
#[derive(Drop)]
pub struct Details {
    configuration: String,
    register: String,
    datastream: String,
    meter: String,
    next_read: Option<Day>,
}

impl Model for Details {
    ghost use Rattle.std.specs.Prelude.{◌≡◌, true, string_bytes};
    ghost use Rattle.mds_terms.specs.Details.{DetailsValue, is_details};

    ghost Value = { DetailsValue };

    ghost view = { λ d. record {
      configuration = string_bytes d.configuration;
      register = string_bytes d.register;
      datastream = string_bytes d.datastream;
      meter = string_bytes d.meter;
      next = d.next_read;
    } };

    ghost invariant = { λ d. is_details (record {
      configuration = string_bytes d.configuration;
      register = string_bytes d.register;
      datastream = string_bytes d.datastream;
      meter = string_bytes d.meter;
      next = d.next_read;
    }) ≡ true };
}

impl Details {
    /// Reads details from five texts, each empty if absent: four printable ones and a day (CCYYMMDD). `None` if one
    /// of them isn't valid. Takes memory only for details with a text: none if the first four are empty.
    pub fn read(
        alloc: Global,
        configuration: &[u8],
        register: &[u8],
        datastream: &[u8],
        meter: &[u8],
        next: &[u8],
    ) -> Result<Option<Details>, AllocError>
        ensures value { IfOk result (λ details. details
            ≡ details_of configuration.now register.now datastream.now meter.now next.now) }
        ensures full { OnErr result (0 < length configuration.now + length register.now + length datastream.now
            + length meter.now) }
        ensures reads { OnErr result
            (IsSome (details_of configuration.now register.now datastream.now meter.now next.now)) }
    {
        match DetailsRef::read(configuration, register, datastream, meter, next) {
            Some(details) => Ok(Some(details.to_details(alloc)?)),
            None => Ok(None),
        }
    }

    /// The configuration of the NMI's datastreams (NMIConfiguration).
    pub fn configuration(&self) -> &str
        ensures value { result.now ≡ self.now.configuration }
        ensures lawful { is_details self.now ≡ true }
    {
        self.configuration.as_str()
    }

    /// The register of the meter (RegisterID).
    pub fn register(&self) -> &str
        ensures { result.now ≡ self.now.register }
    {
        self.register.as_str()
    }

    /// The datastream of the market's settlement (MDMDataStreamIdentifier).
    pub fn datastream(&self) -> &str
        ensures { result.now ≡ self.now.datastream }
    {
        self.datastream.as_str()
    }

    /// The serial number of the meter (MeterSerialNumber).
    pub fn meter(&self) -> &str
        ensures { result.now ≡ self.now.meter }
    {
        self.meter.as_str()
    }

    /// The next scheduled read date (NextScheduledReadDate), if present.
    pub fn next(&self) -> Option<Day>
        ensures { result ≡ self.now.next }
    {
        self.next_read
    }

    /// Appends their one text, the five parts joined by commas, such as `E1,1,N1,01009,20240201`
    /// (`details_read_back`). It fails only if `out` has no room for all of it and can't grow. A prefix of it may be
    /// appended then.
    pub fn write_to(&self, out: &mut String) -> Result<(), AllocError>
        ensures done { OnOk result ((text : List ℕ) × IsDetailsText self.now text
            × Appends (string_bytes out.old) (string_bytes out.new) text) }
        ensures part { OnErr result ((text : List ℕ) × IsDetailsText self.now text
            × AppendsPart (string_bytes out.old) (string_bytes out.new) text
            × (string_capacity out.old < string_len out.old + length text)) }
    {
        let Details {
            configuration,
            register,
            datastream,
            meter,
            next_read: next,
        } = self;
        let digits = day_digits(*next);
        write_joined(
            out,
            &[
                configuration.as_str(),
                register.as_str(),
                datastream.as_str(),
                meter.as_str(),
                day_text(*next, &digits),
            ],
        )
    }

    /// A copy of the details. It fails only if memory is refused, and never if all texts are empty.
    pub fn try_clone(&self) -> Result<Details, AllocError>
        ensures value { IfOk result (λ details. details ≡ self.now) }
        ensures full { OnErr result (0 < length self.now.configuration + length self.now.register
            + length self.now.datastream + length self.now.meter) }
    {
        own_details(
            *self.configuration.allocator(),
            self.configuration(),
            self.register(),
            self.datastream(),
            self.meter(),
            self.next(),
        )
    }

    /// Whether both are equal.
    #[tactic(auto, using(crate::proofs::TermOrder::details_decided))]
    pub fn is_same(&self, other: &Details) -> bool
        ensures { IsTrue result ↔ (self.now ≡ other.now) }
    {
        self.cmp(other).is_eq()
    }

    /// A law: details are equal exactly if all fields are, and they are ordered field by field.
    #[tactic(auto, using(crate::proofs::TermOrder::details_decided))]
    pub fn one_order()
        ensures equal { (a b : DetailsValue) → IsTrue (⟦<Details as PartialEq>⟧.eq a b) ↔ (a ≡ b) }
        ensures order { (a b : DetailsValue) → ⟦<Details as Ord>⟧.cmp a b ≡ details_cmp a b }
    {}
}

impl PartialEq for Details {
    ghost eq = { eq_by_cmp details_cmp };

    ghost laws = { partial_equiv_from_equiv (eq_by_cmp_equiv details_total) };

    #[tactic(auto, using(crate::proofs::TermOrder::details_decided))]
    fn eq(&self, other: &Details) -> bool {
        self.is_same(other)
    }
}

impl Eq for Details {
    ghost laws = { eq_by_cmp_equiv details_total };
}

impl PartialOrd for Details {
    ghost partial_cmp = { as_partial_cmp details_cmp };

    ghost laws = { partial_order_from_total details_total };

    fn partial_cmp(&self, other: &Details) -> Option<Ordering> {
        Some(self.cmp(other))
    }
}

impl Ord for Details {
    ghost cmp = { details_cmp };

    ghost total = { details_total };

    ghost matches_partial_cmp = { λ _ _. refl };

    ghost matches_eq = { λ _ _. refl };

    fn cmp(&self, other: &Details) -> Ordering {
        self.configuration()
            .cmp(other.configuration())
            .then(self.register().cmp(other.register()))
            .then(self.datastream().cmp(other.datastream()))
            .then(self.meter().cmp(other.meter()))
            .then(self.next().cmp(&other.next()))
    }
}

/// The details with their own copies of the texts.
pub(crate) fn own_details(
    alloc: Global,
    configuration: &str,
    register: &str,
    datastream: &str,
    meter: &str,
    next: Option<Day>,
) -> Result<Details, AllocError>
    requires { list_all is_printable (configuration.now ∷ register.now ∷ datastream.now ∷ meter.now ∷ []) ≡ true }
    ensures value { IfOk result (λ details. details ≡ record {
      configuration = configuration.now;
      register = register.now;
      datastream = datastream.now;
      meter = meter.now;
      next = next;
    }) }
    ensures full { OnErr result (0 < length configuration.now + length register.now + length datastream.now
        + length meter.now) }
{
    Ok(Details {
        configuration: own_text(alloc, configuration)?,
        register: own_text(alloc, register)?,
        datastream: own_text(alloc, datastream)?,
        meter: own_text(alloc, meter)?,
        next_read: next,
    })
}

/// The laws of the text of details. The pieces between its commas read back as these details, and details have only
/// one text.
pub fn details_read_back()
    ensures pieces { (details : DetailsValue) (text : List ℕ) → is_details details ≡ true → IsDetailsText details text
        → (next : List ℕ) × (slice_split is_comma text ≡ details.configuration ∷ details.register
        ∷ details.datastream ∷ details.meter ∷ next ∷ [])
        × (details_of details.configuration details.register details.datastream details.meter next ≡ Some details) }
    ensures only { (details : DetailsValue) (a b : List ℕ) → IsDetailsText details a → IsDetailsText details b → a ≡ b }
{
    one_day_text();
}
