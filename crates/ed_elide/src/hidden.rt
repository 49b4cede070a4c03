//! Hidden text of a source, as runs.
ghost use Rattle.std.specs.Prelude.{◌≡◌, ◌↔◌, ◌<◌, ◌≤◌, [], length, All, IfOk, IsTrue};
ghost use Rattle.ed_base.specs.Runs.{runs};
ghost use Rattle.ed_layers.specs.Records.{is_hidden};
ghost use Rattle.ed_layers.specs.Hidden.{elided, hidden_by, nearest};
ghost use Rattle.ed_spans.specs.SpanSets.{AreApartFrom, EndsWithin};
ghost use Rattle.ed_elide.specs.Kept.{shown_before};

use ed_base::{OutOfMemory, Span};
use ed_spans::{difference, join, union};
use std::alloc::Global;
use std::marker::Model;

/// The hidden places of a source text, kept as runs and seen by contracts as a flag for each place,
/// after the spans of `IElisionBuffer` of the editor SDK. Places and lengths are in UTF-16 units of
/// the source.
#[derive(Drop)]
pub struct Hidden {
    len: u32,
    spans: Vec<Span>,
    places: Vec<u32>,
}

impl Model for Hidden {
    ghost use Rattle.std.specs.Prelude.{List, Bool};
    ghost use Rattle.ed_layers.specs.Hidden.{hidden_by};
    ghost use Rattle.ed_elide.specs.Kept.{IsKept};

    ghost Value = { List Bool };

    ghost view = { λ h. hidden_by h.len h.spans.items };

    ghost invariant = { λ h. IsKept h.len h.spans.items h.places.items };
}

/// How many shown places stand before each of these spans.
fn places_of(alloc: Global, len: u32, spans: &[Span]) -> Result<Vec<u32>, OutOfMemory>
    requires { AreApartFrom 0 len spans.now }
    ensures { IfOk result (λ v. v.items ≡ shown_before 0 0 spans.now) }
{
    let mut places = Vec::new(alloc);
    let (mut end, mut shown) = (0u32, 0u32);
    for span in spans {
        shown += span.start - end;
        places.push(shown)?;
        end = span.start + span.len;
    }
    Ok(places)
}

impl Hidden {
    /// The set of the places in these spans, which lie apart.
    ///
    /// # Errors
    ///
    /// Memory was refused.
    pub(crate) fn kept(alloc: Global, len: u32, spans: Vec<Span>) -> Result<Hidden, OutOfMemory>
        requires { AreApartFrom 0 len spans.items }
        ensures { IfOk result (λ h. h ≡ hidden_by len spans.items) }
    {
        let places = places_of(alloc, len, &spans)?;
        Ok(Hidden { len, spans, places })
    }

    /// The places of a text of `len` units that these spans of it hold. It takes O(k log k) for k
    /// spans.
    ///
    /// # Errors
    ///
    /// Memory was refused.
    pub fn of(alloc: Global, len: u32, hide: &[Span]) -> Result<Hidden, OutOfMemory>
        requires { All (EndsWithin len) hide.now }
        ensures { IfOk result (λ h. h ≡ hidden_by len hide.now) }
    {
        let spans = join(alloc, hide)?;
        let hidden = Hidden::kept(alloc, len, spans)?;
        Ok(hidden)
    }

    /// The same places and those in the spans. It takes O(r + k log k) for r runs and k spans.
    ///
    /// # Errors
    ///
    /// Memory was refused.
    pub fn elide(&self, alloc: Global, hide: &[Span]) -> Result<Hidden, OutOfMemory>
        requires { All (EndsWithin (length self.now)) hide.now }
        ensures { IfOk result (λ h. h ≡ elided self.now hide.now []) }
    {
        let len = self.len();
        let spans = union(alloc, self.runs(), hide)?;
        let hidden = Hidden::kept(alloc, len, spans)?;
        Ok(hidden)
    }

    /// The same places but for those in the spans, which are shown. It takes O(r + k log k) for r runs
    /// and k spans.
    ///
    /// # Errors
    ///
    /// Memory was refused.
    pub fn expand(&self, alloc: Global, show: &[Span]) -> Result<Hidden, OutOfMemory>
        requires { All (EndsWithin (length self.now)) show.now }
        ensures { IfOk result (λ h. h ≡ elided self.now [] show.now) }
    {
        let len = self.len();
        let spans = difference(alloc, len, self.runs(), show)?;
        let hidden = Hidden::kept(alloc, len, spans)?;
        Ok(hidden)
    }

    /// The same places once more.
    ///
    /// # Errors
    ///
    /// Memory was refused.
    pub fn copied(&self, alloc: Global) -> Result<Hidden, OutOfMemory>
        ensures { IfOk result (λ h. h ≡ self.now) }
    {
        let len = self.len();
        let mut spans = Vec::new(alloc);
        spans.extend_from_slice(self.runs())?;
        let hidden = Hidden::kept(alloc, len, spans)?;
        Ok(hidden)
    }

    /// The length of the source text.
    pub fn len(&self) -> u32
        ensures { result ≡ length self.now }
    {
        self.len
    }

    /// The maximal runs of hidden places, by rising place.
    pub fn runs(&self) -> &[Span]
        ensures runs { result.now ≡ runs (is_hidden self.now) (length self.now) }
        ensures flags { hidden_by (length self.now) result.now ≡ self.now }
        ensures apart { AreApartFrom 0 (length self.now) result.now }
    {
        self.spans.as_slice()
    }

    /// Whether both sets are of one length and hold the same places, which is where their runs are
    /// equal.
    pub fn is_same(&self, other: &Hidden) -> bool
        ensures { IsTrue result ↔ (self.now ≡ other.now) }
    {
        self.len == other.len && self.spans.as_slice() == other.spans.as_slice()
    }

    /// The nearest shown place of a place of the source: the number of shown units before it. It is
    /// found in O(log r) of r runs.
    pub fn nearest(&self, place: u32) -> u32
        requires { place ≤ length self.now }
        ensures { result ≡ nearest self.now place }
    {
        let spans = self.spans.as_slice();
        let begun = spans.partition_point(|span| span.start < place);
        if begun == 0 {
            return place;
        }
        let last = spans[begun - 1];
        let places = self.places.as_slice();
        places[begun - 1] + place.saturating_sub(last.start + last.len)
    }

    /// The number of shown units.
    pub fn shown_len(&self) -> u32
        ensures { result ≡ nearest self.now (length self.now) }
    {
        self.nearest(self.len())
    }

    /// Whether the place is hidden.
    pub fn is_hidden(&self, place: u32) -> bool
        requires { place < length self.now }
        ensures { result ≡ is_hidden self.now place }
    {
        // The length is looked at for that it is below 2^32.
        let _len = self.len();
        self.nearest(place) == self.nearest(place + 1)
    }
}
