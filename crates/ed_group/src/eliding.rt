//! Elision buffers: new ones, and other hidden places of one.
ghost use Rattle.std.specs.Prelude.{◌≡◌, ◌≢◌, ◌+◌, ◌<◌, ◌≤◌, [], true, All, length, map, slice_get, None, Some, IfOk, MatchOption, OnErr, OnOk};
ghost use Rattle.ed_layers.specs.Hidden.{elided};
ghost use Rattle.ed_layers.specs.Records.{is_elision};
ghost use Rattle.ed_spans.specs.SpanSets.{EndsWithin};
ghost use Rattle.ed_stock.specs.Making.{elide_set, flags_of};
ghost use Rattle.ed_stock.specs.Stock.{count, record_now};
ghost use Rattle.ed_stock.specs.Versions.{versions_made};
ghost use Rattle.ed_climb.specs.Begins.{LeadsTo};
ghost use Rattle.ed_climb.specs.Group.{IsPlanned, outcome};
ghost use Rattle.ed_climb.specs.Kept.{IsKept};
ghost use Rattle.ed_climb.specs.Refusals.{Refuses};
ghost use Rattle.ed_climb.specs.declared.counts.Counts.{Counts};
ghost use Rattle.ed_held.specs.Making.{CanTurn};
ghost use Rattle.ed_held.specs.Moves.{snapshot_now};
ghost use Rattle.ed_held.specs.Rehiding.{CanRehide};
ghost use Rattle.ed_held.specs.Seen.{known, last_of, stock};
ghost use Rattle.ed_held.specs.declared.held.Held.{Held};
ghost use Rattle.ed_risen.specs.Laws.{RecordsStay};
ghost use Rattle.ed_group.specs.Answers.{elision_fault, hidden_fault, len_now, with_elision};
ghost use Rattle.ed_group.specs.Hiding.{HasBegunHidden, HasHiddenAt, IsOpened};

use crate::adding::with_buffer;
use crate::listing::newest_all;
use crate::placing::placed;
use crate::spans::may_turn;
use crate::stock::Stock;
use ed_base::{BufferNo, Name, OutOfMemory, Span};
use ed_climb::{FirstMoves, Group, PlanFault, add, group_from, new_limit, newest};
use ed_elide::{Elision, Hidden};
use ed_graph::Graph;
use ed_held::{Held, Planned, rehide};
use ed_pieces::Trails;
use ed_text::Text;
use ed_version::Snapshot;
use std::alloc::Global;

/// The elision buffer of this number that hides these places of a buffer at its current version.
fn opened(
    alloc: Global,
    buffers: &[Held],
    buffer: BufferNo,
    source: BufferNo,
    hide: &[Span],
    resolver: Option<Name>,
) -> Result<Elision, OutOfMemory>
    requires there { source < length buffers.now }
    requires within { All (EndsWithin (length (snapshot_now buffers.now source).text)) hide.now }
    ensures { IfOk result (IsOpened buffer (snapshot_now buffers.now source) hide.now resolver) }
{
    let snapshot = newest(buffers, source)?;
    let hidden = Hidden::of(alloc, snapshot.text.len(), hide)?;
    Elision::new(alloc, buffer, hidden, &snapshot, resolver)
}

/// The hidden places with these added and those taken away, if they are others then.
fn changed(
    alloc: Global,
    hidden: &Hidden,
    hide: &[Span],
    show: &[Span],
) -> Result<Option<Hidden>, OutOfMemory>
    requires hide { All (EndsWithin (length hidden.now)) hide.now }
    requires show { All (EndsWithin (length hidden.now)) show.now }
    ensures { IfOk result (λ o. MatchOption o (elided hidden.now hide.now show.now ≡ hidden.now) (λ h. (h ≡ elided hidden.now hide.now show.now) × (hidden.now ≢ h))) }
{
    let more = hidden.elide(alloc, hide)?;
    let then = more.expand(alloc, show)?;
    if then.is_same(hidden) {
        return Ok(None);
    }
    Ok(Some(then))
}

/// The same of one of these buffers, which is an elision buffer.
fn changed_in(
    alloc: Global,
    held: &Held,
    hide: &[Span],
    show: &[Span],
) -> Result<Option<Hidden>, OutOfMemory>
    requires hides { is_elision (last_of (known held.now).buffer) ≡ true }
    requires hide { All (EndsWithin (length (flags_of (last_of (known held.now).buffer)))) hide.now }
    requires show { All (EndsWithin (length (flags_of (last_of (known held.now).buffer)))) show.now }
    ensures { IfOk result (λ o. MatchOption o (elided (flags_of (last_of (known held.now).buffer)) hide.now show.now ≡ flags_of (last_of (known held.now).buffer)) (λ h. (h ≡ elided (flags_of (last_of (known held.now).buffer)) hide.now show.now) × (flags_of (last_of (known held.now).buffer) ≢ h))) }
{
    let Some(hidden) = held.hidden() else {
        unreachable!()
    };
    changed(alloc, hidden, hide, show)
}

/// Plans the version of one of these buffers, which is an elision buffer, that hides these places.
fn hidden_at(
    alloc: Global,
    buffers: &mut [Held],
    buffer: BufferNo,
    hidden: Hidden,
    sources: &[Snapshot],
) -> Result<Planned, OutOfMemory>
    requires there { buffer < length buffers.old }
    requires can { (h : Held) → slice_get buffers.old buffer ≡ Some h → CanRehide sources.now h hidden }
    ensures same { map known buffers.new ≡ map known buffers.old }
    ensures hidden { (h : Held) → slice_get buffers.old buffer ≡ Some h → HasHiddenAt sources.now buffers.old buffers.new buffer h hidden result }
{
    let held = &mut buffers[buffer.0 as usize];
    rehide(alloc, held, hidden, sources)
}

/// The version with which a group begins that hides these places of the source of an elision buffer.
fn begun(
    alloc: Global,
    buffers: &mut [Held],
    graph: &Graph,
    buffer: BufferNo,
    hidden: Hidden,
) -> Result<Planned, OutOfMemory>
    requires kept { (counts : Counts) × IsKept (map known buffers.old) graph.now counts }
    requires there { buffer < length buffers.old }
    requires hides { is_elision (record_now (stock buffers.old) buffer) ≡ true }
    requires size { length hidden ≡ length (flags_of (record_now (stock buffers.old) buffer)) }
    ensures same { map known buffers.new ≡ map known buffers.old }
    ensures begun { IfOk result (HasBegunHidden buffers.old buffers.new graph.now buffer hidden) }
{
    // The order is looked at for what is known of the graph's form.
    let _order = graph.order();
    let sources = newest_all(alloc, buffers, graph.sources(buffer))?;
    hidden_at(alloc, buffers, buffer, hidden, &sources)
}

/// The beginning of a group that changes nothing.
fn unchanged(alloc: Global, graph: &Graph) -> Result<FirstMoves, OutOfMemory>
    ensures { IfOk result (λ f. (f.graph ≡ graph.now) × (f.moves.items ≡ []) × (f.steps.items ≡ []) × (f.turned ≡ None)) }
{
    Ok(FirstMoves {
        graph: graph.share()?,
        moves: Vec::new(alloc),
        steps: Vec::new(alloc),
        turned: None,
    })
}

/// The beginning of a group to which other hidden places of an elision buffer lead: its own version,
/// or none where the places are the same.
///
/// # Errors
///
/// Memory was refused.
fn rehidden(
    alloc: Global,
    buffers: &mut [Held],
    graph: &Graph,
    buffer: BufferNo,
    hide: &[Span],
    show: &[Span],
) -> Result<FirstMoves, OutOfMemory>
    requires kept { (counts : Counts) × IsKept (map known buffers.old) graph.now counts }
    requires there { buffer < count (stock buffers.old) }
    requires hides { is_elision (record_now (stock buffers.old) buffer) ≡ true }
    requires hide { All (EndsWithin (length (flags_of (record_now (stock buffers.old) buffer)))) hide.now }
    requires show { All (EndsWithin (length (flags_of (record_now (stock buffers.old) buffer)))) show.now }
    ensures same { map known buffers.new ≡ map known buffers.old }
    ensures leads { IfOk result (LeadsTo buffers.new (hidden_fault (stock buffers.old) buffer hide.now show.now) (elide_set (stock buffers.old) buffer hide.now show.now)) }
{
    // The order is looked at for what is known of the graph's form.
    let _order = graph.order();
    let all = &buffers[..];
    let Some(hidden) = changed_in(alloc, &all[buffer.0 as usize], hide, show)? else {
        return unchanged(alloc, graph);
    };
    if !may_turn(buffers, buffer) {
        return Err(OutOfMemory);
    }
    let next = begun(alloc, buffers, graph, buffer, hidden)?;
    let mut moves = Vec::new(alloc);
    let mut steps = Vec::new(alloc);
    add(buffer, next, Trails::empty(), &mut moves, &mut steps)?;
    Ok(FirstMoves {
        graph: graph.share()?,
        moves,
        steps,
        turned: Some(buffer),
    })
}

impl Stock {
    /// Adds an elision buffer, which hides these places of the current text of its source, and gives
    /// its number. The resolver, if one is named, is the rule by which changes of it are shared among
    /// its members.
    ///
    /// # Errors
    ///
    /// Buffers would be stacked too high, a limit is passed, or memory was refused.
    pub fn add_elision(
        &mut self,
        alloc: Global,
        source: BufferNo,
        hide: &[Span],
        resolver: Option<Name>,
    ) -> Result<BufferNo, PlanFault>
        requires there { source < count (stock self.old) }
        requires within { All (EndsWithin (len_now (stock self.old) source)) hide.now }
        ensures fault { Refuses (elision_fault (stock self.old) source hide.now) result }
        ensures number { IfOk result (λ b. b ≡ count (stock self.old)) }
        ensures ok { OnOk result (stock self.new ≡ with_elision (stock self.old) source hide.now resolver) }
        ensures err { OnErr result (stock self.new ≡ stock self.old) }
        ensures stay { RecordsStay (stock self.old) (stock self.new) }
    {
        let (graph, buffer) = placed(alloc, &self.graph, &[source])?;
        let elision = opened(alloc, &self.buffers, buffer, source, hide, resolver)?;
        let members = elision.members(elision.now());
        let most = u64::from(members.count());
        let units = u64::from(members.len());
        let counts = with_buffer(&self.counts, 0, most);
        let buffers = u64::from(self.graph.count());
        if let Some(refusal) = new_limit(buffers + 1, units, &counts, most) {
            return Err(PlanFault::Refused(refusal));
        }
        self.put(Held::Elision { elision, turns: 0 }, graph, counts)?;
        Ok(buffer)
    }

    /// Plans that an elision buffer hides other places: first the places in the spans to hide are
    /// added, then those in the spans to show are taken away. It makes a version exactly where the
    /// hidden places change, and then so does each buffer that stands over it, in the order of the
    /// graph. Contracts see the stock as it was, also after a fault: only room is reserved.
    ///
    /// # Errors
    ///
    /// A limit is passed, or memory was refused.
    pub fn plan_hidden(
        &mut self,
        alloc: Global,
        b: BufferNo,
        hide: &[Span],
        show: &[Span],
    ) -> Result<Group, PlanFault>
        requires there { b < count (stock self.old) }
        requires hides { is_elision (record_now (stock self.old) b) ≡ true }
        requires hide { All (EndsWithin (length (flags_of (record_now (stock self.old) b)))) hide.now }
        requires show { All (EndsWithin (length (flags_of (record_now (stock self.old) b)))) show.now }
        ensures same { stock self.new ≡ stock self.old }
        ensures fault { Refuses (hidden_fault (stock self.old) b hide.now show.now) result }
        ensures planned { IfOk result (IsPlanned self.new) }
        ensures outcome { IfOk result (λ g. outcome (stock self.old) g ≡ (elide_set (stock self.old) b hide.now show.now).stock) }
        ensures versions { IfOk result (λ g. g.versions ≡ versions_made (elide_set (stock self.old) b hide.now show.now)) }
    {
        let first = rehidden(alloc, &mut self.buffers, &self.graph, b, hide, show)?;
        group_from(alloc, &mut self.buffers, &self.counts, first)
    }
}
