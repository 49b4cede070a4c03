//! The members of a projection as a value.
ghost use Rattle.std.specs.Prelude.{◌≡◌, ◌+◌, ◌<◌, ◌≤◌, ◌^◌, ◌⊎◌, length, None, Some, IfErr, IsErrAnd, IfOk, IsPermutation, MatchOption, slice_get};
ghost use Rattle.ed_layers.specs.Order.{overlap_fault};
ghost use Rattle.ed_layers.specs.Records.{member_len, members_len, placement};
ghost use Rattle.std.specs.List.{All};
ghost use Rattle.ed_layers.specs.Bounds.{members_after};
ghost use Rattle.ed_members.specs.Faults.{first_fault, len_in, refusal_of, replaced};
ghost use Rattle.ed_members.specs.Moving.{EndsInOld, EndsInNew, OwnInside, OwnInOrder};
ghost use Rattle.ed_base.specs.Numbers.{places};
ghost use Rattle.ed_members.specs.Sorted.{AreSorted};
ghost use Rattle.ed_members.specs.Steps.{steps_seen};

use crate::conflicts::ordered;
use crate::copies::put_copies;
use crate::fault::MemberFault;
use crate::modes::uncovered;
use crate::moving::moved_members;
use crate::sorted::sorted_after;
use crate::starts::{are_short, len_of, starts_of};
use crate::steps::SourceStep;
use ed_base::{BufferNo, Member, OutOfMemory, SharedList, Span};
use std::alloc::Global;
use std::marker::Model;

/// The members of a projection, in the order in which their texts stand: texts of its own, and
/// spans of sources that follow them. Of two members on one source the first ends before the other
/// begins, or they touch.
///
/// Its notions are those of the editor SDK's `IProjectionBuffer` and
/// `IProjectionSnapshot.GetSourceSpans`.
#[derive(Drop)]
pub struct Members {
    list: Vec<Member>,
    starts: Vec<u32>,
    total: u32,
    order: SharedList<u32>,
}

impl Model for Members {
    ghost use Rattle.std.specs.Prelude.{List};
    ghost use Rattle.ed_base.specs.declared.piece.Member.{Member};
    ghost use Rattle.ed_members.specs.Starts.{IsKept};

    ghost Value = { List Member };

    ghost view = { λ m. m.list.items };

    ghost invariant = { λ m. IsKept m.list.items m.starts.items m.total m.order };
}

impl Members {
    /// These members, and where each begins, beside their order on their sources.
    ///
    /// # Errors
    ///
    /// Memory was refused, or all members together have 2^32 units or more.
    fn kept(
        alloc: Global,
        list: Vec<Member>,
        order: SharedList<u32>,
    ) -> Result<Members, OutOfMemory>
        requires few { length list.items < 2 ^ 32 }
        requires apart { overlap_fault list.items ≡ None }
        requires all { IsPermutation (places (length list.items)) order }
        requires sorted { AreSorted list.items order }
        ensures members { IfOk result (λ m. m ≡ list.items) }
        ensures short { IfOk result (λ m. members_len m < 2 ^ 32) }
    {
        if !are_short(&list) {
            return Err(OutOfMemory);
        }
        let (starts, total) = starts_of(alloc, &list)?;
        Ok(Members {
            list,
            starts,
            total,
            order,
        })
    }

    /// These members. The lengths of the sources are listed once each, in units.
    ///
    /// # Errors
    ///
    /// `Mode` names the first inclusive member that doesn't cover its source, exactly where there
    /// is one. Else `Overlap` names the first member that conflicts with one behind it, and the
    /// first such one, exactly where there is one. Else memory may be refused; all members together
    /// having 2^32 units or more counts as that. 2^32 members or more aren't judged and count as want
    /// of memory.
    pub fn of(
        alloc: Global,
        list: Vec<Member>,
        source_len: &[(BufferNo, u32)],
    ) -> Result<Members, MemberFault>
        ensures members { IfOk result (λ m. m ≡ list.items) }
        ensures few { IfOk result (λ m. length m < 2 ^ 32) }
        ensures short { IfOk result (λ m. members_len m < 2 ^ 32) }
        ensures fault { MatchOption (first_fault (len_in source_len.now) list.items) (IfErr result (λ e. e ≡ MemberFault.OutOfMemory)) (λ r. IsErrAnd result (λ e. (e ≡ MemberFault.OutOfMemory) × (2 ^ 32 ≤ length list.items) ⊎ (refusal_of e ≡ Some r))) }
    {
        if list.len() > u32::MAX as usize {
            return Err(MemberFault::OutOfMemory);
        }
        if let Some(index) = uncovered(source_len, &list) {
            return Err(MemberFault::Mode { index });
        }
        let order = ordered(alloc, &list)?;
        Ok(Members::kept(alloc, list, order)?)
    }

    /// These members, but with those of this list in place of `count` members from `first` on. The
    /// units of a literal that stays are shared.
    ///
    /// # Errors
    ///
    /// Want of memory, or the fault that `of` names for the list that would result, where it has
    /// one. Indices are those of that list.
    pub fn replace_spans(
        &self,
        alloc: Global,
        first: u32,
        count: u32,
        list: Vec<Member>,
        source_len: &[(BufferNo, u32)],
    ) -> Result<Members, MemberFault>
        requires there { first + count ≤ length self.now }
        ensures members { IfOk result (λ m. m ≡ replaced self.now first count list.items) }
        ensures fault { MatchOption (first_fault (len_in source_len.now) (replaced self.now first count list.items)) (IfErr result (λ e. e ≡ MemberFault.OutOfMemory)) (λ r. IsErrAnd result (λ e. (e ≡ MemberFault.OutOfMemory) ⊎ (refusal_of e ≡ Some r))) }
    {
        let joined = self.joined(alloc, first, count, list)?;
        Members::of(alloc, joined, source_len)
    }

    /// The members of the carrier `me` after these steps of their sources, one step a source; a
    /// source that isn't among them didn't step. A literal stays. A tracked member holds its units
    /// that were kept and the units that it owns, and its new bounds are the least range that has
    /// them all. A member that holds nothing is empty where its start goes, or before the next member
    /// that holds something. An inclusive member covers its source.
    ///
    /// # Errors
    ///
    /// Memory was refused, or all members together would be 2^32 units or more.
    pub fn advance(
        &self,
        alloc: Global,
        me: BufferNo,
        steps: &[SourceStep],
    ) -> Result<Members, OutOfMemory>
        requires within { All (EndsInOld (steps_seen steps.now)) self.now }
        requires inside { OwnInside me (steps_seen steps.now) self.now }
        requires order { OwnInOrder me (steps_seen steps.now) self.now }
        ensures members { IfOk result (λ m. m ≡ members_after me (steps_seen steps.now) self.now) }
        ensures within { IfOk result (λ m. All (EndsInNew (steps_seen steps.now)) m) }
    {
        let list = moved_members(
            alloc,
            me,
            self.list.as_slice(),
            self.order.as_slice(),
            steps,
        )?;
        let order = sorted_after(alloc, &list, &self.order)?;
        Members::kept(alloc, list, order)
    }

    /// The list of these members, but with those of the given list in place of `count` members from
    /// `first` on. The units of a literal that stays are shared.
    ///
    /// # Errors
    ///
    /// Memory was refused.
    pub fn joined(
        &self,
        alloc: Global,
        first: u32,
        count: u32,
        list: Vec<Member>,
    ) -> Result<Vec<Member>, OutOfMemory>
        requires { first + count ≤ length self.now }
        ensures { IfOk result (λ v. v.items ≡ replaced self.now first count list.items) }
    {
        let members = self.list.as_slice();
        let end = first + count;
        let mut added = list;
        let mut joined = Vec::new(alloc);
        put_copies(&mut joined, &members[..first as usize])?;
        joined.append(&mut added)?;
        put_copies(&mut joined, &members[end as usize..])?;
        Ok(joined)
    }

    /// How many members there are.
    pub fn count(&self) -> u32
        ensures count { result ≡ length self.now }
        ensures apart { overlap_fault self.now ≡ None }
    {
        self.list.len() as u32
    }

    /// The member with this index, from 0 on.
    pub fn get(&self, i: u32) -> &Member
        requires { i < length self.now }
        ensures { slice_get self.now i ≡ Some result.now }
    {
        &self.list[i as usize]
    }

    /// Where the member with this index lies in the text of the projection, in units.
    pub fn place(&self, i: u32) -> Span
        requires { i < length self.now }
        ensures place { result ≡ placement self.now i }
        ensures within { result.start + result.len ≤ members_len self.now }
    {
        let starts = self.starts.as_slice();
        let members = self.list.as_slice();
        Span {
            start: starts[i as usize],
            len: len_of(&members[i as usize]),
        }
    }

    /// The length of the text of the projection, in units.
    pub fn len(&self) -> u32
        ensures { result ≡ members_len self.now }
    {
        self.total
    }
}
