//! Edits of buffers.
ghost use Rattle.std.specs.Prelude.{◌≡◌, ◌+◌, ◌<◌, ◌≤◌, ◌^◌, length, None, Some, IfOk, OnOk, OnErr};
ghost use Rattle.ed_base.specs.ChangeList.{inserted_len};
ghost use Rattle.ed_callbacks.specs.HookLists.{hook_table};
ghost use Rattle.ed_risen.specs.Laws.{RecordsStay};
ghost use Rattle.ed_machine.specs.State.{count, text_now};
ghost use Rattle.ed_machine.specs.Refusals.{len_now, stale};
ghost use Rattle.ed_machine.specs.Step.{told};
ghost use Rattle.ed_script.specs.declared.Command.{Command as Told};
ghost use Rattle.ed_core.specs.Asking.{form_told, most_put_in, replaces_outcome};
ghost use Rattle.ed_core.specs.Deciding.{changes_outcome};
ghost use Rattle.ed_core.specs.Doing.{Does};
ghost use Rattle.ed_core.specs.Within.{IsWithin};

use crate::landing::land;
use crate::state::Core;
use ed_base::{
    BufferNo, Changes, Name, OutOfMemory, Refusal, Replace, ReplaceList, VersionList, VersionNo,
};
use ed_callbacks::Hooks;
use ed_change::{ChangeFault, normalise, puts_in_at_most};
use ed_entry::Reply;
use ed_group::BufferEdit;

/// The most units that one edit of a base puts in.
const MOST_INTO_BASE: u64 = 1 << 27;

/// The most units that one edit of a buffer over others puts in.
const MOST_INTO_CARRIER: u64 = 1 << 22;

/// The reply to replaces that have no change list.
fn unformed(fault: ChangeFault) -> Result<Reply, OutOfMemory>
    ensures reply { IfOk result (λ r. Some r ≡ form_told fault) }
    ensures err { OnErr result (form_told fault ≡ None) }
{
    match fault {
        ChangeFault::OutOfRange { end, len } => {
            Ok(Reply::Refused(Refusal::OutOfRange { end, len }))
        }
        ChangeFault::OutOfMemory => Err(OutOfMemory),
    }
}

impl Core {
    /// The refusal of a change at a version that isn't the current one.
    pub(crate) fn stale(&self, buffer: BufferNo, at: &Option<VersionNo>) -> Option<Refusal>
        requires { buffer < count self.now }
        ensures { result ≡ stale self.now buffer at.now }
    {
        let now = self.stock.now(buffer);
        match at {
            Some(named) if named.0 != now.0 => Some(Refusal::Stale { now }),
            _ => None,
        }
    }

    /// The length of the current text.
    pub(crate) fn len_now(&self, buffer: BufferNo) -> u32
        requires { buffer < count self.now }
        ensures len { result ≡ len_now self.now buffer }
        ensures few { result ≤ 2 ^ 22 }
        ensures within { IsWithin self.now }
    {
        self.stock.text_len(buffer, self.stock.now(buffer))
    }

    /// The most units that one edit of a buffer puts in.
    fn most_put_in(&self, buffer: BufferNo) -> u64
        requires { buffer < count self.now }
        ensures { result ≡ most_put_in self.now buffer }
    {
        if self.is_base(buffer) {
            MOST_INTO_BASE
        } else {
            MOST_INTO_CARRIER
        }
    }

    /// Edits the current text of a buffer by changes of it.
    fn land_changes(
        &mut self,
        hooks: &Hooks,
        buffer: BufferNo,
        changes: Changes,
    ) -> Result<Reply, OutOfMemory>
        requires there { buffer < count self.old }
        requires from { changes.old_len ≡ length (text_now self.old buffer) }
        requires put_in { inserted_len changes ≤ most_put_in self.old buffer }
        ensures reply { IfOk result (λ r. r ≡ (changes_outcome (hook_table hooks.now) self.old buffer changes).reply) }
        ensures state { OnOk result (self.new ≡ (changes_outcome (hook_table hooks.now) self.old buffer changes).state) }
        ensures err { OnErr result (self.new ≡ self.old) }
        ensures stay { RecordsStay self.old.stock self.new.stock }
    {
        if changes.count() == 0 {
            let versions = VersionList::empty();
            return Ok(Reply::Edited { versions });
        }
        let edits = [BufferEdit { buffer, changes }];
        let planned = self.stock.plan(self.alloc, hooks, &edits);
        land(&mut self.stock, planned)
    }

    /// Edits the current text of a buffer by replaces.
    fn edit_text(
        &mut self,
        hooks: &Hooks,
        buffer: BufferNo,
        replaces: &[Replace],
    ) -> Result<Reply, OutOfMemory>
        requires there { buffer < count self.old }
        ensures reply { IfOk result (λ r. r ≡ (replaces_outcome (hook_table hooks.now) self.old buffer replaces.now).reply) }
        ensures state { OnOk result (self.new ≡ (replaces_outcome (hook_table hooks.now) self.old buffer replaces.now).state) }
        ensures err { OnErr result (self.new ≡ self.old) }
        ensures stay { RecordsStay self.old.stock self.new.stock }
        ensures within { IsWithin self.old }
    {
        let now_len = self.len_now(buffer);
        if !puts_in_at_most(replaces, self.most_put_in(buffer)) {
            return Err(OutOfMemory);
        }
        match normalise(self.alloc, now_len, replaces) {
            Ok(changes) => self.land_changes(hooks, buffer, changes),
            Err(fault) => unformed(fault),
        }
    }

    /// Edits a buffer.
    pub(crate) fn edit(
        &mut self,
        hooks: &Hooks,
        name: &Name,
        replaces: &ReplaceList,
        at: &Option<VersionNo>,
    ) -> Result<Reply, OutOfMemory>
        ensures { Does (told (hook_table hooks.now) self.old (Told.Edit name.now replaces.now at.now)) self.old self.new result }
    {
        let Some(buffer) = self.number_of(name) else {
            return Ok(Reply::Refused(Refusal::NoBuffer));
        };
        if let Some(refusal) = self.stale(buffer, at) {
            return Ok(Reply::Refused(refusal));
        }
        self.edit_text(hooks, buffer, replaces.as_slice())
    }
}
