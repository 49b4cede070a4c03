//! What an event does.
ghost use Rattle.std.specs.Prelude.{◌≡◌, IfOk, OnOk, OnErr};
ghost use Rattle.ed_callbacks.specs.HookLists.{hook_table};
ghost use Rattle.ed_risen.specs.Laws.{CurrentVector, OneVector, RecordsStay};
ghost use Rattle.ed_machine.specs.Step.{step, told};
ghost use Rattle.ed_core.specs.Doing.{Does};
ghost use Rattle.ed_core.specs.Typed.{TypedText};

use crate::state::Core;
use ed_base::{OutOfMemory, SeatNo, Span, SpanList};
use ed_callbacks::Hooks;
use ed_entry::{Event, Reply};
use ed_script::Command;

impl Core {
    /// Does what a command asks. One that only reads finds its reply first, and then all are weighed
    /// in one place.
    fn tell(&mut self, hooks: &Hooks, command: &Command) -> Result<Reply, OutOfMemory>
        ensures { Does (told (hook_table hooks.now) self.old command.now) self.old self.new result }
    {
        let reply = match command {
            Command::Buffer { name, text } => return self.make_buffer(name, text),
            Command::Projection {
                name,
                spans,
                resolver,
            } => return self.make_projection(hooks, name, spans, resolver),
            Command::Elision {
                name,
                buffer,
                hide,
                resolver,
            } => return self.make_elision(hooks, name, buffer, hide, resolver),
            Command::Edit {
                buffer,
                replaces,
                at,
            } => return self.edit(hooks, buffer, replaces, at),
            Command::Spans {
                buffer,
                first,
                count,
                spans,
                at,
            } => return self.replace_spans(buffer, *first, *count, spans, at),
            Command::Elide {
                buffer,
                hide,
                show,
                at,
            } => return self.elide(buffer, hide, show, at),
            Command::Region {
                buffer,
                start,
                len,
                edge,
                mode,
                query,
            } => {
                let (start, len) = (*start, *len);
                return self.add_region(hooks, buffer, Span { start, len }, *edge, *mode, query);
            }
            Command::Unregion { buffer, region } => return Ok(self.remove_region(buffer, *region)),
            Command::Readonly { buffer, start, len } => {
                let (start, len) = (*start, *len);
                self.readonly_told(hooks, buffer, Span { start, len })
            }
            Command::Text { buffer, at } => self.text_told(buffer, at)?,
            Command::Lines { buffer, at } => self.lines_told(buffer, at)?,
            Command::Changes { buffer, from } => self.changes_told(buffer, *from)?,
            Command::Versions { buffer } => self.versions_told(buffer)?,
            Command::Point {
                buffer,
                pos,
                mode,
                at,
                to,
            } => self.point_told(buffer, *pos, *mode, at, to),
            Command::Span {
                buffer,
                start,
                len,
                how,
                at,
                to,
            } => {
                let (start, len) = (*start, *len);
                self.span_told(hooks, buffer, Span { start, len }, how, at, to)
            }
            Command::Nearest { buffer, pos } => self.nearest_told(buffer, *pos),
        };
        Ok(self.answer(reply))
    }

    /// Does what an event asks, and answers. The event comes from this seat; what it brings along is
    /// its load, and what a command says is in the event itself.
    ///
    /// # Errors
    ///
    /// Memory was refused; the core is as it was.
    #[tactic(auto, unfolding(ed_machine::specs::Step::step))]
    pub fn step(
        &mut self,
        hooks: &Hooks,
        seat: SeatNo,
        event: &Event,
        _load: SpanList,
    ) -> Result<Reply, OutOfMemory>
        ensures reply { IfOk result (λ r. r ≡ (step (hook_table hooks.now) self.old seat event.now).reply) }
        ensures state { OnOk result (self.new ≡ (step (hook_table hooks.now) self.old seat event.now).state) }
        ensures err { OnErr result (self.new ≡ self.old) }
        ensures one { OneVector self.new.stock }
        ensures current { CurrentVector self.new.stock }
        ensures stay { RecordsStay self.old.stock self.new.stock }
        ensures typed { IfOk result (λ r. TypedText self.old self.new event.now r) }
    {
        // The number of buffers is looked at for the laws, of the stock before and of the one after.
        let _count_before = self.count();
        match event {
            Event::Told(command) => {
                let told = self.tell(hooks, command);
                let _count = self.count();
                told
            }
        }
    }
}
